//! The names and the bounded stores as values that passes take turns on: each is true of the machine of one engine.
#![tactic(auto)]

mod names;
mod steps;
mod values;

pub use names::KeptNames;
pub use steps::KeptSteps;
pub use values::KeptValues;
