//! Outcomes of substitutions: the frames that one may leave, in order, each once.
#![tactic(auto)]

mod frames;
mod gathering;
mod joining;
mod labels;
mod running;
mod single;
mod whole;

pub use frames::{Frame, readable};
pub use whole::outcomes;
