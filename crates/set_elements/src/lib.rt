//! How many elements the deferred sets of a machine have, and how these are called.
#![tactic(auto)]

mod conjuncts;
mod names;
mod sizes;

pub use conjuncts::{Shape, Sizing, shape_in};
pub use names::element_name;
pub use sizes::Sizes;
