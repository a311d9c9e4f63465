//! The ranges of the variables that a binder binds, by its predicate.
#![tactic(auto)]

mod choices;
mod conjuncts;
mod offers;
mod sides;

pub use choices::{Range, ranges};
pub use sides::{Side, Slots, side_of};
