//! The values of formulas, and the tuples of binders.
#![tactic(auto)]

mod evaluation;
mod parts;
mod tuples;

pub use tuples::{advance, eval, holds, member, next_sound, next_tuple};
