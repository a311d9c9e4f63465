//! The forms of a text and the typings that keep them: `-` and `*` are of numbers or of sets.
#![tactic(auto)]

mod choosing;
mod passing;
mod settling;

pub use choosing::{Typed, type_forms};
