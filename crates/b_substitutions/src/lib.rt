//! Substitutions with their definitions expanded.
#![tactic(auto)]

mod expanding;
mod filler;
mod parts;
mod tables;
mod texts;
mod walk;

pub use expanding::expanded_subst;
pub use tables::{Substitutions, measured_subst, substitutions_of};
