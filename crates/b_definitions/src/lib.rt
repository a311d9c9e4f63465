//! Tables of definitions in the order of use.
#![tactic(auto)]

mod arranging;
mod checks;
mod parting;
mod search;
mod sorting;
mod substitutions;
mod uses;

pub use arranging::{Disorder, arranged};
