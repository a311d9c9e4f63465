//! The clauses of a machine, taken apart and put together.
#![tactic(auto)]

mod assembling;
mod parting;

pub use assembling::{assembled, with_table};
pub use parting::{Parted, parts_of};
