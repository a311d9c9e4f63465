//! Machines with their definitions expanded.
#![tactic(auto)]

mod building;
mod judging;
mod measuring;

pub use judging::{Refusal, machine_text};
