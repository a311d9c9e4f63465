//! How many typings a table of types has, and which types it says.
#![tactic(auto)]

mod counting;
mod telling;

pub use counting::{Rest, Verdict, decide, spend};
pub use telling::type_of;
