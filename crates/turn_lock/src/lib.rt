//! A value that threads take turns on, and the history of its entries that each of them has seen.
#![tactic(auto)]

mod call;
mod kept;
mod rule;
mod turn;
mod view;

pub use kept::Kept;
pub use turn::{Closed, NoMemory, Pass, Turn};
