//! Operators on sets and on sets of numbers. Each answers the value or the fault of its row, or that memory ran out.
#![tactic(auto)]

mod families;
mod numbers;
mod pairs;
mod products;

pub use families::{big_inter, big_union};
pub use numbers::{card, interval, max, min};
pub use pairs::{difference, intersect, union};
pub use products::times;
