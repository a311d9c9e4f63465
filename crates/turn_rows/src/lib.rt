//! Values under a turn: a list of numbers, a count, and a list that is generic over who judges its numbers. Threads take
//! turns on one of them, and on a row of them.
#![tactic(auto)]

mod crowd;
mod judged;
mod numbers;
mod spaces;
mod tally;

pub use crowd::{join_each, raise_by_four, split_many};
pub use judged::{Judge, Judged};
pub use numbers::{Numbers, name};
pub use spaces::{close_last, open_judged, put_by_two};
pub use tally::{Tally, raise};

#[cfg(test)]
mod tests;
