//! Operators on sequences. A sequence of values is the set of the couples of 1, 2 and so on with them.
#![tactic(auto)]

mod answers;
mod joins;
mod numbering;
mod parts;

pub use joins::{append, conc, concat, prepend, rev};
pub use numbering::is_sequence;
pub use parts::{drop_first, first, front, last, size, tail, take};
