//! Equations between types: a table with a row for each part of a text.
#![tactic(auto)]

mod rows;
mod unifying;

pub use rows::{Basic, Row};
pub use unifying::{Step, flatten, root, unify};
