//! An index of the names of a table of definitions.
#![tactic(auto)]

mod places;
#[cfg(test)]
mod tests;

pub use places::{Index, TableIndex, index_of, index_of_names, table_index};
