//! Clauses of machines, read from stretches of lexemes.
#![tactic(auto)]

mod clauses;
mod definitions;
mod heads;
mod making;
mod operations;
mod sets;

pub use clauses::clause;
