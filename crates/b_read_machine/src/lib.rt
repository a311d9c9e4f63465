//! From a machine's text to its tree, with what stands round the grammar: what is left out, and which clauses a machine
//! must and mustn't have.
#![tactic(auto)]

mod machines;
mod rules;
mod texts;

pub use machines::machine_tree;
pub use rules::{clause_missing, clause_twice, left_out};
pub use texts::machine_of_text;
