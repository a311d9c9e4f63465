//! What a substitution demands of the types of its parts.
#![tactic(auto)]

mod parts;
mod scopes;
mod telling;

pub use parts::{tell_names, tell_predicate};
pub use telling::tell;
