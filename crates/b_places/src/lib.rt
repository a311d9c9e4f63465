//! The places of a binder: the tuples of its range one after another, without a list of them.
#![tactic(auto)]

mod ranges;
mod scope;
mod tuples;
mod walk;

pub use ranges::{members_of, numbers_between};
pub use scope::{Scope, slot};
pub use tuples::{couple_of, settle, started};
pub use walk::{Range, Stand, Walk, begun, enter, set_out};
