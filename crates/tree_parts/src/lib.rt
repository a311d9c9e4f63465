//! Parts of resolved trees, by parts of a text's tree.
#![tactic(auto)]

mod constants;
mod sets;
mod tables;

pub use constants::{constant, place};
pub use sets::{Extents, has_numbers, type_set};
pub use tables::{Called, Joins, called_as, joins_by};
