//! The table of definitions of a machine.
#![tactic(auto)]

mod declaring;
mod kinds;
mod uses;

pub use declaring::table_of;
pub use kinds::Kind;
