//! Names, formulas and what else stands in substitutions without a substitution of its own, read from stretches.
#![tactic(auto)]

mod equations;
mod parts;
mod simple;

pub use equations::fixed;
pub use parts::{name, name_at, names, written, written_list};
pub use simple::simple_subst;
