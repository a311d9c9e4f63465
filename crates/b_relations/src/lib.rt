//! Operators on relations and functions.
#![tactic(auto)]

mod applying;
mod closing;
mod iterating;
mod joining;
mod restricting;
mod turning;
mod walking;

pub use applying::{apply, image};
pub use closing::{closure, closure1};
pub use iterating::iterate;
pub use joining::{compose, direct, parallel, prj1, prj2};
pub use restricting::{dom_restrict, dom_subtract, overwrite, ran_restrict, ran_subtract};
pub use turning::{converse, dom, identity, ran};
