//! Uses of definitions by their form, where some definitions use themselves.
#![tactic(auto)]

mod bodies;
mod forms;
mod substitutions;
mod texts;
mod uses;
mod walk;

pub use bodies::{formula_fits, subst_fits, wrong_body};
pub use forms::Form;
