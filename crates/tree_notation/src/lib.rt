//! Trees from a notation for tests, in which operands stand before their operator.
#![tactic(auto)]

mod operators;
mod reading;
mod substitutions;

pub use reading::{
    Reader, binder_of, expr_of, last_of, nothing_read, read_token, take, take_binder, take_pred,
    tree_of,
};
pub use substitutions::subst_of;
