//! The one typing of a formula, or why there is none.
#![tactic(auto)]

mod known;
mod sorting;
mod typing;

pub use known::{Known, know_all, known_count, put_type};
pub use typing::{Answer, TYPE_LIMIT, judged, type_formula};
