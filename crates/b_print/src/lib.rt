//! Canonical texts of formulas.
#![tactic(auto)]

pub mod spellings;
pub mod texts;
