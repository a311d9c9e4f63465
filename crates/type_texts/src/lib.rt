//! Types as authors of B write them.
#![tactic(auto)]

mod texts;

pub use texts::type_text;
