//! What a session asks of an engine: packed states, the answers' types, and the trait.
#![tactic(auto)]

mod answers;
mod bytes;
mod engine;
mod keys;
mod packed;

pub use answers::{
    Confirmed, Counts, Found, ListEnd, OpList, Step, StepItem, StepList, ValueAnswer,
};
pub use bytes::SharedBytes;
pub use engine::Engine;
pub use keys::{FormulaKey, KeyFault, LoadKind, NamedText, SavedStep, Scope};
pub use packed::Packed;
