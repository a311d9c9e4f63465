//! The one typing of a machine, or of a formula beside a machine's face.
#![tactic(auto)]

mod answers;
mod clauses;
mod formulas;
mod knowing;
mod machines;

pub use answers::{CheckFault, CheckKind, Typing};
pub use formulas::{Scope, type_formula};
pub use machines::type_machine;
