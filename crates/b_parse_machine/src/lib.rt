//! The parser of machines.
#![tactic(auto)]

mod machines;

pub use b_ast::machine::MachineText;
pub use b_expand::{ParseFault, ParseKind};
pub use machines::parse_machine;
