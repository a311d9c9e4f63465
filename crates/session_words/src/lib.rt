//! The words of a session: commands, replies and refusals, and in `specs/` which line is which command and which text is
//! which reply.
#![tactic(auto)]

mod commands;
mod refusals;
mod replies;

pub use commands::{Command, VERBS, Verb};
pub use refusals::Refusal;
pub use replies::{ItemValue, Numbered, Reply, SubText, SubValue};
