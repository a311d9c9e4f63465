//! Reads the command of a line, and writes the text of a reply.
#![tactic(auto)]

mod arguments;
mod commands;
mod parts;
mod replies;
mod text;
mod values;

pub use commands::{CommandFault, read_command};
pub use replies::{write_moved, write_reply};
pub use text::ReplyText;
