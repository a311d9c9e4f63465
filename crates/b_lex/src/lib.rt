//! The tokens of classical B.
#![tactic(auto)]

mod fronts;
mod lexer;
mod strings;
mod tables;
mod tokens;
mod values;
mod words;

pub use lexer::{lex, one_reading, spelled_tokens, token_text};
pub use tables::is_left_out;
pub use tokens::{LexFault, LexKind, Token, TokenKind};
pub use values::{number_value, text_value};
pub use words::{is_blank, is_digit, is_name, is_name_byte};
