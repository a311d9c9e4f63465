//! What a text of B is cut into.

use thiserror::Error;

/// What a token is.
#[derive(Clone, Copy, Debug, PartialEq, Eq)]
pub enum TokenKind {
    /// A letter followed by letters, digits and `_`, and no reserved word.
    Name,
    /// A run of digits, at most 2^127 - 1.
    Number,
    /// A string in quotes.
    Text,
    /// A reserved word, the left-out ones too.
    Word,
    /// An operator, a bracket or another sign.
    Sign,
}

/// A token, which is spelled by the bytes of a text from `from` on and before `to`.
#[derive(Clone, Copy, Debug, PartialEq, Eq)]
pub struct Token {
    pub kind: TokenKind,
    pub from: u64,
    pub to: u64,
}

/// Why a text is no row of tokens.
#[derive(Clone, Copy, Debug, PartialEq, Eq)]
pub enum LexKind {
    /// A byte that begins no token, another letter after `\`, or a byte of a string that isn't UTF-8.
    BadByte,
    /// A comment that meets the end.
    OpenComment,
    /// A string that meets LF or the end, or stands for 2^32 or more bytes.
    OpenString,
    /// A number above 2^127 - 1.
    NumberTooWide,
}

/// Why there are no tokens.
#[derive(Clone, Copy, Debug, PartialEq, Eq, Error)]
pub enum LexFault {
    /// The first fault in reading order. A bad byte stands at itself, the others at the first byte of
    /// the comment, string or number.
    #[error("{kind:?} at byte {at}")]
    Refused { kind: LexKind, at: u64 },
    #[error("out of memory")]
    Memory,
}
