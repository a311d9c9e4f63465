//! What may stand at the front of a text.

use crate::{LexKind, TokenKind};

/// What stands at the front of a text.
#[derive(Clone, Copy)]
pub(crate) enum Front {
    /// So many bytes that separate.
    Skip(usize),
    /// A token of so many bytes.
    Take(TokenKind, usize),
    /// A fault behind so many bytes.
    Stop(LexKind, usize),
}

/// What stands at a place between the quotes of a string.
#[derive(Clone, Copy)]
pub(crate) enum Part {
    /// So many bytes, which stand for so many.
    More(usize, usize),
    /// Nothing that goes on, so the string is what it is.
    End(Front),
}
