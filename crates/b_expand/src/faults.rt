//! Why a text is no formula or no machine.

use thiserror::Error;

/// Why a text is no formula or no machine.
#[derive(Clone, Copy, Debug, PartialEq, Eq)]
pub enum ParseKind {
    /// It is no sentence of the grammar.
    NotASentence,
    /// More than 100 brackets are open at one place.
    TooDeep,
    /// A word or form of B that is left out of this profile stands in it.
    LeftOut,
    /// A definition uses itself, perhaps through others.
    RecursiveDefinition,
    /// A clause comes twice.
    ClauseTwice,
    /// A clause is missing that another one asks for.
    ClauseMissing,
    /// It has more than 1,000,000 nodes.
    TooWide,
}

/// Why there is no tree.
#[derive(Clone, Copy, Debug, PartialEq, Eq, Error)]
pub enum ParseFault {
    /// The first refusal, with a place of at most the text's length.
    #[error("{kind:?} at byte {at}")]
    Refused { kind: ParseKind, at: u64 },
    #[error("out of memory")]
    Memory,
}

/// Why an expanded formula is no text.
#[derive(Clone, Copy, Debug, PartialEq, Eq)]
pub enum Unfit {
    /// A definition is used in a wrong way, or the tree has no sort.
    NotASentence,
    /// More than 100 brackets are open at one place.
    TooDeep,
    /// It has more than 1,000,000 nodes.
    TooWide,
}

/// Why a formula can't be expanded.
#[derive(Clone, Copy, Debug, PartialEq, Eq, Error)]
pub enum Unexpanded {
    /// The reason, and the place of the formula's first use of a definition.
    #[error("{0:?} at byte {1}")]
    Refused(Unfit, u64),
    #[error("out of memory")]
    Memory,
}
