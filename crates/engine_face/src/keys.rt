// Formulas and saved steps as texts, and why a formula is refused.
ghost use Rattle.std.specs.Prelude.{◌≡◌, IfOk};
ghost use Rattle.engine_face.specs.Meaning.{invariant_key};

use crate::bytes::SharedBytes;
use b_values::OpId;
use sqlite_items::Items;
use std::alloc::{AllocError, Global};

/// What the names of a formula may be: those of a state, or an operation's parameters besides.
#[derive(Clone, Copy, Debug, PartialEq, Eq)]
pub enum Scope {
    State,
    Op(OpId),
}

/// A formula that was read, by its text. The empty text, a predicate, stands for the invariant.
#[derive(Debug, Drop, PartialEq, Eq, Hash)]
pub struct FormulaKey {
    pub text: SharedBytes,
    pub predicate: bool,
}

impl FormulaKey {
    /// The key of the invariant.
    pub fn invariant(alloc: Global) -> Result<FormulaKey, AllocError>
        ensures { IfOk result (λ key. key ≡ invariant_key) }
    {
        Ok(FormulaKey {
            text: SharedBytes::new(alloc, Items::new(alloc))?,
            predicate: true,
        })
    }

    /// The same key. It copies nothing.
    pub fn share(&self) -> Result<FormulaKey, AllocError>
        ensures { IfOk result (λ key. key ≡ self.now) }
    {
        Ok(FormulaKey {
            text: self.text.share()?,
            predicate: self.predicate,
        })
    }
}

/// A name and the text of a value.
#[derive(Debug, Drop)]
pub struct NamedText {
    pub name: Items<u8>,
    pub text: Items<u8>,
}

/// A step as a document tells it: the operation's name, values as texts, and the names of what did not change.
#[derive(Debug, Drop)]
pub struct SavedStep {
    pub name: Items<u8>,
    pub params: Items<NamedText>,
    pub results: Items<NamedText>,
    pub dest: Items<NamedText>,
    pub same: Items<Items<u8>>,
}

/// Why a text is refused, by the layer that refuses it: tokens, grammar, checks.
#[derive(Clone, Copy, Debug, PartialEq, Eq)]
pub enum LoadKind {
    BadByte,
    OpenComment,
    OpenString,
    NumberTooWide,
    NotASentence,
    TooDeep,
    LeftOut,
    RecursiveDefinition,
    ClauseTwice,
    ClauseMissing,
    TooWide,
    UnknownName,
    DuplicateName,
    TypeClash,
    AmbiguousType,
    WrittenTwice,
    NotWritable,
    NotEnumerable,
    NotSet,
}

/// Why a text gives no key.
#[derive(Clone, Copy, Debug, PartialEq, Eq)]
pub enum KeyFault {
    Refused(LoadKind),
    Memory,
}
