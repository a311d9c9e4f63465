//! What is answered of a text's types.
ghost use Rattle.std.specs.Prelude.{◌≡◌, Err, IfOk, List};
ghost use Rattle.b_values.specs.declared.types.NameFace.{NameFace};
ghost use Rattle.type_formulas.specs.Typings.{Answers};
ghost use Rattle.type_substs.specs.Told.{Told};
ghost use Rattle.b_types.specs.Typings.{IsChecked};

use std::alloc::AllocError;
use thiserror::Error;
use type_formulas::Answer;
use type_table::Row;

/// The types of a text's parts, by their numbers. Names come first in the order of their declaration; behind them each part
/// of the text has the number of its sign in reading order.
#[derive(Drop)]
pub struct Typing {
    pub rows: Vec<Row>,
    pub parts: usize,
}

/// Why a text isn't well typed.
#[derive(Clone, Copy, Debug, PartialEq, Eq)]
pub enum CheckKind {
    /// A name, or an `x$0`, means nothing where it stands.
    UnknownName,
    /// Two names of one binder, two that a machine declares, or one of these and one of an operation are equal.
    DuplicateName,
    /// There is no typing whose types have at most 500 nodes.
    TypeClash,
    /// There is more than one.
    AmbiguousType,
}

/// Why there is no typing to be told.
#[derive(Clone, Copy, Debug, PartialEq, Eq, Error)]
pub enum CheckFault {
    /// The first refusal. Its place is the text's beginning.
    #[error("{kind:?} at byte {at}")]
    Refused { kind: CheckKind, at: u64 },
    #[error("out of memory")]
    Memory,
}

fn refused(kind: CheckKind) -> Result<Typing, CheckFault>
    ensures { result ≡ Err (CheckFault.Refused kind 0) }
{
    Err(CheckFault::Refused { kind, at: 0 })
}

/// The answer to a text that is judged.
pub fn checked(answer: Result<Answer, AllocError>) -> Result<Typing, CheckFault>
    ensures { (known : List NameFace) → (z : Told) → IfOk answer (Answers 500 known z.demands z.next z.next) → IsChecked known z result }
{
    match answer {
        Err(_) => Err(CheckFault::Memory),
        Ok(Answer::UnknownName) => refused(CheckKind::UnknownName),
        Ok(Answer::EqualNames) => refused(CheckKind::DuplicateName),
        Ok(Answer::NoTyping) => refused(CheckKind::TypeClash),
        Ok(Answer::ManyTypings) => refused(CheckKind::AmbiguousType),
        Ok(Answer::Typed(rows, parts)) => Ok(Typing { rows, parts }),
    }
}
