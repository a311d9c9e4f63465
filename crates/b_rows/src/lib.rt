//! The operators of the language, each by its enum and with its fault at its place.
#![tactic(auto)]

ghost use Rattle.std.specs.Prelude.{◌≡◌};
ghost use Rattle.b_rows.specs.Answers.{fault_at};

use b_tree::Place;
use b_values::{EvalFault, FaultKind};

/// Why there is no value: the first fault, or that memory ran out.
#[derive(Clone, Copy, Debug, PartialEq, Eq)]
pub enum EvalStop {
    Fault(EvalFault),
    Memory,
}

mod gathering;
mod numbers;
mod relations;
mod sets;
mod tests_of_values;
mod values;

pub use gathering::{collect, first_result, next_result, sequence};
pub use numbers::number;
pub use relations::{
    asks_onto, asks_total, asks_whole, first_part, has_shape, is_domain, is_range, may_begin,
    may_end, part, second_part,
};
pub use sets::{family, gather, given, set, word};
pub use tests_of_values::{belongs, compare, is_between};
pub use values::{apply, combine, power};

/// The fault of this kind at a place.
pub fn stop(kind: FaultKind, at: Place) -> EvalStop
    ensures { result ≡ EvalStop.Fault (fault_at kind at) }
{
    EvalStop::Fault(EvalFault {
        kind,
        text: at.text,
        at: at.at,
    })
}
