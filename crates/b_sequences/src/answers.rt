ghost use Rattle.std.specs.Prelude.{◌≡◌, List, Option, IfOk};
ghost use Rattle.std.specs.Option.{option_map};
ghost use Rattle.b_values.specs.Reading.{numbered};
ghost use Rattle.b_values.specs.declared.values.Value.{Value};
ghost use Rattle.set_making.specs.Making.{Answers};
ghost use Rattle.b_sequences.specs.Rows.{sequence_answer, value_answer};

use b_values::{FaultKind, Value};
use set_making::{OpFault, within_limit};
use shared::Shared;
use sqlite_items::Items;
use std::alloc::{AllocError, Global};

/// The sequence with these couples, where there are some.
pub(crate) fn answer_sequence(
    alloc: Global,
    couples: Result<Option<Items<Value>>, AllocError>,
) -> Result<Value, OpFault>
    ensures { (list : Option (List Value)) → IfOk couples (λ cs. cs ≡ option_map (numbered 1) list) → Answers (sequence_answer list) result }
{
    match couples {
        Ok(Some(couples)) => sequence_with(alloc, couples),
        Ok(None) => Err(OpFault::Fault(FaultKind::IllDefined)),
        Err(_) => Err(OpFault::Memory),
    }
}

fn sequence_with(alloc: Global, couples: Items<Value>) -> Result<Value, OpFault>
    ensures { (xs : List Value) → couples ≡ numbered 1 xs → Answers (sequence_answer (Some xs)) result }
{
    match Shared::new(alloc, couples) {
        Ok(couples) => within_limit(Value::Set(couples)),
        Err(_) => Err(OpFault::Memory),
    }
}

/// The value, where there is one.
pub(crate) fn answer_value(found: Result<Option<Value>, AllocError>) -> Result<Value, OpFault>
    ensures { (x : Option Value) → IfOk found (λ y. y ≡ x) → Answers (value_answer x) result }
{
    match found {
        Ok(Some(v)) => Ok(v),
        Ok(None) => Err(OpFault::Fault(FaultKind::IllDefined)),
        Err(_) => Err(OpFault::Memory),
    }
}
