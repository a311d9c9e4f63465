ghost use Rattle.std.specs.Prelude.{◌↔◌, IfOk};
ghost use Rattle.ascending.specs.Ascending.{In};
ghost use Rattle.b_values.specs.Values.{elements, IsKept};
ghost use Rattle.set_making.specs.Making.{Answers};
ghost use Rattle.b_funsets.specs.Families.{seq_row, seq1_row, IsSequence, IsNonemptySequence};

use crate::subsets::only_empty;
use b_values::{FaultKind, Value};
use set_making::{OpFault, set_in_order};
use sqlite_items::Items;
use std::alloc::Global;

/// `seq(S)`: the sequences of members of S. Only of the empty set they have an end.
pub fn seq(alloc: Global, s: &Value) -> Result<Value, OpFault>
    requires { IsKept s.now }
    ensures value { Answers (seq_row s.now) result }
    ensures kept { IfOk result (λ v. IsKept v) }
    ensures members { IfOk result (λ v. (x : Value) → In x (elements v) ↔ IsSequence s.now x) }
{
    if !s.members().is_empty() {
        return Err(OpFault::Fault(FaultKind::TooLarge));
    }
    match only_empty(alloc) {
        Ok(sequences) => set_in_order(alloc, sequences),
        Err(_) => Err(OpFault::Memory),
    }
}

/// `seq1(S)`: the nonempty sequences of members of S. Only of the empty set they have an end.
pub fn seq1(alloc: Global, s: &Value) -> Result<Value, OpFault>
    requires { IsKept s.now }
    ensures value { Answers (seq1_row s.now) result }
    ensures kept { IfOk result (λ v. IsKept v) }
    ensures members { IfOk result (λ v. (x : Value) → In x (elements v) ↔ IsNonemptySequence s.now x) }
{
    if s.members().is_empty() {
        set_in_order(alloc, Items::new(alloc))
    } else {
        Err(OpFault::Fault(FaultKind::TooLarge))
    }
}
