//! Sets: of words, of the machine, of sets, of functions.

ghost use Rattle.std.specs.Prelude.{◌≡◌, ◌∷◌, [], true, false, map, Result, IfOk};
ghost use Rattle.std.specs.List.{AllByRecursion, range_with_len};
ghost use Rattle.b_values.specs.Values.{IsKept, IsValue};
ghost use Rattle.b_values.specs.declared.values.FaultKind.{FaultKind};
ghost use Rattle.b_values.specs.declared.values.Value.{Value};
ghost use Rattle.b_values.specs.declared.values.Value.TheVariants.{Elem, Truth};
ghost use Rattle.set_making.specs.Making as making;
ghost use Rattle.set_making.specs.Making.{Answers};
ghost use Rattle.b_rows.specs.Answers.{Means, placed};
ghost use Rattle.b_rows.specs.Rows.{family_row, set_row, word_row, given_row};

use crate::{EvalStop, stop};
use b_tree::{Family, Place, SetOperator, Word};
use b_values::{FaultKind, Value};
use set_making::{OpFault, set_with};
use std::alloc::{AllocError, Global};

/// An operator's answer, its fault at its place.
pub(crate) fn at_place(at: Place, r: Result<Value, OpFault>) -> Result<Value, EvalStop>
    requires { IfOk r (λ v. IsKept v) }
    ensures value { (row : Result Value FaultKind) → Answers row r → Means (placed at row) result }
    ensures kept { IfOk result (λ v. IsKept v) }
{
    match r {
        Ok(v) => Ok(v),
        Err(OpFault::Fault(kind)) => Err(stop(kind, at)),
        Err(OpFault::Memory) => Err(EvalStop::Memory),
    }
}

fn sets_over(alloc: Global, op: Family, s: &Value) -> Result<Value, OpFault>
    requires { IsKept s.now }
    ensures value { Answers (family_row op s.now) result }
    ensures kept { IfOk result (λ v. IsKept v) }
{
    match op {
        Family::Subsets => b_funsets::pow(alloc, s),
        Family::NonemptySubsets => b_funsets::pow1(alloc, s),
        Family::Sequences => b_funsets::seq(alloc, s),
        Family::NonemptySequences => b_funsets::seq1(alloc, s),
        Family::InjectiveSequences => b_funsets::iseq(alloc, s),
        Family::Permutations => b_funsets::perm(alloc, s),
    }
}

fn set_between(alloc: Global, op: SetOperator, x: &Value, y: &Value) -> Result<Value, OpFault>
    requires left { IsKept x.now }
    requires right { IsKept y.now }
    ensures value { Answers (set_row op x.now y.now) result }
    ensures kept { IfOk result (λ v. IsKept v) }
{
    match op {
        SetOperator::Interval => b_setops::interval(alloc, x, y),
        SetOperator::Product => b_setops::times(alloc, x, y),
        SetOperator::Relations => b_funsets::relations(alloc, x, y),
        SetOperator::PartialFunctions => b_funsets::partial(alloc, x, y),
        SetOperator::TotalFunctions => b_funsets::total(alloc, x, y),
        SetOperator::PartialInjections => b_funsets::partial_inj(alloc, x, y),
        SetOperator::TotalInjections => b_funsets::total_inj(alloc, x, y),
        SetOperator::PartialSurjections => b_funsets::partial_surj(alloc, x, y),
        SetOperator::TotalSurjections => b_funsets::total_surj(alloc, x, y),
        SetOperator::TotalBijections => b_funsets::bijections(alloc, x, y),
    }
}

/// The sets over a set, or the fault at the operator's place.
pub fn family(alloc: Global, op: Family, at: Place, s: &Value) -> Result<Value, EvalStop>
    requires { IsKept s.now }
    ensures value { Means (placed at (family_row op s.now)) result }
    ensures kept { IfOk result (λ v. IsKept v) }
{
    at_place(at, sets_over(alloc, op, s))
}

/// The interval, the product or the set of relations, or the fault at the operator's place.
pub fn set(
    alloc: Global,
    op: SetOperator,
    at: Place,
    x: &Value,
    y: &Value,
) -> Result<Value, EvalStop>
    requires left { IsKept x.now }
    requires right { IsKept y.now }
    ensures value { Means (placed at (set_row op x.now y.now)) result }
    ensures kept { IfOk result (λ v. IsKept v) }
{
    at_place(at, set_between(alloc, op, x, y))
}

/// The set that a word stands for, or the fault at its place.
pub fn word(alloc: Global, w: Word, at: Place) -> Result<Value, EvalStop>
    ensures value { Means (placed at (word_row w)) result }
    ensures kept { IfOk result (λ v. IsKept v) }
{
    match w {
        Word::Integer => Err(stop(FaultKind::TooLarge, at)),
        Word::Natural => Err(stop(FaultKind::TooLarge, at)),
        Word::Natural1 => Err(stop(FaultKind::TooLarge, at)),
        Word::String => Err(stop(FaultKind::TooLarge, at)),
        Word::Bool => match both_truths(alloc) {
            Ok(found) => gather(alloc, at, found),
            Err(_) => Err(EvalStop::Memory),
        },
    }
}

#[tactic(auto, using(crate::proofs::Kept::truths_are_values))]
fn both_truths(alloc: Global) -> Result<Vec<Value>, AllocError>
    ensures truths { IfOk result (λ v. v.items ≡ Truth false ∷ Truth true ∷ []) }
    ensures values { IfOk result (λ v. AllByRecursion IsValue v.items) }
{
    let mut found = Vec::new(alloc);
    found.push(Value::Truth(false))?;
    found.push(Value::Truth(true))?;
    Ok(found)
}

/// The elements of a set of the machine, or the fault at the place of its name.
pub fn given(alloc: Global, set: u32, size: u32, at: Place) -> Result<Value, EvalStop>
    ensures value { Means (placed at (given_row set size)) result }
    ensures kept { IfOk result (λ v. IsKept v) }
{
    match elements_of(alloc, set, size) {
        Ok(found) => gather(alloc, at, found),
        Err(_) => Err(EvalStop::Memory),
    }
}

fn elements_of(alloc: Global, set: u32, size: u32) -> Result<Vec<Value>, AllocError>
    ensures { IfOk result (λ v. v.items ≡ map (λ i. Elem set i) (range_with_len 0 size)) }
{
    let mut found = Vec::new(alloc);
    for index in 0..size {
        found.push(element(set, index))?;
    }
    Ok(found)
}

fn element(set: u32, index: u32) -> Value
    ensures { result ≡ Elem set index }
{
    Value::Elem { set, index }
}

/// The set of these values, or the fault at a place.
#[tactic(auto, using(crate::proofs::Kept::kept_set))]
pub fn gather(alloc: Global, at: Place, found: Vec<Value>) -> Result<Value, EvalStop>
    requires { AllByRecursion IsValue found.items }
    ensures value { Means (placed at (making.set_with found.items)) result }
    ensures kept { IfOk result (λ v. IsKept v) }
{
    match set_with(alloc, found) {
        Ok(v) => Ok(v),
        Err(OpFault::Fault(kind)) => Err(stop(kind, at)),
        Err(OpFault::Memory) => Err(EvalStop::Memory),
    }
}
