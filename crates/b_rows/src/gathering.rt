//! What is made of several values.

ghost use Rattle.std.specs.Prelude.{◌≡◌, ◌++◌, ◌∷◌, [], ◌+◌, pos, length, filter, IfOk, OnOk};
ghost use Rattle.std.specs.List.{AllByRecursion, flat_map};
ghost use Rattle.b_arith.specs.Rows as arith;
ghost use Rattle.b_sets.specs.Rows as rows;
ghost use Rattle.b_values.specs.Reading.{numbered};
ghost use Rattle.b_values.specs.Values.{elements, IsKept, IsValue};
ghost use Rattle.b_values.specs.declared.values.Value.TheVariants.{Int, Pair};
ghost use Rattle.set_making.specs.Making.{Answers};
ghost use Rattle.b_rows.specs.Answers.{Means, placed};
ghost use Rattle.b_rows.specs.Rows as spec;

use crate::numbers::{product, sum};
use crate::sets::{at_place, gather};
use crate::values::plain;
use crate::{EvalStop, stop};
use b_tree::{Collector, Place};
use b_values::{FaultKind, Value};
use set_making::{OpFault, couple, is_among};
use std::alloc::{AllocError, Global};

/// The sequence of these values, or the fault at its bracket.
pub fn sequence(alloc: Global, at: Place, values: Vec<Value>) -> Result<Value, EvalStop>
    requires { AllByRecursion IsValue values.items }
    ensures value { Means (placed at (spec.sequence_row values.items)) result }
    ensures kept { IfOk result (λ v. IsKept v) }
{
    match numbered_couples(alloc, values.as_slice()) {
        Ok(couples) => gather(alloc, at, couples),
        Err(_) => Err(EvalStop::Memory),
    }
}

fn numbered_couples(alloc: Global, values: &[Value]) -> Result<Vec<Value>, AllocError>
    ensures { IfOk result (λ v. v.items ≡ numbered 1 values.now) }
{
    let mut couples = Vec::new(alloc);
    for v in values {
        push_numbered(alloc, &mut couples, v)?;
    }
    Ok(couples)
}

/// Puts the couple of the next number and a value at the end.
fn push_numbered(alloc: Global, couples: &mut Vec<Value>, v: &Value) -> Result<(), AllocError>
    ensures { OnOk result (couples.new.items ≡ couples.old.items ++ Pair (Int (pos (length couples.old.items + 1))) v.now ∷ []) }
{
    let n = couples.len() as u64 + 1;
    couples.push(numbered_couple(alloc, n, v)?)?;
    Ok(())
}

fn numbered_couple(alloc: Global, n: u64, v: &Value) -> Result<Value, AllocError>
    ensures { IfOk result (λ w. w ≡ Pair (Int (pos n)) v.now) }
{
    couple(alloc, &Value::Int(i128::from(n)), v)
}

/// The set of the values at the tuples of a binder, or what is made of these sets, or the fault at the word.
pub fn collect(
    alloc: Global,
    c: Collector,
    at: Place,
    values: Vec<Value>,
) -> Result<Value, EvalStop>
    requires { AllByRecursion IsValue values.items }
    ensures value { Means (placed at (spec.collector_row c values.items)) result }
    ensures kept { IfOk result (λ v. IsKept v) }
{
    match c {
        Collector::Union => match members_of_all(alloc, values.as_slice()) {
            Ok(found) => gather(alloc, at, found),
            Err(_) => Err(EvalStop::Memory),
        },
        Collector::Intersection => common(alloc, at, values.as_slice()),
        _ => gather(alloc, at, values),
    }
}

fn members_of_all(alloc: Global, sets: &[Value]) -> Result<Vec<Value>, AllocError>
    ensures { IfOk result (λ found. found.items ≡ flat_map elements sets.now) }
{
    let mut found = Vec::new(alloc);
    for set in sets {
        push_shares(&mut found, set.members())?;
    }
    Ok(found)
}

fn push_shares(found: &mut Vec<Value>, more: &[Value]) -> Result<(), AllocError>
    ensures { OnOk result (found.new.items ≡ found.old.items ++ more.now) }
{
    for x in more {
        found.push(x.share()?)?;
    }
    Ok(())
}

fn common(alloc: Global, at: Place, sets: &[Value]) -> Result<Value, EvalStop>
    requires { AllByRecursion IsValue sets.now }
    ensures value { Means (placed at (rows.common_row sets.now)) result }
    ensures kept { IfOk result (λ v. IsKept v) }
{
    match sets {
        [] => Err(stop(FaultKind::IllDefined, at)),
        [first, others @ ..] => match those_in_each(alloc, first.members(), others) {
            Ok(found) => gather(alloc, at, found),
            Err(_) => Err(EvalStop::Memory),
        },
    }
}

fn those_in_each(alloc: Global, xs: &[Value], others: &[Value]) -> Result<Vec<Value>, AllocError>
    requires { AllByRecursion IsValue others.now }
    ensures { IfOk result (λ v. v.items ≡ filter (rows.in_each others.now) xs.now) }
{
    let mut found = Vec::new(alloc);
    for x in xs {
        if in_each(others, x) {
            found.push(x.share()?)?;
        }
    }
    Ok(found)
}

fn in_each(sets: &[Value], x: &Value) -> bool
    requires { AllByRecursion IsValue sets.now }
    ensures { result ≡ rows.in_each sets.now x.now }
{
    for set in sets {
        if !is_among(set.members(), x) {
            return false;
        }
    }
    true
}

/// The sum or the product of nothing.
pub fn first_result(c: Collector) -> Value
    ensures value { result ≡ spec.first_result c }
    ensures kept { IsKept result }
{
    match c {
        Collector::Product => integer(1),
        _ => integer(0),
    }
}

#[tactic(auto, using(crate::proofs::Kept::kept_int))]
fn integer(n: i128) -> Value
    ensures value { result ≡ Int n }
    ensures kept { IsKept result }
{
    Value::Int(n)
}

/// A sum or a product with one more value, or the fault at its word.
pub fn next_result(c: Collector, at: Place, x: &Value, y: &Value) -> Result<Value, EvalStop>
    ensures value { Means (placed at (spec.partial_result c x.now y.now)) result }
    ensures kept { IfOk result (λ v. IsKept v) }
{
    match c {
        Collector::Product => product_at(at, x, y),
        _ => sum_at(at, x, y),
    }
}

fn product_at(at: Place, x: &Value, y: &Value) -> Result<Value, EvalStop>
    ensures value { Means (placed at (spec.on_numbers arith.product_of x.now y.now)) result }
    ensures kept { IfOk result (λ v. IsKept v) }
{
    at_place(at, plain(product(x, y)))
}

fn sum_at(at: Place, x: &Value, y: &Value) -> Result<Value, EvalStop>
    ensures value { Means (placed at (spec.on_numbers arith.sum_of x.now y.now)) result }
    ensures kept { IfOk result (λ v. IsKept v) }
{
    at_place(at, plain(sum(x, y)))
}
