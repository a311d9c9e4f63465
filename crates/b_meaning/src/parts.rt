//! What evaluation does besides its recursion.

ghost use Rattle.std.specs.Prelude.{◌≡◌, ℕ, Ok, Err, ◌++◌, ◌∷◌, [], map, length, slice_get, Some, None, Option, IfOk, IfErr, IfSome, OnOk};
ghost use Rattle.std.specs.List.{AllByRecursion};
ghost use Rattle.b_meaning.specs.Meaning as spec;
ghost use Rattle.b_meaning.specs.Meaning.{power_of, places_in, raised, variable_of};
ghost use Rattle.b_places.specs.Places as places;
ghost use Rattle.b_places.specs.Places.{with_some};
ghost use Rattle.b_places.specs.Scopes.{slots_of};
ghost use Rattle.b_funsets.specs.Families.{pow_row};
ghost use Rattle.b_places.specs.Walks.{left_in};
ghost use Rattle.b_rows.specs.Answers.{Means, MeansBy, Answer, all_at, bind, placed};
ghost use Rattle.b_rows.specs.Rows.{partial_result, power_row};
ghost use Rattle.b_tree.specs.declared.Power.{out-Power};
ghost use Rattle.b_values.specs.Values.{elements, IsKept, IsValue};
ghost use Rattle.b_values.specs.declared.values.Value.{Value};
ghost use Rattle.b_values.specs.declared.values.Value.TheVariants as value;
ghost use Rattle.b_values.specs.declared.values.Value.TheVariants.{Int, Truth, Elem, Pair};
ghost use Rattle.set_making.specs.Making as making;

use b_places::{Range, Scope, couple_of, members_of, slot};
use b_rows::{EvalStop, family, next_result, power, stop};
use b_tree::{Collector, Family, Place, Power, Variable};
use b_values::{FaultKind, Text, Value};
use set_making::{couple, is_among};
use shared::Shared;
use sqlite_items::Items;
use std::alloc::{AllocError, Global};

const NOWHERE: Place = Place {
    text: Text::Machine,
    at: 0,
};

#[tactic(auto, using(crate::proofs::Kept::kept_int))]
pub(crate) fn whole_number(n: i128) -> Value
    ensures value { result ≡ Int n }
    ensures kept { IsKept result }
{
    Value::Int(n)
}

#[tactic(auto, using(crate::proofs::Kept::kept_truth))]
pub(crate) fn truth_value(b: bool) -> Value
    ensures value { result ≡ Truth b }
    ensures kept { IsKept result }
{
    Value::Truth(b)
}

#[tactic(auto, using(crate::proofs::Kept::kept_element))]
pub(crate) fn element(set: u32, index: u32) -> Value
    ensures value { result ≡ Elem set index }
    ensures kept { IsKept result }
{
    Value::Elem { set, index }
}

/// The same text, shared.
#[tactic(auto, using(crate::proofs::Kept::kept_text))]
pub(crate) fn text(s: &Shared<Items<u8>>) -> Result<Value, EvalStop>
    ensures memory { IfErr result (λ e. e ≡ EvalStop.Memory) }
    ensures value { IfOk result (λ v. v ≡ value.Text s.now) }
    ensures kept { IfOk result (λ v. IsKept v) }
{
    match s.share() {
        Ok(s) => Ok(Value::Text(s)),
        Err(_) => Err(EvalStop::Memory),
    }
}

/// The value of a slot. Where a tree fits its slots there is one.
pub(crate) fn slot_value(env: &Scope<'_>, i: usize) -> Result<Value, EvalStop>
    requires { AllByRecursion IsKept (slots_of env.now) }
    ensures value { Means (spec.slot_value (slice_get (slots_of env.now) i)) result }
    ensures kept { IfOk result (λ v. IsKept v) }
{
    match slot(env, i) {
        Err(_) => Err(stop(FaultKind::IllDefined, NOWHERE)),
        Ok(v) => match v.share() {
            Ok(v) => Ok(v),
            Err(_) => Err(EvalStop::Memory),
        },
    }
}

/// Whether a value is a member of a set, by a search.
#[tactic(auto, using(crate::proofs::Kept::members_rise))]
pub(crate) fn is_in(v: &Value, set: &Value) -> bool
    requires { IsKept set.now }
    ensures { result ≡ making.is_among (elements set.now) v.now }
{
    is_among(set.members(), v)
}

/// A fault of a range that is a fault of its variable.
pub(crate) fn moved(s: EvalStop, at: Place) -> EvalStop
    ensures { (a : Answer Value) → Means a (Err s) → Means (all_at at a) (Err result) }
{
    match s {
        EvalStop::Fault(f) => stop(f.kind, at),
        EvalStop::Memory => EvalStop::Memory,
    }
}

/// The subsets of a set, none of them copied, or the fault of their variable.
#[tactic(auto, using(crate::proofs::Then::by_err_means, crate::proofs::Then::by_ok))]
pub(crate) fn subsets(alloc: Global, at: Place, x: &Value) -> Result<Range, EvalStop>
    requires { IsKept x.now }
    ensures value { MeansBy left_in (bind (placed at (pow_row x.now)) (λ w. Ok (elements w))) result }
    ensures kept { IfOk result (λ r. AllByRecursion IsKept (left_in r)) }
{
    match family(alloc, Family::Subsets, at, x) {
        Ok(sets) => Ok(members_of(sets)),
        Err(s) => Err(s),
    }
}

/// Lets the old value go.
pub(crate) fn renewed(old: Value, new: Value) -> Value
    ensures { result ≡ new }
{
    let _ = old;
    new
}

pub(crate) fn push(found: &mut Vec<Value>, v: Value) -> Result<(), EvalStop>
    ensures memory { IfErr result (λ e. e ≡ EvalStop.Memory) }
    ensures ok { OnOk result (found.new.items ≡ found.old.items ++ v ∷ []) }
{
    match found.push(v) {
        Ok(()) => Ok(()),
        Err(_) => Err(EvalStop::Memory),
    }
}

/// Puts a value last, if there is one.
pub(crate) fn push_some(found: &mut Vec<Value>, more: Option<Value>) -> Result<(), EvalStop>
    ensures memory { IfErr result (λ e. e ≡ EvalStop.Memory) }
    ensures ok { OnOk result (found.new.items ≡ found.old.items ++ with_some more []) }
{
    match more {
        Some(v) => push(found, v),
        None => Ok(()),
    }
}

pub(crate) fn push_couple(
    alloc: Global,
    found: &mut Vec<Value>,
    values: &[Value],
) -> Result<(), EvalStop>
    ensures memory { IfErr result (λ e. e ≡ EvalStop.Memory) }
    ensures ok { OnOk result (found.new.items ≡ found.old.items ++ places.couple_of values.now ∷ []) }
{
    match couple_of(alloc, values) {
        Ok(v) => push(found, v),
        Err(_) => Err(EvalStop::Memory),
    }
}

/// What is gathered of a tuple and the value at it: of `%` the couple of both.
#[tactic(auto, using(crate::proofs::Kept::gathered_value))]
pub(crate) fn gathered(
    alloc: Global,
    c: Collector,
    tuple: &[Value],
    v: Value,
) -> Result<Option<Value>, EvalStop>
    requires tuple { AllByRecursion IsKept tuple.now }
    requires value { IsKept v }
    ensures memory { IfErr result (λ e. e ≡ EvalStop.Memory) }
    ensures ok { IfOk result (λ o. o ≡ Some (spec.gathered c tuple.now v)) }
    ensures values { IfOk result (λ o. IfSome o (λ w. IsValue w)) }
{
    match c {
        Collector::Lambda => match tuple_and_value(alloc, tuple, &v) {
            Ok(w) => Ok(Some(w)),
            Err(_) => Err(EvalStop::Memory),
        },
        _ => Ok(Some(v)),
    }
}

fn tuple_and_value(alloc: Global, tuple: &[Value], v: &Value) -> Result<Value, AllocError>
    ensures { IfOk result (λ w. w ≡ Pair (places.couple_of tuple.now) v.now) }
{
    let whole = couple_of(alloc, tuple)?;
    couple(alloc, &whole, v)
}

/// A sum or a product with one more value, if there is one.
pub(crate) fn next_partial(
    c: Collector,
    at: Place,
    partial: Value,
    more: Option<Value>,
) -> Result<Value, EvalStop>
    requires { IsKept partial }
    ensures value { Means (places.next_partial (λ x y. placed at (partial_result c x y)) partial more) result }
    ensures kept { IfOk result (λ v. IsKept v) }
{
    match more {
        None => Ok(partial),
        Some(v) => next_result(c, at, &partial, &v),
    }
}

/// `**` with its right operand.
fn raise_one(p: &Power, base: &Value, last: &Value) -> Result<Value, EvalStop>
    ensures value { Means (placed (out-Power p.now).at (power_row base.now last.now)) result }
    ensures kept { IfOk result (λ v. IsKept v) }
{
    power(p.at, base, last)
}

/// `**` from right to left: the operands but the last, and the last.
pub(crate) fn raise(
    powers: &[Power],
    bases: Vec<Value>,
    last: Value,
    limit: u64,
) -> Result<Value, EvalStop>
    requires even { length bases.items ≡ length powers.now }
    requires kept { IsKept last }
    ensures value { Means (raised (places_in (map (power_of limit) powers.now)) bases.items last) result }
    ensures kept { IfOk result (λ v. IsKept v) }
{
    let mut value = last;
    let mut left = powers.len();
    'operands: while left > 0 {
        left -= 1;
        match raise_one(&powers[left], &bases[left], &value) {
            Ok(next) => value = renewed(value, next),
            Err(s) => return Err(s),
        }
    }
    Ok(value)
}

/// The place of the first bound name.
pub(crate) fn first_place(variables: &[Variable]) -> Place
    ensures { (limit : ℕ) → result ≡ spec.first_place (map (variable_of limit) variables.now) }
{
    match variables.first() {
        Some(v) => v.at,
        None => NOWHERE,
    }
}
