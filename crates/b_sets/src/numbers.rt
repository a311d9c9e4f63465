ghost use Rattle.std.specs.Prelude.{◌≡◌, ◌↔◌, ◌<◌, ◌-◌, ◌+ℤ◌, pos, length, map, slice_get, IfOk, IsOk, MatchOption};
ghost use Rattle.std.specs.Option.{ok_or, option_copied};
ghost use Rattle.ascending.specs.Ascending.{In};
ghost use Rattle.b_sets.specs.Members.{IsLeast, IsGreatest, IsBetween};
ghost use Rattle.b_sets.specs.Rows.{min_row, max_row, card_row, interval_row, how_many, integers};
ghost use Rattle.b_values.specs.Values.{elements, IsKept};
ghost use Rattle.b_values.specs.declared.values.FaultKind.TheVariants.{IllDefined};
ghost use Rattle.b_values.specs.declared.values.Value.{Value};
ghost use Rattle.b_values.specs.declared.values.Value.TheVariants.{Int};
ghost use Rattle.set_making.specs.Making as spec;
ghost use Rattle.set_making.specs.Making.{Answers};

use b_values::{FaultKind, NODE_LIMIT, Value};
use set_making::{OpFault, set_in_order};
use sqlite_items::Items;
use std::alloc::{AllocError, Global};

/// `min(S)`, ill-defined where S is empty.
pub fn min(_alloc: Global, a: &Value) -> Result<Value, OpFault>
    requires { IsKept a.now }
    ensures value { Answers (min_row a.now) result }
    ensures kept { IfOk result (λ v. IsKept v) }
    ensures least { IfOk result (λ v. IsLeast v (elements a.now)) }
{
    shared_or_ill_defined(least(a.members()))
}

/// `max(S)`, ill-defined where S is empty.
pub fn max(_alloc: Global, a: &Value) -> Result<Value, OpFault>
    requires { IsKept a.now }
    ensures value { Answers (max_row a.now) result }
    ensures kept { IfOk result (λ v. IsKept v) }
    ensures greatest { IfOk result (λ v. IsGreatest v (elements a.now)) }
{
    shared_or_ill_defined(greatest(a.members()))
}

/// `card(S)`. It takes no memory and always answers.
pub fn card(_alloc: Global, a: &Value) -> Result<Value, OpFault>
    requires { IsKept a.now }
    ensures value { Answers (card_row a.now) result }
    ensures answered { IsOk result }
    ensures kept { IfOk result (λ v. IsKept v) }
{
    Ok(Value::Int(a.members().len() as i128))
}

/// `a .. b`, ill-defined where one is no integer. What is too large is refused before a number is built.
pub fn interval(alloc: Global, a: &Value, b: &Value) -> Result<Value, OpFault>
    requires low { IsKept a.now }
    requires high { IsKept b.now }
    ensures value { Answers (interval_row a.now b.now) result }
    ensures kept { IfOk result (λ v. IsKept v) }
    ensures members { IfOk result (λ v. (x : Value) → In x (elements v) ↔ IsBetween a.now b.now x) }
{
    match (a, b) {
        (Value::Int(low), Value::Int(high)) => set_of_integers(alloc, low, high),
        _ => Err(OpFault::Fault(FaultKind::IllDefined)),
    }
}

/// The first, which is the least of an ascending list.
fn least(members: &[Value]) -> Option<&Value>
    ensures { option_copied result ≡ slice_get members.now 0 }
{
    members.first()
}

/// The last, which is the greatest of an ascending list.
fn greatest(members: &[Value]) -> Option<&Value>
    ensures { option_copied result ≡ slice_get members.now (length members.now - 1) }
{
    members.last()
}

fn shared_or_ill_defined(v: Option<&Value>) -> Result<Value, OpFault>
    ensures { Answers (ok_or (option_copied v.entry) IllDefined) result }
{
    match v {
        Some(v) => match v.share() {
            Ok(v) => Ok(v),
            Err(_) => Err(OpFault::Memory),
        },
        None => Err(OpFault::Fault(FaultKind::IllDefined)),
    }
}

fn set_of_integers(alloc: Global, low: &i128, high: &i128) -> Result<Value, OpFault>
    ensures { Answers (spec.set_with (map Int (integers low.now high.now))) result }
{
    match count_between(low, high) {
        Some(count) => match integers_between(alloc, low, high, count) {
            Ok(items) => set_in_order(alloc, items),
            Err(_) => Err(OpFault::Memory),
        },
        None => Err(OpFault::Fault(FaultKind::TooLarge)),
    }
}

/// How many integers there are from one number to another, where a set can have them.
fn count_between(low: &i128, high: &i128) -> Option<u64>
    ensures { MatchOption result (999999 < how_many low.now high.now) (λ count. count ≡ how_many low.now high.now) }
{
    if *high < *low {
        return Some(0);
    }
    match high.checked_sub(*low) {
        Some(steps) if steps < NODE_LIMIT as i128 - 1 => Some(steps as u64 + 1),
        _ => None,
    }
}

fn integers_between(
    alloc: Global,
    low: &i128,
    high: &i128,
    count: u64,
) -> Result<Items<Value>, AllocError>
    requires { count ≡ how_many low.now high.now }
    ensures { IfOk result (λ items. items ≡ map Int (integers low.now high.now)) }
{
    let mut items = Items::new(alloc);
    for place in 0..count {
        items.push(integer_at(low, high, place))?;
    }
    Ok(items)
}

/// The integer that many steps above the lower end.
fn integer_at(low: &i128, high: &i128, place: u64) -> Value
    requires { place < how_many low.now high.now }
    ensures { result ≡ Int (low.now +ℤ pos place) }
{
    // Read so that the proof knows its range, which bounds the sum.
    let _high = *high;
    Value::Int(*low + place as i128)
}
