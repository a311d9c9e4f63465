//! The ranges of variables.

ghost use Rattle.std.specs.Prelude.{◌≡◌, ◌+ℤ◌, ◌-ℤ◌, ◌<ℤ◌, ◌≤ℤ◌, neg_ℤ, pos, map, ◌^◌, if◌then◌else◌, IfOk, MatchOption};
ghost use Rattle.std.specs.List.{AllByRecursion};
ghost use Rattle.b_rows.specs.Answers.{MeansBy, placed};
ghost use Rattle.b_values.specs.Values.{elements, IsKept};
ghost use Rattle.b_values.specs.declared.values.Value.TheVariants.{Int};
ghost use Rattle.b_places.specs.Ranges as spec;
ghost use Rattle.b_places.specs.Walks.{left_in};

use crate::walk::Range;
use b_rows::{EvalStop, number, stop};
use b_tree::{Bounds, Place};
use b_values::Value;

/// The members of a value, none of them copied.
#[tactic(auto, using(crate::proofs::Kept::kept_members))]
pub fn members_of(v: Value) -> Range
    requires { IsKept v }
    ensures value { left_in result ≡ elements v }
    ensures kept { AllByRecursion IsKept (left_in result) }
{
    match v {
        Value::Set(items) => Range::Listed(items, 0),
        _ => Range::Nothing,
    }
}

/// The integers between two values, none of them built, or the fault at the variable's place.
pub fn numbers_between(at: Place, bounds: Bounds, x: &Value, y: &Value) -> Result<Range, EvalStop>
    ensures value { MeansBy left_in (placed at (spec.numbers_between bounds x.now y.now)) result }
    ensures kept { IfOk result (λ r. AllByRecursion IsKept (left_in r)) }
{
    match number(x) {
        Err(kind) => Err(stop(kind, at)),
        Ok(m) => match number(y) {
            Err(kind) => Err(stop(kind, at)),
            Ok(n) => Ok(between(bounds, m, n)),
        },
    }
}

#[tactic(auto, using(crate::proofs::Kept::kept_numbers))]
fn between(bounds: Bounds, m: i128, n: i128) -> Range
    ensures value { left_in result ≡ map Int (spec.between bounds m n) }
    ensures kept { AllByRecursion IsKept (left_in result) }
{
    match (lowest(bounds.above, m), highest(bounds.below, n)) {
        (Some(low), Some(high)) => Range::Numbers(low, high),
        _ => Range::Nothing,
    }
}

fn lowest(above: bool, m: i128) -> Option<i128>
    ensures { MatchOption result (pos (2 ^ 127) ≤ℤ (if above then m +ℤ pos 1 else m)) (λ low. low ≡ (if above then m +ℤ pos 1 else m)) }
{
    if above { m.checked_add(1) } else { Some(m) }
}

fn highest(below: bool, n: i128) -> Option<i128>
    ensures { MatchOption result ((if below then n -ℤ pos 1 else n) <ℤ neg_ℤ (pos (2 ^ 127))) (λ high. high ≡ (if below then n -ℤ pos 1 else n)) }
{
    if below { n.checked_sub(1) } else { Some(n) }
}
