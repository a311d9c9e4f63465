//! Tuples within the limit, and walks that start where others stand.

ghost use Rattle.std.specs.Prelude.{◌≡◌, ◌-◌, ℕ, List, [], false, IfOk};
ghost use Rattle.b_rows.specs.Answers.{fault_at};
ghost use Rattle.b_values.specs.declared.values.FaultKind.TheVariants.{TooLarge};
ghost use Rattle.b_places.specs.Places as spec;
ghost use Rattle.b_places.specs.Places.{RangeOf, Candidate, cut};
ghost use Rattle.b_places.specs.Scopes.{Slots};
ghost use Rattle.b_places.specs.Walks.{to_come, ahead, Finds, OnPlace, IsResting, IsKeptWalk, Starts};

use crate::walk::{Range, Walk, begun};
use b_rows::{EvalStop, stop};
use b_tree::Place;
use b_values::{FaultKind, Value, share_all};
use set_making::couple;
use sqlite_items::Items;
use std::alloc::{AllocError, Global};

/// The values of a tuple as one value.
pub fn couple_of(alloc: Global, values: &[Value]) -> Result<Value, AllocError>
    ensures { IfOk result (λ v. v ≡ spec.couple_of values.now) }
{
    match values {
        [] => Ok(Value::Truth(true)),
        [first, others @ ..] => {
            let mut whole = first.share()?;
            for v in others {
                whole = couple(alloc, &whole, v)?;
            }
            Ok(whole)
        }
    }
}

/// What a walk found, within a limit of tuples: the place past it is faulty at the first variable, and is the last.
pub fn settle(
    alloc: Global,
    walk: &mut Walk,
    found: Result<bool, EvalStop>,
    limit: u64,
    at: Place,
) -> Result<bool, EvalStop>
    ensures found { (rs : List RangeOf) (env : Slots) (before : List Candidate) → Finds before walk.old.values (to_come rs env walk.old) found → Finds (cut (fault_at TooLarge at) before (limit - walk.old.number)) walk.new.values (ahead (fault_at TooLarge at) limit rs env walk.new) result }
    ensures rests { (count : ℕ) → OnPlace found (IsResting count walk.old) → OnPlace result (IsResting count walk.new) }
    ensures kept { OnPlace found (IsKeptWalk walk.old) → OnPlace result (IsKeptWalk walk.new) }
{
    match found {
        Ok(true) => {
            if walk.number < limit {
                walk.number += 1;
                Ok(true)
            } else {
                Err(past_limit(alloc, walk, at))
            }
        }
        Ok(false) => Ok(false),
        Err(EvalStop::Fault(f)) => {
            if walk.number < limit {
                Err(EvalStop::Fault(f))
            } else {
                Err(past_limit(alloc, walk, at))
            }
        }
        Err(EvalStop::Memory) => Err(EvalStop::Memory),
    }
}

/// The fault of the place after the last tuple of the limit, after which nothing comes.
fn past_limit(alloc: Global, walk: &mut Walk, at: Place) -> EvalStop
    ensures fault { result ≡ EvalStop.Fault (fault_at TooLarge at) }
    ensures values { walk.new.values ≡ [] }
    ensures ranges { walk.new.ranges ≡ [] }
    ensures fresh { walk.new.fresh ≡ false }
{
    walk.values = Items::new(alloc);
    walk.ranges = Items::new(alloc);
    walk.fresh = false;
    stop(FaultKind::TooLarge, at)
}

/// A walk that stands where another does, sharing its values, or a new one.
pub fn started(alloc: Global, last: Option<&Walk>) -> Result<Walk, AllocError>
    ensures { IfOk result (λ w. Starts last.entry w) }
{
    match last {
        None => Ok(begun(alloc)),
        Some(walk) => copy(alloc, walk),
    }
}

fn copy(alloc: Global, walk: &Walk) -> Result<Walk, AllocError>
    ensures { IfOk result (λ w. w ≡ walk.now) }
{
    Ok(Walk {
        values: share_all(alloc, walk.values.as_slice())?,
        ranges: copy_ranges(alloc, walk.ranges.as_slice())?,
        number: walk.number,
        fresh: walk.fresh,
    })
}

fn copy_ranges(alloc: Global, ranges: &[Range]) -> Result<Items<Range>, AllocError>
    ensures { IfOk result (λ copies. copies ≡ ranges.now) }
{
    let mut copies = Items::new(alloc);
    for range in ranges {
        copies.push(copy_range(range)?)?;
    }
    Ok(copies)
}

fn copy_range(range: &Range) -> Result<Range, AllocError>
    ensures { IfOk result (λ r. r ≡ range.now) }
{
    match range {
        Range::Nothing => Ok(Range::Nothing),
        Range::One(v) => Ok(Range::One(v.share()?)),
        Range::Listed(items, at) => Ok(Range::Listed(items.share()?, *at)),
        Range::Numbers(next, last) => Ok(Range::Numbers(*next, *last)),
    }
}
