//! A walk from tuple to tuple. It asks for the range of a variable when it has come to it, and builds no list of tuples.

ghost use Rattle.std.specs.Prelude.{◌≡◌, ◌≤◌, ◌<◌, ◌++◌, ◌∷◌, [], ℕ, List, true, false, drop, map, length, None, IfOk, OnOk, MatchOption};
ghost use Rattle.std.specs.List.{AllByRecursion};
ghost use Rattle.b_sets.specs.Rows.{integers};
ghost use Rattle.b_values.specs.Values.{IsKept};
ghost use Rattle.b_values.specs.declared.values.Value.TheVariants.{Int};
ghost use Rattle.b_places.specs.Places.{RangeOf};
ghost use Rattle.b_places.specs.Scopes.{Slots};
ghost use Rattle.b_places.specs.Walks.{left_in, to_come, pending, pending_work, walk_work, IsBack, IsResting, IsTurning, IsAsking, IsKeptWalk, IsNextRange, Shifts, StandsAt, Starts};
ghost use Rattle.b_places.specs.declared.walk.Stand.TheVariants.{Asks};
ghost use Rattle.b_places.specs.Walks as spec;

use b_values::Value;
use shared::Shared;
use sqlite_items::Items;
use std::alloc::{AllocError, Global};

/// The values that a variable may still have, ascending.
#[derive(Drop)]
pub enum Range {
    One(Value),
    /// Those of a list from a place on.
    Listed(Shared<Items<Value>>, usize),
    /// The integers from one to another; none where the first is above.
    Numbers(i128, i128),
    Nothing,
}

/// How a walk goes on by one step.
#[derive(Clone, Copy, Debug, PartialEq, Eq)]
pub enum Shift {
    End,
    /// The last range has no more values.
    Back,
    /// The last range gave a value.
    Forward,
}

/// Where a walk came to by itself.
#[derive(Clone, Copy, Debug, PartialEq, Eq)]
pub enum Stand {
    Tuple,
    /// No tuple is left.
    Over,
    /// The range of the next variable is asked for.
    Asks,
}

/// Where a walk over the tuples of a binder stands.
#[derive(Drop)]
pub struct Walk {
    /// The values of the tuple, or of its beginning.
    pub values: Items<Value>,
    /// What is left of the range of each variable that has a value.
    pub ranges: Items<Range>,
    /// How many tuples came so far.
    pub number: u64,
    /// Nothing was looked at yet.
    pub fresh: bool,
}

/// The next value of a range, and the others.
fn take(range: Range) -> Result<Option<(Value, Range)>, AllocError>
    ensures { IfOk result (λ next. MatchOption next (left_in range ≡ []) (λ p. left_in range ≡ p.0 ∷ left_in p.1)) }
{
    match range {
        Range::Nothing => Ok(None),
        Range::One(v) => Ok(Some((v, Range::Nothing))),
        Range::Listed(items, at) => take_listed(items, at),
        Range::Numbers(next, last) => Ok(take_number(next, last)),
    }
}

fn take_listed(items: Shared<Items<Value>>, at: usize) -> Result<Option<(Value, Range)>, AllocError>
    ensures { IfOk result (λ next. MatchOption next (drop at items ≡ []) (λ p. drop at items ≡ p.0 ∷ left_in p.1)) }
{
    let values = items.get().as_slice();
    if at >= values.len() {
        return Ok(None);
    }
    let next = values[at].share()?;
    Ok(Some((next, Range::Listed(items, at + 1))))
}

fn take_number(next: i128, last: i128) -> Option<(Value, Range)>
    ensures { MatchOption result (map Int (integers next last) ≡ []) (λ p. map Int (integers next last) ≡ p.0 ∷ left_in p.1) }
{
    if next > last {
        None
    } else if next < last {
        Some((Value::Int(next), Range::Numbers(next + 1, last)))
    } else {
        Some((Value::Int(next), Range::Nothing))
    }
}

/// Takes the next value of the last range, or goes back where it has none.
fn step(walk: &mut Walk) -> Result<Shift, AllocError>
    ensures turned { Shifts walk.old walk.new result }
    ensures number { walk.new.number ≡ walk.old.number }
    ensures fresh { walk.new.fresh ≡ walk.old.fresh }
{
    match walk.ranges.pop() {
        None => Ok(Shift::End),
        Some(range) => match take(range)? {
            None => {
                let _ = walk.values.pop();
                Ok(Shift::Back)
            }
            Some((v, others)) => {
                walk.ranges.push(others)?;
                walk.values.push(v)?;
                Ok(Shift::Forward)
            }
        },
    }
}

/// Leaves the last value.
fn go_back(walk: &mut Walk)
    ensures values { IsBack walk.old.values walk.new.values }
    ensures ranges { walk.new.ranges ≡ walk.old.ranges }
    ensures number { walk.new.number ≡ walk.old.number }
    ensures fresh { walk.new.fresh ≡ walk.old.fresh }
{
    let _ = walk.values.pop();
}

/// A tuple is whole, or the range of its next variable is asked for.
fn whole_or_asks(walk: &Walk, count: usize) -> Stand
    requires { length walk.now.values ≤ count }
    ensures { result ≡ spec.whole_or_asks walk.now count }
{
    if walk.values.len() < count {
        Stand::Asks
    } else {
        Stand::Tuple
    }
}

/// Goes on until a value is taken, or none is left.
fn go_on(walk: &mut Walk, count: usize) -> Result<Stand, AllocError>
    requires turns { IsTurning count walk.old }
    requires kept { IsKeptWalk walk.old }
    ensures found { IfOk result (λ s. (rs : List RangeOf) (env : Slots) → count ≡ length rs → to_come rs env walk.old ≡ pending rs env walk.new s) }
    ensures work { IfOk result (λ s. (rs : List RangeOf) (env : Slots) → count ≡ length rs → pending_work rs env walk.new s ≤ walk_work rs env walk.old) }
    ensures stands { IfOk result (λ s. StandsAt count walk.new s) }
    ensures kept { IfOk result (λ s. IsKeptWalk walk.new) }
    ensures number { walk.new.number ≡ walk.old.number }
{
    loop {
        match step(walk) {
            Ok(Shift::End) => return Ok(Stand::Over),
            Ok(Shift::Back) => {}
            Ok(Shift::Forward) => return Ok(whole_or_asks(walk, count)),
            Err(e) => return Err(e),
        }
    }
}

/// Leaves the place where a walk rests, of a binder of so many variables.
pub fn set_out(walk: &mut Walk, count: usize) -> Result<Stand, AllocError>
    requires rests { IsResting count walk.old }
    requires kept { IsKeptWalk walk.old }
    ensures found { IfOk result (λ s. (rs : List RangeOf) (env : Slots) → count ≡ length rs → to_come rs env walk.old ≡ pending rs env walk.new s) }
    ensures stands { IfOk result (λ s. StandsAt count walk.new s) }
    ensures kept { IfOk result (λ s. IsKeptWalk walk.new) }
    ensures number { walk.new.number ≡ walk.old.number }
{
    if walk.fresh {
        walk.fresh = false;
        Ok(whole_or_asks(walk, count))
    } else {
        go_back(walk);
        go_on(walk, count)
    }
}

/// Goes on with the range that a walk asks for.
pub fn enter(walk: &mut Walk, range: Range, count: usize) -> Result<Stand, AllocError>
    requires asks { IsAsking count walk.old }
    requires kept { IsKeptWalk walk.old }
    requires values { AllByRecursion IsKept (left_in range) }
    ensures found { IfOk result (λ s. (rs : List RangeOf) (env : Slots) → count ≡ length rs → IsNextRange rs env walk.old (left_in range) → pending rs env walk.old Asks ≡ pending rs env walk.new s) }
    ensures work { IfOk result (λ s. (rs : List RangeOf) (env : Slots) → count ≡ length rs → IsNextRange rs env walk.old (left_in range) → pending_work rs env walk.new s < pending_work rs env walk.old Asks) }
    ensures stands { IfOk result (λ s. StandsAt count walk.new s) }
    ensures kept { IfOk result (λ s. IsKeptWalk walk.new) }
    ensures number { walk.new.number ≡ walk.old.number }
{
    push_range(walk, range)?;
    go_on(walk, count)
}

fn push_range(walk: &mut Walk, range: Range) -> Result<(), AllocError>
    ensures ranges { OnOk result (walk.new.ranges ≡ walk.old.ranges ++ range ∷ []) }
    ensures values { walk.new.values ≡ walk.old.values }
    ensures number { walk.new.number ≡ walk.old.number }
    ensures fresh { walk.new.fresh ≡ walk.old.fresh }
{
    walk.ranges.push(range)
}

/// A walk before its first place.
pub fn begun(alloc: Global) -> Walk
    ensures { Starts None result }
{
    Walk {
        values: Items::new(alloc),
        ranges: Items::new(alloc),
        number: 0,
        fresh: true,
    }
}
