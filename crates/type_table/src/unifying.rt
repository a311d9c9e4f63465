ghost use Rattle.std.specs.Prelude.{◌≡◌, ◌<◌, ◌≤◌, length, slice_set};
ghost use Rattle.type_table.specs.Tables.{EndsAt, IsRoot, IsTable, row_at};
ghost use Rattle.type_table.specs.Unifying.{AllAlike, AreInside, Defers, Finds, Flat, Meets, Merges, Settles, Shortens, Unifies, link_of};

use crate::rows::Row;
use std::alloc::{AllocError, Global};

/// What is left of an equation once two rows became one.
#[derive(Clone, Copy, Debug, PartialEq, Eq)]
pub enum Step {
    Done,
    One(usize, usize),
    Two(usize, usize, usize, usize),
    Clash,
}

/// Where a part's links end.
#[tactic(auto, using(crate::proofs::Links::leads_none, crate::proofs::Links::leads_more, crate::proofs::Links::leads, crate::proofs::Links::goes_back))]
pub fn root(rows: &[Row], i: usize) -> usize
    requires table { IsTable rows.now }
    requires inside { i < length rows.now }
    ensures { EndsAt rows.now i result }
{
    let mut at = i;
    while let Row::Same(j) = rows[at] {
        at = j;
    }
    at
}

/// Lets a link go where the link behind it goes.
#[tactic(auto, using(crate::proofs::Links::goes_back))]
fn shorten(rows: &mut [Row], at: usize, next: usize)
    requires table { IsTable rows.old }
    requires inside { at < length rows.old }
    requires linked { row_at rows.old at ≡ Row.Same next }
    ensures { rows.new ≡ slice_set rows.old at (Row.Same (link_of next (row_at rows.old next))) }
{
    let further = match rows[next] {
        Row::Same(k) => k,
        _ => next,
    };
    rows[at] = Row::Same(further);
}

/// Where a part's links end. Each link on the way is shortened to the one behind it, so that later searches are short.
#[tactic(auto, using(crate::proofs::Links::walks_none, crate::proofs::Links::walks_more, crate::proofs::Links::walked, crate::proofs::Links::goes_back))]
fn find(rows: &mut [Row], i: usize) -> usize
    requires table { IsTable rows.old }
    requires inside { i < length rows.old }
    ensures { Finds rows.old rows.new i result }
{
    let mut at = i;
    while let Row::Same(next) = rows[at] {
        shorten(rows, at, next);
        at = next;
    }
    at
}

/// Lets each link go to where its links end, in one pass, since links go back.
#[tactic(auto, using(crate::proofs::Links::flat_none, crate::proofs::Links::flat_root, crate::proofs::Links::flat_link, crate::proofs::Links::flat_all))]
pub fn flatten(rows: &mut [Row])
    requires table { IsTable rows.old }
    ensures short { Shortens rows.old rows.new }
    ensures flat { Flat rows.new }
{
    for i in 0..rows.len() {
        if let Row::Same(next) = rows[i] {
            shorten(rows, i, next);
        }
    }
}

/// One row in place of two, and what is left.
#[tactic(auto, using(crate::proofs::Steps::meets_open, crate::proofs::Steps::open_meets, crate::proofs::Steps::meets_same, crate::proofs::Steps::meets_other, crate::proofs::Steps::meets_sets, crate::proofs::Steps::meets_pairs))]
fn meet(x: Row, y: Row) -> (Row, Step)
    requires first { IsRoot x }
    requires second { IsRoot y }
    ensures { Meets x y result.0 result.1 }
{
    match (x, y) {
        (Row::Open, _) => (y, Step::Done),
        (_, Row::Open) => (x, Step::Done),
        (Row::Basic(p), Row::Basic(q)) => (x, if p == q { Step::Done } else { Step::Clash }),
        (Row::Set(p), Row::Set(q)) => (x, Step::One(p, q)),
        (Row::Pair(p, q), Row::Pair(r, t)) => (x, Step::Two(p, r, q, t)),
        (Row::Basic(_), Row::Set(_)) => (x, Step::Clash),
        (Row::Basic(_), Row::Pair(_, _)) => (x, Step::Clash),
        (Row::Set(_), Row::Basic(_)) => (x, Step::Clash),
        (Row::Set(_), Row::Pair(_, _)) => (x, Step::Clash),
        (Row::Pair(_, _), Row::Basic(_)) => (x, Step::Clash),
        (Row::Pair(_, _), Row::Set(_)) => (x, Step::Clash),
        (Row::Same(_), _) => (x, Step::Clash),
        (_, Row::Same(_)) => (x, Step::Clash),
    }
}

/// Makes one class of two, which leaves fewer classes.
#[tactic(auto, using(crate::proofs::Steps::link_merged))]
fn link(rows: &mut [Row], low: usize, high: usize) -> Step
    requires table { IsTable rows.old }
    requires below { low < high }
    requires inside { high < length rows.old }
    requires first { IsRoot (row_at rows.old low) }
    requires second { IsRoot (row_at rows.old high) }
    ensures { Merges rows.old rows.new low high result }
{
    let (row, left) = meet(rows[low], rows[high]);
    rows[low] = row;
    rows[high] = Row::Same(low);
    left
}

/// Makes one class of those of two parts.
#[tactic(auto, using(crate::proofs::Steps::merges_found, crate::proofs::Steps::merged_turned, crate::proofs::Steps::already, crate::proofs::Steps::end_kept))]
fn merge(rows: &mut [Row], a: usize, b: usize) -> Step
    requires table { IsTable rows.old }
    requires first { a < length rows.old }
    requires second { b < length rows.old }
    ensures { Merges rows.old rows.new a b result }
{
    let i = find(rows, a);
    let j = find(rows, b);
    if i == j {
        return Step::Done;
    }
    if i < j {
        link(rows, i, j)
    } else {
        link(rows, j, i)
    }
}

/// Puts what is left of an equation to other equations; false where it can't hold.
#[tactic(auto, using(crate::proofs::Settling::defers_none, crate::proofs::Settling::defers_one, crate::proofs::Settling::defers_two))]
fn defer(equations: &mut Vec<(usize, usize)>, left: Step) -> Result<bool, AllocError>
    ensures { Defers equations.old.items equations.new.items left result }
{
    match left {
        Step::Done => Ok(true),
        Step::One(p, q) => {
            equations.push((p, q))?;
            Ok(true)
        }
        Step::Two(p, q, r, t) => {
            equations.push((r, t))?;
            equations.push((p, q))?;
            Ok(true)
        }
        Step::Clash => Ok(false),
    }
}

/// Makes the two parts of each equation be of one type, or finds that they can't.
#[tactic(auto, using(crate::proofs::Settling::settling_none, crate::proofs::Settling::settling_more, crate::proofs::Settling::settling_clash, crate::proofs::Settling::settled, crate::proofs::Settling::first_inside, crate::proofs::Settling::second_inside, crate::proofs::Settling::settling_no_memory, crate::proofs::Settling::settling_less))]
fn settle(rows: &mut [Row], mut equations: Vec<(usize, usize)>) -> Result<bool, AllocError>
    requires table { IsTable rows.old }
    requires inside { AreInside (length rows.old) equations.items }
    ensures { Settles rows.old rows.new (λ s. AllAlike s equations.items) result }
{
    while let Some((p, q)) = equations.pop() {
        let left = merge(rows, p, q);
        if !defer(&mut equations, left)? {
            return Ok(false);
        }
    }
    Ok(true)
}

/// Makes two parts be of one type, or finds that they can't. It needs memory only where types with parts meet.
#[tactic(auto, using(crate::proofs::Settling::unify_clash, crate::proofs::Settling::unify_inside, crate::proofs::Settling::unified))]
pub fn unify(alloc: Global, rows: &mut [Row], a: usize, b: usize) -> Result<bool, AllocError>
    requires table { IsTable rows.old }
    requires first { a < length rows.old }
    requires second { b < length rows.old }
    ensures { Unifies rows.old rows.new a b result }
{
    let left = merge(rows, a, b);
    let mut equations = Vec::new(alloc);
    if !defer(&mut equations, left)? {
        return Ok(false);
    }
    settle(rows, equations)
}
