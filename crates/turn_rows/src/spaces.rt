// A row of turns that is generic over a judge, as a space of stores over an engine is.
ghost use Rattle.std.specs.Prelude.{◌≡◌, ◌≢◌, ◌<◌, ◌≤◌, ℕ, All, IfOk, length, slice_get};
ghost use Rattle.std.specs.Thread.{IsSync};
ghost use Rattle.turn_list.specs.Lists.{ArePassesOf, all_known, all_tags};

use crate::judged::{Judge, Judged};
use std::alloc::Global;
use std::sync::Wait;
use std::thread::{Threads, join};
use turn_list::{hold_at, join_all, open_all, split_all};
use turn_lock::{Closed, NoMemory, Pass, Turn};

/// So many turns, each over an empty list of the judge's.
pub fn open_judged<J: Judge>(
    alloc: Global,
    count: usize,
    judge: &J,
) -> Result<(Vec<Turn<Judged<J>>>, Vec<Pass<Judged<J>>>), NoMemory>
    ensures turns { IfOk result (λ made. ArePassesOf made.0.items made.1.items) }
    ensures judge { IfOk result (λ made. All (λ tag. tag ≡ judge.now) (all_tags (λ judged. judged.by.value) made.0.items)) }
    ensures two { IfOk result (λ made. All (λ known. 2 ≤ known.shares) (all_known made.1.items)) }
{
    let mut lists = Vec::with_capacity(alloc, count)?;
    for _ in 0..count {
        lists.push(Judged::new(alloc, judge))?;
    }
    let (turns, passes) = open_all(alloc, lists)?;
    Ok((turns, passes))
}

// Puts the judge's best number under the turn at this place. What the other passes know is as before.
fn put_at<W: Wait, J: Judge>(
    rt: &W,
    turns: &[Turn<Judged<J>>],
    passes: &mut [Pass<Judged<J>>],
    place: usize,
    judge: &J,
) -> bool
    requires turns { ArePassesOf turns.now passes.old }
    requires place { place < length turns.now }
    requires judge { All (λ tag. tag ≡ judge.now) (all_tags (λ judged. judged.by.value) turns.now) }
    ensures turns { ArePassesOf turns.now passes.new }
    ensures others { (other : ℕ) → other ≢ place → slice_get (all_known passes.new) other ≡ slice_get (all_known passes.old) other }
{
    let x = judge.best();
    hold_at(
        rt,
        turns,
        passes,
        place,
        move |judged: &mut Judged<J>| judged.put(x),
    )
}

// Puts a number under each turn.
fn put_everywhere<W: Wait, J: Judge>(
    rt: &W,
    turns: &[Turn<Judged<J>>],
    passes: &mut [Pass<Judged<J>>],
    judge: &J,
)
    requires turns { ArePassesOf turns.now passes.old }
    requires judge { All (λ tag. tag ≡ judge.now) (all_tags (λ judged. judged.by.value) turns.now) }
    ensures { ArePassesOf turns.now passes.new }
{
    for place in 0..turns.len() {
        let _put = put_at(rt, turns, passes, place, judge);
    }
}

// The same, and hands the passes back.
fn put_by_one<W: Wait, J: Judge>(
    rt: &W,
    turns: &[Turn<Judged<J>>],
    mut passes: Vec<Pass<Judged<J>>>,
    judge: &J,
) -> Vec<Pass<Judged<J>>>
    requires turns { ArePassesOf turns.now passes.items }
    requires judge { All (λ tag. tag ≡ judge.now) (all_tags (λ judged. judged.by.value) turns.now) }
    ensures { ArePassesOf turns.now result.items }
{
    put_everywhere(rt, turns, passes.as_mut_slice(), judge);
    passes
}

// Splits a pass off each of the passes.
fn split_row<J: Judge>(
    alloc: Global,
    turns: &[Turn<Judged<J>>],
    passes: &mut Vec<Pass<Judged<J>>>,
) -> Result<Vec<Pass<Judged<J>>>, NoMemory>
    requires turns { ArePassesOf turns.now passes.old.items }
    requires two { All (λ known. 2 ≤ known.shares) (all_known passes.old.items) }
    ensures turns { ArePassesOf turns.now passes.new.items }
    ensures others { IfOk result (λ others. ArePassesOf turns.now others.items) }
{
    split_all(alloc, turns, passes.as_mut_slice())
}

// Joins each of the others to the pass at its place.
fn join_row<J: Judge>(
    turns: &[Turn<Judged<J>>],
    mut passes: Vec<Pass<Judged<J>>>,
    others: Vec<Pass<Judged<J>>>,
) -> Vec<Pass<Judged<J>>>
    requires turns { ArePassesOf turns.now passes.items }
    requires others { ArePassesOf turns.now others.items }
    ensures { ArePassesOf turns.now result.items }
{
    join_all(turns, passes.as_mut_slice(), others);
    passes
}

/// Two threads put a number under each turn, and the passes are joined again.
pub fn put_by_two<R: Threads + Wait + Sync, J: Judge>(
    rt: &R,
    alloc: Global,
    turns: &[Turn<Judged<J>>],
    mut passes: Vec<Pass<Judged<J>>>,
    judge: &J,
) -> Result<Vec<Pass<Judged<J>>>, NoMemory>
    requires turns { ArePassesOf turns.now passes.items }
    requires judge { All (λ tag. tag ≡ judge.now) (all_tags (λ judged. judged.by.value) turns.now) }
    requires two { All (λ known. 2 ≤ known.shares) (all_known passes.items) }
    ensures { IfOk result (λ passes. ArePassesOf turns.now passes.items) }
{
    let others = split_row(alloc, turns, &mut passes)?;
    let (passes, others) = join(
        rt,
        || -> Vec<Pass<Judged<J>>>
            requires { IsSync R.row × IsSync J.row × ArePassesOf turns.now passes.items × All (λ tag. tag ≡ judge.now) (all_tags (λ judged. judged.by.value) turns.now) }
            ensures { ArePassesOf turns.entry.now result.items }
        { put_by_one(rt, turns, passes, judge) },
        || -> Vec<Pass<Judged<J>>>
            requires { IsSync R.row × IsSync J.row × ArePassesOf turns.now others.items × All (λ tag. tag ≡ judge.now) (all_tags (λ judged. judged.by.value) turns.now) }
            ensures { ArePassesOf turns.entry.now result.items }
        { put_by_one(rt, turns, others, judge) },
    );
    Ok(join_row(turns, passes, others))
}

/// Closes the last turn with the last pass.
pub fn close_last<J: Judge>(
    turns: &mut Vec<Turn<Judged<J>>>,
    passes: &mut Vec<Pass<Judged<J>>>,
) -> Option<Closed<Judged<J>>>
    requires { ArePassesOf turns.old.items passes.old.items }
    ensures { ArePassesOf turns.new.items passes.new.items }
{
    let turn = turns.pop()?;
    let pass = passes.pop()?;
    Some(turn.close(pass))
}
