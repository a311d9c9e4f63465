//! A list of turns, and a list of passes with one pass of each.
#![tactic(auto)]

ghost use Rattle.std.specs.Prelude.{◌≡◌, ◌<◌, ◌≤◌, All, OnErr, IfOk, [], length, map, slice_get, Some};
ghost use Rattle.turn_lock.specs.Passes.{first_known, left_known, split_known};
ghost use Rattle.turn_list.specs.Lists.{ArePassesOf, all_known, all_tags, joined_all, AreOfOneTurnEach, CanBeOpened};
ghost use Rattle.turn_list.specs.Places.{KeepsAt, RanAt};

use std::alloc::Global;
use std::sync::Wait;
use turn_lock::{Kept, NoMemory, Pass, Turn};

/// A turn for each value, and a pass of each.
pub fn open_all<V: Kept + Drop>(
    alloc: Global,
    values: Vec<V>,
) -> Result<(Vec<Turn<V>>, Vec<Pass<V>>), NoMemory>
    requires { CanBeOpened V.tag V.fits V.history values.items }
    ensures turns { IfOk result (λ made. ArePassesOf made.0.items made.1.items × (all_tags V.tag made.0.items ≡ map V.tag values.items)) }
    ensures passes { IfOk result (λ made. all_known made.1.items ≡ map (λ _. first_known) values.items) }
{
    let mut turns = Vec::with_capacity(alloc, values.len())?;
    let mut passes = Vec::with_capacity(alloc, values.len())?;
    for value in values {
        let (turn, pass) = Turn::new(alloc, value)?;
        turns.push(turn)?;
        passes.push(pass)?;
    }
    Ok((turns, passes))
}

/// Holds the turn at this place with the pass at this place.
pub fn hold_at<W: Wait, V: Kept + Drop, R, F: FnOnce(&mut V) -> R>(
    rt: &W,
    turns: &[Turn<V>],
    passes: &mut [Pass<V>],
    place: usize,
    job: F,
) -> R
    requires turns { ArePassesOf turns.now passes.old }
    requires place { place < length turns.now }
    requires job { KeepsAt V.tag V.fits V.history F.FnOnce turns.now (all_known passes.old) place job }
    ensures turns { ArePassesOf turns.now passes.new }
    ensures ran { RanAt V.tag V.fits V.history F.FnOnce turns.now (all_known passes.old) (all_known passes.new) place job result }
{
    turns[place].hold(rt, &mut passes[place], job)
}

/// Another pass of each turn. Where memory is wanted all passes are as before.
pub fn split_all<V: Kept + Drop>(
    alloc: Global,
    turns: &[Turn<V>],
    passes: &mut [Pass<V>],
) -> Result<Vec<Pass<V>>, NoMemory>
    requires turns { ArePassesOf turns.now passes.old }
    requires two { All (λ known. 2 ≤ known.shares) (all_known passes.old) }
    ensures turns { ArePassesOf turns.now passes.new }
    ensures left { IfOk result (λ split. all_known passes.new ≡ map left_known (all_known passes.old)) }
    ensures split { IfOk result (λ split. ArePassesOf turns.now split.items × (all_known split.items ≡ map split_known (all_known passes.old))) }
    ensures err { OnErr result (passes.new ≡ passes.old) }
{
    let mut split = Vec::with_capacity(alloc, turns.len())?;
    for i in 0..turns.len() {
        split.push_reserved(turns[i].split(&mut passes[i]));
    }
    Ok(split)
}

/// Joins each pass to the one at its place.
pub fn join_all<V: Kept + Drop>(turns: &[Turn<V>], into: &mut [Pass<V>], mut others: Vec<Pass<V>>)
    requires into { ArePassesOf turns.now into.old }
    requires others { ArePassesOf turns.now others.items }
    ensures turns { ArePassesOf turns.now into.new }
    ensures joined { all_known into.new ≡ joined_all (all_known into.old) (all_known others.items) }
    ensures of_one_turn { AreOfOneTurnEach (all_known into.old) (all_known others.items) }
{
    while let Some(other) = others.pop() {
        let i = others.len();
        turns[i].join(&mut into[i], other);
    }
}
