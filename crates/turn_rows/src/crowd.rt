// Threads that raise one tally.
ghost use Rattle.std.specs.Prelude.{◌≡◌, ◌<◌, All, IfOk, IsSomeAnd};
ghost use Rattle.std.specs.Thread.{IsSync};
ghost use Rattle.turn_lock.specs.Turns.{known, IsPassOf};

use crate::tally::{Tally, raise};
use std::alloc::Global;
use std::sync::Wait;
use std::thread::{Threads, join};
use turn_lock::{Closed, NoMemory, Pass, Turn};

// Raises the tally so many times, and hands the pass back.
fn raise_often<W: Wait>(
    rt: &W,
    turn: &Turn<Tally>,
    mut pass: Pass<Tally>,
    times: u64,
) -> Pass<Tally>
    requires { IsPassOf turn.now pass }
    ensures { IsPassOf turn.now result × ((known result).shares ≡ (known pass).shares) }
{
    for _ in 0..times {
        let _raised = raise(rt, turn, &mut pass);
    }
    pass
}

// Two threads raise the tally.
fn raise_by_both<R: Threads + Wait + Sync>(
    rt: &R,
    turn: &Turn<Tally>,
    mine: Pass<Tally>,
    theirs: Pass<Tally>,
    times: u64,
) -> (Pass<Tally>, Pass<Tally>)
    requires turn { IsPassOf turn.now mine × IsPassOf turn.now theirs }
    requires sync { IsSync R.row }
    ensures mine { IsPassOf turn.now result.0 × ((known result.0).shares ≡ (known mine).shares) }
    ensures theirs { IsPassOf turn.now result.1 × ((known result.1).shares ≡ (known theirs).shares) }
{
    join(
        rt,
        || -> Pass<Tally>
            requires { IsSync R.row × IsPassOf turn.now mine }
            ensures { IsPassOf turn.entry.now result × ((known result).shares ≡ (known mine).shares) }
        { raise_often(rt, turn, mine, times) },
        || -> Pass<Tally>
            requires { IsSync R.row × IsPassOf turn.now theirs }
            ensures { IsPassOf turn.entry.now result × ((known result).shares ≡ (known theirs).shares) }
        { raise_often(rt, turn, theirs, times) },
    )
}

/// Four threads raise a tally so many times each. In the end each raise that was not refused was counted once.
pub fn raise_by_four<R: Threads + Wait + Sync>(
    rt: &R,
    alloc: Global,
    limit: u64,
    times: u64,
) -> Result<Closed<Tally>, NoMemory>
    ensures whole { IfOk result (λ closed. closed.missing ≡ 0) }
    ensures value { IfOk result (λ closed. IsSomeAnd closed.value (λ tally. closed.own ≡ tally.count)) }
{
    let (tallies, mut first) = Turn::new(alloc, Tally::new(limit))?;
    let second = tallies.split(&mut first);
    let third = tallies.split(&mut first);
    let fourth = tallies.split(&mut first);
    let turn = &tallies;
    let (front, back) = join(
        rt,
        || -> (Pass<Tally>, Pass<Tally>)
            requires { IsSync R.row × IsPassOf turn.now first × IsPassOf turn.now second }
            ensures { IsPassOf turn.entry.now result.0 × IsPassOf turn.entry.now result.1 × ((known result.0).shares ≡ (known first).shares) × ((known result.1).shares ≡ (known second).shares) }
        { raise_by_both(rt, turn, first, second, times) },
        || -> (Pass<Tally>, Pass<Tally>)
            requires { IsSync R.row × IsPassOf turn.now third × IsPassOf turn.now fourth }
            ensures { IsPassOf turn.entry.now result.0 × IsPassOf turn.entry.now result.1 × ((known result.0).shares ≡ (known third).shares) × ((known result.1).shares ≡ (known fourth).shares) }
        { raise_by_both(rt, turn, third, fourth, times) },
    );
    let mut last = front.0;
    tallies.join(&mut last, back.1);
    tallies.join(&mut last, front.1);
    tallies.join(&mut last, back.0);
    Ok(tallies.close(last))
}

/// So many more passes, under each of which the tally is raised once.
pub fn split_many<W: Wait>(
    rt: &W,
    alloc: Global,
    turn: &Turn<Tally>,
    pass: &mut Pass<Tally>,
    count: usize,
) -> Result<Vec<Pass<Tally>>, NoMemory>
    requires turn { IsPassOf turn.now pass.old }
    requires shares { count < (known pass.old).shares }
    ensures turn { IsPassOf turn.now pass.new }
    ensures others { IfOk result (λ others. All (IsPassOf turn.now) others.items) }
{
    let mut others = Vec::new(alloc);
    while others.len() < count {
        let mut other = turn.split(pass);
        let _raised = raise(rt, turn, &mut other);
        others.push(other)?;
    }
    Ok(others)
}

/// Joins each of the passes, the last one first.
pub fn join_each(turn: &Turn<Tally>, into: &mut Pass<Tally>, mut others: Vec<Pass<Tally>>)
    requires into { IsPassOf turn.now into.old }
    requires others { All (IsPassOf turn.now) others.items }
    ensures { IsPassOf turn.now into.new }
{
    while let Some(other) = others.pop() {
        turn.join(into, other);
    }
}
