ghost use Rattle.std.specs.Prelude.{◌≡◌};

use crate::judged::Judge;
use crate::numbers::{Numbers, name};
use crate::spaces::{close_last, open_judged, put_by_two};
use crate::tally::{Tally, raise};
use crate::{join_each, raise_by_four, split_many};
use std::test::Fail;
use turn_lock::Turn;

#[test]
fn two_passes_name_a_number_each(rt: HostRuntime) -> Result<(), Fail> {
    let (turn, mut first) = Turn::new(rt.alloc(), Numbers::new(rt.alloc(), 3))?;
    let mut second = turn.split(&mut first);
    let mut third = turn.split(&mut first);
    assert_eq!(rt; name(&rt, &turn, &mut third, 20)?, 1);
    assert_eq!(rt; name(&rt, &turn, &mut second, 10)?, 2);
    turn.join(&mut first, second);
    turn.join(&mut first, third);
    let closed = turn.close(first);
    assert_eq!(rt; (closed.own, closed.missing), (2, 0));
    let numbers = closed.value.expect(&rt, "no pass is missing");
    assert!(rt; numbers.more() == [20, 10].as_slice());
    Ok(())
}

#[test]
fn a_number_keeps_its_place(rt: HostRuntime) -> Result<(), Fail> {
    let (turn, mut first) = Turn::new(rt.alloc(), Numbers::new(rt.alloc(), 3))?;
    let mut second = turn.split(&mut first);
    assert_eq!(rt; name(&rt, &turn, &mut first, 10)?, 1);
    assert_eq!(rt; name(&rt, &turn, &mut first, 20)?, 2);
    assert_eq!(rt; name(&rt, &turn, &mut first, 10)?, 1);
    assert_eq!(rt; first.own(), 2);
    assert_eq!(rt; name(&rt, &turn, &mut second, 20)?, 2);
    assert_eq!(rt; second.own(), 0);
    Ok(())
}

#[test]
fn a_dropped_pass_is_missing(rt: HostRuntime) -> Result<(), Fail> {
    let (turn, mut first) = Turn::new(rt.alloc(), Numbers::new(rt.alloc(), 3))?;
    let mut second = turn.split(&mut first);
    name(&rt, &turn, &mut second, 10)?;
    drop(second);
    name(&rt, &turn, &mut first, 20)?;
    let closed = turn.close(first);
    assert_eq!(rt; (closed.own, closed.missing), (1, 1));
    let numbers = closed.value.expect(&rt, "nobody holds the turn");
    assert!(rt; numbers.more() == [10, 20].as_slice());
    Ok(())
}

#[test]
fn shares_are_cut_and_come_back(rt: HostRuntime) -> Result<(), Fail> {
    let (turn, mut first) = Turn::new(rt.alloc(), Tally::new(9))?;
    assert_eq!(rt; (first.shares(), first.own()), (4_294_967_296, 0));
    let mut second = turn.split(&mut first);
    assert_eq!(rt; (first.shares(), second.shares()), (4_294_967_295, 1));
    let third = turn.split(&mut first);
    turn.join(&mut second, third);
    assert_eq!(rt; second.shares(), 2);
    let fourth = turn.split(&mut second);
    assert!(rt; raise(&rt, &turn, &mut second));
    turn.join(&mut second, first);
    assert_eq!(rt; (second.shares(), second.own()), (4_294_967_295, 1));
    let closed = turn.close(second);
    assert_eq!(rt; (closed.own, closed.missing, fourth.shares()), (1, 1, 1));
    Ok(())
}

#[test]
fn many_passes_are_joined_the_last_one_first(rt: HostRuntime) -> Result<(), Fail> {
    let (turn, mut first) = Turn::new(rt.alloc(), Tally::new(1000))?;
    let others = split_many(&rt, rt.alloc(), &turn, &mut first, 50)?;
    join_each(&turn, &mut first, others);
    assert_eq!(rt; (first.shares(), first.own()), (4_294_967_296, 50));
    let closed = turn.close(first);
    assert_eq!(rt; (closed.own, closed.missing), (50, 0));
    assert_eq!(rt; closed.value.expect(&rt, "no pass is missing").count(), 50);
    Ok(())
}

#[test]
fn many_passes_are_joined_to_the_last_one(rt: HostRuntime) -> Result<(), Fail> {
    let (turn, mut first) = Turn::new(rt.alloc(), Tally::new(1000))?;
    let mut others = split_many(&rt, rt.alloc(), &turn, &mut first, 20)?;
    let mut last = others.pop().expect(&rt, "there are twenty passes");
    turn.join(&mut last, first);
    join_each(&turn, &mut last, others);
    let closed = turn.close(last);
    assert_eq!(rt; (closed.own, closed.missing), (20, 0));
    Ok(())
}

#[test]
fn four_threads_raise_one_tally(rt: HostRuntime) -> Result<(), Fail> {
    for (limit, times, count) in [(u64::MAX, 10_000, 40_000), (100, 50, 100)] {
        let closed = raise_by_four(&rt, rt.alloc(), limit, times)?;
        assert_eq!(rt; (closed.own, closed.missing), (count, 0));
        assert_eq!(rt;
            closed.value.expect(&rt, "no pass is missing").count(),
            count
        );
    }
    Ok(())
}

// A judge whose best number is its own.
#[derive(Drop)]
struct Lone(u64);

impl Judge for Lone {
    ghost good = { λ lone x. x ≡ lone.0 };

    fn best(&self) -> u64 {
        self.0
    }
}

#[test]
fn two_threads_put_under_33_turns(rt: HostRuntime) -> Result<(), Fail> {
    let judge = Lone(7);
    let (mut turns, passes) = open_judged(rt.alloc(), 33, &judge)?;
    let mut passes = put_by_two(&rt, rt.alloc(), turns.as_slice(), passes, &judge)?;
    for _ in 0..33 {
        let last = close_last(&mut turns, &mut passes).expect(&rt, "there are 33 turns");
        assert_eq!(rt; (last.own, last.missing), (2, 0));
        let judged = last.value.expect(&rt, "no pass is missing");
        assert!(rt; judged.items() == [7, 7].as_slice());
    }
    assert!(rt; close_last(&mut turns, &mut passes).is_none());
    Ok(())
}
