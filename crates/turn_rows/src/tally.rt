ghost use Rattle.std.specs.Prelude.{◌≡◌, ◌+◌, ◌≤◌, MatchBool};
ghost use Rattle.turn_lock.specs.Histories.{GrowsByOne};
ghost use Rattle.turn_rows.specs.Histories.{raised};
ghost use Rattle.turn_lock.specs.Turns.{known, IsPassOf};

use std::sync::Wait;
use turn_lock::{Kept, Pass, Turn};

/// A count up to a limit. Its history has an empty entry for each time that it was raised.
#[derive(Drop)]
pub struct Tally {
    limit: u64,
    count: u64,
}

impl Kept for Tally {
    type Tag = u64;

    type Entry = ();

    ghost tag = { λ tally. tally.limit };

    ghost fits = { λ limit tally. (tally.limit ≡ limit) × (tally.count ≤ limit) };

    ghost history = { λ tally. raised tally.count };

    fn length(&self) -> u64 {
        self.count
    }
}

impl Tally {
    pub fn new(limit: u64) -> Tally
        ensures { (result.limit ≡ limit) × (result.count ≡ 0) }
    {
        Tally { limit, count: 0 }
    }

    pub fn count(&self) -> u64
        ensures { result ≡ self.now.count }
    {
        self.count
    }

    // Adds one or nothing.
    fn add(&mut self, by: u64)
        requires few { by ≤ 1 }
        requires room { self.old.count + by ≤ self.old.limit }
        ensures limit { self.new.limit ≡ self.old.limit }
        ensures count { self.new.count ≡ self.old.count + by }
        ensures grows { GrowsByOne (raised self.old.count) (raised self.new.count) }
    {
        self.count += by;
    }

    /// Adds one, where the limit isn't reached, and says whether it did.
    pub fn raise(&mut self) -> bool
        requires { self.old.count ≤ self.old.limit }
        ensures limit { (self.new.limit ≡ self.old.limit) × (self.new.count ≤ self.new.limit) }
        ensures grows { GrowsByOne (raised self.old.count) (raised self.new.count) }
        ensures count { MatchBool result (self.new.count ≡ self.old.count + 1) (self.new.count ≡ self.old.count) }
    {
        if self.count < self.limit {
            self.add(1);
            true
        } else {
            self.add(0);
            false
        }
    }
}

/// Raises the tally under the turn, and says whether it did.
pub fn raise<W: Wait>(rt: &W, turn: &Turn<Tally>, pass: &mut Pass<Tally>) -> bool
    requires { IsPassOf turn.now pass.old }
    ensures turn { IsPassOf turn.now pass.new × ((known pass.new).shares ≡ (known pass.old).shares) }
    ensures own { MatchBool result ((known pass.new).own ≡ (known pass.old).own + 1) ((known pass.new).own ≡ (known pass.old).own) }
{
    turn.hold(rt, pass, |tally: &mut Tally| tally.raise())
}
