// A value that carries its tag: a snapshot of an engine, which takes no bytes.
ghost use Rattle.std.specs.Prelude.{◌≡◌, ◌+◌, ◌++◌, ◌∷◌, [], ℕ, MatchBool};
ghost use Rattle.turn_rows.specs.Histories.{AreGood};

use std::alloc::Global;
use std::snapshot::Snapshot;
use std::sync::Wait;
use turn_lock::{Kept, Pass, Turn};

/// Who says which numbers are good.
pub trait Judge: Send + Sync + Drop {
    ghost good: { Self → ℕ → Type 0 };

    fn best(&self) -> u64
        ensures { good self.now result };
}

/// Good numbers.
#[derive(Drop)]
pub struct Judged<J: Judge> {
    items: Vec<u64>,
    by: Snapshot<J>,
}

impl<J: Judge> Kept for Judged<J> {
    type Tag = J;

    type Entry = u64;

    ghost tag = { λ judged. judged.by.value };

    ghost fits = { λ judge judged. (judged.by.value ≡ judge) × AreGood (J.good judge) judged.items.items };

    ghost history = { λ judged. judged.items.items };

    fn length(&self) -> u64 {
        self.items.len() as u64
    }
}

impl<J: Judge> Judged<J> {
    pub fn new(alloc: Global, judge: &J) -> Judged<J>
        ensures { (result.by.value ≡ judge.now) × (result.items.items ≡ []) }
    {
        Judged {
            items: Vec::new(alloc),
            by: Snapshot::of(judge),
        }
    }

    pub fn items(&self) -> &[u64]
        ensures { result.now ≡ self.now.items.items }
    {
        self.items.as_slice()
    }

    /// Puts a number last, or finds no memory.
    pub fn put(&mut self, x: u64) -> bool
        ensures by { self.new.by ≡ self.old.by }
        ensures items { MatchBool result (self.new.items.items ≡ self.old.items.items ++ x ∷ []) (self.new.items.items ≡ self.old.items.items) }
    {
        self.items.push(x).is_ok()
    }
}

impl<J: Judge> Judged<J> {
    ghost use Rattle.turn_lock.specs.Turns.{known, IsPassOf, tag_of};

    /// Puts the judge's best number last under the turn, and says whether it did.
    pub fn put_best<W: Wait>(
        rt: &W,
        turn: &Turn<Judged<J>>,
        pass: &mut Pass<Judged<J>>,
        judge: &J,
    ) -> bool
        requires turn { IsPassOf turn.now pass.old }
        requires judge { tag_of (λ judged. judged.by.value) turn.now ≡ judge.now }
        ensures turn { IsPassOf turn.now pass.new }
        ensures own { MatchBool result ((known pass.new).own ≡ (known pass.old).own + 1) ((known pass.new).own ≡ (known pass.old).own) }
    {
        let x = judge.best();
        turn.hold(rt, pass, move |judged: &mut Judged<J>| judged.put(x))
    }
}
