ghost use Rattle.std.specs.Prelude.{◌≡◌, ◌+◌, ◌<◌, ◌≤◌, [], All, IfOk};
ghost use Rattle.turn_lock.specs.Turns.{known, IsPassOf, tag_of};
ghost use Rattle.turn_rows.specs.Histories.{AddsAtMost, HasPlace};

use std::alloc::Global;
use std::sync::Wait;
use turn_lock::{Kept, NoMemory, Pass, Turn};

/// A list of numbers that begins with its root. The others are above the root.
#[derive(Drop)]
pub struct Numbers {
    root: u64,
    more: Vec<u64>,
}

impl Kept for Numbers {
    type Tag = u64;

    type Entry = u64;

    ghost tag = { λ numbers. numbers.root };

    ghost fits = { λ root numbers. (numbers.root ≡ root) × All (λ x. root < x) numbers.more.items };

    ghost history = { λ numbers. numbers.more.items };

    fn length(&self) -> u64 {
        self.more.len() as u64
    }
}

impl Numbers {
    pub fn new(alloc: Global, root: u64) -> Numbers
        ensures { (result.root ≡ root) × (result.more.items ≡ []) }
    {
        Numbers {
            root,
            more: Vec::new(alloc),
        }
    }

    /// The numbers behind the root.
    pub fn more(&self) -> &[u64]
        ensures { result.now ≡ self.now.more.items }
    {
        self.more.as_slice()
    }

    /// The place of a number. One that is there keeps its place, another goes last.
    pub fn name(&mut self, x: u64) -> Result<usize, NoMemory>
        ensures root { self.new.root ≡ self.old.root }
        ensures more { AddsAtMost x self.old.more.items self.new.more.items }
        ensures place { IfOk result (HasPlace self.new.more.items x) }
    {
        match self.more.iter().position(|y| *y == x) {
            Some(place) => Ok(place.saturating_add(1)),
            None => {
                self.more.push(x)?;
                Ok(self.more.len())
            }
        }
    }
}

/// Names a number under the turn: its place among the numbers that the pass has seen then.
pub fn name<W: Wait>(
    rt: &W,
    turn: &Turn<Numbers>,
    pass: &mut Pass<Numbers>,
    x: u64,
) -> Result<usize, NoMemory>
    requires turn { IsPassOf turn.now pass.old }
    requires above { tag_of (λ numbers. numbers.root) turn.now < x }
    ensures turn { IsPassOf turn.now pass.new × ((known pass.new).shares ≡ (known pass.old).shares) }
    ensures own { ((known pass.new).own ≤ (known pass.old).own + 1) × ((known pass.old).own ≤ (known pass.new).own) }
    ensures place { IfOk result (HasPlace (known pass.new).seen x) }
{
    turn.hold(rt, pass, move |numbers: &mut Numbers| numbers.name(x))
}
