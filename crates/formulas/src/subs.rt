ghost use Rattle.std.specs.Prelude.{◌≡◌, not, filter};
ghost use Rattle.std.specs.List.{list_any};
ghost use Rattle.formulas.specs.Subscribing.{nothing_subscribed, has_number, Subscribes, Unsubscribes};

use engine_face::FormulaKey;
use std::alloc::Global;
use std::marker::Model;

/// How many subscriptions there may be.
pub const MOST_SUBS: usize = 64;

/// A formula under its number.
#[derive(Debug, Drop)]
pub struct Sub {
    pub number: u64,
    pub key: FormulaKey,
}

/// Why the subscriptions stay as they are.
#[derive(Clone, Copy, Debug, PartialEq, Eq)]
pub enum SubFault {
    /// There are 64.
    SubsFull,
    /// None has this number.
    NoSub,
    Memory,
}

/// Subscriptions by ascending numbers. Contracts see their list and the number that the next one gets.
#[derive(Debug, Drop)]
pub struct Subs {
    list: Vec<Sub>,
    next: u64,
}

impl Model for Subs {
    ghost use Rattle.formulas.specs.Subscriptions.{Subscriptions};

    ghost Value = { Subscriptions };

    ghost view = { λ s. record { list = s.list.items; next = s.next } };
}

// Whether a subscription has this number.
fn is_taken(subs: &[Sub], number: u64) -> bool
    ensures { result ≡ list_any (has_number number) subs.now }
{
    subs.iter().any(|sub| sub.number == number)
}

// Drops the subscriptions of a number.
fn drop_number(subs: &mut Vec<Sub>, number: u64)
    ensures { subs.new.items ≡ filter (λ sub. not (has_number number sub)) subs.old.items }
{
    subs.retain(|sub| sub.number != number);
}

impl Subs {
    /// No subscriptions; the first one gets number 1. It takes no memory.
    pub fn new(alloc: Global) -> Subs
        ensures { result ≡ nothing_subscribed }
    {
        Subs {
            list: Vec::new(alloc),
            next: 1,
        }
    }

    pub fn list(&self) -> &[Sub]
        ensures { result.now ≡ self.now.list }
    {
        self.list.as_slice()
    }

    /// Whether a subscription has this number.
    pub fn has(&self, number: u64) -> bool
        ensures { result ≡ list_any (has_number number) self.now.list }
    {
        is_taken(&self.list, number)
    }

    /// The number that the next subscription gets.
    pub fn next(&self) -> u64
        ensures { result ≡ self.now.next }
    {
        self.next
    }

    /// Adds a formula under the next number: the number.
    pub fn add(&mut self, key: FormulaKey) -> Result<u64, SubFault>
        ensures { Subscribes self.old key self.new result }
    {
        if self.list.len() >= MOST_SUBS {
            return Err(SubFault::SubsFull);
        }
        let number = self.next;
        let Some(next) = number.checked_add(1) else {
            return Err(SubFault::Memory);
        };
        if self.list.push(Sub { number, key }).is_err() {
            return Err(SubFault::Memory);
        }
        self.next = next;
        Ok(number)
    }

    /// Takes the subscription of a number out. It takes no memory.
    pub fn remove(&mut self, number: u64) -> Result<(), SubFault>
        ensures { Unsubscribes self.old number self.new result }
    {
        if !is_taken(&self.list, number) {
            return Err(SubFault::NoSub);
        }
        drop_number(&mut self.list, number);
        Ok(())
    }
}
