// A source in memory.
ghost use Rattle.std.specs.Prelude.{◌≡◌, ◌≤◌, ◌<◌, ◌++◌, drop, take, length};

use crate::calls::Calls;
use crate::outside::{Failed, Source};
use sqlite_items::Items;

/// A source over bytes, which gives at most `piece` of them at a time.
#[derive(Debug, Drop)]
pub struct MemSource {
    bytes: Items<u8>,
    at: usize,
    pub piece: usize,
    pub calls: Calls,
    ghost within: { at ≤ length bytes },
    ghost some: { 0 < piece },
}

impl MemSource {
    ghost use Rattle.std.specs.Prelude.{◌≡◌, ◌<◌};
    ghost use Rattle.host_io.specs.Memory.{left_of, fresh};

    pub fn new(bytes: Items<u8>, piece: usize, fails: Items<u64>) -> MemSource
        requires { 0 < piece }
        ensures left { left_of result ≡ bytes }
        ensures piece { result.piece ≡ piece }
        ensures calls { result.calls ≡ fresh fails }
    {
        MemSource {
            bytes,
            at: 0,
            piece,
            calls: Calls::new(fails),
        }
    }
}

// Copies so many bytes.
fn copy_front(into: &mut [u8], from: &[u8], count: usize)
    requires into { count ≤ length into.old }
    requires from { count ≤ length from.now }
    ensures whole { into.new ≡ take count from.now ++ drop count into.old }
    ensures front { take count into.new ≡ take count from.now }
{
    into[..count].copy_from_slice(&from[..count]);
}

impl Source for MemSource {
    ghost use Rattle.std.specs.Prelude.{◌≡◌, ◌≤◌, ◌<◌, ◌++◌, min, drop, take, length, IfOk, OnErr, Some, is_err};
    ghost use Rattle.host_io.specs.Outside.{HasCause, Takes};
    ghost use Rattle.host_io.specs.Memory.{left_of, fresh, is_listed, called};

    ghost left = { λ s. Some (left_of s) };

    ghost faults = { λ s. s.calls.faults };

    fn take(&mut self, into: &mut [u8]) -> Result<usize, Failed>
        requires { 0 < length into.old }
        ensures taken { IfOk result (λ count. Takes (Some (left_of self.old)) count into.new (Some (left_of self.new))) }
        ensures failed { OnErr result (left_of self.new ≡ left_of self.old) }
        ensures cause { HasCause self.old.calls.faults self.new.calls.faults result }
        ensures fails { is_err result ≡ is_listed self.old.calls }
        ensures count { IfOk result (λ count. count ≡ min (min (length into.old) self.old.piece) (length (left_of self.old))) }
        ensures front { IfOk result (λ count. into.new ≡ take count (left_of self.old) ++ drop count into.old) }
        ensures untouched { OnErr result (into.new ≡ into.old) }
        ensures calls { self.new.calls ≡ called self.old.calls (is_err result) }
        ensures piece { self.new.piece ≡ self.old.piece }
    {
        if self.calls.begin() {
            self.calls.fail();
            return Err(Failed);
        }
        let (_, left) = self.bytes.as_slice().split_at(self.at);
        let count = into.len().min(self.piece).min(left.len());
        copy_front(into, left, count);
        self.at += count;
        Ok(count)
    }
}
