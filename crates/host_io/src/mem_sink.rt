// A sink in memory.
ghost use Rattle.std.specs.Prelude.{◌≤◌, ◌+◌, vec_len, vec_capacity};

use crate::calls::Calls;
use crate::outside::{Failed, Sink};
use sqlite_items::Items;
use std::alloc::{AllocError, Global};

/// A sink with room for `room` bytes more, which takes no memory after it was made.
#[derive(Debug, Drop)]
pub struct MemSink {
    bytes: Vec<u8>,
    pub room: usize,
    pub calls: Calls,
    ghost reserved: { vec_len bytes + room ≤ vec_capacity bytes },
}

impl MemSink {
    ghost use Rattle.std.specs.Prelude.{◌≡◌, [], IfOk};
    ghost use Rattle.host_io.specs.Memory.{held_of, fresh};

    /// An empty one.
    pub fn new(alloc: Global, room: usize, fails: Items<u64>) -> Result<MemSink, AllocError>
        ensures held { IfOk result (λ k. held_of k ≡ []) }
        ensures room { IfOk result (λ k. k.room ≡ room) }
        ensures calls { IfOk result (λ k. k.calls ≡ fresh fails) }
    {
        MemSink::holding(alloc, &[], room, fails)
    }

    /// One that holds bytes already, and has room for `room` more.
    pub fn holding(
        alloc: Global,
        held: &[u8],
        room: usize,
        fails: Items<u64>,
    ) -> Result<MemSink, AllocError>
        ensures held { IfOk result (λ k. held_of k ≡ held.now) }
        ensures room { IfOk result (λ k. k.room ≡ room) }
        ensures calls { IfOk result (λ k. k.calls ≡ fresh fails) }
    {
        let Some(capacity) = held.len().checked_add(room) else {
            return Err(AllocError);
        };
        let mut bytes = Vec::with_capacity(alloc, capacity)?;
        bytes.extend_from_slice(held)?;
        Ok(MemSink {
            bytes,
            room,
            calls: Calls::new(fails),
        })
    }

    pub fn bytes(&self) -> &[u8]
        ensures { result.now ≡ held_of self.now }
    {
        &self.bytes
    }
}

impl Sink for MemSink {
    ghost use Rattle.std.specs.Prelude.{◌≡◌, ◌-◌, ◌||◌, length, nat_lt, IfOk, OnErr, Some, is_err, if◌then◌else◌};
    ghost use Rattle.host_io.specs.Outside.{HasCause, Gives};
    ghost use Rattle.host_io.specs.Memory.{held_of, is_listed, called};

    ghost held = { λ k. Some (held_of k) };

    ghost faults = { λ k. k.calls.faults };

    fn give(&mut self, bytes: &[u8]) -> Result<usize, Failed>
        ensures given { IfOk result (λ count. Gives (Some (held_of self.old)) count bytes.now (Some (held_of self.new))) }
        ensures failed { OnErr result (held_of self.new ≡ held_of self.old) }
        ensures cause { HasCause self.old.calls.faults self.new.calls.faults result }
        ensures fails { is_err result ≡ (is_listed self.old.calls || nat_lt self.old.room (length bytes.now)) }
        ensures whole { IfOk result (λ count. count ≡ length bytes.now) }
        ensures room { self.new.room ≡ (if is_err result then self.old.room else self.old.room - length bytes.now) }
        ensures calls { self.new.calls ≡ called self.old.calls (is_err result) }
    {
        if self.calls.begin()
            || bytes.len() > self.room
            || self.bytes.extend_from_slice(bytes).is_err()
        {
            self.calls.fail();
            return Err(Failed);
        }
        self.room -= bytes.len();
        Ok(bytes.len())
    }
}
