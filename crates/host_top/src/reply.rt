// The text of a reply, as it is written.
ghost use Rattle.std.specs.Prelude.{◌≡◌, ◌≤◌, ◌+◌, [], ◌++◌, length, codes, OnOk, IfOk};
ghost use Rattle.std.specs.Fmt.{decimal};

use itoa::Buffer;
use std::alloc::{AllocError, Global};
use std::marker::Model;

// How long a reply may be that takes no memory.
const SHORT: usize = 64;

/// The bytes of a reply, with room for 64 of them taken from the start.
#[derive(Debug, Drop)]
pub struct ReplyText {
    bytes: Vec<u8>,
}

impl Model for ReplyText {
    ghost use Rattle.std.specs.Prelude.{ℕ, List, ◌≤◌, vec_capacity};

    ghost Value = { List ℕ };

    ghost view = { λ text. text.bytes.items };

    ghost invariant = { λ text. 64 ≤ vec_capacity text.bytes };
}

impl ReplyText {
    /// No bytes, and the room.
    pub fn new(alloc: Global) -> Result<ReplyText, AllocError>
        ensures { IfOk result (λ text. text ≡ []) }
    {
        Ok(ReplyText {
            bytes: Vec::with_capacity(alloc, SHORT)?,
        })
    }

    pub fn as_slice(&self) -> &[u8]
        ensures { result.now ≡ self.now }
    {
        &self.bytes
    }

    /// Drops all bytes, and keeps the room.
    pub fn clear(&mut self)
        ensures { self.new ≡ [] }
    {
        self.bytes.clear();
    }

    /// Adds bytes.
    pub fn add(&mut self, bytes: &[u8]) -> Result<(), AllocError>
        ensures { OnOk result (self.new ≡ self.old ++ bytes.now) }
    {
        self.bytes.extend_from_slice(bytes)
    }

    /// Adds a number in decimal digits.
    pub fn add_number(&mut self, n: u64) -> Result<(), AllocError>
        ensures { OnOk result (self.new ≡ self.old ++ decimal n) }
    {
        let mut buffer = Buffer::new();
        self.add(buffer.format(n).as_bytes())
    }

    /// Adds bytes for which there is room from the start.
    pub fn put(&mut self, bytes: &[u8])
        requires { length self.old + length bytes.now ≤ 64 }
        ensures { self.new ≡ self.old ++ bytes.now }
    {
        // It succeeds, since the room is there.
        let _ = self.bytes.extend_from_slice(bytes);
    }

    /// Adds a number in decimal digits, for which there is room from the start.
    pub fn put_number(&mut self, n: u64)
        requires { length self.old + 40 ≤ 64 }
        ensures text { self.new ≡ self.old ++ decimal n }
        ensures short { length self.new ≤ length self.old + 40 }
    {
        let mut buffer = Buffer::new();
        self.put(buffer.format(n).as_bytes());
    }
}
