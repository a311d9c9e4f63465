ghost use Rattle.std.specs.Prelude.{◌≡◌, ◌≤◌, ◌<◌, ◌+◌, [], ◌++◌, length, OnOk, OnErr};
ghost use Rattle.std.specs.Fmt.{decimal};

use itoa::Buffer;
use smallvec::SmallVec;
use std::alloc::{AllocError, Global};
use std::marker::Model;

/// The bytes of a reply. Up to 64 are kept in the value itself.
#[derive(Debug, Drop)]
pub struct ReplyText {
    bytes: SmallVec<u8, 64>,
}

impl Model for ReplyText {
    ghost use Rattle.std.specs.Prelude.{ℕ, List, ◌≤◌};

    ghost Value = { List ℕ };

    ghost view = { λ text. text.bytes.items };

    ghost invariant = { λ text. 64 ≤ text.bytes.capacity };
}

impl ReplyText {
    /// No bytes. It takes no memory.
    pub fn new(alloc: Global) -> ReplyText
        ensures { result ≡ [] }
    {
        ReplyText {
            bytes: SmallVec::new(alloc),
        }
    }

    pub fn as_slice(&self) -> &[u8]
        ensures { result.now ≡ self.now }
    {
        self.bytes.as_slice()
    }

    // Adds bytes, which takes no memory up to 64.
    pub(crate) fn add(&mut self, bytes: &[u8]) -> Result<(), AllocError>
        ensures added { OnOk result (self.new ≡ self.old ++ bytes.now) }
        ensures long { OnErr result (64 < length self.old + length bytes.now) }
    {
        self.bytes.extend_from_slice(bytes)
    }

    // Adds a number in decimal digits.
    pub(crate) fn add_number(&mut self, n: u64) -> Result<(), AllocError>
        ensures added { OnOk result (self.new ≡ self.old ++ decimal n) }
        ensures long { OnErr result (64 < length self.old + length (decimal n)) }
    {
        let mut buffer = Buffer::new();
        self.add(buffer.format(n).as_bytes())
    }
}
