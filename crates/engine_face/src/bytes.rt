ghost use Rattle.std.proofs.Common.{rules};
ghost use Rattle.std.specs.Cmp.Lexicographic.{nat_list_eq_equiv, pointwise};
ghost use Rattle.std.specs.Cmp.Rules.{hashing};
ghost use Rattle.std.specs.Cmp.{partial_equiv_from_equiv};
ghost use Rattle.std.specs.Hash as fed;
ghost use Rattle.std.specs.Prelude.{◌≡◌, IfOk, nat_eq};

use shared::Shared;
use sqlite_items::Items;
use std::alloc::{AllocError, Global};
use std::hash::{Hash, Hasher};
use std::marker::Model;

/// A handle of bytes, which further handles share. Contracts see the bytes.
#[derive(Debug, Drop)]
pub struct SharedBytes {
    bytes: Shared<Items<u8>>,
}

impl Model for SharedBytes {
    ghost use Rattle.std.specs.Coded.{coded_list, coded_ℕ};
    ghost use Rattle.std.specs.Prelude.{List, ℕ};

    ghost Value = { List ℕ };

    ghost coded = { coded_list coded_ℕ };

    ghost view = { λ s. s.bytes };
}

impl SharedBytes {
    pub fn new(alloc: Global, bytes: Items<u8>) -> Result<SharedBytes, AllocError>
        ensures { IfOk result (λ s. s ≡ bytes) }
    {
        Ok(SharedBytes {
            bytes: Shared::new(alloc, bytes)?,
        })
    }

    pub fn as_slice(&self) -> &[u8]
        ensures { result.now ≡ self.now }
    {
        self.bytes.get().as_slice()
    }

    /// Another handle of the same bytes. It copies nothing.
    pub fn share(&self) -> Result<SharedBytes, AllocError>
        ensures { IfOk result (λ s. s ≡ self.now) }
    {
        Ok(SharedBytes {
            bytes: self.bytes.share()?,
        })
    }
}

impl PartialEq for SharedBytes {
    ghost eq = { λ a b. pointwise nat_eq a b };

    ghost laws = { partial_equiv_from_equiv nat_list_eq_equiv };

    fn eq(&self, other: &SharedBytes) -> bool {
        self.as_slice() == other.as_slice()
    }
}

impl Eq for SharedBytes {
    ghost laws = { nat_list_eq_equiv };
}

impl Hash for SharedBytes {
    ghost hash_input = { λ s. fed.slice fed.u8 s };

    ghost respects_eq = { Prim.search (hashing, rules) };

    fn hash<H: Hasher>(&self, state: &mut H) {
        self.as_slice().hash(state);
    }
}
