ghost use Rattle.std.proofs.Common.{rules};
ghost use Rattle.std.specs.Cmp.Lexicographic.{nat_list_eq_equiv, pointwise};
ghost use Rattle.std.specs.Cmp.Rules.{hashing};
ghost use Rattle.std.specs.Cmp.{partial_equiv_from_equiv};
ghost use Rattle.std.specs.Hash as fed;
ghost use Rattle.std.specs.Prelude.{◌≡◌, IfOk, nat_eq};

use crate::bytes::SharedBytes;
use sqlite_items::Items;
use std::alloc::{AllocError, Global};
use std::hash::{Hash, Hasher};
use std::marker::Model;

/// A state in packed form: a handle of its bytes, which further handles share. Contracts see the bytes.
#[derive(Debug, Drop)]
pub struct Packed {
    bytes: SharedBytes,
}

impl Model for Packed {
    ghost use Rattle.std.specs.Prelude.{List, ℕ};
    ghost use Rattle.std.specs.Coded.{coded_list, coded_ℕ};

    ghost Value = { List ℕ };

    ghost coded = { coded_list coded_ℕ };

    ghost view = { λ p. p.bytes };
}

impl Packed {
    pub fn of_bytes(alloc: Global, bytes: Items<u8>) -> Result<Packed, AllocError>
        ensures { IfOk result (λ p. p ≡ bytes) }
    {
        Ok(Packed {
            bytes: SharedBytes::new(alloc, bytes)?,
        })
    }

    pub fn bytes(&self) -> &[u8]
        ensures { result.now ≡ self.now }
    {
        self.bytes.as_slice()
    }

    /// Another handle of the same bytes. It copies nothing.
    pub fn share(&self) -> Result<Packed, AllocError>
        ensures { IfOk result (λ p. p ≡ self.now) }
    {
        Ok(Packed {
            bytes: self.bytes.share()?,
        })
    }
}

impl PartialEq for Packed {
    ghost eq = { λ a b. pointwise nat_eq a b };

    ghost laws = { partial_equiv_from_equiv nat_list_eq_equiv };

    fn eq(&self, other: &Packed) -> bool {
        self.bytes == other.bytes
    }
}

impl Eq for Packed {
    ghost laws = { nat_list_eq_equiv };
}

impl Hash for Packed {
    ghost hash_input = { λ p. fed.slice fed.u8 p };

    ghost respects_eq = { Prim.search (hashing, rules) };

    fn hash<H: Hasher>(&self, state: &mut H) {
        self.bytes.hash(state);
    }
}
