//! Formulas read from their lexemes.
#![tactic(auto)]

ghost use Rattle.std.specs.Prelude.{◌≡◌};
ghost use Rattle.b_read_expr.specs.declared.Unread.TheVariants.{Memory};

use std::alloc::AllocError;

/// Why no tree was read.
#[derive(Clone, Copy, Debug, PartialEq, Eq)]
pub enum Unread {
    /// The grammar has none. So many lexemes are left where reading stopped.
    NoTree(usize),
    Memory,
}

impl From<AllocError> for Unread {
    ghost from_gives = { λ _ e. e ≡ Memory };

    fn from(_error: AllocError) -> Unread {
        Unread::Memory
    }
}

mod grouping;
mod names;
mod nodes;
mod reading;
mod steps;
mod trees;

pub use trees::tree_of;
