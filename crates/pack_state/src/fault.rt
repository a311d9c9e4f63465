ghost use Rattle.std.specs.Prelude.{◌≡◌};
ghost use Rattle.pack_state.specs.declared.fault.PackFault.TheVariants.{Memory};

use std::alloc::{AllocError, AllocFailed};

/// Why bytes aren't unpacked.
#[derive(Debug, Drop)]
pub enum PackFault {
    /// No state has these bytes.
    NoSuchState,
    Memory,
}

impl From<AllocError> for PackFault {
    ghost from_gives = { λ _ e. e ≡ Memory };

    fn from(_e: AllocError) -> PackFault {
        PackFault::Memory
    }
}

impl<T: Drop> From<AllocFailed<T>> for PackFault {
    ghost from_gives = { λ _ e. e ≡ Memory };

    fn from(_e: AllocFailed<T>) -> PackFault {
        PackFault::Memory
    }
}
