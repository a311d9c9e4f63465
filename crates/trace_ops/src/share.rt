ghost use Rattle.std.specs.Prelude.{◌≡◌, IfOk};

use shared::Shared;
use std::alloc::AllocError;

/// What can be had twice without a copy of its parts.
pub trait Share: Sized {
    ghost use Rattle.std.specs.Prelude.{◌≡◌, IfOk};

    /// The same value again.
    fn share(&self) -> Result<Self, AllocError>
        ensures { IfOk result (λ other. other ≡ self.now) };
}

impl<T: Drop> Share for Shared<T> {
    fn share(&self) -> Result<Shared<T>, AllocError> {
        self.share()
    }
}
