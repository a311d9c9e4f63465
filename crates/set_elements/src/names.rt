//! Names of a deferred set's elements.
ghost use Rattle.std.specs.Prelude.{◌≡◌, IfOk};
ghost use Rattle.set_elements.specs.Sizes.{element_of};

use itoa::Buffer;
use sqlite_items::Items;
use std::alloc::{AllocError, Global};

/// The name of an element, which are counted from 1.
pub fn element_name(alloc: Global, set: &[u8], k: u64) -> Result<Items<u8>, AllocError>
    ensures { IfOk result (λ name. name ≡ element_of set.now k) }
{
    let mut buffer = Buffer::new();
    let mut name = Vec::from_slice(alloc, set)?;
    name.extend_from_slice(buffer.format(k).as_bytes())?;
    Ok(Items::from_vec(name))
}
