//! States as bytes: each state of a machine has one spelling.
#![tactic(auto)]

mod fault;
mod packing;
mod spelling;
mod unpacking;

pub use fault::PackFault;
pub use packing::pack;
pub use spelling::{spelled_once, unpacked_alone};
pub use unpacking::unpack;
