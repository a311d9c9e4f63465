//! What names mean in a machine, and in a formula beside a machine's face.
#![tactic(auto)]

mod faces;
mod listing;
mod looking;
mod machines;

pub use faces::frame_beside;
pub use listing::Named;
pub use looking::Hiding;
pub use machines::{frame_of_sets, machine_names};
