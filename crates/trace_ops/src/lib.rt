//! The trace of a session: steps, and a position among them. Moves change the position alone; a new step takes the place
//! of what stood behind the position.
#![tactic(auto)]

mod faults;
mod share;
mod trace;

pub use faults::{AddFault, MoveFault};
pub use share::Share;
pub use trace::{MOST_STEPS, Trace};
