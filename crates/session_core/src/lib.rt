//! A session as a machine of needs and answers: it touches no file, no store and no thread.
#![tactic(auto)]

mod core_of;
mod feeding;
mod held;
mod lists;
mod needs;
mod stages;
mod starting;

pub use core_of::{At, MOST_LINE, SessionCore, builds_line};
pub use held::{Held, KeptStep, KeptTrace};
pub use stages::{Answer, Arrival, Change, Need, Next, Opening, Stage};
pub use starting::{MOST_KEPT, builds};
