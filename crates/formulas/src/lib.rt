//! The subscriptions of a session: formulas under numbers that are never used again.
#![tactic(auto)]

mod subs;

pub use subs::{MOST_SUBS, Sub, SubFault, Subs};
