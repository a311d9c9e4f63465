//! What a formula demands of the types of its parts.
#![tactic(auto)]

mod demands;
mod scopes;
mod telling;

pub use demands::{Demand, Meaning};
pub use scopes::{
    Frame, Opened, close, find, frame_of, open_names, put_meaning, put_name, take, take_all,
    tell_twice,
};
pub use telling::{keep_one, walk, walk_name, walk_predicate};
