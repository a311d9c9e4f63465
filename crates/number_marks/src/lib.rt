//! Marks at numbers. Room for them is made first; then giving a mark takes no memory.
#![tactic(auto)]

mod laws;
mod marks;

pub use laws::{marked_alone, marks_stay, room_marks_none};
pub use marks::Marks;
