//! What the expanded tree of a formula would be, told from one summary of each definition.
#![tactic(auto)]

mod expanding;
pub mod gathering;
mod lists;
pub mod making;
pub mod sizes;
mod summary;
pub mod tables;
pub mod texts;
pub mod walk;

pub use expanding::{BRACKET_LIMIT, Definitions, NODE_LIMIT, definitions_of, expand, measured};
pub use summary::{Asked, Entry, Facts, Kind, Parts, Share, Size, Summary, Told};
pub use texts::Text;
