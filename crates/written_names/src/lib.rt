//! What substitutions write: where a name may not be written, what is written twice, and what may be read before it is written.
#![tactic(auto)]

mod checks;
mod doubles;
mod names;
mod reads;
mod targets;
mod times;

pub use checks::{
    Reason, Refusal, first_refusal, not_set, not_set_by, not_writable, written_twice,
};
pub use doubles::{Writing, writing_in};
pub use names::{Among, Names, names_of};
pub use reads::{read, read_all};
pub use targets::misplaced;
pub use times::{Timed, timing_in};
