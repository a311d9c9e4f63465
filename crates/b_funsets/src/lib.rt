//! Sets of sets, of relations, of functions and of sequences.
#![tactic(auto)]

mod arrangements;
mod arrows;
mod levels;
mod sequences;
mod subsets;

pub use arrangements::{iseq, perm};
pub use arrows::{bijections, partial, partial_inj, partial_surj, total, total_inj, total_surj};
pub use sequences::{seq, seq1};
pub use subsets::{pow, pow1, relations};
