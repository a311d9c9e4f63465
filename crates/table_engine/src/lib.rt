//! An engine for tests: its states and answers are listed by hand.
#![tactic(auto)]

mod answers;
mod face;
mod listing;
mod table;

pub use answers::packed_state;
pub use face::TableFace;
pub use listing::{
    Answered, Confirming, Finding, FormulaRow, Listed, Row, TableList, TableOp, TableState,
};
pub use table::{Refusals, Table};
