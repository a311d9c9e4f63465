//! The types of each form of the language, and what they demand of a table.
#![tactic(auto)]

mod demanding;
mod forms;
mod rules;
mod schemes;

pub use demanding::{demand, open_table};
pub use forms::Form;
pub use rules::{Reading, Rule, constant_rule, function_rule, reading_of};
pub use schemes::scheme_of;
