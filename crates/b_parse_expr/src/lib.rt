//! The parser of formulas.
#![tactic(auto)]

mod formulas;
mod texts;

pub use b_ast::FormulaText;
pub use b_expand::{ParseFault, ParseKind};
pub use b_read_expr::{Unread, tree_of};
pub use formulas::{parse_formula, parse_formula_in_order, parse_formula_under};
pub use texts::tree_of_text;
