//! Formulas with their definitions put in.
#![tactic(auto)]

ghost use Rattle.std.specs.Prelude.{◌≡◌, ◌≤◌, IfOk, IfSome};
ghost use Rattle.b_expand.specs.Expansion.{expansion};
ghost use Rattle.b_expand.specs.Filling.{filled};
ghost use Rattle.b_expand.specs.Places.{deepest};
ghost use Rattle.b_expand.specs.Standing.{IsIndexed};

mod copies;
pub mod expander;
mod faults;
pub mod names;
pub mod parts;
pub mod places;
mod settled;
pub mod standing;

use b_ast::Formula;
pub use copies::{brackets, deeper_place};
use expander::fill;
pub use faults::{ParseFault, ParseKind, Unexpanded, Unfit};
use parts::no_arguments;
pub use parts::{expanded_operator, is_comma};
use settled::is_settled;
pub use standing::{Arguments, Caller, Callers, Frame, Standing, Table};
use std::alloc::{AllocError, Global};

/// The tree that a formula becomes when the definitions of a table are put in, without a look at whether they may be. Each
/// part is copied once, where it ends up; a formula in which nothing is expanded is given back as it is. The recursion goes
/// no deeper than the brackets of the tree: a use and a parameter each open one.
pub fn expanded(alloc: Global, table: &Table<'_>, formula: Formula) -> Result<Formula, AllocError>
    requires index { IsIndexed table.now.defs.now table.now.index.now }
    requires shallow { deepest (filled table.now.defs.now formula) ≤ 100 }
    ensures value { IfOk result (λ e. e ≡ filled table.now.defs.now formula) }
    ensures expands { IfOk result (λ e. IfSome (expansion table.now.defs.now formula) (λ wanted. e ≡ wanted)) }
{
    put_in(alloc, table, formula)
}

fn put_in(alloc: Global, table: &Table<'_>, formula: Formula) -> Result<Formula, AllocError>
    requires { IsIndexed table.now.defs.now table.now.index.now }
    ensures { IfOk result (λ e. e ≡ filled table.now.defs.now formula) }
{
    if is_settled(&formula, &table.index.definitions) {
        Ok(formula)
    } else {
        filled_in(alloc, table, &formula)
    }
}

fn filled_in(alloc: Global, table: &Table<'_>, formula: &Formula) -> Result<Formula, AllocError>
    requires { IsIndexed table.now.defs.now table.now.index.now }
    ensures { IfOk result (λ e. e ≡ filled table.now.defs.now formula.now) }
{
    let text = Standing {
        table: *table,
        here: Frame {
            place: table.defs.len(),
            round: 0,
            arguments: no_arguments(),
        },
        callers: Callers::Outside,
        extra: None,
    };
    fill(formula, alloc, &text)
}
