//! Formulas judged by summaries and expanded.
ghost use Rattle.std.specs.Prelude.{◌≡◌, ◌≤◌, IfOk, IsSome};
ghost use Rattle.b_expand.specs.Answers as answers;
ghost use Rattle.b_expand.specs.Expansion.{expansion};
ghost use Rattle.b_expand.specs.Filling.{filled};
ghost use Rattle.b_expand.specs.Places.{deepest};
ghost use Rattle.b_expand.specs.Using.{IsToldAt};
ghost use Rattle.b_summaries.specs.Sizes.{known};
ghost use Rattle.b_summaries.specs.Made.{IsMade};
ghost use Rattle.b_summaries.specs.Standing.{IsIndexed, limited, depth_or_none, verdict_of, text_by, IsNoRefusal};

use crate::summary::{Facts, Told};
use crate::tables::{facts_of, told_all};
use crate::texts::Text;
use crate::walk::walk;
use b_ast::machine::{Def, DefTable};
use b_ast::{Expr, Formula, FormulaText, Pred, Sort};
use b_expand::places::refused_at;
use b_expand::{Table, Unexpanded, Unfit, expanded};
use b_names::{TableIndex, table_index};
use sqlite_items::Items;
use std::alloc::{AllocError, Global};

/// The greatest number of brackets that may be open at one place of an expanded text.
pub const BRACKET_LIMIT: u64 = 100;

/// The greatest number of nodes of an expanded text.
pub const NODE_LIMIT: u64 = 1_000_000;

/// A table of definitions with its index and what is told of each definition.
#[derive(Drop)]
pub struct Definitions<'a> {
    pub table: &'a DefTable,
    pub index: TableIndex,
    pub known: Items<Option<Told>>,
}

// The index of the names of a table.
fn indexed(alloc: Global, table: &[Def]) -> Result<TableIndex, AllocError>
    ensures { IfOk result (IsIndexed table.now) }
{
    table_index(alloc, table)
}

/// What formulas are judged by under a table of definitions: made once for a table, in one walk through each body.
pub fn definitions_of(alloc: Global, table: &DefTable) -> Result<Definitions<'_>, AllocError>
    ensures made { IfOk result IsMade }
    ensures table { IfOk result (λ d. d.table.now ≡ table.now) }
{
    let defs = table.defs.as_slice();
    let index = indexed(alloc, defs)?;
    let known = told_all(alloc, defs, &index)?;
    Ok(Definitions {
        table,
        index,
        known,
    })
}

/// What is known of the tree that a formula stands for, if it stands for one with a sort.
pub fn measured(
    alloc: Global,
    defs: &Definitions<'_>,
    formula: &Formula,
) -> Result<Option<Facts>, AllocError>
    requires { IsMade defs.now }
    ensures { IfOk result (λ o. o ≡ known (expansion defs.now.table.now.defs formula.now)) }
{
    let text = Text {
        table: defs.table.defs.as_slice(),
        index: &defs.index,
        known: defs.known.as_slice(),
        params: &[],
        places: None,
    };
    let summary = walk(formula, alloc, &text)?;
    Ok(facts_of(&summary))
}

/// The text that a formula is once its definitions are expanded, as an expression or a predicate by its sort. A refusal
/// has a place of the formula. The expanded tree is built only where it is within the limits; a formula in which nothing is
/// expanded is that text itself.
pub fn expand(
    alloc: Global,
    defs: &Definitions<'_>,
    formula: Formula,
) -> Result<FormulaText, Unexpanded>
    requires { IsMade defs.now }
    ensures answers { answers.AnswersFormula defs.now.table.now.defs formula result }
    ensures place { IsToldAt defs.now.index.definitions formula result }
{
    match measured(alloc, defs, &formula) {
        Ok(facts) => match verdict(facts) {
            Ok(sort) => built(alloc, defs, formula, sort),
            Err(why) => {
                let at = refused_at(&formula, &defs.index.definitions);
                Err(Unexpanded::Refused(why, at))
            }
        },
        Err(_) => Err(Unexpanded::Memory),
    }
}

// The sort of the text that a tree is, or why it is none.
fn verdict(facts: Option<Facts>) -> Result<Sort, Unfit>
    ensures { result ≡ verdict_of facts }
{
    match facts {
        Some(facts) => within(facts),
        None => Err(Unfit::NotASentence),
    }
}

fn within(facts: Facts) -> Result<Sort, Unfit>
    ensures { result ≡ limited (depth_or_none facts.size.depth) facts.size.nodes facts.sort }
{
    let depth = match facts.size.depth {
        Some(depth) => depth,
        None => 0,
    };
    if depth > BRACKET_LIMIT {
        return Err(Unfit::TooDeep);
    }
    if facts.size.nodes > NODE_LIMIT {
        return Err(Unfit::TooWide);
    }
    Ok(facts.sort)
}

// The expanded tree as a text of a sort.
fn built(
    alloc: Global,
    defs: &Definitions<'_>,
    formula: Formula,
    sort: Sort,
) -> Result<FormulaText, Unexpanded>
    requires made { IsMade defs.now }
    requires there { IsSome (expansion defs.now.table.now.defs formula) }
    requires shallow { deepest (filled defs.now.table.now.defs formula) ≤ 100 }
    ensures answers { answers.Answers (text_by sort (expansion defs.now.table.now.defs formula)) result }
    ensures whole { IsNoRefusal result }
{
    let table = Table {
        defs: defs.table.defs.as_slice(),
        index: &defs.index,
    };
    match expanded(alloc, &table, formula) {
        Ok(tree) => Ok(text_of(tree, sort)),
        Err(_) => Err(Unexpanded::Memory),
    }
}

fn text_of(formula: Formula, sort: Sort) -> FormulaText
    ensures { result ≡ answers.text_of sort formula }
{
    match sort {
        Sort::Expression => FormulaText::Expr(Expr { formula }),
        Sort::Predicate => FormulaText::Pred(Pred { formula }),
        Sort::Implication => FormulaText::Pred(Pred { formula }),
    }
}
