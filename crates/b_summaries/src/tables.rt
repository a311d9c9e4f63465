//! What is told of the definitions of a table.
ghost use Rattle.std.specs.Prelude.{◌≡◌, [], length, take, IfOk, option_and_then};
ghost use Rattle.std.specs.Option.{option_copied};
ghost use Rattle.b_summaries.specs.Summaries as spec;
ghost use Rattle.b_summaries.specs.Sizes as sizes;
ghost use Rattle.b_summaries.specs.Standing.{IsIndexed, IsReady, ArePlaces, AreTold, means_in};
ghost use Rattle.b_expand.specs.Expansion.{both};
ghost use Rattle.b_summaries.specs.Values.{facts_from, kind_value, parts_value, summary_value};

use crate::gathering::told_of;
use crate::sizes::{asking, plus, raised};
use crate::summary::{Facts, Kind, Parts, Size, Summary, Told};
use crate::texts::Text;
use crate::walk::walk;
use b_ast::Sort;
use b_ast::machine::{Def, DefBody};
use b_names::{Index, TableIndex};
use sqlite_items::Items;
use std::alloc::{AllocError, Global};

// What is told of a body.
fn told_body(body: &DefBody, alloc: Global, text: &Text<'_>) -> Result<Option<Told>, AllocError>
    requires { IsReady text.now }
    ensures { IfOk result (λ o. o ≡ spec.told_body text.now.table.now text.now.params.now (means_in text.now) body.now) }
{
    match body {
        DefBody::Expr(e) => {
            let summary = walk(&e.formula, alloc, text)?;
            told_of(text.params, asking(Sort::Expression), summary, alloc)
        }
        DefBody::Pred(p) => {
            let summary = walk(&p.formula, alloc, text)?;
            told_of(text.params, asking(Sort::Predicate), summary, alloc)
        }
        DefBody::Subst(_) => Ok(None),
    }
}

// What is told of one more definition.
fn told_next(
    def: &Def,
    alloc: Global,
    table: &[Def],
    index: &TableIndex,
    known: &[Option<Told>],
    places: Option<&Index>,
) -> Result<Option<Told>, AllocError>
    requires indexed { IsIndexed table.now index.now }
    requires told { AreTold table.now known.now }
    requires places { ArePlaces def.now.params (option_copied places) }
    ensures { IfOk result (λ o. o ≡ spec.told_body table.now def.now.params (spec.meanings table.now (take (length known.now) table.now)) def.now.body) }
{
    let text = Text {
        table,
        index,
        known,
        params: def.params.as_slice(),
        places,
    };
    told_body(&def.body, alloc, &text)
}

/// What is told of each definition of a table, one after the other.
#[tactic(auto, using(crate::proofs::Naming::told_more))]
pub fn told_all(
    alloc: Global,
    table: &[Def],
    index: &TableIndex,
) -> Result<Items<Option<Told>>, AllocError>
    requires { IsIndexed table.now index.now }
    ensures told { IfOk result (λ known. AreTold table.now known) }
    ensures all { IfOk result (λ known. length known ≡ length table.now) }
{
    let mut known = Items::new(alloc);
    for def in table {
        let places = sqlite_items::at(index.parameters.as_slice(), known.len());
        let told = told_next(def, alloc, table, index, known.as_slice(), places)?;
        known.push(told)?;
    }
    Ok(known)
}

/// What parts are together that no argument adds to.
pub fn parts_alone(parts: &Parts) -> Option<Size>
    ensures { result ≡ parts_value parts.now 0 [] }
{
    match parts.entries.as_slice() {
        [] => Some(size_alone(parts.size)),
        [_, ..] => None,
    }
}

#[tactic(auto, using(crate::proofs::PartLists::none_there))]
fn facts_alone(kind: Kind, parts: &Parts) -> Option<Facts>
    ensures { result ≡ both facts_from (kind_value kind []) (parts_value parts.now 0 []) }
{
    match kind {
        Kind::Own(sort) => match parts_alone(parts) {
            Some(size) => Some(Facts { sort, size }),
            None => None,
        },
        Kind::Argument(_) => None,
    }
}

/// What is known of the tree that a text without parameters stands for.
pub fn facts_of(summary: &Option<Summary>) -> Option<Facts>
    ensures { result ≡ option_and_then (λ u. summary_value u 0 []) summary.now }
{
    match summary {
        Some(summary) => facts_alone(summary.kind, &summary.parts),
        None => None,
    }
}

fn size_alone(size: Size) -> Size
    ensures { result ≡ sizes.plus (sizes.under 0 size) sizes.nothing }
{
    let under = Size {
        nodes: size.nodes,
        depth: raised(Some(0), size.depth),
    };
    plus(
        under,
        Size {
            nodes: 0,
            depth: None,
        },
    )
}
