//! What is told of the definitions of a table as substitutions, and of substitutions under it.
ghost use Rattle.std.specs.Prelude.{◌≡◌, [], Some, length, take, slice_get, IfOk, option_map, option_and_then};
ghost use Rattle.b_summaries.specs.Made as made;
ghost use Rattle.b_summaries.specs.Standing as standing;
ghost use Rattle.b_summaries.specs.Standing.{means_in};
ghost use Rattle.b_summaries.specs.Values.{parts_value};
ghost use Rattle.b_substitutions.specs.Summaries as spec;
ghost use Rattle.b_substitutions.specs.Expansion.{subst_expansion};
ghost use Rattle.b_substitutions.specs.Sizes.{size_of_subst};
ghost use Rattle.b_substitutions.specs.Standing.{IsReady, AreTold, uses_in};
ghost use Rattle.b_substitutions.specs.Made.{IsMade};

use crate::parts::start;
use crate::texts::SubstText;
use crate::walk::add;
use b_ast::Sort;
use b_ast::machine::{Def, DefBody, DefTable, Subst};
use b_names::TableIndex;
use b_summaries::gathering::told_of;
use b_summaries::making::formed;
use b_summaries::sizes::nothing_asked;
use b_summaries::tables::parts_alone;
use b_summaries::texts::Text;
use b_summaries::{Definitions, Parts, Size, Told, definitions_of};
use sqlite_items::Items;
use std::alloc::{AllocError, Global};

/// A table of definitions with what is told of each, as a formula and as a substitution.
#[derive(Drop)]
pub struct Substitutions<'a> {
    pub formulas: Definitions<'a>,
    pub uses: Items<Option<Told>>,
}

// What is told of a body.
fn told_body(
    body: &DefBody,
    alloc: Global,
    text: &SubstText<'_>,
) -> Result<Option<Told>, AllocError>
    requires { IsReady text.now }
    ensures { IfOk result (λ o. o ≡ spec.told_body text.now.formulas.table.now (record { formulas = means_in text.now.formulas; uses = uses_in text.now }) text.now.formulas.params.now body.now) }
{
    match body {
        DefBody::Subst(subst) => {
            let parts = add(subst, start(alloc), alloc, text)?;
            let body = formed(Sort::Expression, parts);
            told_of(text.formulas.params, nothing_asked(), body, alloc)
        }
        DefBody::Expr(_) => Ok(None),
        DefBody::Pred(_) => Ok(None),
    }
}

// What is told of the definition behind those that are told as substitutions.
fn told_next(
    def: &Def,
    alloc: Global,
    table: &[Def],
    index: &TableIndex,
    known: &[Option<Told>],
    uses: &[Option<Told>],
) -> Result<Option<Told>, AllocError>
    requires indexed { standing.IsIndexed table.now index.now }
    requires formulas { standing.AreTold table.now known.now }
    requires all { length known.now ≡ length table.now }
    requires told { AreTold table.now uses.now }
    requires there { slice_get table.now (length uses.now) ≡ Some def.now }
    ensures { IfOk result (λ o. o ≡ spec.told_body table.now (spec.known table.now (take (length uses.now) table.now)) def.now.params def.now.body) }
{
    let count = uses.len();
    let (front, _rest) = known.split_at(count);
    let parameters = index.parameters.as_slice();
    let places = sqlite_items::at(parameters, count);
    let params = def.params.as_slice();
    let text = SubstText {
        formulas: Text {
            table,
            index,
            known: front,
            params,
            places,
        },
        uses,
    };
    told_body(&def.body, alloc, &text)
}

// What is told of each definition of a table, one after the other.
fn told_all(
    alloc: Global,
    table: &[Def],
    index: &TableIndex,
    known: &[Option<Told>],
) -> Result<Items<Option<Told>>, AllocError>
    requires indexed { standing.IsIndexed table.now index.now }
    requires formulas { standing.AreTold table.now known.now }
    requires many { length known.now ≡ length table.now }
    ensures told { IfOk result (λ uses. AreTold table.now uses) }
    ensures all { IfOk result (λ uses. length uses ≡ length table.now) }
{
    let mut uses = Items::new(alloc);
    for def in table {
        let so_far = uses.as_slice();
        let told = told_next(def, alloc, table, index, known, so_far)?;
        uses.push(told)?;
    }
    Ok(uses)
}

/// What substitutions are judged by under a table of definitions: made once for a table, in one walk through each body.
pub fn substitutions_of(alloc: Global, table: &DefTable) -> Result<Substitutions<'_>, AllocError>
    ensures made { IfOk result IsMade }
    ensures table { IfOk result (λ d. d.formulas.table.now ≡ table.now) }
{
    let formulas = definitions_of(alloc, table)?;
    let defs = formulas.table.defs.as_slice();
    let known = formulas.known.as_slice();
    let uses = told_all(alloc, defs, &formulas.index, known)?;
    Ok(Substitutions { formulas, uses })
}

// What parts are together that no argument adds to.
fn size_of_parts(parts: &Option<Parts>) -> Option<Size>
    ensures { result ≡ option_and_then (λ p. parts_value p 0 []) parts.now }
{
    match parts {
        Some(parts) => parts_alone(parts),
        None => None,
    }
}

/// How wide and how deep the substitution is that a substitution stands for, if it stands for one.
pub fn measured_subst(
    alloc: Global,
    defs: &Substitutions<'_>,
    subst: &Subst,
) -> Result<Option<Size>, AllocError>
    requires { IsMade defs.now }
    ensures { IfOk result (λ o. o ≡ option_map size_of_subst (subst_expansion defs.now.formulas.table.now.defs subst.now)) }
{
    let table = defs.formulas.table.defs.as_slice();
    let known = defs.formulas.known.as_slice();
    let uses = defs.uses.as_slice();
    let text = SubstText {
        formulas: Text {
            table,
            index: &defs.formulas.index,
            known,
            params: &[],
            places: None,
        },
        uses,
    };
    let parts = add(subst, start(alloc), alloc, &text)?;
    Ok(size_of_parts(&parts))
}
