//! The table of definitions of a machine, in the order of use and with each body as what it is.
ghost use Rattle.std.specs.Prelude.{◌≡◌, map, reverse, slice_get, IfOk};
ghost use Rattle.b_machine_defs.specs.Declaring as spec;
ghost use Rattle.b_machine_defs.specs.Tables.{MakesTable, Arranged, Declares};

use crate::kinds::{Kind, kinds_of};
use crate::uses::use_of;
use b_ast::machine::{Def, DefBody, DefTable};
use b_ast::{Bound, Expr, Formula, Pred};
use b_definitions::{Disorder, arranged};
use b_machine_grammar::trees::{BodyText, DefText};
use sqlite_items::Items;
use std::alloc::{AllocError, Global};

// The names of parameters.
fn names_of(alloc: Global, params: &[Bound]) -> Result<Items<Items<u8>>, AllocError>
    ensures { IfOk result (λ xs. xs ≡ map (λ x. x.name) params.now) }
{
    let mut names = Items::new(alloc);
    for param in params {
        let name = Items::from_slice(alloc, param.name.as_slice())?;
        names.push(name)?;
    }
    Ok(names)
}

fn unsorted_body(body: BodyText) -> DefBody
    ensures { result ≡ spec.unsorted_body body }
{
    match body {
        BodyText::Formula(formula) => DefBody::Expr(Expr { formula }),
        BodyText::Either(formula, subst) => {
            drop(subst);
            DefBody::Pred(Pred { formula })
        }
        BodyText::Subst(subst) => DefBody::Subst(subst),
    }
}

fn definition(name: Bound, params: Items<Items<u8>>, body: BodyText) -> Def
    ensures { result ≡ spec.definition name params body }
{
    let Bound { name, at } = name;
    Def {
        name,
        params,
        body: unsorted_body(body),
        at: at.at,
    }
}

fn unsorted(alloc: Global, text: DefText) -> Result<Def, AllocError>
    ensures { IfOk result (λ d. d ≡ spec.unsorted text) }
{
    let DefText { name, params, body } = text;
    match names_of(alloc, params.as_slice()) {
        Ok(params) => Ok(definition(name, params, body)),
        Err(error) => {
            drop(body);
            Err(error)
        }
    }
}

// The definitions of texts that stand in turned order.
#[tactic(auto, using(crate::proofs::FromBehind::one_more_mapped))]
fn all_unsorted(alloc: Global, texts: Vec<DefText>) -> Result<Items<Def>, AllocError>
    ensures { IfOk result (λ ds. ds ≡ spec.all_unsorted (reverse texts.items)) }
{
    let mut left = texts;
    let mut defs = Items::new(alloc);
    while let Some(text) = left.pop() {
        let def = unsorted(alloc, text)?;
        defs.push(def)?;
    }
    Ok(defs)
}

fn formula_as(alloc: Global, kind: Kind, formula: Formula) -> Result<DefBody, AllocError>
    ensures { IfOk result (λ b. b ≡ spec.formula_as kind formula) }
{
    match kind {
        Kind::Expression => Ok(DefBody::Expr(Expr { formula })),
        Kind::Predicate => Ok(DefBody::Pred(Pred { formula })),
        Kind::Substitution => Ok(DefBody::Subst(use_of(alloc, formula)?)),
    }
}

fn body_as(alloc: Global, kind: Kind, body: DefBody) -> Result<DefBody, AllocError>
    ensures { IfOk result (λ b. b ≡ spec.body_as kind body) }
{
    match body {
        DefBody::Expr(e) => formula_as(alloc, kind, e.formula),
        DefBody::Pred(p) => formula_as(alloc, kind, p.formula),
        DefBody::Subst(subst) => Ok(DefBody::Subst(subst)),
    }
}

fn def_as(alloc: Global, kind: Kind, def: Def) -> Result<Def, AllocError>
    ensures { IfOk result (λ d. d ≡ spec.def_as kind def) }
{
    let Def {
        name,
        params,
        body,
        at,
    } = def;
    let body = body_as(alloc, kind, body)?;
    Ok(Def {
        name,
        params,
        body,
        at,
    })
}

fn kind_at(kinds: &[Kind], place: usize) -> Kind
    ensures { result ≡ spec.kind_or_expression (slice_get kinds.now place) }
{
    match sqlite_items::at(kinds, place) {
        Some(kind) => *kind,
        None => Kind::Expression,
    }
}

// The definitions as what they are, in turned order.
#[tactic(auto, using(crate::proofs::FromBehind::declared_on))]
fn turned(alloc: Global, defs: Items<Def>, kinds: &[Kind]) -> Result<Vec<Def>, AllocError>
    ensures { IfOk result (λ v. reverse v.items ≡ spec.all_as kinds.now 0 defs) }
{
    let mut left = defs;
    let mut found = Vec::new(alloc);
    while let Some(def) = left.pop() {
        let kind = kind_at(kinds, left.len());
        let def = def_as(alloc, kind, def)?;
        found.push(def)?;
    }
    Ok(found)
}

fn declared(alloc: Global, table: DefTable) -> Result<DefTable, AllocError>
    ensures { IfOk result (λ t. t.defs ≡ spec.declared table.defs) }
{
    let kinds = kinds_of(alloc, table.defs.as_slice())?;
    let mut defs = turned(alloc, table.defs, kinds.as_slice())?;
    defs.reverse();
    Ok(DefTable {
        defs: Items::from_vec(defs),
    })
}

fn declared_or_memory(alloc: Global, table: DefTable) -> Result<DefTable, Disorder>
    ensures { Declares table.defs result }
{
    match declared(alloc, table) {
        Ok(table) => Ok(table),
        Err(_) => Err(Disorder::Memory),
    }
}

fn arranged_table(alloc: Global, table: DefTable) -> Result<DefTable, Disorder>
    ensures { Arranged table.defs result }
{
    match arranged(alloc, table) {
        Ok(table) => declared_or_memory(alloc, table),
        Err(disorder) => Err(disorder),
    }
}

/// The table of the definitions of texts, which stand in turned order; or a definition that uses itself, be it through others.
pub fn table_of(alloc: Global, texts: Vec<DefText>) -> Result<DefTable, Disorder>
    ensures { MakesTable (reverse texts.items) result }
{
    match all_unsorted(alloc, texts) {
        Ok(defs) => arranged_table(alloc, DefTable { defs }),
        Err(_) => Err(Disorder::Memory),
    }
}
