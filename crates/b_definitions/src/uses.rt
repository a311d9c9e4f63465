//! The definitions that bodies use.
ghost use Rattle.std.specs.Prelude.{◌≡◌, ◌++◌, map, position, bytes_eq, IfOk};
ghost use Rattle.b_names.specs.Index as place;
ghost use Rattle.b_definitions.specs.Uses as spec;
ghost use Rattle.b_definitions.specs.Tables.{IsIndexed};
ghost use Rattle.b_definitions.specs.Bodies.{IsReady};

use crate::substitutions::collect_subst;
use b_ast::machine::{Def, DefBody};
use b_ast::{After, Bound, Formula, Link};
use b_names::{Index, index_of_names};
use sqlite_items::Items;
use std::alloc::{AllocError, Global};

/// A body with the table whose definitions it may use.
#[derive(Clone, Copy)]
pub struct Body<'a> {
    pub table: &'a [Def],
    pub index: &'a Index,
    pub params: &'a [Items<u8>],
    /// The index of the parameters.
    pub places: &'a Index,
}

fn place_of(body: &Body<'_>, name: &[u8]) -> Option<usize>
    requires { IsReady body.now }
    ensures { result ≡ position (bytes_eq name.now) body.now.params.now }
{
    body.places.first(name)
}

fn definition_of(body: &Body<'_>, name: &[u8]) -> Option<usize>
    requires { IsReady body.now }
    ensures { result ≡ place.place_of body.now.table.now name.now }
{
    body.index.first(name)
}

/// The definition that a name means, where it is no parameter.
pub fn meant(body: &Body<'_>, name: &[u8]) -> Option<usize>
    requires { IsReady body.now }
    ensures { result ≡ spec.meant body.now.table.now body.now.params.now name.now }
{
    match definition_of(body, name) {
        Some(i) => {
            if place_of(body, name).is_some() {
                None
            } else {
                Some(i)
            }
        }
        None => None,
    }
}

/// Whether one of some bound names is a definition's.
pub fn binds(names: &[Bound], body: &Body<'_>) -> bool
    requires { IsReady body.now }
    ensures { result ≡ spec.binds body.now.table.now names.now }
{
    for name in names {
        if definition_of(body, name.name.as_slice()).is_some() {
            return true;
        }
    }
    false
}

/// Some places and one that may be there.
pub fn with_meant(place: Option<usize>, found: Items<usize>) -> Result<Items<usize>, AllocError>
    ensures { IfOk result (λ xs. xs ≡ found ++ spec.listed place) }
{
    let mut found = found;
    if let Some(i) = place {
        found.push(i)?;
    }
    Ok(found)
}

/// Some places and those that a tree uses.
#[cycle(collect)]
#[tactic(auto, using(crate::proofs::Joining::nothing_more, crate::proofs::Joining::joined_two))]
pub fn collect(
    tree: &Formula,
    found: Items<usize>,
    body: &Body<'_>,
) -> Result<Items<usize>, AllocError>
    requires { IsReady body.now }
    ensures { IfOk result (λ xs. xs ≡ found ++ spec.used_in body.now.table.now body.now.params.now tree.now) }
{
    match tree {
        Formula::Name(_, x) => with_meant(meant(body, x.as_slice()), found),
        Formula::Number(_, _) => Ok(found),
        Formula::Text(_, _) => Ok(found),
        Formula::Old(_, _) => Ok(found),
        Formula::Constant(_, _) => Ok(found),
        Formula::Negative(_, e) => collect(e.get(), found, body),
        Formula::Chain(e, links) => {
            let found = collect(e.get(), found, body)?;
            collect_links(links.as_slice(), found, body)
        }
        Formula::Row(e, forms) => {
            let found = collect(e.get(), found, body)?;
            collect_forms(forms.as_slice(), found, body)
        }
        Formula::Call(_, _, es) => collect_all(es.as_slice(), found, body),
        Formula::Set(_, es) => collect_all(es.as_slice(), found, body),
        Formula::Sequence(_, es) => collect_all(es.as_slice(), found, body),
        Formula::Comprehension(_, ns, p) => {
            if binds(ns.as_slice(), body) {
                Ok(found)
            } else {
                collect(p.get(), found, body)
            }
        }
        Formula::Quantified(_, _, ns, p) => {
            if binds(ns.as_slice(), body) {
                Ok(found)
            } else {
                collect(p.get(), found, body)
            }
        }
        Formula::Collected(_, _, ns, p, e) => {
            if binds(ns.as_slice(), body) {
                Ok(found)
            } else {
                let found = collect(p.get(), found, body)?;
                collect(e.get(), found, body)
            }
        }
        Formula::If(_, p, e, f) => {
            let found = collect(p.get(), found, body)?;
            let found = collect(e.get(), found, body)?;
            collect(f.get(), found, body)
        }
    }
}

#[cycle(collect)]
#[tactic(auto, using(crate::proofs::Joining::nothing_more, crate::proofs::Joining::joined_two))]
pub fn collect_all(
    trees: &[Formula],
    found: Items<usize>,
    body: &Body<'_>,
) -> Result<Items<usize>, AllocError>
    requires { IsReady body.now }
    ensures { IfOk result (λ xs. xs ≡ found ++ spec.used_in_all body.now.table.now body.now.params.now trees.now) }
{
    let mut all = found;
    for tree in trees {
        all = collect(tree, all, body)?;
    }
    Ok(all)
}

#[cycle(collect)]
#[tactic(auto, using(crate::proofs::Joining::nothing_more, crate::proofs::Joining::joined_two))]
fn collect_links(
    links: &[Link],
    found: Items<usize>,
    body: &Body<'_>,
) -> Result<Items<usize>, AllocError>
    requires { IsReady body.now }
    ensures { IfOk result (λ xs. xs ≡ found ++ spec.joined (map (spec.used_in_link body.now.table.now body.now.params.now) links.now)) }
{
    let mut all = found;
    for link in links {
        all = collect_link(link, all, body)?;
    }
    Ok(all)
}

#[cycle(collect)]
fn collect_link(
    link: &Link,
    found: Items<usize>,
    body: &Body<'_>,
) -> Result<Items<usize>, AllocError>
    requires { IsReady body.now }
    ensures { IfOk result (λ xs. xs ≡ found ++ spec.used_in_link body.now.table.now body.now.params.now link.now) }
{
    collect(&link.operand, found, body)
}

#[cycle(collect)]
#[tactic(auto, using(crate::proofs::Joining::nothing_more, crate::proofs::Joining::joined_two))]
fn collect_forms(
    forms: &[After],
    found: Items<usize>,
    body: &Body<'_>,
) -> Result<Items<usize>, AllocError>
    requires { IsReady body.now }
    ensures { IfOk result (λ xs. xs ≡ found ++ spec.joined (map (spec.used_in_form body.now.table.now body.now.params.now) forms.now)) }
{
    let mut all = found;
    for form in forms {
        all = collect_form(form, all, body)?;
    }
    Ok(all)
}

#[cycle(collect)]
#[tactic(auto, using(crate::proofs::Joining::nothing_more))]
fn collect_form(
    form: &After,
    found: Items<usize>,
    body: &Body<'_>,
) -> Result<Items<usize>, AllocError>
    requires { IsReady body.now }
    ensures { IfOk result (λ xs. xs ≡ found ++ spec.used_in_form body.now.table.now body.now.params.now form.now) }
{
    match form {
        After::Converse(_) => Ok(found),
        After::Apply(_, e) => collect(e, found, body),
        After::Image(_, e) => collect(e, found, body),
    }
}

// The definitions that a definition uses.
fn used_by(
    def: &Def,
    alloc: Global,
    table: &[Def],
    index: &Index,
) -> Result<Items<usize>, AllocError>
    requires { IsIndexed table.now index.now }
    ensures { IfOk result (λ xs. xs ≡ spec.used_by table.now def.now) }
{
    let places = index_of_names(alloc, def.params.as_slice())?;
    let body = Body {
        table,
        index,
        params: def.params.as_slice(),
        places: &places,
    };
    match &def.body {
        DefBody::Expr(e) => collect(&e.formula, Items::new(alloc), &body),
        DefBody::Pred(p) => collect(&p.formula, Items::new(alloc), &body),
        DefBody::Subst(u) => collect_subst(u, Items::new(alloc), &body),
    }
}

/// For each definition of a table those that it uses.
pub fn all_uses(
    alloc: Global,
    table: &[Def],
    index: &Index,
) -> Result<Items<Items<usize>>, AllocError>
    requires { IsIndexed table.now index.now }
    ensures { IfOk result (λ rows. rows ≡ spec.all_uses table.now) }
{
    let mut rows = Items::new(alloc);
    for def in table {
        rows.push(used_by(def, alloc, table, index)?)?;
    }
    Ok(rows)
}
