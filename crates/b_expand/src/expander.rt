//! The trees that texts become when their definitions are put in. Each part is copied once, where it ends up: an argument
//! is filled in where its parameter stands, in the text where it stands itself.
ghost use Rattle.std.specs.Prelude.{◌≡◌, ℕ, ◌∷◌, ◌+◌, ◌<◌, ◌≤◌, length, map, Some, None, IfOk, IsSome, option_map};
ghost use Rattle.b_expand.specs.Expansion as spec;
ghost use Rattle.b_expand.specs.Filling as filling;
ghost use Rattle.b_expand.specs.Places as places;
ghost use Rattle.b_expand.specs.Standing.{IsReady, frames_of, frames_from, insert_at, means_in, scope_of, called_in, place_in, raise, raise_link, raise_form, tree_in, trees_in, links_in, forms_in, row_in, round_in, used_in, body_in, side_in, form_in};

use crate::copies::{brackets, copied, deeper_place, moved_bounds, raised, raised_place};
use crate::names::{application, argument_of, called, meaning_of};
use crate::parts;
use crate::standing::{Arguments, Caller, Callers, Frame, Standing};
use b_ast::machine::DefBody;
use b_ast::{After, Bound, Formula, Link, Place};
use sqlite_items::{Boxed, Items};
use std::alloc::{AllocError, Global};

// A place of a text under all brackets.
fn placed(text: &Standing<'_>, at: Place) -> Place
    ensures { result ≡ place_in text.now at }
{
    raised_place(text.extra, deeper_place(text.here.round, at))
}

// The names that a text binds, under all brackets.
fn bounds(text: &Standing<'_>, alloc: Global, names: &[Bound]) -> Result<Items<Bound>, AllocError>
    ensures { IfOk result (λ xs. xs ≡ map (places.moved_bound (places.raised_place text.now.extra)) (filling.bound (scope_of text.now) names.now)) }
{
    moved_bounds(alloc, names, text.here.round, text.extra)
}

// How many brackets are open round the body of a definition that is used under so many.
fn round_of_use(text: &Standing<'_>, depth: u64) -> u64
    ensures { result ≡ round_in text.now depth }
{
    brackets(brackets(text.here.round, depth), 1)
}

/// A text, as one that a use stands in.
pub fn caller_of<'a>(text: &Standing<'a>) -> Caller<'a>
    ensures { frames_from result ≡ text.now.here ∷ frames_of text.now.callers }
{
    Caller {
        text: text.here,
        callers: text.callers,
    }
}

/// The tree that a tree of a text becomes.
#[cycle(fill)]
pub fn fill(tree: &Formula, alloc: Global, text: &Standing<'_>) -> Result<Formula, AllocError>
    requires { IsReady text.now.table }
    ensures { IfOk result (λ e. e ≡ raise text.now (tree_in text.now tree.now)) }
{
    match tree {
        Formula::Number(at, n) => Ok(Formula::Number(placed(text, *at), *n)),
        Formula::Text(at, x) => Ok(Formula::Text(placed(text, *at), copied(alloc, x.as_slice())?)),
        Formula::Name(at, x) => fill_name(*at, x.as_slice(), alloc, text),
        Formula::Old(at, x) => Ok(Formula::Old(placed(text, *at), copied(alloc, x.as_slice())?)),
        Formula::Constant(at, c) => Ok(Formula::Constant(placed(text, *at), *c)),
        Formula::Negative(at, e) => Ok(Formula::Negative(
            placed(text, *at),
            fill_part(e.get(), alloc, text)?,
        )),
        Formula::Chain(e, links) => Ok(Formula::Chain(
            fill_part(e.get(), alloc, text)?,
            fill_links(links.as_slice(), alloc, text)?,
        )),
        Formula::Row(e, forms) => fill_row(e.get(), forms.as_slice(), alloc, text),
        Formula::Call(at, f, es) => Ok(Formula::Call(
            placed(text, *at),
            *f,
            fill_all(es.as_slice(), alloc, text)?,
        )),
        Formula::Set(at, es) => Ok(Formula::Set(
            placed(text, *at),
            fill_all(es.as_slice(), alloc, text)?,
        )),
        Formula::Sequence(at, es) => Ok(Formula::Sequence(
            placed(text, *at),
            fill_all(es.as_slice(), alloc, text)?,
        )),
        Formula::Comprehension(at, xs, p) => Ok(Formula::Comprehension(
            placed(text, *at),
            bounds(text, alloc, xs.as_slice())?,
            fill_part(p.get(), alloc, text)?,
        )),
        Formula::Quantified(at, q, xs, p) => Ok(Formula::Quantified(
            placed(text, *at),
            *q,
            bounds(text, alloc, xs.as_slice())?,
            fill_part(p.get(), alloc, text)?,
        )),
        Formula::Collected(at, c, xs, p, e) => Ok(Formula::Collected(
            placed(text, *at),
            *c,
            bounds(text, alloc, xs.as_slice())?,
            fill_part(p.get(), alloc, text)?,
            fill_part(e.get(), alloc, text)?,
        )),
        Formula::If(at, p, e, f) => Ok(Formula::If(
            placed(text, *at),
            fill_part(p.get(), alloc, text)?,
            fill_part(e.get(), alloc, text)?,
            fill_part(f.get(), alloc, text)?,
        )),
    }
}

#[cycle(fill)]
fn fill_part(
    tree: &Formula,
    alloc: Global,
    text: &Standing<'_>,
) -> Result<Boxed<Formula>, AllocError>
    requires { IsReady text.now.table }
    ensures { IfOk result (λ e. e ≡ raise text.now (tree_in text.now tree.now)) }
{
    Boxed::new(alloc, fill(tree, alloc, text)?)
}

#[cycle(fill)]
fn fill_all(
    trees: &[Formula],
    alloc: Global,
    text: &Standing<'_>,
) -> Result<Items<Formula>, AllocError>
    requires { IsReady text.now.table }
    ensures { IfOk result (λ es. es ≡ trees_in text.now trees.now) }
{
    let mut filled = Items::new(alloc);
    for tree in trees {
        let part = fill(tree, alloc, text)?;
        filled.push(part)?;
    }
    Ok(filled)
}

#[cycle(fill)]
fn fill_links(links: &[Link], alloc: Global, text: &Standing<'_>) -> Result<Items<Link>, AllocError>
    requires { IsReady text.now.table }
    ensures { IfOk result (λ ls. ls ≡ links_in text.now links.now) }
{
    let mut filled = Items::new(alloc);
    for link in links {
        let part = fill_link(link, alloc, text)?;
        filled.push(part)?;
    }
    Ok(filled)
}

#[cycle(fill)]
fn fill_link(link: &Link, alloc: Global, text: &Standing<'_>) -> Result<Link, AllocError>
    requires { IsReady text.now.table }
    ensures { IfOk result (λ l. l ≡ raise_link text.now ((side_in text.now link.now).link (scope_of text.now))) }
{
    Ok(Link {
        operator: parts::expanded_operator(link.operator),
        at: placed(text, link.at),
        operand: fill(&link.operand, alloc, text)?,
    })
}

#[cycle(fill)]
fn fill_forms(
    forms: &[After],
    alloc: Global,
    text: &Standing<'_>,
) -> Result<Items<After>, AllocError>
    requires { IsReady text.now.table }
    ensures { IfOk result (λ fs. fs ≡ forms_in text.now forms.now) }
{
    let mut filled = Items::new(alloc);
    for form in forms {
        let part = fill_form(form, alloc, text)?;
        filled.push(part)?;
    }
    Ok(filled)
}

#[cycle(fill)]
fn fill_form(form: &After, alloc: Global, text: &Standing<'_>) -> Result<After, AllocError>
    requires { IsReady text.now.table }
    ensures { IfOk result (λ f. f ≡ raise_form text.now ((form_in text.now form.now).form (scope_of text.now))) }
{
    match form {
        After::Converse(at) => Ok(After::Converse(placed(text, *at))),
        After::Apply(at, e) => Ok(After::Apply(placed(text, *at), fill(e, alloc, text)?)),
        After::Image(at, e) => Ok(After::Image(placed(text, *at), fill(e, alloc, text)?)),
    }
}

#[cycle(fill)]
fn fill_name(
    at: Place,
    name: &[u8],
    alloc: Global,
    text: &Standing<'_>,
) -> Result<Formula, AllocError>
    requires { IsReady text.now.table }
    ensures { IfOk result (λ e. e ≡ raise text.now (filling.named (means_in text.now name.now) (spec.tree_of (scope_of text.now) name.now) (scope_of text.now) at name.now)) }
{
    match argument_of(text, name, raised(text.extra, brackets(1, at.depth))) {
        Some((tree, standing)) => fill(tree, alloc, &standing),
        None => match meaning_of(text, name) {
            Some(i) => fill_use(i, at.depth, parts::no_arguments(), alloc, text),
            None => Ok(Formula::Name(placed(text, at), copied(alloc, name)?)),
        },
    }
}

#[cycle(fill)]
fn fill_row(
    head: &Formula,
    forms: &[After],
    alloc: Global,
    text: &Standing<'_>,
) -> Result<Formula, AllocError>
    requires { IsReady text.now.table }
    ensures { IfOk result (λ e. e ≡ raise text.now (row_in text.now (called_in text.now head.now) head.now forms.now)) }
{
    match called(head, text) {
        Some((depth, i)) => fill_called(head, forms, depth, i, alloc, text),
        None => fill_plain_row(head, forms, alloc, text),
    }
}

// A row whose head names a definition with parameters.
#[cycle(fill)]
fn fill_called(
    head: &Formula,
    forms: &[After],
    depth: u64,
    i: usize,
    alloc: Global,
    text: &Standing<'_>,
) -> Result<Formula, AllocError>
    requires ready { IsReady text.now.table }
    requires known { IsSome (insert_at text.now i) }
    ensures { IfOk result (λ e. e ≡ raise text.now (row_in text.now (option_map (λ m. (depth, m)) (insert_at text.now i)) head.now forms.now)) }
{
    match application(forms, text) {
        Some((arguments, rest)) => {
            let used = fill_use(i, depth, arguments, alloc, text)?;
            let rest = fill_forms(rest, alloc, text)?;
            parts::row_of(alloc, used, rest)
        }
        None => fill_plain_row(head, forms, alloc, text),
    }
}

#[cycle(fill)]
fn fill_plain_row(
    head: &Formula,
    forms: &[After],
    alloc: Global,
    text: &Standing<'_>,
) -> Result<Formula, AllocError>
    requires { IsReady text.now.table }
    ensures { IfOk result (λ e. e ≡ raise text.now (row_in text.now None head.now forms.now)) }
{
    Ok(Formula::Row(
        fill_part(head, alloc, text)?,
        fill_forms(forms, alloc, text)?,
    ))
}

// A use of the definition at a place.
#[cycle(fill)]
fn fill_use(
    i: usize,
    depth: u64,
    arguments: Arguments<'_>,
    alloc: Global,
    text: &Standing<'_>,
) -> Result<Formula, AllocError>
    requires ready { IsReady text.now.table }
    requires known { IsSome (insert_at text.now i) }
    ensures { IfOk result (λ e. e ≡ raise text.now (used_in text.now i depth arguments.entry)) }
{
    match sqlite_items::at(text.table.defs, i) {
        Some(def) => {
            let caller = caller_of(text);
            let inner = Standing {
                table: text.table,
                here: Frame {
                    place: i,
                    round: round_of_use(text, depth),
                    arguments,
                },
                callers: Callers::Within(&caller),
                extra: text.extra,
            };
            fill_body(&def.body, alloc, &inner)
        }
        None => Ok(parts::nothing()),
    }
}

#[cycle(fill)]
fn fill_body(body: &DefBody, alloc: Global, text: &Standing<'_>) -> Result<Formula, AllocError>
    requires { IsReady text.now.table }
    ensures { IfOk result (λ e. e ≡ raise text.now (body_in text.now body.now)) }
{
    match body {
        DefBody::Expr(e) => fill(&e.formula, alloc, text),
        DefBody::Pred(p) => fill(&p.formula, alloc, text),
        DefBody::Subst(_) => Ok(parts::nothing_raised(text.extra)),
    }
}
