//! The summary of a text, in one walk through it.
ghost use Rattle.std.specs.Prelude.{◌≡◌, [], ◌∷◌, ◌++◌, ◌<◌, if◌then◌else◌, length, map, Some, None, IfOk, IsSome, option_map, option_and_then};
ghost use Rattle.b_ast.specs.declared.Sort.TheVariants as sorts;
ghost use Rattle.b_expand.specs.Expansion.{both};
ghost use Rattle.b_expand.specs.Places as places;
ghost use Rattle.b_summaries.specs.Making.{place_size};
ghost use Rattle.b_summaries.specs.Summaries as spec;
ghost use Rattle.b_summaries.specs.Standing.{IsReady, meaning_at, means_in, reading_in, form_in, side_in, summary_in, row_in, arguments_in, operands_in, used_at};

use crate::lists::{before, pushed};
use crate::making::{around, formed, leaf, parameter, start, start_row, with_part, with_place};
use crate::summary::{Parts, Summary};
use crate::texts::{
    Text, application, called, may_bind_all, meaning_of, names_depth, place_of, several, use_of,
};
use b_ast::sorts::{argument_sort, body_sort, call_sort, chain_sort, operand_sort};
use b_ast::{After, Bound, Formula, Link, Place, Sort};
use b_expand::expanded_operator;
use sqlite_items::Items;
use std::alloc::{AllocError, Global};

/// The summary of a tree of a text; None where no tree that it stands for can be in order.
#[cycle(walk)]
pub fn walk(tree: &Formula, alloc: Global, text: &Text<'_>) -> Result<Option<Summary>, AllocError>
    requires { IsReady text.now }
    ensures { IfOk result (λ o. o ≡ summary_in text.now tree.now) }
{
    match tree {
        Formula::Number(at, _) => Ok(Some(leaf(alloc, at.depth))),
        Formula::Text(at, _) => Ok(Some(leaf(alloc, at.depth))),
        Formula::Name(at, x) => walk_name(*at, x.as_slice(), alloc, text),
        Formula::Old(at, _) => Ok(Some(leaf(alloc, at.depth))),
        Formula::Constant(at, _) => Ok(Some(leaf(alloc, at.depth))),
        Formula::Negative(at, e) => walk_around(
            e.get(),
            at.depth,
            Sort::Expression,
            Sort::Expression,
            alloc,
            text,
        ),
        Formula::Chain(e, links) => walk_joined(e.get(), links.as_slice(), alloc, text),
        Formula::Row(e, forms) => walk_row(e.get(), forms.as_slice(), alloc, text),
        Formula::Call(at, f, es) => walk_listed(
            es.as_slice(),
            at.depth,
            call_sort(*f),
            argument_sort(*f),
            alloc,
            text,
        ),
        Formula::Set(at, es) => walk_listed(
            es.as_slice(),
            at.depth,
            Sort::Expression,
            Sort::Expression,
            alloc,
            text,
        ),
        Formula::Sequence(at, es) => walk_listed(
            es.as_slice(),
            at.depth,
            Sort::Expression,
            Sort::Expression,
            alloc,
            text,
        ),
        Formula::Comprehension(at, xs, p) => walk_bound(
            p.get(),
            *at,
            xs.as_slice(),
            Sort::Expression,
            Sort::Predicate,
            alloc,
            text,
        ),
        Formula::Quantified(at, q, xs, p) => walk_bound(
            p.get(),
            *at,
            xs.as_slice(),
            Sort::Predicate,
            body_sort(*q),
            alloc,
            text,
        ),
        Formula::Collected(at, _, xs, p, e) => walk_collected(
            p.get(),
            e.get(),
            *at,
            xs.as_slice(),
            alloc,
            text,
        ),
        Formula::If(at, p, e, f) => walk_if(p.get(), e.get(), f.get(), at.depth, alloc, text),
    }
}

// A tree of a sort round one of a wanted sort. Here and below: a function of its own, so that what it keeps takes room on
// the stack only where it stands round a tree.
#[inline(never)]
#[cycle(walk)]
fn walk_around(
    tree: &Formula,
    depth: u64,
    sort: Sort,
    wanted: Sort,
    alloc: Global,
    text: &Text<'_>,
) -> Result<Option<Summary>, AllocError>
    requires { IsReady text.now }
    ensures { IfOk result (λ o. o ≡ spec.formed sort (spec.with_part wanted (summary_in text.now tree.now) (spec.start (place_size 1 depth)))) }
{
    let tree = walk(tree, alloc, text)?;
    around(alloc, depth, sort, wanted, tree)
}

// A chain.
#[inline(never)]
#[cycle(walk)]
fn walk_joined(
    first: &Formula,
    links: &[Link],
    alloc: Global,
    text: &Text<'_>,
) -> Result<Option<Summary>, AllocError>
    requires { IsReady text.now }
    ensures { IfOk result (λ o. o ≡ spec.chain (summary_in text.now first.now) (map (side_in text.now) links.now)) }
{
    let first = walk(first, alloc, text)?;
    walk_chain(links, first, alloc, text)
}

// A tree of a sort with parts of a wanted sort.
#[inline(never)]
#[cycle(walk)]
fn walk_listed(
    trees: &[Formula],
    depth: u64,
    sort: Sort,
    wanted: Sort,
    alloc: Global,
    text: &Text<'_>,
) -> Result<Option<Summary>, AllocError>
    requires { IsReady text.now }
    ensures { IfOk result (λ o. o ≡ spec.formed sort (spec.with_all wanted (spec.trees (map (reading_in text.now) trees.now)) (spec.start (place_size 1 depth)))) }
{
    let parts = walk_all(trees, wanted, start(alloc, depth), alloc, text)?;
    Ok(formed(sort, parts))
}

// A tree of a sort that binds names over one of a wanted sort.
#[inline(never)]
#[cycle(walk)]
fn walk_bound(
    tree: &Formula,
    at: Place,
    names: &[Bound],
    sort: Sort,
    wanted: Sort,
    alloc: Global,
    text: &Text<'_>,
) -> Result<Option<Summary>, AllocError>
    requires { IsReady text.now }
    ensures { IfOk result (λ o. o ≡ (if spec.may_bind_all text.now.table.now text.now.params.now names.now then spec.formed sort (spec.with_part wanted (summary_in text.now tree.now) (spec.start (place_size 1 (places.names_depth at names.now)))) else None)) }
{
    if may_bind_all(text, names) {
        walk_around(tree, names_depth(at, names), sort, wanted, alloc, text)
    } else {
        Ok(None)
    }
}

// An expression that binds names over a predicate and an expression.
#[inline(never)]
#[cycle(walk)]
fn walk_collected(
    test: &Formula,
    tree: &Formula,
    at: Place,
    names: &[Bound],
    alloc: Global,
    text: &Text<'_>,
) -> Result<Option<Summary>, AllocError>
    requires { IsReady text.now }
    ensures { IfOk result (λ o. o ≡ (if spec.may_bind_all text.now.table.now text.now.params.now names.now then spec.formed sorts.Expression (spec.with_part sorts.Expression (summary_in text.now tree.now) (spec.with_part sorts.Predicate (summary_in text.now test.now) (spec.start (place_size 1 (places.names_depth at names.now))))) else None)) }
{
    if !may_bind_all(text, names) {
        return Ok(None);
    }
    let test = walk(test, alloc, text)?;
    let parts = with_part(Sort::Predicate, test, start(alloc, names_depth(at, names)))?;
    let tree = walk(tree, alloc, text)?;
    let parts = with_part(Sort::Expression, tree, parts)?;
    Ok(formed(Sort::Expression, parts))
}

#[inline(never)]
#[cycle(walk)]
fn walk_if(
    test: &Formula,
    tree: &Formula,
    other: &Formula,
    depth: u64,
    alloc: Global,
    text: &Text<'_>,
) -> Result<Option<Summary>, AllocError>
    requires { IsReady text.now }
    ensures { IfOk result (λ o. o ≡ spec.formed sorts.Expression (spec.with_part sorts.Expression (summary_in text.now other.now) (spec.with_part sorts.Expression (summary_in text.now tree.now) (spec.with_part sorts.Predicate (summary_in text.now test.now) (spec.start (place_size 1 depth)))))) }
{
    let test = walk(test, alloc, text)?;
    let parts = with_part(Sort::Predicate, test, start(alloc, depth))?;
    let tree = walk(tree, alloc, text)?;
    let parts = with_part(Sort::Expression, tree, parts)?;
    let other = walk(other, alloc, text)?;
    let parts = with_part(Sort::Expression, other, parts)?;
    Ok(formed(Sort::Expression, parts))
}

// With some more trees, each of which has to be of a sort.
#[cycle(walk)]
#[tactic(auto, using(crate::proofs::Work::part_of_sum))]
fn walk_all(
    trees: &[Formula],
    wanted: Sort,
    parts: Option<Parts>,
    alloc: Global,
    text: &Text<'_>,
) -> Result<Option<Parts>, AllocError>
    requires { IsReady text.now }
    ensures { IfOk result (λ o. o ≡ spec.with_all wanted (spec.trees (map (reading_in text.now) trees.now)) parts) }
{
    let mut found = parts;
    for tree in trees {
        let tree = walk(tree, alloc, text)?;
        found = with_part(wanted, tree, found)?;
    }
    Ok(found)
}

// A chain, from its first operand.
#[inline(never)]
#[cycle(walk)]
fn walk_chain(
    links: &[Link],
    first: Option<Summary>,
    alloc: Global,
    text: &Text<'_>,
) -> Result<Option<Summary>, AllocError>
    requires { IsReady text.now }
    ensures { IfOk result (λ o. o ≡ spec.chain first (map (side_in text.now) links.now)) }
{
    match links {
        [] => Ok(None),
        [link, ..] => {
            let operator = expanded_operator(link.operator);
            let parts = with_part(operand_sort(operator), first, start_row(alloc))?;
            let parts = walk_links(links, parts, alloc, text)?;
            Ok(formed(chain_sort(operator), parts))
        }
    }
}

#[cycle(walk)]
#[tactic(auto, using(crate::proofs::Work::part_of_sum))]
fn walk_links(
    links: &[Link],
    parts: Option<Parts>,
    alloc: Global,
    text: &Text<'_>,
) -> Result<Option<Parts>, AllocError>
    requires { IsReady text.now }
    ensures { IfOk result (λ o. o ≡ spec.with_sides (map (side_in text.now) links.now) parts) }
{
    let mut found = parts;
    for link in links {
        found = walk_link(link, found, alloc, text)?;
    }
    Ok(found)
}

#[cycle(walk)]
fn walk_link(
    link: &Link,
    parts: Option<Parts>,
    alloc: Global,
    text: &Text<'_>,
) -> Result<Option<Parts>, AllocError>
    requires { IsReady text.now }
    ensures { IfOk result (λ o. o ≡ spec.with_side (side_in text.now link.now) parts) }
{
    let operand = walk(&link.operand, alloc, text)?;
    let wanted = operand_sort(expanded_operator(link.operator));
    with_part(wanted, operand, with_place(link.at.depth, parts))
}

#[cycle(walk)]
#[tactic(auto, using(crate::proofs::Work::part_of_sum))]
fn walk_forms(
    forms: &[After],
    parts: Option<Parts>,
    alloc: Global,
    text: &Text<'_>,
) -> Result<Option<Parts>, AllocError>
    requires { IsReady text.now }
    ensures { IfOk result (λ o. o ≡ spec.with_forms (map (form_in text.now) forms.now) parts) }
{
    let mut found = parts;
    for form in forms {
        found = walk_form(form, found, alloc, text)?;
    }
    Ok(found)
}

#[cycle(walk)]
fn walk_form(
    form: &After,
    parts: Option<Parts>,
    alloc: Global,
    text: &Text<'_>,
) -> Result<Option<Parts>, AllocError>
    requires { IsReady text.now }
    ensures { IfOk result (λ o. o ≡ spec.with_form (form_in text.now form.now) parts) }
{
    match form {
        After::Converse(at) => Ok(with_place(at.depth, parts)),
        After::Apply(at, e) => {
            let e = walk(e, alloc, text)?;
            with_part(Sort::Expression, e, with_place(at.depth, parts))
        }
        After::Image(at, e) => {
            let e = walk(e, alloc, text)?;
            with_part(Sort::Expression, e, with_place(at.depth, parts))
        }
    }
}

#[inline(never)]
fn walk_name(
    at: Place,
    name: &[u8],
    alloc: Global,
    text: &Text<'_>,
) -> Result<Option<Summary>, AllocError>
    requires { IsReady text.now }
    ensures { IfOk result (λ o. o ≡ spec.named (spec.place_of text.now.params.now name.now) (means_in text.now name.now) at.depth) }
{
    match place_of(text, name) {
        Some(i) => {
            let argument = parameter(alloc, i, at.depth)?;
            Ok(Some(argument))
        }
        None => match meaning_of(text, name) {
            Some(i) => use_of(i, at.depth, &[], alloc, text),
            None => Ok(Some(leaf(alloc, at.depth))),
        },
    }
}

#[inline(never)]
#[cycle(walk)]
fn walk_row(
    head: &Formula,
    forms: &[After],
    alloc: Global,
    text: &Text<'_>,
) -> Result<Option<Summary>, AllocError>
    requires { IsReady text.now }
    ensures { IfOk result (λ o. o ≡ row_in text.now head.now forms.now) }
{
    match called(head, text) {
        Some((depth, i)) => walk_called(head, forms, depth, i, alloc, text),
        None => {
            let head = walk(head, alloc, text)?;
            walk_after(forms, head, alloc, text)
        }
    }
}

// A tree with the forms after it.
#[cycle(walk)]
fn walk_after(
    forms: &[After],
    head: Option<Summary>,
    alloc: Global,
    text: &Text<'_>,
) -> Result<Option<Summary>, AllocError>
    requires { IsReady text.now }
    ensures { IfOk result (λ o. o ≡ spec.plain_row head (map (form_in text.now) forms.now)) }
{
    let parts = with_part(Sort::Expression, head, start_row(alloc))?;
    let parts = walk_forms(forms, parts, alloc, text)?;
    Ok(formed(Sort::Expression, parts))
}

// A use with the forms after its arguments.
#[cycle(walk)]
fn walk_rest(
    forms: &[After],
    used: Option<Summary>,
    alloc: Global,
    text: &Text<'_>,
) -> Result<Option<Summary>, AllocError>
    requires { IsReady text.now }
    ensures { IfOk result (λ o. o ≡ spec.row_of used (map (form_in text.now) forms.now)) }
{
    match forms {
        [] => Ok(used),
        [_, ..] => walk_after(forms, used, alloc, text),
    }
}

// A row whose head names a definition with parameters.
#[cycle(walk)]
fn walk_called(
    head: &Formula,
    forms: &[After],
    depth: u64,
    i: usize,
    alloc: Global,
    text: &Text<'_>,
) -> Result<Option<Summary>, AllocError>
    requires ready { IsReady text.now }
    requires within { i < length text.now.known.now }
    requires known { IsSome (meaning_at text.now i) }
    ensures { IfOk result (λ o. o ≡ spec.row (option_map (λ m. (depth, m)) (meaning_at text.now i)) (reading_in text.now head.now) (map (form_in text.now) forms.now)) }
{
    match application(forms, text) {
        Some((e, rest)) => {
            let arguments = walk_arguments(e, alloc, text)?;
            let used = used_with(i, depth, arguments, alloc, text)?;
            walk_rest(rest, used, alloc, text)
        }
        None => {
            let head = walk(head, alloc, text)?;
            walk_after(forms, head, alloc, text)
        }
    }
}

fn used_with(
    i: usize,
    depth: u64,
    arguments: Option<Items<Summary>>,
    alloc: Global,
    text: &Text<'_>,
) -> Result<Option<Summary>, AllocError>
    requires ready { IsReady text.now }
    requires within { i < length text.now.known.now }
    ensures { IfOk result (λ o. o ≡ option_and_then (used_at (meaning_at text.now i) depth) arguments) }
{
    match arguments {
        Some(arguments) => use_of(i, depth, arguments.as_slice(), alloc, text),
        None => Ok(None),
    }
}

/// The arguments that a tree is in the brackets of a use.
#[cycle(walk)]
pub fn walk_arguments(
    tree: &Formula,
    alloc: Global,
    text: &Text<'_>,
) -> Result<Option<Items<Summary>>, AllocError>
    requires { IsReady text.now }
    ensures { IfOk result (λ o. o ≡ arguments_in text.now tree.now) }
{
    match several(tree, text) {
        Some((first, links)) => {
            let first = walk(first, alloc, text)?;
            let rest = walk_operands(links, alloc, text)?;
            before(alloc, first, rest)
        }
        None => {
            let tree = walk(tree, alloc, text)?;
            before(alloc, tree, Some(Items::new(alloc)))
        }
    }
}

#[cycle(walk)]
#[tactic(auto, using(crate::proofs::PartLists::joined_more, crate::proofs::PartLists::joined_none, crate::proofs::PartLists::joined_all, crate::proofs::Work::part_of_sum))]
fn walk_operands(
    links: &[Link],
    alloc: Global,
    text: &Text<'_>,
) -> Result<Option<Items<Summary>>, AllocError>
    requires { IsReady text.now }
    ensures { IfOk result (λ o. o ≡ operands_in text.now links.now) }
{
    let mut found = Some(Items::new(alloc));
    for link in links {
        found = walk_operand(link, found, alloc, text)?;
    }
    Ok(found)
}

// With the operand of one more link.
#[cycle(walk)]
fn walk_operand(
    link: &Link,
    found: Option<Items<Summary>>,
    alloc: Global,
    text: &Text<'_>,
) -> Result<Option<Items<Summary>>, AllocError>
    requires { IsReady text.now }
    ensures { IfOk result (λ o. o ≡ both (λ xs x. xs ++ x ∷ []) found (side_in text.now link.now).operand) }
{
    let operand = walk(&link.operand, alloc, text)?;
    pushed(found, operand)
}
