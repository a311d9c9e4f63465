//! What the trees of a text can be, in one walk through them.
ghost use Rattle.std.specs.Prelude.{◌≡◌, [], ◌∷◌, ◌++◌, ◌+◌, ◌<◌, ◌≤◌, ◌&&◌, map, sum, Some, None, true, IfOk, IfSome, MatchOption};
ghost use Rattle.std.specs.List.{list_all};
ghost use Rattle.b_ast.specs.declared.Sort.TheVariants as sorts;
ghost use Rattle.b_expand.specs.Places.{node_total, nodes_of_link, nodes_of_after};
ghost use Rattle.b_summaries.specs.Summaries.{may_bind_all as binds_all};
ghost use Rattle.b_use_forms.specs.Forms as spec;
ghost use Rattle.b_use_forms.specs.Standing.{IsReady, reading_in, form_in, behind_in, side_in, called_in, row_in};

use crate::forms::{Form, given, is_form};
use crate::texts::{Text, is_parameter, meant, with_parameters};
use crate::uses::use_at;
use b_ast::sorts::{argument_sort, body_sort, call_sort, chain_sort, operand_sort};
use b_ast::{After, Bound, Formula, Link, Sort};
use b_expand::{expanded_operator, is_comma};
use b_summaries::texts::may_bind_all;
use sqlite_items::Items;
use std::alloc::{AllocError, Global};

fn may_bind(text: &Text<'_>, names: &[Bound]) -> bool
    requires { IsReady text.now }
    ensures { result ≡ binds_all text.now.formulas.table.now text.now.formulas.params.now names.now }
{
    may_bind_all(&text.formulas, names)
}

fn use_of(text: &Text<'_>, place: Option<usize>) -> Form
    requires { IsReady text.now }
    ensures { result ≡ spec.use_of text.now.formulas.table.now text.now.front text.now.formulas.params.now place [] }
{
    match place {
        Some(place) => use_at(text, place, &[]),
        None => Form::Own(Sort::Expression),
    }
}

// A name that stands alone.
fn named(text: &Text<'_>, name: &[u8]) -> Form
    requires { IsReady text.now }
    ensures { result ≡ spec.named text.now.formulas.table.now text.now.front text.now.formulas.params.now name.now }
{
    if is_parameter(text, name) {
        Form::Any
    } else {
        use_of(text, meant(text, name))
    }
}

// The definition with parameters that the head of a row means.
fn called(text: &Text<'_>, head: &Formula) -> Option<usize>
    requires { IsReady text.now }
    ensures { result ≡ called_in text.now head.now }
{
    match head {
        Formula::Name(_, name) => with_parameters(text, name.as_slice()),
        Formula::Number(_, _)
        | Formula::Text(_, _)
        | Formula::Old(_, _)
        | Formula::Constant(_, _)
        | Formula::Negative(_, _)
        | Formula::Chain(_, _)
        | Formula::Row(_, _)
        | Formula::Call(_, _, _)
        | Formula::Set(_, _)
        | Formula::Sequence(_, _)
        | Formula::Comprehension(_, _, _)
        | Formula::Quantified(_, _, _, _)
        | Formula::Collected(_, _, _, _, _)
        | Formula::If(_, _, _, _) => None,
    }
}

// Whether commas alone stand in a chain.
fn are_commas(links: &[Link], text: &Text<'_>) -> bool
    ensures { result ≡ list_all (λ l. l.comma) (map (side_in text.now) links.now) }
{
    let _definitions = text.formulas.table;
    for link in links {
        if !is_comma(link.operator) {
            return false;
        }
    }
    true
}

// The first operand and the links of a tree that is several arguments.
fn several<'a>(tree: &'a Formula, text: &Text<'_>) -> Option<(&'a Formula, &'a [Link])>
    ensures arguments { MatchOption result ((reading_in text.now tree.now).arguments ≡ (reading_in text.now tree.now).tree ∷ []) (λ r. (reading_in text.now tree.now).arguments ≡ (reading_in text.now r.0.now).tree ∷ map (λ l. l.operand) (map (side_in text.now) r.1.now)) }
    ensures smaller { IfSome result (λ r. node_total r.0.now + sum (map nodes_of_link r.1.now) < node_total tree.now) }
{
    match tree {
        Formula::Chain(first, links) => {
            if are_commas(links.as_slice(), text) {
                Some((first.get(), links.as_slice()))
            } else {
                None
            }
        }
        Formula::Number(_, _)
        | Formula::Text(_, _)
        | Formula::Name(_, _)
        | Formula::Old(_, _)
        | Formula::Constant(_, _)
        | Formula::Negative(_, _)
        | Formula::Row(_, _)
        | Formula::Call(_, _, _)
        | Formula::Set(_, _)
        | Formula::Sequence(_, _)
        | Formula::Comprehension(_, _, _)
        | Formula::Quantified(_, _, _, _)
        | Formula::Collected(_, _, _, _, _)
        | Formula::If(_, _, _, _) => None,
    }
}

// The arguments in the first of some forms, where it is an application, and the forms after it.
fn application<'a>(forms: &'a [After], text: &Text<'_>) -> Option<(&'a Formula, &'a [After])>
    ensures arguments { MatchOption result (spec.first_arguments (map (behind_in text.now) forms.now) ≡ None) (λ r. spec.first_arguments (map (behind_in text.now) forms.now) ≡ Some (reading_in text.now r.0.now).arguments) }
    ensures rest { IfSome result (λ r. map (behind_in text.now) r.1.now ≡ spec.later_forms (map (behind_in text.now) forms.now)) }
    ensures smaller { IfSome result (λ r. node_total r.0.now + sum (map nodes_of_after r.1.now) ≤ sum (map nodes_of_after forms.now)) }
{
    let _definitions = text.formulas.table;
    let (first, rest) = forms.split_first()?;
    match first {
        After::Apply(_, e) => Some((e, rest)),
        After::Converse(_) => None,
        After::Image(_, _) => None,
    }
}

// A chain by whether its links and its first operand can be right.
fn chained(links: &[Link], first: Form, fit: bool, text: &Text<'_>) -> Form
    requires { fit ≡ list_all spec.side_fits (map (side_in text.now) links.now) }
    ensures { result ≡ spec.chain first (map (side_in text.now) links.now) }
{
    let _definitions = text.formulas.table;
    match links {
        [] => Form::Wrong,
        [link, ..] => {
            let operator = expanded_operator(link.operator);
            given(
                is_form(operand_sort(operator), first) && fit,
                chain_sort(operator),
            )
        }
    }
}

/// What a tree of a text can be.
#[cycle(walk)]
pub fn walk(tree: &Formula, alloc: Global, text: &Text<'_>) -> Result<Form, AllocError>
    requires { IsReady text.now }
    ensures { IfOk result (λ f. f ≡ form_in text.now tree.now) }
{
    match tree {
        Formula::Number(_, _) => Ok(Form::Own(Sort::Expression)),
        Formula::Text(_, _) => Ok(Form::Own(Sort::Expression)),
        Formula::Name(_, x) => Ok(named(text, x.as_slice())),
        Formula::Old(_, _) => Ok(Form::Own(Sort::Expression)),
        Formula::Constant(_, _) => Ok(Form::Own(Sort::Expression)),
        Formula::Negative(_, e) => {
            let right = walk_as(e.get(), Sort::Expression, alloc, text)?;
            Ok(given(right, Sort::Expression))
        }
        Formula::Chain(e, links) => walk_chain(e.get(), links.as_slice(), alloc, text),
        Formula::Row(e, forms) => walk_row(e.get(), forms.as_slice(), alloc, text),
        Formula::Call(_, f, es) => {
            let right = walk_all(es.as_slice(), argument_sort(*f), alloc, text)?;
            Ok(given(right, call_sort(*f)))
        }
        Formula::Set(_, es) => {
            let right = walk_all(es.as_slice(), Sort::Expression, alloc, text)?;
            Ok(given(right, Sort::Expression))
        }
        Formula::Sequence(_, es) => {
            let right = walk_all(es.as_slice(), Sort::Expression, alloc, text)?;
            Ok(given(right, Sort::Expression))
        }
        Formula::Comprehension(_, xs, p) => {
            let right = walk_bound(xs.as_slice(), p.get(), Sort::Predicate, alloc, text)?;
            Ok(given(right, Sort::Expression))
        }
        Formula::Quantified(_, q, xs, p) => {
            let right = walk_bound(xs.as_slice(), p.get(), body_sort(*q), alloc, text)?;
            Ok(given(right, Sort::Predicate))
        }
        Formula::Collected(_, _, xs, p, e) => {
            let right = walk_collected(xs.as_slice(), p.get(), e.get(), alloc, text)?;
            Ok(given(right, Sort::Expression))
        }
        Formula::If(_, p, e, f) => {
            let right = walk_if(p.get(), e.get(), f.get(), alloc, text)?;
            Ok(given(right, Sort::Expression))
        }
    }
}

/// Whether a tree can be of a sort.
#[cycle(walk)]
pub fn walk_as(
    tree: &Formula,
    wanted: Sort,
    alloc: Global,
    text: &Text<'_>,
) -> Result<bool, AllocError>
    requires { IsReady text.now }
    ensures { IfOk result (λ b. b ≡ spec.is_form wanted (form_in text.now tree.now)) }
{
    let form = walk(tree, alloc, text)?;
    Ok(is_form(wanted, form))
}

#[cycle(walk)]
#[tactic(auto, using(crate::proofs::Work::part_of_sum))]
fn walk_all(
    trees: &[Formula],
    wanted: Sort,
    alloc: Global,
    text: &Text<'_>,
) -> Result<bool, AllocError>
    requires { IsReady text.now }
    ensures { IfOk result (λ b. b ≡ spec.all_forms wanted (map (reading_in text.now) trees.now)) }
{
    for tree in trees {
        let right = walk_as(tree, wanted, alloc, text)?;
        if !right {
            return Ok(false);
        }
    }
    Ok(true)
}

// A tree of a wanted sort under names that it binds.
#[cycle(walk)]
fn walk_bound(
    names: &[Bound],
    tree: &Formula,
    wanted: Sort,
    alloc: Global,
    text: &Text<'_>,
) -> Result<bool, AllocError>
    requires { IsReady text.now }
    ensures { IfOk result (λ b. b ≡ (binds_all text.now.formulas.table.now text.now.formulas.params.now names.now && spec.is_form wanted (form_in text.now tree.now))) }
{
    if may_bind(text, names) {
        walk_as(tree, wanted, alloc, text)
    } else {
        Ok(false)
    }
}

#[cycle(walk)]
fn walk_collected(
    names: &[Bound],
    test: &Formula,
    tree: &Formula,
    alloc: Global,
    text: &Text<'_>,
) -> Result<bool, AllocError>
    requires { IsReady text.now }
    ensures { IfOk result (λ b. b ≡ (binds_all text.now.formulas.table.now text.now.formulas.params.now names.now && (spec.is_form sorts.Predicate (form_in text.now test.now) && spec.is_form sorts.Expression (form_in text.now tree.now)))) }
{
    if !may_bind(text, names) {
        return Ok(false);
    }
    let right = walk_as(test, Sort::Predicate, alloc, text)?;
    if !right {
        return Ok(false);
    }
    walk_as(tree, Sort::Expression, alloc, text)
}

#[cycle(walk)]
fn walk_if(
    test: &Formula,
    tree: &Formula,
    other: &Formula,
    alloc: Global,
    text: &Text<'_>,
) -> Result<bool, AllocError>
    requires { IsReady text.now }
    ensures { IfOk result (λ b. b ≡ (spec.is_form sorts.Predicate (form_in text.now test.now) && (spec.is_form sorts.Expression (form_in text.now tree.now) && spec.is_form sorts.Expression (form_in text.now other.now)))) }
{
    let right = walk_as(test, Sort::Predicate, alloc, text)?;
    if !right {
        return Ok(false);
    }
    let right = walk_as(tree, Sort::Expression, alloc, text)?;
    if !right {
        return Ok(false);
    }
    walk_as(other, Sort::Expression, alloc, text)
}

#[cycle(walk)]
fn walk_chain(
    first: &Formula,
    links: &[Link],
    alloc: Global,
    text: &Text<'_>,
) -> Result<Form, AllocError>
    requires { IsReady text.now }
    ensures { IfOk result (λ f. f ≡ spec.chain (form_in text.now first.now) (map (side_in text.now) links.now)) }
{
    let form = walk(first, alloc, text)?;
    let fit = walk_links(links, alloc, text)?;
    Ok(chained(links, form, fit, text))
}

#[cycle(walk)]
#[tactic(auto, using(crate::proofs::Work::part_of_sum))]
fn walk_links(links: &[Link], alloc: Global, text: &Text<'_>) -> Result<bool, AllocError>
    requires { IsReady text.now }
    ensures { IfOk result (λ b. b ≡ list_all spec.side_fits (map (side_in text.now) links.now)) }
{
    for link in links {
        let right = walk_link(link, alloc, text)?;
        if !right {
            return Ok(false);
        }
    }
    Ok(true)
}

#[cycle(walk)]
fn walk_link(link: &Link, alloc: Global, text: &Text<'_>) -> Result<bool, AllocError>
    requires { IsReady text.now }
    ensures { IfOk result (λ b. b ≡ spec.side_fits (side_in text.now link.now)) }
{
    let wanted = operand_sort(expanded_operator(link.operator));
    walk_as(&link.operand, wanted, alloc, text)
}

#[cycle(walk)]
#[tactic(auto, using(crate::proofs::Work::part_of_sum))]
fn walk_forms(forms: &[After], alloc: Global, text: &Text<'_>) -> Result<bool, AllocError>
    requires { IsReady text.now }
    ensures { IfOk result (λ b. b ≡ list_all (λ b. b.right) (map (behind_in text.now) forms.now)) }
{
    for form in forms {
        let right = walk_form(form, alloc, text)?;
        if !right {
            return Ok(false);
        }
    }
    Ok(true)
}

#[cycle(walk)]
fn walk_form(form: &After, alloc: Global, text: &Text<'_>) -> Result<bool, AllocError>
    requires { IsReady text.now }
    ensures { IfOk result (λ b. b ≡ (behind_in text.now form.now).right) }
{
    match form {
        After::Converse(_) => Ok(true),
        After::Apply(_, e) => walk_as(e, Sort::Expression, alloc, text),
        After::Image(_, e) => walk_as(e, Sort::Expression, alloc, text),
    }
}

#[cycle(walk)]
fn walk_row(
    head: &Formula,
    forms: &[After],
    alloc: Global,
    text: &Text<'_>,
) -> Result<Form, AllocError>
    requires { IsReady text.now }
    ensures { IfOk result (λ f. f ≡ row_in text.now head.now forms.now) }
{
    match called(text, head) {
        Some(place) => walk_called(head, forms, place, alloc, text),
        None => {
            let form = walk(head, alloc, text)?;
            walk_after(forms, form, alloc, text)
        }
    }
}

// What can be a tree with the forms after it.
#[cycle(walk)]
fn walk_after(
    forms: &[After],
    head: Form,
    alloc: Global,
    text: &Text<'_>,
) -> Result<Form, AllocError>
    requires { IsReady text.now }
    ensures { IfOk result (λ f. f ≡ spec.plain_row head (map (behind_in text.now) forms.now)) }
{
    let right = walk_forms(forms, alloc, text)?;
    Ok(given(is_form(Sort::Expression, head) && right, Sort::Expression))
}

// A use with the forms after its arguments.
#[cycle(walk)]
fn walk_rest(
    forms: &[After],
    used: Form,
    alloc: Global,
    text: &Text<'_>,
) -> Result<Form, AllocError>
    requires { IsReady text.now }
    ensures { IfOk result (λ f. f ≡ spec.row_of used (map (behind_in text.now) forms.now)) }
{
    match forms {
        [] => Ok(used),
        [_, ..] => walk_after(forms, used, alloc, text),
    }
}

// A row whose head names a definition with parameters.
#[cycle(walk)]
fn walk_called(
    head: &Formula,
    forms: &[After],
    place: usize,
    alloc: Global,
    text: &Text<'_>,
) -> Result<Form, AllocError>
    requires { IsReady text.now }
    ensures { IfOk result (λ f. f ≡ spec.row text.now.formulas.table.now text.now.front text.now.formulas.params.now (Some place) (reading_in text.now head.now) (map (behind_in text.now) forms.now)) }
{
    match application(forms, text) {
        Some((e, rest)) => {
            let arguments = walk_arguments(e, alloc, text)?;
            let used = use_at(text, place, arguments.as_slice());
            walk_rest(rest, used, alloc, text)
        }
        None => {
            let form = walk(head, alloc, text)?;
            walk_after(forms, form, alloc, text)
        }
    }
}

/// What the arguments can be that a tree is in the brackets of a use.
#[cycle(walk)]
pub fn walk_arguments(
    tree: &Formula,
    alloc: Global,
    text: &Text<'_>,
) -> Result<Items<Form>, AllocError>
    requires { IsReady text.now }
    ensures { IfOk result (λ fs. fs ≡ (reading_in text.now tree.now).arguments) }
{
    match several(tree, text) {
        Some((first, links)) => walk_several(first, links, alloc, text),
        None => {
            let form = walk(tree, alloc, text)?;
            let mut forms = Items::new(alloc);
            forms.push(form)?;
            Ok(forms)
        }
    }
}

#[cycle(walk)]
fn walk_several(
    first: &Formula,
    links: &[Link],
    alloc: Global,
    text: &Text<'_>,
) -> Result<Items<Form>, AllocError>
    requires { IsReady text.now }
    ensures { IfOk result (λ fs. fs ≡ form_in text.now first.now ∷ map (λ l. l.operand) (map (side_in text.now) links.now)) }
{
    let form = walk(first, alloc, text)?;
    let mut forms = Items::new(alloc);
    forms.push(form)?;
    walk_operands(links, forms, alloc, text)
}

// With what the operands of links can be.
#[cycle(walk)]
#[tactic(auto, using(crate::proofs::Work::one_more, crate::proofs::Work::nothing_more, crate::proofs::Work::part_of_sum))]
fn walk_operands(
    links: &[Link],
    found: Items<Form>,
    alloc: Global,
    text: &Text<'_>,
) -> Result<Items<Form>, AllocError>
    requires { IsReady text.now }
    ensures { IfOk result (λ fs. fs ≡ found ++ map (λ l. l.operand) (map (side_in text.now) links.now)) }
{
    let mut forms = found;
    for link in links {
        let form = walk_operand(link, alloc, text)?;
        forms.push(form)?;
    }
    Ok(forms)
}

#[cycle(walk)]
fn walk_operand(link: &Link, alloc: Global, text: &Text<'_>) -> Result<Form, AllocError>
    requires { IsReady text.now }
    ensures { IfOk result (λ f. f ≡ (side_in text.now link.now).operand) }
{
    walk(&link.operand, alloc, text)
}
