//! Places that help a user to see why a formula is refused.
ghost use Rattle.std.specs.Prelude.{◌≡◌, map};
ghost use Rattle.b_expand.specs.Using as spec;

use b_ast::{After, Formula, Link};
use b_names::Index;

/// The byte of the first use of a definition of the table that an index is of, or of the formula itself.
pub fn refused_at(formula: &Formula, index: &Index) -> u64
    ensures { result ≡ spec.place_told (spec.first_use index.now formula.now) formula.now }
{
    match first_use(formula, index) {
        Some(at) => at,
        None => first_byte(formula),
    }
}

fn first_byte(tree: &Formula) -> u64
    ensures { result ≡ spec.first_byte tree.now }
{
    match tree {
        Formula::Number(at, _)
        | Formula::Text(at, _)
        | Formula::Name(at, _)
        | Formula::Old(at, _)
        | Formula::Constant(at, _)
        | Formula::Negative(at, _)
        | Formula::Call(at, _, _)
        | Formula::Set(at, _)
        | Formula::Sequence(at, _)
        | Formula::Comprehension(at, _, _)
        | Formula::Quantified(at, _, _, _)
        | Formula::Collected(at, _, _, _, _)
        | Formula::If(at, _, _, _) => at.at,
        Formula::Chain(first, _) => first_byte(first.get()),
        Formula::Row(first, _) => first_byte(first.get()),
    }
}

fn is_defined(name: &[u8], index: &Index) -> bool
    ensures { result ≡ spec.is_defined index.now name.now }
{
    index.first(name).is_some()
}

fn either(first: Option<u64>, second: Option<u64>) -> Option<u64>
    ensures { result ≡ spec.either first second }
{
    match first {
        Some(at) => Some(at),
        None => second,
    }
}

#[cycle(first_use)]
fn first_use(tree: &Formula, index: &Index) -> Option<u64>
    ensures { result ≡ spec.first_use index.now tree.now }
{
    match tree {
        Formula::Name(at, x) => {
            if is_defined(x.as_slice(), index) {
                Some(at.at)
            } else {
                None
            }
        }
        Formula::Number(_, _) => None,
        Formula::Text(_, _) => None,
        Formula::Old(_, _) => None,
        Formula::Constant(_, _) => None,
        Formula::Negative(_, e) => first_use(e.get(), index),
        Formula::Chain(e, links) => either(
            first_use(e.get(), index),
            first_use_of_links(links.as_slice(), index),
        ),
        Formula::Row(e, forms) => either(
            first_use(e.get(), index),
            first_use_of_forms(forms.as_slice(), index),
        ),
        Formula::Call(_, _, es) => first_use_of(es.as_slice(), index),
        Formula::Set(_, es) => first_use_of(es.as_slice(), index),
        Formula::Sequence(_, es) => first_use_of(es.as_slice(), index),
        Formula::Comprehension(_, _, p) => first_use(p.get(), index),
        Formula::Quantified(_, _, _, p) => first_use(p.get(), index),
        Formula::Collected(_, _, _, p, e) => either(
            first_use(p.get(), index),
            first_use(e.get(), index),
        ),
        Formula::If(_, p, e, f) => either(
            first_use(p.get(), index),
            either(first_use(e.get(), index), first_use(f.get(), index)),
        ),
    }
}

#[cycle(first_use)]
fn first_use_of(trees: &[Formula], index: &Index) -> Option<u64>
    ensures { result ≡ spec.first_of (map (spec.first_use index.now) trees.now) }
{
    for tree in trees {
        if let Some(at) = first_use(tree, index) {
            return Some(at);
        }
    }
    None
}

#[cycle(first_use)]
fn first_use_of_links(links: &[Link], index: &Index) -> Option<u64>
    ensures { result ≡ spec.first_of (map (spec.first_use_of_link index.now) links.now) }
{
    for link in links {
        if let Some(at) = first_use_of_link(link, index) {
            return Some(at);
        }
    }
    None
}

#[cycle(first_use)]
fn first_use_of_link(link: &Link, index: &Index) -> Option<u64>
    ensures { result ≡ spec.first_use_of_link index.now link.now }
{
    first_use(&link.operand, index)
}

#[cycle(first_use)]
fn first_use_of_forms(forms: &[After], index: &Index) -> Option<u64>
    ensures { result ≡ spec.first_of (map (spec.first_use_of_form index.now) forms.now) }
{
    for form in forms {
        if let Some(at) = first_use_of_form(form, index) {
            return Some(at);
        }
    }
    None
}

#[cycle(first_use)]
fn first_use_of_form(form: &After, index: &Index) -> Option<u64>
    ensures { result ≡ spec.first_use_of_form index.now form.now }
{
    match form {
        After::Converse(_) => None,
        After::Apply(_, e) => first_use(e, index),
        After::Image(_, e) => first_use(e, index),
    }
}
