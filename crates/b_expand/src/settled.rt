//! Trees in which nothing is expanded.
ghost use Rattle.std.specs.Prelude.{◌≡◌, not, map};
ghost use Rattle.b_expand.specs.Settled as spec;
ghost use Rattle.b_expand.specs.Using as using;

use crate::parts::is_comma;
use b_ast::{After, Bound, Formula, Link, Place};
use b_names::Index;

fn is_shallow(at: Place) -> bool
    ensures { result ≡ spec.is_shallow at }
{
    at.depth <= 101
}

fn are_shallow(names: &[Bound]) -> bool
    ensures { result ≡ spec.are_shallow names.now }
{
    for name in names {
        if !is_shallow(name.at) {
            return false;
        }
    }
    true
}

fn is_free(name: &[u8], index: &Index) -> bool
    ensures { result ≡ not (using.is_defined index.now name.now) }
{
    index.first(name).is_none()
}

/// Whether nothing in a tree is expanded under the definitions that an index is of.
#[cycle(settled)]
pub fn is_settled(tree: &Formula, index: &Index) -> bool
    ensures { result ≡ spec.is_settled index.now tree.now }
{
    match tree {
        Formula::Number(at, _) => is_shallow(*at),
        Formula::Text(at, _) => is_shallow(*at),
        Formula::Name(at, x) => is_shallow(*at) && is_free(x.as_slice(), index),
        Formula::Old(at, _) => is_shallow(*at),
        Formula::Constant(at, _) => is_shallow(*at),
        Formula::Negative(at, e) => is_shallow(*at) && is_settled(e.get(), index),
        Formula::Chain(e, links) => {
            is_settled(e.get(), index) && are_links_settled(links.as_slice(), index)
        }
        Formula::Row(e, forms) => {
            is_settled(e.get(), index) && are_forms_settled(forms.as_slice(), index)
        }
        Formula::Call(at, _, es) => is_shallow(*at) && are_settled(es.as_slice(), index),
        Formula::Set(at, es) => is_shallow(*at) && are_settled(es.as_slice(), index),
        Formula::Sequence(at, es) => is_shallow(*at) && are_settled(es.as_slice(), index),
        Formula::Comprehension(at, xs, p) => {
            is_shallow(*at) && (are_shallow(xs.as_slice()) && is_settled(p.get(), index))
        }
        Formula::Quantified(at, _, xs, p) => {
            is_shallow(*at) && (are_shallow(xs.as_slice()) && is_settled(p.get(), index))
        }
        Formula::Collected(at, _, xs, p, e) => {
            is_shallow(*at)
                && (are_shallow(xs.as_slice())
                    && (is_settled(p.get(), index) && is_settled(e.get(), index)))
        }
        Formula::If(at, p, e, f) => {
            is_shallow(*at)
                && (is_settled(p.get(), index)
                    && (is_settled(e.get(), index) && is_settled(f.get(), index)))
        }
    }
}

#[cycle(settled)]
fn are_settled(trees: &[Formula], index: &Index) -> bool
    ensures { result ≡ spec.all_true (map (spec.is_settled index.now) trees.now) }
{
    for tree in trees {
        if !is_settled(tree, index) {
            return false;
        }
    }
    true
}

#[cycle(settled)]
fn are_links_settled(links: &[Link], index: &Index) -> bool
    ensures { result ≡ spec.all_true (map (spec.is_settled_link index.now) links.now) }
{
    for link in links {
        if !is_link_settled(link, index) {
            return false;
        }
    }
    true
}

#[cycle(settled)]
fn is_link_settled(link: &Link, index: &Index) -> bool
    ensures { result ≡ spec.is_settled_link index.now link.now }
{
    !is_comma(link.operator) && (is_shallow(link.at) && is_settled(&link.operand, index))
}

#[cycle(settled)]
fn are_forms_settled(forms: &[After], index: &Index) -> bool
    ensures { result ≡ spec.all_true (map (spec.is_settled_form index.now) forms.now) }
{
    for form in forms {
        if !is_form_settled(form, index) {
            return false;
        }
    }
    true
}

#[cycle(settled)]
fn is_form_settled(form: &After, index: &Index) -> bool
    ensures { result ≡ spec.is_settled_form index.now form.now }
{
    match form {
        After::Converse(at) => is_shallow(*at),
        After::Apply(at, e) => is_shallow(*at) && is_settled(e, index),
        After::Image(at, e) => is_shallow(*at) && is_settled(e, index),
    }
}
