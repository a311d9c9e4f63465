//! What names mean in a text.
ghost use Rattle.std.specs.Prelude.{◌≡◌, [], ◌∷◌, ◌+◌, ◌<◌, ◌≤◌, ◌==◌, not, length, map, sum, take, Some, None, IfOk, IfSome, IsSome, MatchOption, is_some, position, bytes_eq, option_and_then, option_map};
ghost use Rattle.std.specs.List.{list_all};
ghost use Rattle.b_expand.specs.Places as places;
ghost use Rattle.b_expand.specs.Places.{node_total, nodes_of_link, nodes_of_after};
ghost use Rattle.b_summaries.specs.Summaries as spec;
ghost use Rattle.b_summaries.specs.Standing.{IsIndexed, IsReady, means_in, meaning_at, place_below, reading_in, form_in, side_in, called_in, used_in};

use crate::making::substituted;
use crate::summary::{Summary, Told};
use b_ast::machine::Def;
use b_ast::{After, Bound, Formula, Link, Place};
use b_expand::is_comma;
use b_names::{Index, TableIndex};
use sqlite_items::Items;
use std::alloc::{AllocError, Global};

/// A text with the definitions that it may use.
#[derive(Clone, Copy)]
pub struct Text<'a> {
    /// The whole table.
    pub table: &'a [Def],
    /// The index of the whole table.
    pub index: &'a TableIndex,
    /// What is told of its first definitions, which the text may use; None for one that no use can be right of.
    pub known: &'a [Option<Told>],
    /// The parameters of the text.
    pub params: &'a [Items<u8>],
    /// Their index, if there are any.
    pub places: Option<&'a Index>,
}

/// The place of the first definition of a name in the whole table.
pub fn definition_of(text: &Text<'_>, name: &[u8]) -> Option<usize>
    requires { IsIndexed text.now.table.now text.now.index.now }
    ensures { result ≡ position (λ d. bytes_eq name.now d.name) text.now.table.now }
{
    text.index.definitions.first(name)
}

/// The place, where it is one of so many first ones.
pub fn known_place(place: Option<usize>, known: usize) -> Option<usize>
    ensures { result ≡ place_below known place }
{
    match place {
        Some(i) => { if i < known { Some(i) } else { None } }
        None => None,
    }
}

/// The place of a parameter: of equal parameters the first counts.
pub fn place_of(text: &Text<'_>, name: &[u8]) -> Option<usize>
    requires { IsReady text.now }
    ensures { result ≡ spec.place_of text.now.params.now name.now }
{
    match text.places {
        Some(index) => index.first(name),
        None => None,
    }
}

fn may_bind(text: &Text<'_>, name: &Bound) -> bool
    requires { IsReady text.now }
    ensures { result ≡ spec.may_bind text.now.table.now text.now.params.now name.now }
{
    let name = name.name.as_slice();
    definition_of(text, name).is_none() && place_of(text, name).is_none()
}

/// Whether all names may be bound.
pub fn may_bind_all(text: &Text<'_>, names: &[Bound]) -> bool
    requires { IsReady text.now }
    ensures { result ≡ spec.may_bind_all text.now.table.now text.now.params.now names.now }
{
    for name in names {
        if !may_bind(text, name) {
            return false;
        }
    }
    true
}

/// How many brackets are open at most at a place and bound names.
pub fn names_depth(at: Place, names: &[Bound]) -> u64
    ensures { result ≡ places.names_depth at names.now }
{
    let mut most = at.depth;
    for name in names {
        most = most.max(name.at.depth);
    }
    most
}

// Whether commas alone stand in a chain.
fn are_commas(links: &[Link], text: &Text<'_>) -> bool
    ensures { result ≡ list_all (λ l. l.comma) (map (side_in text.now) links.now) }
{
    let _definitions = text.table;
    for link in links {
        if !is_comma(link.operator) {
            return false;
        }
    }
    true
}

/// The definition that a name means in a text.
pub fn meaning_of(text: &Text<'_>, name: &[u8]) -> Option<usize>
    requires { IsReady text.now }
    ensures value { option_and_then (meaning_at text.now) result ≡ means_in text.now name.now }
    ensures within { IfSome result (λ i. i < length text.now.known.now) }
    ensures known { IfSome result (λ i. IsSome (meaning_at text.now i)) }
{
    known_place(definition_of(text, name), text.known.len())
}

// Whether a definition has parameters.
fn has_params(text: &Text<'_>, i: usize) -> bool
    ensures { IfSome (meaning_at text.now i) (λ m. result ≡ not (m.arity == 0)) }
{
    match sqlite_items::at(text.table, i) {
        Some(def) => def.params.len() != 0,
        None => false,
    }
}

/// The definition with parameters that the head of a row names, with the depth of the name's place.
pub fn called(head: &Formula, text: &Text<'_>) -> Option<(u64, usize)>
    requires { IsReady text.now }
    ensures value { option_and_then (λ c. option_map (λ m. (c.0, m)) (meaning_at text.now c.1)) result ≡ called_in text.now head.now }
    ensures within { IfSome result (λ c. c.1 < length text.now.known.now) }
    ensures known { IfSome result (λ c. IsSome (meaning_at text.now c.1)) }
{
    match head {
        Formula::Name(at, x) => {
            if place_of(text, x.as_slice()).is_some() {
                return None;
            }
            match meaning_of(text, x.as_slice()) {
                Some(i) => {
                    if has_params(text, i) {
                        Some((at.depth, i))
                    } else {
                        None
                    }
                }
                None => None,
            }
        }
        Formula::Number(_, _)
        | Formula::Text(_, _)
        | Formula::Old(_, _)
        | Formula::Constant(_, _)
        | Formula::Negative(_, _)
        | Formula::Chain(_, _)
        | Formula::Row(_, _)
        | Formula::Call(_, _, _)
        | Formula::Set(_, _)
        | Formula::Sequence(_, _)
        | Formula::Comprehension(_, _, _)
        | Formula::Quantified(_, _, _, _)
        | Formula::Collected(_, _, _, _, _)
        | Formula::If(_, _, _, _) => None,
    }
}

/// The first operand and the links of a tree that is several arguments.
pub fn several<'a>(tree: &'a Formula, text: &Text<'_>) -> Option<(&'a Formula, &'a [Link])>
    ensures arguments { MatchOption result ((reading_in text.now tree.now).arguments ≡ (reading_in text.now tree.now).tree ∷ []) (λ r. (reading_in text.now tree.now).arguments ≡ (reading_in text.now r.0.now).tree ∷ map (λ l. l.operand) (map (side_in text.now) r.1.now)) }
    ensures smaller { IfSome result (λ r. node_total r.0.now + sum (map nodes_of_link r.1.now) < node_total tree.now) }
{
    match tree {
        Formula::Chain(first, links) => {
            if are_commas(links.as_slice(), text) {
                Some((first.get(), links.as_slice()))
            } else {
                None
            }
        }
        Formula::Number(_, _)
        | Formula::Text(_, _)
        | Formula::Name(_, _)
        | Formula::Old(_, _)
        | Formula::Constant(_, _)
        | Formula::Negative(_, _)
        | Formula::Row(_, _)
        | Formula::Call(_, _, _)
        | Formula::Set(_, _)
        | Formula::Sequence(_, _)
        | Formula::Comprehension(_, _, _)
        | Formula::Quantified(_, _, _, _)
        | Formula::Collected(_, _, _, _, _)
        | Formula::If(_, _, _, _) => None,
    }
}

/// The arguments in the first of some forms, where it is an application, and the forms after it.
pub fn application<'a>(forms: &'a [After], text: &Text<'_>) -> Option<(&'a Formula, &'a [After])>
    ensures arguments { MatchOption result (spec.first_arguments (map (form_in text.now) forms.now) ≡ None) (λ r. spec.first_arguments (map (form_in text.now) forms.now) ≡ Some (reading_in text.now r.0.now).arguments) }
    ensures rest { IfSome result (λ r. map (form_in text.now) r.1.now ≡ spec.later_forms (map (form_in text.now) forms.now)) }
    ensures smaller { IfSome result (λ r. node_total r.0.now + sum (map nodes_of_after r.1.now) ≤ sum (map nodes_of_after forms.now)) }
{
    let _definitions = text.table;
    let (first, rest) = forms.split_first()?;
    match first {
        After::Apply(_, e) => Some((e, rest)),
        After::Converse(_) => None,
        After::Image(_, _) => None,
    }
}

/// A use of the definition at a place with its arguments.
pub fn use_of(
    i: usize,
    depth: u64,
    arguments: &[Summary],
    alloc: Global,
    text: &Text<'_>,
) -> Result<Option<Summary>, AllocError>
    requires ready { IsReady text.now }
    requires known { i < length text.now.known.now }
    ensures { IfOk result (λ o. o ≡ used_in text.now i depth arguments.now) }
{
    match &text.known[i] {
        Some(told) => substituted(told, depth, arguments, alloc),
        None => Ok(None),
    }
}
