//! What names mean in a text.
ghost use Rattle.std.specs.Prelude.{◌≡◌, [], ◌∷◌, ◌+◌, ◌<◌, ◌≤◌, ◌==◌, not, length, map, take, Some, None, IfOk, IfSome, IsSome, MatchOption, position, slice_get, bytes_eq, option_and_then, option_map};
ghost use Rattle.std.specs.Option.{option_copied};
ghost use Rattle.std.specs.List.{list_all};
ghost use Rattle.b_expand.specs.Expansion.{tree_of};
ghost use Rattle.b_expand.specs.Filling as spec;
ghost use Rattle.b_expand.specs.Standing.{until, IsIndexed, IsReady, params_at, params_in, means_in, insert_at, filling_in, form_in, side_in, called_in, parts_in, scope_of, trees_in_scope, argument_steps_in, tree_in, steps_in, steps_of_forms};

use crate::parts::is_comma;
use crate::standing::{Arguments, Callers, Standing, Table};
use b_ast::{After, Formula, Link};
use sqlite_items::Items;

// A place, where it is less than a bound.
fn below(place: Option<usize>, bound: usize) -> Option<usize>
    ensures value { result ≡ until bound place }
    ensures within { IfSome result (λ i. i < bound) }
{
    match place {
        Some(i) => { if i < bound { Some(i) } else { None } }
        None => None,
    }
}

/// The place of the first definition of a name among those that a text may use.
pub fn definition_of(text: &Standing<'_>, name: &[u8]) -> Option<usize>
    requires { IsReady text.now.table }
    ensures value { result ≡ position (λ d. bytes_eq name.now d.name) (take text.now.here.place text.now.table.defs.now) }
    ensures within { IfSome result (λ i. i < text.now.here.place) }
{
    below(text.table.index.definitions.first(name), text.here.place)
}

/// The place of a parameter of a definition: of equal parameters the first counts.
pub fn place_of(table: &Table<'_>, place: usize, name: &[u8]) -> Option<usize>
    requires { IsReady table.now }
    ensures { result ≡ position (bytes_eq name.now) (params_at table.now.defs.now place) }
{
    match sqlite_items::at(table.index.parameters.as_slice(), place) {
        Some(index) => index.first(name),
        None => None,
    }
}

/// The definition that a name means in a text.
pub fn meaning_of(text: &Standing<'_>, name: &[u8]) -> Option<usize>
    requires { IsReady text.now.table }
    ensures value { option_and_then (insert_at text.now) result ≡ means_in text.now name.now }
    ensures known { IfSome result (λ i. IsSome (insert_at text.now i)) }
{
    definition_of(text, name)
}

// Whether a definition has parameters.
fn has_params(text: &Standing<'_>, i: usize) -> bool
    ensures { IfSome (insert_at text.now i) (λ m. result ≡ not (length m.params == 0)) }
{
    match sqlite_items::at(text.table.defs, i) {
        Some(def) => def.params.len() != 0,
        None => false,
    }
}

/// The definition with parameters that the head of a row names, with the depth of the name's place.
pub fn called(head: &Formula, text: &Standing<'_>) -> Option<(u64, usize)>
    requires { IsReady text.now.table }
    ensures value { option_and_then (λ c. option_map (λ m. (c.0, m)) (insert_at text.now c.1)) result ≡ called_in text.now head.now }
    ensures known { IfSome result (λ c. IsSome (insert_at text.now c.1)) }
{
    match head {
        Formula::Name(at, x) => {
            if place_of(&text.table, text.here.place, x.as_slice()).is_some() {
                return None;
            }
            match meaning_of(text, x.as_slice()) {
                Some(i) => {
                    if has_params(text, i) {
                        Some((at.depth, i))
                    } else {
                        None
                    }
                }
                None => None,
            }
        }
        Formula::Number(_, _)
        | Formula::Text(_, _)
        | Formula::Old(_, _)
        | Formula::Constant(_, _)
        | Formula::Negative(_, _)
        | Formula::Chain(_, _)
        | Formula::Row(_, _)
        | Formula::Call(_, _, _)
        | Formula::Set(_, _)
        | Formula::Sequence(_, _)
        | Formula::Comprehension(_, _, _)
        | Formula::Quantified(_, _, _, _)
        | Formula::Collected(_, _, _, _, _)
        | Formula::If(_, _, _, _) => None,
    }
}

// Whether commas alone stand in a chain.
fn are_commas(links: &[Link], text: &Standing<'_>) -> bool
    ensures { result ≡ list_all (λ l. l.comma) (map (side_in text.now) links.now) }
{
    let _definitions = text.table;
    for link in links {
        if !is_comma(link.operator) {
            return false;
        }
    }
    true
}

// The tree as one argument.
fn alone<'a>(tree: &'a Formula) -> Arguments<'a>
    ensures first { option_copied result.first ≡ Some tree.now }
    ensures others { result.others.now ≡ [] }
{
    Arguments {
        first: Some(tree),
        others: &[],
    }
}

/// The arguments that a tree is in the brackets of a use.
pub fn arguments_of<'a>(tree: &'a Formula, text: &Standing<'_>) -> Arguments<'a>
    ensures { parts_in (means_in text.now) result ≡ (filling_in text.now tree.now).arguments }
{
    match tree {
        Formula::Chain(first, links) => {
            if are_commas(links.as_slice(), text) {
                Arguments {
                    first: Some(first.get()),
                    others: links.as_slice(),
                }
            } else {
                alone(tree)
            }
        }
        Formula::Number(_, _)
        | Formula::Text(_, _)
        | Formula::Name(_, _)
        | Formula::Old(_, _)
        | Formula::Constant(_, _)
        | Formula::Negative(_, _)
        | Formula::Row(_, _)
        | Formula::Call(_, _, _)
        | Formula::Set(_, _)
        | Formula::Sequence(_, _)
        | Formula::Comprehension(_, _, _)
        | Formula::Quantified(_, _, _, _)
        | Formula::Collected(_, _, _, _, _)
        | Formula::If(_, _, _, _) => alone(tree),
    }
}

/// The arguments in the first of some forms, where it is an application, and the forms after it.
pub fn application<'a>(
    forms: &'a [After],
    text: &Standing<'_>,
) -> Option<(Arguments<'a>, &'a [After])>
    ensures arguments { MatchOption result (spec.first_arguments (map (form_in text.now) forms.now) ≡ None) (λ r. spec.first_arguments (map (form_in text.now) forms.now) ≡ Some (parts_in (means_in text.now) r.0)) }
    ensures rest { IfSome result (λ r. map (form_in text.now) r.1.now ≡ spec.later_forms (map (form_in text.now) forms.now)) }
    ensures fewer { IfSome result (λ r. steps_of_forms text.now r.1.now ≤ steps_of_forms text.now forms.now) }
{
    let (first, rest) = forms.split_first()?;
    match first {
        After::Apply(_, e) => {
            let arguments = arguments_of(e, text);
            Some((arguments, rest))
        }
        After::Converse(_) => None,
        After::Image(_, _) => None,
    }
}

fn operand_of<'a>(link: &'a Link) -> &'a Formula
    ensures { (means : spec.Inserts) → (spec.filling means result.now).part ≡ (spec.side_of means link.now).operand }
{
    &link.operand
}

// The argument at a place.
fn argument_at<'a>(arguments: &Arguments<'a>, place: usize) -> Option<&'a Formula>
    ensures { (means : spec.Inserts) → option_map (λ e. (spec.filling means e).part) (option_copied result) ≡ slice_get (parts_in means arguments.now) place }
{
    if place == 0 {
        return arguments.first;
    }
    match arguments.first {
        Some(_) => match sqlite_items::at(arguments.others, place - 1) {
            Some(link) => Some(operand_of(link)),
            None => None,
        },
        None => None,
    }
}

// The argument at a place, in the text where it stands, under so many brackets more.
fn argument_from<'a>(
    text: &Standing<'a>,
    place: usize,
    extra: u64,
) -> Option<(&'a Formula, Standing<'a>)>
    requires { IsReady text.now.table }
    ensures tree { MatchOption result (None ≡ slice_get (trees_in_scope text.now) place) (λ r. Some (tree_in r.1 r.0.now) ≡ slice_get (trees_in_scope text.now) place) }
    ensures steps { IfSome result (λ r. Some (steps_in r.1 r.0.now) ≡ slice_get (argument_steps_in text.now) place) }
    ensures ready { IfSome result (λ r. IsReady r.1.table) }
    ensures extra { IfSome result (λ r. r.1.extra ≡ Some extra) }
{
    match text.callers {
        Callers::Within(caller) => match argument_at(&text.here.arguments, place) {
            Some(tree) => {
                let standing = Standing {
                    table: text.table,
                    here: caller.text,
                    callers: caller.callers,
                    extra: Some(extra),
                };
                Some((tree, standing))
            }
            None => None,
        },
        Callers::Outside => None,
    }
}

/// The argument for a parameter of a text, in the text where it stands, under so many brackets more.
pub fn argument_of<'a>(
    text: &Standing<'a>,
    name: &[u8],
    extra: u64,
) -> Option<(&'a Formula, Standing<'a>)>
    requires { IsReady text.now.table }
    ensures tree { MatchOption result (None ≡ tree_of (scope_of text.now) name.now) (λ r. Some (tree_in r.1 r.0.now) ≡ tree_of (scope_of text.now) name.now) }
    ensures steps { IfSome result (λ r. steps_in r.1 r.0.now ≡ spec.argument_steps (params_in text.now) (argument_steps_in text.now) name.now) }
    ensures ready { IfSome result (λ r. IsReady r.1.table) }
    ensures extra { IfSome result (λ r. r.1.extra ≡ Some extra) }
{
    match place_of(&text.table, text.here.place, name) {
        Some(place) => argument_from(text, place, extra),
        None => None,
    }
}
