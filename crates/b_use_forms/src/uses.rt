//! Uses by the forms of their arguments.
ghost use Rattle.std.specs.Prelude.{◌≡◌, Some, slice_get, option_and_then};
ghost use Rattle.b_use_forms.specs.Forms as spec;
ghost use Rattle.b_use_forms.specs.Standing.{IsReady, use_in};

use crate::forms::{Form, are_right, meets};
use crate::texts::{Text, arity_of};
use b_summaries::{Asked, Kind, Share, Told};

// Whether the first argument is there and can be what is asked for.
fn first_meets(asked: Asked, arguments: &[Form]) -> bool
    ensures { result ≡ spec.first_meets asked arguments.now }
{
    match arguments {
        [] => false,
        [first, ..] => meets(asked, *first),
    }
}

fn later_arguments<'a>(arguments: &'a [Form]) -> &'a [Form]
    ensures { result.now ≡ spec.later_arguments arguments.now }
{
    match arguments {
        [] => arguments,
        [_first, later @ ..] => later,
    }
}

// Whether there is one argument for each parameter, each of which can be what is asked for.
fn all_meet(shares: &[Share], arguments: &[Form]) -> bool
    ensures { result ≡ spec.all_meet shares.now arguments.now }
{
    let mut left = arguments;
    for share in shares {
        if !first_meets(share.asked, left) {
            return false;
        }
        left = later_arguments(left);
    }
    left.is_empty()
}

fn form_in(kind: Kind, arguments: &[Form]) -> Form
    ensures { result ≡ spec.form_in kind arguments.now }
{
    match kind {
        Kind::Own(sort) => Form::Own(sort),
        Kind::Argument(place) => match sqlite_items::at(arguments, place) {
            Some(form) => *form,
            None => Form::Wrong,
        },
    }
}

fn used(told: &Told, arguments: &[Form]) -> Form
    ensures { result ≡ spec.used (Some told.now) arguments.now }
{
    if all_meet(told.shares.as_slice(), arguments) {
        form_in(told.kind, arguments)
    } else {
        Form::Wrong
    }
}

fn used_if(told: &Option<Told>, arguments: &[Form]) -> Form
    ensures { result ≡ spec.used told.now arguments.now }
{
    match told {
        Some(told) => used(told, arguments),
        None => Form::Wrong,
    }
}

// By what is told of the definition at a place.
fn used_at(told: &[Option<Told>], place: usize, arguments: &[Form]) -> Form
    ensures { result ≡ spec.used (option_and_then (λ t. t) (slice_get told.now place)) arguments.now }
{
    match sqlite_items::at(told, place) {
        Some(told) => used_if(told, arguments),
        None => Form::Wrong,
    }
}

// A use that comes to no end.
fn endless(arity: usize, arguments: &[Form]) -> Form
    ensures { result ≡ spec.endless arity arguments.now }
{
    if arguments.len() == arity && are_right(arguments) {
        Form::Any
    } else {
        Form::Wrong
    }
}

fn formula_use(text: &Text<'_>, place: usize, arguments: &[Form]) -> Form
    requires { IsReady text.now }
    ensures { result ≡ spec.used (spec.told_at text.now.formulas.table.now place) arguments.now }
{
    used_at(text.formulas.known, place, arguments)
}

fn subst_use(text: &Text<'_>, place: usize, arguments: &[Form]) -> Form
    requires { IsReady text.now }
    ensures { result ≡ spec.used (spec.told_use_at text.now.formulas.table.now place) arguments.now }
{
    used_at(text.uses, place, arguments)
}

/// A use of the definition at a place as a formula.
pub fn use_at(text: &Text<'_>, place: usize, arguments: &[Form]) -> Form
    requires { IsReady text.now }
    ensures { result ≡ use_in text.now place arguments.now }
{
    if place < text.front {
        formula_use(text, place, arguments)
    } else {
        endless(arity_of(text, place), arguments)
    }
}

/// A use of the definition at a place as a substitution.
pub fn subst_use_at(text: &Text<'_>, place: usize, arguments: &[Form]) -> Form
    requires { IsReady text.now }
    ensures { result ≡ spec.subst_use_at text.now.formulas.table.now text.now.front place arguments.now }
{
    if place < text.front {
        subst_use(text, place, arguments)
    } else {
        endless(arity_of(text, place), arguments)
    }
}
