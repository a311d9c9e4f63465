//! What names mean where a substitution may stand.
ghost use Rattle.std.specs.Prelude.{◌≡◌, ◌<◌, length, IfOk, IfSome, option_and_then};
ghost use Rattle.b_substitutions.specs.Summaries as spec;
ghost use Rattle.b_substitutions.specs.Standing.{IsReady, use_at, called_in};

use b_summaries::making::substituted;
use b_summaries::texts::{Text, definition_of, known_place, place_of};
use b_summaries::{Summary, Told};
use sqlite_items::Items;
use std::alloc::{AllocError, Global};

/// A text with the definitions that it may use, those that are formulas and those that are substitutions.
#[derive(Clone, Copy)]
pub struct SubstText<'a> {
    pub formulas: Text<'a>,
    /// What is told of the table's first definitions as substitutions; None for one that no use can be right of.
    pub uses: &'a [Option<Told>],
}

/// The place of the definition that a name means, where it is no parameter.
pub fn place_called(text: &SubstText<'_>, name: &[u8]) -> Option<usize>
    requires { IsReady text.now }
    ensures value { option_and_then (use_at text.now) result ≡ called_in text.now name.now }
    ensures within { IfSome result (λ i. i < length text.now.uses.now) }
{
    match place_of(&text.formulas, name) {
        Some(_) => None,
        None => known_place(definition_of(&text.formulas, name), text.uses.len()),
    }
}

// A use with its arguments, by what is told of its definition.
fn told_use(
    told: &Option<Told>,
    depth: u64,
    arguments: &Option<Items<Summary>>,
    alloc: Global,
) -> Result<Option<Summary>, AllocError>
    ensures { IfOk result (λ o. o ≡ spec.used depth told.now arguments.now) }
{
    match told {
        Some(told) => match arguments {
            Some(arguments) => substituted(told, depth, arguments.as_slice(), alloc),
            None => Ok(None),
        },
        None => Ok(None),
    }
}

// A use of the definition at a place.
fn use_of(
    i: usize,
    depth: u64,
    arguments: &Option<Items<Summary>>,
    alloc: Global,
    text: &SubstText<'_>,
) -> Result<Option<Summary>, AllocError>
    requires ready { IsReady text.now }
    requires known { i < length text.now.uses.now }
    ensures { IfOk result (λ o. o ≡ spec.used depth (option_and_then (λ t. t) (use_at text.now i)) arguments.now) }
{
    told_use(&text.uses[i], depth, arguments, alloc)
}

/// A use of a name with its arguments.
pub fn use_of_name(
    name: &[u8],
    depth: u64,
    arguments: &Option<Items<Summary>>,
    alloc: Global,
    text: &SubstText<'_>,
) -> Result<Option<Summary>, AllocError>
    requires { IsReady text.now }
    ensures { IfOk result (λ o. o ≡ spec.used depth (option_and_then (λ t. t) (called_in text.now name.now)) arguments.now) }
{
    match place_called(text, name) {
        Some(i) => use_of(i, depth, arguments, alloc, text),
        None => Ok(None),
    }
}
