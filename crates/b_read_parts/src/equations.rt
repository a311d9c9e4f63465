//! The equations of LET.
ghost use Rattle.std.specs.Prelude.{◌≡◌};
ghost use Rattle.b_machine_grammar.specs.Grammar as grammar;
ghost use Rattle.b_stretches.specs.Stretches.{pieces, Answers};
ghost use Rattle.b_read_parts.specs.Parts as spec;

use crate::parts::{name, names, written};
use b_ast::{Bound, Formula};
use b_machine_grammar::words::Word;
use b_stretches::{Stretch, Unread, behind, cut_at, stuck, stuck_behind};
use sqlite_items::Items;
use std::alloc::Global;

// The name of `x = E`.
fn left_side(alloc: Global, s: Stretch<'_>) -> Result<Bound, Unread>
    ensures { Answers (grammar.IsLeftSide (pieces s.entry)) result }
{
    name(alloc, cut_at(s, Word::Equal).front)
}

// The formula of `x = E`.
fn right_side(alloc: Global, s: Stretch<'_>) -> Result<Formula, Unread>
    ensures { Answers (grammar.IsRightSide (pieces s.entry)) result }
{
    match cut_at(s, Word::Equal).next {
        None => Err(stuck_behind(s)),
        Some((_, _, back)) => written(alloc, back),
    }
}

fn left_sides(alloc: Global, s: Stretch<'_>) -> Result<Items<Bound>, Unread>
    ensures { Answers (spec.AreLeftSides (pieces s.entry)) result }
{
    let mut all = Items::new(alloc);
    let mut rest = Some(s);
    while let Some(part) = rest {
        let split = cut_at(part, Word::And);
        let one = left_side(alloc, split.front)?;
        all.push(one)?;
        rest = behind(split.next);
    }
    Ok(all)
}

fn right_sides(alloc: Global, s: Stretch<'_>) -> Result<Items<Formula>, Unread>
    ensures { Answers (spec.AreRightSides (pieces s.entry)) result }
{
    let mut all = Items::new(alloc);
    let mut rest = Some(s);
    while let Some(part) = rest {
        let split = cut_at(part, Word::And);
        let one = right_side(alloc, split.front)?;
        all.push(one)?;
        rest = behind(split.next);
    }
    Ok(all)
}

fn is_same_name(one: &Bound, other: &Bound) -> bool
    ensures { result ≡ spec.is_same_name one.now other.now }
{
    one.name.as_slice() == other.name.as_slice()
}

// Whether these are the same names in order.
fn are_same_names(mut some: &[Bound], mut others: &[Bound]) -> bool
    ensures { result ≡ grammar.same_names some.entry.now others.entry.now }
{
    while let [one, more @ ..] = some {
        let [other, rest @ ..] = others else {
            return false;
        };
        if !is_same_name(one, other) {
            return false;
        }
        some = more;
        others = rest;
    }
    others.is_empty()
}

/// The names that LET fixes and what it fixes them to, where the equations are those of the names in order.
pub fn fixed(
    alloc: Global,
    front: Stretch<'_>,
    back: Stretch<'_>,
) -> Result<(Items<Bound>, Items<Formula>), Unread>
    ensures { Answers (spec.AreFixed (pieces front.entry) (pieces back.entry)) result }
{
    let bound = names(alloc, front)?;
    let left = left_sides(alloc, back)?;
    if are_same_names(bound.as_slice(), left.as_slice()) {
        let values = right_sides(alloc, back)?;
        Ok((bound, values))
    } else {
        Err(stuck(back))
    }
}
