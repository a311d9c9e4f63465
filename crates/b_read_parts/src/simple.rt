//! Substitutions that begin with no word.
ghost use Rattle.std.specs.Prelude.{◌≡◌};
ghost use Rattle.b_ast.specs.declared.Formula.{out-Formula};
ghost use Rattle.b_machine_grammar.specs.Grammar as grammar;
ghost use Rattle.b_stretches.specs.Stretches.{pieces, next_of, Answers};
ghost use Rattle.b_read_parts.specs.Parts as spec;

use crate::parts::{name, names, written, written_list};
use b_ast::machine::Subst;
use b_ast::{After, Bound, Formula, Place};
use b_machine_grammar::words::{Separator, Word};
use b_stretches::{Follow, Stretch, Unread, cut, cut_at, first, is_word, stuck, stuck_behind};
use sqlite_items::Items;
use std::alloc::Global;

// A name, the place of its bracket and its argument.
type Applied = (Bound, Place, Formula);

// Whether a name and an opening round bracket stand first.
fn is_applied(s: Stretch<'_>) -> bool
    ensures { result ≡ grammar.is_applied (pieces s.entry) }
{
    match first(s) {
        None => false,
        Some((word, _, more)) => match first(more) {
            None => false,
            Some((second, _, _)) => is_word(word, Word::Name) && is_word(second, Word::RoundOpen),
        },
    }
}

// One application of a name.
fn applied_to(head: Formula, after: After) -> Option<Applied>
    ensures { result ≡ grammar.applied_to (out-Formula head) after }
{
    match head {
        Formula::Name(at, name) => match after {
            After::Apply(place, argument) => Some((Bound { name, at }, place, argument)),
            _ => None,
        },
        _ => None,
    }
}

// The one application of a name that a formula is.
fn applied_in(tree: Formula) -> Option<Applied>
    ensures { result ≡ grammar.applied_in tree }
{
    match tree {
        Formula::Row(head, mut afters) => {
            let last = afters.pop()?;
            if afters.is_empty() {
                applied_to(head.into_inner(), last)
            } else {
                None
            }
        }
        _ => None,
    }
}

fn applied(alloc: Global, s: Stretch<'_>) -> Result<Applied, Unread>
    ensures { Answers (grammar.IsApplied (pieces s.entry)) result }
{
    let tree = written(alloc, s)?;
    match applied_in(tree) {
        Some(found) => Ok(found),
        None => Err(stuck(s)),
    }
}

// `x,y := E,F`
fn assignment(
    alloc: Global,
    at: Place,
    front: Stretch<'_>,
    back: Stretch<'_>,
) -> Result<Subst, Unread>
    ensures { Answers (grammar.IsAssignment at (pieces front.entry) (pieces back.entry)) result }
{
    let targets = names(alloc, front)?;
    let values = written_list(alloc, back)?;
    if targets.len() == values.len() {
        Ok(Subst::Assign(at, targets, values))
    } else {
        Err(stuck_behind(back))
    }
}

// `f(E) := F`
fn update(alloc: Global, front: Stretch<'_>, back: Stretch<'_>) -> Result<Subst, Unread>
    ensures { Answers (grammar.IsUpdate (pieces front.entry) (pieces back.entry)) result }
{
    let (target, at, argument) = applied(alloc, front)?;
    let value = written(alloc, back)?;
    Ok(Subst::Update(at, target, argument, value))
}

// `x :: E`
fn choice_from(
    alloc: Global,
    at: Place,
    front: Stretch<'_>,
    back: Stretch<'_>,
) -> Result<Subst, Unread>
    ensures { Answers (grammar.IsChoiceFrom at (pieces front.entry) (pieces back.entry)) result }
{
    let target = name(alloc, front)?;
    let set = written(alloc, back)?;
    Ok(Subst::ChooseFrom(at, target, set))
}

// What stands round `:=` or `::`.
fn writing(
    alloc: Global,
    word: Word,
    at: Place,
    front: Stretch<'_>,
    back: Stretch<'_>,
) -> Result<Subst, Unread>
    ensures { Answers (grammar.IsWriting word at (pieces front.entry) (pieces back.entry)) result }
{
    match word {
        Word::Becomes => {
            if is_applied(front) {
                update(alloc, front, back)
            } else {
                assignment(alloc, at, front, back)
            }
        }
        _ => choice_from(alloc, at, front, back),
    }
}

// Whether nothing stands behind a separator.
fn is_last(next: Option<Follow<'_>>) -> bool
    ensures { result ≡ grammar.is_last (next_of next.entry) }
{
    match next {
        None => false,
        Some((_, _, more)) => first(more).is_none(),
    }
}

// Whether a round bracket stands first that the last lexeme closes.
fn is_bracketed(s: Stretch<'_>) -> bool
    ensures { result ≡ grammar.is_bracketed (pieces s.entry) }
{
    match first(s) {
        None => false,
        Some((word, _, more)) => {
            is_word(word, Word::RoundOpen) && is_last(cut_at(more, Word::RoundClose).next)
        }
    }
}

// `(P)`
fn bracketed(alloc: Global, s: Stretch<'_>) -> Result<Formula, Unread>
    ensures { Answers (grammar.IsBracketed (pieces s.entry)) result }
{
    if is_bracketed(s) {
        written(alloc, s)
    } else {
        Err(stuck(s))
    }
}

// `x,y : (P)`
fn choice_such(
    alloc: Global,
    at: Place,
    front: Stretch<'_>,
    back: Stretch<'_>,
) -> Result<Subst, Unread>
    ensures { Answers (grammar.IsChoiceSuch at (pieces front.entry) (pieces back.entry)) result }
{
    let targets = names(alloc, front)?;
    let condition = bracketed(alloc, back)?;
    Ok(Subst::ChooseSuch(at, targets, condition))
}

// A use of a definition.
fn used(alloc: Global, s: Stretch<'_>) -> Result<Subst, Unread>
    ensures { Answers (grammar.IsUse (pieces s.entry)) result }
{
    if is_applied(s) {
        let (target, _, argument) = applied(alloc, s)?;
        let mut arguments = Items::new(alloc);
        arguments.push(argument)?;
        Ok(Subst::Use(target.at, target.name, arguments))
    } else {
        let target = name(alloc, s)?;
        Ok(Subst::Use(target.at, target.name, Items::new(alloc)))
    }
}

// What has no `:=` and no `::`.
fn without_becoming(alloc: Global, s: Stretch<'_>) -> Result<Subst, Unread>
    ensures { Answers (spec.IsUseOrChoice (pieces s.entry)) result }
{
    let split = cut_at(s, Word::Member);
    match split.next {
        None => used(alloc, s),
        Some((_, lexeme, back)) => choice_such(alloc, lexeme.at, split.front, back),
    }
}

/// A substitution that begins with no word.
pub fn simple_subst(alloc: Global, s: Stretch<'_>) -> Result<Subst, Unread>
    ensures { Answers (grammar.IsSimple (pieces s.entry)) result }
{
    let split = cut(s, Separator::Becoming);
    match split.next {
        None => without_becoming(alloc, s),
        Some((word, lexeme, back)) => writing(alloc, word, lexeme.at, split.front, back),
    }
}
