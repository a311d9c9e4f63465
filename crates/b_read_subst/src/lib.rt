//! Substitutions read from their lexemes by descent. `depth` says how many brackets may open yet.
#![tactic(auto)]

ghost use Rattle.std.specs.Prelude.{◌≡◌};
ghost use Rattle.b_machine_grammar.specs.Grammar as grammar;
ghost use Rattle.b_stretches.specs.Stretches.{pieces, next_of, Answers};
ghost use Rattle.b_read_subst.specs.Blocks as spec;

mod making;

use crate::making::{
    any_of, block_of, branch_of, case_branch_of, case_of, chained, choice_of, guarded_of, if_of,
    let_of, select_of, some_of, step_of,
};
use b_ast::machine::{Branch, CaseBranch, Guard, Step, Subst};
use b_ast::{Formula, Place};
use b_machine_grammar::words::{Separator, Word};
use b_read_parts::{fixed, names, simple_subst, written, written_list};
use b_stretches::{
    Follow, Stretch, Unread, behind, cut, cut_at, enclosed, ended, first, halves, is_word, pair,
    push_read, stuck,
};
use sqlite_items::{Boxed, Items};
use std::alloc::Global;

// Whether a word begins a substitution that ends with END.
fn begins_block(word: Word) -> bool
    ensures { result ≡ grammar.begins_block word }
{
    matches!(
        word,
        Word::Begin
            | Word::Pre
            | Word::Assert
            | Word::If
            | Word::Select
            | Word::Choice
            | Word::Case
            | Word::Any
            | Word::Let
    )
}

// The word `skip` and nothing behind it.
fn skipped(at: Place, more: Stretch<'_>) -> Result<Subst, Unread>
    ensures { Answers (spec.IsSkip at (pieces more.entry)) result }
{
    match first(more) {
        None => Ok(Subst::Skip(at)),
        Some(_) => Err(stuck(more)),
    }
}

/// The substitution that a stretch is, where so many brackets may be open at one place. It takes time in proportion to
/// the number of lexemes for each bracket that is open at one place. The stack grows with those brackets alone.
#[cycle(reading)]
pub fn subst(alloc: Global, s: Stretch<'_>, depth: usize) -> Result<Subst, Unread>
    ensures { Answers (grammar.IsSubst depth (pieces s.entry)) result }
{
    let split = cut(s, Separator::Joint);
    let parts = pair(
        part(alloc, split.front, depth),
        steps(alloc, split.next, depth),
    );
    chained(alloc, parts)
}

// The parts of a chain behind its first.
#[cycle(reading)]
fn steps(alloc: Global, next: Option<Follow<'_>>, depth: usize) -> Result<Items<Step>, Unread>
    ensures { Answers (spec.AreSteps depth (next_of next.entry)) result }
{
    let mut all = Items::new(alloc);
    let mut rest = next;
    while let Some((word, lexeme, more)) = rest {
        let split = cut(more, Separator::Joint);
        let step = step_of(word, lexeme, part(alloc, split.front, depth));
        push_read(&mut all, step)?;
        rest = split.next;
    }
    Ok(all)
}

// A substitution without `||` and `;` outside brackets.
#[cycle(reading)]
fn part(alloc: Global, s: Stretch<'_>, depth: usize) -> Result<Subst, Unread>
    ensures { Answers (spec.IsPart depth (pieces s.entry)) result }
{
    match first(s) {
        None => Err(stuck(s)),
        Some((word, lexeme, more)) => {
            if is_word(word, Word::Skip) {
                skipped(lexeme.at, more)
            } else if begins_block(word) {
                ended_block(alloc, word, lexeme.at, more, depth)
            } else {
                simple_subst(alloc, s)
            }
        }
    }
}

#[cycle(reading)]
fn ended_block(
    alloc: Global,
    word: Word,
    at: Place,
    more: Stretch<'_>,
    depth: usize,
) -> Result<Subst, Unread>
    ensures { Answers (spec.IsEndedBlock depth word at (pieces more.entry)) result }
{
    let content = ended(more, Word::End)?;
    block(alloc, word, at, content, depth)
}

// What stands between a word and its END.
#[cycle(reading)]
fn block(
    alloc: Global,
    word: Word,
    at: Place,
    s: Stretch<'_>,
    depth: usize,
) -> Result<Subst, Unread>
    ensures { Answers (spec.IsBlock depth word at (pieces s.entry)) result }
{
    match word {
        Word::Begin => block_of(alloc, at, inner(alloc, s, depth)),
        Word::Pre => guarded_of(alloc, at, Guard::Pre, guarded(alloc, s, depth)),
        Word::Assert => guarded_of(alloc, at, Guard::Assert, guarded(alloc, s, depth)),
        Word::If => if_of(at, all_branches(alloc, s, Word::Elsif, depth)),
        Word::Select => select_of(at, all_branches(alloc, s, Word::When, depth)),
        Word::Choice => choice_of(at, choices(alloc, s, depth)),
        Word::Case => case(alloc, at, s, depth),
        Word::Any => any(alloc, at, s, depth),
        Word::Let => fixing(alloc, at, s, depth),
        _ => Err(stuck(s)),
    }
}

// A substitution with one bracket less.
#[cycle(reading)]
fn inner(alloc: Global, s: Stretch<'_>, depth: usize) -> Result<Subst, Unread>
    ensures { Answers (spec.inside depth (pieces s.entry)) result }
{
    if depth == 0 {
        Err(stuck(s))
    } else {
        subst(alloc, s, depth - 1)
    }
}

// `P THEN S`
#[cycle(reading)]
fn guarded(alloc: Global, s: Stretch<'_>, depth: usize) -> Result<(Formula, Subst), Unread>
    ensures { Answers (spec.IsGuarded depth (pieces s.entry)) result }
{
    let (front, back) = halves(s, Word::Then)?;
    pair(written(alloc, front), inner(alloc, back, depth))
}

// Branches with a word between them.
#[cycle(reading)]
fn branches(
    alloc: Global,
    s: Stretch<'_>,
    word: Word,
    depth: usize,
) -> Result<Items<Branch>, Unread>
    ensures { Answers (spec.AreBranches depth word (pieces s.entry)) result }
{
    let mut all = Items::new(alloc);
    let mut rest = Some(s);
    while let Some(part) = rest {
        let split = cut_at(part, word);
        let branch = branch_of(guarded(alloc, split.front, depth));
        push_read(&mut all, branch)?;
        rest = behind(split.next);
    }
    Ok(all)
}

// What stands behind ELSE, if it is there.
#[cycle(reading)]
fn otherwise(
    alloc: Global,
    next: Option<Follow<'_>>,
    depth: usize,
) -> Result<Option<Boxed<Subst>>, Unread>
    ensures { Answers (spec.IsOtherwise depth (next_of next.entry)) result }
{
    match next {
        None => Ok(None),
        Some((_, _, back)) => some_of(alloc, inner(alloc, back, depth)),
    }
}

// Branches and perhaps ELSE.
#[cycle(reading)]
fn all_branches(
    alloc: Global,
    s: Stretch<'_>,
    word: Word,
    depth: usize,
) -> Result<(Items<Branch>, Option<Boxed<Subst>>), Unread>
    ensures { Answers (spec.AreAllBranches depth word (pieces s.entry)) result }
{
    let split = cut_at(s, Word::Else);
    pair(
        branches(alloc, split.front, word, depth),
        otherwise(alloc, split.next, depth),
    )
}

// Substitutions with OR between them.
#[cycle(reading)]
fn choices(alloc: Global, s: Stretch<'_>, depth: usize) -> Result<Items<Subst>, Unread>
    ensures { Answers (spec.AreChoices depth (pieces s.entry)) result }
{
    let mut all = Items::new(alloc);
    let mut rest = Some(s);
    while let Some(part) = rest {
        let split = cut_at(part, Word::Or);
        let one = inner(alloc, split.front, depth);
        push_read(&mut all, one)?;
        rest = behind(split.next);
    }
    Ok(all)
}

// `l,m THEN S`
#[cycle(reading)]
fn labelled(alloc: Global, s: Stretch<'_>, depth: usize) -> Result<(Items<Formula>, Subst), Unread>
    ensures { Answers (spec.IsLabelled depth (pieces s.entry)) result }
{
    let (front, back) = halves(s, Word::Then)?;
    pair(written_list(alloc, front), inner(alloc, back, depth))
}

// Branches of CASE with OR between them.
#[cycle(reading)]
fn case_branches(alloc: Global, s: Stretch<'_>, depth: usize) -> Result<Items<CaseBranch>, Unread>
    ensures { Answers (spec.AreCaseBranches depth (pieces s.entry)) result }
{
    let mut all = Items::new(alloc);
    let mut rest = Some(s);
    while let Some(part) = rest {
        let split = cut_at(part, Word::Or);
        let branch = case_branch_of(labelled(alloc, split.front, depth));
        push_read(&mut all, branch)?;
        rest = behind(split.next);
    }
    Ok(all)
}

#[cycle(reading)]
fn all_case_branches(
    alloc: Global,
    s: Stretch<'_>,
    depth: usize,
) -> Result<(Items<CaseBranch>, Option<Boxed<Subst>>), Unread>
    ensures { Answers (spec.AreAllCaseBranches depth (pieces s.entry)) result }
{
    let split = cut_at(s, Word::Else);
    pair(
        case_branches(alloc, split.front, depth),
        otherwise(alloc, split.next, depth),
    )
}

// `EITHER l,m THEN S OR n THEN T ELSE U END`
#[cycle(reading)]
fn alternatives(
    alloc: Global,
    s: Stretch<'_>,
    depth: usize,
) -> Result<(Items<CaseBranch>, Option<Boxed<Subst>>), Unread>
    ensures { Answers (spec.AreAlternatives depth (pieces s.entry)) result }
{
    let content = enclosed(s, Word::Either, Word::End)?;
    all_case_branches(alloc, content, depth)
}

// `CASE E OF EITHER .. END END`
#[cycle(reading)]
fn case(alloc: Global, at: Place, s: Stretch<'_>, depth: usize) -> Result<Subst, Unread>
    ensures { Answers (spec.IsCase depth at (pieces s.entry)) result }
{
    let (front, back) = halves(s, Word::Of)?;
    let parts = pair(written(alloc, front), alternatives(alloc, back, depth));
    case_of(at, parts)
}

// `ANY x,y WHERE P THEN S END`
#[cycle(reading)]
fn any(alloc: Global, at: Place, s: Stretch<'_>, depth: usize) -> Result<Subst, Unread>
    ensures { Answers (spec.IsAny depth at (pieces s.entry)) result }
{
    let (front, back) = halves(s, Word::Where)?;
    let parts = pair(names(alloc, front), guarded(alloc, back, depth));
    any_of(alloc, at, parts)
}

// `LET x,y BE x = E & y = F IN S END`
#[cycle(reading)]
fn fixing(alloc: Global, at: Place, s: Stretch<'_>, depth: usize) -> Result<Subst, Unread>
    ensures { Answers (spec.IsLet depth at (pieces s.entry)) result }
{
    let (front, back) = halves(s, Word::Be)?;
    let (middle, end) = halves(back, Word::In)?;
    let parts = pair(fixed(alloc, front, middle), inner(alloc, end, depth));
    let_of(alloc, at, parts)
}
