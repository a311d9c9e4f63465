//! What is made of answers, without a recursion.
ghost use Rattle.std.specs.Prelude.{◌≡◌, Ok};
ghost use Rattle.b_machine_grammar.specs.Grammar as grammar;
ghost use Rattle.b_stretches.specs.Making.{IsMadeOf};
ghost use Rattle.b_read_subst.specs.Making as spec;

use b_ast::machine::{Branch, CaseBranch, Guard, Joint, Step, Subst};
use b_ast::{Bound, Formula, Place};
use b_grammar::Lexeme;
use b_machine_grammar::words::Word;
use b_stretches::Unread;
use sqlite_items::{Boxed, Items};
use std::alloc::Global;

/// `||` where this word is that, else `;`
pub fn joint_of(word: Word) -> Joint
    ensures { result ≡ grammar.joint_of word }
{
    match word {
        Word::Parallel => Joint::Parallel,
        _ => Joint::Sequence,
    }
}

/// A step of a chain.
pub fn step_of(word: Word, lexeme: &Lexeme, body: Result<Subst, Unread>) -> Result<Step, Unread>
    ensures { IsMadeOf (grammar.step (word, lexeme.now)) body result }
{
    match body {
        Ok(body) => Ok(Step {
            joint: joint_of(word),
            at: lexeme.at,
            body,
        }),
        Err(e) => Err(e),
    }
}

fn boxed(alloc: Global, tree: Subst) -> Result<Boxed<Subst>, Unread>
    ensures { spec.IsBoxed tree result }
{
    match Boxed::new(alloc, tree) {
        Ok(one) => Ok(one),
        Err(_) => Err(Unread::Memory),
    }
}

fn chain_of(alloc: Global, first: Subst, steps: Items<Step>) -> Result<Subst, Unread>
    ensures { IsMadeOf grammar.chain (Ok (first, steps)) result }
{
    if steps.is_empty() {
        return Ok(first);
    }
    match boxed(alloc, first) {
        Ok(first) => Ok(Subst::Chain(first, steps)),
        Err(e) => Err(e),
    }
}

/// One substitution stands for itself, several are one node.
pub fn chained(alloc: Global, parts: Result<(Subst, Items<Step>), Unread>) -> Result<Subst, Unread>
    ensures { IsMadeOf grammar.chain parts result }
{
    match parts {
        Ok((first, steps)) => chain_of(alloc, first, steps),
        Err(e) => Err(e),
    }
}

/// `BEGIN S END`
pub fn block_of(alloc: Global, at: Place, body: Result<Subst, Unread>) -> Result<Subst, Unread>
    ensures { IsMadeOf (spec.block at) body result }
{
    match body {
        Ok(body) => match boxed(alloc, body) {
            Ok(body) => Ok(Subst::Block(at, body)),
            Err(e) => Err(e),
        },
        Err(e) => Err(e),
    }
}

/// `PRE P THEN S END`, `ASSERT P THEN S END`
pub fn guarded_of(
    alloc: Global,
    at: Place,
    guard: Guard,
    parts: Result<(Formula, Subst), Unread>,
) -> Result<Subst, Unread>
    ensures { IsMadeOf (spec.guarded at guard) parts result }
{
    match parts {
        Ok((condition, body)) => match boxed(alloc, body) {
            Ok(body) => Ok(Subst::Guarded(at, guard, condition, body)),
            Err(e) => Err(e),
        },
        Err(e) => Err(e),
    }
}

/// A branch of IF or SELECT.
pub fn branch_of(parts: Result<(Formula, Subst), Unread>) -> Result<Branch, Unread>
    ensures { IsMadeOf grammar.branch parts result }
{
    match parts {
        Ok((guard, body)) => Ok(Branch { guard, body }),
        Err(e) => Err(e),
    }
}

/// A branch of CASE.
pub fn case_branch_of(parts: Result<(Items<Formula>, Subst), Unread>) -> Result<CaseBranch, Unread>
    ensures { IsMadeOf grammar.case_branch parts result }
{
    match parts {
        Ok((labels, body)) => Ok(CaseBranch { labels, body }),
        Err(e) => Err(e),
    }
}

/// What stands behind ELSE.
pub fn some_of(alloc: Global, body: Result<Subst, Unread>) -> Result<Option<Boxed<Subst>>, Unread>
    ensures { IsMadeOf spec.some body result }
{
    match body {
        Ok(body) => match boxed(alloc, body) {
            Ok(body) => Ok(Some(body)),
            Err(e) => Err(e),
        },
        Err(e) => Err(e),
    }
}

/// `IF P THEN S ELSIF Q THEN T ELSE U END`
pub fn if_of(
    at: Place,
    parts: Result<(Items<Branch>, Option<Boxed<Subst>>), Unread>,
) -> Result<Subst, Unread>
    ensures { IsMadeOf (spec.conditional at) parts result }
{
    match parts {
        Ok((some, other)) => Ok(Subst::If(at, some, other)),
        Err(e) => Err(e),
    }
}

/// `SELECT P THEN S WHEN Q THEN T ELSE U END`
pub fn select_of(
    at: Place,
    parts: Result<(Items<Branch>, Option<Boxed<Subst>>), Unread>,
) -> Result<Subst, Unread>
    ensures { IsMadeOf (spec.select at) parts result }
{
    match parts {
        Ok((some, other)) => Ok(Subst::Select(at, some, other)),
        Err(e) => Err(e),
    }
}

/// `CHOICE S OR T END`
pub fn choice_of(at: Place, parts: Result<Items<Subst>, Unread>) -> Result<Subst, Unread>
    ensures { IsMadeOf (spec.choice at) parts result }
{
    match parts {
        Ok(some) => Ok(Subst::Choice(at, some)),
        Err(e) => Err(e),
    }
}

/// `CASE E OF EITHER l,m THEN S OR n THEN T ELSE U END END`
pub fn case_of(
    at: Place,
    parts: Result<(Formula, (Items<CaseBranch>, Option<Boxed<Subst>>)), Unread>,
) -> Result<Subst, Unread>
    ensures { IsMadeOf (spec.casing at) parts result }
{
    match parts {
        Ok((value, (some, other))) => Ok(Subst::Case(at, value, some, other)),
        Err(e) => Err(e),
    }
}

/// `ANY x,y WHERE P THEN S END`
pub fn any_of(
    alloc: Global,
    at: Place,
    parts: Result<(Items<Bound>, (Formula, Subst)), Unread>,
) -> Result<Subst, Unread>
    ensures { IsMadeOf (spec.any at) parts result }
{
    match parts {
        Ok((bound, (condition, body))) => match boxed(alloc, body) {
            Ok(body) => Ok(Subst::Any(at, bound, condition, body)),
            Err(e) => Err(e),
        },
        Err(e) => Err(e),
    }
}

/// `LET x,y BE x = E & y = F IN S END`
pub fn let_of(
    alloc: Global,
    at: Place,
    parts: Result<((Items<Bound>, Items<Formula>), Subst), Unread>,
) -> Result<Subst, Unread>
    ensures { IsMadeOf (spec.fixing at) parts result }
{
    match parts {
        Ok(((bound, values), body)) => match boxed(alloc, body) {
            Ok(body) => Ok(Subst::Let(at, bound, values, body)),
            Err(e) => Err(e),
        },
        Err(e) => Err(e),
    }
}
