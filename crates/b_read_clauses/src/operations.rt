//! Operations.
ghost use Rattle.b_machine_grammar.specs.Grammar as grammar;
ghost use Rattle.b_stretches.specs.Stretches.{pieces, Answers};
ghost use Rattle.b_read_clauses.specs.Clauses as spec;

use crate::heads::header;
use crate::making::{Named, operation_of, without_results};
use b_ast::machine::Operation;
use b_machine_grammar::words::Word;
use b_read_parts::names;
use b_read_subst::subst;
use b_stretches::{Stretch, Unread, behind, cut_at, halves, pair, push_read};
use sqlite_items::Items;
use std::alloc::Global;

// `name(p,q) = S`
fn named(alloc: Global, s: Stretch<'_>, depth: usize) -> Result<Named, Unread>
    ensures { Answers (spec.IsNamed depth (pieces s.entry)) result }
{
    let (front, back) = halves(s, Word::Equal)?;
    pair(header(alloc, front), subst(alloc, back, depth))
}

// `r,s <-- name(p,q) = S`
fn operation(alloc: Global, s: Stretch<'_>, depth: usize) -> Result<Operation, Unread>
    ensures { Answers (grammar.IsOperation depth (pieces s.entry)) result }
{
    let split = cut_at(s, Word::Results);
    match split.next {
        None => without_results(alloc, named(alloc, s, depth)),
        Some((_, _, back)) => {
            let parts = pair(names(alloc, split.front), named(alloc, back, depth));
            operation_of(parts)
        }
    }
}

/// Operations with `;` between them.
pub fn operations(alloc: Global, s: Stretch<'_>, depth: usize) -> Result<Items<Operation>, Unread>
    ensures { Answers (spec.AreOperations depth (pieces s.entry)) result }
{
    let mut all = Items::new(alloc);
    let mut rest = Some(s);
    while let Some(part) = rest {
        let split = cut_at(part, Word::Semicolon);
        let one = operation(alloc, split.front, depth);
        push_read(&mut all, one)?;
        rest = behind(split.next);
    }
    Ok(all)
}
