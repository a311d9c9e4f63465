//! Names in brackets, and names with parameters.
ghost use Rattle.b_machine_grammar.specs.Grammar as grammar;
ghost use Rattle.b_stretches.specs.Stretches.{pieces, Answers};
ghost use Rattle.b_read_clauses.specs.Clauses as spec;

use b_ast::Bound;
use b_machine_grammar::words::Word;
use b_read_parts::{name_at, names};
use b_stretches::{Stretch, Unread, enclosed, first, pair, stuck};
use sqlite_items::Items;
use std::alloc::Global;

/// Names with commas between them, in brackets.
pub fn enclosed_names(
    alloc: Global,
    s: Stretch<'_>,
    opening: Word,
    closing: Word,
) -> Result<Items<Bound>, Unread>
    ensures { Answers (spec.AreEnclosedNames opening closing (pieces s.entry)) result }
{
    let content = enclosed(s, opening, closing)?;
    names(alloc, content)
}

// `(p,q)`, or nothing.
fn params(alloc: Global, s: Stretch<'_>) -> Result<Items<Bound>, Unread>
    ensures { Answers (grammar.IsParams (pieces s.entry)) result }
{
    match first(s) {
        None => Ok(Items::new(alloc)),
        Some(_) => enclosed_names(alloc, s, Word::RoundOpen, Word::RoundClose),
    }
}

/// `name` or `name(p,q)`
pub fn header(alloc: Global, s: Stretch<'_>) -> Result<(Bound, Items<Bound>), Unread>
    ensures { Answers (grammar.IsHeader (pieces s.entry)) result }
{
    match first(s) {
        None => Err(stuck(s)),
        Some((_, lexeme, more)) => pair(name_at(alloc, lexeme), params(alloc, more)),
    }
}
