//! Definitions.
ghost use Rattle.b_machine_grammar.specs.Grammar as grammar;
ghost use Rattle.b_stretches.specs.Stretches.{pieces, Answers};

use crate::heads::header;
use crate::making::{definition_of, with_formula, without_formula};
use b_machine_grammar::trees::{BodyText, DefText};
use b_machine_grammar::words::Word;
use b_read_parts::written;
use b_read_subst::subst;
use b_stretches::{Stretch, Unread, behind, cut_before, halves, pair, push_read};
use sqlite_items::Items;
use std::alloc::Global;

// What stands behind `==`.
fn body(alloc: Global, s: Stretch<'_>, depth: usize) -> Result<BodyText, Unread>
    ensures { Answers (grammar.IsBody depth (pieces s.entry)) result }
{
    match written(alloc, s) {
        Ok(formula) => with_formula(formula, subst(alloc, s, depth)),
        Err(Unread::NoMachine(at)) => without_formula(at, subst(alloc, s, depth)),
        Err(Unread::Memory) => Err(Unread::Memory),
    }
}

// `d == body` or `d(p,q) == body`
fn definition(alloc: Global, s: Stretch<'_>, depth: usize) -> Result<DefText, Unread>
    ensures { Answers (grammar.IsDefinition depth (pieces s.entry)) result }
{
    let (front, back) = halves(s, Word::Defined)?;
    let parts = pair(header(alloc, front), body(alloc, back, depth));
    definition_of(parts)
}

/// Definitions with `;` between them and perhaps one more at the end.
pub fn definitions(alloc: Global, s: Stretch<'_>, depth: usize) -> Result<Items<DefText>, Unread>
    ensures { Answers (grammar.IsDefinitions depth (pieces s.entry)) result }
{
    let mut all = Items::new(alloc);
    let mut rest = Some(s);
    while let Some(part) = rest {
        let split = cut_before(part, Word::Semicolon);
        let one = definition(alloc, split.front, depth);
        push_read(&mut all, one)?;
        rest = behind(split.next);
    }
    Ok(all)
}
