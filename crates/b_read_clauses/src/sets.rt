//! The sets of SETS.
ghost use Rattle.b_machine_grammar.specs.Grammar as grammar;
ghost use Rattle.b_stretches.specs.Stretches.{pieces, next_of, Answers};
ghost use Rattle.b_read_clauses.specs.Clauses as spec;

use crate::heads::enclosed_names;
use crate::making::{set_of, some_of};
use b_ast::Bound;
use b_ast::machine::SetDecl;
use b_machine_grammar::words::Word;
use b_read_parts::name;
use b_stretches::{Follow, Stretch, Unread, behind, cut_at, pair, push_read};
use sqlite_items::Items;
use std::alloc::Global;

// `{a,b}`, if an equals sign stands before it.
fn elements(alloc: Global, next: Option<Follow<'_>>) -> Result<Option<Items<Bound>>, Unread>
    ensures { Answers (spec.MayHaveElements (next_of next.entry)) result }
{
    match next {
        None => Ok(None),
        Some((_, _, back)) => {
            some_of(enclosed_names(alloc, back, Word::CurlyOpen, Word::CurlyClose))
        }
    }
}

// `S` or `S = {a,b}`
fn set_decl(alloc: Global, s: Stretch<'_>) -> Result<SetDecl, Unread>
    ensures { Answers (grammar.IsSetDecl (pieces s.entry)) result }
{
    let split = cut_at(s, Word::Equal);
    let parts = pair(name(alloc, split.front), elements(alloc, split.next));
    set_of(parts)
}

/// Sets with `;` between them.
pub fn set_decls(alloc: Global, s: Stretch<'_>) -> Result<Items<SetDecl>, Unread>
    ensures { Answers (spec.AreSets (pieces s.entry)) result }
{
    let mut all = Items::new(alloc);
    let mut rest = Some(s);
    while let Some(part) = rest {
        let split = cut_at(part, Word::Semicolon);
        let one = set_decl(alloc, split.front);
        push_read(&mut all, one)?;
        rest = behind(split.next);
    }
    Ok(all)
}
