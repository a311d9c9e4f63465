//! Machines as the grammar has them.
ghost use Rattle.b_machine_grammar.specs.Grammar as grammar;
ghost use Rattle.b_stretches.specs.Making.{IsMadeOf};
ghost use Rattle.b_stretches.specs.Stretches.{pieces, next_of, Answers};
ghost use Rattle.b_read_machine.specs.Machines as spec;

use b_ast::Bound;
use b_machine_grammar::trees::{Clause, MachineTree};
use b_machine_grammar::words::{Separator, Word};
use b_read_clauses::clause;
use b_read_parts::name;
use b_stretches::{Follow, Stretch, Unread, count_of, cut, enclosed, pair, push_read};
use sqlite_items::Items;
use std::alloc::Global;

// Clauses with their words. So many brackets may be open in a substitution.
fn clauses(alloc: Global, next: Option<Follow<'_>>, depth: usize) -> Result<Items<Clause>, Unread>
    ensures { Answers (spec.AreClauses depth (next_of next.entry)) result }
{
    let mut all = Items::new(alloc);
    let mut rest = next;
    while let Some((word, lexeme, more)) = rest {
        let split = cut(more, Separator::Clause);
        let one = clause(alloc, word, lexeme.at, split.front, depth);
        push_read(&mut all, one)?;
        rest = split.next;
    }
    Ok(all)
}

fn machine_of(parts: Result<(Bound, Items<Clause>), Unread>) -> Result<MachineTree, Unread>
    ensures { IsMadeOf grammar.machine parts result }
{
    match parts {
        Ok((name, clauses)) => Ok(MachineTree { name, clauses }),
        Err(e) => Err(e),
    }
}

// What stands between MACHINE and its END.
fn content_tree(alloc: Global, s: Stretch<'_>, depth: usize) -> Result<MachineTree, Unread>
    ensures { Answers (spec.IsContent depth (pieces s.entry)) result }
{
    let split = cut(s, Separator::Clause);
    let parts = pair(name(alloc, split.front), clauses(alloc, split.next, depth));
    machine_of(parts)
}

/// The machine that a stretch is. It takes time in proportion to the number of lexemes for each bracket that is open at
/// one place. The stack grows with those brackets alone.
pub fn machine_tree(alloc: Global, s: Stretch<'_>) -> Result<MachineTree, Unread>
    ensures { Answers (grammar.IsMachine (pieces s.entry)) result }
{
    let content = enclosed(s, Word::Machine, Word::End)?;
    content_tree(alloc, content, count_of(s))
}
