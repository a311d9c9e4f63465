//! Clauses.
ghost use Rattle.b_machine_grammar.specs.Grammar as grammar;
ghost use Rattle.b_stretches.specs.Making.{IsMadeOf};
ghost use Rattle.b_stretches.specs.Stretches.{pieces, Answers};
ghost use Rattle.b_read_clauses.specs.Clauses as spec;
ghost use Rattle.b_read_clauses.specs.Making as making;

use crate::definitions::definitions;
use crate::operations::operations;
use crate::sets::set_decls;
use b_ast::machine::{Operation, SetDecl, Subst};
use b_ast::{Bound, Formula, Place};
use b_machine_grammar::trees::{Clause, DefText};
use b_machine_grammar::words::Word;
use b_read_parts::{names, written};
use b_read_subst::subst;
use b_stretches::{Stretch, Unread, behind, cut_at, push_read, stuck};
use sqlite_items::Items;
use std::alloc::Global;

fn sets_of(at: Place, content: Result<Items<SetDecl>, Unread>) -> Result<Clause, Unread>
    ensures { IsMadeOf (making.sets at) content result }
{
    match content {
        Ok(content) => Ok(Clause::Sets(at, content)),
        Err(e) => Err(e),
    }
}

fn constants_of(at: Place, content: Result<Items<Bound>, Unread>) -> Result<Clause, Unread>
    ensures { IsMadeOf (making.constants at) content result }
{
    match content {
        Ok(content) => Ok(Clause::Constants(at, content)),
        Err(e) => Err(e),
    }
}

fn abstract_constants_of(at: Place, content: Result<Items<Bound>, Unread>) -> Result<Clause, Unread>
    ensures { IsMadeOf (making.abstract_constants at) content result }
{
    match content {
        Ok(content) => Ok(Clause::AbstractConstants(at, content)),
        Err(e) => Err(e),
    }
}

fn properties_of(at: Place, content: Result<Formula, Unread>) -> Result<Clause, Unread>
    ensures { IsMadeOf (making.properties at) content result }
{
    match content {
        Ok(content) => Ok(Clause::Properties(at, content)),
        Err(e) => Err(e),
    }
}

fn variables_of(at: Place, content: Result<Items<Bound>, Unread>) -> Result<Clause, Unread>
    ensures { IsMadeOf (making.variables at) content result }
{
    match content {
        Ok(content) => Ok(Clause::Variables(at, content)),
        Err(e) => Err(e),
    }
}

fn concrete_variables_of(at: Place, content: Result<Items<Bound>, Unread>) -> Result<Clause, Unread>
    ensures { IsMadeOf (making.concrete_variables at) content result }
{
    match content {
        Ok(content) => Ok(Clause::ConcreteVariables(at, content)),
        Err(e) => Err(e),
    }
}

fn invariant_of(at: Place, content: Result<Formula, Unread>) -> Result<Clause, Unread>
    ensures { IsMadeOf (making.invariant at) content result }
{
    match content {
        Ok(content) => Ok(Clause::Invariant(at, content)),
        Err(e) => Err(e),
    }
}

fn assertions_of(at: Place, content: Result<Items<Formula>, Unread>) -> Result<Clause, Unread>
    ensures { IsMadeOf (making.assertions at) content result }
{
    match content {
        Ok(content) => Ok(Clause::Assertions(at, content)),
        Err(e) => Err(e),
    }
}

fn definitions_of(at: Place, content: Result<Items<DefText>, Unread>) -> Result<Clause, Unread>
    ensures { IsMadeOf (making.definitions at) content result }
{
    match content {
        Ok(content) => Ok(Clause::Definitions(at, content)),
        Err(e) => Err(e),
    }
}

fn initialisation_of(at: Place, content: Result<Subst, Unread>) -> Result<Clause, Unread>
    ensures { IsMadeOf (making.initialisation at) content result }
{
    match content {
        Ok(content) => Ok(Clause::Initialisation(at, content)),
        Err(e) => Err(e),
    }
}

fn operations_of(at: Place, content: Result<Items<Operation>, Unread>) -> Result<Clause, Unread>
    ensures { IsMadeOf (making.operations at) content result }
{
    match content {
        Ok(content) => Ok(Clause::Operations(at, content)),
        Err(e) => Err(e),
    }
}

// Predicates with `;` between them.
fn predicates(alloc: Global, s: Stretch<'_>) -> Result<Items<Formula>, Unread>
    ensures { Answers (spec.AreAssertions (pieces s.entry)) result }
{
    let mut all = Items::new(alloc);
    let mut rest = Some(s);
    while let Some(part) = rest {
        let split = cut_at(part, Word::Semicolon);
        let one = written(alloc, split.front);
        push_read(&mut all, one)?;
        rest = behind(split.next);
    }
    Ok(all)
}

/// The clause that this word begins, from what stands behind it. So many brackets may be open in a substitution.
pub fn clause(
    alloc: Global,
    word: Word,
    at: Place,
    s: Stretch<'_>,
    depth: usize,
) -> Result<Clause, Unread>
    ensures { Answers (grammar.IsClauseOf depth word at (pieces s.entry)) result }
{
    match word {
        Word::Sets => sets_of(at, set_decls(alloc, s)),
        Word::Constants => constants_of(at, names(alloc, s)),
        Word::AbstractConstants => abstract_constants_of(at, names(alloc, s)),
        Word::Properties => properties_of(at, written(alloc, s)),
        Word::Variables => variables_of(at, names(alloc, s)),
        Word::ConcreteVariables => concrete_variables_of(at, names(alloc, s)),
        Word::Invariant => invariant_of(at, written(alloc, s)),
        Word::Assertions => assertions_of(at, predicates(alloc, s)),
        Word::Definitions => definitions_of(at, definitions(alloc, s, depth)),
        Word::Initialisation => initialisation_of(at, subst(alloc, s, depth)),
        Word::Operations => operations_of(at, operations(alloc, s, depth)),
        _ => Err(stuck(s)),
    }
}
