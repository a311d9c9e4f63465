//! What is made of answers.
ghost use Rattle.b_machine_grammar.specs.Grammar as grammar;
ghost use Rattle.b_stretches.specs.Making.{IsMadeOf};
ghost use Rattle.b_read_clauses.specs.Making as spec;

use b_ast::machine::{Operation, SetDecl, Subst};
use b_ast::{Bound, Formula};
use b_machine_grammar::trees::{BodyText, DefText};
use b_stretches::Unread;
use sqlite_items::Items;
use std::alloc::Global;

/// A name with parameters.
pub type Header = (Bound, Items<Bound>);

/// A name with parameters, and a substitution.
pub type Named = (Header, Subst);

/// What stands behind an equals sign.
pub fn some_of(names: Result<Items<Bound>, Unread>) -> Result<Option<Items<Bound>>, Unread>
    ensures { IsMadeOf spec.some names result }
{
    match names {
        Ok(names) => Ok(Some(names)),
        Err(e) => Err(e),
    }
}

/// A set of SETS.
pub fn set_of(parts: Result<(Bound, Option<Items<Bound>>), Unread>) -> Result<SetDecl, Unread>
    ensures { IsMadeOf grammar.set_decl parts result }
{
    match parts {
        Ok((name, elements)) => Ok(SetDecl { name, elements }),
        Err(e) => Err(e),
    }
}

/// The body that reads as this formula.
pub fn with_formula(formula: Formula, tree: Result<Subst, Unread>) -> Result<BodyText, Unread>
    ensures { spec.IsWithFormula formula tree result }
{
    match tree {
        Ok(tree) => Ok(BodyText::Either(formula, tree)),
        Err(Unread::NoMachine(_)) => Ok(BodyText::Formula(formula)),
        Err(Unread::Memory) => Err(Unread::Memory),
    }
}

/// The body that reads as no formula; reading one stopped there.
pub fn without_formula(at: u64, tree: Result<Subst, Unread>) -> Result<BodyText, Unread>
    ensures { spec.IsWithoutFormula tree result }
{
    match tree {
        Ok(tree) => Ok(BodyText::Subst(tree)),
        Err(Unread::NoMachine(other)) => Err(Unread::NoMachine(at.max(other))),
        Err(Unread::Memory) => Err(Unread::Memory),
    }
}

/// A definition.
pub fn definition_of(parts: Result<(Header, BodyText), Unread>) -> Result<DefText, Unread>
    ensures { IsMadeOf grammar.definition parts result }
{
    match parts {
        Ok(((name, params), body)) => Ok(DefText { name, params, body }),
        Err(e) => Err(e),
    }
}

/// `name(p,q) = S`
pub fn without_results(alloc: Global, parts: Result<Named, Unread>) -> Result<Operation, Unread>
    ensures { IsMadeOf spec.without_results parts result }
{
    match parts {
        Ok(((name, params), body)) => Ok(Operation {
            name,
            results: Items::new(alloc),
            params,
            body,
        }),
        Err(e) => Err(e),
    }
}

/// `r,s <-- name(p,q) = S`
pub fn operation_of(parts: Result<(Items<Bound>, Named), Unread>) -> Result<Operation, Unread>
    ensures { IsMadeOf spec.operation parts result }
{
    match parts {
        Ok((results, ((name, params), body))) => Ok(Operation {
            name,
            results,
            params,
            body,
        }),
        Err(e) => Err(e),
    }
}
