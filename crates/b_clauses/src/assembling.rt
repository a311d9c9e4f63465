//! A machine put together from its clauses.
ghost use Rattle.std.specs.Prelude.{◌≡◌, Some, ◌++◌, map, reverse, IfOk};
ghost use Rattle.b_clauses.specs.Clauses as spec;

use b_ast::machine::{DefTable, MachineText, Operation, SetDecl, Subst};
use b_ast::{Bound, Formula, Pred};
use b_machine_grammar::trees::Clause;
use sqlite_items::Items;
use std::alloc::{AllocError, Global};

// The formulas as predicates, which stand in turned order.
#[tactic(auto, using(crate::proofs::FromBehind::predicates_on))]
fn predicates_of(turned: Vec<Formula>, alloc: Global) -> Result<Items<Pred>, AllocError>
    ensures { IfOk result (λ ps. ps ≡ map spec.predicate (reverse turned.items)) }
{
    let mut left = turned;
    let mut predicates = Items::new(alloc);
    while let Some(formula) = left.pop() {
        predicates.push(Pred { formula })?;
    }
    Ok(predicates)
}

#[tactic(auto, using(crate::proofs::FromBehind::formulas_on))]
fn turned(formulas: Items<Formula>, alloc: Global) -> Result<Vec<Formula>, AllocError>
    ensures { IfOk result (λ v. reverse v.items ≡ formulas) }
{
    let mut left = formulas;
    let mut found = Vec::new(alloc);
    while let Some(formula) = left.pop() {
        found.push(formula)?;
    }
    Ok(found)
}

fn all_predicates(formulas: Items<Formula>, alloc: Global) -> Result<Items<Pred>, AllocError>
    ensures { IfOk result (λ ps. ps ≡ map spec.predicate formulas) }
{
    let turned = turned(formulas, alloc)?;
    predicates_of(turned, alloc)
}

fn with_more(text: MachineText, more: Items<Pred>) -> Result<MachineText, AllocError>
    ensures { IfOk result (λ m. m ≡ record text { assertions = text.assertions ++ more }) }
{
    let mut text = text;
    match text.assertions.append(more) {
        Ok(()) => Ok(text),
        Err(error) => {
            drop(text);
            Err(error)
        }
    }
}

fn with_assertions(
    text: MachineText,
    formulas: Items<Formula>,
    alloc: Global,
) -> Result<MachineText, AllocError>
    ensures { IfOk result (λ m. m ≡ record text { assertions = text.assertions ++ map spec.predicate formulas }) }
{
    match all_predicates(formulas, alloc) {
        Ok(more) => with_more(text, more),
        Err(error) => {
            drop(text);
            Err(error)
        }
    }
}

fn with_constants(text: MachineText, names: Items<Bound>) -> Result<MachineText, AllocError>
    ensures { IfOk result (λ m. m ≡ record text { constants = text.constants ++ names }) }
{
    let mut text = text;
    match text.constants.append(names) {
        Ok(()) => Ok(text),
        Err(error) => {
            drop(text);
            Err(error)
        }
    }
}

fn with_variables(text: MachineText, names: Items<Bound>) -> Result<MachineText, AllocError>
    ensures { IfOk result (λ m. m ≡ record text { variables = text.variables ++ names }) }
{
    let mut text = text;
    match text.variables.append(names) {
        Ok(()) => Ok(text),
        Err(error) => {
            drop(text);
            Err(error)
        }
    }
}

// With one more clause.
fn with_clause(text: MachineText, clause: Clause, alloc: Global) -> Result<MachineText, AllocError>
    ensures { IfOk result (λ m. m ≡ spec.with_clause text clause) }
{
    match clause {
        Clause::Sets(_, sets) => with_sets(text, sets),
        Clause::Constants(_, names) => with_constants(text, names),
        Clause::AbstractConstants(_, names) => with_constants(text, names),
        Clause::Properties(_, formula) => Ok(with_properties(text, formula)),
        Clause::Variables(_, names) => with_variables(text, names),
        Clause::ConcreteVariables(_, names) => with_variables(text, names),
        Clause::Invariant(_, formula) => Ok(with_invariant(text, formula)),
        Clause::Assertions(_, formulas) => with_assertions(text, formulas, alloc),
        Clause::Definitions(_, _) => Ok(text),
        Clause::Initialisation(_, subst) => Ok(with_initialisation(text, subst)),
        Clause::Operations(_, operations) => with_operations(text, operations),
    }
}

fn with_sets(text: MachineText, sets: Items<SetDecl>) -> Result<MachineText, AllocError>
    ensures { IfOk result (λ m. m ≡ record text { sets = text.sets ++ sets }) }
{
    let mut text = text;
    match text.sets.append(sets) {
        Ok(()) => Ok(text),
        Err(error) => {
            drop(text);
            Err(error)
        }
    }
}

fn with_operations(
    text: MachineText,
    operations: Items<Operation>,
) -> Result<MachineText, AllocError>
    ensures { IfOk result (λ m. m ≡ record text { operations = text.operations ++ operations }) }
{
    let mut text = text;
    match text.operations.append(operations) {
        Ok(()) => Ok(text),
        Err(error) => {
            drop(text);
            Err(error)
        }
    }
}

fn with_properties(text: MachineText, formula: Formula) -> MachineText
    ensures { result ≡ record text { properties = Some (spec.predicate formula) } }
{
    let mut text = text;
    text.properties = Some(Pred { formula });
    text
}

fn with_invariant(text: MachineText, formula: Formula) -> MachineText
    ensures { result ≡ record text { invariant = Some (spec.predicate formula) } }
{
    let mut text = text;
    text.invariant = Some(Pred { formula });
    text
}

fn with_initialisation(text: MachineText, subst: Subst) -> MachineText
    ensures { result ≡ record text { initialisation = Some subst } }
{
    let mut text = text;
    let before = text.initialisation.replace(subst);
    drop(before);
    text
}

fn empty(name: Bound, alloc: Global) -> MachineText
    ensures { result ≡ spec.empty name }
{
    MachineText {
        name,
        sets: Items::new(alloc),
        constants: Items::new(alloc),
        properties: None,
        variables: Items::new(alloc),
        invariant: None,
        assertions: Items::new(alloc),
        defs: DefTable {
            defs: Items::new(alloc),
        },
        initialisation: None,
        operations: Items::new(alloc),
    }
}

/// The machine of a name and clauses, which stand in turned order.
#[tactic(auto, using(crate::proofs::FromBehind::assembled_on))]
pub fn assembled(name: Bound, turned: Vec<Clause>, alloc: Global) -> Result<MachineText, AllocError>
    ensures { IfOk result (λ m. m ≡ spec.assembled name (reverse turned.items)) }
{
    let mut left = turned;
    let mut text = empty(name, alloc);
    while let Some(clause) = left.pop() {
        text = with_clause(text, clause, alloc)?;
    }
    Ok(text)
}

/// The machine with its table of definitions.
pub fn with_table(text: MachineText, table: DefTable) -> MachineText
    ensures { result ≡ spec.with_table table.defs text }
{
    let mut text = text;
    text.defs = table;
    text
}
