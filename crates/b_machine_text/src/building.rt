//! The clauses of a machine with their definitions expanded.
ghost use Rattle.std.specs.Prelude.{◌≡◌, Some, reverse, IfOk};
ghost use Rattle.b_substitutions.specs.Expansion.{subst_expansion};
ghost use Rattle.b_substitutions.specs.Limits.{IsWithinLimits};
ghost use Rattle.b_substitutions.specs.Made.{IsMade};
ghost use Rattle.b_machine_text.specs.Machines as spec;
ghost use Rattle.b_machine_text.specs.Limits as limits;

use b_ast::Formula;
use b_ast::machine::{Operation, Subst};
use b_expand::{Table, expanded};
use b_machine_grammar::trees::Clause;
use b_substitutions::{Substitutions, expanded_subst};
use sqlite_items::Items;
use std::alloc::{AllocError, Global};

// The predicate that a formula stands for.
fn built_predicate(
    formula: Formula,
    alloc: Global,
    defs: &Substitutions<'_>,
) -> Result<Formula, AllocError>
    requires made { IsMade defs.now }
    requires fits { limits.IsPredicateWithin defs.now.formulas.table.now.defs formula }
    ensures { IfOk result (λ e. spec.expanded_predicate defs.now.formulas.table.now.defs formula ≡ Some e) }
{
    let table = Table {
        defs: defs.formulas.table.defs.as_slice(),
        index: &defs.formulas.index,
    };
    expanded(alloc, &table, formula)
}

// The predicates that formulas stand for, in turned order.
#[tactic(auto, using(crate::proofs::Fitting::predicates_on, crate::proofs::Fitting::predicates_rest, crate::proofs::Fitting::predicate_last, crate::proofs::Fitting::predicates_built))]
fn turned_predicates(
    formulas: Items<Formula>,
    alloc: Global,
    defs: &Substitutions<'_>,
) -> Result<Vec<Formula>, AllocError>
    requires made { IsMade defs.now }
    requires fits { limits.ArePredicatesWithin defs.now.formulas.table.now.defs formulas }
    ensures { IfOk result (λ v. spec.expanded_predicates defs.now.formulas.table.now.defs formulas ≡ Some (reverse v.items)) }
{
    let mut left = formulas;
    let mut found = Vec::new(alloc);
    while let Some(formula) = left.pop() {
        let built = built_predicate(formula, alloc, defs)?;
        found.push(built)?;
    }
    Ok(found)
}

fn predicates(
    formulas: Items<Formula>,
    alloc: Global,
    defs: &Substitutions<'_>,
) -> Result<Items<Formula>, AllocError>
    requires made { IsMade defs.now }
    requires fits { limits.ArePredicatesWithin defs.now.formulas.table.now.defs formulas }
    ensures { IfOk result (λ es. spec.expanded_predicates defs.now.formulas.table.now.defs formulas ≡ Some es) }
{
    let mut found = turned_predicates(formulas, alloc, defs)?;
    found.reverse();
    Ok(Items::from_vec(found))
}

// The substitution that a substitution stands for.
fn built_subst(subst: Subst, alloc: Global, defs: &Substitutions<'_>) -> Result<Subst, AllocError>
    requires made { IsMade defs.now }
    requires fits { IsWithinLimits defs.now.formulas.table.now.defs subst }
    ensures { IfOk result (λ u. subst_expansion defs.now.formulas.table.now.defs subst ≡ Some u) }
{
    let built = expanded_subst(alloc, defs, &subst);
    drop(subst);
    built
}

fn built_operation(
    operation: Operation,
    alloc: Global,
    defs: &Substitutions<'_>,
) -> Result<Operation, AllocError>
    requires made { IsMade defs.now }
    requires fits { limits.IsOperationWithin defs.now.formulas.table.now.defs operation }
    ensures { IfOk result (λ o. spec.expanded_operation defs.now.formulas.table.now.defs operation ≡ Some o) }
{
    let Operation {
        name,
        results,
        params,
        body,
    } = operation;
    let body = built_subst(body, alloc, defs)?;
    Ok(Operation {
        name,
        results,
        params,
        body,
    })
}

// The operations with their bodies expanded, in turned order.
#[tactic(auto, using(crate::proofs::Fitting::operations_on, crate::proofs::Fitting::operations_rest, crate::proofs::Fitting::operation_last, crate::proofs::Fitting::operations_built))]
fn turned_operations(
    operations: Items<Operation>,
    alloc: Global,
    defs: &Substitutions<'_>,
) -> Result<Vec<Operation>, AllocError>
    requires made { IsMade defs.now }
    requires fits { limits.AreOperationsWithin defs.now.formulas.table.now.defs operations }
    ensures { IfOk result (λ v. spec.expanded_operations defs.now.formulas.table.now.defs operations ≡ Some (reverse v.items)) }
{
    let mut left = operations;
    let mut found = Vec::new(alloc);
    while let Some(next) = left.pop() {
        let built = built_operation(next, alloc, defs)?;
        found.push(built)?;
    }
    Ok(found)
}

fn operations(
    operations: Items<Operation>,
    alloc: Global,
    defs: &Substitutions<'_>,
) -> Result<Items<Operation>, AllocError>
    requires made { IsMade defs.now }
    requires fits { limits.AreOperationsWithin defs.now.formulas.table.now.defs operations }
    ensures { IfOk result (λ os. spec.expanded_operations defs.now.formulas.table.now.defs operations ≡ Some os) }
{
    let mut found = turned_operations(operations, alloc, defs)?;
    found.reverse();
    Ok(Items::from_vec(found))
}

// The clause that a clause stands for.
#[tactic(auto, using(crate::proofs::Predicates::properties_fit, crate::proofs::Predicates::invariant_fits, crate::proofs::Predicates::assertions_fit, crate::proofs::Predicates::initialisation_fits, crate::proofs::Predicates::operations_fit))]
fn built_clause(
    clause: Clause,
    alloc: Global,
    defs: &Substitutions<'_>,
) -> Result<Clause, AllocError>
    requires made { IsMade defs.now }
    requires fits { limits.IsClauseWithin defs.now.formulas.table.now.defs clause }
    ensures { IfOk result (λ c. spec.expanded_clause defs.now.formulas.table.now.defs clause ≡ Some c) }
{
    match clause {
        Clause::Properties(at, formula) => {
            Ok(Clause::Properties(at, built_predicate(formula, alloc, defs)?))
        }
        Clause::Invariant(at, formula) => {
            Ok(Clause::Invariant(at, built_predicate(formula, alloc, defs)?))
        }
        Clause::Assertions(at, formulas) => {
            Ok(Clause::Assertions(at, predicates(formulas, alloc, defs)?))
        }
        Clause::Initialisation(at, subst) => {
            Ok(Clause::Initialisation(at, built_subst(subst, alloc, defs)?))
        }
        Clause::Operations(at, all) => { Ok(Clause::Operations(at, operations(all, alloc, defs)?)) }
        Clause::Sets(at, sets) => Ok(Clause::Sets(at, sets)),
        Clause::Constants(at, names) => Ok(Clause::Constants(at, names)),
        Clause::AbstractConstants(at, names) => Ok(Clause::AbstractConstants(at, names)),
        Clause::Variables(at, names) => Ok(Clause::Variables(at, names)),
        Clause::ConcreteVariables(at, names) => Ok(Clause::ConcreteVariables(at, names)),
        Clause::Definitions(at, texts) => Ok(Clause::Definitions(at, texts)),
    }
}

/// The clauses that clauses stand for, in turned order.
#[tactic(auto, using(crate::proofs::Fitting::clauses_on, crate::proofs::Fitting::clauses_rest, crate::proofs::Fitting::clause_last, crate::proofs::Fitting::clauses_built))]
pub fn turned_clauses(
    clauses: Vec<Clause>,
    alloc: Global,
    defs: &Substitutions<'_>,
) -> Result<Vec<Clause>, AllocError>
    requires made { IsMade defs.now }
    requires fits { limits.AreClausesWithin defs.now.formulas.table.now.defs clauses.items }
    ensures { IfOk result (λ v. spec.expanded_clauses defs.now.formulas.table.now.defs clauses.items ≡ Some (reverse v.items)) }
{
    let mut left = clauses;
    let mut found = Vec::new(alloc);
    while let Some(next) = left.pop() {
        let built = built_clause(next, alloc, defs)?;
        found.push(built)?;
    }
    Ok(found)
}
