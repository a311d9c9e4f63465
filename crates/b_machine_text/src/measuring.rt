//! How wide and how deep a machine is once its definitions are expanded.
ghost use Rattle.std.specs.Prelude.{◌≡◌, IfOk, option_map};
ghost use Rattle.b_expand.specs.Expansion.{both};
ghost use Rattle.b_summaries.specs.Sizes as sizes;
ghost use Rattle.b_substitutions.specs.Expansion.{subst_expansion};
ghost use Rattle.b_substitutions.specs.Made.{IsMade};
ghost use Rattle.b_machine_text.specs.Machines as spec;

use b_ast::machine::{Operation, Subst};
use b_ast::{Formula, Sort};
use b_machine_grammar::trees::Clause;
use b_substitutions::{Substitutions, measured_subst};
use b_summaries::sizes::plus;
use b_summaries::{Facts, Size, measured};
use std::alloc::{AllocError, Global};

// With a part's size, where both are there.
fn with_part(size: Option<Size>, part: Option<Size>) -> Option<Size>
    ensures { result ≡ both sizes.plus size part }
{
    match size {
        Some(size) => match part {
            Some(part) => Some(plus(size, part)),
            None => None,
        },
        None => None,
    }
}

fn is_predicate(sort: Sort) -> bool
    ensures { result ≡ spec.is_predicate sort }
{
    match sort {
        Sort::Expression => false,
        Sort::Predicate => true,
        Sort::Implication => true,
    }
}

// The size of a tree that is a predicate.
fn size_of_predicate(facts: Option<Facts>) -> Option<Size>
    ensures { result ≡ spec.size_of_predicate facts }
{
    match facts {
        Some(facts) => {
            if is_predicate(facts.sort) {
                Some(facts.size)
            } else {
                None
            }
        }
        None => None,
    }
}

// With a formula, which has to be a predicate.
fn with_predicate(
    size: Option<Size>,
    formula: &Formula,
    alloc: Global,
    defs: &Substitutions<'_>,
) -> Result<Option<Size>, AllocError>
    requires { IsMade defs.now }
    ensures { IfOk result (λ z. z ≡ both spec.with_formula size (spec.expanded_predicate defs.now.formulas.table.now.defs formula.now)) }
{
    let facts = measured(alloc, &defs.formulas, formula)?;
    Ok(with_part(size, size_of_predicate(facts)))
}

fn with_predicates(
    size: Option<Size>,
    formulas: &[Formula],
    alloc: Global,
    defs: &Substitutions<'_>,
) -> Result<Option<Size>, AllocError>
    requires { IsMade defs.now }
    ensures { IfOk result (λ z. z ≡ spec.added spec.with_formula (spec.expanded_predicate defs.now.formulas.table.now.defs) size formulas.now) }
{
    let mut found = size;
    for formula in formulas {
        found = with_predicate(found, formula, alloc, defs)?;
    }
    Ok(found)
}

fn with_body(
    size: Option<Size>,
    subst: &Subst,
    alloc: Global,
    defs: &Substitutions<'_>,
) -> Result<Option<Size>, AllocError>
    requires { IsMade defs.now }
    ensures { IfOk result (λ z. z ≡ both spec.with_body size (subst_expansion defs.now.formulas.table.now.defs subst.now)) }
{
    let part = measured_subst(alloc, defs, subst)?;
    Ok(with_part(size, part))
}

fn with_operation(
    size: Option<Size>,
    operation: &Operation,
    alloc: Global,
    defs: &Substitutions<'_>,
) -> Result<Option<Size>, AllocError>
    requires { IsMade defs.now }
    ensures { IfOk result (λ z. z ≡ both spec.with_operation size (spec.expanded_operation defs.now.formulas.table.now.defs operation.now)) }
{
    with_body(size, &operation.body, alloc, defs)
}

fn with_operations(
    size: Option<Size>,
    operations: &[Operation],
    alloc: Global,
    defs: &Substitutions<'_>,
) -> Result<Option<Size>, AllocError>
    requires { IsMade defs.now }
    ensures { IfOk result (λ z. z ≡ spec.added spec.with_operation (spec.expanded_operation defs.now.formulas.table.now.defs) size operations.now) }
{
    let mut found = size;
    for operation in operations {
        found = with_operation(found, operation, alloc, defs)?;
    }
    Ok(found)
}

/// With a clause.
#[tactic(auto, using(crate::proofs::Sizes::properties_same, crate::proofs::Sizes::invariant_same, crate::proofs::Sizes::assertions_same, crate::proofs::Sizes::initialisation_same, crate::proofs::Sizes::operations_same, crate::proofs::Sizes::same_size))]
pub fn with_clause(
    size: Option<Size>,
    clause: &Clause,
    alloc: Global,
    defs: &Substitutions<'_>,
) -> Result<Option<Size>, AllocError>
    requires { IsMade defs.now }
    ensures { IfOk result (λ z. z ≡ both spec.with_size_of size (spec.expanded_clause defs.now.formulas.table.now.defs clause.now)) }
{
    match clause {
        Clause::Properties(_, formula) => with_predicate(size, formula, alloc, defs),
        Clause::Invariant(_, formula) => with_predicate(size, formula, alloc, defs),
        Clause::Assertions(_, formulas) => with_predicates(size, formulas.as_slice(), alloc, defs),
        Clause::Initialisation(_, subst) => with_body(size, subst, alloc, defs),
        Clause::Operations(_, operations) => {
            with_operations(size, operations.as_slice(), alloc, defs)
        }
        Clause::Sets(_, _) => Ok(size),
        Clause::Constants(_, _) => Ok(size),
        Clause::AbstractConstants(_, _) => Ok(size),
        Clause::Variables(_, _) => Ok(size),
        Clause::ConcreteVariables(_, _) => Ok(size),
        Clause::Definitions(_, _) => Ok(size),
    }
}

// With clauses.
fn with_clauses(
    size: Option<Size>,
    clauses: &[Clause],
    alloc: Global,
    defs: &Substitutions<'_>,
) -> Result<Option<Size>, AllocError>
    requires { IsMade defs.now }
    ensures { IfOk result (λ z. z ≡ spec.added spec.with_size_of (spec.expanded_clause defs.now.formulas.table.now.defs) size clauses.now) }
{
    let mut found = size;
    for clause in clauses {
        found = with_clause(found, clause, alloc, defs)?;
    }
    Ok(found)
}

/// How wide and how deep the clauses of a machine are once their definitions are expanded, if they stand for something.
pub fn measured_clauses(
    alloc: Global,
    defs: &Substitutions<'_>,
    clauses: &[Clause],
) -> Result<Option<Size>, AllocError>
    requires { IsMade defs.now }
    ensures { IfOk result (λ z. z ≡ option_map spec.size_of_clauses (spec.expanded_clauses defs.now.formulas.table.now.defs clauses.now)) }
{
    let machine = Size {
        nodes: 1,
        depth: None,
    };
    with_clauses(Some(machine), clauses, alloc, defs)
}
