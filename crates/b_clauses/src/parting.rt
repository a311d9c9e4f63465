//! The definitions of a machine and its other clauses.
ghost use Rattle.std.specs.Prelude.{◌≡◌, ◌∷◌, ◌++◌, reverse, IfOk};
ghost use Rattle.b_clauses.specs.Clauses as spec;

use b_machine_grammar::trees::{Clause, DefText};
use sqlite_items::Items;
use std::alloc::{AllocError, Global};

/// The texts of the definitions and the other clauses, both in turned order.
#[derive(Drop)]
pub struct Parted {
    pub texts: Vec<DefText>,
    pub others: Vec<Clause>,
}

fn is_definitions(clause: &Clause) -> bool
    ensures { result ≡ spec.is_definitions clause.now }
{
    match clause {
        Clause::Definitions(_, _) => true,
        Clause::Sets(_, _) => false,
        Clause::Constants(_, _) => false,
        Clause::AbstractConstants(_, _) => false,
        Clause::Properties(_, _) => false,
        Clause::Variables(_, _) => false,
        Clause::ConcreteVariables(_, _) => false,
        Clause::Invariant(_, _) => false,
        Clause::Assertions(_, _) => false,
        Clause::Initialisation(_, _) => false,
        Clause::Operations(_, _) => false,
    }
}

fn texts_of(clause: Clause, alloc: Global) -> Items<DefText>
    ensures { result ≡ spec.texts_of clause }
{
    match clause {
        Clause::Definitions(_, texts) => texts,
        Clause::Sets(_, _) => Items::new(alloc),
        Clause::Constants(_, _) => Items::new(alloc),
        Clause::AbstractConstants(_, _) => Items::new(alloc),
        Clause::Properties(_, _) => Items::new(alloc),
        Clause::Variables(_, _) => Items::new(alloc),
        Clause::ConcreteVariables(_, _) => Items::new(alloc),
        Clause::Invariant(_, _) => Items::new(alloc),
        Clause::Assertions(_, _) => Items::new(alloc),
        Clause::Initialisation(_, subst) => {
            drop(subst);
            Items::new(alloc)
        }
        Clause::Operations(_, _) => Items::new(alloc),
    }
}

// With texts behind those that stand in turned order.
#[tactic(auto, using(crate::proofs::FromBehind::texts_on))]
fn with_texts(found: Vec<DefText>, more: Items<DefText>) -> Result<Vec<DefText>, AllocError>
    ensures { IfOk result (λ v. reverse v.items ≡ more ++ reverse found.items) }
{
    let mut left = more;
    let mut all = found;
    while let Some(text) = left.pop() {
        all.push(text)?;
    }
    Ok(all)
}

#[tactic(auto, using(crate::proofs::FromBehind::clause_turned))]
fn with_other(parted: Parted, clause: Clause) -> Result<Parted, AllocError>
    ensures texts { IfOk result (λ p. p.texts ≡ parted.texts) }
    ensures others { IfOk result (λ p. reverse p.others.items ≡ clause ∷ reverse parted.others.items) }
{
    let Parted { texts, mut others } = parted;
    others.push(clause)?;
    Ok(Parted { texts, others })
}

fn with_definitions(parted: Parted, more: Items<DefText>) -> Result<Parted, AllocError>
    ensures texts { IfOk result (λ p. reverse p.texts.items ≡ more ++ reverse parted.texts.items) }
    ensures others { IfOk result (λ p. p.others ≡ parted.others) }
{
    let Parted { texts, others } = parted;
    let texts = with_texts(texts, more)?;
    Ok(Parted { texts, others })
}

#[tactic(auto, using(crate::proofs::FromBehind::no_texts))]
fn with_clause(parted: Parted, clause: Clause, alloc: Global) -> Result<Parted, AllocError>
    ensures texts { IfOk result (λ p. reverse p.texts.items ≡ spec.texts_of clause ++ reverse parted.texts.items) }
    ensures others { IfOk result (λ p. reverse p.others.items ≡ spec.others_of clause ++ reverse parted.others.items) }
{
    if is_definitions(&clause) {
        with_definitions(parted, texts_of(clause, alloc))
    } else {
        with_other(parted, clause)
    }
}

/// The definitions of a machine and its other clauses.
pub fn parts_of(alloc: Global, clauses: Items<Clause>) -> Result<Parted, AllocError>
    ensures texts { IfOk result (λ p. reverse p.texts.items ≡ spec.definitions_in clauses) }
    ensures others { IfOk result (λ p. reverse p.others.items ≡ spec.others_in clauses) }
{
    let mut left = clauses;
    let mut found = Parted {
        texts: Vec::new(alloc),
        others: Vec::new(alloc),
    };
    while let Some(clause) = left.pop() {
        found = with_clause(found, clause, alloc)?;
    }
    Ok(found)
}
