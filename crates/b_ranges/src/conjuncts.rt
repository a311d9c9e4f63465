//! The conjuncts of a binder's predicate, and what each says of a variable that stands alone on one side.
ghost use Rattle.std.specs.Prelude.{◌≡◌, ◌∷◌, ◌++◌, [], IfOk, map};
ghost use Rattle.b_ranges.specs.Conjuncts as spec;

use crate::sides::{Side, Slots, side_of};
use b_tree::{Clause, Comparison, Connective, ExprTree, Membership, PredTree};
use shared::Shared;
use sqlite_items::Items;
use std::alloc::{AllocError, Global};

/// What is said of a variable by an expression.
#[derive(Clone, Copy, Debug, PartialEq, Eq)]
pub enum Relation {
    Equal,
    Less,
    LessOrEqual,
    Greater,
    GreaterOrEqual,
    Member,
    /// `<:`, `<<:`
    Subset,
}

/// What a conjunct says of a variable that stands alone on one side.
#[derive(Drop)]
pub struct Help {
    /// The variable's number in its binder.
    pub variable: usize,
    pub relation: Relation,
    /// The other side, and what it mentions.
    pub by: Shared<ExprTree>,
    pub side: Side,
}

/// A conjunct: what it says of a variable on its left side, and on its right one.
#[derive(Drop)]
pub struct Conjunct {
    pub left: Option<Help>,
    pub right: Option<Help>,
}

// ---- one conjunct

fn variable_at(slots: Slots, slot: usize) -> Option<usize>
    ensures { result ≡ spec.variable_at slots slot }
{
    if slot < slots.base {
        None
    } else if slot - slots.base < slots.count {
        Some(slot - slots.base)
    } else {
        None
    }
}

fn variable_in(slots: Slots, e: &ExprTree) -> Option<usize>
    ensures { result ≡ spec.variable_in slots e.now }
{
    match e {
        ExprTree::Slot(slot) => variable_at(slots, *slot),
        _ => None,
    }
}

fn relation_of(operator: Comparison) -> Option<Relation>
    ensures { result ≡ spec.relation_of operator }
{
    match operator {
        Comparison::Equal => Some(Relation::Equal),
        Comparison::Less => Some(Relation::Less),
        Comparison::LessOrEqual => Some(Relation::LessOrEqual),
        Comparison::Greater => Some(Relation::Greater),
        Comparison::GreaterOrEqual => Some(Relation::GreaterOrEqual),
        Comparison::StrictSubset => Some(Relation::Subset),
        _ => None,
    }
}

// With the sides exchanged.
fn exchanged(operator: Comparison) -> Option<Relation>
    ensures { result ≡ spec.exchanged operator }
{
    match operator {
        Comparison::Equal => Some(Relation::Equal),
        Comparison::Less => Some(Relation::Greater),
        Comparison::LessOrEqual => Some(Relation::GreaterOrEqual),
        Comparison::Greater => Some(Relation::Less),
        Comparison::GreaterOrEqual => Some(Relation::LessOrEqual),
        _ => None,
    }
}

fn relation_in(operator: Membership) -> Option<Relation>
    ensures { result ≡ spec.relation_in operator }
{
    match operator {
        Membership::Member => Some(Relation::Member),
        Membership::Subset => Some(Relation::Subset),
        _ => None,
    }
}

// The other side must name none of the binder's variables but earlier ones.
fn helped(
    slots: Slots,
    relation: Relation,
    variable: usize,
    e: &Shared<ExprTree>,
) -> Result<Option<Help>, AllocError>
    ensures { IfOk result (λ h. h ≡ spec.helped slots relation variable e.now) }
{
    let side = side_of(e.get(), slots);
    if side.needs <= variable {
        let by = e.share()?;
        Ok(Some(Help {
            variable,
            relation,
            by,
            side,
        }))
    } else {
        Ok(None)
    }
}

// What is said of `x` by `e`, if x is a variable.
fn said_of(
    slots: Slots,
    relation: Option<Relation>,
    x: &ExprTree,
    e: &Shared<ExprTree>,
) -> Result<Option<Help>, AllocError>
    ensures { IfOk result (λ h. h ≡ spec.said_of slots relation x.now e.now) }
{
    match relation {
        None => Ok(None),
        Some(relation) => match variable_in(slots, x) {
            None => Ok(None),
            Some(variable) => helped(slots, relation, variable, e),
        },
    }
}

fn helpless() -> Conjunct
    ensures { result ≡ spec.helpless }
{
    Conjunct {
        left: None,
        right: None,
    }
}

fn compared(
    slots: Slots,
    operator: Comparison,
    a: &Shared<ExprTree>,
    b: &Shared<ExprTree>,
) -> Result<Conjunct, AllocError>
    ensures { IfOk result (λ c. c ≡ spec.compared slots operator a.now b.now) }
{
    let left = said_of(slots, relation_of(operator), a.get(), b)?;
    let right = said_of(slots, exchanged(operator), b.get(), a)?;
    Ok(Conjunct { left, right })
}

fn tested(
    slots: Slots,
    operator: Membership,
    a: &Shared<ExprTree>,
    b: &Shared<ExprTree>,
) -> Result<Conjunct, AllocError>
    ensures { IfOk result (λ c. c ≡ spec.tested slots operator a.now b.now) }
{
    let left = said_of(slots, relation_in(operator), a.get(), b)?;
    Ok(Conjunct { left, right: None })
}

// ---- the conjuncts of a predicate

fn one(alloc: Global, conjunct: Conjunct) -> Result<Items<Conjunct>, AllocError>
    ensures { IfOk result (λ cs. cs ≡ conjunct ∷ []) }
{
    let mut list = Items::new(alloc);
    list.push(conjunct)?;
    Ok(list)
}

fn both(first: Items<Conjunct>, more: Items<Conjunct>) -> Result<Items<Conjunct>, AllocError>
    ensures { IfOk result (λ cs. cs ≡ first ++ more) }
{
    let mut list = first;
    list.append(more)?;
    Ok(list)
}

fn compared_alone(
    alloc: Global,
    slots: Slots,
    operator: Comparison,
    a: &Shared<ExprTree>,
    b: &Shared<ExprTree>,
) -> Result<Items<Conjunct>, AllocError>
    ensures { IfOk result (λ cs. cs ≡ spec.compared slots operator a.now b.now ∷ []) }
{
    let conjunct = compared(slots, operator, a, b)?;
    one(alloc, conjunct)
}

fn tested_alone(
    alloc: Global,
    slots: Slots,
    operator: Membership,
    a: &Shared<ExprTree>,
    b: &Shared<ExprTree>,
) -> Result<Items<Conjunct>, AllocError>
    ensures { IfOk result (λ cs. cs ≡ spec.tested slots operator a.now b.now ∷ []) }
{
    let conjunct = tested(slots, operator, a, b)?;
    one(alloc, conjunct)
}

/// The conjuncts of a predicate's `&` tree, left to right.
#[cycle(conjuncts)]
pub fn conjuncts_of(
    p: &PredTree,
    alloc: Global,
    slots: Slots,
) -> Result<Items<Conjunct>, AllocError>
    ensures { IfOk result (λ cs. cs ≡ spec.conjuncts_of slots p.now) }
{
    match p {
        PredTree::True => Ok(Items::new(alloc)),
        PredTree::Compare(operator, a, b) => compared_alone(alloc, slots, *operator, a, b),
        PredTree::Member(operator, a, b) => tested_alone(alloc, slots, *operator, a, b),
        PredTree::Chain(first, clauses) => {
            let begun = conjuncts_of(first.get(), alloc, slots)?;
            each_joined(clauses.as_slice(), alloc, slots, begun)
        }
        PredTree::Not(_) => one(alloc, helpless()),
        PredTree::Exists(_) => one(alloc, helpless()),
        PredTree::ForAll(_) => one(alloc, helpless()),
    }
}

#[cycle(conjuncts)]
fn each_joined(
    clauses: &[Clause],
    alloc: Global,
    slots: Slots,
    first: Items<Conjunct>,
) -> Result<Items<Conjunct>, AllocError>
    ensures { IfOk result (λ cs. cs ≡ spec.each_joined (map (spec.clause_reading slots) clauses.now) clauses.now first) }
{
    let mut so_far = first;
    for clause in clauses {
        so_far = joined(clause, alloc, slots, so_far)?;
    }
    Ok(so_far)
}

#[cycle(conjuncts)]
fn joined(
    clause: &Clause,
    alloc: Global,
    slots: Slots,
    so_far: Items<Conjunct>,
) -> Result<Items<Conjunct>, AllocError>
    ensures { IfOk result (λ cs. cs ≡ spec.clause_reading slots clause.now clause.now so_far) }
{
    match clause.connective {
        Connective::And => {
            let more = conjuncts_of(&clause.predicate, alloc, slots)?;
            both(so_far, more)
        }
        _ => one(alloc, helpless()),
    }
}
