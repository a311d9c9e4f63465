//! What a conjunct offers to a variable, and the first that offers it.
ghost use Rattle.std.specs.Prelude.{◌≡◌, not, ◌&&◌, ◌||◌, Some, IfOk};
ghost use Rattle.b_ranges.specs.Ranges as spec;
ghost use Rattle.b_tree.specs.declared.ExprTree.{out-ExprTree};

use crate::conjuncts::{Conjunct, Help, Relation};
use b_tree::{ExprTree, SetOperator, Sides, Word};
use shared::Shared;
use std::alloc::{AllocError, Global};

/// What is looked for: a kind of range, or one bound of a range of integers.
#[derive(Clone, Copy, Debug, PartialEq, Eq)]
pub enum Kind {
    Equation,
    Listed,
    Lower,
    Upper,
    Subsets,
    Cut,
}

/// What a conjunct offers.
#[derive(Drop)]
pub struct Offer {
    pub by: Shared<ExprTree>,
    /// A bound is left out itself.
    pub strict: bool,
}

/// An offer, with the number of its conjunct.
#[derive(Drop)]
pub struct Found {
    pub number: usize,
    pub offer: Offer,
}

fn plain(e: &Shared<ExprTree>) -> Result<Option<Offer>, AllocError>
    ensures { IfOk result (λ o. o ≡ Some (spec.plain e.now)) }
{
    let by = e.share()?;
    Ok(Some(Offer { by, strict: false }))
}

fn strict(e: &Shared<ExprTree>) -> Result<Option<Offer>, AllocError>
    ensures { IfOk result (λ o. o ≡ Some (spec.strict e.now)) }
{
    let by = e.share()?;
    Ok(Some(Offer { by, strict: true }))
}

fn when(test: bool, e: &Shared<ExprTree>) -> Result<Option<Offer>, AllocError>
    ensures { IfOk result (λ o. o ≡ spec.when test e.now) }
{
    if test { plain(e) } else { Ok(None) }
}

fn number(alloc: Global, n: i128) -> Result<Option<Offer>, AllocError>
    ensures { IfOk result (λ o. o ≡ Some (spec.plain (ExprTree.Number n))) }
{
    let by = Shared::new(alloc, ExprTree::Number(n))?;
    Ok(Some(Offer { by, strict: false }))
}

fn is_range(operator: SetOperator) -> bool
    ensures { result ≡ spec.is_range operator }
{
    match operator {
        SetOperator::Interval => true,
        _ => false,
    }
}

fn is_interval(e: &ExprTree) -> bool
    ensures { result ≡ spec.is_interval e.now }
{
    match e {
        ExprTree::Between(operator, _, _) => is_range(*operator),
        _ => false,
    }
}

fn is_listed(help: &Help) -> bool
    ensures { result ≡ spec.is_listed help.now }
{
    !help.side.endless && !is_interval(help.by.get())
}

fn equation(help: &Help) -> Result<Option<Offer>, AllocError>
    ensures { IfOk result (λ o. o ≡ spec.equation help.now.relation help.now) }
{
    match help.relation {
        Relation::Equal => plain(&help.by),
        _ => Ok(None),
    }
}

fn listed(help: &Help) -> Result<Option<Offer>, AllocError>
    ensures { IfOk result (λ o. o ≡ spec.listed help.now.relation help.now) }
{
    match help.relation {
        Relation::Member => when(is_listed(help), &help.by),
        _ => Ok(None),
    }
}

fn least_between(operator: SetOperator, sides: &Sides) -> Result<Option<Offer>, AllocError>
    ensures { IfOk result (λ o. o ≡ spec.least_between operator sides.now) }
{
    match operator {
        SetOperator::Interval => plain(&sides.left),
        _ => Ok(None),
    }
}

fn least_word(alloc: Global, word: Word) -> Result<Option<Offer>, AllocError>
    ensures { IfOk result (λ o. o ≡ spec.least_word word) }
{
    match word {
        Word::Natural => number(alloc, 0),
        Word::Natural1 => number(alloc, 1),
        _ => Ok(None),
    }
}

fn least(alloc: Global, e: &ExprTree) -> Result<Option<Offer>, AllocError>
    ensures { IfOk result (λ o. o ≡ spec.least_by (out-ExprTree e.now)) }
{
    match e {
        ExprTree::Between(operator, _, sides) => least_between(*operator, sides.get()),
        ExprTree::Word(_, word) => least_word(alloc, *word),
        _ => Ok(None),
    }
}

fn lower(alloc: Global, help: &Help) -> Result<Option<Offer>, AllocError>
    ensures { IfOk result (λ o. o ≡ spec.lower help.now.relation help.now) }
{
    match help.relation {
        Relation::Greater => strict(&help.by),
        Relation::GreaterOrEqual => plain(&help.by),
        Relation::Member => least(alloc, help.by.get()),
        _ => Ok(None),
    }
}

fn greatest_between(operator: SetOperator, sides: &Sides) -> Result<Option<Offer>, AllocError>
    ensures { IfOk result (λ o. o ≡ spec.greatest_between operator sides.now) }
{
    match operator {
        SetOperator::Interval => plain(&sides.right),
        _ => Ok(None),
    }
}

fn greatest(e: &ExprTree) -> Result<Option<Offer>, AllocError>
    ensures { IfOk result (λ o. o ≡ spec.greatest_by (out-ExprTree e.now)) }
{
    match e {
        ExprTree::Between(operator, _, sides) => greatest_between(*operator, sides.get()),
        _ => Ok(None),
    }
}

fn upper(help: &Help) -> Result<Option<Offer>, AllocError>
    ensures { IfOk result (λ o. o ≡ spec.upper help.now.relation help.now) }
{
    match help.relation {
        Relation::Less => strict(&help.by),
        Relation::LessOrEqual => plain(&help.by),
        Relation::Member => greatest(help.by.get()),
        _ => Ok(None),
    }
}

// The set itself or an interval has no need of words without an end.
fn has_subsets(help: &Help) -> bool
    ensures { result ≡ (not help.now.side.endless || spec.is_interval help.now.by) }
{
    !help.side.endless || is_interval(help.by.get())
}

fn subsets(help: &Help) -> Result<Option<Offer>, AllocError>
    ensures { IfOk result (λ o. o ≡ spec.subsets help.now.relation help.now) }
{
    match help.relation {
        Relation::Subset => when(has_subsets(help), &help.by),
        _ => Ok(None),
    }
}

fn can_be_cut(help: &Help) -> bool
    ensures { result ≡ (not (spec.is_listed help.now) && not help.now.side.strings) }
{
    !is_listed(help) && !help.side.strings
}

fn cut(help: &Help) -> Result<Option<Offer>, AllocError>
    ensures { IfOk result (λ o. o ≡ spec.cut help.now.relation help.now) }
{
    match help.relation {
        Relation::Member => when(can_be_cut(help), &help.by),
        _ => Ok(None),
    }
}

fn offered(alloc: Global, kind: Kind, help: &Help) -> Result<Option<Offer>, AllocError>
    ensures { IfOk result (λ o. o ≡ spec.offered kind help.now) }
{
    match kind {
        Kind::Equation => equation(help),
        Kind::Listed => listed(help),
        Kind::Lower => lower(alloc, help),
        Kind::Upper => upper(help),
        Kind::Subsets => subsets(help),
        Kind::Cut => cut(help),
    }
}

fn offered_to(
    alloc: Global,
    kind: Kind,
    variable: usize,
    help: &Option<Help>,
) -> Result<Option<Offer>, AllocError>
    ensures { IfOk result (λ o. o ≡ spec.offered_to kind variable help.now) }
{
    match help {
        None => Ok(None),
        Some(help) => {
            if help.variable == variable {
                offered(alloc, kind, help)
            } else {
                Ok(None)
            }
        }
    }
}

fn offered_in(
    alloc: Global,
    kind: Kind,
    variable: usize,
    conjunct: &Conjunct,
) -> Result<Option<Offer>, AllocError>
    ensures { IfOk result (λ o. o ≡ spec.offered_in kind variable conjunct.now) }
{
    match offered_to(alloc, kind, variable, &conjunct.left)? {
        Some(offer) => Ok(Some(offer)),
        None => offered_to(alloc, kind, variable, &conjunct.right),
    }
}

/// The first conjunct that offers a kind to a variable.
pub fn first_of(
    alloc: Global,
    kind: Kind,
    variable: usize,
    conjuncts: &[Conjunct],
) -> Result<Option<Found>, AllocError>
    ensures { IfOk result (λ f. f ≡ spec.first_of kind variable conjuncts.now) }
{
    for (number, conjunct) in conjuncts.iter().enumerate() {
        if let Some(offer) = offered_in(alloc, kind, variable, conjunct)? {
            return Ok(Some(Found { number, offer }));
        }
    }
    Ok(None)
}
