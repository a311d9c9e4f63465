//! The range of each variable of a binder.
ghost use Rattle.std.specs.Prelude.{◌≡◌, IfOk};
ghost use Rattle.b_ranges.specs.Ranges as spec;

use crate::conjuncts::{Conjunct, conjuncts_of};
use crate::offers::{Found, Kind, first_of};
use crate::sides::Slots;
use b_tree::{Bounds, ExprTree, PredTree};
use shared::Shared;
use sqlite_items::Items;
use std::alloc::{AllocError, Global};

/// The range of a variable by the conjuncts of its binder's predicate. Its expressions are those of the predicate, shared.
#[derive(Drop)]
pub enum Range {
    /// `x = E`: E alone.
    Only(Shared<ExprTree>),
    /// `x : E`: the members of E.
    Members(Shared<ExprTree>),
    /// The integers between a lower and an upper bound.
    Numbers(Bounds, Shared<ExprTree>, Shared<ExprTree>),
    /// `x <: E`: the subsets of E.
    Subsets(Shared<ExprTree>),
    /// `x : E` in the conjunct of this number, counted from 0: the members of E with its words cut.
    Cut(usize, Shared<ExprTree>),
    /// All values of the variable's type.
    Whole,
}

fn numbers(lower: Found, upper: Found) -> Range
    ensures { result ≡ spec.numbers lower upper }
{
    let upper_first = upper.number < lower.number;
    let bounds = Bounds {
        above: lower.offer.strict,
        below: upper.offer.strict,
        upper_first,
    };
    Range::Numbers(bounds, lower.offer.by, upper.offer.by)
}

fn from_kind_5(alloc: Global, variable: usize, conjuncts: &[Conjunct]) -> Result<Range, AllocError>
    ensures { IfOk result (λ r. r ≡ spec.from_kind_5 variable conjuncts.now) }
{
    match first_of(alloc, Kind::Cut, variable, conjuncts)? {
        Some(found) => Ok(Range::Cut(found.number, found.offer.by)),
        None => Ok(Range::Whole),
    }
}

fn from_kind_4(alloc: Global, variable: usize, conjuncts: &[Conjunct]) -> Result<Range, AllocError>
    ensures { IfOk result (λ r. r ≡ spec.from_kind_4 variable conjuncts.now) }
{
    match first_of(alloc, Kind::Subsets, variable, conjuncts)? {
        Some(found) => Ok(Range::Subsets(found.offer.by)),
        None => from_kind_5(alloc, variable, conjuncts),
    }
}

fn from_lower(
    alloc: Global,
    variable: usize,
    conjuncts: &[Conjunct],
    lower: Found,
) -> Result<Range, AllocError>
    ensures { IfOk result (λ r. r ≡ spec.from_lower variable conjuncts.now lower) }
{
    match first_of(alloc, Kind::Upper, variable, conjuncts)? {
        Some(upper) => Ok(numbers(lower, upper)),
        None => from_kind_4(alloc, variable, conjuncts),
    }
}

fn from_kind_3(alloc: Global, variable: usize, conjuncts: &[Conjunct]) -> Result<Range, AllocError>
    ensures { IfOk result (λ r. r ≡ spec.from_kind_3 variable conjuncts.now) }
{
    match first_of(alloc, Kind::Lower, variable, conjuncts)? {
        Some(lower) => from_lower(alloc, variable, conjuncts, lower),
        None => from_kind_4(alloc, variable, conjuncts),
    }
}

fn from_kind_2(alloc: Global, variable: usize, conjuncts: &[Conjunct]) -> Result<Range, AllocError>
    ensures { IfOk result (λ r. r ≡ spec.from_kind_2 variable conjuncts.now) }
{
    match first_of(alloc, Kind::Listed, variable, conjuncts)? {
        Some(found) => Ok(Range::Members(found.offer.by)),
        None => from_kind_3(alloc, variable, conjuncts),
    }
}

fn range_of(alloc: Global, variable: usize, conjuncts: &[Conjunct]) -> Result<Range, AllocError>
    ensures { IfOk result (λ r. r ≡ spec.range_of variable conjuncts.now) }
{
    match first_of(alloc, Kind::Equation, variable, conjuncts)? {
        Some(found) => Ok(Range::Only(found.offer.by)),
        None => from_kind_2(alloc, variable, conjuncts),
    }
}

fn first_ranges(
    alloc: Global,
    count: usize,
    conjuncts: &[Conjunct],
) -> Result<Items<Range>, AllocError>
    ensures { IfOk result (λ rs. rs ≡ spec.first_ranges count conjuncts.now) }
{
    let mut list = Items::new(alloc);
    for variable in 0..count {
        let range = range_of(alloc, variable, conjuncts)?;
        list.push(range)?;
    }
    Ok(list)
}

/// The range of each variable of a binder with this predicate.
pub fn ranges(alloc: Global, slots: Slots, predicate: &PredTree) -> Result<Items<Range>, AllocError>
    ensures { IfOk result (λ rs. rs ≡ spec.ranges slots predicate.now) }
{
    let conjuncts = conjuncts_of(predicate, alloc, slots)?;
    first_ranges(alloc, slots.count, conjuncts.as_slice())
}
