//! What membership by form asks of a relation, a function or a sequence once its parts are members.

ghost use Rattle.std.specs.Prelude.{◌≡◌, map, IfOk};
ghost use Rattle.b_funsets.specs.Arrows.{first, second};
ghost use Rattle.b_values.specs.Values as values;
ghost use Rattle.b_rows.specs.Tests as spec;

use b_setops::is_sequence;
use b_tree::{Family, SetOperator};
use b_values::{Value, make_set, same_value};
use std::alloc::{AllocError, Global};

/// The first part of a couple; of another value that value.
pub fn first_part(v: &Value) -> &Value
    ensures { result.now ≡ first v.now }
{
    match v {
        Value::Pair(a, _) => a.get(),
        _ => v,
    }
}

/// The second part of a couple; of another value that value.
pub fn second_part(v: &Value) -> &Value
    ensures { result.now ≡ second v.now }
{
    match v {
        Value::Pair(_, b) => b.get(),
        _ => v,
    }
}

fn first_parts(alloc: Global, members: &[Value]) -> Result<Vec<Value>, AllocError>
    ensures { IfOk result (λ v. v.items ≡ map first members.now) }
{
    let mut found = Vec::new(alloc);
    for m in members {
        found.push(first_part(m).share()?)?;
    }
    Ok(found)
}

fn second_parts(alloc: Global, members: &[Value]) -> Result<Vec<Value>, AllocError>
    ensures { IfOk result (λ v. v.items ≡ map second members.now) }
{
    let mut found = Vec::new(alloc);
    for m in members {
        found.push(second_part(m).share()?)?;
    }
    Ok(found)
}

fn domain(alloc: Global, r: &Value) -> Result<Value, AllocError>
    ensures { IfOk result (λ v. v ≡ spec.domain_of r.now) }
{
    make_set(alloc, first_parts(alloc, r.members())?)
}

fn range(alloc: Global, r: &Value) -> Result<Value, AllocError>
    ensures { IfOk result (λ v. v ≡ spec.range_of r.now) }
{
    make_set(alloc, second_parts(alloc, r.members())?)
}

fn is_functional(alloc: Global, r: &Value) -> Result<bool, AllocError>
    ensures { IfOk result (λ b. b ≡ spec.is_functional r.now) }
{
    let domain = domain(alloc, r)?;
    Ok(domain.members().len() == r.members().len())
}

fn is_one_to_one(alloc: Global, r: &Value) -> Result<bool, AllocError>
    ensures { IfOk result (λ b. b ≡ spec.is_one_to_one r.now) }
{
    let range = range(alloc, r)?;
    Ok(range.members().len() == r.members().len())
}

fn asks_function(op: SetOperator) -> bool
    ensures { result ≡ spec.functional op }
{
    !matches!(
        op,
        SetOperator::Interval | SetOperator::Product | SetOperator::Relations
    )
}

/// Whether the domain of a member is the whole left side.
pub fn asks_total(op: SetOperator) -> bool
    ensures { result ≡ spec.total op }
{
    matches!(
        op,
        SetOperator::TotalFunctions
            | SetOperator::TotalInjections
            | SetOperator::TotalSurjections
            | SetOperator::TotalBijections
    )
}

fn asks_one_to_one(op: SetOperator) -> bool
    ensures { result ≡ spec.one_to_one op }
{
    matches!(
        op,
        SetOperator::PartialInjections | SetOperator::TotalInjections | SetOperator::TotalBijections
    )
}

/// Whether the range of a member is the whole right side.
pub fn asks_onto(op: SetOperator) -> bool
    ensures { result ≡ spec.onto op }
{
    matches!(
        op,
        SetOperator::PartialSurjections
            | SetOperator::TotalSurjections
            | SetOperator::TotalBijections
    )
}

/// Whether a relation is functional and one-to-one, where the arrow asks for it.
pub fn has_shape(alloc: Global, op: SetOperator, r: &Value) -> Result<bool, AllocError>
    ensures { IfOk result (λ b. b ≡ spec.has_shape op r.now) }
{
    if asks_function(op) && !is_functional(alloc, r)? {
        return Ok(false);
    }
    if asks_one_to_one(op) {
        is_one_to_one(alloc, r)
    } else {
        Ok(true)
    }
}

/// Whether a set is the domain of a relation.
pub fn is_domain(alloc: Global, s: &Value, r: &Value) -> Result<bool, AllocError>
    ensures { IfOk result (λ b. b ≡ values.same_value s.now (spec.domain_of r.now)) }
{
    let domain = domain(alloc, r)?;
    Ok(same_value(s, &domain))
}

/// Whether a set is the range of a relation.
pub fn is_range(alloc: Global, s: &Value, r: &Value) -> Result<bool, AllocError>
    ensures { IfOk result (λ b. b ≡ values.same_value s.now (spec.range_of r.now)) }
{
    let range = range(alloc, r)?;
    Ok(same_value(s, &range))
}

fn of_sequences(f: Family) -> bool
    ensures { result ≡ spec.of_sequences f }
{
    !matches!(f, Family::Subsets | Family::NonemptySubsets)
}

fn asks_nonempty(f: Family) -> bool
    ensures { result ≡ spec.nonempty f }
{
    matches!(f, Family::NonemptySubsets | Family::NonemptySequences)
}

fn asks_distinct(f: Family) -> bool
    ensures { result ≡ spec.distinct f }
{
    matches!(f, Family::InjectiveSequences | Family::Permutations)
}

/// Whether a member has all elements of the set.
pub fn asks_whole(f: Family) -> bool
    ensures { result ≡ spec.whole f }
{
    matches!(f, Family::Permutations)
}

#[tactic(auto, using(crate::proofs::Kept::sequence_test))]
fn is_a_sequence(v: &Value) -> bool
    ensures { result ≡ spec.is_sequence v.now }
{
    is_sequence(v)
}

/// Whether a value is a sequence, and not empty, where the family asks for it.
pub fn may_begin(f: Family, v: &Value) -> bool
    ensures { result ≡ spec.may_begin f v.now }
{
    if of_sequences(f) && !is_a_sequence(v) {
        return false;
    }
    !asks_nonempty(f) || !v.members().is_empty()
}

/// What is tested of a member: of a sequence's couple the element.
pub fn part(f: Family, x: &Value) -> &Value
    ensures { result.now ≡ spec.part f x.now }
{
    if of_sequences(f) { second_part(x) } else { x }
}

/// Whether no element comes twice, where the family asks for it.
pub fn may_end(alloc: Global, f: Family, v: &Value) -> Result<bool, AllocError>
    ensures { IfOk result (λ b. b ≡ spec.may_end f v.now) }
{
    if asks_distinct(f) {
        is_one_to_one(alloc, v)
    } else {
        Ok(true)
    }
}
