ghost use Rattle.std.specs.Prelude.{◌≡◌, ◌↔◌, ◌+◌, ◌++◌, ◌∷◌, ◌≤◌, [], pos, length, take, reverse, slice_get, Some, None, List, IsTrue, IfOk, OnOk, MatchOption, option_and_then};
ghost use Rattle.b_values.specs.Reading.{numbered};
ghost use Rattle.b_values.specs.declared.values.Value.{Value, out-Value};
ghost use Rattle.b_values.specs.declared.values.Value.TheVariants.{Int, Pair};
ghost use Rattle.b_sequences.specs.Sequences.{IsSequence, as_sequence, second, seconds, sequence_of};
ghost use Rattle.b_sequences.specs.Numbering as spec;
ghost use Rattle.b_sequences.specs.Numbering.{AreNumbered, HasCouples};

use b_values::{Value, share_all};
use shared::Shared;
use sqlite_items::{Items, at};
use std::alloc::{AllocError, Global};

/// Whether a value is a sequence, in one pass over its couples.
pub fn is_sequence(v: &Value) -> bool
    ensures sequence { IsTrue result ↔ IsSequence v.now }
    ensures list { (xs : List Value) → (as_sequence v.now ≡ Some xs) ↔ (v.now ≡ sequence_of xs) }
{
    couples_of(v).is_some()
}

/// The couples of a sequence in order; None where the value is none.
pub(crate) fn couples_of(v: &Value) -> Option<&[Value]>
    ensures { MatchOption result (as_sequence v.now ≡ None) (λ cs. HasCouples v.now cs.now) }
{
    match v {
        Value::Set(xs) => {
            let couples = xs.get().as_slice();
            if are_numbered(couples) {
                Some(couples)
            } else {
                None
            }
        }
        _ => None,
    }
}

fn are_numbered(couples: &[Value]) -> bool
    ensures { IsTrue result ↔ AreNumbered couples.now }
{
    for (i, couple) in couples.iter().enumerate() {
        if !stands_at(couple, i as u64 + 1) {
            return false;
        }
    }
    true
}

fn stands_at(couple: &Value, n: u64) -> bool
    ensures { result ≡ spec.stands_at n (out-Value couple.now) }
{
    match couple {
        Value::Pair(a, _) => is_number(a.get(), n),
        _ => false,
    }
}

fn is_number(v: &Value, n: u64) -> bool
    ensures { result ≡ spec.is_number n (out-Value v.now) }
{
    match v {
        Value::Int(k) => *k == i128::from(n),
        _ => false,
    }
}

/// The second part of the couple at a place, sharing its parts.
pub(crate) fn part_at(couples: &[Value], place: usize) -> Result<Option<Value>, AllocError>
    ensures { IfOk result (λ part. part ≡ option_and_then second (slice_get couples.now place)) }
{
    match at(couples, place) {
        Some(couple) => part_of(couple),
        None => Ok(None),
    }
}

fn part_of(couple: &Value) -> Result<Option<Value>, AllocError>
    ensures { IfOk result (λ part. part ≡ second couple.now) }
{
    match couple {
        Value::Pair(_, b) => Ok(Some(b.get().share()?)),
        _ => Ok(None),
    }
}

/// The first `n` couples, shared.
pub(crate) fn front_of(
    alloc: Global,
    couples: &[Value],
    n: usize,
) -> Result<Items<Value>, AllocError>
    requires { n ≤ length couples.now }
    ensures { IfOk result (λ front. front ≡ take n couples.now) }
{
    share_all(alloc, couples.split_at(n).0)
}

/// The second parts of these couples, numbered from 1.
pub(crate) fn renumbered(alloc: Global, couples: &[Value]) -> Result<Items<Value>, AllocError>
    ensures { IfOk result (λ all. all ≡ numbered 1 (seconds couples.now)) }
{
    let mut all = Items::new(alloc);
    push_parts(alloc, &mut all, couples)?;
    Ok(all)
}

/// The second parts of these couples in the other order, numbered from 1.
pub(crate) fn turned(alloc: Global, couples: &[Value]) -> Result<Items<Value>, AllocError>
    ensures { IfOk result (λ all. all ≡ numbered 1 (seconds (reverse couples.now))) }
{
    let mut back = Items::new(alloc);
    for couple in couples.iter().rev() {
        push_second(alloc, &mut back, couple)?;
    }
    Ok(back)
}

/// Puts the second parts of more couples at the end, with the next numbers.
pub(crate) fn push_parts(
    alloc: Global,
    all: &mut Items<Value>,
    more: &[Value],
) -> Result<(), AllocError>
    ensures { OnOk result (all.new ≡ all.old ++ numbered (length all.old + 1) (seconds more.now)) }
{
    for couple in more {
        push_second(alloc, all, couple)?;
    }
    Ok(())
}

fn push_second(alloc: Global, all: &mut Items<Value>, couple: &Value) -> Result<(), AllocError>
    ensures { OnOk result (all.new ≡ all.old ++ numbered (length all.old + 1) (seconds (couple.now ∷ []))) }
{
    if let Value::Pair(_, part) = couple {
        push_part(alloc, all, part.share()?)
    } else {
        Ok(())
    }
}

/// Puts a couple with the next number and this part at the end.
pub(crate) fn push_part(
    alloc: Global,
    all: &mut Items<Value>,
    part: Shared<Value>,
) -> Result<(), AllocError>
    ensures { OnOk result (all.new ≡ all.old ++ Pair (Int (pos (length all.old + 1))) part ∷ []) }
{
    let n = all.as_slice().len() as u64 + 1;
    all.push(couple_at(alloc, n, part)?)
}

fn couple_at(alloc: Global, n: u64, part: Shared<Value>) -> Result<Value, AllocError>
    ensures { IfOk result (λ v. v ≡ Pair (Int (pos n)) part) }
{
    Ok(Value::Pair(Shared::new(alloc, Value::Int(i128::from(n)))?, part))
}
