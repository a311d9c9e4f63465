ghost use Rattle.std.specs.Prelude.{◌≡◌, ◌+◌, ◌-◌, ◌++◌, ◌∷◌, [], ◌≤◌, pos, length, take, drop, slice_get, List, Option, Some, None, Ok, Err, IfOk, MatchOption, option_and_then};
ghost use Rattle.std.specs.Option.{option_map};
ghost use Rattle.b_values.specs.Reading.{numbered};
ghost use Rattle.b_values.specs.Values.{IsKept};
ghost use Rattle.b_values.specs.declared.values.FaultKind.TheVariants.{IllDefined};
ghost use Rattle.b_values.specs.declared.values.Value.{Value, out-Value};
ghost use Rattle.b_values.specs.declared.values.Value.TheVariants.{Int};
ghost use Rattle.set_making.specs.Making.{Answers};
ghost use Rattle.b_sequences.specs.Sequences.{IsSequence, IsNonempty, as_sequence, seconds, sequence_of};
ghost use Rattle.b_sequences.specs.Numbering.{AreNumbered};
ghost use Rattle.b_sequences.specs.Rows as spec;
ghost use Rattle.b_sequences.specs.Rows.{size_row, first_row, last_row, front_row, tail_row, take_row, drop_first_row, all_but_last, all_but_first};

use crate::answers::{answer_sequence, answer_value};
use crate::numbering::{couples_of, front_of, part_at, renumbered};
use b_values::Value;
use set_making::OpFault;
use sqlite_items::Items;
use std::alloc::{AllocError, Global};

/// `size(s)`, the number of elements.
pub fn size(_alloc: Global, s: &Value) -> Result<Value, OpFault>
    requires { IsKept s.now }
    ensures value { Answers (size_row s.now) result }
    ensures kept { IfOk result (λ v. IsKept v) }
    ensures by_list { (xs : List Value) → s.now ≡ sequence_of xs → Answers (Ok (Int (pos (length xs)))) result }
    ensures otherwise { (IsSequence s.now → ⊥) → Answers (Err IllDefined) result }
{
    answer_value(Ok(size_of(s)))
}

/// `first(s)`, the first element.
pub fn first(_alloc: Global, s: &Value) -> Result<Value, OpFault>
    requires { IsKept s.now }
    ensures value { Answers (first_row s.now) result }
    ensures kept { IfOk result (λ v. IsKept v) }
    ensures by_list { (x : Value) (xs : List Value) → s.now ≡ sequence_of (x ∷ xs) → Answers (Ok x) result }
    ensures otherwise { (IsNonempty s.now → ⊥) → Answers (Err IllDefined) result }
{
    answer_value(first_part(s))
}

/// `last(s)`, the last element.
pub fn last(_alloc: Global, s: &Value) -> Result<Value, OpFault>
    requires { IsKept s.now }
    ensures value { Answers (last_row s.now) result }
    ensures kept { IfOk result (λ v. IsKept v) }
    ensures by_list { (x : Value) (xs : List Value) → s.now ≡ sequence_of (xs ++ x ∷ []) → Answers (Ok x) result }
    ensures otherwise { (IsNonempty s.now → ⊥) → Answers (Err IllDefined) result }
{
    answer_value(last_part(s))
}

/// `front(s)`, all but the last element.
pub fn front(alloc: Global, s: &Value) -> Result<Value, OpFault>
    requires { IsKept s.now }
    ensures value { Answers (front_row s.now) result }
    ensures kept { IfOk result (λ v. IsKept v) }
    ensures by_list { (x : Value) (xs : List Value) → s.now ≡ sequence_of (xs ++ x ∷ []) → Answers (Ok (sequence_of xs)) result }
    ensures otherwise { (IsNonempty s.now → ⊥) → Answers (Err IllDefined) result }
{
    answer_sequence(alloc, front_couples(alloc, s))
}

/// `tail(s)`, all but the first element.
pub fn tail(alloc: Global, s: &Value) -> Result<Value, OpFault>
    requires { IsKept s.now }
    ensures value { Answers (tail_row s.now) result }
    ensures kept { IfOk result (λ v. IsKept v) }
    ensures by_list { (x : Value) (xs : List Value) → s.now ≡ sequence_of (x ∷ xs) → Answers (Ok (sequence_of xs)) result }
    ensures otherwise { (IsNonempty s.now → ⊥) → Answers (Err IllDefined) result }
{
    answer_sequence(alloc, tail_couples(alloc, s))
}

/// `s /|\ n`, the first `n` elements.
pub fn take(alloc: Global, s: &Value, n: &Value) -> Result<Value, OpFault>
    requires sequence { IsKept s.now }
    requires number { IsKept n.now }
    ensures value { Answers (take_row s.now n.now) result }
    ensures kept { IfOk result (λ v. IsKept v) }
    ensures by_lists { (xs ys : List Value) → s.now ≡ sequence_of (xs ++ ys) → n.now ≡ Int (pos (length xs))
        → Answers (Ok (sequence_of xs)) result }
    ensures otherwise { ((xs ys : List Value) → s.now ≡ sequence_of (xs ++ ys) → n.now ≡ Int (pos (length xs)) → ⊥)
        → Answers (Err IllDefined) result }
{
    answer_sequence(alloc, taken_couples(alloc, s, n))
}

/// `s \|/ n`, all elements after the first `n`.
pub fn drop_first(alloc: Global, s: &Value, n: &Value) -> Result<Value, OpFault>
    requires sequence { IsKept s.now }
    requires number { IsKept n.now }
    ensures value { Answers (drop_first_row s.now n.now) result }
    ensures kept { IfOk result (λ v. IsKept v) }
    ensures by_lists { (xs ys : List Value) → s.now ≡ sequence_of (xs ++ ys) → n.now ≡ Int (pos (length xs))
        → Answers (Ok (sequence_of ys)) result }
    ensures otherwise { ((xs ys : List Value) → s.now ≡ sequence_of (xs ++ ys) → n.now ≡ Int (pos (length xs)) → ⊥)
        → Answers (Err IllDefined) result }
{
    answer_sequence(alloc, left_couples(alloc, s, n))
}

fn size_of(s: &Value) -> Option<Value>
    ensures { result ≡ option_map (λ xs. Int (pos (length xs))) (as_sequence s.now) }
{
    match couples_of(s) {
        Some(couples) => Some(how_many(couples)),
        None => None,
    }
}

fn how_many(couples: &[Value]) -> Value
    ensures { result ≡ Int (pos (length couples.now)) }
{
    Value::Int(i128::from(couples.len() as u64))
}

fn first_part(s: &Value) -> Result<Option<Value>, AllocError>
    ensures { IfOk result (λ x. x ≡ option_and_then (λ xs. slice_get xs 0) (as_sequence s.now)) }
{
    match couples_of(s) {
        Some(couples) => part_at(couples, 0),
        None => Ok(None),
    }
}

fn last_part(s: &Value) -> Result<Option<Value>, AllocError>
    ensures { IfOk result (λ x. x ≡ option_and_then (λ xs. slice_get xs (length xs - 1)) (as_sequence s.now)) }
{
    match couples_of(s) {
        Some(couples) => part_at(couples, couples.len().saturating_sub(1)),
        None => Ok(None),
    }
}

fn front_couples(alloc: Global, s: &Value) -> Result<Option<Items<Value>>, AllocError>
    ensures { IfOk result (λ cs. cs ≡ option_map (numbered 1) (option_and_then all_but_last (as_sequence s.now))) }
{
    match couples_of(s) {
        Some(couples) => but_last(alloc, couples),
        None => Ok(None),
    }
}

fn but_last(alloc: Global, couples: &[Value]) -> Result<Option<Items<Value>>, AllocError>
    requires { AreNumbered couples.now }
    ensures { IfOk result (λ cs. cs ≡ option_map (numbered 1) (all_but_last (seconds couples.now))) }
{
    if couples.is_empty() {
        Ok(None)
    } else {
        Ok(Some(front_of(alloc, couples, couples.len() - 1)?))
    }
}

fn tail_couples(alloc: Global, s: &Value) -> Result<Option<Items<Value>>, AllocError>
    ensures { IfOk result (λ cs. cs ≡ option_map (numbered 1) (option_and_then all_but_first (as_sequence s.now))) }
{
    match couples_of(s) {
        Some(couples) => but_first(alloc, couples),
        None => Ok(None),
    }
}

fn but_first(alloc: Global, couples: &[Value]) -> Result<Option<Items<Value>>, AllocError>
    requires { AreNumbered couples.now }
    ensures { IfOk result (λ cs. cs ≡ option_map (numbered 1) (all_but_first (seconds couples.now))) }
{
    if couples.is_empty() {
        Ok(None)
    } else {
        Ok(Some(renumbered(alloc, couples.split_at(1).1)?))
    }
}

fn taken_couples(alloc: Global, s: &Value, n: &Value) -> Result<Option<Items<Value>>, AllocError>
    ensures { IfOk result (λ cs. cs ≡ option_map (numbered 1) (option_and_then (λ xs. option_map (λ k. take k xs) (spec.number_within (length xs) (out-Value n.now))) (as_sequence s.now))) }
{
    match couples_of(s) {
        Some(couples) => first_couples(alloc, couples, n),
        None => Ok(None),
    }
}

fn first_couples(
    alloc: Global,
    couples: &[Value],
    n: &Value,
) -> Result<Option<Items<Value>>, AllocError>
    requires { AreNumbered couples.now }
    ensures { IfOk result (λ cs. cs ≡ option_map (numbered 1)
        (option_map (λ k. take k (seconds couples.now)) (spec.number_within (length couples.now) (out-Value n.now)))) }
{
    match number_within(couples.len(), n) {
        Some(k) => Ok(Some(front_of(alloc, couples, k)?)),
        None => Ok(None),
    }
}

fn left_couples(alloc: Global, s: &Value, n: &Value) -> Result<Option<Items<Value>>, AllocError>
    ensures { IfOk result (λ cs. cs ≡ option_map (numbered 1) (option_and_then (λ xs. option_map (λ k. drop k xs) (spec.number_within (length xs) (out-Value n.now))) (as_sequence s.now))) }
{
    match couples_of(s) {
        Some(couples) => later_couples(alloc, couples, n),
        None => Ok(None),
    }
}

fn later_couples(
    alloc: Global,
    couples: &[Value],
    n: &Value,
) -> Result<Option<Items<Value>>, AllocError>
    requires { AreNumbered couples.now }
    ensures { IfOk result (λ cs. cs ≡ option_map (numbered 1)
        (option_map (λ k. drop k (seconds couples.now)) (spec.number_within (length couples.now) (out-Value n.now)))) }
{
    match number_within(couples.len(), n) {
        Some(k) => Ok(Some(renumbered(alloc, couples.split_at(k).1)?)),
        None => Ok(None),
    }
}

/// The number, where it is one from 0 to the limit.
fn number_within(limit: usize, n: &Value) -> Option<usize>
    ensures value { result ≡ spec.number_within limit (out-Value n.now) }
    ensures within { MatchOption result (Unit {0}) (λ k. k ≤ limit) }
{
    match n {
        Value::Int(k) => index_within(limit, *k),
        _ => None,
    }
}

fn index_within(limit: usize, n: i128) -> Option<usize>
    ensures value { result ≡ spec.index_within limit n }
    ensures within { MatchOption result (Unit {0}) (λ k. k ≤ limit) }
{
    if n < 0 || n > limit as i128 {
        None
    } else {
        Some(n as usize)
    }
}
