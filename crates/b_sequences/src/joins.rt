ghost use Rattle.std.specs.Prelude.{◌≡◌, ◌+◌, ◌++◌, ◌∷◌, [], length, reverse, map, List, Option, Some, None, Ok, Err, IfOk, OnOk, option_and_then};
ghost use Rattle.std.specs.Option.{option_map};
ghost use Rattle.std.specs.List.{flat_map};
ghost use Rattle.b_values.specs.Reading.{numbered};
ghost use Rattle.b_values.specs.Values.{IsKept, limited};
ghost use Rattle.b_values.specs.declared.values.FaultKind.TheVariants.{IllDefined};
ghost use Rattle.b_values.specs.declared.values.Value.{Value};
ghost use Rattle.set_making.specs.Making.{Answers};
ghost use Rattle.b_sequences.specs.Sequences.{IsSequence, as_sequence, second, seconds, sequence_of};
ghost use Rattle.b_sequences.specs.Joining.{PushesList};
ghost use Rattle.b_sequences.specs.Rows as spec;
ghost use Rattle.b_sequences.specs.Rows.{rev_row, concat_row, prepend_row, append_row, conc_row};

use crate::answers::answer_sequence;
use crate::numbering::{couples_of, push_part, push_parts, turned};
use b_values::{Value, share_all};
use set_making::OpFault;
use shared::Shared;
use sqlite_items::Items;
use std::alloc::{AllocError, Global};

/// `rev(s)`, the elements in the other order.
pub fn rev(alloc: Global, s: &Value) -> Result<Value, OpFault>
    requires { IsKept s.now }
    ensures value { Answers (rev_row s.now) result }
    ensures kept { IfOk result (λ v. IsKept v) }
    ensures by_list { (xs : List Value) → s.now ≡ sequence_of xs → Answers (Ok (sequence_of (reverse xs))) result }
    ensures otherwise { (IsSequence s.now → ⊥) → Answers (Err IllDefined) result }
{
    answer_sequence(alloc, turned_couples(alloc, s))
}

/// `s ^ t`, the elements of one after those of the other.
pub fn concat(alloc: Global, s: &Value, t: &Value) -> Result<Value, OpFault>
    requires left { IsKept s.now }
    requires right { IsKept t.now }
    ensures value { Answers (concat_row s.now t.now) result }
    ensures kept { IfOk result (λ v. IsKept v) }
    ensures by_lists { (xs ys : List Value) → s.now ≡ sequence_of xs → t.now ≡ sequence_of ys → Answers (limited (sequence_of (xs ++ ys))) result }
    ensures otherwise { (IsSequence s.now × IsSequence t.now → ⊥) → Answers (Err IllDefined) result }
{
    answer_sequence(alloc, couples_of_both(alloc, s, t))
}

/// `x -> s`, an element before the others.
pub fn prepend(alloc: Global, x: &Value, s: &Value) -> Result<Value, OpFault>
    requires element { IsKept x.now }
    requires sequence { IsKept s.now }
    ensures value { Answers (prepend_row x.now s.now) result }
    ensures kept { IfOk result (λ v. IsKept v) }
    ensures by_list { (xs : List Value) → s.now ≡ sequence_of xs → Answers (limited (sequence_of (x.now ∷ xs))) result }
    ensures otherwise { (IsSequence s.now → ⊥) → Answers (Err IllDefined) result }
{
    answer_sequence(alloc, couples_after(alloc, x, s))
}

/// `s <- x`, an element after the others.
pub fn append(alloc: Global, s: &Value, x: &Value) -> Result<Value, OpFault>
    requires sequence { IsKept s.now }
    requires element { IsKept x.now }
    ensures value { Answers (append_row s.now x.now) result }
    ensures kept { IfOk result (λ v. IsKept v) }
    ensures by_list { (xs : List Value) → s.now ≡ sequence_of xs → Answers (limited (sequence_of (xs ++ x.now ∷ []))) result }
    ensures otherwise { (IsSequence s.now → ⊥) → Answers (Err IllDefined) result }
{
    answer_sequence(alloc, couples_before(alloc, s, x))
}

/// `conc(s)`, the elements of each element in order. It has no more nodes than `s`.
pub fn conc(alloc: Global, s: &Value) -> Result<Value, OpFault>
    requires { IsKept s.now }
    ensures value { Answers (conc_row s.now) result }
    ensures kept { IfOk result (λ v. IsKept v) }
    ensures by_lists { (xss : List (List Value)) → s.now ≡ sequence_of (map sequence_of xss) → Answers (Ok (sequence_of (flat_map (λ xs. xs) xss))) result }
    ensures otherwise { ((xss : List (List Value)) → s.now ≡ sequence_of (map sequence_of xss) → ⊥) → Answers (Err IllDefined) result }
{
    answer_sequence(alloc, couples_of_all(alloc, s))
}

fn turned_couples(alloc: Global, s: &Value) -> Result<Option<Items<Value>>, AllocError>
    ensures { IfOk result (λ cs. cs ≡ option_map (numbered 1) (option_map reverse (as_sequence s.now))) }
{
    match couples_of(s) {
        Some(couples) => Ok(Some(turned(alloc, couples)?)),
        None => Ok(None),
    }
}

fn couples_of_both(alloc: Global, s: &Value, t: &Value) -> Result<Option<Items<Value>>, AllocError>
    ensures { IfOk result (λ cs. cs ≡ option_map (numbered 1) (option_and_then (λ xs. option_map (λ ys. xs ++ ys) (as_sequence t.now)) (as_sequence s.now))) }
{
    match (couples_of(s), couples_of(t)) {
        (Some(couples), Some(more)) => Ok(Some(with_parts(alloc, couples, more)?)),
        _ => Ok(None),
    }
}

fn with_parts(alloc: Global, couples: &[Value], more: &[Value]) -> Result<Items<Value>, AllocError>
    ensures { IfOk result (λ all. all ≡ couples.now ++ numbered (length couples.now + 1) (seconds more.now)) }
{
    let mut all = share_all(alloc, couples)?;
    push_parts(alloc, &mut all, more)?;
    Ok(all)
}

fn couples_after(alloc: Global, x: &Value, s: &Value) -> Result<Option<Items<Value>>, AllocError>
    ensures { IfOk result (λ cs. cs ≡ option_map (numbered 1) (option_map (λ xs. x.now ∷ xs) (as_sequence s.now))) }
{
    match couples_of(s) {
        Some(couples) => Ok(Some(after_part(alloc, x, couples)?)),
        None => Ok(None),
    }
}

fn after_part(alloc: Global, x: &Value, couples: &[Value]) -> Result<Items<Value>, AllocError>
    ensures { IfOk result (λ all. all ≡ numbered 1 (x.now ∷ seconds couples.now)) }
{
    let mut all = Items::new(alloc);
    push_part(alloc, &mut all, Shared::new(alloc, x.share()?)?)?;
    push_parts(alloc, &mut all, couples)?;
    Ok(all)
}

fn couples_before(alloc: Global, s: &Value, x: &Value) -> Result<Option<Items<Value>>, AllocError>
    ensures { IfOk result (λ cs. cs ≡ option_map (numbered 1) (option_map (λ xs. xs ++ x.now ∷ []) (as_sequence s.now))) }
{
    match couples_of(s) {
        Some(couples) => Ok(Some(before_part(alloc, couples, x)?)),
        None => Ok(None),
    }
}

fn before_part(alloc: Global, couples: &[Value], x: &Value) -> Result<Items<Value>, AllocError>
    ensures { IfOk result (λ all. all ≡ couples.now ++ numbered (length couples.now + 1) (x.now ∷ [])) }
{
    let mut before = share_all(alloc, couples)?;
    push_part(alloc, &mut before, Shared::new(alloc, x.share()?)?)?;
    Ok(before)
}

fn couples_of_all(alloc: Global, s: &Value) -> Result<Option<Items<Value>>, AllocError>
    ensures { IfOk result (λ cs. cs ≡ option_map (numbered 1) (option_and_then spec.joined (as_sequence s.now))) }
{
    match couples_of(s) {
        Some(couples) => joined(alloc, couples),
        None => Ok(None),
    }
}

fn joined(alloc: Global, couples: &[Value]) -> Result<Option<Items<Value>>, AllocError>
    ensures { IfOk result (λ cs. cs ≡ option_map (numbered 1) (spec.joined (seconds couples.now))) }
{
    let mut all = Items::new(alloc);
    for couple in couples {
        if !push_list(alloc, &mut all, couple)? {
            return Ok(None);
        }
    }
    Ok(Some(all))
}

/// Puts the elements of a couple's second part at the end; false where that is no sequence.
fn push_list(alloc: Global, all: &mut Items<Value>, couple: &Value) -> Result<bool, AllocError>
    ensures { IfOk result (λ whole. PushesList couple.now all.old all.new whole) }
{
    let Value::Pair(_, part) = couple else {
        return Ok(true);
    };
    match couples_of(part.get()) {
        Some(more) => {
            push_parts(alloc, all, more)?;
            Ok(true)
        }
        None => Ok(false),
    }
}
