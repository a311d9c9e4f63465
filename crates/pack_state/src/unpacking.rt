ghost use Rattle.b_values.specs.declared.values.Value.TheVariants.{Int, Pair};
ghost use Rattle.b_values.specs.ReadingDescent as reading;
ghost use Rattle.b_values.specs.Types.{FitsFace};
ghost use Rattle.b_values.specs.Values.{IsKept};
ghost use Rattle.engine_face.specs.Typing.{values_in};
ghost use Rattle.std.specs.Int.{w128, cast_signed};
ghost use Rattle.std.specs.List.{AllByRecursion};
ghost use Rattle.pack_state.specs.Spelled.{IsUnpacked};
ghost use Rattle.pack_state.specs.Answers.{Gives};
ghost use Rattle.pack_state.specs.Unpacking as spec;
ghost use Rattle.std.specs.Prelude.{◌≡◌, length, IfOk};

use crate::fault::PackFault;
use b_values::{Face, NODE_LIMIT, NameFace, SetFace, State, Ty, Value, fits, order};
use engine_face::Packed;
use shared::Shared;
use sqlite_items::Items;
use std::alloc::{AllocError, Global};

/// The state of the face whose bytes these are. Each byte is read once, and a set's members are compared once, each
/// with the next.
///
/// # Errors
/// `NoSuchState` exactly where no state of the face has these bytes; `Memory`.
pub fn unpack(alloc: Global, face: &Face, p: &Packed) -> Result<State, PackFault>
    ensures state { IsUnpacked face.now p.now result }
    ensures packable { IfOk result (λ s. FitsFace face.now s × AllByRecursion IsKept (values_in s)) }
    ensures read { Gives (λ s. s) result (spec.unpack_of face.now p.now) }
{
    state_at(alloc, face, p.bytes())
}

fn state_at(alloc: Global, face: &Face, bytes: &[u8]) -> Result<State, PackFault>
    ensures { Gives (λ s. s) result (spec.unpack_of face.now bytes.now) }
{
    match bytes {
        [] => Err(PackFault::NoSuchState),
        [0, rest @ ..] => whole(State::Root, rest),
        [1, rest @ ..] => constants_at(alloc, face, rest),
        [2, rest @ ..] => running_at(alloc, face, rest),
        [_, ..] => Err(PackFault::NoSuchState),
    }
}

/// The state, where nothing follows.
fn whole(s: State, rest: &[u8]) -> Result<State, PackFault>
    ensures { Gives (λ s. s) result (spec.whole s rest.now) }
{
    if rest.is_empty() {
        Ok(s)
    } else {
        Err(PackFault::NoSuchState)
    }
}

fn constants_at(alloc: Global, face: &Face, bytes: &[u8]) -> Result<State, PackFault>
    ensures { Gives (λ s. s) result (spec.read_constants face.now bytes.now) }
{
    let (cs, rest) = names_at(
        alloc,
        face.sets.as_slice(),
        face.constants.as_slice(),
        bytes,
    )?;
    whole(State::Constants(cs), rest)
}

fn running_at(alloc: Global, face: &Face, bytes: &[u8]) -> Result<State, PackFault>
    ensures { Gives (λ s. s) result (spec.read_running face.now bytes.now) }
{
    let (cs, rest) = names_at(
        alloc,
        face.sets.as_slice(),
        face.constants.as_slice(),
        bytes,
    )?;
    let (vs, rest) = names_at(alloc, face.sets.as_slice(), face.variables.as_slice(), rest)?;
    whole(State::Running(cs, vs), rest)
}

/// A value for each name.
fn names_at<'a>(
    alloc: Global,
    sets: &[SetFace],
    names: &[NameFace],
    bytes: &'a [u8],
) -> Result<(Items<Value>, &'a [u8]), PackFault>
    ensures { Gives (λ x. (x.0, x.1.now)) result (spec.read_names sets.now names.now bytes.now) }
{
    let mut values = Items::new(alloc);
    let mut rest = bytes;
    for name in names {
        let (value, after) = kept_at(alloc, &name.ty, sets, rest)?;
        values.push(value)?;
        rest = after;
    }
    Ok((values, rest))
}

/// A value with at most a million nodes.
fn kept_at<'a>(
    alloc: Global,
    ty: &Ty,
    sets: &[SetFace],
    bytes: &'a [u8],
) -> Result<(Value, &'a [u8]), PackFault>
    ensures { Gives (λ x. (x.0, x.1.now)) result (spec.read_kept sets.now ty.now bytes.now) }
{
    let (value, rest) = value_at(alloc, ty, sets, bytes)?;
    if fits(&value, NODE_LIMIT) {
        Ok((value, rest))
    } else {
        Err(PackFault::NoSuchState)
    }
}

/// So many bytes.
fn front_of(bytes: &[u8], n: usize) -> Result<(&[u8], &[u8]), PackFault>
    ensures { Gives (λ x. (x.0.now, x.1.now)) result (spec.first_bytes n bytes.now) }
{
    if n <= bytes.len() {
        Ok(bytes.split_at(n))
    } else {
        Err(PackFault::NoSuchState)
    }
}

fn count_at(bytes: &[u8]) -> Result<(u32, &[u8]), PackFault>
    ensures { Gives (λ x. (x.0, x.1.now)) result (spec.read_count bytes.now) }
{
    let (front, rest) = front_of(bytes, 4)?;
    let count = u32::from_be_bytes([front[0], front[1], front[2], front[3]]);
    Ok((count, rest))
}

/// The number whose 16 bytes these are, below 2^128.
fn word_of(front: &[u8]) -> u128
    requires { length front.now ≡ 16 }
    ensures { result ≡ spec.word_of front.now }
{
    let (upper, lower) = front.split_at(8);
    let upper = u64::from_be_bytes([
        upper[0], upper[1], upper[2], upper[3], upper[4], upper[5], upper[6], upper[7],
    ]);
    let lower = u64::from_be_bytes([
        lower[0], lower[1], lower[2], lower[3], lower[4], lower[5], lower[6], lower[7],
    ]);
    u128::from(upper) * (1 << 64) + u128::from(lower)
}

/// A word in two's complement.
fn number_of(word: u128) -> Value
    ensures { result ≡ Int (cast_signed w128 word) }
{
    Value::Int(word.cast_signed())
}

fn number_at(bytes: &[u8]) -> Result<(Value, &[u8]), PackFault>
    ensures { Gives (λ x. (x.0, x.1.now)) result (spec.read_number bytes.now) }
{
    let (front, rest) = front_of(bytes, 16)?;
    Ok((number_of(word_of(front)), rest))
}

fn truth_at(bytes: &[u8]) -> Result<(Value, &[u8]), PackFault>
    ensures { Gives (λ x. (x.0, x.1.now)) result (spec.read_truth bytes.now) }
{
    match bytes {
        [] => Err(PackFault::NoSuchState),
        [0, rest @ ..] => Ok((Value::Truth(false), rest)),
        [1, rest @ ..] => Ok((Value::Truth(true), rest)),
        [_, ..] => Err(PackFault::NoSuchState),
    }
}

/// UTF-8 of fewer than 2^32 bytes.
fn is_text(bytes: &[u8]) -> bool
    ensures { result ≡ reading.is_text bytes.now }
{
    match str::from_utf8(bytes) {
        Ok(_) => bytes.len() < 4_294_967_296,
        Err(_) => false,
    }
}

fn text_at(alloc: Global, bytes: &[u8]) -> Result<(Value, &[u8]), PackFault>
    ensures { Gives (λ x. (x.0, x.1.now)) result (spec.read_text bytes.now) }
{
    let (count, rest) = count_at(bytes)?;
    let (front, rest) = front_of(rest, count as usize)?;
    if !is_text(front) {
        return Err(PackFault::NoSuchState);
    }
    let text = Items::from_slice(alloc, front)?;
    Ok((Value::Text(Shared::new(alloc, text)?), rest))
}

/// Whether the machine has the set, and the set the element.
fn has_element(sets: &[SetFace], set: u32, index: u32) -> bool
    ensures { result ≡ spec.has_element sets.now set index }
{
    match sets.get(set as usize) {
        Some(face) => (index as usize) < face.elements.len(),
        None => false,
    }
}

fn element_at<'a>(
    sets: &[SetFace],
    set: u32,
    bytes: &'a [u8],
) -> Result<(Value, &'a [u8]), PackFault>
    ensures { Gives (λ x. (x.0, x.1.now)) result (spec.read_element sets.now set bytes.now) }
{
    let (index, rest) = count_at(bytes)?;
    if has_element(sets, set, index) {
        Ok((Value::Elem { set, index }, rest))
    } else {
        Err(PackFault::NoSuchState)
    }
}

/// Each value is below the next.
fn ascends(values: &[Value]) -> bool
    ensures { result ≡ spec.ascends values.now }
{
    match values {
        [] => true,
        [first, rest @ ..] => ascends_behind(first, rest),
    }
}

fn ascends_behind(first: &Value, rest: &[Value]) -> bool
    ensures { result ≡ spec.ascends_behind first.now rest.now }
{
    let mut before = first;
    for v in rest {
        if !order(before, v).is_lt() {
            return false;
        }
        before = v;
    }
    true
}

fn couple_of(alloc: Global, first: Value, second: Value) -> Result<Value, AllocError>
    ensures { IfOk result (λ v. v ≡ Pair first second) }
{
    Ok(Value::Pair(Shared::new(alloc, first)?, Shared::new(alloc, second)?))
}

/// The set of these values, where each is below the next.
fn set_of(alloc: Global, values: Items<Value>, rest: &[u8]) -> Result<(Value, &[u8]), PackFault>
    ensures { Gives (λ x. (x.0, x.1.now)) result (spec.set_or_none values rest.now) }
{
    if !ascends(values.as_slice()) {
        return Err(PackFault::NoSuchState);
    }
    Ok((Value::Set(Shared::new(alloc, values)?), rest))
}

/// A value of the type at the front.
#[cycle(read)]
fn value_at<'a>(
    alloc: Global,
    ty: &Ty,
    sets: &[SetFace],
    bytes: &'a [u8],
) -> Result<(Value, &'a [u8]), PackFault>
    ensures { Gives (λ x. (x.0, x.1.now)) result (spec.reader sets.now ty.now bytes.now) }
{
    match ty {
        Ty::Int => number_at(bytes),
        Ty::Truth => truth_at(bytes),
        Ty::Text => text_at(alloc, bytes),
        Ty::Elem(set) => element_at(sets, *set, bytes),
        Ty::Pair(a, b) => {
            let (first, rest) = value_at(alloc, a.get(), sets, bytes)?;
            let (second, rest) = value_at(alloc, b.get(), sets, rest)?;
            Ok((couple_of(alloc, first, second)?, rest))
        }
        Ty::Set(a) => set_at(alloc, a.get(), sets, bytes),
    }
}

#[cycle(read)]
fn set_at<'a>(
    alloc: Global,
    ty: &Ty,
    sets: &[SetFace],
    bytes: &'a [u8],
) -> Result<(Value, &'a [u8]), PackFault>
    ensures { Gives (λ x. (x.0, x.1.now)) result (spec.read_set (spec.reader sets.now ty.now) bytes.now) }
{
    let (count, rest) = count_at(bytes)?;
    let (values, rest) = values_at(alloc, ty, sets, count, rest)?;
    set_of(alloc, values, rest)
}

/// So many values of a type. There are no more than there are bytes, whatever the count says.
#[cycle(read)]
fn values_at<'a>(
    alloc: Global,
    ty: &Ty,
    sets: &[SetFace],
    count: u32,
    bytes: &'a [u8],
) -> Result<(Items<Value>, &'a [u8]), PackFault>
    ensures { Gives (λ x. (x.0, x.1.now)) result (spec.read_many (spec.reader sets.now ty.now) count bytes.now) }
{
    let mut values = Items::new(alloc);
    let mut rest = bytes;
    for _ in 0..count {
        let (value, after) = value_at(alloc, ty, sets, rest)?;
        values.push(value)?;
        rest = after;
    }
    Ok((values, rest))
}
