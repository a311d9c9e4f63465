ghost use Rattle.b_values.specs.Reading.{FitsNumber};
ghost use Rattle.b_values.specs.Types.{FitsFace};
ghost use Rattle.b_values.specs.Values.{IsKept};
ghost use Rattle.engine_face.specs.Typing.{IsStateOf, values_in};
ghost use Rattle.engine_face.specs.Words.{WordsFit};
ghost use Rattle.pack_state.specs.Bytes.{count_bytes, state_bytes, value_bytes, values_bytes, word_bytes};
ghost use Rattle.pack_state.specs.Packable.{IsShort};
ghost use Rattle.std.specs.Int.{w64, w128, cast_unsigned, to_be_bytes};
ghost use Rattle.std.specs.List.{AllByRecursion};
ghost use Rattle.std.specs.Prelude.{◌≡◌, ◌<◌, ◌^◌, ◌++◌, ◌∷◌, [], length, IfOk, OnOk, if◌then◌else◌};

use b_values::{Face, State, Value};
use engine_face::Packed;
use sqlite_items::Items;
use std::alloc::{AllocError, Global};

/// The bytes of a state of the face. The values' parts are read where they stand.
pub fn pack(alloc: Global, face: &Face, s: &State) -> Result<Packed, AllocError>
    requires fits { FitsFace face.now s.now }
    requires kept { AllByRecursion IsKept (values_in s.now) }
    ensures bytes { IfOk result (λ p. p ≡ state_bytes s.now) }
    ensures state { IfOk result (λ p. IsStateOf face.now s.now) }
{
    let mut out: Vec<u8> = Vec::new(alloc);
    put_state(&mut out, face, s)?;
    // A list that grew has room for up to twice its bytes, and a packed state is kept long.
    out.shrink_to_fit();
    Packed::of_bytes(alloc, Items::from_vec(out))
}

fn put_state(out: &mut Vec<u8>, face: &Face, s: &State) -> Result<(), AllocError>
    requires fits { FitsFace face.now s.now }
    requires kept { AllByRecursion IsKept (values_in s.now) }
    ensures bytes { OnOk result (out.new.items ≡ out.old.items ++ state_bytes s.now) }
    ensures state { OnOk result (IsStateOf face.now s.now) }
{
    match s {
        State::Root => {
            out.push(0)?;
            Ok(())
        }
        State::Constants(cs) => {
            out.push(1)?;
            put_values(out, cs.as_slice())?;
            Ok(())
        }
        State::Running(cs, vs) => {
            out.push(2)?;
            put_values(out, cs.as_slice())?;
            put_values(out, vs.as_slice())?;
            Ok(())
        }
    }
}

fn put_count(out: &mut Vec<u8>, n: u32) -> Result<(), AllocError>
    ensures bytes { OnOk result (out.new.items ≡ out.old.items ++ count_bytes n) }
    ensures fits { n < 2 ^ 32 }
{
    out.extend_from_slice(&n.to_be_bytes())
}

fn put_half(out: &mut Vec<u8>, half: u64) -> Result<(), AllocError>
    ensures { OnOk result (out.new.items ≡ out.old.items ++ to_be_bytes w64 half) }
{
    out.extend_from_slice(&half.to_be_bytes())
}

/// The upper and the lower half of a word.
fn put_word(out: &mut Vec<u8>, word: u128) -> Result<(), AllocError>
    ensures { OnOk result (out.new.items ≡ out.old.items ++ word_bytes word) }
{
    put_half(out, (word / (1 << 64)) as u64)?;
    put_half(out, (word % (1 << 64)) as u64)?;
    Ok(())
}

/// A number in two's complement.
fn word_of(n: &i128) -> u128
    ensures word { result ≡ cast_unsigned w128 n.now }
    ensures fits { FitsNumber n.now }
{
    let n = *n;
    n.cast_unsigned()
}

fn put_truth(out: &mut Vec<u8>, b: bool) -> Result<(), AllocError>
    ensures { OnOk result (out.new.items ≡ out.old.items ++ (if b then 1 else 0) ∷ []) }
{
    out.push(if b { 1 } else { 0 })?;
    Ok(())
}

fn put_text(out: &mut Vec<u8>, text: &[u8]) -> Result<(), AllocError>
    requires { length text.now < 2 ^ 32 }
    ensures { OnOk result (out.new.items ≡ out.old.items ++ (count_bytes (length text.now) ++ text.now)) }
{
    put_count(out, text.len() as u32)?;
    out.extend_from_slice(text)?;
    Ok(())
}

/// The bytes of a value at the end. Its words fit, as those of every value that is there do.
#[cycle(put)]
fn put_value(out: &mut Vec<u8>, v: &Value) -> Result<(), AllocError>
    requires { IsShort v.now }
    ensures bytes { OnOk result (out.new.items ≡ out.old.items ++ value_bytes v.now) }
    ensures words { OnOk result (WordsFit v.now) }
{
    match v {
        Value::Int(n) => put_word(out, word_of(n)),
        Value::Truth(b) => put_truth(out, *b),
        Value::Text(s) => put_text(out, s.get().as_slice()),
        Value::Elem { index, .. } => put_count(out, *index),
        Value::Pair(a, b) => {
            put_value(out, a.get())?;
            put_value(out, b.get())?;
            Ok(())
        }
        Value::Set(xs) => put_set(out, xs.get().as_slice()),
    }
}

#[cycle(put)]
fn put_set(out: &mut Vec<u8>, xs: &[Value]) -> Result<(), AllocError>
    requires short { length xs.now < 2 ^ 32 }
    requires members { AllByRecursion IsShort xs.now }
    ensures bytes { OnOk result (out.new.items ≡ out.old.items ++ (count_bytes (length xs.now) ++ values_bytes xs.now)) }
    ensures words { OnOk result (AllByRecursion WordsFit xs.now) }
{
    put_count(out, xs.len() as u32)?;
    put_values(out, xs)?;
    Ok(())
}

#[cycle(put)]
fn put_values(out: &mut Vec<u8>, xs: &[Value]) -> Result<(), AllocError>
    requires { AllByRecursion IsShort xs.now }
    ensures bytes { OnOk result (out.new.items ≡ out.old.items ++ values_bytes xs.now) }
    ensures words { OnOk result (AllByRecursion WordsFit xs.now) }
{
    for x in xs {
        put_value(out, x)?;
    }
    Ok(())
}
