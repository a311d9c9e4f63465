// Writes the text of a value.
ghost use Rattle.std.specs.Prelude.{◌≡◌, ◌<◌, ◌+◌, ◌++◌, [], ◌∷◌, length, OnOk, OnErr, flat_map, map};
ghost use Rattle.std.specs.Fmt.{signed_decimal};
ghost use Rattle.b_values.specs.Texts.{text_of, commas, element_name, spelling_of};
ghost use Rattle.session_words.specs.Replies.{truth_text};

use crate::text::ReplyText;
use b_values::{SetFace, Value};
use itoa::Buffer;
use std::alloc::AllocError;

fn add_integer(out: &mut ReplyText, n: i128) -> Result<(), AllocError>
    ensures added { OnOk result (out.new ≡ out.old ++ signed_decimal n) }
    ensures long { OnErr result (64 < length out.old + length (signed_decimal n)) }
{
    let mut buffer = Buffer::new();
    out.add(buffer.format(n).as_bytes())
}

pub(crate) fn add_truth(out: &mut ReplyText, b: bool) -> Result<(), AllocError>
    ensures added { OnOk result (out.new ≡ out.old ++ truth_text b) }
    ensures long { OnErr result (64 < length out.old + length (truth_text b)) }
{
    if b {
        out.add(b"TRUE")
    } else {
        out.add(b"FALSE")
    }
}

// The text of a value, `-5`, `TRUE`, `"a"`, `name`, `(a|->b)` or `{a,b}`, is added.
#[cycle(write)]
pub(crate) fn add_value(out: &mut ReplyText, sets: &[SetFace], v: &Value) -> Result<(), AllocError>
    ensures added { OnOk result (out.new ≡ out.old ++ text_of sets.now v.now) }
    ensures long { OnErr result (64 < length out.old + length (text_of sets.now v.now)) }
{
    match v {
        Value::Int(n) => add_integer(out, *n),
        Value::Truth(b) => add_truth(out, *b),
        Value::Text(s) => add_string(out, s.get().as_slice()),
        Value::Elem { set, index } => add_element(out, sets, *set, *index),
        Value::Pair(a, b) => {
            out.add(b"(")?;
            add_value(out, sets, a.get())?;
            out.add(b"|->")?;
            add_value(out, sets, b.get())?;
            out.add(b")")
        }
        Value::Set(xs) => {
            out.add(b"{")?;
            add_values(out, sets, xs.get().as_slice())?;
            out.add(b"}")
        }
    }
}

// Texts of values with commas between them.
#[cycle(write)]
pub(crate) fn add_values(
    out: &mut ReplyText,
    sets: &[SetFace],
    xs: &[Value],
) -> Result<(), AllocError>
    ensures added { OnOk result (out.new ≡ out.old ++ commas (map (text_of sets.now) xs.now)) }
    ensures long { OnErr result (64 < length out.old + length (commas (map (text_of sets.now) xs.now))) }
{
    let mut is_first = true;
    for x in xs {
        if !is_first {
            out.add(b",")?;
        }
        add_value(out, sets, x)?;
        is_first = false;
    }
    Ok(())
}

fn add_element(
    out: &mut ReplyText,
    sets: &[SetFace],
    set: u32,
    index: u32,
) -> Result<(), AllocError>
    ensures added { OnOk result (out.new ≡ out.old ++ element_name sets.now set index) }
    ensures long { OnErr result (64 < length out.old + length (element_name sets.now set index)) }
{
    let Some(face) = sets.get(set as usize) else {
        return Ok(());
    };
    match face.elements.get(index as usize) {
        Some(name) => out.add(name.as_slice()),
        None => Ok(()),
    }
}

fn add_string(out: &mut ReplyText, bytes: &[u8]) -> Result<(), AllocError>
    ensures added { OnOk result (out.new ≡ out.old ++ 34 ∷ (flat_map spelling_of bytes.now ++ 34 ∷ [])) }
    ensures long { OnErr result (64 < length out.old + length (34 ∷ (flat_map spelling_of bytes.now ++ 34 ∷ []))) }
{
    out.add(b"\"")?;
    add_inside(out, bytes)?;
    out.add(b"\"")
}

// What stands between the quotes of a string.
pub(crate) fn add_inside(out: &mut ReplyText, bytes: &[u8]) -> Result<(), AllocError>
    ensures added { OnOk result (out.new ≡ out.old ++ flat_map spelling_of bytes.now) }
    ensures long { OnErr result (64 < length out.old + length (flat_map spelling_of bytes.now)) }
{
    for b in bytes {
        add_byte(out, *b)?;
    }
    Ok(())
}

fn add_byte(out: &mut ReplyText, b: u8) -> Result<(), AllocError>
    ensures added { OnOk result (out.new ≡ out.old ++ spelling_of b) }
    ensures long { OnErr result (64 < length out.old + length (spelling_of b)) }
{
    if b == b'"' {
        return out.add(b"\\\"");
    }
    if b == b'\\' {
        return out.add(b"\\\\");
    }
    if b == b'\n' {
        return out.add(b"\\n");
    }
    if b == b'\t' {
        return out.add(b"\\t");
    }
    out.add(&[b])
}
