ghost use Rattle.std.specs.Prelude.{◌≡◌, ◌++◌, [], ◌∷◌, IfOk, OnOk, flat_map, map};
ghost use Rattle.b_values.specs.Texts.{text_of, commas, element_name, spelling_of};

use crate::{Face, SetFace, Value};
use itoa::Buffer;
use std::alloc::{AllocError, Global};

/// Memory ran out.
pub use std::alloc::AllocError as NoMemory;

/// The text of a value: `-5`, `TRUE`, `"a"`, `name`, `(a|->b)`, `{a,b}`, with no blanks.
pub fn write_value(alloc: Global, face: &Face, v: &Value) -> Result<Vec<u8>, NoMemory>
    ensures { IfOk result (λ bytes. bytes.items ≡ text_of face.now.sets v.now) }
{
    let mut bytes = Vec::new(alloc);
    write_onto(&mut bytes, face.sets.as_slice(), v)?;
    Ok(bytes)
}

/// Writes the text of a value at the end.
#[cycle(write)]
fn write_onto(out: &mut Vec<u8>, sets: &[SetFace], v: &Value) -> Result<(), AllocError>
    ensures { OnOk result (out.new.items ≡ out.old.items ++ text_of sets.now v.now) }
{
    match v {
        Value::Int(n) => {
            let mut buffer = Buffer::new();
            out.extend_from_slice(buffer.format(*n).as_bytes())
        }
        Value::Truth(b) => {
            if *b {
                out.extend_from_slice(b"TRUE")
            } else {
                out.extend_from_slice(b"FALSE")
            }
        }
        Value::Text(s) => write_string(out, s.get().as_slice()),
        Value::Elem { set, index } => write_name(out, sets, *set, *index),
        Value::Pair(a, b) => {
            out.push(b'(')?;
            write_onto(out, sets, a.get())?;
            out.extend_from_slice(b"|->")?;
            write_onto(out, sets, b.get())?;
            out.push(b')')?;
            Ok(())
        }
        Value::Set(xs) => {
            out.push(b'{')?;
            write_all(out, sets, xs.get().as_slice())?;
            out.push(b'}')?;
            Ok(())
        }
    }
}

/// Writes texts with commas between them.
#[cycle(write)]
fn write_all(out: &mut Vec<u8>, sets: &[SetFace], xs: &[Value]) -> Result<(), AllocError>
    ensures { OnOk result (out.new.items ≡ out.old.items ++ commas (map (text_of sets.now) xs.now)) }
{
    let mut is_first = true;
    for x in xs {
        if !is_first {
            out.push(b',')?;
        }
        write_onto(out, sets, x)?;
        is_first = false;
    }
    Ok(())
}

fn write_name(out: &mut Vec<u8>, sets: &[SetFace], set: u32, index: u32) -> Result<(), AllocError>
    ensures { OnOk result (out.new.items ≡ out.old.items ++ element_name sets.now set index) }
{
    let Some(face) = sets.get(set as usize) else {
        return Ok(());
    };
    match face.elements.get(index as usize) {
        Some(name) => out.extend_from_slice(name.as_slice()),
        None => Ok(()),
    }
}

fn write_string(out: &mut Vec<u8>, bytes: &[u8]) -> Result<(), AllocError>
    ensures { OnOk result (out.new.items ≡ out.old.items ++ 34 ∷ (flat_map spelling_of bytes.now ++ 34 ∷ [])) }
{
    out.push(b'"')?;
    for b in bytes {
        write_byte(out, *b)?;
    }
    out.push(b'"')?;
    Ok(())
}

fn write_byte(out: &mut Vec<u8>, b: u8) -> Result<(), AllocError>
    ensures { OnOk result (out.new.items ≡ out.old.items ++ spelling_of b) }
{
    if b == b'"' {
        return out.extend_from_slice(b"\\\"");
    }
    if b == b'\\' {
        return out.extend_from_slice(b"\\\\");
    }
    if b == b'\n' {
        return out.extend_from_slice(b"\\n");
    }
    if b == b'\t' {
        return out.extend_from_slice(b"\\t");
    }
    out.push(b)?;
    Ok(())
}
