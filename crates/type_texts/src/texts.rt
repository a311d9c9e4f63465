//! The text of a type: `POW(PID * INTEGER)`.
ghost use Rattle.std.specs.Prelude.{◌≡◌, ◌++◌, IfOk, OnOk};
ghost use Rattle.type_texts.specs.Texts as spec;

use b_values::{SetFace, Ty};
use std::alloc::{AllocError, Global};

/// The text of a type, where these are the machine's sets.
pub fn type_text(alloc: Global, sets: &[SetFace], ty: &Ty) -> Result<Vec<u8>, AllocError>
    ensures { IfOk result (λ text. text.items ≡ spec.type_text sets.now ty.now) }
{
    let mut out = Vec::new(alloc);
    write_type(ty, sets, &mut out, false)?;
    Ok(out)
}

fn write_set_name(sets: &[SetFace], out: &mut Vec<u8>, place: usize) -> Result<(), AllocError>
    ensures { OnOk result (out.new.items ≡ out.old.items ++ spec.set_name place sets.now) }
{
    match sets.get(place) {
        None => Ok(()),
        Some(set) => out.extend_from_slice(set.name.as_slice()),
    }
}

fn write_opening(out: &mut Vec<u8>, is_right: bool) -> Result<(), AllocError>
    ensures { OnOk result (out.new.items ≡ out.old.items ++ spec.opening is_right) }
{
    if is_right {
        out.push(b'(')?;
    }
    Ok(())
}

fn write_closing(out: &mut Vec<u8>, is_right: bool) -> Result<(), AllocError>
    ensures { OnOk result (out.new.items ≡ out.old.items ++ spec.closing is_right) }
{
    if is_right {
        out.push(b')')?;
    }
    Ok(())
}

// A product on the right of a product stands in brackets.
fn write_type(
    ty: &Ty,
    sets: &[SetFace],
    out: &mut Vec<u8>,
    is_right: bool,
) -> Result<(), AllocError>
    ensures { OnOk result (out.new.items ≡ out.old.items ++ spec.text_beside sets.now ty.now is_right) }
{
    match ty {
        Ty::Int => out.extend_from_slice(b"INTEGER"),
        Ty::Truth => out.extend_from_slice(b"BOOL"),
        Ty::Text => out.extend_from_slice(b"STRING"),
        Ty::Elem(set) => write_set_name(sets, out, *set as usize),
        Ty::Pair(left, right) => {
            write_opening(out, is_right)?;
            write_type(left.get(), sets, out, false)?;
            out.extend_from_slice(b" * ")?;
            write_type(right.get(), sets, out, true)?;
            write_closing(out, is_right)
        }
        Ty::Set(inner) => {
            out.extend_from_slice(b"POW(")?;
            write_type(inner.get(), sets, out, false)?;
            out.extend_from_slice(b")")
        }
    }
}
