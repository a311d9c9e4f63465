//! The scope of P in `x : (P)`.
ghost use Rattle.std.specs.Prelude.{◌≡◌, ℕ, List, IfOk, OnOk};
ghost use Rattle.type_demands.specs.Scopes.{meaning_in, names_of, or_else, scope_of, without_last};
ghost use Rattle.type_substs.specs.Told.{put_written, with_old};

use b_ast::Bound;
use std::alloc::{AllocError, Global};
use std::collections::HashMap;
use type_demands::{Frame, Meaning, find, put_meaning};

// A name's meaning, its old value included, where it means something outside.
fn put_old(
    meanings: &mut HashMap<Vec<u8>, Meaning>,
    alloc: Global,
    frames: &[Frame],
    name: &[u8],
) -> Result<(), AllocError>
    ensures { OnOk result ((x : List ℕ) → meaning_in meanings.new x ≡ put_written (scope_of frames.now name.now) name.now x (meaning_in meanings.old x)) }
{
    match find(frames, name) {
        None => Ok(()),
        Some(meaning) => put_meaning(
            meanings,
            alloc,
            name,
            Meaning {
                part: meaning.part,
                has_old: true,
            },
        ),
    }
}

#[tactic(auto, using(crate::proofs::Olds::old_none, crate::proofs::Olds::old_more, crate::proofs::Olds::old_all))]
fn old_frame(alloc: Global, frames: &[Frame], names: &[Bound]) -> Result<Frame, AllocError>
    ensures { IfOk result (λ frame. (x : List ℕ) → or_else (meaning_in frame.meanings x) (scope_of frames.now x) ≡ with_old (names_of names.now) (scope_of frames.now) x) }
{
    let mut meanings = HashMap::with_capacity(alloc, names.len())?;
    let mut i = names.len();
    while i > 0 {
        i -= 1;
        put_old(&mut meanings, alloc, frames, names[i].name.as_slice())?;
    }
    Ok(Frame { meanings })
}

/// Opens the scope in which old values of names may be asked.
#[tactic(auto, using(type_demands::proofs::Frames::without_pushed))]
pub fn open_old(alloc: Global, frames: &mut Vec<Frame>, names: &[Bound]) -> Result<(), AllocError>
    ensures scope { OnOk result (scope_of frames.new.items ≡ with_old (names_of names.now) (scope_of frames.old.items)) }
    ensures outer { OnOk result (without_last frames.new.items ≡ frames.old.items) }
{
    let frame = old_frame(alloc, frames.as_slice(), names)?;
    frames.push(frame)?;
    Ok(())
}
