// Tuples one after another: through faults, the next of all, and the next sound one.
ghost use Rattle.std.specs.Prelude.{length};
ghost use Rattle.b_meaning.specs.Tuples.{IsTuple};
ghost use Rattle.b_tree.specs.declared.Binder.{out-Binder};

use crate::answers::{face, fault_text};
use b_meaning::{advance, next_sound, next_tuple};
use b_places::{Scope, Walk, begun, couple_of};
use b_rows::EvalStop;
use b_tree::Binder;
use b_values::{EvalFault, Face, Value, write_value};
use shared::Shared;
use std::alloc::{AllocError, Global};
use std::process::Abort;
use std::test::Fail;
use tree_notation::binder_of;

fn add_tuple(
    alloc: Global,
    face: &Face,
    text: &mut Vec<u8>,
    values: &[Value],
) -> Result<(), AllocError> {
    let couple = couple_of(alloc, values)?;
    let written = write_value(alloc, face, &couple)?;
    text.push(b' ')?;
    text.extend_from_slice(written.as_slice())?;
    Ok(())
}

fn add_fault(alloc: Global, text: &mut Vec<u8>, f: EvalFault) -> Result<(), AllocError> {
    let written = fault_text(alloc, f)?;
    text.push(b' ')?;
    text.extend_from_slice(written.as_slice())?;
    Ok(())
}

// The first places of a binder.
fn places_text(alloc: Global, face: &Face, b: &Binder) -> Result<Vec<u8>, AllocError> {
    let scope = Scope::Slots(&[]);
    let mut text = Vec::new(alloc);
    let mut walk = begun(alloc);
    'places: for _ in 0..20u64 {
        match advance(alloc, b, &scope, &mut walk) {
            Ok(true) => add_tuple(alloc, face, &mut text, walk.values.as_slice())?,
            Ok(false) => return Ok(text),
            Err(EvalStop::Fault(f)) => add_fault(alloc, &mut text, f)?,
            Err(EvalStop::Memory) => return Err(AllocError),
        }
    }
    Ok(text)
}

const PLACES: &str = "1 2 num 7 8 num T #2 ? (1|->7) (1|->8) (2|->7) (2|->8)
1 2 num F #1 ? 1 2
3 1 num T #1 ?
0 2 num 2 1 s0 - /'a only T #2 ? (0|->2) ill-defined a (2|->-2)
0 2 num 2 1 s0 - /'a only s0 2 num T #3 ? ((0|->2)|->0) ((0|->2)|->1) ((0|->2)|->2) ill-defined a ((2|->-2)|->2)
0 1 num 1 1 1 s0 - /'a num 1 0 /'b only T #3 ? ill-defined b ill-defined a
1 0 /'a only T #1 ? ill-defined a
3 2 1 {3 in T #1 ? 1 2 3
2 1 {2 sub T #1 ? {} {1} {1,2} {2}";

#[test]
fn places_through_faults(rt: HostRuntime) -> Result<(), Fail> {
    let alloc = rt.alloc();
    let face = face(alloc)?;
    for line in PLACES.lines() {
        let (notation, want) = line.split_once(" ?").ok_or("a line without a question")?;
        check_places(&rt, alloc, &face, notation, want)?;
    }
    Ok(())
}

fn check_places(
    rt: &impl Abort,
    alloc: Global,
    face: &Face,
    notation: &str,
    want: &str,
) -> Result<(), Fail> {
    let b = binder_of(alloc, notation)?;
    let text = places_text(alloc, face, b.get())?;
    assert_eq!(rt; text.as_slice(), want.as_bytes(), "{notation}");
    Ok(())
}

// The first name goes over 0 to 2; the range of the second is 2 at 0, faults at 1 and is -2 at 2.
fn faulty_at_one(alloc: Global) -> Result<Shared<Binder>, AllocError> {
    binder_of(alloc, "0 2 num 2 1 s0 - /'a only T #2")
}

fn next_text(
    alloc: Global,
    face: &Face,
    b: &Binder,
    last: Option<&Walk>,
) -> Result<Vec<u8>, AllocError>
    requires { IsTuple (length (out-Binder b.now).variables) last }
{
    let mut text = Vec::new(alloc);
    match next_tuple(alloc, b, &Scope::Slots(&[]), last) {
        Ok(Some(walk)) => add_tuple(alloc, face, &mut text, walk.values.as_slice())?,
        Ok(None) => text.extend_from_slice(b"none")?,
        Err(EvalStop::Fault(f)) => return fault_text(alloc, f),
        Err(EvalStop::Memory) => return Err(AllocError),
    }
    Ok(text)
}

// The next tuple, then the one after that, then the next sound one after the first.
#[test]
fn the_next_tuple(rt: HostRuntime) -> Result<(), Fail> {
    let alloc = rt.alloc();
    let face = face(alloc)?;
    let b = faulty_at_one(alloc)?;
    let text = next_text(alloc, &face, b.get(), None)?;
    assert_eq!(rt; text.as_slice(), " (0|->2)".as_bytes());
    let first = next_tuple(alloc, b.get(), &Scope::Slots(&[]), None)?;
    match first {
        Some(walk) => check_after(&rt, alloc, &face, b.get(), &walk)?,
        None => assert!(rt; false, "no tuple"),
    }
    Ok(())
}

fn check_after(
    rt: &impl Abort,
    alloc: Global,
    face: &Face,
    b: &Binder,
    walk: &Walk,
) -> Result<(), Fail>
    requires { IsTuple (length (out-Binder b.now).variables) (Some walk) }
{
    let text = next_text(alloc, face, b, Some(walk))?;
    assert_eq!(rt; text.as_slice(), "ill-defined a".as_bytes());
    match next_sound(alloc, b, &Scope::Slots(&[]), Some(walk))? {
        Some(last) => check_last(rt, alloc, face, b, &last),
        None => {
            assert!(rt; false, "no sound tuple");
            Ok(())
        }
    }
}

fn check_last(
    rt: &impl Abort,
    alloc: Global,
    face: &Face,
    b: &Binder,
    walk: &Walk,
) -> Result<(), Fail>
    requires { IsTuple (length (out-Binder b.now).variables) (Some walk) }
{
    let mut text = Vec::new(alloc);
    add_tuple(alloc, face, &mut text, walk.values.as_slice())?;
    assert_eq!(rt; text.as_slice(), " (2|->-2)".as_bytes());
    let none = next_text(alloc, face, b, Some(walk))?;
    assert_eq!(rt; none.as_slice(), "none".as_bytes());
    Ok(())
}
