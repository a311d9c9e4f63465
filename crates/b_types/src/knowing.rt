//! The names that are known outside of all binders.
ghost use Rattle.std.specs.Prelude.{◌≡◌, ◌+◌, ◌++◌, IfOk, OnOk, length};
ghost use Rattle.type_demands.specs.Scopes.{bind, names_of, scope_of, without_last};
ghost use Rattle.b_types.specs.Known as spec;

use b_ast::Bound;
use b_values::{NameFace, Ty};
use sqlite_items::{Boxed, Items};
use std::alloc::{AllocError, Global};
use type_demands::{Frame, frame_of, take_all};

// Places of sets past 2^32 are want of memory.
fn place(i: usize) -> Result<u32, AllocError>
    ensures { IfOk result (λ n. n ≡ i) }
{
    match u32::try_from(i) {
        Ok(n) => Ok(n),
        Err(_) => Err(AllocError),
    }
}

fn set_at(alloc: Global, i: usize) -> Result<NameFace, AllocError>
    ensures { IfOk result (λ k. k ≡ spec.set_at i) }
{
    let element = Ty::Elem(place(i)?);
    Ok(NameFace {
        name: Items::new(alloc),
        ty: Ty::Set(Boxed::new(alloc, element)?),
    })
}

fn element_at(alloc: Global, i: usize) -> Result<NameFace, AllocError>
    ensures { IfOk result (λ k. k ≡ spec.element_at i) }
{
    Ok(NameFace {
        name: Items::new(alloc),
        ty: Ty::Elem(place(i)?),
    })
}

fn push_sets(out: &mut Vec<NameFace>, alloc: Global, count: usize) -> Result<(), AllocError>
    ensures { OnOk result (out.new.items ≡ out.old.items ++ spec.first_sets count) }
{
    for i in 0..count {
        out.push(set_at(alloc, i)?)?;
    }
    Ok(())
}

fn push_elements(out: &mut Vec<NameFace>, alloc: Global, count: usize) -> Result<(), AllocError>
    ensures { OnOk result (out.new.items ≡ out.old.items ++ spec.first_elements count) }
{
    for i in 0..count {
        out.push(element_at(alloc, i)?)?;
    }
    Ok(())
}

/// The types of so many sets, and of their elements.
pub fn known_sets(alloc: Global, count: usize) -> Result<Vec<NameFace>, AllocError>
    ensures { IfOk result (λ known. known.items ≡ spec.known_sets count) }
{
    let mut known = Vec::new(alloc);
    push_sets(&mut known, alloc, count)?;
    push_elements(&mut known, alloc, count)?;
    Ok(known)
}

/// Makes names known whose parts begin at a number, and gives the number behind them.
#[tactic(auto, using(type_demands::proofs::Frames::framed, type_demands::proofs::Frames::without_pushed))]
pub fn know_names(
    alloc: Global,
    frames: &mut Vec<Frame>,
    names: &[Bound],
    start: usize,
) -> Result<usize, AllocError>
    ensures after { IfOk result (λ n. n ≡ start + length names.now) }
    ensures scope { OnOk result (scope_of frames.new.items ≡ bind (names_of names.now) start (scope_of frames.old.items)) }
    ensures outer { OnOk result (without_last frames.new.items ≡ frames.old.items) }
{
    let mut after = start;
    take_all(&mut after, names.len())?;
    let opened = frame_of(alloc, names, start)?;
    frames.push(opened.frame)?;
    Ok(after)
}
