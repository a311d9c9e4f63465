//! What names mean in a formula beside a machine's face.
ghost use Rattle.std.specs.Prelude.{◌≡◌, ◌+◌, ◌++◌, ◌∷◌, [], ℕ, List, cond, length, bytes_eq, IfOk, OnOk};
ghost use Rattle.type_demands.specs.Scopes.{meaning_in};
ghost use Rattle.set_elements.specs.Sizes.{element_of};
ghost use Rattle.type_names.specs.Faces as spec;
ghost use Rattle.type_names.specs.Looking.{IsFramed};
ghost use Rattle.type_names.specs.Names as named;

use crate::listing::{Named, frame_named, push, push_alike, push_free};
use crate::looking::Hiding;
use b_values::{Face, NameFace, OpFace, SetFace};
use set_elements::element_name;
use sqlite_items::Items;
use std::alloc::{AllocError, Global};
use type_demands::{Frame, take};

fn is_element(alloc: Global, set: &[u8], k: u64, element: &[u8]) -> Result<bool, AllocError>
    ensures { IfOk result (λ is. is ≡ bytes_eq element.now (element_of set.now k)) }
{
    let name = element_name(alloc, set, k)?;
    Ok(element == name.as_slice())
}

// Whether a set's elements are called as those of a deferred set.
fn are_counted(alloc: Global, set: &[u8], elements: &[Items<u8>]) -> Result<bool, AllocError>
    ensures { IfOk result (λ are. are ≡ spec.are_counted set.now 1 elements.now) }
{
    let mut k = 1;
    for element in elements {
        if !is_element(alloc, set, k, element.as_slice())? {
            return Ok(false);
        }
        k = after(k)?;
    }
    Ok(true)
}

fn after(k: u64) -> Result<u64, AllocError>
    ensures { IfOk result (λ next. next ≡ k + 1) }
{
    match k.checked_add(1) {
        None => Err(AllocError),
        Some(next) => Ok(next),
    }
}

fn is_deferred(alloc: Global, set: &SetFace) -> Result<bool, AllocError>
    ensures { IfOk result (λ is. is ≡ spec.is_deferred set.now) }
{
    are_counted(alloc, set.name.as_slice(), set.elements.as_slice())
}

fn push_sets(out: &mut Vec<Named>, alloc: Global, sets: &[SetFace]) -> Result<(), AllocError>
    ensures { OnOk result (out.new.items ≡ out.old.items ++ named.in_order 0 (spec.set_names sets.now)) }
{
    let mut part = 0;
    for set in sets {
        let at = take(&mut part)?;
        push(out, alloc, set.name.as_slice(), at)?;
    }
    Ok(())
}

fn push_names(
    out: &mut Vec<Named>,
    alloc: Global,
    names: &[NameFace],
    first: usize,
) -> Result<(), AllocError>
    ensures { OnOk result (out.new.items ≡ out.old.items ++ named.in_order first (spec.face_names names.now)) }
{
    let mut part = first;
    for name in names {
        let at = take(&mut part)?;
        push(out, alloc, name.name.as_slice(), at)?;
    }
    Ok(())
}

fn push_listed_of(
    out: &mut Vec<Named>,
    alloc: Global,
    set: &SetFace,
    part: usize,
) -> Result<(), AllocError>
    ensures { OnOk result (out.new.items ≡ out.old.items ++ named.alike part (cond (spec.is_deferred set.now) [] set.now.elements)) }
{
    if is_deferred(alloc, set)? {
        return Ok(());
    }
    push_alike(out, alloc, set.elements.as_slice(), part)
}

fn push_listed(
    out: &mut Vec<Named>,
    alloc: Global,
    sets: &[SetFace],
    first: usize,
) -> Result<(), AllocError>
    ensures { OnOk result (out.new.items ≡ out.old.items ++ spec.listed_elements first sets.now) }
{
    let mut next = first;
    for set in sets {
        let part = take(&mut next)?;
        push_listed_of(out, alloc, set, part)?;
    }
    Ok(())
}

// Names that aren't hidden and mean one part.
#[tactic(auto, using(crate::proofs::Freeing::free_more))]
fn push_all_free(
    out: &mut Vec<Named>,
    alloc: Global,
    hiding: &Hiding,
    names: &[Items<u8>],
    part: usize,
) -> Result<(), AllocError>
    requires { IsFramed hiding.now }
    ensures { OnOk result (out.new.items ≡ out.old.items ++ named.alike part (named.free hiding.now.names names.now)) }
{
    for name in names {
        push_free(out, alloc, hiding, name.as_slice(), part)?;
    }
    Ok(())
}

fn push_deferred_of(
    out: &mut Vec<Named>,
    alloc: Global,
    hiding: &Hiding,
    set: &SetFace,
    part: usize,
) -> Result<(), AllocError>
    requires { IsFramed hiding.now }
    ensures { OnOk result (out.new.items ≡ out.old.items ++ named.alike part (cond (spec.is_deferred set.now) (named.free hiding.now.names set.now.elements) [])) }
{
    if is_deferred(alloc, set)? {
        return push_all_free(out, alloc, hiding, set.elements.as_slice(), part);
    }
    Ok(())
}

fn push_deferred(
    out: &mut Vec<Named>,
    alloc: Global,
    hiding: &Hiding,
    sets: &[SetFace],
    first: usize,
) -> Result<(), AllocError>
    requires { IsFramed hiding.now }
    ensures { OnOk result (out.new.items ≡ out.old.items ++ spec.deferred_elements hiding.now.names first sets.now) }
{
    let mut next = first;
    for set in sets {
        let part = take(&mut next)?;
        push_deferred_of(out, alloc, hiding, set, part)?;
    }
    Ok(())
}

fn operation_names(alloc: Global, ops: &[OpFace]) -> Result<Items<Items<u8>>, AllocError>
    ensures { IfOk result (λ names. names ≡ spec.operation_names ops.now) }
{
    let mut names = Items::new(alloc);
    for op in ops {
        names.push(Items::from_slice(alloc, op.name.as_slice())?)?;
    }
    Ok(names)
}

fn push_elements(out: &mut Vec<Named>, alloc: Global, face: &Face) -> Result<(), AllocError>
    ensures { OnOk result (out.new.items ≡ out.old.items ++ spec.elements_named face.now) }
{
    let sets = face.sets.as_slice();
    let names = operation_names(alloc, face.ops.as_slice())?;
    let hiding = Hiding::of(alloc, names)?;
    push_listed(out, alloc, sets, sets.len())?;
    push_deferred(out, alloc, &hiding, sets, sets.len())
}

fn sum(left: usize, right: usize) -> Result<usize, AllocError>
    ensures { IfOk result (λ n. n ≡ left + right) }
{
    match left.checked_add(right) {
        None => Err(AllocError),
        Some(n) => Ok(n),
    }
}

/// What names mean beside a face, where these constants, variables and parameters are known.
pub fn frame_beside(
    alloc: Global,
    face: &Face,
    constants: &[NameFace],
    variables: &[NameFace],
    params: &[NameFace],
) -> Result<Frame, AllocError>
    ensures { IfOk result (λ frame. (x : List ℕ) → meaning_in frame.meanings x ≡ spec.scope_beside face.now constants.now variables.now params.now x) }
{
    let mut names = Vec::new(alloc);
    let first_constant = sum(face.sets.len(), face.sets.len())?;
    let first_variable = sum(first_constant, constants.len())?;
    let first_param = sum(first_variable, variables.len())?;
    push_names(&mut names, alloc, params, first_param)?;
    push_sets(&mut names, alloc, face.sets.as_slice())?;
    push_names(&mut names, alloc, constants, first_constant)?;
    push_names(&mut names, alloc, variables, first_variable)?;
    push_elements(&mut names, alloc, face)?;
    frame_named(alloc, &names)
}
