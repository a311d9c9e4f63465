//! Lists of names with the parts that they mean.
ghost use Rattle.std.specs.Prelude.{◌≡◌, ◌++◌, ◌∷◌, [], ℕ, List, IfOk, OnOk};
ghost use Rattle.type_demands.specs.Scopes.{meaning_in, names_of};
ghost use Rattle.type_names.specs.Looking.{IsFramed};
ghost use Rattle.type_names.specs.Names as spec;

use crate::looking::Hiding;
use b_ast::Bound;
use sqlite_items::Items;
use std::alloc::{AllocError, Global};
use std::collections::HashMap;
use type_demands::{Frame, put_name};

/// A name and the part that has its type.
#[derive(Drop)]
pub struct Named {
    pub name: Items<u8>,
    pub part: usize,
}

/// One name more.
pub fn push(out: &mut Vec<Named>, alloc: Global, name: &[u8], part: usize) -> Result<(), AllocError>
    ensures { OnOk result (out.new.items ≡ out.old.items ++ spec.meaning part name.now ∷ []) }
{
    out.push(Named {
        name: Items::from_slice(alloc, name)?,
        part,
    })?;
    Ok(())
}

/// Names that mean one part.
pub fn push_alike(
    out: &mut Vec<Named>,
    alloc: Global,
    names: &[Items<u8>],
    part: usize,
) -> Result<(), AllocError>
    ensures { OnOk result (out.new.items ≡ out.old.items ++ spec.alike part names.now) }
{
    for name in names {
        push(out, alloc, name.as_slice(), part)?;
    }
    Ok(())
}

/// Bound names that mean one part.
pub fn push_bound(
    out: &mut Vec<Named>,
    alloc: Global,
    names: &[Bound],
    part: usize,
) -> Result<(), AllocError>
    ensures { OnOk result (out.new.items ≡ out.old.items ++ spec.alike part (names_of names.now)) }
{
    for name in names {
        push(out, alloc, name.name.as_slice(), part)?;
    }
    Ok(())
}

/// A name that isn't hidden.
pub fn push_free(
    out: &mut Vec<Named>,
    alloc: Global,
    hiding: &Hiding,
    name: &[u8],
    part: usize,
) -> Result<(), AllocError>
    requires { IsFramed hiding.now }
    ensures { OnOk result (out.new.items ≡ out.old.items ++ spec.alike part (spec.free hiding.now.names (name.now ∷ []))) }
{
    if hiding.has(name) {
        return Ok(());
    }
    push(out, alloc, name, part)
}

/// The frame of a list of names, of which the first of two equal ones counts.
#[tactic(auto, using(crate::proofs::Framing::framing_none, crate::proofs::Framing::framing_more, crate::proofs::Framing::framing_all))]
pub fn frame_named(alloc: Global, names: &[Named]) -> Result<Frame, AllocError>
    ensures { IfOk result (λ frame. (x : List ℕ) → meaning_in frame.meanings x ≡ spec.scope_named names.now x) }
{
    let mut meanings = HashMap::with_capacity(alloc, names.len())?;
    let mut i = names.len();
    while i > 0 {
        i -= 1;
        let named = &names[i];
        put_name(&mut meanings, alloc, named.name.as_slice(), named.part)?;
    }
    Ok(Frame { meanings })
}
