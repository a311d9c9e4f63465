//! What names mean in a machine.
ghost use Rattle.std.specs.Prelude.{◌≡◌, ◌++◌, ◌∷◌, [], ℕ, List, IfOk, OnOk};
ghost use Rattle.type_demands.specs.Scopes.{all_differ, meaning_in, names_of};
ghost use Rattle.set_elements.specs.Sizes.{AreIndexed, elements_from, size_in};
ghost use Rattle.type_names.specs.Looking.{IsFramed};
ghost use Rattle.type_names.specs.Machines as spec;
ghost use Rattle.type_names.specs.Names as named;

use crate::listing::{Named, frame_named, push, push_bound, push_free};
use crate::looking::Hiding;
use b_ast::Bound;
use b_ast::machine::{Def, MachineText, Operation, SetDecl};
use set_elements::{Sizes, element_name};
use sqlite_items::Items;
use std::alloc::{AllocError, Global};
use type_demands::{Frame, take};

// ---- the names that a machine declares

fn add_name(out: &mut Items<Items<u8>>, alloc: Global, name: &[u8]) -> Result<(), AllocError>
    ensures { OnOk result (out.new ≡ out.old ++ name.now ∷ []) }
{
    out.push(Items::from_slice(alloc, name)?)
}

fn add_bound(out: &mut Items<Items<u8>>, alloc: Global, names: &[Bound]) -> Result<(), AllocError>
    ensures { OnOk result (out.new ≡ out.old ++ names_of names.now) }
{
    for name in names {
        add_name(out, alloc, name.name.as_slice())?;
    }
    Ok(())
}

fn add_sets(out: &mut Items<Items<u8>>, alloc: Global, sets: &[SetDecl]) -> Result<(), AllocError>
    ensures { OnOk result (out.new ≡ out.old ++ spec.set_names sets.now) }
{
    for set in sets {
        add_name(out, alloc, set.name.name.as_slice())?;
    }
    Ok(())
}

fn add_listed(
    out: &mut Items<Items<u8>>,
    alloc: Global,
    elements: &Option<Items<Bound>>,
) -> Result<(), AllocError>
    ensures { OnOk result (out.new ≡ out.old ++ spec.listed elements.now) }
{
    match elements {
        None => Ok(()),
        Some(es) => add_bound(out, alloc, es.as_slice()),
    }
}

fn add_all_listed(
    out: &mut Items<Items<u8>>,
    alloc: Global,
    sets: &[SetDecl],
) -> Result<(), AllocError>
    ensures { OnOk result (out.new ≡ out.old ++ spec.all_listed sets.now) }
{
    for set in sets {
        add_listed(out, alloc, &set.elements)?;
    }
    Ok(())
}

fn add_operations(
    out: &mut Items<Items<u8>>,
    alloc: Global,
    operations: &[Operation],
) -> Result<(), AllocError>
    ensures { OnOk result (out.new ≡ out.old ++ spec.operation_names operations.now) }
{
    for operation in operations {
        add_name(out, alloc, operation.name.name.as_slice())?;
    }
    Ok(())
}

fn add_definitions(
    out: &mut Items<Items<u8>>,
    alloc: Global,
    defs: &[Def],
) -> Result<(), AllocError>
    ensures { OnOk result (out.new ≡ out.old ++ spec.definition_names defs.now) }
{
    for def in defs {
        add_name(out, alloc, def.name.as_slice())?;
    }
    Ok(())
}

/// The names that a machine declares.
pub fn machine_names(alloc: Global, m: &MachineText) -> Result<Hiding, AllocError>
    ensures names { IfOk result (λ h. h.names ≡ spec.machine_names m.now) }
    ensures differ { IfOk result (λ h. h.differ ≡ all_differ (spec.machine_names m.now)) }
    ensures framed { IfOk result IsFramed }
{
    let mut names = Items::new(alloc);
    add_sets(&mut names, alloc, m.sets.as_slice())?;
    add_all_listed(&mut names, alloc, m.sets.as_slice())?;
    add_bound(&mut names, alloc, m.constants.as_slice())?;
    add_bound(&mut names, alloc, m.variables.as_slice())?;
    add_operations(&mut names, alloc, m.operations.as_slice())?;
    add_definitions(&mut names, alloc, m.defs.defs.as_slice())?;
    Hiding::of(alloc, names)
}

// ---- sets and their elements

fn push_sets(out: &mut Vec<Named>, alloc: Global, sets: &[SetDecl]) -> Result<(), AllocError>
    ensures { OnOk result (out.new.items ≡ out.old.items ++ named.in_order 0 (spec.set_names sets.now)) }
{
    let mut part = 0;
    for set in sets {
        let at = take(&mut part)?;
        push(out, alloc, set.name.name.as_slice(), at)?;
    }
    Ok(())
}

fn push_listed_of(
    out: &mut Vec<Named>,
    alloc: Global,
    elements: &Option<Items<Bound>>,
    part: usize,
) -> Result<(), AllocError>
    ensures { OnOk result (out.new.items ≡ out.old.items ++ named.alike part (spec.listed elements.now)) }
{
    match elements {
        None => Ok(()),
        Some(es) => push_bound(out, alloc, es.as_slice(), part),
    }
}

fn push_listed(
    out: &mut Vec<Named>,
    alloc: Global,
    sets: &[SetDecl],
    first: usize,
) -> Result<(), AllocError>
    ensures { OnOk result (out.new.items ≡ out.old.items ++ spec.listed_elements first sets.now) }
{
    let mut next = first;
    for set in sets {
        let part = take(&mut next)?;
        push_listed_of(out, alloc, &set.elements, part)?;
    }
    Ok(())
}

// The elements of a deferred set that nothing hides.
#[tactic(auto, using(crate::proofs::Freeing::freeing_one, crate::proofs::Freeing::freeing_all))]
fn push_elements(
    out: &mut Vec<Named>,
    alloc: Global,
    hiding: &Hiding,
    set: &[u8],
    count: u64,
    part: usize,
) -> Result<(), AllocError>
    requires { IsFramed hiding.now }
    ensures { OnOk result (out.new.items ≡ out.old.items ++ named.alike part (named.free hiding.now.names (elements_from set.now 1 count))) }
{
    for i in 0..count {
        let name = element_name(alloc, set, i + 1)?;
        push_free(out, alloc, hiding, name.as_slice(), part)?;
    }
    Ok(())
}

fn push_deferred_of(
    out: &mut Vec<Named>,
    alloc: Global,
    hiding: &Hiding,
    sizes: &Sizes,
    set: &SetDecl,
    part: usize,
) -> Result<(), AllocError>
    requires framed { IsFramed hiding.now }
    requires indexed { AreIndexed sizes.now }
    ensures { OnOk result (out.new.items ≡ out.old.items ++ named.alike part (named.free hiding.now.names (spec.deferred (size_in sizes.now.sizings sizes.now.other) set.now.name.name set.now.elements))) }
{
    match &set.elements {
        None => {
            let count = sizes.get(set.name.name.as_slice());
            push_elements(out, alloc, hiding, set.name.name.as_slice(), count, part)
        }
        Some(_) => Ok(()),
    }
}

fn push_deferred(
    out: &mut Vec<Named>,
    alloc: Global,
    hiding: &Hiding,
    sizes: &Sizes,
    sets: &[SetDecl],
    first: usize,
) -> Result<(), AllocError>
    requires framed { IsFramed hiding.now }
    requires indexed { AreIndexed sizes.now }
    ensures { OnOk result (out.new.items ≡ out.old.items ++ spec.deferred_elements hiding.now.names (size_in sizes.now.sizings sizes.now.other) first sets.now) }
{
    let mut next = first;
    for set in sets {
        let part = take(&mut next)?;
        push_deferred_of(out, alloc, hiding, sizes, set, part)?;
    }
    Ok(())
}

/// What sets and their elements mean in a machine.
pub fn frame_of_sets(
    alloc: Global,
    hiding: &Hiding,
    m: &MachineText,
    default: u64,
) -> Result<Frame, AllocError>
    requires declared { hiding.now.names ≡ spec.machine_names m.now }
    requires framed { IsFramed hiding.now }
    ensures { IfOk result (λ frame. (x : List ℕ) → meaning_in frame.meanings x ≡ spec.sets_scope m.now default x) }
{
    let sets = m.sets.as_slice();
    let sizes = Sizes::of(alloc, &m.properties, default)?;
    let mut names = Vec::new(alloc);
    push_sets(&mut names, alloc, sets)?;
    push_listed(&mut names, alloc, sets, sets.len())?;
    push_deferred(&mut names, alloc, hiding, &sizes, sets, sets.len())?;
    frame_named(alloc, &names)
}
