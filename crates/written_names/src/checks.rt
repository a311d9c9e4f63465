//! Why the substitutions of a machine are refused.
ghost use Rattle.std.specs.Prelude.{◌≡◌, IfOk};
ghost use Rattle.written_names.specs.Doubles.{writing_of};
ghost use Rattle.written_names.specs.Machines as spec;
ghost use Rattle.written_names.specs.Names.{among, has, named};
ghost use Rattle.written_names.specs.Times as times;
ghost use Rattle.written_names.specs.Times.{timing_of};

use crate::doubles::writing_in;
use crate::names::{Among, Names, first_of, names_of, set_of};
use crate::targets::misplaced;
use crate::times::timing_in;
use b_ast::machine::{MachineText, Operation, Subst};
use b_ast::{Bound, Place};
use sqlite_items::Items;
use std::alloc::{AllocError, Global};

/// What is wrong with what is written.
#[derive(Clone, Copy, Debug, PartialEq, Eq)]
pub enum Reason {
    /// A target is no variable and no result of its operation, or a bound name hides it.
    NotWritable,
    /// A name is written twice at once.
    WrittenTwice,
    /// A name that has no value may be read or left before it is surely written.
    NotSet,
}

/// A reason with its place.
#[derive(Clone, Copy, Debug, PartialEq, Eq)]
pub struct Refusal {
    pub reason: Reason,
    pub at: Place,
}

// ---- targets

fn misplaced_by(
    operation: &Operation,
    alloc: Global,
    variables: &Names,
) -> Result<Option<Place>, AllocError>
    ensures { IfOk result (λ at. at ≡ spec.misplaced_by (has variables.now) operation.now) }
{
    let results = names_of(alloc, operation.results.as_slice())?;
    let outer = Among::All(variables);
    misplaced(&operation.body, alloc, &Among::With(&results, &outer))
}

fn misplaced_by_all(
    operations: &[Operation],
    alloc: Global,
    variables: &Names,
) -> Result<Option<Place>, AllocError>
    ensures { IfOk result (λ at. at ≡ spec.misplaced_by_all (has variables.now) operations.now) }
{
    for operation in operations {
        if let Some(at) = misplaced_by(operation, alloc, variables)? {
            return Ok(Some(at));
        }
    }
    Ok(None)
}

fn misplaced_at_start(
    initialisation: &Option<Subst>,
    alloc: Global,
    variables: &Names,
) -> Result<Option<Place>, AllocError>
    ensures { IfOk result (λ at. at ≡ spec.misplaced_at_start (has variables.now) initialisation.now) }
{
    match initialisation {
        None => Ok(None),
        Some(subst) => misplaced(subst, alloc, &Among::All(variables)),
    }
}

/// The first target that may not be written.
pub fn not_writable(machine: &MachineText, alloc: Global) -> Result<Option<Place>, AllocError>
    ensures { IfOk result (λ at. at ≡ spec.misplaced machine.now) }
{
    let variables = names_of(alloc, machine.variables.as_slice())?;
    match misplaced_at_start(&machine.initialisation, alloc, &variables)? {
        Some(at) => Ok(Some(at)),
        None => misplaced_by_all(machine.operations.as_slice(), alloc, &variables),
    }
}

// ---- doubles

fn double_in(subst: &Subst, alloc: Global) -> Result<Option<Place>, AllocError>
    ensures { IfOk result (λ at. at ≡ (writing_of subst.now).double) }
{
    let written = writing_in(subst, alloc)?;
    Ok(written.double)
}

fn double_by_all(operations: &[Operation], alloc: Global) -> Result<Option<Place>, AllocError>
    ensures { IfOk result (λ at. at ≡ spec.double_by_all operations.now) }
{
    for operation in operations {
        if let Some(at) = double_in(&operation.body, alloc)? {
            return Ok(Some(at));
        }
    }
    Ok(None)
}

fn double_at_start(
    initialisation: &Option<Subst>,
    alloc: Global,
) -> Result<Option<Place>, AllocError>
    ensures { IfOk result (λ at. at ≡ spec.double_at_start initialisation.now) }
{
    match initialisation {
        None => Ok(None),
        Some(subst) => double_in(subst, alloc),
    }
}

/// The first place at which a name is written twice at once.
pub fn written_twice(machine: &MachineText, alloc: Global) -> Result<Option<Place>, AllocError>
    ensures { IfOk result (λ at. at ≡ spec.doubled machine.now) }
{
    match double_at_start(&machine.initialisation, alloc)? {
        Some(at) => Ok(Some(at)),
        None => double_by_all(machine.operations.as_slice(), alloc),
    }
}

// ---- times

// The first of some names that isn't in a set.
fn left(names: &[Bound], surely: &Names) -> Option<Place>
    ensures { result ≡ times.left names.now (has surely.now) }
{
    for name in names {
        if !surely.has(name.name.as_slice()) {
            return Some(name.at);
        }
    }
    None
}

// The first of some names that a list doesn't have.
fn left_by(
    alloc: Global,
    names: &[Bound],
    surely: &[Items<u8>],
) -> Result<Option<Place>, AllocError>
    ensures { IfOk result (λ at. at ≡ times.left names.now (among surely.now)) }
{
    let written = set_of(alloc, surely)?;
    Ok(left(names, &written))
}

/// The first place at which a substitution may read one of the names, which have no value before it, or else the first of
/// them that it may leave without one.
pub fn not_set_by(
    subst: &Subst,
    alloc: Global,
    names: &[Bound],
) -> Result<Option<Place>, AllocError>
    ensures { IfOk result (λ at. at ≡ times.not_set names.now (timing_of subst.now)) }
{
    let unset = names_of(alloc, names)?;
    let done = timing_in(subst, alloc, &Among::All(&unset))?;
    let rest = left_by(alloc, names, done.surely.as_slice())?;
    Ok(first_of(done.early, rest))
}

fn unset_by_all(operations: &[Operation], alloc: Global) -> Result<Option<Place>, AllocError>
    ensures { IfOk result (λ at. at ≡ spec.unset_by_all operations.now) }
{
    for operation in operations {
        if let Some(at) = not_set_by(&operation.body, alloc, operation.results.as_slice())? {
            return Ok(Some(at));
        }
    }
    Ok(None)
}

fn unset_at_start(
    initialisation: &Option<Subst>,
    alloc: Global,
    variables: &[Bound],
) -> Result<Option<Place>, AllocError>
    ensures { IfOk result (λ at. at ≡ spec.unset_at_start variables.now initialisation.now) }
{
    match initialisation {
        None => Ok(left(variables, &Names::new(alloc))),
        Some(subst) => not_set_by(subst, alloc, variables),
    }
}

/// The first place at which a name without a value may be read, or the first name that may be left without one.
pub fn not_set(machine: &MachineText, alloc: Global) -> Result<Option<Place>, AllocError>
    ensures { IfOk result (λ at. at ≡ spec.unset_in machine.now) }
{
    match unset_at_start(&machine.initialisation, alloc, machine.variables.as_slice())? {
        Some(at) => Ok(Some(at)),
        None => unset_by_all(machine.operations.as_slice(), alloc),
    }
}

// ---- all three

fn for_reason(reason: Reason, place: Option<Place>) -> Option<Refusal>
    ensures { result ≡ spec.for_reason reason place }
{
    match place {
        None => None,
        Some(at) => Some(Refusal { reason, at }),
    }
}

fn twice_or_unset(machine: &MachineText, alloc: Global) -> Result<Option<Refusal>, AllocError>
    ensures { IfOk result (λ r. r ≡ spec.or_then (spec.for_reason Reason.WrittenTwice (spec.doubled machine.now)) (spec.for_reason Reason.NotSet (spec.unset_in machine.now))) }
{
    let twice = written_twice(machine, alloc)?;
    match for_reason(Reason::WrittenTwice, twice) {
        Some(refusal) => Ok(Some(refusal)),
        None => {
            let unset = not_set(machine, alloc)?;
            Ok(for_reason(Reason::NotSet, unset))
        }
    }
}

/// Why the substitutions of a machine are refused, if they are: of several reasons the first in the order of `Reason`.
pub fn first_refusal(machine: &MachineText, alloc: Global) -> Result<Option<Refusal>, AllocError>
    ensures { IfOk result (λ r. r ≡ spec.refusal machine.now) }
{
    let misplaced = not_writable(machine, alloc)?;
    match for_reason(Reason::NotWritable, misplaced) {
        Some(refusal) => Ok(Some(refusal)),
        None => twice_or_unset(machine, alloc),
    }
}
