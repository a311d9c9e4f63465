//! What the clauses of a machine demand, one function for each.
ghost use Rattle.std.specs.Prelude.{◌≡◌, ◌+◌, ◌++◌, IfOk, OnOk, length};
ghost use Rattle.type_demands.specs.Scopes.{names_of, scope_of, without_last};
ghost use Rattle.type_names.specs.Looking.{IsFramed};
ghost use Rattle.type_substs.specs.Substitutions.{subst_told};
ghost use Rattle.type_substs.specs.Told.{told};
ghost use Rattle.b_types.specs.Machines as spec;

use crate::knowing::know_names;
use b_ast::machine::{Operation, Subst};
use b_ast::{Bound, Pred};
use sqlite_items::Items;
use std::alloc::{AllocError, Global};
use type_demands::{Demand, Frame, close, take_all, tell_twice};
use type_names::Hiding;
use type_substs::{tell, tell_predicate};

/// PROPERTIES or INVARIANT, which may be absent.
pub fn tell_perhaps(
    p: &Option<Pred>,
    alloc: Global,
    frames: &mut Vec<Frame>,
    out: &mut Vec<Demand>,
    next: &mut usize,
) -> Result<(), AllocError>
    ensures tells { OnOk result (told out.new.items next.new ≡ spec.with_perhaps p.now (scope_of frames.old.items) (told out.old.items next.old)) }
    ensures demands { OnOk result (out.new.items ≡ (spec.with_perhaps p.now (scope_of frames.old.items) (told out.old.items next.old)).demands) }
    ensures parts { OnOk result (next.new ≡ (spec.with_perhaps p.now (scope_of frames.old.items) (told out.old.items next.old)).next) }
    ensures frames { OnOk result (frames.new.items ≡ frames.old.items) }
{
    match p {
        None => Ok(()),
        Some(p) => tell_predicate(&p.formula, alloc, frames, out, next),
    }
}

/// ASSERTIONS.
pub fn tell_predicates(
    ps: &[Pred],
    alloc: Global,
    frames: &mut Vec<Frame>,
    out: &mut Vec<Demand>,
    next: &mut usize,
) -> Result<(), AllocError>
    ensures tells { OnOk result (told out.new.items next.new ≡ spec.with_predicates ps.now (scope_of frames.old.items) (told out.old.items next.old)) }
    ensures demands { OnOk result (out.new.items ≡ (spec.with_predicates ps.now (scope_of frames.old.items) (told out.old.items next.old)).demands) }
    ensures parts { OnOk result (next.new ≡ (spec.with_predicates ps.now (scope_of frames.old.items) (told out.old.items next.old)).next) }
    ensures frames { OnOk result (frames.new.items ≡ frames.old.items) }
{
    for p in ps {
        tell_predicate(&p.formula, alloc, frames, out, next)?;
    }
    Ok(())
}

/// INITIALISATION.
pub fn tell_initialisation(
    s: &Option<Subst>,
    alloc: Global,
    frames: &mut Vec<Frame>,
    out: &mut Vec<Demand>,
    next: &mut usize,
) -> Result<(), AllocError>
    ensures tells { OnOk result (told out.new.items next.new ≡ spec.with_initialisation s.now (scope_of frames.old.items) (told out.old.items next.old)) }
    ensures demands { OnOk result (out.new.items ≡ (spec.with_initialisation s.now (scope_of frames.old.items) (told out.old.items next.old)).demands) }
    ensures parts { OnOk result (next.new ≡ (spec.with_initialisation s.now (scope_of frames.old.items) (told out.old.items next.old)).next) }
    ensures frames { OnOk result (frames.new.items ≡ frames.old.items) }
{
    match s {
        None => Ok(()),
        Some(s) => tell(s, alloc, frames, out, next),
    }
}

// ---- operations

fn add_bound(out: &mut Items<Items<u8>>, alloc: Global, names: &[Bound]) -> Result<(), AllocError>
    ensures { OnOk result (out.new ≡ out.old ++ names_of names.now) }
{
    for name in names {
        out.push(Items::from_slice(alloc, name.name.as_slice())?)?;
    }
    Ok(())
}

fn own_names(alloc: Global, operation: &Operation) -> Result<Items<Items<u8>>, AllocError>
    ensures { IfOk result (λ names. names ≡ spec.own_names operation.now) }
{
    let mut names = Items::new(alloc);
    add_bound(&mut names, alloc, operation.results.as_slice())?;
    add_bound(&mut names, alloc, operation.params.as_slice())?;
    Ok(names)
}

fn none_among(declared: &Hiding, names: &[Items<u8>]) -> bool
    requires { IsFramed declared.now }
    ensures { result ≡ spec.none_among declared.now.names names.now }
{
    for name in names {
        if declared.has(name.as_slice()) {
            return false;
        }
    }
    true
}

// Whether an operation's own names differ, and none is one that the machine declares.
fn own_differ(alloc: Global, declared: &Hiding, operation: &Operation) -> Result<bool, AllocError>
    requires { IsFramed declared.now }
    ensures { IfOk result (λ differ. differ ≡ spec.own_differ declared.now.names operation.now) }
{
    let names = own_names(alloc, operation)?;
    let free = none_among(declared, names.as_slice());
    let own = Hiding::of(alloc, names)?;
    if own.differ { Ok(free) } else { Ok(false) }
}

// Makes an operation's own names known. Their two frames stay open.
fn know_own(
    alloc: Global,
    frames: &mut Vec<Frame>,
    operation: &Operation,
    at: usize,
) -> Result<(), AllocError>
    ensures scope { OnOk result (scope_of frames.new.items ≡ spec.own_scope operation.now at (scope_of frames.old.items)) }
    ensures outer { OnOk result (without_last (without_last frames.new.items) ≡ frames.old.items) }
{
    let mut params = at;
    take_all(&mut params, operation.results.len())?;
    know_names(alloc, frames, operation.params.as_slice(), params)?;
    know_names(alloc, frames, operation.results.as_slice(), at)?;
    Ok(())
}

// An operation's body, in the scope of its own names, which ends there.
fn tell_body(
    body: &Subst,
    alloc: Global,
    frames: &mut Vec<Frame>,
    out: &mut Vec<Demand>,
    next: &mut usize,
) -> Result<(), AllocError>
    ensures tells { OnOk result (told out.new.items next.new ≡ subst_told body.now (scope_of frames.old.items) (told out.old.items next.old)) }
    ensures demands { OnOk result (out.new.items ≡ (subst_told body.now (scope_of frames.old.items) (told out.old.items next.old)).demands) }
    ensures parts { OnOk result (next.new ≡ (subst_told body.now (scope_of frames.old.items) (told out.old.items next.old)).next) }
    ensures frames { OnOk result (frames.new.items ≡ without_last (without_last frames.old.items)) }
{
    tell(body, alloc, frames, out, next)?;
    close(frames);
    close(frames);
    Ok(())
}

fn tell_operation(
    operation: &Operation,
    alloc: Global,
    declared: &Hiding,
    frames: &mut Vec<Frame>,
    out: &mut Vec<Demand>,
    next: &mut usize,
    at: usize,
) -> Result<(), AllocError>
    requires { IsFramed declared.now }
    ensures tells { OnOk result (told out.new.items next.new ≡ spec.with_operation declared.now.names operation.now at (scope_of frames.old.items) (told out.old.items next.old)) }
    ensures demands { OnOk result (out.new.items ≡ (spec.with_operation declared.now.names operation.now at (scope_of frames.old.items) (told out.old.items next.old)).demands) }
    ensures parts { OnOk result (next.new ≡ (spec.with_operation declared.now.names operation.now at (scope_of frames.old.items) (told out.old.items next.old)).next) }
    ensures frames { OnOk result (frames.new.items ≡ frames.old.items) }
{
    let differ = own_differ(alloc, declared, operation)?;
    tell_twice(out, differ)?;
    know_own(alloc, frames, operation, at)?;
    tell_body(&operation.body, alloc, frames, out, next)
}

// The number of the part behind an operation's own names.
fn behind(at: usize, operation: &Operation) -> Result<usize, AllocError>
    ensures { IfOk result (λ n. n ≡ at + spec.own_count operation.now) }
{
    let mut after = at;
    take_all(&mut after, operation.results.len())?;
    take_all(&mut after, operation.params.len())?;
    Ok(after)
}

/// The number of the part behind the own names of all operations.
pub fn behind_all(first: usize, operations: &[Operation]) -> Result<usize, AllocError>
    ensures { IfOk result (λ n. n ≡ first + spec.own_counts operations.now) }
{
    let mut at = first;
    for operation in operations {
        at = behind(at, operation)?;
    }
    Ok(at)
}

/// OPERATIONS, where the parts of their own names begin at a number.
pub fn tell_operations(
    operations: &[Operation],
    alloc: Global,
    declared: &Hiding,
    frames: &mut Vec<Frame>,
    out: &mut Vec<Demand>,
    next: &mut usize,
    first: usize,
) -> Result<(), AllocError>
    requires { IsFramed declared.now }
    ensures tells { OnOk result (told out.new.items next.new ≡ spec.with_operations declared.now.names operations.now first (scope_of frames.old.items) (told out.old.items next.old)) }
    ensures demands { OnOk result (out.new.items ≡ (spec.with_operations declared.now.names operations.now first (scope_of frames.old.items) (told out.old.items next.old)).demands) }
    ensures parts { OnOk result (next.new ≡ (spec.with_operations declared.now.names operations.now first (scope_of frames.old.items) (told out.old.items next.old)).next) }
    ensures frames { OnOk result (frames.new.items ≡ frames.old.items) }
{
    let mut at = first;
    for operation in operations {
        tell_operation(operation, alloc, declared, frames, out, next, at)?;
        at = behind(at, operation)?;
    }
    Ok(())
}
