//! Targets that may not be written where they stand.
ghost use Rattle.std.specs.Prelude.{◌≡◌, IfOk, map};
ghost use Rattle.written_names.specs.Names.{in_order, is_among, named, or_else, perhaps, without};
ghost use Rattle.written_names.specs.Targets as spec;
ghost use Rattle.written_names.specs.Targets.{misplaced_in, misplaced_in_branch, misplaced_in_case, misplaced_in_step};

use crate::names::{Among, names_of};
use b_ast::machine::{Branch, CaseBranch, Step, Subst};
use b_ast::{Bound, Place};
use std::alloc::{AllocError, Global};

fn target(name: &Bound, may: &Among) -> Option<Place>
    ensures { result ≡ spec.target name.now (is_among may.now) }
{
    if may.has(name.name.as_slice()) {
        None
    } else {
        Some(name.at)
    }
}

fn targets(names: &[Bound], may: &Among) -> Option<Place>
    ensures { result ≡ spec.targets names.now (is_among may.now) }
{
    for name in names {
        if let Some(at) = target(name, may) {
            return Some(at);
        }
    }
    None
}

/// The first target that isn't one of the names which may be written; names that ANY or LET bind round it hide them.
#[cycle(misplaced)]
pub fn misplaced(subst: &Subst, alloc: Global, may: &Among) -> Result<Option<Place>, AllocError>
    ensures { IfOk result (λ at. at ≡ misplaced_in subst.now (is_among may.now)) }
{
    match subst {
        Subst::Skip(_) => Ok(None),
        Subst::Block(_, body) => misplaced(body.get(), alloc, may),
        Subst::Assign(_, names, _) => Ok(targets(names.as_slice(), may)),
        Subst::Update(_, name, _, _) => Ok(target(name, may)),
        Subst::ChooseFrom(_, name, _) => Ok(target(name, may)),
        Subst::ChooseSuch(_, names, _) => Ok(targets(names.as_slice(), may)),
        Subst::Guarded(_, _, _, body) => misplaced(body.get(), alloc, may),
        Subst::If(_, branches, otherwise) => {
            match misplaced_in_branches(branches.as_slice(), alloc, may)? {
                Some(at) => Ok(Some(at)),
                None => match otherwise {
                    Some(body) => misplaced(body.get(), alloc, may),
                    None => Ok(None),
                },
            }
        }
        Subst::Select(_, branches, otherwise) => {
            match misplaced_in_branches(branches.as_slice(), alloc, may)? {
                Some(at) => Ok(Some(at)),
                None => match otherwise {
                    Some(body) => misplaced(body.get(), alloc, may),
                    None => Ok(None),
                },
            }
        }
        Subst::Choice(_, bodies) => misplaced_in_each(bodies.as_slice(), alloc, may),
        Subst::Case(_, _, branches, otherwise) => {
            match misplaced_in_cases(branches.as_slice(), alloc, may)? {
                Some(at) => Ok(Some(at)),
                None => match otherwise {
                    Some(body) => misplaced(body.get(), alloc, may),
                    None => Ok(None),
                },
            }
        }
        Subst::Any(_, names, _, body) => {
            misplaced_inside(body.get(), alloc, may, names.as_slice())
        }
        Subst::Let(_, names, _, body) => {
            misplaced_inside(body.get(), alloc, may, names.as_slice())
        }
        Subst::Chain(first, steps) => match misplaced(first.get(), alloc, may)? {
            Some(at) => Ok(Some(at)),
            None => misplaced_in_steps(steps.as_slice(), alloc, may),
        },
        Subst::Use(at, _, _) => Ok(Some(*at)),
    }
}

// A body in which bound names hide others.
#[cycle(misplaced)]
fn misplaced_inside(
    body: &Subst,
    alloc: Global,
    may: &Among,
    names: &[Bound],
) -> Result<Option<Place>, AllocError>
    ensures { IfOk result (λ at. at ≡ misplaced_in body.now (without (named names.now) (is_among may.now))) }
{
    let hidden = names_of(alloc, names)?;
    misplaced(body, alloc, &Among::Without(&hidden, &*may))
}

#[cycle(misplaced)]
fn misplaced_in_each(
    bodies: &[Subst],
    alloc: Global,
    may: &Among,
) -> Result<Option<Place>, AllocError>
    ensures { IfOk result (λ at. at ≡ in_order (map misplaced_in bodies.now) (is_among may.now)) }
{
    for body in bodies {
        if let Some(at) = misplaced(body, alloc, may)? {
            return Ok(Some(at));
        }
    }
    Ok(None)
}

#[cycle(misplaced)]
fn misplaced_in_branches(
    branches: &[Branch],
    alloc: Global,
    may: &Among,
) -> Result<Option<Place>, AllocError>
    ensures { IfOk result (λ at. at ≡ in_order (map misplaced_in_branch branches.now) (is_among may.now)) }
{
    for branch in branches {
        if let Some(at) = misplaced(&branch.body, alloc, may)? {
            return Ok(Some(at));
        }
    }
    Ok(None)
}

#[cycle(misplaced)]
fn misplaced_in_cases(
    branches: &[CaseBranch],
    alloc: Global,
    may: &Among,
) -> Result<Option<Place>, AllocError>
    ensures { IfOk result (λ at. at ≡ in_order (map misplaced_in_case branches.now) (is_among may.now)) }
{
    for branch in branches {
        if let Some(at) = misplaced(&branch.body, alloc, may)? {
            return Ok(Some(at));
        }
    }
    Ok(None)
}

#[cycle(misplaced)]
fn misplaced_in_steps(
    steps: &[Step],
    alloc: Global,
    may: &Among,
) -> Result<Option<Place>, AllocError>
    ensures { IfOk result (λ at. at ≡ in_order (map misplaced_in_step steps.now) (is_among may.now)) }
{
    for step in steps {
        if let Some(at) = misplaced(&step.body, alloc, may)? {
            return Ok(Some(at));
        }
    }
    Ok(None)
}
