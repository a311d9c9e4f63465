//! One walk through a substitution, which tells what it demands.
ghost use Rattle.std.specs.Prelude.{◌≡◌, IfOk, OnOk, map};
ghost use Rattle.type_demands.specs.Scopes.{scope_of, without_last};
ghost use Rattle.type_substs.specs.Substitutions.{branch_told, case_told, step_told, subst_told};
ghost use Rattle.type_substs.specs.Substitutions as spec;
ghost use Rattle.type_substs.specs.Told.{told, with_demand};

use crate::parts::{
    tell_all_alike, tell_assigned, tell_chosen_from, tell_chosen_such, tell_fixed, tell_formula,
    tell_picked, tell_predicate, tell_updated,
};
use b_ast::machine::{Branch, CaseBranch, Step, Subst};
use b_ast::{Bound, Formula};
use std::alloc::{AllocError, Global};
use type_demands::{Demand, Frame, close};

// A use of a definition, which no text has once definitions are expanded.
fn tell_use(out: &mut Vec<Demand>, next: &usize) -> Result<(), AllocError>
    ensures tells { OnOk result (told out.new.items next.now ≡ with_demand Demand.Unknown (told out.old.items next.now)) }
    ensures demands { OnOk result (out.new.items ≡ (with_demand Demand.Unknown (told out.old.items next.now)).demands) }
{
    out.push(Demand::Unknown)?;
    Ok(())
}

/// Goes through a substitution once and tells what it demands, after what was told before.
#[cycle(tell)]
pub fn tell(
    subst: &Subst,
    alloc: Global,
    frames: &mut Vec<Frame>,
    out: &mut Vec<Demand>,
    next: &mut usize,
) -> Result<(), AllocError>
    ensures tells { OnOk result (told out.new.items next.new ≡ subst_told subst.now (scope_of frames.old.items) (told out.old.items next.old)) }
    ensures demands { OnOk result (out.new.items ≡ (subst_told subst.now (scope_of frames.old.items) (told out.old.items next.old)).demands) }
    ensures parts { OnOk result (next.new ≡ (subst_told subst.now (scope_of frames.old.items) (told out.old.items next.old)).next) }
    ensures frames { OnOk result (frames.new.items ≡ frames.old.items) }
{
    match subst {
        Subst::Skip(_) => Ok(()),
        Subst::Block(_, body) => tell(body.get(), alloc, frames, out, next),
        Subst::Assign(_, names, values) => tell_assigned(
            values.as_slice(),
            alloc,
            frames,
            out,
            next,
            names.as_slice(),
        ),
        Subst::Update(_, name, argument, value) => {
            tell_updated(argument, alloc, frames, out, next, name, value)
        }
        Subst::ChooseFrom(_, name, set) => tell_chosen_from(set, alloc, frames, out, next, name),
        Subst::ChooseSuch(_, names, p) => {
            tell_chosen_such(p, alloc, frames, out, next, names.as_slice())
        }
        Subst::Guarded(_, _, p, body) => {
            tell_predicate(p, alloc, frames, out, next)?;
            tell(body.get(), alloc, frames, out, next)
        }
        Subst::If(_, branches, otherwise) => {
            tell_branches(branches.as_slice(), alloc, frames, out, next)?;
            match otherwise {
                Some(body) => tell(body.get(), alloc, frames, out, next),
                None => Ok(()),
            }
        }
        Subst::Select(_, branches, otherwise) => {
            tell_branches(branches.as_slice(), alloc, frames, out, next)?;
            match otherwise {
                Some(body) => tell(body.get(), alloc, frames, out, next),
                None => Ok(()),
            }
        }
        Subst::Choice(_, bodies) => tell_each(bodies.as_slice(), alloc, frames, out, next),
        Subst::Case(_, value, branches, otherwise) => {
            let part = tell_formula(value, alloc, frames, out, next)?;
            tell_cases(branches.as_slice(), alloc, frames, out, next, part)?;
            match otherwise {
                Some(body) => tell(body.get(), alloc, frames, out, next),
                None => Ok(()),
            }
        }
        Subst::Any(_, names, p, body) => {
            tell_picked(p, alloc, frames, out, next, names.as_slice())?;
            tell_inner(body.get(), alloc, frames, out, next)
        }
        Subst::Let(_, names, values, body) => tell_let(
            body.get(),
            alloc,
            frames,
            out,
            next,
            names.as_slice(),
            values.as_slice(),
        ),
        Subst::Chain(first, steps) => {
            tell(first.get(), alloc, frames, out, next)?;
            tell_steps(steps.as_slice(), alloc, frames, out, next)
        }
        Subst::Use(_, _, _) => tell_use(out, next),
    }
}

#[cycle(tell)]
fn tell_let(
    body: &Subst,
    alloc: Global,
    frames: &mut Vec<Frame>,
    out: &mut Vec<Demand>,
    next: &mut usize,
    names: &[Bound],
    values: &[Formula],
) -> Result<(), AllocError>
    ensures tells { OnOk result (told out.new.items next.new ≡ spec.fixed names.now values.now (subst_told body.now) (scope_of frames.old.items) (told out.old.items next.old)) }
    ensures demands { OnOk result (out.new.items ≡ (spec.fixed names.now values.now (subst_told body.now) (scope_of frames.old.items) (told out.old.items next.old)).demands) }
    ensures parts { OnOk result (next.new ≡ (spec.fixed names.now values.now (subst_told body.now) (scope_of frames.old.items) (told out.old.items next.old)).next) }
    ensures frames { OnOk result (frames.new.items ≡ frames.old.items) }
{
    tell_fixed(values, alloc, frames, out, next, names)?;
    tell_inner(body, alloc, frames, out, next)
}

// A body in the scope of bound names, which ends there.
#[cycle(tell)]
fn tell_inner(
    subst: &Subst,
    alloc: Global,
    frames: &mut Vec<Frame>,
    out: &mut Vec<Demand>,
    next: &mut usize,
) -> Result<(), AllocError>
    ensures tells { OnOk result (told out.new.items next.new ≡ subst_told subst.now (scope_of frames.old.items) (told out.old.items next.old)) }
    ensures demands { OnOk result (out.new.items ≡ (subst_told subst.now (scope_of frames.old.items) (told out.old.items next.old)).demands) }
    ensures parts { OnOk result (next.new ≡ (subst_told subst.now (scope_of frames.old.items) (told out.old.items next.old)).next) }
    ensures frames { OnOk result (frames.new.items ≡ without_last frames.old.items) }
{
    tell(subst, alloc, frames, out, next)?;
    close(frames);
    Ok(())
}

#[cycle(tell)]
fn tell_each(
    bodies: &[Subst],
    alloc: Global,
    frames: &mut Vec<Frame>,
    out: &mut Vec<Demand>,
    next: &mut usize,
) -> Result<(), AllocError>
    ensures tells { OnOk result (told out.new.items next.new ≡ spec.with_all (map subst_told bodies.now) (scope_of frames.old.items) (told out.old.items next.old)) }
    ensures demands { OnOk result (out.new.items ≡ (spec.with_all (map subst_told bodies.now) (scope_of frames.old.items) (told out.old.items next.old)).demands) }
    ensures parts { OnOk result (next.new ≡ (spec.with_all (map subst_told bodies.now) (scope_of frames.old.items) (told out.old.items next.old)).next) }
    ensures frames { OnOk result (frames.new.items ≡ frames.old.items) }
{
    for body in bodies {
        tell(body, alloc, frames, out, next)?;
    }
    Ok(())
}

#[cycle(tell)]
fn tell_branches(
    branches: &[Branch],
    alloc: Global,
    frames: &mut Vec<Frame>,
    out: &mut Vec<Demand>,
    next: &mut usize,
) -> Result<(), AllocError>
    ensures tells { OnOk result (told out.new.items next.new ≡ spec.with_all (map branch_told branches.now) (scope_of frames.old.items) (told out.old.items next.old)) }
    ensures demands { OnOk result (out.new.items ≡ (spec.with_all (map branch_told branches.now) (scope_of frames.old.items) (told out.old.items next.old)).demands) }
    ensures parts { OnOk result (next.new ≡ (spec.with_all (map branch_told branches.now) (scope_of frames.old.items) (told out.old.items next.old)).next) }
    ensures frames { OnOk result (frames.new.items ≡ frames.old.items) }
{
    for branch in branches {
        tell_branch(branch, alloc, frames, out, next)?;
    }
    Ok(())
}

#[cycle(tell)]
fn tell_branch(
    branch: &Branch,
    alloc: Global,
    frames: &mut Vec<Frame>,
    out: &mut Vec<Demand>,
    next: &mut usize,
) -> Result<(), AllocError>
    ensures tells { OnOk result (told out.new.items next.new ≡ branch_told branch.now (scope_of frames.old.items) (told out.old.items next.old)) }
    ensures demands { OnOk result (out.new.items ≡ (branch_told branch.now (scope_of frames.old.items) (told out.old.items next.old)).demands) }
    ensures parts { OnOk result (next.new ≡ (branch_told branch.now (scope_of frames.old.items) (told out.old.items next.old)).next) }
    ensures frames { OnOk result (frames.new.items ≡ frames.old.items) }
{
    tell_predicate(&branch.guard, alloc, frames, out, next)?;
    tell(&branch.body, alloc, frames, out, next)
}

#[cycle(tell)]
fn tell_cases(
    branches: &[CaseBranch],
    alloc: Global,
    frames: &mut Vec<Frame>,
    out: &mut Vec<Demand>,
    next: &mut usize,
    part: usize,
) -> Result<(), AllocError>
    ensures tells { OnOk result (told out.new.items next.new ≡ spec.with_cases part (map case_told branches.now) (scope_of frames.old.items) (told out.old.items next.old)) }
    ensures demands { OnOk result (out.new.items ≡ (spec.with_cases part (map case_told branches.now) (scope_of frames.old.items) (told out.old.items next.old)).demands) }
    ensures parts { OnOk result (next.new ≡ (spec.with_cases part (map case_told branches.now) (scope_of frames.old.items) (told out.old.items next.old)).next) }
    ensures frames { OnOk result (frames.new.items ≡ frames.old.items) }
{
    for branch in branches {
        tell_case(branch, alloc, frames, out, next, part)?;
    }
    Ok(())
}

#[cycle(tell)]
fn tell_case(
    branch: &CaseBranch,
    alloc: Global,
    frames: &mut Vec<Frame>,
    out: &mut Vec<Demand>,
    next: &mut usize,
    part: usize,
) -> Result<(), AllocError>
    ensures tells { OnOk result (told out.new.items next.new ≡ case_told branch.now part (scope_of frames.old.items) (told out.old.items next.old)) }
    ensures demands { OnOk result (out.new.items ≡ (case_told branch.now part (scope_of frames.old.items) (told out.old.items next.old)).demands) }
    ensures parts { OnOk result (next.new ≡ (case_told branch.now part (scope_of frames.old.items) (told out.old.items next.old)).next) }
    ensures frames { OnOk result (frames.new.items ≡ frames.old.items) }
{
    tell_all_alike(branch.labels.as_slice(), alloc, frames, out, next, part)?;
    tell(&branch.body, alloc, frames, out, next)
}

#[cycle(tell)]
fn tell_steps(
    steps: &[Step],
    alloc: Global,
    frames: &mut Vec<Frame>,
    out: &mut Vec<Demand>,
    next: &mut usize,
) -> Result<(), AllocError>
    ensures tells { OnOk result (told out.new.items next.new ≡ spec.with_all (map step_told steps.now) (scope_of frames.old.items) (told out.old.items next.old)) }
    ensures demands { OnOk result (out.new.items ≡ (spec.with_all (map step_told steps.now) (scope_of frames.old.items) (told out.old.items next.old)).demands) }
    ensures parts { OnOk result (next.new ≡ (spec.with_all (map step_told steps.now) (scope_of frames.old.items) (told out.old.items next.old)).next) }
    ensures frames { OnOk result (frames.new.items ≡ frames.old.items) }
{
    for step in steps {
        tell_step(step, alloc, frames, out, next)?;
    }
    Ok(())
}

#[cycle(tell)]
fn tell_step(
    step: &Step,
    alloc: Global,
    frames: &mut Vec<Frame>,
    out: &mut Vec<Demand>,
    next: &mut usize,
) -> Result<(), AllocError>
    ensures tells { OnOk result (told out.new.items next.new ≡ step_told step.now (scope_of frames.old.items) (told out.old.items next.old)) }
    ensures demands { OnOk result (out.new.items ≡ (step_told step.now (scope_of frames.old.items) (told out.old.items next.old)).demands) }
    ensures parts { OnOk result (next.new ≡ (step_told step.now (scope_of frames.old.items) (told out.old.items next.old)).next) }
    ensures frames { OnOk result (frames.new.items ≡ frames.old.items) }
{
    tell(&step.body, alloc, frames, out, next)
}
