//! The definitions that substitutions use.
ghost use Rattle.std.specs.Prelude.{◌≡◌, ◌++◌, map, IfOk};
ghost use Rattle.b_definitions.specs.Uses as spec;
ghost use Rattle.b_definitions.specs.Bodies.{IsReady};

use crate::uses::{Body, binds, collect, collect_all, meant, with_meant};
use b_ast::machine::{Branch, CaseBranch, Step, Subst};
use sqlite_items::Items;
use std::alloc::AllocError;

/// Some places and those of the definitions that a substitution uses. Names that are written to are no uses.
#[cycle(collect_subst)]
#[tactic(auto, using(crate::proofs::Joining::nothing_more, crate::proofs::Joining::joined_two))]
pub fn collect_subst(
    subst: &Subst,
    found: Items<usize>,
    body: &Body<'_>,
) -> Result<Items<usize>, AllocError>
    requires { IsReady body.now }
    ensures { IfOk result (λ xs. xs ≡ found ++ spec.used_in_subst body.now.table.now body.now.params.now subst.now) }
{
    match subst {
        Subst::Skip(_) => Ok(found),
        Subst::Block(_, s) => collect_subst(s.get(), found, body),
        Subst::Assign(_, _, es) => collect_all(es.as_slice(), found, body),
        Subst::Update(_, _, e, f) => {
            let found = collect(e, found, body)?;
            collect(f, found, body)
        }
        Subst::ChooseFrom(_, _, e) => collect(e, found, body),
        Subst::ChooseSuch(_, _, p) => collect(p, found, body),
        Subst::Guarded(_, _, p, s) => {
            let found = collect(p, found, body)?;
            collect_subst(s.get(), found, body)
        }
        Subst::If(_, branches, other) => {
            let found = collect_branches(branches.as_slice(), found, body)?;
            match other {
                Some(s) => collect_subst(s.get(), found, body),
                None => Ok(found),
            }
        }
        Subst::Select(_, branches, other) => {
            let found = collect_branches(branches.as_slice(), found, body)?;
            match other {
                Some(s) => collect_subst(s.get(), found, body),
                None => Ok(found),
            }
        }
        Subst::Choice(_, substs) => collect_substs(substs.as_slice(), found, body),
        Subst::Case(_, e, branches, other) => {
            let found = collect(e, found, body)?;
            let found = collect_cases(branches.as_slice(), found, body)?;
            match other {
                Some(s) => collect_subst(s.get(), found, body),
                None => Ok(found),
            }
        }
        Subst::Any(_, ns, p, s) => {
            if binds(ns.as_slice(), body) {
                Ok(found)
            } else {
                let found = collect(p, found, body)?;
                collect_subst(s.get(), found, body)
            }
        }
        Subst::Let(_, ns, es, s) => {
            if binds(ns.as_slice(), body) {
                Ok(found)
            } else {
                let found = collect_all(es.as_slice(), found, body)?;
                collect_subst(s.get(), found, body)
            }
        }
        Subst::Chain(s, steps) => {
            let found = collect_subst(s.get(), found, body)?;
            collect_steps(steps.as_slice(), found, body)
        }
        Subst::Use(_, x, es) => {
            let found = with_meant(meant(body, x.as_slice()), found)?;
            collect_all(es.as_slice(), found, body)
        }
    }
}

#[cycle(collect_subst)]
#[tactic(auto, using(crate::proofs::Joining::nothing_more, crate::proofs::Joining::joined_two))]
fn collect_substs(
    substs: &[Subst],
    found: Items<usize>,
    body: &Body<'_>,
) -> Result<Items<usize>, AllocError>
    requires { IsReady body.now }
    ensures { IfOk result (λ xs. xs ≡ found ++ spec.joined (map (spec.used_in_subst body.now.table.now body.now.params.now) substs.now)) }
{
    let mut all = found;
    for subst in substs {
        all = collect_subst(subst, all, body)?;
    }
    Ok(all)
}

#[cycle(collect_subst)]
#[tactic(auto, using(crate::proofs::Joining::nothing_more, crate::proofs::Joining::joined_two))]
fn collect_branches(
    branches: &[Branch],
    found: Items<usize>,
    body: &Body<'_>,
) -> Result<Items<usize>, AllocError>
    requires { IsReady body.now }
    ensures { IfOk result (λ xs. xs ≡ found ++ spec.joined (map (spec.used_in_branch body.now.table.now body.now.params.now) branches.now)) }
{
    let mut all = found;
    for branch in branches {
        all = collect_branch(branch, all, body)?;
    }
    Ok(all)
}

#[cycle(collect_subst)]
#[tactic(auto, using(crate::proofs::Joining::joined_two))]
fn collect_branch(
    branch: &Branch,
    found: Items<usize>,
    body: &Body<'_>,
) -> Result<Items<usize>, AllocError>
    requires { IsReady body.now }
    ensures { IfOk result (λ xs. xs ≡ found ++ spec.used_in_branch body.now.table.now body.now.params.now branch.now) }
{
    let found = collect(&branch.guard, found, body)?;
    collect_subst(&branch.body, found, body)
}

#[cycle(collect_subst)]
#[tactic(auto, using(crate::proofs::Joining::nothing_more, crate::proofs::Joining::joined_two))]
fn collect_cases(
    branches: &[CaseBranch],
    found: Items<usize>,
    body: &Body<'_>,
) -> Result<Items<usize>, AllocError>
    requires { IsReady body.now }
    ensures { IfOk result (λ xs. xs ≡ found ++ spec.joined (map (spec.used_in_case body.now.table.now body.now.params.now) branches.now)) }
{
    let mut all = found;
    for branch in branches {
        all = collect_case(branch, all, body)?;
    }
    Ok(all)
}

#[cycle(collect_subst)]
#[tactic(auto, using(crate::proofs::Joining::joined_two))]
fn collect_case(
    branch: &CaseBranch,
    found: Items<usize>,
    body: &Body<'_>,
) -> Result<Items<usize>, AllocError>
    requires { IsReady body.now }
    ensures { IfOk result (λ xs. xs ≡ found ++ spec.used_in_case body.now.table.now body.now.params.now branch.now) }
{
    let found = collect_all(branch.labels.as_slice(), found, body)?;
    collect_subst(&branch.body, found, body)
}

#[cycle(collect_subst)]
#[tactic(auto, using(crate::proofs::Joining::nothing_more, crate::proofs::Joining::joined_two))]
fn collect_steps(
    steps: &[Step],
    found: Items<usize>,
    body: &Body<'_>,
) -> Result<Items<usize>, AllocError>
    requires { IsReady body.now }
    ensures { IfOk result (λ xs. xs ≡ found ++ spec.joined (map (spec.used_in_step body.now.table.now body.now.params.now) steps.now)) }
{
    let mut all = found;
    for step in steps {
        all = collect_step(step, all, body)?;
    }
    Ok(all)
}

#[cycle(collect_subst)]
fn collect_step(
    step: &Step,
    found: Items<usize>,
    body: &Body<'_>,
) -> Result<Items<usize>, AllocError>
    requires { IsReady body.now }
    ensures { IfOk result (λ xs. xs ≡ found ++ spec.used_in_step body.now.table.now body.now.params.now step.now) }
{
    collect_subst(&step.body, found, body)
}
