//! Names that are written twice at once.
ghost use Rattle.std.specs.Prelude.{◌≡◌, IfOk, map};
ghost use Rattle.std.specs.List.{list_any};
ghost use Rattle.written_names.specs.Doubles as spec;
ghost use Rattle.written_names.specs.Doubles.{all_beside, joined_of, writing_of, writing_of_branch, writing_of_case};
ghost use Rattle.written_names.specs.Names.{among, has, none};

use crate::names::{Names, add_all, at_if, first_of, list_of, list_of_one, set_of};
use b_ast::machine::{Branch, CaseBranch, Joint, Step, Subst};
use b_ast::{Bound, Place};
use sqlite_items::Items;
use std::alloc::{AllocError, Global};

/// What a substitution may write.
#[derive(Drop)]
pub struct Writing {
    /// Its targets in reading order.
    pub targets: Items<Items<u8>>,
    /// The first place at which a name is written twice at once.
    pub double: Option<Place>,
}

fn nothing(alloc: Global) -> Writing
    ensures { result ≡ spec.nothing }
{
    Writing {
        targets: Items::new(alloc),
        double: None,
    }
}

// The first name that is one of those before it.
fn again(alloc: Global, names: &[Bound]) -> Result<Option<Place>, AllocError>
    ensures { IfOk result (λ at. at ≡ spec.again none names.now) }
{
    let mut before = Names::new(alloc);
    for name in names {
        if before.has(name.name.as_slice()) {
            return Ok(Some(name.at));
        }
        before.put(alloc, name.name.as_slice())?;
    }
    Ok(None)
}

fn assigned(alloc: Global, names: &[Bound]) -> Result<Writing, AllocError>
    ensures { IfOk result (λ w. w ≡ spec.assigned names.now) }
{
    let targets = list_of(alloc, names)?;
    let double = again(alloc, names)?;
    Ok(Writing { targets, double })
}

fn assigned_one(alloc: Global, name: &Bound) -> Result<Writing, AllocError>
    ensures { IfOk result (λ w. w ≡ spec.assigned_one name.now) }
{
    let targets = list_of_one(alloc, name)?;
    Ok(Writing {
        targets,
        double: None,
    })
}

// What stands on different branches.
fn beside(first: Writing, second: Writing) -> Result<Writing, AllocError>
    ensures { IfOk result (λ w. w ≡ spec.beside first second) }
{
    let Writing {
        mut targets,
        double,
    } = first;
    let Writing {
        targets: more,
        double: later,
    } = second;
    targets.append(more)?;
    Ok(Writing {
        targets,
        double: first_of(double, later),
    })
}

fn any_among(names: &Names, xs: &[Items<u8>]) -> bool
    ensures { result ≡ list_any (has names.now) xs.now }
{
    for x in xs {
        if names.has(x.as_slice()) {
            return true;
        }
    }
    false
}

fn clash(sign: Joint, at: Place, before: &Names, right: &[Items<u8>]) -> Option<Place>
    ensures { result ≡ spec.clash sign at (has before.now) right.now }
{
    match sign {
        Joint::Parallel => at_if(any_among(before, right), at),
        Joint::Sequence => None,
    }
}

// One more side of a row; `before` are the names that the row writes.
#[tactic(auto, using(crate::proofs::Which::joins))]
fn joined(
    alloc: Global,
    before: &mut Names,
    done: Writing,
    sign: Joint,
    at: Place,
    right: Writing,
) -> Result<Writing, AllocError>
    requires { has before.old ≡ among done.targets }
    ensures writing { IfOk result (λ w. w ≡ spec.joined done (record { sign = sign; at = at; right = right })) }
    ensures names { IfOk result (λ w. has before.new ≡ among w.targets) }
{
    let Writing {
        targets: more,
        double: later,
    } = right;
    let here = clash(sign, at, before, more.as_slice());
    add_all(before, alloc, more.as_slice())?;
    let Writing {
        mut targets,
        double,
    } = done;
    targets.append(more)?;
    Ok(Writing {
        targets,
        double: first_of(double, first_of(here, later)),
    })
}

/// What a substitution may write.
#[cycle(writing)]
pub fn writing_in(subst: &Subst, alloc: Global) -> Result<Writing, AllocError>
    ensures { IfOk result (λ w. w ≡ writing_of subst.now) }
{
    match subst {
        Subst::Skip(_) => Ok(nothing(alloc)),
        Subst::Block(_, body) => writing_in(body.get(), alloc),
        Subst::Assign(_, names, _) => assigned(alloc, names.as_slice()),
        Subst::Update(_, name, _, _) => assigned_one(alloc, name),
        Subst::ChooseFrom(_, name, _) => assigned_one(alloc, name),
        Subst::ChooseSuch(_, names, _) => assigned(alloc, names.as_slice()),
        Subst::Guarded(_, _, _, body) => writing_in(body.get(), alloc),
        Subst::If(_, branches, otherwise) => {
            let done = writing_in_branches(branches.as_slice(), alloc)?;
            match otherwise {
                Some(body) => {
                    let next = writing_in(body.get(), alloc)?;
                    beside(done, next)
                }
                None => Ok(done),
            }
        }
        Subst::Select(_, branches, otherwise) => {
            let done = writing_in_branches(branches.as_slice(), alloc)?;
            match otherwise {
                Some(body) => {
                    let next = writing_in(body.get(), alloc)?;
                    beside(done, next)
                }
                None => Ok(done),
            }
        }
        Subst::Choice(_, bodies) => writing_in_each(bodies.as_slice(), alloc),
        Subst::Case(_, _, branches, otherwise) => {
            let done = writing_in_cases(branches.as_slice(), alloc)?;
            match otherwise {
                Some(body) => {
                    let next = writing_in(body.get(), alloc)?;
                    beside(done, next)
                }
                None => Ok(done),
            }
        }
        Subst::Any(_, _, _, body) => writing_in(body.get(), alloc),
        Subst::Let(_, _, _, body) => writing_in(body.get(), alloc),
        Subst::Chain(first, steps) => {
            let begun = writing_in(first.get(), alloc)?;
            writing_in_row(steps.as_slice(), alloc, begun)
        }
        Subst::Use(_, _, _) => Ok(nothing(alloc)),
    }
}

#[cycle(writing)]
fn writing_in_each(bodies: &[Subst], alloc: Global) -> Result<Writing, AllocError>
    ensures { IfOk result (λ w. w ≡ all_beside spec.nothing (map writing_of bodies.now)) }
{
    let mut done = nothing(alloc);
    for body in bodies {
        let next = writing_in(body, alloc)?;
        done = beside(done, next)?;
    }
    Ok(done)
}

#[cycle(writing)]
fn writing_in_branches(branches: &[Branch], alloc: Global) -> Result<Writing, AllocError>
    ensures { IfOk result (λ w. w ≡ all_beside spec.nothing (map writing_of_branch branches.now)) }
{
    let mut done = nothing(alloc);
    for branch in branches {
        let next = writing_in(&branch.body, alloc)?;
        done = beside(done, next)?;
    }
    Ok(done)
}

#[cycle(writing)]
fn writing_in_cases(branches: &[CaseBranch], alloc: Global) -> Result<Writing, AllocError>
    ensures { IfOk result (λ w. w ≡ all_beside spec.nothing (map writing_of_case branches.now)) }
{
    let mut done = nothing(alloc);
    for branch in branches {
        let next = writing_in(&branch.body, alloc)?;
        done = beside(done, next)?;
    }
    Ok(done)
}

#[cycle(writing)]
fn writing_in_row(steps: &[Step], alloc: Global, begun: Writing) -> Result<Writing, AllocError>
    ensures { IfOk result (λ w. w ≡ spec.row begun (map joined_of steps.now)) }
{
    let mut before = set_of(alloc, begun.targets.as_slice())?;
    let mut done = begun;
    for step in steps {
        let right = writing_in(&step.body, alloc)?;
        done = joined(alloc, &mut before, done, step.joint, step.at, right)?;
    }
    Ok(done)
}
