//! What a substitution surely writes, and what it may read before.
ghost use Rattle.std.specs.Prelude.{◌≡◌, [], ◌∷◌, ◌++◌, IfOk, OnOk, filter, map};
ghost use Rattle.written_names.specs.Names.{among, at_if, both, either, has, is_among, named, none, or_else, without};
ghost use Rattle.written_names.specs.Reads.{read_in};
ghost use Rattle.written_names.specs.Times as spec;
ghost use Rattle.written_names.specs.Times.{joined_of, reads, reads_all, row_early, row_surely, timing_of, timing_of_branch, timing_of_case};

use crate::names::{Among, Names, add_all, first_of, list_of, list_of_one, names_of, set_of};
use crate::reads::{at_name, read, read_all};
use b_ast::machine::{Branch, CaseBranch, Joint, Step, Subst};
use b_ast::{Bound, Formula, Place};
use sqlite_items::Items;
use std::alloc::{AllocError, Global};

/// What a substitution does to names that have no value before it.
#[derive(Drop)]
pub struct Timed {
    /// The names that it surely writes.
    pub surely: Items<Items<u8>>,
    /// The first place at which it may read one of those names before it is surely written.
    pub early: Option<Place>,
}

#[tactic(auto, using(crate::proofs::Which::of_nothing))]
fn nothing(alloc: Global) -> Timed
    ensures surely { among result.surely ≡ none }
    ensures early { result.early ≡ None }
{
    Timed {
        surely: Items::new(alloc),
        early: None,
    }
}

// `x,y := E,F`
fn assigned(
    values: &[Formula],
    alloc: Global,
    unset: &Among,
    names: &[Bound],
) -> Result<Timed, AllocError>
    ensures surely { IfOk result (λ t. among t.surely ≡ named names.now) }
    ensures early { IfOk result (λ t. t.early ≡ reads_all values.now (is_among unset.now)) }
{
    let early = read_all(values, alloc, &*unset, &*unset)?;
    let surely = list_of(alloc, names)?;
    Ok(Timed { surely, early })
}

// The first place at which one of two formulas reads one of the names.
fn read_two(
    first: &Formula,
    second: &Formula,
    alloc: Global,
    unset: &Among,
) -> Result<Option<Place>, AllocError>
    ensures { IfOk result (λ at. at ≡ or_else (reads first.now (is_among unset.now)) (reads second.now (is_among unset.now))) }
{
    match read(first, alloc, &*unset, &*unset)? {
        Some(at) => Ok(Some(at)),
        None => read(second, alloc, &*unset, &*unset),
    }
}

// `f(E) := F`
fn updated(
    argument: &Formula,
    value: &Formula,
    alloc: Global,
    unset: &Among,
    name: &Bound,
) -> Result<Timed, AllocError>
    ensures surely { IfOk result (λ t. among t.surely ≡ named (name.now ∷ [])) }
    ensures early { IfOk result (λ t. t.early ≡ (spec.updated name.now argument.now value.now).early (is_among unset.now)) }
{
    let function = at_name(name.at, name.name.as_slice(), unset);
    let values = read_two(argument, value, alloc, unset)?;
    let surely = list_of_one(alloc, name)?;
    Ok(Timed {
        surely,
        early: first_of(function, values),
    })
}

// `x :: E`
fn chosen_from(
    set: &Formula,
    alloc: Global,
    unset: &Among,
    name: &Bound,
) -> Result<Timed, AllocError>
    ensures surely { IfOk result (λ t. among t.surely ≡ named (name.now ∷ [])) }
    ensures early { IfOk result (λ t. t.early ≡ reads set.now (is_among unset.now)) }
{
    let early = read(set, alloc, &*unset, &*unset)?;
    let surely = list_of_one(alloc, name)?;
    Ok(Timed { surely, early })
}

// The P of `x : (P)`.
fn read_new(
    p: &Formula,
    alloc: Global,
    unset: &Among,
    names: &[Bound],
) -> Result<Option<Place>, AllocError>
    ensures { IfOk result (λ at. at ≡ read_in p.now (without (named names.now) (is_among unset.now)) (is_among unset.now)) }
{
    let new = names_of(alloc, names)?;
    read(p, alloc, &Among::Without(&new, &*unset), &*unset)
}

// `x : (P)`
fn chosen_such(
    p: &Formula,
    alloc: Global,
    unset: &Among,
    names: &[Bound],
) -> Result<Timed, AllocError>
    ensures surely { IfOk result (λ t. among t.surely ≡ named names.now) }
    ensures early { IfOk result (λ t. t.early ≡ (spec.chosen_such names.now p.now).early (is_among unset.now)) }
{
    let early = read_new(p, alloc, unset, names)?;
    let surely = list_of(alloc, names)?;
    Ok(Timed { surely, early })
}

// Something was looked at before.
fn behind(early: Option<Place>, timed: Timed) -> Timed
    ensures surely { result.surely ≡ timed.surely }
    ensures early { result.early ≡ or_else early timed.early }
{
    let Timed {
        surely,
        early: later,
    } = timed;
    Timed {
        surely,
        early: first_of(early, later),
    }
}

// Those names that are in a set too.
fn kept(alloc: Global, names: &[Items<u8>], others: &Names) -> Result<Items<Items<u8>>, AllocError>
    ensures { IfOk result (λ list. list ≡ filter (has others.now) names.now) }
{
    let mut list = Items::new(alloc);
    for name in names {
        if others.has(name.as_slice()) {
            list.push(Items::from_slice(alloc, name.as_slice())?)?;
        }
    }
    Ok(list)
}

// One of two branches is taken.
#[tactic(auto, using(crate::proofs::Which::keeps))]
fn beside(alloc: Global, first: Timed, second: Timed) -> Result<Timed, AllocError>
    ensures surely { IfOk result (λ t. among t.surely ≡ both (among first.surely) (among second.surely)) }
    ensures early { IfOk result (λ t. t.early ≡ or_else first.early second.early) }
{
    let others = set_of(alloc, second.surely.as_slice())?;
    let surely = kept(alloc, first.surely.as_slice(), &others)?;
    Ok(Timed {
        surely,
        early: first_of(first.early, second.early),
    })
}

// A branch may be taken, or nothing be done.
#[tactic(auto, using(crate::proofs::Which::of_nothing))]
fn or_skip(alloc: Global, timed: Timed) -> Timed
    ensures surely { among result.surely ≡ both (among timed.surely) none }
    ensures early { result.early ≡ timed.early }
{
    let Timed {
        surely: _written,
        early,
    } = timed;
    let none = Items::new(alloc);
    Timed {
        surely: none,
        early,
    }
}

// The names without a value at a right side: behind `;` what stands before it in the row has one.
fn unset_behind<'a>(sign: Joint, before: &'a Names, unset: &'a Among<'a>) -> Among<'a>
    ensures { is_among result ≡ spec.unset_behind sign (has before.now) (is_among unset.now) }
{
    match sign {
        Joint::Parallel => *unset,
        Joint::Sequence => Among::Without(before, unset),
    }
}

// One more side of a row; `before` are the names that the row surely writes.
#[tactic(auto, using(crate::proofs::Which::joins))]
fn joined(alloc: Global, before: &mut Names, done: Timed, right: Timed) -> Result<Timed, AllocError>
    requires { has before.old ≡ among done.surely }
    ensures surely { IfOk result (λ t. among t.surely ≡ either (among done.surely) (among right.surely)) }
    ensures early { IfOk result (λ t. t.early ≡ or_else done.early right.early) }
    ensures before { IfOk result (λ t. has before.new ≡ among t.surely) }
{
    let Timed {
        surely: more,
        early: later,
    } = right;
    add_all(before, alloc, more.as_slice())?;
    let Timed { mut surely, early } = done;
    surely.append(more)?;
    Ok(Timed {
        surely,
        early: first_of(early, later),
    })
}

/// What a substitution surely writes, and where it may read one of the names that have no value before.
#[cycle(timing)]
pub fn timing_in(subst: &Subst, alloc: Global, unset: &Among) -> Result<Timed, AllocError>
    ensures surely { IfOk result (λ t. among t.surely ≡ (timing_of subst.now).surely) }
    ensures early { IfOk result (λ t. t.early ≡ (timing_of subst.now).early (is_among unset.now)) }
{
    match subst {
        Subst::Skip(_) => Ok(nothing(alloc)),
        Subst::Block(_, body) => timing_in(body.get(), alloc, unset),
        Subst::Assign(_, names, values) => {
            assigned(values.as_slice(), alloc, unset, names.as_slice())
        }
        Subst::Update(_, name, argument, value) => updated(argument, value, alloc, unset, name),
        Subst::ChooseFrom(_, name, set) => chosen_from(set, alloc, unset, name),
        Subst::ChooseSuch(_, names, p) => chosen_such(p, alloc, unset, names.as_slice()),
        Subst::Guarded(_, _, p, body) => timed_behind(body.get(), alloc, unset, p),
        Subst::If(_, branches, otherwise) => {
            let done = timed_branches(branches.as_slice(), alloc, unset)?;
            match otherwise {
                Some(body) => timed_beside(body.get(), alloc, unset, done),
                None => Ok(or_skip(alloc, done)),
            }
        }
        Subst::Select(_, branches, otherwise) => {
            let done = timed_branches(branches.as_slice(), alloc, unset)?;
            match otherwise {
                Some(body) => timed_beside(body.get(), alloc, unset, done),
                None => Ok(done),
            }
        }
        Subst::Choice(_, bodies) => timed_each(bodies.as_slice(), alloc, unset),
        Subst::Case(_, value, branches, otherwise) => {
            let early = read(value, alloc, &*unset, &*unset)?;
            let done = timed_cases(branches.as_slice(), alloc, unset)?;
            match otherwise {
                Some(body) => {
                    let done = timed_beside(body.get(), alloc, unset, done)?;
                    Ok(behind(early, done))
                }
                None => Ok(behind(early, or_skip(alloc, done))),
            }
        }
        Subst::Any(_, names, p, body) => timed_any(body.get(), alloc, unset, names.as_slice(), p),
        Subst::Let(_, names, values, body) => {
            let early = read_all(values.as_slice(), alloc, &*unset, &*unset)?;
            let done = timed_inside(body.get(), alloc, unset, names.as_slice())?;
            Ok(behind(early, done))
        }
        Subst::Chain(first, steps) => {
            let begun = timing_in(first.get(), alloc, unset)?;
            timed_row(steps.as_slice(), alloc, unset, begun)
        }
        Subst::Use(_, _, _) => Ok(nothing(alloc)),
    }
}

// A body behind a predicate.
#[cycle(timing)]
fn timed_behind(
    body: &Subst,
    alloc: Global,
    unset: &Among,
    p: &Formula,
) -> Result<Timed, AllocError>
    ensures surely { IfOk result (λ t. among t.surely ≡ (timing_of body.now).surely) }
    ensures early { IfOk result (λ t. t.early ≡ or_else (reads p.now (is_among unset.now)) ((timing_of body.now).early (is_among unset.now))) }
{
    let early = read(p, alloc, &*unset, &*unset)?;
    let done = timing_in(body, alloc, unset)?;
    Ok(behind(early, done))
}

// One more branch.
#[cycle(timing)]
fn timed_beside(
    body: &Subst,
    alloc: Global,
    unset: &Among,
    done: Timed,
) -> Result<Timed, AllocError>
    ensures surely { IfOk result (λ t. among t.surely ≡ both (among done.surely) (timing_of body.now).surely) }
    ensures early { IfOk result (λ t. t.early ≡ or_else done.early ((timing_of body.now).early (is_among unset.now))) }
{
    let next = timing_in(body, alloc, unset)?;
    beside(alloc, done, next)
}

// A body in which bound names hide others.
#[cycle(timing)]
fn timed_inside(
    body: &Subst,
    alloc: Global,
    unset: &Among,
    names: &[Bound],
) -> Result<Timed, AllocError>
    ensures surely { IfOk result (λ t. among t.surely ≡ (timing_of body.now).surely) }
    ensures early { IfOk result (λ t. t.early ≡ (timing_of body.now).early (without (named names.now) (is_among unset.now))) }
{
    let hidden = names_of(alloc, names)?;
    timing_in(body, alloc, &Among::Without(&hidden, &*unset))
}

// `ANY x WHERE P THEN S END`
#[cycle(timing)]
fn timed_any(
    body: &Subst,
    alloc: Global,
    unset: &Among,
    names: &[Bound],
    p: &Formula,
) -> Result<Timed, AllocError>
    ensures surely { IfOk result (λ t. among t.surely ≡ (timing_of body.now).surely) }
    ensures early { IfOk result (λ t. t.early ≡ or_else (reads p.now (without (named names.now) (is_among unset.now))) ((timing_of body.now).early (without (named names.now) (is_among unset.now)))) }
{
    let hidden = names_of(alloc, names)?;
    timed_behind(body, alloc, &Among::Without(&hidden, &*unset), p)
}

#[cycle(timing)]
fn timed_each(bodies: &[Subst], alloc: Global, unset: &Among) -> Result<Timed, AllocError>
    ensures surely { IfOk result (λ t. among t.surely ≡ (spec.one_of (map timing_of bodies.now)).surely) }
    ensures early { IfOk result (λ t. t.early ≡ (spec.one_of (map timing_of bodies.now)).early (is_among unset.now)) }
{
    match bodies {
        [] => Ok(nothing(alloc)),
        [first, others @ ..] => {
            let mut done = timing_in(first, alloc, unset)?;
            for body in others {
                done = timed_beside(body, alloc, unset, done)?;
            }
            Ok(done)
        }
    }
}

#[cycle(timing)]
fn timed_branches(branches: &[Branch], alloc: Global, unset: &Among) -> Result<Timed, AllocError>
    ensures surely { IfOk result (λ t. among t.surely ≡ (spec.one_of (map timing_of_branch branches.now)).surely) }
    ensures early { IfOk result (λ t. t.early ≡ (spec.one_of (map timing_of_branch branches.now)).early (is_among unset.now)) }
{
    match branches {
        [] => Ok(nothing(alloc)),
        [first, others @ ..] => {
            let mut done = timed_branch(first, alloc, unset)?;
            for branch in others {
                let next = timed_branch(branch, alloc, unset)?;
                done = beside(alloc, done, next)?;
            }
            Ok(done)
        }
    }
}

#[cycle(timing)]
fn timed_branch(branch: &Branch, alloc: Global, unset: &Among) -> Result<Timed, AllocError>
    ensures surely { IfOk result (λ t. among t.surely ≡ (timing_of_branch branch.now).surely) }
    ensures early { IfOk result (λ t. t.early ≡ (timing_of_branch branch.now).early (is_among unset.now)) }
{
    timed_behind(&branch.body, alloc, unset, &branch.guard)
}

#[cycle(timing)]
fn timed_cases(branches: &[CaseBranch], alloc: Global, unset: &Among) -> Result<Timed, AllocError>
    ensures surely { IfOk result (λ t. among t.surely ≡ (spec.one_of (map timing_of_case branches.now)).surely) }
    ensures early { IfOk result (λ t. t.early ≡ (spec.one_of (map timing_of_case branches.now)).early (is_among unset.now)) }
{
    match branches {
        [] => Ok(nothing(alloc)),
        [first, others @ ..] => {
            let mut done = timed_case(first, alloc, unset)?;
            for branch in others {
                let next = timed_case(branch, alloc, unset)?;
                done = beside(alloc, done, next)?;
            }
            Ok(done)
        }
    }
}

#[cycle(timing)]
fn timed_case(branch: &CaseBranch, alloc: Global, unset: &Among) -> Result<Timed, AllocError>
    ensures surely { IfOk result (λ t. among t.surely ≡ (timing_of_case branch.now).surely) }
    ensures early { IfOk result (λ t. t.early ≡ (timing_of_case branch.now).early (is_among unset.now)) }
{
    let early = read_all(branch.labels.as_slice(), alloc, &*unset, &*unset)?;
    let done = timing_in(&branch.body, alloc, unset)?;
    Ok(behind(early, done))
}

#[cycle(timing)]
fn timed_row(
    steps: &[Step],
    alloc: Global,
    unset: &Among,
    begun: Timed,
) -> Result<Timed, AllocError>
    ensures surely { IfOk result (λ t. among t.surely ≡ row_surely (among begun.surely) (map joined_of steps.now)) }
    ensures early { IfOk result (λ t. t.early ≡ row_early begun.early (among begun.surely) (map joined_of steps.now) (is_among unset.now)) }
{
    let mut before = set_of(alloc, begun.surely.as_slice())?;
    let mut done = begun;
    for step in steps {
        let here = unset_behind(step.joint, &before, &*unset);
        let right = timing_in(&step.body, alloc, &here)?;
        done = joined(alloc, &mut before, done, right)?;
    }
    Ok(done)
}
