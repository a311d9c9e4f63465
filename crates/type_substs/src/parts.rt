//! Formulas and names of a substitution, one after another.
ghost use Rattle.std.specs.Prelude.{◌≡◌, ◌+◌, IfOk, OnOk};
ghost use Rattle.type_demands.specs.Scopes.{names_of, scope_of, without_last};
ghost use Rattle.type_substs.specs.Substitutions as forms;
ghost use Rattle.type_substs.specs.Told as spec;
ghost use Rattle.type_substs.specs.Told.{told, whole_after};

use crate::scopes::open_old;
use b_ast::{Bound, Formula};
use std::alloc::{AllocError, Global};
use type_demands::{
    Demand, Frame, close, frame_of, keep_one, open_names, take, take_all, tell_twice, walk,
    walk_name, walk_predicate,
};
use type_schemes::Rule;

/// A formula of any type; gives the part that is its whole.
pub fn tell_formula(
    e: &Formula,
    alloc: Global,
    frames: &mut Vec<Frame>,
    out: &mut Vec<Demand>,
    next: &mut usize,
) -> Result<usize, AllocError>
    ensures whole { IfOk result (λ w. w ≡ whole_after e.now (told out.old.items next.old)) }
    ensures tells { OnOk result (told out.new.items next.new ≡ spec.with_formula e.now (scope_of frames.old.items) (told out.old.items next.old)) }
    ensures demands { OnOk result (out.new.items ≡ (spec.with_formula e.now (scope_of frames.old.items) (told out.old.items next.old)).demands) }
    ensures parts { OnOk result (next.new ≡ (spec.with_formula e.now (scope_of frames.old.items) (told out.old.items next.old)).next) }
    ensures frames { OnOk result (frames.new.items ≡ frames.old.items) }
{
    walk(e, alloc, frames, out, next)
}

/// A predicate.
pub fn tell_predicate(
    p: &Formula,
    alloc: Global,
    frames: &mut Vec<Frame>,
    out: &mut Vec<Demand>,
    next: &mut usize,
) -> Result<(), AllocError>
    ensures tells { OnOk result (told out.new.items next.new ≡ spec.with_predicate p.now (scope_of frames.old.items) (told out.old.items next.old)) }
    ensures demands { OnOk result (out.new.items ≡ (spec.with_predicate p.now (scope_of frames.old.items) (told out.old.items next.old)).demands) }
    ensures parts { OnOk result (next.new ≡ (spec.with_predicate p.now (scope_of frames.old.items) (told out.old.items next.old)).next) }
    ensures frames { OnOk result (frames.new.items ≡ frames.old.items) }
{
    walk_predicate(p, alloc, frames, out, next)?;
    Ok(())
}

// A formula of the type of a part.
fn tell_alike(
    e: &Formula,
    alloc: Global,
    frames: &mut Vec<Frame>,
    out: &mut Vec<Demand>,
    next: &mut usize,
    part: usize,
) -> Result<(), AllocError>
    ensures tells { OnOk result (told out.new.items next.new ≡ spec.with_alike part e.now (scope_of frames.old.items) (told out.old.items next.old)) }
    ensures demands { OnOk result (out.new.items ≡ (spec.with_alike part e.now (scope_of frames.old.items) (told out.old.items next.old)).demands) }
    ensures parts { OnOk result (next.new ≡ (spec.with_alike part e.now (scope_of frames.old.items) (told out.old.items next.old)).next) }
    ensures frames { OnOk result (frames.new.items ≡ frames.old.items) }
{
    let whole = walk(e, alloc, frames, out, next)?;
    keep_one(out, Rule::Alike, whole, whole, part)
}

/// Formulas that are all of the type of one part.
pub fn tell_all_alike(
    es: &[Formula],
    alloc: Global,
    frames: &mut Vec<Frame>,
    out: &mut Vec<Demand>,
    next: &mut usize,
    part: usize,
) -> Result<(), AllocError>
    ensures tells { OnOk result (told out.new.items next.new ≡ spec.with_all_alike part es.now (scope_of frames.old.items) (told out.old.items next.old)) }
    ensures demands { OnOk result (out.new.items ≡ (spec.with_all_alike part es.now (scope_of frames.old.items) (told out.old.items next.old)).demands) }
    ensures parts { OnOk result (next.new ≡ (spec.with_all_alike part es.now (scope_of frames.old.items) (told out.old.items next.old)).next) }
    ensures frames { OnOk result (frames.new.items ≡ frames.old.items) }
{
    for e in es {
        tell_alike(e, alloc, frames, out, next, part)?;
    }
    Ok(())
}

/// Formulas of the types of parts that follow one another.
pub fn tell_values(
    es: &[Formula],
    alloc: Global,
    frames: &mut Vec<Frame>,
    out: &mut Vec<Demand>,
    next: &mut usize,
    first: usize,
) -> Result<(), AllocError>
    ensures tells { OnOk result (told out.new.items next.new ≡ spec.with_values first es.now (scope_of frames.old.items) (told out.old.items next.old)) }
    ensures demands { OnOk result (out.new.items ≡ (spec.with_values first es.now (scope_of frames.old.items) (told out.old.items next.old)).demands) }
    ensures parts { OnOk result (next.new ≡ (spec.with_values first es.now (scope_of frames.old.items) (told out.old.items next.old)).next) }
    ensures frames { OnOk result (frames.new.items ≡ frames.old.items) }
{
    let mut after = first;
    for e in es {
        let part = take(&mut after)?;
        tell_alike(e, alloc, frames, out, next, part)?;
    }
    Ok(())
}

/// A name that is written; gives its part.
pub fn tell_target(
    frames: &[Frame],
    out: &mut Vec<Demand>,
    next: &mut usize,
    name: &Bound,
) -> Result<usize, AllocError>
    ensures whole { IfOk result (λ w. w ≡ next.old) }
    ensures tells { OnOk result (told out.new.items next.new ≡ spec.with_target name.now (scope_of frames.now) (told out.old.items next.old)) }
    ensures demands { OnOk result (out.new.items ≡ (spec.with_target name.now (scope_of frames.now) (told out.old.items next.old)).demands) }
    ensures parts { OnOk result (next.new ≡ (spec.with_target name.now (scope_of frames.now) (told out.old.items next.old)).next) }
{
    walk_name(frames, out, next, name.name.as_slice())
}

/// Names that are written.
pub fn tell_targets(
    frames: &[Frame],
    out: &mut Vec<Demand>,
    next: &mut usize,
    names: &[Bound],
) -> Result<(), AllocError>
    ensures tells { OnOk result (told out.new.items next.new ≡ spec.with_targets names.now (scope_of frames.now) (told out.old.items next.old)) }
    ensures demands { OnOk result (out.new.items ≡ (spec.with_targets names.now (scope_of frames.now) (told out.old.items next.old)).demands) }
    ensures parts { OnOk result (next.new ≡ (spec.with_targets names.now (scope_of frames.now) (told out.old.items next.old)).next) }
{
    for name in names {
        tell_target(frames, out, next, name)?;
    }
    Ok(())
}

// P in `x : (P)`.
fn tell_new(
    p: &Formula,
    alloc: Global,
    frames: &mut Vec<Frame>,
    out: &mut Vec<Demand>,
    next: &mut usize,
    names: &[Bound],
) -> Result<(), AllocError>
    ensures tells { OnOk result (told out.new.items next.new ≡ spec.with_predicate p.now (spec.with_old (names_of names.now) (scope_of frames.old.items)) (told out.old.items next.old)) }
    ensures demands { OnOk result (out.new.items ≡ (spec.with_predicate p.now (spec.with_old (names_of names.now) (scope_of frames.old.items)) (told out.old.items next.old)).demands) }
    ensures parts { OnOk result (next.new ≡ (spec.with_predicate p.now (spec.with_old (names_of names.now) (scope_of frames.old.items)) (told out.old.items next.old)).next) }
    ensures frames { OnOk result (frames.new.items ≡ frames.old.items) }
{
    open_old(alloc, frames, names)?;
    tell_predicate(p, alloc, frames, out, next)?;
    close(frames);
    Ok(())
}

/// `x,y := E,F`
pub fn tell_assigned(
    es: &[Formula],
    alloc: Global,
    frames: &mut Vec<Frame>,
    out: &mut Vec<Demand>,
    next: &mut usize,
    names: &[Bound],
) -> Result<(), AllocError>
    ensures tells { OnOk result (told out.new.items next.new ≡ forms.assigned names.now es.now (scope_of frames.old.items) (told out.old.items next.old)) }
    ensures demands { OnOk result (out.new.items ≡ (forms.assigned names.now es.now (scope_of frames.old.items) (told out.old.items next.old)).demands) }
    ensures parts { OnOk result (next.new ≡ (forms.assigned names.now es.now (scope_of frames.old.items) (told out.old.items next.old)).next) }
    ensures frames { OnOk result (frames.new.items ≡ frames.old.items) }
{
    let first = *next;
    tell_targets(frames.as_slice(), out, next, names)?;
    tell_values(es, alloc, frames, out, next, first)
}

/// `f(E) := F`
pub fn tell_updated(
    e: &Formula,
    alloc: Global,
    frames: &mut Vec<Frame>,
    out: &mut Vec<Demand>,
    next: &mut usize,
    name: &Bound,
    value: &Formula,
) -> Result<(), AllocError>
    ensures tells { OnOk result (told out.new.items next.new ≡ forms.updated name.now e.now value.now (scope_of frames.old.items) (told out.old.items next.old)) }
    ensures demands { OnOk result (out.new.items ≡ (forms.updated name.now e.now value.now (scope_of frames.old.items) (told out.old.items next.old)).demands) }
    ensures parts { OnOk result (next.new ≡ (forms.updated name.now e.now value.now (scope_of frames.old.items) (told out.old.items next.old)).next) }
    ensures frames { OnOk result (frames.new.items ≡ frames.old.items) }
{
    let function = tell_target(frames.as_slice(), out, next, name)?;
    let argument = tell_formula(e, alloc, frames, out, next)?;
    let image = tell_formula(value, alloc, frames, out, next)?;
    keep_one(out, Rule::Application, function, argument, image)
}

/// `x :: E`
pub fn tell_chosen_from(
    e: &Formula,
    alloc: Global,
    frames: &mut Vec<Frame>,
    out: &mut Vec<Demand>,
    next: &mut usize,
    name: &Bound,
) -> Result<(), AllocError>
    ensures tells { OnOk result (told out.new.items next.new ≡ forms.chosen_from name.now e.now (scope_of frames.old.items) (told out.old.items next.old)) }
    ensures demands { OnOk result (out.new.items ≡ (forms.chosen_from name.now e.now (scope_of frames.old.items) (told out.old.items next.old)).demands) }
    ensures parts { OnOk result (next.new ≡ (forms.chosen_from name.now e.now (scope_of frames.old.items) (told out.old.items next.old)).next) }
    ensures frames { OnOk result (frames.new.items ≡ frames.old.items) }
{
    let member = tell_target(frames.as_slice(), out, next, name)?;
    let set = tell_formula(e, alloc, frames, out, next)?;
    keep_one(out, Rule::Singleton, member, member, set)
}

/// `x,y : (P)`
pub fn tell_chosen_such(
    p: &Formula,
    alloc: Global,
    frames: &mut Vec<Frame>,
    out: &mut Vec<Demand>,
    next: &mut usize,
    names: &[Bound],
) -> Result<(), AllocError>
    ensures tells { OnOk result (told out.new.items next.new ≡ forms.chosen_such names.now p.now (scope_of frames.old.items) (told out.old.items next.old)) }
    ensures demands { OnOk result (out.new.items ≡ (forms.chosen_such names.now p.now (scope_of frames.old.items) (told out.old.items next.old)).demands) }
    ensures parts { OnOk result (next.new ≡ (forms.chosen_such names.now p.now (scope_of frames.old.items) (told out.old.items next.old)).next) }
    ensures frames { OnOk result (frames.new.items ≡ frames.old.items) }
{
    tell_targets(frames.as_slice(), out, next, names)?;
    tell_new(p, alloc, frames, out, next, names)
}

/// Names that are bound; their frame stays open.
pub fn tell_names(
    alloc: Global,
    frames: &mut Vec<Frame>,
    out: &mut Vec<Demand>,
    next: &mut usize,
    names: &[Bound],
) -> Result<usize, AllocError>
    ensures first { IfOk result (λ n. n ≡ next.old) }
    ensures tells { OnOk result (told out.new.items next.new ≡ spec.with_names names.now (told out.old.items next.old)) }
    ensures demands { OnOk result (out.new.items ≡ (spec.with_names names.now (told out.old.items next.old)).demands) }
    ensures parts { OnOk result (next.new ≡ (spec.with_names names.now (told out.old.items next.old)).next) }
    ensures scope { OnOk result (scope_of frames.new.items ≡ spec.inside names.now (scope_of frames.old.items) (told out.old.items next.old)) }
    ensures outer { OnOk result (without_last frames.new.items ≡ frames.old.items) }
{
    open_names(alloc, frames, out, next, names)
}

/// The names of ANY and its predicate; their frame stays open.
pub fn tell_picked(
    p: &Formula,
    alloc: Global,
    frames: &mut Vec<Frame>,
    out: &mut Vec<Demand>,
    next: &mut usize,
    names: &[Bound],
) -> Result<(), AllocError>
    ensures tells { OnOk result (told out.new.items next.new ≡ spec.with_predicate p.now (spec.inside names.now (scope_of frames.old.items) (told out.old.items next.old)) (spec.with_names names.now (told out.old.items next.old))) }
    ensures demands { OnOk result (out.new.items ≡ (spec.with_predicate p.now (spec.inside names.now (scope_of frames.old.items) (told out.old.items next.old)) (spec.with_names names.now (told out.old.items next.old))).demands) }
    ensures parts { OnOk result (next.new ≡ (spec.with_predicate p.now (spec.inside names.now (scope_of frames.old.items) (told out.old.items next.old)) (spec.with_names names.now (told out.old.items next.old))).next) }
    ensures scope { OnOk result (scope_of frames.new.items ≡ spec.inside names.now (scope_of frames.old.items) (told out.old.items next.old)) }
    ensures outer { OnOk result (without_last frames.new.items ≡ frames.old.items) }
{
    tell_names(alloc, frames, out, next, names)?;
    tell_predicate(p, alloc, frames, out, next)
}

/// The names of LET and their values; the names' frame stays open.
#[tactic(auto, using(type_demands::proofs::Frames::without_pushed))]
pub fn tell_fixed(
    es: &[Formula],
    alloc: Global,
    frames: &mut Vec<Frame>,
    out: &mut Vec<Demand>,
    next: &mut usize,
    names: &[Bound],
) -> Result<(), AllocError>
    ensures tells { OnOk result (told out.new.items next.new ≡ spec.with_values next.old es.now (scope_of frames.old.items) (spec.with_names names.now (told out.old.items next.old))) }
    ensures demands { OnOk result (out.new.items ≡ (spec.with_values next.old es.now (scope_of frames.old.items) (spec.with_names names.now (told out.old.items next.old))).demands) }
    ensures parts { OnOk result (next.new ≡ (spec.with_values next.old es.now (scope_of frames.old.items) (spec.with_names names.now (told out.old.items next.old))).next) }
    ensures scope { OnOk result (scope_of frames.new.items ≡ spec.inside names.now (scope_of frames.old.items) (told out.old.items next.old)) }
    ensures outer { OnOk result (without_last frames.new.items ≡ frames.old.items) }
{
    let first = take_all(next, names.len())?;
    let opened = frame_of(alloc, names, first)?;
    tell_twice(out, opened.differ)?;
    tell_values(es, alloc, frames, out, next, first)?;
    frames.push(opened.frame)?;
    Ok(())
}
