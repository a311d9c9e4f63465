//! The forms of substitutions that have no others in them.

ghost use Rattle.std.specs.Prelude.{◌≡◌, ◌-◌, [], ◌∷◌, ◌++◌, Ok, Some, map, length, slice_get, if◌then◌else◌, IfOk};
ghost use Rattle.std.specs.List.{AllByRecursion};
ghost use Rattle.b_meaning.specs.Meaning.{tuple_limit, value_of, values_of, binder_of};
ghost use Rattle.b_meaning.specs.Meaning as meaning;
ghost use Rattle.b_places.specs.Scopes.{slots_of};
ghost use Rattle.b_rows.specs.Answers.{Answer, Means, MeansBy, bind, placed};
ghost use Rattle.b_rows.specs.Rows.{binary_row};
ghost use Rattle.b_tree.specs.declared.operators.BinaryOperator.TheVariants as operator;
ghost use Rattle.b_values.specs.Values.{elements, IsKept};
ghost use Rattle.set_making.specs.Making as making;
ghost use Rattle.b_outcomes.specs.Frames.{IsKeptFrame};
ghost use Rattle.b_outcomes.specs.Gathered.{gathers, Leaves};
ghost use Rattle.b_outcomes.specs.Outcomes as spec;
ghost use Rattle.b_outcomes.specs.Frames as frames;

use crate::frames::{Frame, assigned, copied, written, written_one};
use crate::gathering::Gathering;
use b_meaning::{advance, eval, holds};
use b_places::{Scope, begun, slot};
use b_rows::{EvalStop, combine, gather, stop};
use b_tree::{Assignment, BinaryOperator, Binder, ExprTree, Place};
use b_values::{FaultKind, Text, Value};
use std::alloc::Global;

/// Gathers one frame.
pub(crate) fn leave(out: &mut Gathering, frame: Frame) -> Result<(), EvalStop>
    requires { IsKeptFrame frame }
    ensures { Leaves (gathers out.old (Ok (frame ∷ []))) out.new result }
{
    match out.add(frame) {
        Ok(()) => Ok(()),
        Err(_) => Err(EvalStop::Memory),
    }
}

/// `skip`
pub(crate) fn skip(alloc: Global, frame: &Frame, out: &mut Gathering) -> Result<(), EvalStop>
    requires { IsKeptFrame frame.now }
    ensures { Leaves (gathers out.old (Ok (frame.now ∷ []))) out.new result }
{
    match copied(alloc, frame) {
        Ok(frame) => leave(out, frame),
        Err(_) => Err(EvalStop::Memory),
    }
}

/// The values of several expressions, left to right.
pub(crate) fn values(
    alloc: Global,
    es: &[ExprTree],
    env: &Scope<'_>,
) -> Result<Vec<Value>, EvalStop>
    requires { AllByRecursion IsKept (slots_of env.now) }
    ensures value { MeansBy (λ v. v.items) (values_of tuple_limit es.now (slots_of env.now)) result }
    ensures kept { IfOk result (λ v. AllByRecursion IsKept v.items) }
{
    let mut values = Vec::new(alloc);
    for e in es {
        match next_value(alloc, &mut values, e, env) {
            Ok(()) => {}
            Err(s) => return Err(s),
        }
    }
    Ok(values)
}

/// The values of an assignment, left to right.
fn new_values(
    alloc: Global,
    assignments: &[Assignment],
    env: &Scope<'_>,
) -> Result<Vec<Value>, EvalStop>
    requires { AllByRecursion IsKept (slots_of env.now) }
    ensures value { MeansBy (λ v. v.items) (values_of tuple_limit (map (λ a. a.value) assignments.now) (slots_of env.now)) result }
    ensures kept { IfOk result (λ v. AllByRecursion IsKept v.items) }
{
    let mut values = Vec::new(alloc);
    for a in assignments {
        match next_value(alloc, &mut values, &a.value, env) {
            Ok(()) => {}
            Err(s) => return Err(s),
        }
    }
    Ok(values)
}

/// Puts the value of an expression last.
fn next_value(
    alloc: Global,
    values: &mut Vec<Value>,
    e: &ExprTree,
    env: &Scope<'_>,
) -> Result<(), EvalStop>
    requires slots { AllByRecursion IsKept (slots_of env.now) }
    requires kept { AllByRecursion IsKept values.old.items }
    ensures value { MeansBy (λ u. values.new.items) (bind (value_of tuple_limit e.now (slots_of env.now)) (λ v. Ok (values.old.items ++ v ∷ []))) result }
    ensures kept { IfOk result (λ u. AllByRecursion IsKept values.new.items) }
{
    match eval(alloc, e, env) {
        Ok(v) => match values.push(v) {
            Ok(()) => Ok(()),
            Err(_) => Err(EvalStop::Memory),
        },
        Err(s) => Err(s),
    }
}

/// `x,y := E,F`
#[tactic(auto, using(crate::proofs::Kept::next_written, crate::proofs::Gathers::gathers_seen))]
pub(crate) fn assign(
    alloc: Global,
    assignments: &[Assignment],
    first: usize,
    frame: &Frame,
    env: &Scope<'_>,
    out: &mut Gathering,
) -> Result<(), EvalStop>
    requires frame { IsKeptFrame frame.now }
    requires slots { AllByRecursion IsKept (slots_of env.now) }
    ensures { Leaves (gathers out.old (spec.assigned tuple_limit first assignments.now frame.now (slots_of env.now))) out.new result }
{
    match new_values(alloc, assignments, env) {
        Ok(values) => match assigned(alloc, first, assignments, values.as_slice(), frame) {
            Ok(next) => leave(out, next),
            Err(_) => Err(EvalStop::Memory),
        },
        Err(s) => Err(s),
    }
}

/// `f(E) := F`
#[tactic(auto, using(crate::proofs::Kept::next_put, crate::proofs::Gathers::gathers_err))]
pub(crate) fn update(
    alloc: Global,
    at: Place,
    target: usize,
    e: &ExprTree,
    g: &ExprTree,
    first: usize,
    frame: &Frame,
    env: &Scope<'_>,
    out: &mut Gathering,
) -> Result<(), EvalStop>
    requires frame { IsKeptFrame frame.now }
    requires slots { AllByRecursion IsKept (slots_of env.now) }
    ensures { Leaves (gathers out.old (spec.updated tuple_limit first at target e.now g.now frame.now (slots_of env.now))) out.new result }
{
    match new_function(alloc, at, target, e, g, env) {
        Ok(v) => match written_one(alloc, first, target, &v, frame) {
            Ok(next) => leave(out, next),
            Err(_) => Err(EvalStop::Memory),
        },
        Err(s) => Err(s),
    }
}

/// The function in a slot with one more couple.
#[tactic(auto, using(crate::proofs::Then::bind_err, crate::proofs::Then::bind_ok))]
fn new_function(
    alloc: Global,
    at: Place,
    target: usize,
    e: &ExprTree,
    g: &ExprTree,
    env: &Scope<'_>,
) -> Result<Value, EvalStop>
    requires { AllByRecursion IsKept (slots_of env.now) }
    ensures value { Means (spec.overwritten at (meaning.slot_value (slice_get (slots_of env.now) target)) (value_of tuple_limit e.now) (value_of tuple_limit g.now) (slots_of env.now)) result }
    ensures kept { IfOk result (λ v. IsKept v) }
{
    let f = slot_value(env, target)?;
    let x = eval(alloc, e, env)?;
    let y = eval(alloc, g, env)?;
    overwrite(alloc, at, &f, &x, &y)
}

/// `f <+ {x |-> y}`
#[tactic(auto, using(crate::proofs::Then::bind_err, crate::proofs::Then::bind_ok))]
fn overwrite(alloc: Global, at: Place, f: &Value, x: &Value, y: &Value) -> Result<Value, EvalStop>
    requires function { IsKept f.now }
    requires argument { IsKept x.now }
    requires image { IsKept y.now }
    ensures value { Means (bind (placed at (binary_row operator.Couple x.now y.now)) (λ c. bind (placed at (making.set_with (c ∷ []))) (λ s. placed at (binary_row operator.Overriding f.now s)))) result }
    ensures kept { IfOk result (λ v. IsKept v) }
{
    let c = combine(alloc, BinaryOperator::Couple, at, x, y)?;
    let s = set_of_one(alloc, at, c)?;
    combine(alloc, BinaryOperator::Overriding, at, f, &s)
}

fn set_of_one(alloc: Global, at: Place, v: Value) -> Result<Value, EvalStop>
    requires { IsKept v }
    ensures value { Means (placed at (making.set_with (v ∷ []))) result }
    ensures kept { IfOk result (λ s. IsKept s) }
{
    let mut members = Vec::new(alloc);
    match members.push(v) {
        Ok(()) => gather(alloc, at, members),
        Err(_) => Err(EvalStop::Memory),
    }
}

const NOWHERE: Place = Place {
    text: Text::Machine,
    at: 0,
};

/// The value of a slot. Where a tree fits its slots there is one.
fn slot_value(env: &Scope<'_>, i: usize) -> Result<Value, EvalStop>
    requires { AllByRecursion IsKept (slots_of env.now) }
    ensures value { Means (meaning.slot_value (slice_get (slots_of env.now) i)) result }
    ensures kept { IfOk result (λ v. IsKept v) }
{
    match slot(env, i) {
        Err(_) => Err(stop(FaultKind::IllDefined, NOWHERE)),
        Ok(v) => match v.share() {
            Ok(v) => Ok(v),
            Err(_) => Err(EvalStop::Memory),
        },
    }
}

/// `x :: E`
#[tactic(auto, using(crate::proofs::Kept::kept_members, crate::proofs::Gathers::gathers_err))]
pub(crate) fn choose(
    alloc: Global,
    target: usize,
    e: &ExprTree,
    first: usize,
    frame: &Frame,
    env: &Scope<'_>,
    out: &mut Gathering,
) -> Result<(), EvalStop>
    requires frame { IsKeptFrame frame.now }
    requires slots { AllByRecursion IsKept (slots_of env.now) }
    ensures { Leaves (gathers out.old (spec.member_of_each tuple_limit first target e.now frame.now (slots_of env.now))) out.new result }
{
    match eval(alloc, e, env) {
        Ok(v) => each_member(alloc, target, v.members(), first, frame, out),
        Err(s) => Err(s),
    }
}

/// One frame for each member.
fn each_member(
    alloc: Global,
    target: usize,
    members: &[Value],
    first: usize,
    frame: &Frame,
    out: &mut Gathering,
) -> Result<(), EvalStop>
    requires frame { IsKeptFrame frame.now }
    requires members { AllByRecursion IsKept members.now }
    ensures { Leaves (gathers out.old (Ok (map (λ x. frames.put (target - first) (Some x) frame.now) members.now))) out.new result }
{
    for x in members {
        match leave_one(alloc, target, x, first, frame, out) {
            Ok(()) => {}
            Err(s) => return Err(s),
        }
    }
    Ok(())
}

#[tactic(auto, using(crate::proofs::Kept::next_put))]
fn leave_one(
    alloc: Global,
    target: usize,
    x: &Value,
    first: usize,
    frame: &Frame,
    out: &mut Gathering,
) -> Result<(), EvalStop>
    requires frame { IsKeptFrame frame.now }
    requires member { IsKept x.now }
    ensures { Leaves (gathers out.old (Ok (frames.put (target - first) (Some x.now) frame.now ∷ []))) out.new result }
{
    match written_one(alloc, first, target, x, frame) {
        Ok(next) => leave(out, next),
        Err(_) => Err(EvalStop::Memory),
    }
}

/// `x,y : (P)`
pub(crate) fn such(
    alloc: Global,
    targets: &[usize],
    b: &Binder,
    first: usize,
    frame: &Frame,
    env: &Scope<'_>,
    out: &mut Gathering,
) -> Result<(), EvalStop>
    requires frame { IsKeptFrame frame.now }
    requires slots { AllByRecursion IsKept (slots_of env.now) }
    ensures { Leaves (gathers out.old (spec.such_that tuple_limit first targets.now (binder_of tuple_limit b.now) frame.now (slots_of env.now))) out.new result }
{
    let mut walk = begun(alloc);
    'tuples: loop {
        match advance(alloc, b, env, &mut walk) {
            Ok(true) => match such_tuple(
                alloc,
                targets,
                b,
                walk.values.as_slice(),
                first,
                frame,
                &Scope::Inside(&*env, walk.values.as_slice()),
                out,
            ) {
                Ok(()) => {}
                Err(s) => return Err(s),
            },
            Ok(false) => return Ok(()),
            Err(s) => return Err(s),
        }
    }
}

/// The frame of one tuple, if the predicate holds for it.
#[tactic(auto, using(crate::proofs::Kept::next_written, crate::proofs::Gathers::gathers_err))]
fn such_tuple(
    alloc: Global,
    targets: &[usize],
    b: &Binder,
    tuple: &[Value],
    first: usize,
    frame: &Frame,
    env: &Scope<'_>,
    out: &mut Gathering,
) -> Result<(), EvalStop>
    requires frame { IsKeptFrame frame.now }
    requires tuple { AllByRecursion IsKept tuple.now }
    requires slots { AllByRecursion IsKept (slots_of env.now) }
    ensures { Leaves (gathers out.old (bind ((binder_of tuple_limit b.now).test (slots_of env.now)) (λ c. if c then Ok (frames.written first targets.now tuple.now frame.now ∷ []) else Ok []))) out.new result }
{
    match holds(alloc, &b.predicate, env) {
        Ok(true) => match written(alloc, first, targets, tuple, frame) {
            Ok(next) => leave(out, next),
            Err(_) => Err(EvalStop::Memory),
        },
        Ok(false) => Ok(()),
        Err(s) => Err(s),
    }
}
