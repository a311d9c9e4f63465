//! Evaluation with the language's limit of tuples, and tuples one after another.

ghost use Rattle.std.specs.Prelude.{◌≡◌, length, IfOk};
ghost use Rattle.std.specs.List.{AllByRecursion};
ghost use Rattle.b_meaning.specs.Meaning.{value_of, member_of, holds_of, binder_of};
ghost use Rattle.b_meaning.specs.Meaning as spec;
ghost use Rattle.b_meaning.specs.Tuples.{places_ahead, places_after, IsNext, IsNextSound, IsTuple};
ghost use Rattle.b_places.specs.Places.{sound};
ghost use Rattle.b_places.specs.Scopes.{slots_of};
ghost use Rattle.b_places.specs.Walks.{Finds, OnPlace, IsKeptWalk, IsResting};
ghost use Rattle.b_rows.specs.Answers.{Means};
ghost use Rattle.b_tree.specs.declared.Binder.{out-Binder};
ghost use Rattle.b_values.specs.Values.{IsKept};

use crate::evaluation::{advance_in, eval_in, holds_in, member_in};
use b_places::{Scope, Walk, started};
use b_rows::EvalStop;
use b_tree::{Binder, ExprTree, PredTree};
use b_values::Value;
use std::alloc::{AllocError, Global};

#[tactic(auto, unfolding(crate::specs::Meaning::tuple_limit))]
fn tuple_limit() -> u64
    ensures { result ≡ spec.tuple_limit }
{
    1_000_000
}

/// The value of an expression, or its first fault.
pub fn eval(alloc: Global, e: &ExprTree, env: &Scope<'_>) -> Result<Value, EvalStop>
    requires { AllByRecursion IsKept (slots_of env.now) }
    ensures value { Means (value_of spec.tuple_limit e.now (slots_of env.now)) result }
    ensures kept { IfOk result (λ v. IsKept v) }
{
    eval_in(alloc, e, tuple_limit(), env)
}

/// The truth of a predicate, or its first fault.
pub fn holds(alloc: Global, p: &PredTree, env: &Scope<'_>) -> Result<bool, EvalStop>
    requires { AllByRecursion IsKept (slots_of env.now) }
    ensures { Means (holds_of spec.tuple_limit p.now (slots_of env.now)) result }
{
    holds_in(alloc, p, tuple_limit(), env)
}

/// Whether a value is a member of an expression, by the expression's form; no value of it is built where none is asked.
pub fn member(alloc: Global, e: &ExprTree, v: &Value, env: &Scope<'_>) -> Result<bool, EvalStop>
    requires { AllByRecursion IsKept (slots_of env.now) }
    ensures { Means (member_of spec.tuple_limit e.now v.now (slots_of env.now)) result }
{
    member_in(alloc, e, v, tuple_limit(), env)
}

/// Goes to the next place of a binder: whether there is one, or its fault, after which the walk may go on.
pub fn advance(
    alloc: Global,
    b: &Binder,
    env: &Scope<'_>,
    walk: &mut Walk,
) -> Result<bool, EvalStop>
    requires slots { AllByRecursion IsKept (slots_of env.now) }
    requires rests { IsResting (length (out-Binder b.now).variables) walk.old }
    requires kept { IsKeptWalk walk.old }
    ensures found { let vs = (binder_of spec.tuple_limit b.now).variables in Finds (places_ahead spec.tuple_limit vs (slots_of env.now) walk.old) walk.new.values (places_ahead spec.tuple_limit vs (slots_of env.now) walk.new) result }
    ensures rests { OnPlace result (IsResting (length (out-Binder b.now).variables) walk.new) }
    ensures kept { OnPlace result (IsKeptWalk walk.new) }
{
    advance_in(alloc, b, tuple_limit(), env, walk)
}

/// The next tuple after the last one, in dictionary order; none after the last of all.
pub fn next_tuple(
    alloc: Global,
    b: &Binder,
    env: &Scope<'_>,
    last: Option<&Walk>,
) -> Result<Option<Walk>, EvalStop>
    requires slots { AllByRecursion IsKept (slots_of env.now) }
    requires tuple { IsTuple (length (out-Binder b.now).variables) last }
    ensures { let vs = (binder_of spec.tuple_limit b.now).variables in IsNext spec.tuple_limit vs (slots_of env.now) (length (out-Binder b.now).variables) (places_after spec.tuple_limit vs (slots_of env.now) last.entry) result }
{
    let mut walk = match started(alloc, last) {
        Ok(walk) => walk,
        Err(_) => return Err(EvalStop::Memory),
    };
    match advance(alloc, b, env, &mut walk) {
        Ok(true) => Ok(Some(walk)),
        Ok(false) => Ok(None),
        Err(EvalStop::Fault(f)) => Err(EvalStop::Fault(f)),
        Err(EvalStop::Memory) => Err(EvalStop::Memory),
    }
}

/// The next tuple after the last one, whatever faults stand between.
pub fn next_sound(
    alloc: Global,
    b: &Binder,
    env: &Scope<'_>,
    last: Option<&Walk>,
) -> Result<Option<Walk>, AllocError>
    requires slots { AllByRecursion IsKept (slots_of env.now) }
    requires tuple { IsTuple (length (out-Binder b.now).variables) last }
    ensures { let vs = (binder_of spec.tuple_limit b.now).variables in IsNextSound spec.tuple_limit vs (slots_of env.now) (length (out-Binder b.now).variables) (sound (places_after spec.tuple_limit vs (slots_of env.now) last.entry)) result }
{
    let mut walk = started(alloc, last)?;
    'places: loop {
        match advance(alloc, b, env, &mut walk) {
            Ok(true) => return Ok(Some(walk)),
            Ok(false) => return Ok(None),
            Err(EvalStop::Fault(_)) => {}
            Err(EvalStop::Memory) => return Err(AllocError),
        }
    }
}
