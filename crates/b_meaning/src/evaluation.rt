//! Evaluation: one recursion over a formula's tree.

ghost use Rattle.std.specs.Prelude.{◌≡◌, ◌++◌, ◌∷◌, [], true, false, length, map, IfOk, IfSome};
ghost use Rattle.std.specs.List.{AllByRecursion};
ghost use Rattle.b_meaning.specs.Meaning as spec;
ghost use Rattle.b_meaning.specs.Meaning.{value_of, member_of, holds_of, values_of, link_of, clause_of, power_of, sides_of, binder_of, collection_of, universal_of, variable_of, meaning_of, chained, joined, both, each, has_parts, negated, each_base, tested, at_tuple, passing, implied, gathered_at, gathering, running_total, binder_places, ranges_in};
ghost use Rattle.b_meaning.specs.Tuples.{places_ahead};
ghost use Rattle.b_places.specs.Places.{decided, instances, those};
ghost use Rattle.b_places.specs.Scopes.{slots_of};
ghost use Rattle.b_places.specs.Walks.{left_in, to_come, pending, Finds, GoesOn, IsWorked, OnPlace, StandsAt, StandsOn, IsAsking, IsResting, IsKeptWalk};
ghost use Rattle.b_rows.specs.Answers.{Means, MeansBy, bind, placed};
ghost use Rattle.b_rows.specs.Rows.{set_row};
ghost use Rattle.b_rows.specs.Tests.{part};
ghost use Rattle.b_tree.specs.declared.Binder.{out-Binder};
ghost use Rattle.b_values.specs.Values.{elements, IsKept, IsValue};

use crate::parts::{
    element, first_place, gathered, is_in, moved, next_partial, push, push_couple, push_some,
    raise, renewed, slot_value, subsets, text, truth_value, whole_number,
};
use b_places::{
    Range, Scope, Stand, Walk, begun, enter, members_of, numbers_between, set_out, settle,
};
use b_rows::{
    EvalStop, apply, asks_onto, asks_total, asks_whole, belongs, collect, combine, compare, family,
    first_part, first_result, gather, given, has_shape, is_between, is_domain, is_range, may_begin,
    may_end, part, second_part, sequence, set, word,
};
use b_tree::{
    Binder, Clause, Collection, Collector, Connective, ExprTree, Family, Link, Membership, Place,
    Plan, Power, PredTree, SetOperator, Sides, Universal, Variable,
};
use b_values::Value;
use std::alloc::Global;

/// The value of an expression, or its first fault.
#[cycle(eval)]
#[tactic(auto, using(crate::proofs::Then::bind_err, crate::proofs::Then::bind_ok))]
pub(crate) fn eval_in(
    alloc: Global,
    e: &ExprTree,
    limit: u64,
    env: &Scope<'_>,
) -> Result<Value, EvalStop>
    requires { AllByRecursion IsKept (slots_of env.now) }
    ensures value { Means (value_of limit e.now (slots_of env.now)) result }
    ensures kept { IfOk result (λ v. IsKept v) }
{
    match e {
        ExprTree::Number(n) => Ok(whole_number(*n)),
        ExprTree::Truth(b) => Ok(truth_value(*b)),
        ExprTree::Text(s) => text(s),
        ExprTree::Element(set, index) => Ok(element(*set, *index)),
        ExprTree::Slot(i) => slot_value(env, *i),
        ExprTree::Given(at, set, size) => given(alloc, *set, *size, *at),
        ExprTree::Word(at, w) => word(alloc, *w, *at),
        ExprTree::Unary(op, at, a) => {
            let x = eval_in(alloc, a.get(), limit, env)?;
            apply(alloc, *op, *at, &x)
        }
        ExprTree::Chain(a, links) => {
            let x = eval_in(alloc, a.get(), limit, env)?;
            follow_all(alloc, links.as_slice(), x, limit, env)
        }
        ExprTree::Powers(powers, a) => {
            let bases = match eval_bases(alloc, powers.as_slice(), limit, env) {
                Ok(bases) => bases,
                Err(s) => return Err(s),
            };
            let last = eval_in(alloc, a.get(), limit, env)?;
            raise(powers.as_slice(), bases, last, limit)
        }
        ExprTree::Over(f, at, a) => {
            let x = eval_in(alloc, a.get(), limit, env)?;
            family(alloc, *f, *at, &x)
        }
        ExprTree::Between(op, at, sides) => set_between(alloc, sides.get(), *op, *at, limit, env),
        ExprTree::Set(at, es) => match eval_all(alloc, es.as_slice(), limit, env) {
            Ok(values) => gather(alloc, *at, values),
            Err(s) => Err(s),
        },
        ExprTree::Sequence(at, es) => match eval_all(alloc, es.as_slice(), limit, env) {
            Ok(values) => sequence(alloc, *at, values),
            Err(s) => Err(s),
        },
        ExprTree::Bool(p) => match holds_in(alloc, p.get(), limit, env) {
            Ok(b) => Ok(truth_value(b)),
            Err(s) => Err(s),
        },
        ExprTree::If(p, a, b) => {
            if holds_in(alloc, p.get(), limit, env)? {
                eval_in(alloc, a.get(), limit, env)
            } else {
                eval_in(alloc, b.get(), limit, env)
            }
        }
        ExprTree::Comprehension(at, b) => match tuples_passing(alloc, b.get(), limit, env) {
            Ok(values) => gather(alloc, *at, values),
            Err(s) => Err(s),
        },
        ExprTree::Collected(c, at, k) => collected(alloc, k.get(), *c, *at, limit, env),
    }
}

/// The values of several expressions, left to right.
#[cycle(eval)]
fn eval_all(
    alloc: Global,
    es: &[ExprTree],
    limit: u64,
    env: &Scope<'_>,
) -> Result<Vec<Value>, EvalStop>
    requires { AllByRecursion IsKept (slots_of env.now) }
    ensures value { MeansBy (λ v. v.items) (values_of limit es.now (slots_of env.now)) result }
    ensures values { IfOk result (λ v. AllByRecursion IsValue v.items) }
{
    let mut values = Vec::new(alloc);
    for e in es {
        match eval_in(alloc, e, limit, env) {
            Ok(v) => match push(&mut values, v) {
                Ok(()) => {}
                Err(s) => return Err(s),
            },
            Err(s) => return Err(s),
        }
    }
    Ok(values)
}

/// The values of all operands of `**` but the last, left to right.
#[cycle(eval)]
fn eval_bases(
    alloc: Global,
    powers: &[Power],
    limit: u64,
    env: &Scope<'_>,
) -> Result<Vec<Value>, EvalStop>
    requires { AllByRecursion IsKept (slots_of env.now) }
    ensures value { MeansBy (λ v. v.items) (each_base (map (power_of limit) powers.now) (slots_of env.now)) result }
    ensures even { IfOk result (λ v. length v.items ≡ length powers.now) }
{
    let mut values = Vec::new(alloc);
    for power in powers {
        match eval_in(alloc, &power.base, limit, env) {
            Ok(v) => match push(&mut values, v) {
                Ok(()) => {}
                Err(s) => return Err(s),
            },
            Err(s) => return Err(s),
        }
    }
    Ok(values)
}

/// Operators from left to right, each applied to what the earlier ones gave.
#[cycle(eval)]
fn follow_all(
    alloc: Global,
    links: &[Link],
    x: Value,
    limit: u64,
    env: &Scope<'_>,
) -> Result<Value, EvalStop>
    requires slots { AllByRecursion IsKept (slots_of env.now) }
    requires kept { IsKept x }
    ensures value { Means (chained (map (link_of limit) links.now) (slots_of env.now) x) result }
    ensures kept { IfOk result (λ v. IsKept v) }
{
    let mut value = x;
    for link in links {
        match follow(alloc, link, &value, limit, env) {
            Ok(next) => value = renewed(value, next),
            Err(s) => return Err(s),
        }
    }
    Ok(value)
}

/// An operator applied to its left operand.
#[cycle(eval)]
#[tactic(auto, using(crate::proofs::Then::bind_err, crate::proofs::Then::bind_ok))]
fn follow(
    alloc: Global,
    link: &Link,
    x: &Value,
    limit: u64,
    env: &Scope<'_>,
) -> Result<Value, EvalStop>
    requires slots { AllByRecursion IsKept (slots_of env.now) }
    requires kept { IsKept x.now }
    ensures value { Means (link_of limit link.now x.now (slots_of env.now)) result }
    ensures kept { IfOk result (λ v. IsKept v) }
{
    match link {
        Link::After(op, at) => apply(alloc, *op, *at, x),
        Link::With(op, at, e) => {
            let y = eval_in(alloc, e, limit, env)?;
            combine(alloc, *op, *at, x, &y)
        }
    }
}

/// The interval, the product or the set of relations of two operands.
#[cycle(eval)]
#[tactic(auto, using(crate::proofs::Then::bind_err, crate::proofs::Then::bind_ok))]
fn set_between(
    alloc: Global,
    sides: &Sides,
    op: SetOperator,
    at: Place,
    limit: u64,
    env: &Scope<'_>,
) -> Result<Value, EvalStop>
    requires { AllByRecursion IsKept (slots_of env.now) }
    ensures value { let s = sides_of limit sides.now in Means (bind (s.left.value (slots_of env.now)) (λ x. bind (s.right.value (slots_of env.now)) (λ y. placed at (set_row op x y)))) result }
    ensures kept { IfOk result (λ v. IsKept v) }
{
    let x = eval_in(alloc, sides.left.get(), limit, env)?;
    let y = eval_in(alloc, sides.right.get(), limit, env)?;
    set(alloc, op, at, &x, &y)
}

/// Membership in an expression, by its form.
#[cycle(eval)]
#[tactic(auto, using(crate::proofs::Then::bind_err, crate::proofs::Then::bind_ok))]
pub(crate) fn member_in(
    alloc: Global,
    e: &ExprTree,
    v: &Value,
    limit: u64,
    env: &Scope<'_>,
) -> Result<bool, EvalStop>
    requires { AllByRecursion IsKept (slots_of env.now) }
    ensures { Means (member_of limit e.now v.now (slots_of env.now)) result }
{
    match e {
        ExprTree::Word(_, w) => Ok(belongs(*w, v)),
        ExprTree::Over(f, _, s) => is_over(alloc, s.get(), *f, v, limit, env),
        ExprTree::Between(op, _, sides) => is_set_between(alloc, sides.get(), *op, v, limit, env),
        _ => {
            let set = eval_in(alloc, e, limit, env)?;
            Ok(is_in(v, &set))
        }
    }
}

/// Whether each of these values, or the element that it has in a sequence, is a member of an expression.
#[cycle(eval)]
fn all_members(
    alloc: Global,
    e: &ExprTree,
    f: Family,
    vs: &[Value],
    limit: u64,
    env: &Scope<'_>,
) -> Result<bool, EvalStop>
    requires { AllByRecursion IsKept (slots_of env.now) }
    ensures { Means (each (λ v. member_of limit e.now (part f v) (slots_of env.now)) vs.now) result }
{
    for v in vs {
        match member_in(alloc, e, part(f, v), limit, env) {
            Ok(true) => {}
            Ok(false) => return Ok(false),
            Err(s) => return Err(s),
        }
    }
    Ok(true)
}

/// Membership in `POW(S)`, `seq(S)` and their kin.
#[cycle(eval)]
#[tactic(auto, using(crate::proofs::Then::bind_err, crate::proofs::Then::bind_ok))]
fn is_over(
    alloc: Global,
    s: &ExprTree,
    f: Family,
    v: &Value,
    limit: u64,
    env: &Scope<'_>,
) -> Result<bool, EvalStop>
    requires { AllByRecursion IsKept (slots_of env.now) }
    ensures { Means (spec.is_over f (meaning_of limit s.now) v.now (slots_of env.now)) result }
{
    if may_begin(f, v) {
        has_all(alloc, s, f, v, limit, env)
    } else {
        Ok(false)
    }
}

/// Whether the parts of a value are members of a set, and it is one-to-one and whole, where the family asks for it.
#[cycle(eval)]
#[tactic(auto, using(crate::proofs::Then::bind_err, crate::proofs::Then::bind_ok))]
fn has_all(
    alloc: Global,
    s: &ExprTree,
    f: Family,
    v: &Value,
    limit: u64,
    env: &Scope<'_>,
) -> Result<bool, EvalStop>
    requires { AllByRecursion IsKept (slots_of env.now) }
    ensures { Means (both (has_parts f (meaning_of limit s.now) v.now (slots_of env.now)) (spec.has_ends f (meaning_of limit s.now) v.now (slots_of env.now))) result }
{
    if all_members(alloc, s, f, v.members(), limit, env)? {
        has_ends(alloc, s, f, v, limit, env)
    } else {
        Ok(false)
    }
}

/// Whether a sequence is one-to-one and has all elements of a set, where the family asks for it.
#[cycle(eval)]
#[tactic(auto, using(crate::proofs::Then::bind_err, crate::proofs::Then::bind_ok))]
fn has_ends(
    alloc: Global,
    s: &ExprTree,
    f: Family,
    v: &Value,
    limit: u64,
    env: &Scope<'_>,
) -> Result<bool, EvalStop>
    requires { AllByRecursion IsKept (slots_of env.now) }
    ensures { Means (spec.has_ends f (meaning_of limit s.now) v.now (slots_of env.now)) result }
{
    match may_end(alloc, f, v) {
        Err(_) => Err(EvalStop::Memory),
        Ok(false) => Ok(false),
        Ok(true) => {
            if asks_whole(f) {
                let w = eval_in(alloc, s, limit, env)?;
                match is_range(alloc, &w, v) {
                    Ok(b) => Ok(b),
                    Err(_) => Err(EvalStop::Memory),
                }
            } else {
                Ok(true)
            }
        }
    }
}

/// Whether the parts of a couple are members of the two sides.
#[cycle(eval)]
#[tactic(auto, using(crate::proofs::Then::bind_err, crate::proofs::Then::bind_ok))]
fn is_couple(
    alloc: Global,
    sides: &Sides,
    v: &Value,
    limit: u64,
    env: &Scope<'_>,
) -> Result<bool, EvalStop>
    requires { AllByRecursion IsKept (slots_of env.now) }
    ensures { Means (spec.is_couple (sides_of limit sides.now) v.now (slots_of env.now)) result }
{
    if member_in(alloc, sides.left.get(), first_part(v), limit, env)? {
        member_in(alloc, sides.right.get(), second_part(v), limit, env)
    } else {
        Ok(false)
    }
}

/// Whether each of these is a couple of members of the two sides.
#[cycle(eval)]
fn all_couples(
    alloc: Global,
    sides: &Sides,
    vs: &[Value],
    limit: u64,
    env: &Scope<'_>,
) -> Result<bool, EvalStop>
    requires { AllByRecursion IsKept (slots_of env.now) }
    ensures { Means (each (λ v. spec.is_couple (sides_of limit sides.now) v (slots_of env.now)) vs.now) result }
{
    for v in vs {
        match is_couple(alloc, sides, v, limit, env) {
            Ok(true) => {}
            Ok(false) => return Ok(false),
            Err(s) => return Err(s),
        }
    }
    Ok(true)
}

/// Membership in an interval, a product or a set of relations.
#[cycle(eval)]
#[tactic(auto, using(crate::proofs::Then::bind_err, crate::proofs::Then::bind_ok))]
fn is_set_between(
    alloc: Global,
    sides: &Sides,
    op: SetOperator,
    v: &Value,
    limit: u64,
    env: &Scope<'_>,
) -> Result<bool, EvalStop>
    requires { AllByRecursion IsKept (slots_of env.now) }
    ensures { Means (spec.is_set_between op (sides_of limit sides.now) v.now (slots_of env.now)) result }
{
    match op {
        SetOperator::Interval => {
            let x = eval_in(alloc, sides.left.get(), limit, env)?;
            let y = eval_in(alloc, sides.right.get(), limit, env)?;
            Ok(is_between(&x, &y, v))
        }
        SetOperator::Product => is_couple(alloc, sides, v, limit, env),
        SetOperator::Relations => is_relation(alloc, sides, SetOperator::Relations, v, limit, env),
        SetOperator::PartialFunctions => is_relation(
            alloc,
            sides,
            SetOperator::PartialFunctions,
            v,
            limit,
            env,
        ),
        SetOperator::TotalFunctions => is_relation(
            alloc,
            sides,
            SetOperator::TotalFunctions,
            v,
            limit,
            env,
        ),
        SetOperator::PartialInjections => is_relation(
            alloc,
            sides,
            SetOperator::PartialInjections,
            v,
            limit,
            env,
        ),
        SetOperator::TotalInjections => is_relation(
            alloc,
            sides,
            SetOperator::TotalInjections,
            v,
            limit,
            env,
        ),
        SetOperator::PartialSurjections => is_relation(
            alloc,
            sides,
            SetOperator::PartialSurjections,
            v,
            limit,
            env,
        ),
        SetOperator::TotalSurjections => is_relation(
            alloc,
            sides,
            SetOperator::TotalSurjections,
            v,
            limit,
            env,
        ),
        SetOperator::TotalBijections => is_relation(
            alloc,
            sides,
            SetOperator::TotalBijections,
            v,
            limit,
            env,
        ),
    }
}

/// Whether a value has couples of the two sides alone, and is an arrow between them, as it is asked.
#[cycle(eval)]
#[tactic(auto, using(crate::proofs::Then::bind_err, crate::proofs::Then::bind_ok))]
fn is_relation(
    alloc: Global,
    sides: &Sides,
    op: SetOperator,
    v: &Value,
    limit: u64,
    env: &Scope<'_>,
) -> Result<bool, EvalStop>
    requires { AllByRecursion IsKept (slots_of env.now) }
    ensures { Means (both (each (λ x. spec.is_couple (sides_of limit sides.now) x (slots_of env.now)) (elements v.now)) (spec.is_arrow op (sides_of limit sides.now) v.now (slots_of env.now))) result }
{
    if all_couples(alloc, sides, v.members(), limit, env)? {
        is_arrow(alloc, sides, op, v, limit, env)
    } else {
        Ok(false)
    }
}

/// Whether a relation between the two sides is functional, one-to-one, total and onto, as the arrow asks.
#[cycle(eval)]
#[tactic(auto, using(crate::proofs::Then::bind_err, crate::proofs::Then::bind_ok))]
fn is_arrow(
    alloc: Global,
    sides: &Sides,
    op: SetOperator,
    v: &Value,
    limit: u64,
    env: &Scope<'_>,
) -> Result<bool, EvalStop>
    requires { AllByRecursion IsKept (slots_of env.now) }
    ensures { Means (spec.is_arrow op (sides_of limit sides.now) v.now (slots_of env.now)) result }
{
    match has_shape(alloc, op, v) {
        Err(_) => Err(EvalStop::Memory),
        Ok(false) => Ok(false),
        Ok(true) => {
            if is_total(alloc, sides.left.get(), op, v, limit, env)? {
                is_onto(alloc, sides.right.get(), op, v, limit, env)
            } else {
                Ok(false)
            }
        }
    }
}

#[cycle(eval)]
#[tactic(auto, using(crate::proofs::Then::bind_err, crate::proofs::Then::bind_ok))]
fn is_total(
    alloc: Global,
    s: &ExprTree,
    op: SetOperator,
    v: &Value,
    limit: u64,
    env: &Scope<'_>,
) -> Result<bool, EvalStop>
    requires { AllByRecursion IsKept (slots_of env.now) }
    ensures { Means (spec.is_total op (meaning_of limit s.now) v.now (slots_of env.now)) result }
{
    if asks_total(op) {
        let w = eval_in(alloc, s, limit, env)?;
        match is_domain(alloc, &w, v) {
            Ok(b) => Ok(b),
            Err(_) => Err(EvalStop::Memory),
        }
    } else {
        Ok(true)
    }
}

#[cycle(eval)]
#[tactic(auto, using(crate::proofs::Then::bind_err, crate::proofs::Then::bind_ok))]
fn is_onto(
    alloc: Global,
    s: &ExprTree,
    op: SetOperator,
    v: &Value,
    limit: u64,
    env: &Scope<'_>,
) -> Result<bool, EvalStop>
    requires { AllByRecursion IsKept (slots_of env.now) }
    ensures { Means (spec.is_onto op (meaning_of limit s.now) v.now (slots_of env.now)) result }
{
    if asks_onto(op) {
        let w = eval_in(alloc, s, limit, env)?;
        match is_range(alloc, &w, v) {
            Ok(b) => Ok(b),
            Err(_) => Err(EvalStop::Memory),
        }
    } else {
        Ok(true)
    }
}

/// The truth of a predicate.
#[cycle(eval)]
#[tactic(auto, using(crate::proofs::Then::bind_err, crate::proofs::Then::bind_ok))]
pub(crate) fn holds_in(
    alloc: Global,
    p: &PredTree,
    limit: u64,
    env: &Scope<'_>,
) -> Result<bool, EvalStop>
    requires { AllByRecursion IsKept (slots_of env.now) }
    ensures { Means (holds_of limit p.now (slots_of env.now)) result }
{
    match p {
        PredTree::True => Ok(true),
        PredTree::Compare(op, a, b) => {
            let x = eval_in(alloc, a.get(), limit, env)?;
            let y = eval_in(alloc, b.get(), limit, env)?;
            Ok(compare(*op, &x, &y))
        }
        PredTree::Member(op, a, s) => {
            let v = eval_in(alloc, a.get(), limit, env)?;
            passes(alloc, s.get(), *op, &v, limit, env)
        }
        PredTree::Chain(p, clauses) => {
            let b = holds_in(alloc, p.get(), limit, env)?;
            join_all(alloc, clauses.as_slice(), b, limit, env)
        }
        PredTree::Not(p) => {
            let b = holds_in(alloc, p.get(), limit, env)?;
            Ok(!b)
        }
        PredTree::Exists(b) => exists(alloc, b.get(), limit, env),
        PredTree::ForAll(u) => for_all(alloc, u.get(), limit, env),
    }
}

/// `:`, `/:`, `<:` and `/<:` by the form of the right side.
#[cycle(eval)]
#[tactic(auto, using(crate::proofs::Then::bind_err, crate::proofs::Then::bind_ok))]
fn passes(
    alloc: Global,
    s: &ExprTree,
    op: Membership,
    v: &Value,
    limit: u64,
    env: &Scope<'_>,
) -> Result<bool, EvalStop>
    requires { AllByRecursion IsKept (slots_of env.now) }
    ensures { Means (tested op (meaning_of limit s.now) v.now (slots_of env.now)) result }
{
    match op {
        Membership::Member => member_in(alloc, s, v, limit, env),
        Membership::NotMember => {
            let b = member_in(alloc, s, v, limit, env)?;
            Ok(!b)
        }
        Membership::Subset => all_members(alloc, s, Family::Subsets, v.members(), limit, env),
        Membership::NotSubset => isnt_part(alloc, s, v.members(), limit, env),
    }
}

/// Whether one of these values is no member of an expression.
#[cycle(eval)]
#[tactic(auto, using(crate::proofs::Then::bind_err, crate::proofs::Then::bind_ok))]
fn isnt_part(
    alloc: Global,
    s: &ExprTree,
    vs: &[Value],
    limit: u64,
    env: &Scope<'_>,
) -> Result<bool, EvalStop>
    requires { AllByRecursion IsKept (slots_of env.now) }
    ensures { Means (negated (each (λ v. member_of limit s.now v (slots_of env.now)) vs.now)) result }
{
    let b = all_members(alloc, s, Family::Subsets, vs, limit, env)?;
    Ok(!b)
}

/// Connectives from left to right, each with what the earlier ones gave.
#[cycle(eval)]
fn join_all(
    alloc: Global,
    clauses: &[Clause],
    first: bool,
    limit: u64,
    env: &Scope<'_>,
) -> Result<bool, EvalStop>
    requires { AllByRecursion IsKept (slots_of env.now) }
    ensures { Means (joined (map (clause_of limit) clauses.now) (slots_of env.now) first) result }
{
    let mut truth = first;
    for clause in clauses {
        match join(alloc, clause, truth, limit, env) {
            Ok(b) => truth = b,
            Err(s) => return Err(s),
        }
    }
    Ok(truth)
}

/// A connective with its left side: the right one is looked at only where it decides.
#[cycle(eval)]
#[tactic(auto, using(crate::proofs::Then::bind_err, crate::proofs::Then::bind_ok))]
fn join(
    alloc: Global,
    clause: &Clause,
    left: bool,
    limit: u64,
    env: &Scope<'_>,
) -> Result<bool, EvalStop>
    requires { AllByRecursion IsKept (slots_of env.now) }
    ensures { Means (clause_of limit clause.now left (slots_of env.now)) result }
{
    match clause.connective {
        Connective::And => {
            if left {
                holds_in(alloc, &clause.predicate, limit, env)
            } else {
                Ok(false)
            }
        }
        Connective::Or => {
            if left {
                Ok(true)
            } else {
                holds_in(alloc, &clause.predicate, limit, env)
            }
        }
        Connective::Implies => {
            if left {
                holds_in(alloc, &clause.predicate, limit, env)
            } else {
                Ok(true)
            }
        }
        Connective::Equivalent => {
            let right = holds_in(alloc, &clause.predicate, limit, env)?;
            Ok(if left { right } else { !right })
        }
    }
}

/// Whether the predicate of a binder holds for a tuple: the first that isn't false decides.
#[cycle(eval)]
fn exists(alloc: Global, b: &Binder, limit: u64, env: &Scope<'_>) -> Result<bool, EvalStop>
    requires { AllByRecursion IsKept (slots_of env.now) }
    ensures { let m = binder_of limit b.now in Means (decided false (instances (at_tuple m.test (slots_of env.now)) (binder_places limit m.variables (slots_of env.now)))) result }
{
    let mut walk = begun(alloc);
    'tuples: loop {
        match advance_in(alloc, b, limit, env, &mut walk) {
            Ok(true) => match holds_in(
                alloc,
                &b.predicate,
                limit,
                &Scope::Inside(&*env, walk.values.as_slice()),
            ) {
                Ok(true) => return Ok(true),
                Ok(false) => {}
                Err(s) => return Err(s),
            },
            Ok(false) => return Ok(false),
            Err(s) => return Err(s),
        }
    }
}

/// Whether each tuple for which the predicate of a binder holds has a property: the first that hasn't decides.
#[cycle(eval)]
fn for_all(alloc: Global, u: &Universal, limit: u64, env: &Scope<'_>) -> Result<bool, EvalStop>
    requires { AllByRecursion IsKept (slots_of env.now) }
    ensures { let m = universal_of limit u.now in Means (decided true (instances (at_tuple (implied m) (slots_of env.now)) (binder_places limit m.binder.variables (slots_of env.now)))) result }
{
    let mut walk = begun(alloc);
    'tuples: loop {
        match advance_in(alloc, &u.binder, limit, env, &mut walk) {
            Ok(true) => match implied_in(
                alloc,
                u,
                limit,
                &Scope::Inside(&*env, walk.values.as_slice()),
            ) {
                Ok(true) => {}
                Ok(false) => return Ok(false),
                Err(s) => return Err(s),
            },
            Ok(false) => return Ok(true),
            Err(s) => return Err(s),
        }
    }
}

/// The implication of a `!` at one tuple.
#[cycle(eval)]
#[tactic(auto, using(crate::proofs::Then::bind_err, crate::proofs::Then::bind_ok))]
fn implied_in(alloc: Global, u: &Universal, limit: u64, env: &Scope<'_>) -> Result<bool, EvalStop>
    requires { AllByRecursion IsKept (slots_of env.now) }
    ensures { Means (implied (universal_of limit u.now) (slots_of env.now)) result }
{
    if holds_in(alloc, &u.binder.predicate, limit, env)? {
        holds_in(alloc, &u.consequent, limit, env)
    } else {
        Ok(true)
    }
}

/// The couples of the tuples for which the predicate of a binder holds.
#[cycle(eval)]
fn tuples_passing(
    alloc: Global,
    b: &Binder,
    limit: u64,
    env: &Scope<'_>,
) -> Result<Vec<Value>, EvalStop>
    requires { AllByRecursion IsKept (slots_of env.now) }
    ensures value { let m = binder_of limit b.now in MeansBy (λ v. v.items) (those (instances (passing m.test (slots_of env.now)) (binder_places limit m.variables (slots_of env.now)))) result }
    ensures values { IfOk result (λ v. AllByRecursion IsValue v.items) }
{
    let mut found = Vec::new(alloc);
    let mut walk = begun(alloc);
    'tuples: loop {
        match advance_in(alloc, b, limit, env, &mut walk) {
            Ok(true) => match holds_in(
                alloc,
                &b.predicate,
                limit,
                &Scope::Inside(&*env, walk.values.as_slice()),
            ) {
                Ok(true) => match push_couple(alloc, &mut found, walk.values.as_slice()) {
                    Ok(()) => {}
                    Err(s) => return Err(s),
                },
                Ok(false) => {}
                Err(s) => return Err(s),
            },
            Ok(false) => return Ok(found),
            Err(s) => return Err(s),
        }
    }
}

/// What is gathered at a tuple where the predicate holds.
#[cycle(eval)]
#[tactic(auto, using(crate::proofs::Then::bind_err, crate::proofs::Then::bind_ok))]
fn gather_at(
    alloc: Global,
    k: &Collection,
    c: Collector,
    tuple: &[Value],
    limit: u64,
    env: &Scope<'_>,
) -> Result<Option<Value>, EvalStop>
    requires slots { AllByRecursion IsKept (slots_of env.now) }
    requires tuple { AllByRecursion IsKept tuple.now }
    ensures value { Means (gathered_at c (collection_of limit k.now) tuple.now (slots_of env.now)) result }
    ensures values { IfOk result (λ o. IfSome o (λ v. IsValue v)) }
{
    if holds_in(alloc, &k.binder.predicate, limit, env)? {
        let v = eval_in(alloc, &k.value, limit, env)?;
        gathered(alloc, c, tuple, v)
    } else {
        Ok(None)
    }
}

/// What is gathered at all tuples of a binder where its predicate holds.
#[cycle(eval)]
fn gather_all(
    alloc: Global,
    k: &Collection,
    c: Collector,
    limit: u64,
    env: &Scope<'_>,
) -> Result<Vec<Value>, EvalStop>
    requires { AllByRecursion IsKept (slots_of env.now) }
    ensures value { let m = collection_of limit k.now in MeansBy (λ v. v.items) (those (instances (gathering c m (slots_of env.now)) (binder_places limit m.binder.variables (slots_of env.now)))) result }
    ensures values { IfOk result (λ v. AllByRecursion IsValue v.items) }
{
    let mut found = Vec::new(alloc);
    let mut walk = begun(alloc);
    'tuples: loop {
        match advance_in(alloc, &k.binder, limit, env, &mut walk) {
            Ok(true) => match gather_at(
                alloc,
                k,
                c,
                walk.values.as_slice(),
                limit,
                &Scope::Inside(&*env, walk.values.as_slice()),
            ) {
                Ok(more) => match push_some(&mut found, more) {
                    Ok(()) => {}
                    Err(s) => return Err(s),
                },
                Err(s) => return Err(s),
            },
            Ok(false) => return Ok(found),
            Err(s) => return Err(s),
        }
    }
}

/// SIGMA and PI by partial results, the others by a set.
#[cycle(eval)]
fn collected(
    alloc: Global,
    k: &Collection,
    c: Collector,
    at: Place,
    limit: u64,
    env: &Scope<'_>,
) -> Result<Value, EvalStop>
    requires { AllByRecursion IsKept (slots_of env.now) }
    ensures value { Means (spec.collected limit c at (collection_of limit k.now) (slots_of env.now)) result }
    ensures kept { IfOk result (λ v. IsKept v) }
{
    match c {
        Collector::Sum => total(alloc, k, Collector::Sum, at, limit, env),
        Collector::Product => total(alloc, k, Collector::Product, at, limit, env),
        Collector::Lambda => gathered_set(alloc, k, Collector::Lambda, at, limit, env),
        Collector::Union => gathered_set(alloc, k, Collector::Union, at, limit, env),
        Collector::Intersection => gathered_set(alloc, k, Collector::Intersection, at, limit, env),
    }
}

/// `%`, UNION and INTER: all values are gathered, then the set is made of them.
#[cycle(eval)]
fn gathered_set(
    alloc: Global,
    k: &Collection,
    c: Collector,
    at: Place,
    limit: u64,
    env: &Scope<'_>,
) -> Result<Value, EvalStop>
    requires { AllByRecursion IsKept (slots_of env.now) }
    ensures value { Means (spec.gathered_set limit c at (collection_of limit k.now) (slots_of env.now)) result }
    ensures kept { IfOk result (λ v. IsKept v) }
{
    match gather_all(alloc, k, c, limit, env) {
        Ok(values) => collect(alloc, c, at, values),
        Err(s) => Err(s),
    }
}

/// SIGMA and PI: the first partial result outside 128 bits is the fault.
#[cycle(eval)]
fn total(
    alloc: Global,
    k: &Collection,
    c: Collector,
    at: Place,
    limit: u64,
    env: &Scope<'_>,
) -> Result<Value, EvalStop>
    requires { AllByRecursion IsKept (slots_of env.now) }
    ensures value { Means (running_total limit c at (collection_of limit k.now) (slots_of env.now)) result }
    ensures kept { IfOk result (λ v. IsKept v) }
{
    let mut partial = first_result(c);
    let mut walk = begun(alloc);
    'tuples: loop {
        match advance_in(alloc, &k.binder, limit, env, &mut walk) {
            Ok(true) => match gather_at(
                alloc,
                k,
                c,
                walk.values.as_slice(),
                limit,
                &Scope::Inside(&*env, walk.values.as_slice()),
            ) {
                Ok(more) => match next_partial(c, at, partial, more) {
                    Ok(next) => partial = next,
                    Err(s) => return Err(s),
                },
                Err(s) => return Err(s),
            },
            Ok(false) => return Ok(partial),
            Err(s) => return Err(s),
        }
    }
}

/// Goes to the next place of a binder within the limit of tuples, and says whether there is one.
#[cycle(eval)]
pub(crate) fn advance_in(
    alloc: Global,
    b: &Binder,
    limit: u64,
    env: &Scope<'_>,
    walk: &mut Walk,
) -> Result<bool, EvalStop>
    requires slots { AllByRecursion IsKept (slots_of env.now) }
    requires rests { IsResting (length (out-Binder b.now).variables) walk.old }
    requires kept { IsKeptWalk walk.old }
    ensures found { let vs = (binder_of limit b.now).variables in Finds (places_ahead limit vs (slots_of env.now) walk.old) walk.new.values (places_ahead limit vs (slots_of env.now) walk.new) result }
    ensures rests { OnPlace result (IsResting (length (out-Binder b.now).variables) walk.new) }
    ensures kept { OnPlace result (IsKeptWalk walk.new) }
{
    let found = seek(alloc, b.variables.as_slice(), limit, env, walk);
    settle(
        alloc,
        walk,
        found,
        limit,
        first_place(b.variables.as_slice()),
    )
}

/// Goes to the next place, whatever the limit.
#[cycle(eval)]
fn seek(
    alloc: Global,
    variables: &[Variable],
    limit: u64,
    env: &Scope<'_>,
    walk: &mut Walk,
) -> Result<bool, EvalStop>
    requires slots { AllByRecursion IsKept (slots_of env.now) }
    requires rests { IsResting (length variables.now) walk.old }
    requires kept { IsKeptWalk walk.old }
    ensures found { let rs = ranges_in (map (variable_of limit) variables.now) in Finds (to_come rs (slots_of env.now) walk.old) walk.new.values (to_come rs (slots_of env.now) walk.new) result }
    ensures rests { OnPlace result (IsResting (length variables.now) walk.new) }
    ensures kept { OnPlace result (IsKeptWalk walk.new) }
    ensures number { walk.new.number ≡ walk.old.number }
{
    let count = variables.len();
    match set_out(walk, count) {
        Ok(stand) => seek_from(alloc, variables, stand, limit, env, walk),
        Err(_) => Err(EvalStop::Memory),
    }
}

/// Goes on from where a walk stands to the next place.
#[cycle(eval)]
fn seek_from(
    alloc: Global,
    variables: &[Variable],
    first: Stand,
    limit: u64,
    env: &Scope<'_>,
    walk: &mut Walk,
) -> Result<bool, EvalStop>
    requires slots { AllByRecursion IsKept (slots_of env.now) }
    requires stands { StandsAt (length variables.now) walk.old first }
    requires kept { IsKeptWalk walk.old }
    ensures found { let rs = ranges_in (map (variable_of limit) variables.now) in Finds (pending rs (slots_of env.now) walk.old first) walk.new.values (to_come rs (slots_of env.now) walk.new) result }
    ensures rests { OnPlace result (IsResting (length variables.now) walk.new) }
    ensures kept { OnPlace result (IsKeptWalk walk.new) }
    ensures number { walk.new.number ≡ walk.old.number }
{
    let mut stand = first;
    'asking: loop {
        match stand {
            Stand::Tuple => return Ok(true),
            Stand::Over => return Ok(false),
            Stand::Asks => match ask(alloc, variables, limit, env, walk) {
                Ok(next) => stand = next,
                Err(s) => return Err(s),
            },
        }
    }
}

/// Goes on with the range that a walk asks for; where it faults, that is the next place.
#[cycle(eval)]
fn ask(
    alloc: Global,
    variables: &[Variable],
    limit: u64,
    env: &Scope<'_>,
    walk: &mut Walk,
) -> Result<Stand, EvalStop>
    requires slots { AllByRecursion IsKept (slots_of env.now) }
    requires asks { IsAsking (length variables.now) walk.old }
    requires kept { IsKeptWalk walk.old }
    ensures found { let rs = ranges_in (map (variable_of limit) variables.now) in GoesOn rs (slots_of env.now) walk.old walk.new result }
    ensures work { let rs = ranges_in (map (variable_of limit) variables.now) in IsWorked rs (slots_of env.now) walk.old walk.new result }
    ensures stands { StandsOn (length variables.now) walk.new result }
    ensures kept { OnPlace result (IsKeptWalk walk.new) }
    ensures number { walk.new.number ≡ walk.old.number }
{
    let count = variables.len();
    let depth = walk.values.len();
    let range = range_of(
        alloc,
        &variables[depth],
        limit,
        &Scope::Inside(&*env, walk.values.as_slice()),
    );
    match range {
        Ok(range) => match enter(walk, range, count) {
            Ok(stand) => Ok(stand),
            Err(_) => Err(EvalStop::Memory),
        },
        Err(s) => Err(s),
    }
}

/// The values that a variable may have.
#[cycle(eval)]
#[tactic(auto, using(crate::proofs::Then::bind_err, crate::proofs::Then::bind_ok))]
fn range_of(alloc: Global, v: &Variable, limit: u64, env: &Scope<'_>) -> Result<Range, EvalStop>
    requires { AllByRecursion IsKept (slots_of env.now) }
    ensures value { MeansBy left_in ((variable_of limit v.now).range (slots_of env.now)) result }
    ensures kept { IfOk result (λ r. AllByRecursion IsKept (left_in r)) }
{
    match &v.plan {
        Plan::Only(e) => match eval_in(alloc, e.get(), limit, env) {
            Ok(x) => Ok(Range::One(x)),
            Err(s) => Err(s),
        },
        Plan::Members(e) => match eval_in(alloc, e.get(), limit, env) {
            Ok(x) => Ok(members_of(x)),
            Err(s) => Err(s),
        },
        Plan::Numbers(bounds, e, f) => {
            if bounds.upper_first {
                let y = eval_in(alloc, f.get(), limit, env)?;
                let x = eval_in(alloc, e.get(), limit, env)?;
                numbers_between(v.at, *bounds, &x, &y)
            } else {
                let x = eval_in(alloc, e.get(), limit, env)?;
                let y = eval_in(alloc, f.get(), limit, env)?;
                numbers_between(v.at, *bounds, &x, &y)
            }
        }
        Plan::Subsets(e) => match eval_in(alloc, e.get(), limit, env) {
            Ok(x) => subsets(alloc, v.at, &x),
            Err(s) => Err(s),
        },
        Plan::Cut(e) => match eval_in(alloc, e.get(), limit, env) {
            Ok(x) => Ok(members_of(x)),
            Err(s) => Err(moved(s, v.at)),
        },
    }
}
