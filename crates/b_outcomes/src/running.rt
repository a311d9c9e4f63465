//! The frames that a substitution leaves: one recursion over its tree.

ghost use Rattle.std.specs.Prelude.{◌≡◌, ◌≤◌, ◌++◌, [], Ok, map, drop, length, if◌then◌else◌, false, IfOk};
ghost use Rattle.std.specs.List.{AllByRecursion};
ghost use Rattle.b_meaning.specs.Meaning.{tuple_limit, values_of};
ghost use Rattle.b_places.specs.Scopes.{slots_of};
ghost use Rattle.b_rows.specs.Answers.{Means, bind};
ghost use Rattle.b_values.specs.Values.{IsKept};
ghost use Rattle.b_outcomes.specs.Frames.{IsKeptFrame, in_order};
ghost use Rattle.b_outcomes.specs.Frames as frames;
ghost use Rattle.b_outcomes.specs.Gathered.{gathers, chooses, Leaves, LeavesChosen};
ghost use Rattle.b_outcomes.specs.Outcomes.{effect_of, branch_of, case_of, guarded_of, selection_of, step_of, union_of, first_of, all_of, held, labelled, any_of, after, after_all};

use crate::frames::Frame;
use crate::gathering::Gathering;
use crate::joining::{all_slots, either, frames_in, join_all, leave_all, middle, renewed};
use crate::labels::has_label;
use crate::single::{assign, choose, skip, such, update, values};
use b_meaning::{advance, eval, holds};
use b_places::{Scope, begun};
use b_rows::EvalStop;
use b_tree::{Branch, CaseBranch, ExprTree, Guarded, Joint, Selection, Step, SubstTree};
use b_values::Value;
use sqlite_items::Items;
use std::alloc::Global;

/// Gathers the frames that a substitution may leave. After a fault some of them are gathered.
#[cycle(run)]
#[tactic(auto, using(crate::proofs::Gathers::gathers_ok, crate::proofs::Gathers::gathers_err, crate::proofs::Gathers::ordered_ok, crate::proofs::Gathers::ordered_err, crate::proofs::Choosing::taken, crate::proofs::Choosing::untaken, crate::proofs::Choosing::untold))]
pub(crate) fn run(
    alloc: Global,
    s: &SubstTree,
    first: usize,
    frame: &Frame,
    env: &Scope<'_>,
    out: &mut Gathering,
) -> Result<(), EvalStop>
    requires frame { IsKeptFrame frame.now }
    requires slots { AllByRecursion IsKept (slots_of env.now) }
    ensures { Leaves (gathers out.old (effect_of tuple_limit first s.now frame.now (slots_of env.now))) out.new result }
{
    match s {
        SubstTree::Skip => skip(alloc, frame, out),
        SubstTree::Assign(assignments) => {
            assign(alloc, assignments.as_slice(), first, frame, env, out)
        }
        SubstTree::Update(at, target, e, g) => {
            update(alloc, *at, *target, e, g, first, frame, env, out)
        }
        SubstTree::From(target, e) => choose(alloc, *target, e, first, frame, env, out),
        SubstTree::Such(targets, b) => such(alloc, targets.as_slice(), b, first, frame, env, out),
        SubstTree::Guarded(g) => guarded(alloc, g.get(), first, frame, env, out),
        SubstTree::If(branches, other) => {
            match first_branch(alloc, branches.as_slice(), first, frame, env, out) {
                Ok(true) => Ok(()),
                Ok(false) => run(alloc, other.get(), first, frame, env, out),
                Err(s) => Err(s),
            }
        }
        SubstTree::Select(branches, other) => {
            match all_branches(alloc, branches.as_slice(), first, frame, env, out) {
                Ok(true) => Ok(()),
                Ok(false) => match other {
                    Some(other) => run(alloc, other.get(), first, frame, env, out),
                    None => Ok(()),
                },
                Err(s) => Err(s),
            }
        }
        SubstTree::Choice(ss) => run_all(alloc, ss.as_slice(), first, frame, env, out),
        SubstTree::Case(e, branches, other) => match eval(alloc, e, env) {
            Ok(v) => match first_case(alloc, branches.as_slice(), &v, first, frame, env, out) {
                Ok(true) => Ok(()),
                Ok(false) => run(alloc, other.get(), first, frame, env, out),
                Err(s) => Err(s),
            },
            Err(s) => Err(s),
        },
        SubstTree::Any(s) => any_tuples(alloc, s.get(), first, frame, env, out),
        SubstTree::Let(es, body) => let_in(
            alloc,
            body.get(),
            es.as_slice(),
            first,
            frame,
            env,
            out,
        ),
        SubstTree::Chain(s, steps) => match gathered(alloc, s.get(), first, frame, env) {
            Ok(xs) => follow(alloc, steps.as_slice(), xs, first, frame, env, out),
            Err(s) => Err(s),
        },
    }
}

/// The frames that a substitution may leave, in order.
#[cycle(run)]
#[tactic(auto, using(crate::proofs::Gathers::gathered_stop))]
fn gathered(
    alloc: Global,
    s: &SubstTree,
    first: usize,
    frame: &Frame,
    env: &Scope<'_>,
) -> Result<Items<Frame>, EvalStop>
    requires frame { IsKeptFrame frame.now }
    requires slots { AllByRecursion IsKept (slots_of env.now) }
    ensures value { Means (bind (effect_of tuple_limit first s.now frame.now (slots_of env.now)) (λ fs. Ok (in_order fs))) result }
    ensures kept { IfOk result (λ fs. AllByRecursion IsKeptFrame fs) }
{
    let mut out = Gathering::new(alloc, None);
    match run(alloc, s, first, frame, env, &mut out) {
        Ok(()) => Ok(frames_in(out)),
        Err(s) => Err(s),
    }
}

/// `PRE P THEN S END`, `ASSERT P THEN S END`
#[cycle(run)]
#[tactic(auto, using(crate::proofs::Gathers::gathers_ok, crate::proofs::Gathers::gathers_err))]
fn guarded(
    alloc: Global,
    g: &Guarded,
    first: usize,
    frame: &Frame,
    env: &Scope<'_>,
    out: &mut Gathering,
) -> Result<(), EvalStop>
    requires frame { IsKeptFrame frame.now }
    requires slots { AllByRecursion IsKept (slots_of env.now) }
    ensures { let m = guarded_of tuple_limit first g.now in Leaves (gathers out.old (bind (m.guard (slots_of env.now)) (λ b. if b then m.body frame.now (slots_of env.now) else Ok []))) out.new result }
{
    match holds(alloc, &g.guard, env) {
        Ok(true) => run(alloc, &g.body, first, frame, env, out),
        Ok(false) => Ok(()),
        Err(s) => Err(s),
    }
}

/// A branch of IF or SELECT, where its guard holds, and whether it does.
#[cycle(run)]
fn try_branch(
    alloc: Global,
    b: &Branch,
    first: usize,
    frame: &Frame,
    env: &Scope<'_>,
    out: &mut Gathering,
) -> Result<bool, EvalStop>
    requires frame { IsKeptFrame frame.now }
    requires slots { AllByRecursion IsKept (slots_of env.now) }
    ensures { LeavesChosen (chooses false out.old (held (branch_of tuple_limit first b.now) frame.now (slots_of env.now))) out.new result }
{
    match holds(alloc, &b.guard, env) {
        Ok(true) => match run(alloc, &b.body, first, frame, env, out) {
            Ok(()) => Ok(true),
            Err(s) => Err(s),
        },
        Ok(false) => Ok(false),
        Err(s) => Err(s),
    }
}

/// The first branch whose guard holds, and whether there is one.
#[cycle(run)]
fn first_branch(
    alloc: Global,
    branches: &[Branch],
    first: usize,
    frame: &Frame,
    env: &Scope<'_>,
    out: &mut Gathering,
) -> Result<bool, EvalStop>
    requires frame { IsKeptFrame frame.now }
    requires slots { AllByRecursion IsKept (slots_of env.now) }
    ensures { LeavesChosen (chooses false out.old (first_of (map (λ b. held b frame.now (slots_of env.now)) (map (branch_of tuple_limit first) branches.now)))) out.new result }
{
    for b in branches {
        match try_branch(alloc, b, first, frame, env, out) {
            Ok(true) => return Ok(true),
            Ok(false) => {}
            Err(s) => return Err(s),
        }
    }
    Ok(false)
}

/// All branches whose guards hold, and whether there is one.
#[cycle(run)]
fn all_branches(
    alloc: Global,
    branches: &[Branch],
    first: usize,
    frame: &Frame,
    env: &Scope<'_>,
    out: &mut Gathering,
) -> Result<bool, EvalStop>
    requires frame { IsKeptFrame frame.now }
    requires slots { AllByRecursion IsKept (slots_of env.now) }
    ensures { LeavesChosen (chooses false out.old (all_of (map (λ b. held b frame.now (slots_of env.now)) (map (branch_of tuple_limit first) branches.now)))) out.new result }
{
    let mut found = false;
    for b in branches {
        match try_branch(alloc, b, first, frame, env, out) {
            Ok(held) => found = either(found, held),
            Err(s) => return Err(s),
        }
    }
    Ok(found)
}

/// `CHOICE S OR T END`
#[cycle(run)]
fn run_all(
    alloc: Global,
    ss: &[SubstTree],
    first: usize,
    frame: &Frame,
    env: &Scope<'_>,
    out: &mut Gathering,
) -> Result<(), EvalStop>
    requires frame { IsKeptFrame frame.now }
    requires slots { AllByRecursion IsKept (slots_of env.now) }
    ensures { Leaves (gathers out.old (union_of (map (λ e. e frame.now (slots_of env.now)) (map (effect_of tuple_limit first) ss.now)))) out.new result }
{
    for s in ss {
        match run(alloc, s, first, frame, env, out) {
            Ok(()) => {}
            Err(s) => return Err(s),
        }
    }
    Ok(())
}

/// A branch of CASE, where it has a label of this value, and whether it has.
#[cycle(run)]
fn try_case(
    alloc: Global,
    c: &CaseBranch,
    v: &Value,
    first: usize,
    frame: &Frame,
    env: &Scope<'_>,
    out: &mut Gathering,
) -> Result<bool, EvalStop>
    requires frame { IsKeptFrame frame.now }
    requires slots { AllByRecursion IsKept (slots_of env.now) }
    ensures { LeavesChosen (chooses false out.old (labelled v.now (case_of tuple_limit first c.now) frame.now (slots_of env.now))) out.new result }
{
    match has_label(alloc, c.labels.as_slice(), v, env) {
        Ok(true) => match run(alloc, &c.body, first, frame, env, out) {
            Ok(()) => Ok(true),
            Err(s) => Err(s),
        },
        Ok(false) => Ok(false),
        Err(s) => Err(s),
    }
}

/// The first branch with a label of this value, and whether there is one.
#[cycle(run)]
fn first_case(
    alloc: Global,
    branches: &[CaseBranch],
    v: &Value,
    first: usize,
    frame: &Frame,
    env: &Scope<'_>,
    out: &mut Gathering,
) -> Result<bool, EvalStop>
    requires frame { IsKeptFrame frame.now }
    requires slots { AllByRecursion IsKept (slots_of env.now) }
    ensures { LeavesChosen (chooses false out.old (first_of (map (λ c. labelled v.now c frame.now (slots_of env.now)) (map (case_of tuple_limit first) branches.now)))) out.new result }
{
    for c in branches {
        match try_case(alloc, c, v, first, frame, env, out) {
            Ok(true) => return Ok(true),
            Ok(false) => {}
            Err(s) => return Err(s),
        }
    }
    Ok(false)
}

/// `ANY x,y WHERE P THEN S END`
#[cycle(run)]
fn any_tuples(
    alloc: Global,
    s: &Selection,
    first: usize,
    frame: &Frame,
    env: &Scope<'_>,
    out: &mut Gathering,
) -> Result<(), EvalStop>
    requires frame { IsKeptFrame frame.now }
    requires slots { AllByRecursion IsKept (slots_of env.now) }
    ensures { Leaves (gathers out.old (any_of tuple_limit first (selection_of tuple_limit first s.now) frame.now (slots_of env.now))) out.new result }
{
    let mut walk = begun(alloc);
    'tuples: loop {
        match advance(alloc, &s.binder, env, &mut walk) {
            Ok(true) => match one_tuple(
                alloc,
                s,
                first,
                frame,
                &Scope::Inside(&*env, walk.values.as_slice()),
                out,
            ) {
                Ok(()) => {}
                Err(s) => return Err(s),
            },
            Ok(false) => return Ok(()),
            Err(s) => return Err(s),
        }
    }
}

/// What is done for one tuple, if the predicate holds for it.
#[cycle(run)]
#[tactic(auto, using(crate::proofs::Gathers::gathers_ok, crate::proofs::Gathers::gathers_err))]
fn one_tuple(
    alloc: Global,
    s: &Selection,
    first: usize,
    frame: &Frame,
    env: &Scope<'_>,
    out: &mut Gathering,
) -> Result<(), EvalStop>
    requires frame { IsKeptFrame frame.now }
    requires slots { AllByRecursion IsKept (slots_of env.now) }
    ensures { let m = selection_of tuple_limit first s.now in Leaves (gathers out.old (bind (m.binder.test (slots_of env.now)) (λ b. if b then m.body frame.now (slots_of env.now) else Ok []))) out.new result }
{
    match holds(alloc, &s.binder.predicate, env) {
        Ok(true) => run(alloc, &s.body, first, frame, env, out),
        Ok(false) => Ok(()),
        Err(s) => Err(s),
    }
}

/// `LET x,y BE x = E & y = F IN S END`
#[cycle(run)]
#[tactic(auto, using(crate::proofs::Gathers::gathers_seen))]
fn let_in(
    alloc: Global,
    body: &SubstTree,
    es: &[ExprTree],
    first: usize,
    frame: &Frame,
    env: &Scope<'_>,
    out: &mut Gathering,
) -> Result<(), EvalStop>
    requires frame { IsKeptFrame frame.now }
    requires slots { AllByRecursion IsKept (slots_of env.now) }
    ensures { Leaves (gathers out.old (bind (values_of tuple_limit es.now (slots_of env.now)) (λ vs. effect_of tuple_limit first body.now frame.now (slots_of env.now ++ vs)))) out.new result }
{
    match values(alloc, es, env) {
        Ok(values) => run(
            alloc,
            body,
            first,
            frame,
            &Scope::Inside(&*env, values.as_slice()),
            out,
        ),
        Err(s) => Err(s),
    }
}

/// Several `||` and `;` after the frames of the left side, in order.
#[cycle(run)]
fn follow(
    alloc: Global,
    steps: &[Step],
    xs: Items<Frame>,
    first: usize,
    frame: &Frame,
    env: &Scope<'_>,
    out: &mut Gathering,
) -> Result<(), EvalStop>
    requires frame { IsKeptFrame frame.now }
    requires slots { AllByRecursion IsKept (slots_of env.now) }
    requires left { AllByRecursion IsKeptFrame xs }
    ensures { Leaves (gathers out.old (after_all tuple_limit first (map (step_of tuple_limit first) steps.now) xs frame.now (slots_of env.now))) out.new result }
{
    let mut left = xs;
    let mut i = 0;
    'steps: while i < steps.len() {
        let s = &steps[i];
        if i + 1 == steps.len() {
            return one_step(alloc, s, &left, first, frame, env, out);
        }
        match stepped(alloc, s, &left, first, frame, env) {
            Ok(ys) => left = renewed(left, ys),
            Err(s) => return Err(s),
        }
        i += 1;
    }
    leave_all(alloc, &left, out)
}

/// The frames after one `||` or `;`, in order.
#[cycle(run)]
#[tactic(auto, using(crate::proofs::Gathers::gathered_stop))]
fn stepped(
    alloc: Global,
    s: &Step,
    xs: &Items<Frame>,
    first: usize,
    frame: &Frame,
    env: &Scope<'_>,
) -> Result<Items<Frame>, EvalStop>
    requires frame { IsKeptFrame frame.now }
    requires slots { AllByRecursion IsKept (slots_of env.now) }
    requires left { AllByRecursion IsKeptFrame xs.now }
    ensures value { Means (bind (after tuple_limit first (step_of tuple_limit first s.now) xs.now frame.now (slots_of env.now)) (λ fs. Ok (in_order fs))) result }
    ensures kept { IfOk result (λ fs. AllByRecursion IsKeptFrame fs) }
{
    let mut out = Gathering::new(alloc, None);
    match one_step(alloc, s, xs, first, frame, env, &mut out) {
        Ok(()) => Ok(frames_in(out)),
        Err(s) => Err(s),
    }
}

/// One `||` or `;` after the frames of the left side, in order.
#[cycle(run)]
#[tactic(auto, using(crate::proofs::Gathers::gathers_ok, crate::proofs::Gathers::gathers_err))]
fn one_step(
    alloc: Global,
    s: &Step,
    xs: &Items<Frame>,
    first: usize,
    frame: &Frame,
    env: &Scope<'_>,
    out: &mut Gathering,
) -> Result<(), EvalStop>
    requires frame { IsKeptFrame frame.now }
    requires slots { AllByRecursion IsKept (slots_of env.now) }
    requires left { AllByRecursion IsKeptFrame xs.now }
    ensures { Leaves (gathers out.old (after tuple_limit first (step_of tuple_limit first s.now) xs.now frame.now (slots_of env.now))) out.new result }
{
    match s.joint {
        Joint::Parallel => match gathered(alloc, &s.body, first, frame, env) {
            Ok(ys) => join_all(
                alloc,
                first,
                s.targets.as_slice(),
                xs.as_slice(),
                ys.as_slice(),
                out,
            ),
            Err(s) => Err(s),
        },
        Joint::Sequence => match all_slots(alloc, env) {
            Ok(slots) => from_each(alloc, s, xs.as_slice(), first, slots.as_slice(), out),
            Err(_) => Err(EvalStop::Memory),
        },
    }
}

/// The right side of `;` from each frame of the left side, in order.
#[cycle(run)]
fn from_each(
    alloc: Global,
    s: &Step,
    xs: &[Frame],
    first: usize,
    slots: &[Value],
    out: &mut Gathering,
) -> Result<(), EvalStop>
    requires left { AllByRecursion IsKeptFrame xs.now }
    requires slots { AllByRecursion IsKept slots.now }
    ensures { Leaves (gathers out.old (union_of (map (λ x. (step_of tuple_limit first s.now).body x (frames.middle first x slots.now)) xs.now))) out.new result }
{
    for x in xs {
        match from_one(alloc, s, x, first, slots, out) {
            Ok(()) => {}
            Err(s) => return Err(s),
        }
    }
    Ok(())
}

/// The right side of `;` from one frame of the left side.
#[cycle(run)]
#[tactic(auto, using(crate::proofs::Trees::kept_flat))]
fn from_one(
    alloc: Global,
    s: &Step,
    x: &Frame,
    first: usize,
    slots: &[Value],
    out: &mut Gathering,
) -> Result<(), EvalStop>
    requires left { IsKeptFrame x.now }
    requires slots { AllByRecursion IsKept slots.now }
    ensures { Leaves (gathers out.old ((step_of tuple_limit first s.now).body x.now (frames.middle first x.now slots.now))) out.new result }
{
    match middle(alloc, first, x, slots) {
        Ok(values) => run(
            alloc,
            &s.body,
            first,
            x,
            &Scope::Slots(values.as_slice()),
            out,
        ),
        Err(_) => Err(EvalStop::Memory),
    }
}
