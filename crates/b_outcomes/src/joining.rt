//! The frames of `||`, and the slots of the middle states of `;`.

ghost use Rattle.std.specs.Prelude.{◌≡◌, ◌≢◌, ◌||◌, [], ◌∷◌, Ok, Some, None, map, take, drop, IfOk};
ghost use Rattle.std.specs.List.{AllByRecursion};
ghost use Rattle.b_places.specs.Scopes.{slots_of};
ghost use Rattle.b_values.specs.Values.{IsKept};
ghost use Rattle.b_outcomes.specs.Frames.{IsKeptFrame, joins};
ghost use Rattle.b_outcomes.specs.Frames as frames;
ghost use Rattle.b_outcomes.specs.Gathered.{gathers, Leaves};

use crate::frames::{Frame, joined, readable};
use crate::gathering::Gathering;
use crate::single::{leave, skip};
use b_places::Scope;
use b_rows::EvalStop;
use b_values::{Value, share_all};
use sqlite_items::Items;
use std::alloc::{AllocError, Global};

/// Each of `xs` joined with each of `ys`, until they are more than are told apart.
pub(crate) fn join_all(
    alloc: Global,
    first: usize,
    targets: &[usize],
    xs: &[Frame],
    ys: &[Frame],
    out: &mut Gathering,
) -> Result<(), EvalStop>
    requires left { AllByRecursion IsKeptFrame xs.now }
    requires right { AllByRecursion IsKeptFrame ys.now }
    ensures { Leaves (gathers out.old (Ok (joins first targets.now xs.now ys.now))) out.new result }
{
    for x in xs {
        match join_each(alloc, first, targets, x, ys, out) {
            Ok(()) => {}
            Err(s) => return Err(s),
        }
    }
    Ok(())
}

fn join_each(
    alloc: Global,
    first: usize,
    targets: &[usize],
    x: &Frame,
    ys: &[Frame],
    out: &mut Gathering,
) -> Result<(), EvalStop>
    requires left { IsKeptFrame x.now }
    requires right { AllByRecursion IsKeptFrame ys.now }
    ensures { Leaves (gathers out.old (Ok (map (λ y. frames.joined first targets.now x.now y) ys.now))) out.new result }
{
    if out.is_over() {
        return Ok(());
    }
    for y in ys {
        match join_one(alloc, first, targets, x, y, out) {
            Ok(()) => {}
            Err(s) => return Err(s),
        }
    }
    Ok(())
}

#[tactic(auto, using(crate::proofs::Kept::next_joined))]
fn join_one(
    alloc: Global,
    first: usize,
    targets: &[usize],
    x: &Frame,
    y: &Frame,
    out: &mut Gathering,
) -> Result<(), EvalStop>
    requires left { IsKeptFrame x.now }
    requires right { IsKeptFrame y.now }
    ensures { Leaves (gathers out.old (Ok (frames.joined first targets.now x.now y.now ∷ []))) out.new result }
{
    match joined(alloc, first, targets, x, y) {
        Ok(next) => leave(out, next),
        Err(_) => Err(EvalStop::Memory),
    }
}

/// All frames that were gathered, of which any number is told apart.
pub(crate) fn frames_in(out: Gathering) -> Items<Frame>
    requires { out.1 ≢ None }
    ensures found { out.1 ≡ Some result }
    ensures kept { AllByRecursion IsKeptFrame result }
{
    match out.finish() {
        Some(frames) => frames,
        None => unreachable!(),
    }
}

/// Gathers frames that were gathered.
pub(crate) fn leave_all(
    alloc: Global,
    frames: &Items<Frame>,
    out: &mut Gathering,
) -> Result<(), EvalStop>
    requires { AllByRecursion IsKeptFrame frames.now }
    ensures { Leaves (gathers out.old (Ok frames.now)) out.new result }
{
    for frame in frames.as_slice() {
        match skip(alloc, frame, out) {
            Ok(()) => {}
            Err(s) => return Err(s),
        }
    }
    Ok(())
}

/// The values of all slots in scope, shared.
pub(crate) fn all_slots(alloc: Global, env: &Scope<'_>) -> Result<Items<Value>, AllocError>
    ensures { IfOk result (λ values. values ≡ slots_of env.now) }
{
    match env {
        Scope::Slots(values) => share_all(alloc, values),
        Scope::Inside(outer, values) => {
            let mut all = all_slots(alloc, outer)?;
            all.append(share_all(alloc, values)?)?;
            Ok(all)
        }
    }
}

/// The first values.
fn front(values: &[Value], count: usize) -> &[Value]
    ensures { result.now ≡ take count values.now }
{
    if count < values.len() {
        values.split_at(count).0
    } else {
        values
    }
}

/// All values after the first.
fn behind(values: &[Value], count: usize) -> &[Value]
    ensures { result.now ≡ drop count values.now }
{
    if count < values.len() {
        values.split_at(count).1
    } else {
        &[]
    }
}

/// The values of the slots of a middle state, shared.
#[tactic(auto, using(crate::proofs::Kept::next_middle))]
pub(crate) fn middle(
    alloc: Global,
    first: usize,
    x: &Frame,
    slots: &[Value],
) -> Result<Items<Value>, AllocError>
    requires frame { IsKeptFrame x.now }
    requires slots { AllByRecursion IsKept slots.now }
    ensures value { IfOk result (λ values. values ≡ frames.middle first x.now slots.now) }
    ensures kept { IfOk result (λ values. AllByRecursion IsKept values) }
{
    match put_together(alloc, first, x, slots) {
        Ok(values) => Ok(values),
        Err(e) => Err(e),
    }
}

#[tactic(auto, using(crate::proofs::Kept::middle_is))]
fn put_together(
    alloc: Global,
    first: usize,
    x: &Frame,
    slots: &[Value],
) -> Result<Items<Value>, AllocError>
    ensures { IfOk result (λ values. values ≡ frames.middle first x.now slots.now) }
{
    let mut all = share_all(alloc, front(slots, first))?;
    all.append(readable(alloc, x)?)?;
    let locals = behind(behind(slots, first), x.slots.len());
    all.append(share_all(alloc, locals)?)?;
    Ok(all)
}

/// One of the two, or both.
pub(crate) fn either(a: bool, b: bool) -> bool
    ensures { result ≡ (a || b) }
{
    a || b
}

/// Lets the old frames go.
pub(crate) fn renewed(old: Items<Frame>, new: Items<Frame>) -> Items<Frame>
    ensures { result ≡ new }
{
    let _ = old;
    new
}
