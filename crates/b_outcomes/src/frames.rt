//! Frames.

ghost use Rattle.std.specs.Prelude.{◌≡◌, ◌-◌, ◌++◌, ◌∷◌, [], Some, None, map, refl, slice_index_or, IfOk, OnOk};
ghost use Rattle.std.specs.Cmp.{eq_by_cmp_equiv, partial_equiv_from_equiv, partial_order_from_total};
ghost use Rattle.b_outcomes.specs.Frames as spec;
ghost use Rattle.b_outcomes.specs.Frames.{frame_cmp, same_frame, reads};
ghost use Rattle.b_outcomes.specs.FrameLaws.{frame_total};

use b_tree::Assignment;
use b_values::Value;
use sqlite_items::Items;
use std::alloc::{AllocError, Global};
use std::cmp::Ordering;

/// The values that the results and then the variables have, before or after a substitution.
#[derive(Drop)]
pub struct Frame {
    pub slots: Items<Option<Value>>,
}

impl PartialEq for Frame {
    ghost eq = { same_frame };

    ghost laws = { partial_equiv_from_equiv (eq_by_cmp_equiv frame_total) };

    fn eq(&self, other: &Frame) -> bool {
        self.slots.as_slice().cmp(other.slots.as_slice()).is_eq()
    }
}

impl Eq for Frame {
    ghost laws = { eq_by_cmp_equiv frame_total };
}

impl PartialOrd for Frame {
    ghost partial_cmp = { λ a b. Some (frame_cmp a b) };

    ghost laws = { partial_order_from_total frame_total };

    fn partial_cmp(&self, other: &Frame) -> Option<Ordering> {
        Some(self.slots.as_slice().cmp(other.slots.as_slice()))
    }
}

impl Ord for Frame {
    ghost cmp = { frame_cmp };

    ghost total = { frame_total };

    ghost matches_partial_cmp = { λ a b. refl };

    ghost matches_eq = { λ a b. refl };

    fn cmp(&self, other: &Frame) -> Ordering {
        self.slots.as_slice().cmp(other.slots.as_slice())
    }
}

fn share_slot(slot: &Option<Value>) -> Result<Option<Value>, AllocError>
    ensures { IfOk result (λ s. s ≡ slot.now) }
{
    match slot {
        None => Ok(None),
        Some(v) => Ok(Some(v.share()?)),
    }
}

/// The same frame, its values shared.
pub fn copied(alloc: Global, frame: &Frame) -> Result<Frame, AllocError>
    ensures { IfOk result (λ f. f ≡ frame.now) }
{
    let mut slots = Items::new(alloc);
    for slot in frame.slots.as_slice() {
        slots.push(share_slot(slot)?)?;
    }
    Ok(Frame { slots })
}

/// The values of a frame's names, as they are read.
pub fn readable(alloc: Global, frame: &Frame) -> Result<Items<Value>, AllocError>
    ensures { IfOk result (λ values. values ≡ reads frame.now) }
{
    let mut values = Items::new(alloc);
    for slot in frame.slots.as_slice() {
        values.push(read(slot)?)?;
    }
    Ok(values)
}

fn read(slot: &Option<Value>) -> Result<Value, AllocError>
    ensures { IfOk result (λ v. v ≡ spec.read slot.now) }
{
    match slot {
        None => Ok(Value::Truth(false)),
        Some(v) => v.share(),
    }
}

/// Writes a name of the frame.
#[tactic(auto, using(crate::proofs::Writing::put_past))]
fn put(frame: &mut Frame, at: usize, slot: Option<Value>)
    ensures { frame.new ≡ spec.put at slot frame.old }
{
    if at < frame.slots.len() {
        frame.slots.set(at, slot);
    }
}

/// The frame with one name's new value.
pub(crate) fn written_one(
    alloc: Global,
    first: usize,
    target: usize,
    v: &Value,
    frame: &Frame,
) -> Result<Frame, AllocError>
    ensures { IfOk result (λ f. f ≡ spec.put (target - first) (Some v.now) frame.now) }
{
    let mut next = copied(alloc, frame)?;
    put(&mut next, target.saturating_sub(first), Some(v.share()?));
    Ok(next)
}

/// The frame with a value for each target.
#[tactic(auto, using(crate::proofs::Writing::written_ends))]
pub(crate) fn written(
    alloc: Global,
    first: usize,
    targets: &[usize],
    values: &[Value],
    frame: &Frame,
) -> Result<Frame, AllocError>
    ensures { IfOk result (λ f. f ≡ spec.written first targets.now values.now frame.now) }
{
    let mut next = copied(alloc, frame)?;
    for i in 0..targets.len().min(values.len()) {
        put(
            &mut next,
            targets[i].saturating_sub(first),
            Some(values[i].share()?),
        );
    }
    Ok(next)
}

/// The frame with the values of an assignment.
#[tactic(auto, using(crate::proofs::Writing::assigned_ends))]
pub(crate) fn assigned(
    alloc: Global,
    first: usize,
    targets: &[Assignment],
    values: &[Value],
    frame: &Frame,
) -> Result<Frame, AllocError>
    ensures { IfOk result (λ f. f ≡ spec.written first (map (λ a. a.target) targets.now) values.now frame.now) }
{
    let mut next = copied(alloc, frame)?;
    for i in 0..targets.len().min(values.len()) {
        put(
            &mut next,
            targets[i].target.saturating_sub(first),
            Some(values[i].share()?),
        );
    }
    Ok(next)
}

/// A frame with what another has at the targets.
pub(crate) fn joined(
    alloc: Global,
    first: usize,
    targets: &[usize],
    x: &Frame,
    y: &Frame,
) -> Result<Frame, AllocError>
    ensures { IfOk result (λ f. f ≡ spec.joined first targets.now x.now y.now) }
{
    let mut next = copied(alloc, x)?;
    for target in targets {
        let at = target.saturating_sub(first);
        put(&mut next, at, slot_at(y, at)?);
    }
    Ok(next)
}

#[tactic(auto, using(crate::proofs::Writing::slot_there, crate::proofs::Writing::slot_past))]
fn slot_at(frame: &Frame, at: usize) -> Result<Option<Value>, AllocError>
    ensures { IfOk result (λ s. s ≡ slice_index_or frame.now.slots at None) }
{
    let slots = frame.slots.as_slice();
    if at < slots.len() {
        share_slot(&slots[at])
    } else {
        Ok(None)
    }
}
