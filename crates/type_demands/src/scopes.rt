//! The names that are known at a place: a frame for each binder round it.
ghost use Rattle.std.specs.Prelude.{◌≡◌, ◌<◌, ◌+◌, ◌^◌, ◌++◌, ◌&&◌, not, is_some, ℕ, List, Some, cond, length, IfOk, OnOk, bytes_eq};
ghost use Rattle.type_demands.specs.Demands as spec;
ghost use Rattle.type_demands.specs.Scopes as scopes;
ghost use Rattle.type_demands.specs.Scopes.{bind, meaning_in, names_of, nothing_known, scope_of, without_last};

use crate::demands::{Demand, Meaning};
use b_ast::Bound;
use std::alloc::{AllocError, Global};
use std::collections::HashMap;

/// The names of one binder, with what each means.
#[derive(Drop)]
pub struct Frame {
    pub meanings: HashMap<Vec<u8>, Meaning>,
}

impl Frame {
    fn get(&self, name: &[u8]) -> Option<Meaning>
        ensures { result ≡ meaning_in self.now.meanings name.now }
    {
        self.meanings.get(name).copied()
    }

    /// Whether a name is one of the binder's.
    pub fn has(&self, name: &[u8]) -> bool
        ensures { result ≡ is_some (meaning_in self.now.meanings name.now) }
    {
        has(&self.meanings, name)
    }
}

/// What a name means, from the innermost frame on.
#[tactic(auto, using(crate::proofs::Frames::found_in, crate::proofs::Frames::found_before, crate::proofs::Frames::found_nowhere, crate::proofs::Frames::all_frames))]
pub fn find(frames: &[Frame], name: &[u8]) -> Option<Meaning>
    ensures { result ≡ scope_of frames.now name.now }
{
    let mut i = frames.len();
    while i > 0 {
        i -= 1;
        if let Some(meaning) = frames[i].get(name) {
            return Some(meaning);
        }
    }
    None
}

/// Sets what a name means, whether it meant something or not.
pub fn put_meaning(
    meanings: &mut HashMap<Vec<u8>, Meaning>,
    alloc: Global,
    name: &[u8],
    meaning: Meaning,
) -> Result<(), AllocError>
    ensures { OnOk result ((x : List ℕ) → meaning_in meanings.new x ≡ cond (bytes_eq x name.now) (Some meaning) (meaning_in meanings.old x)) }
{
    let key = Vec::from_slice(alloc, name)?;
    meanings.insert(key, meaning)?;
    Ok(())
}

fn has(meanings: &HashMap<Vec<u8>, Meaning>, name: &[u8]) -> bool
    ensures { result ≡ is_some (meaning_in meanings.now name.now) }
{
    match meanings.get(name).copied() {
        None => false,
        Some(_meaning) => true,
    }
}

/// Binds a name, and says whether it meant nothing before.
pub fn put_name(
    meanings: &mut HashMap<Vec<u8>, Meaning>,
    alloc: Global,
    name: &[u8],
    part: usize,
) -> Result<bool, AllocError>
    ensures fresh { IfOk result (λ fresh. fresh ≡ not (is_some (meaning_in meanings.old name.now))) }
    ensures put { OnOk result ((x : List ℕ) → meaning_in meanings.new x ≡ cond (bytes_eq x name.now) (Some (scopes.bound_at part)) (meaning_in meanings.old x)) }
{
    let known = has(meanings, name);
    put_meaning(
        meanings,
        alloc,
        name,
        Meaning {
            part,
            has_old: false,
        },
    )?;
    Ok(!known)
}

/// The frame of a binder, and whether its names differ.
#[derive(Drop)]
pub struct Opened {
    pub frame: Frame,
    pub differ: bool,
}

fn both(first: bool, second: bool) -> bool
    ensures { result ≡ (first && second) }
{
    if first { second } else { false }
}

/// The frame of names whose parts begin at a number.
#[tactic(auto, using(crate::proofs::Frames::opening_none, crate::proofs::Frames::opening_more, crate::proofs::Frames::opening_all))]
pub fn frame_of(alloc: Global, names: &[Bound], start: usize) -> Result<Opened, AllocError>
    requires room { start + length names.now < 2 ^ 64 }
    ensures frame { IfOk result (λ opened. (x : List ℕ) → meaning_in opened.frame.meanings x ≡ bind (names_of names.now) start nothing_known x) }
    ensures differ { IfOk result (λ opened. opened.differ ≡ scopes.all_differ (names_of names.now)) }
{
    let mut meanings = HashMap::with_capacity(alloc, names.len())?;
    let mut differ = true;
    let mut i = names.len();
    while i > 0 {
        i -= 1;
        let fresh = put_name(&mut meanings, alloc, names[i].name.as_slice(), start + i)?;
        differ = both(fresh, differ);
    }
    Ok(Opened {
        frame: Frame { meanings },
        differ,
    })
}

/// The number of the next part. More parts than can be numbered are want of memory.
pub fn take(next: &mut usize) -> Result<usize, AllocError>
    ensures whole { IfOk result (λ w. w ≡ next.old) }
    ensures parts { OnOk result (next.new ≡ next.old + 1) }
{
    take_all(next, 1)
}

/// The number of the first of the next parts.
pub fn take_all(next: &mut usize, count: usize) -> Result<usize, AllocError>
    ensures whole { IfOk result (λ w. w ≡ next.old) }
    ensures parts { OnOk result (next.new ≡ next.old + count) }
    ensures fits { OnOk result (next.old + count < 2 ^ 64) }
{
    let first = *next;
    match first.checked_add(count) {
        None => Err(AllocError),
        Some(after) => {
            *next = after;
            Ok(first)
        }
    }
}

/// Two names of a binder that are equal.
pub fn tell_twice(out: &mut Vec<Demand>, differ: bool) -> Result<(), AllocError>
    ensures { OnOk result (out.new.items ≡ out.old.items ++ spec.twice_if differ) }
{
    if !differ {
        out.push(Demand::Twice)?;
    }
    Ok(())
}

/// Binds the names of a binder, and gives the part of the first one.
#[tactic(auto, using(crate::proofs::Frames::framed, crate::proofs::Frames::without_pushed))]
pub fn open_names(
    alloc: Global,
    frames: &mut Vec<Frame>,
    out: &mut Vec<Demand>,
    next: &mut usize,
    names: &[Bound],
) -> Result<usize, AllocError>
    ensures whole { IfOk result (λ w. w ≡ next.old) }
    ensures parts { OnOk result (next.new ≡ next.old + length names.now) }
    ensures demands { OnOk result (out.new.items ≡ out.old.items ++ spec.twice names.now) }
    ensures scope { OnOk result (scope_of frames.new.items ≡ bind (names_of names.now) next.old (scope_of frames.old.items)) }
    ensures outer { OnOk result (without_last frames.new.items ≡ frames.old.items) }
{
    let first = take_all(next, names.len())?;
    let opened = frame_of(alloc, names, first)?;
    tell_twice(out, opened.differ)?;
    frames.push(opened.frame)?;
    Ok(first)
}

/// Ends the scope of a binder.
#[tactic(auto, using(crate::proofs::Frames::without_pushed))]
pub fn close(frames: &mut Vec<Frame>)
    ensures { frames.new.items ≡ without_last frames.old.items }
{
    let _frame = frames.pop();
}
