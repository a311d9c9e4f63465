// What a command in progress needs.
ghost use Rattle.std.specs.Prelude.{◌≡◌, [], ◌∷◌, Some, length, slice_get, IfOk};
ghost use Rattle.engine_face.specs.Meaning.{invariant_key};
ghost use Rattle.session_words.specs.Replies.{dests};
ghost use Rattle.session_core.specs.Moving.{numbered_in, packed_steps, names_needed, value_needed, needed};

use crate::held::{Held, state_in};
use crate::lists::share_dests;
use crate::stages::{Need, Stage};
use engine_face::{FormulaKey, OpList, Packed};
use formulas::Sub;
use session_words::Numbered;
use sqlite_items::Items;
use std::alloc::{AllocError, Global};

fn share_keys(alloc: Global, keys: &[FormulaKey]) -> Result<Items<FormulaKey>, AllocError>
    ensures { IfOk result (λ all. all ≡ keys.now) }
{
    let mut all = Items::new(alloc);
    for key in keys {
        all.push(key.share()?)?;
    }
    Ok(all)
}

fn need_names(alloc: Global, lists: &[OpList<Packed>]) -> Result<Need, AllocError>
    ensures { IfOk result (λ need. names_needed (dests (packed_steps lists.now)) ≡ Some need) }
{
    let states = share_dests(alloc, lists)?;
    if states.is_empty() {
        return Err(AllocError);
    }
    Ok(Need::Names(states))
}

fn need_name(alloc: Global, state: &Packed) -> Result<Need, AllocError>
    ensures { IfOk result (λ need. need ≡ Need.Names (state.now ∷ [])) }
{
    let mut states = Items::new(alloc);
    states.push(state.share()?)?;
    Ok(Need::Names(states))
}

fn need_value(at: &Packed, key: &FormulaKey) -> Result<Need, AllocError>
    ensures { IfOk result (λ need. need ≡ Need.Value at.now key.now) }
{
    Ok(Need::Value(at.share()?, key.share()?))
}

fn need_invariant(alloc: Global, at: &Packed) -> Result<Need, AllocError>
    ensures { IfOk result (λ need. need ≡ Need.Value at.now invariant_key) }
{
    Ok(Need::Value(at.share()?, FormulaKey::invariant(alloc)?))
}

fn need_sub(at: &Numbered, subs: &[Sub], n: usize) -> Result<Need, AllocError>
    ensures { IfOk result (λ need. value_needed at.now (slice_get subs.now n) ≡ Some need) }
{
    match sqlite_items::at(subs, n) {
        Some(sub) => need_value(&at.state, &sub.key),
        None => Err(AllocError),
    }
}

/// What a stage needs.
pub fn need_of(
    alloc: Global,
    root: &Numbered,
    held: &Held,
    stage: &Stage,
) -> Result<Need, AllocError>
    ensures { IfOk result (λ need. needed root.now held.now stage.now ≡ Some need) }
{
    let at = &state_in(root, &held.trace).state;
    match stage {
        Stage::Listing => Ok(Need::Steps(at.share()?)),
        Stage::Taking(_) => Ok(Need::Steps(at.share()?)),
        Stage::NamingLists(lists) => need_names(alloc, lists.get().lists.as_slice()),
        Stage::NamingStep(step) => need_name(alloc, &step.dest),
        Stage::Evaluating(key) => need_value(at, key),
        Stage::Checking => need_invariant(alloc, at),
        Stage::Subscribing(key) => need_value(at, key),
        Stage::Finding(op, preds) => {
            let preds = share_keys(alloc, preds.as_slice())?;
            Ok(Need::Find(at.share()?, *op, preds))
        }
        Stage::Telling(arrival, told) => need_sub(&arrival.at, held.subs.list(), told.len()),
    }
}
