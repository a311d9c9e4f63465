//! The outcomes of whole substitutions.

ghost use Rattle.std.specs.Prelude.{◌≡◌, List, [], Ok, Some, IfOk};
ghost use Rattle.std.specs.List.{AllByRecursion};
ghost use Rattle.ascending.specs.Ascending.{IsAscending};
ghost use Rattle.b_meaning.specs.Meaning.{tuple_limit};
ghost use Rattle.b_places.specs.Scopes.{slots_of};
ghost use Rattle.b_rows.specs.Answers.{Answer, Means, bind};
ghost use Rattle.b_values.specs.Values.{IsKept};
ghost use Rattle.b_outcomes.specs.Frames.{frame_cmp, IsKeptFrame};
ghost use Rattle.b_outcomes.specs.Gathered.{gathers};
ghost use Rattle.b_outcomes.specs.Outcomes as spec;
ghost use Rattle.b_outcomes.specs.declared.frames.Frame.{Frame};

use crate::frames::Frame;
use crate::gathering::Gathering;
use crate::running::run;
use b_places::Scope;
use b_rows::{EvalStop, stop};
use b_tree::{Place, SubstTree};
use b_values::FaultKind;
use sqlite_items::Items;
use std::alloc::Global;

#[tactic(auto, unfolding(crate::specs::Outcomes::outcome_limit))]
fn outcome_limit() -> usize
    ensures { result ≡ spec.outcome_limit }
{
    100_000
}

/// What a whole substitution leaves is gathered up to the limit.
fn limited(alloc: Global) -> Gathering
    ensures { result ≡ (Some spec.outcome_limit, Some []) }
{
    Gathering::new(alloc, Some(outcome_limit()))
}

/// The outcomes that were gathered, or the fault of too many.
fn told(at: Place, out: Gathering) -> Result<Items<Frame>, EvalStop>
    ensures value { (a : Answer (List Frame)) → gathers (Some spec.outcome_limit, Some []) a ≡ Ok out → Means (bind a (spec.within spec.outcome_limit at)) result }
    ensures ascends { IfOk result (λ frames. IsAscending frame_cmp frames) }
    ensures kept { IfOk result (λ frames. AllByRecursion IsKeptFrame frames) }
{
    match out.finish() {
        Some(frames) => Ok(frames),
        None => Err(stop(FaultKind::TooLarge, at)),
    }
}

/// The outcomes of a whole substitution in order, each once: what it may leave of the results and variables, whose slots
/// begin after so many constants. The fault of too many stands at this place.
#[tactic(auto, using(crate::proofs::Gathers::gathered_stop))]
pub fn outcomes(
    alloc: Global,
    s: &SubstTree,
    at: Place,
    first: usize,
    before: &Frame,
    env: &Scope<'_>,
) -> Result<Items<Frame>, EvalStop>
    requires frame { IsKeptFrame before.now }
    requires slots { AllByRecursion IsKept (slots_of env.now) }
    ensures value { Means (spec.outcomes tuple_limit first s.now at before.now (slots_of env.now)) result }
    ensures ascends { IfOk result (λ frames. IsAscending frame_cmp frames) }
    ensures kept { IfOk result (λ frames. AllByRecursion IsKeptFrame frames) }
{
    let mut out = limited(alloc);
    match run(alloc, s, first, before, env, &mut out) {
        Ok(()) => told(at, out),
        Err(s) => Err(s),
    }
}
