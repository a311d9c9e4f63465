// Where an answer leads a command in progress.
ghost use Rattle.std.specs.Prelude.{◌≡◌, Some, drop, length, IfOk};
ghost use Rattle.session_core.specs.Moving.{listed, shown_lists, packed_steps, taking, adding, searched, valued, checked, subscribed_by, telling, named_step, numbered_step, added_step, taken_on};
ghost use Rattle.animator.specs.Commands.{step_of, is_true};
ghost use Rattle.b_values.specs.declared.values.Value.{out-Value};

use crate::held::Held;
use crate::lists::{have_steps, number_lists, number_step, step_numbered};
use crate::stages::{Answer, Arrival, Change, Next, Opening, Stage};
use crate::starting::{arrive, end_arrival};
use b_values::Value;
use engine_face::{FormulaKey, Found, OpList, Packed, Step, StepItem, StepList, ValueAnswer};
use formulas::Sub;
use session_words::{Numbered, Refusal, Reply, SubValue};
use shared::Shared;
use sqlite_items::Items;
use std::alloc::{AllocError, Global};
use trace_ops::MOST_STEPS;

fn end_lists(alloc: Global, lists: &[OpList<Packed>], numbers: &[u64]) -> Result<Next, AllocError>
    ensures { IfOk result (λ next. next ≡ shown_lists lists.now numbers.now) }
{
    let lists = number_lists(alloc, lists, numbers)?;
    Ok(Next::Ends(Change::Stay, Reply::Lists(StepList { lists })))
}

fn on_listed(alloc: Global, lists: Shared<StepList<Packed>>) -> Result<Next, AllocError>
    ensures { IfOk result (λ next. next ≡ listed lists) }
{
    if have_steps(lists.get().lists.as_slice()) {
        Ok(Next::Goes(Stage::NamingLists(lists)))
    } else {
        end_lists(alloc, lists.get().lists.as_slice(), &[])
    }
}

fn add_step(held: &Held, step: StepItem) -> Next
    ensures { result ≡ adding held.now step }
{
    if held.trace.position() >= MOST_STEPS as u64 {
        return Next::Refuses(Refusal::TraceFull);
    }
    Next::Goes(Stage::NamingStep(step))
}

fn on_taking(
    alloc: Global,
    held: &Held,
    lists: &[OpList<Packed>],
    k: u64,
) -> Result<Next, AllocError>
    ensures { IfOk result (λ next. next ≡ taking held.now (step_of (packed_steps lists.now) k)) }
{
    match step_numbered(lists, k) {
        Some(step) => {
            let step = step.copy(alloc)?;
            Ok(add_step(held, step))
        }
        None => Ok(Next::Refuses(Refusal::NoStep)),
    }
}

fn on_found(held: &Held, found: Found<Packed>) -> Next
    ensures { result ≡ searched held.now found }
{
    match found {
        Found::Step(step) => add_step(held, step),
        Found::Nothing => Next::Refuses(Refusal::NoStep),
        Found::Fault(fault) => Next::Refuses(Refusal::Fault(fault)),
    }
}

fn on_value(answer: &ValueAnswer) -> Result<Next, AllocError>
    ensures { IfOk result (λ next. next ≡ valued answer.now) }
{
    match answer {
        ValueAnswer::NotInitialised => Ok(Next::Refuses(Refusal::NotInitialised)),
        ValueAnswer::Fault(fault) => Ok(Next::Refuses(Refusal::Fault(*fault))),
        ValueAnswer::Value { value, bounded } => {
            let value = value.share()?;
            Ok(Next::Ends(
                Change::Stay,
                Reply::Value {
                    value,
                    bounded: *bounded,
                },
            ))
        }
    }
}

fn holds(value: &Value) -> bool
    ensures { result ≡ is_true (out-Value value.now) }
{
    match value {
        Value::Truth(b) => *b,
        _ => false,
    }
}

fn on_invariant(answer: &ValueAnswer) -> Next
    ensures { result ≡ checked answer.now }
{
    match answer {
        ValueAnswer::NotInitialised => Next::Refuses(Refusal::NotInitialised),
        ValueAnswer::Fault(fault) => Next::Refuses(Refusal::Fault(*fault)),
        ValueAnswer::Value { value, bounded } => Next::Ends(
            Change::Stay,
            Reply::Invariant {
                holds: holds(value),
                bounded: *bounded,
            },
        ),
    }
}

fn on_first_value(held: &Held, key: FormulaKey, answer: Shared<ValueAnswer>) -> Next
    ensures { result ≡ subscribed_by held.now key answer }
{
    let number = held.subs.next();
    Next::Ends(
        Change::Subscribe(key),
        Reply::Subscribed(SubValue { number, answer }),
    )
}

// The value of the first of these subscriptions.
fn tell(
    subs: &[Sub],
    arrival: Arrival,
    told: Items<SubValue>,
    answer: Shared<ValueAnswer>,
) -> Result<Next, AllocError>
    ensures { IfOk result (λ next. telling subs.now arrival told answer ≡ Some next) }
{
    let Some(sub) = sqlite_items::at(subs, 0) else {
        return Err(AllocError);
    };
    let mut told = told;
    told.push(SubValue {
        number: sub.number,
        answer,
    })?;
    if subs.len() == 1 {
        Ok(end_arrival(arrival, told))
    } else {
        Ok(Next::Goes(Stage::Telling(arrival, told)))
    }
}

// What stands behind the first elements, if anything.
fn behind(subs: &[Sub], count: usize) -> &[Sub]
    ensures { result.now ≡ drop count subs.now }
{
    if count < subs.len() {
        let (_, rest) = subs.split_at(count);
        rest
    } else {
        &[]
    }
}

fn on_sub_value(
    held: &Held,
    arrival: Arrival,
    told: Items<SubValue>,
    answer: Shared<ValueAnswer>,
) -> Result<Next, AllocError>
    ensures { IfOk result (λ next. telling (drop (length told) held.now.subs.list) arrival told answer ≡ Some next) }
{
    let subs = behind(held.subs.list(), told.len());
    tell(subs, arrival, told, answer)
}

fn keep_step(alloc: Global, held: &Held, step: Step<Numbered>) -> Result<Next, AllocError>
    ensures { IfOk result (λ next. next ≡ added_step held.now step) }
{
    let at = step.dest.share()?;
    let step = Shared::new(alloc, step)?;
    let arrival = Arrival {
        at,
        change: Change::Add(step.share()?),
        opening: Opening::Added(step),
    };
    Ok(arrive(alloc, held.subs.list(), arrival))
}

fn on_step_name(
    alloc: Global,
    held: &Held,
    step: &StepItem,
    numbers: &[u64],
) -> Result<Next, AllocError>
    ensures { IfOk result (λ next. named_step held.now step.now numbers.now ≡ Some next) }
{
    match numbers {
        [number, ..] => {
            let step = number_step(alloc, step, *number)?;
            keep_step(alloc, held, step)
        }
        [] => Err(AllocError),
    }
}

fn feed_lists(
    alloc: Global,
    held: &Held,
    stage: Stage,
    lists: Shared<StepList<Packed>>,
) -> Result<Next, AllocError>
    ensures { IfOk result (λ next. taken_on held.now stage (Answer.Steps lists) ≡ Some next) }
{
    match stage {
        Stage::Listing => {
            let next = on_listed(alloc, lists)?;
            Ok(next)
        }
        Stage::Taking(k) => {
            let next = on_taking(alloc, held, lists.get().lists.as_slice(), k)?;
            Ok(next)
        }
        _ => Err(AllocError),
    }
}

fn feed_value(held: &Held, stage: Stage, answer: Shared<ValueAnswer>) -> Result<Next, AllocError>
    ensures { IfOk result (λ next. taken_on held.now stage (Answer.Value answer) ≡ Some next) }
{
    match stage {
        Stage::Evaluating(_) => {
            let next = on_value(answer.get())?;
            Ok(next)
        }
        Stage::Checking => Ok(on_invariant(answer.get())),
        Stage::Subscribing(key) => Ok(on_first_value(held, key, answer)),
        Stage::Telling(arrival, told) => on_sub_value(held, arrival, told, answer),
        _ => Err(AllocError),
    }
}

fn feed_names(
    alloc: Global,
    held: &Held,
    stage: Stage,
    numbers: Items<u64>,
) -> Result<Next, AllocError>
    ensures { IfOk result (λ next. taken_on held.now stage (Answer.Names numbers) ≡ Some next) }
{
    match stage {
        Stage::NamingLists(lists) => {
            let next = end_lists(alloc, lists.get().lists.as_slice(), numbers.as_slice())?;
            Ok(next)
        }
        Stage::NamingStep(step) => on_step_name(alloc, held, &step, numbers.as_slice()),
        _ => Err(AllocError),
    }
}

fn feed_found(held: &Held, stage: Stage, found: Found<Packed>) -> Result<Next, AllocError>
    ensures { IfOk result (λ next. taken_on held.now stage (Answer.Find found) ≡ Some next) }
{
    match stage {
        Stage::Finding(_, _) => Ok(on_found(held, found)),
        _ => Err(AllocError),
    }
}

/// Where an answer leads. An answer that doesn't fit is one of memory.
pub fn feed_stage(
    alloc: Global,
    held: &Held,
    stage: Stage,
    answer: Answer,
) -> Result<Next, AllocError>
    ensures { IfOk result (λ next. taken_on held.now stage answer ≡ Some next) }
{
    match answer {
        Answer::Steps(lists) => feed_lists(alloc, held, stage, lists),
        Answer::Value(answer) => feed_value(held, stage, answer),
        Answer::Names(numbers) => feed_names(alloc, held, stage, numbers),
        Answer::Find(found) => feed_found(held, stage, found),
        Answer::Replied => Err(AllocError),
        Answer::Memory => Err(AllocError),
    }
}
