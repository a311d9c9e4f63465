// Steps and lists of packed states: their states, and the numbers of these.
ghost use Rattle.std.specs.Prelude.{◌≡◌, ◌++◌, take, drop, slice_get, IfOk, OnOk};
ghost use Rattle.std.specs.Option.{option_copied};
ghost use Rattle.animator.specs.Commands.{step_of};
ghost use Rattle.session_words.specs.Replies.{dests};
ghost use Rattle.session_core.specs.Moving.{numbered_step, numbered_steps, numbered_lists, packed_steps, has_step, any_step};

use crate::held::KeptStep;
use b_values::share_all;
use engine_face::{OpList, Packed, Step};
use session_words::Numbered;
use sqlite_items::Items;
use std::alloc::{AllocError, Global};

/// A step whose state has this number.
pub fn number_step(
    alloc: Global,
    step: &Step<Packed>,
    number: u64,
) -> Result<Step<Numbered>, AllocError>
    ensures { IfOk result (λ new. new ≡ numbered_step step.now number) }
{
    Ok(Step {
        op: step.op,
        params: share_all(alloc, step.params.as_slice())?,
        results: share_all(alloc, step.results.as_slice())?,
        dest: Numbered {
            state: step.dest.share()?,
            number,
        },
    })
}

/// Steps with the numbers of their states.
pub fn number_steps(
    alloc: Global,
    steps: &[Step<Packed>],
    numbers: &[u64],
) -> Result<Items<Step<Numbered>>, AllocError>
    ensures { IfOk result (λ all. all ≡ numbered_steps steps.now numbers.now) }
{
    let mut all = Items::new(alloc);
    let count = steps.len().min(numbers.len());
    for i in 0..count {
        all.push(number_step(alloc, &steps[i], numbers[i])?)?;
    }
    Ok(all)
}

// The first of these numbers, as many as there are steps, and the others.
fn cut(numbers: &[u64], count: usize) -> (&[u64], &[u64])
    ensures front { result.0.now ≡ take count numbers.now }
    ensures behind { result.1.now ≡ drop count numbers.now }
{
    if count < numbers.len() {
        numbers.split_at(count)
    } else {
        (numbers, &[])
    }
}

fn number_list(
    alloc: Global,
    list: &OpList<Packed>,
    numbers: &[u64],
) -> Result<OpList<Numbered>, AllocError>
    ensures { IfOk result (λ new. new ≡ record { op = list.now.op; steps = numbered_steps list.now.steps numbers.now; end = list.now.end }) }
{
    Ok(OpList {
        op: list.op,
        steps: number_steps(alloc, list.steps.as_slice(), numbers)?,
        end: list.end,
    })
}

/// Lists with the numbers of their states, in the order of their steps.
pub fn number_lists(
    alloc: Global,
    lists: &[OpList<Packed>],
    numbers: &[u64],
) -> Result<Items<OpList<Numbered>>, AllocError>
    ensures { IfOk result (λ all. all ≡ numbered_lists lists.now numbers.now) }
{
    let mut all = Items::new(alloc);
    let mut left = numbers;
    for list in lists {
        let (mine, behind) = cut(left, list.steps.len());
        all.push(number_list(alloc, list, mine)?)?;
        left = behind;
    }
    Ok(all)
}

fn has_steps(list: &OpList<Packed>) -> bool
    ensures { result ≡ has_step list.now.steps }
{
    match list.steps.as_slice() {
        [] => false,
        [_, ..] => true,
    }
}

/// Whether any list has a step.
pub fn have_steps(lists: &[OpList<Packed>]) -> bool
    ensures { result ≡ any_step lists.now }
{
    lists.iter().any(|list| has_steps(list))
}

// The step at this place among the steps of all lists.
fn step_behind(lists: &[OpList<Packed>], at: u64) -> Option<&Step<Packed>>
    ensures { option_copied result ≡ slice_get (packed_steps lists.now) at }
{
    let mut left = at;
    for list in lists {
        let count = list.steps.len() as u64;
        if left < count {
            return sqlite_items::at(list.steps.as_slice(), left as usize);
        }
        left -= count;
    }
    None
}

/// The step that has this number, from 1, through all lists.
pub fn step_numbered(lists: &[OpList<Packed>], k: u64) -> Option<&Step<Packed>>
    ensures { option_copied result ≡ step_of (packed_steps lists.now) k }
{
    match k.checked_sub(1) {
        Some(at) => step_behind(lists, at),
        None => None,
    }
}

fn add_dests(all: &mut Items<Packed>, steps: &[Step<Packed>]) -> Result<(), AllocError>
    ensures { OnOk result (all.new ≡ all.old ++ dests steps.now) }
{
    for step in steps {
        all.push(step.dest.share()?)?;
    }
    Ok(())
}

/// The states that the steps lead to, in order.
pub fn share_dests(alloc: Global, lists: &[OpList<Packed>]) -> Result<Items<Packed>, AllocError>
    ensures { IfOk result (λ all. all ≡ dests (packed_steps lists.now)) }
{
    let mut all = Items::new(alloc);
    for list in lists {
        add_dests(&mut all, list.steps.as_slice())?;
    }
    Ok(all)
}

/// The same steps again.
pub fn share_steps(alloc: Global, steps: &[KeptStep]) -> Result<Items<KeptStep>, AllocError>
    ensures { IfOk result (λ all. all ≡ steps.now) }
{
    let mut all = Items::new(alloc);
    for step in steps {
        all.push(step.share()?)?;
    }
    Ok(all)
}
