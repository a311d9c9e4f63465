//! How many typings of a table keep forms.
ghost use Rattle.std.specs.Prelude.{◌≡◌, ◌<◌, ◌≤◌, IfOk, length};
ghost use Rattle.type_count.specs.Typings.{IsTyping};
ghost use Rattle.type_table.specs.Tables.{IsTable};
ghost use Rattle.type_schemes.specs.Rules.{Obeys};
ghost use Rattle.type_choices.specs.Forms.{AreForms, IsForm, Stands};
ghost use Rattle.type_choices.specs.Choosing.{Chooses, Finds, FindsWith, HasNumbers, IsTyped};

use crate::passing::settle;
use std::alloc::{AllocError, Global};
use type_count::{Verdict, decide};
use type_schemes::{Form, Reading, Rule, demand};
use type_table::Row;

/// Whether a table has a typing.
fn has_typing(rows: &[Row], limit: usize) -> bool
    requires table { IsTable rows.now }
    ensures { HasNumbers limit rows.now result }
{
    match decide(rows, 0, limit) {
        Verdict::Nothing => false,
        Verdict::One => true,
        Verdict::Many => true,
    }
}

/// Whether a typing of a table keeps forms.
#[tactic(auto, using(crate::proofs::Choices::found, crate::proofs::Choices::not_found))]
fn is_possible(
    alloc: Global,
    mut rows: Vec<Row>,
    forms: Vec<Form>,
    limit: usize,
) -> Result<bool, AllocError>
    requires table { IsTable rows.items }
    requires forms { AreForms (length rows.items) forms.items }
    ensures { Finds limit rows.items forms.items result }
{
    match settle(alloc, &mut rows, forms)? {
        None => Ok(false),
        Some(_kept) => Ok(has_typing(rows.as_slice(), limit)),
    }
}

/// Whether a typing of a table keeps forms, and one form more by one of its rules.
#[tactic(auto, using(crate::proofs::Choices::with_rule, crate::proofs::Choices::without_rule, crate::proofs::Walks::forms_more))]
fn is_possible_with(
    alloc: Global,
    rows: &[Row],
    others: &[Form],
    form: Form,
    rule: Rule,
    limit: usize,
) -> Result<bool, AllocError>
    requires table { IsTable rows.now }
    requires others { AreForms (length rows.now) others.now }
    requires form { IsForm (length rows.now) form }
    ensures { FindsWith limit rows.now others.now (λ s. Obeys rule (s form.left) (s form.right) (s form.whole)) result }
{
    let mut copy = Vec::from_slice(alloc, rows)?;
    if !demand(alloc, &mut copy, rule, form.left, form.right, form.whole)? {
        return Ok(false);
    }
    let forms = Vec::from_slice(alloc, others)?;
    is_possible(alloc, copy, forms, limit)
}

/// By which of its rules a form can be kept beside others.
#[derive(Clone, Copy, Debug, PartialEq, Eq)]
pub enum Choice {
    Neither,
    Only(Rule),
    Both,
}

/// Tries both rules of a form.
#[tactic(auto, using(crate::proofs::Choices::chose_one, crate::proofs::Choices::chose_neither, crate::proofs::Choices::chose_first, crate::proofs::Choices::chose_second, crate::proofs::Choices::chose_both))]
fn choose(
    alloc: Global,
    rows: &[Row],
    others: &[Form],
    form: Form,
    limit: usize,
) -> Result<Choice, AllocError>
    requires table { IsTable rows.now }
    requires others { AreForms (length rows.now) others.now }
    requires form { IsForm (length rows.now) form }
    ensures { Chooses limit rows.now others.now form result }
{
    match form.reading {
        Reading::One(rule) => Ok(Choice::Only(rule)),
        Reading::Either(numbers, sets) => {
            let first = is_possible_with(alloc, rows, others, form, numbers, limit)?;
            let second = is_possible_with(alloc, rows, others, form, sets, limit)?;
            Ok(match (first, second) {
                (false, false) => Choice::Neither,
                (true, false) => Choice::Only(numbers),
                (false, true) => Choice::Only(sets),
                (true, true) => Choice::Both,
            })
        }
    }
}

/// How many typings of a table keep forms, and where there is one, a table that says the type of each part.
#[derive(Drop)]
pub enum Typed {
    Nothing,
    One(Vec<Row>),
    Many,
}

/// How many typings a table has.
#[tactic(auto, using(crate::proofs::Choices::counted_nothing, crate::proofs::Choices::counted_one, crate::proofs::Choices::counted_many))]
fn count(rows: Vec<Row>, parts: usize, limit: usize) -> Typed
    requires table { IsTable rows.items }
    requires parts { parts ≤ length rows.items }
    ensures { IsTyped limit parts (IsTyping limit rows.items) result }
{
    match decide(rows.as_slice(), parts, limit) {
        Verdict::Nothing => Typed::Nothing,
        Verdict::One => Typed::One(rows),
        Verdict::Many => Typed::Many,
    }
}

/// How many typings of a table keep forms, within a number of nodes for each type; the parts are the first rows. What
/// the table settles is settled first. A form that stays open is tried both ways on a copy: where both ways can be kept
/// there is more than one typing, and otherwise the form is settled too.
#[tactic(auto, using(crate::proofs::Choices::choosing_none, crate::proofs::Choices::choosing_clash, crate::proofs::Choices::choosing_done, crate::proofs::Choices::choosing_neither, crate::proofs::Choices::choosing_both, crate::proofs::Choices::choosing_only, crate::proofs::Choices::choosing_cut))]
pub fn type_forms(
    alloc: Global,
    mut rows: Vec<Row>,
    forms: Vec<Form>,
    parts: usize,
    limit: usize,
) -> Result<Typed, AllocError>
    requires table { IsTable rows.items }
    requires parts { parts ≤ length rows.items }
    requires forms { AreForms parts forms.items }
    ensures { IfOk result (λ typed. IsTyped limit parts (Stands limit rows.items forms.items) typed) }
{
    let mut waiting = forms;
    loop {
        let Some(left) = settle(alloc, &mut rows, waiting)? else {
            return Ok(Typed::Nothing);
        };
        let mut kept = left;
        let Some(form) = kept.pop() else {
            return Ok(count(rows, parts, limit));
        };
        match choose(alloc, rows.as_slice(), kept.as_slice(), form, limit)? {
            Choice::Neither => return Ok(Typed::Nothing),
            Choice::Both => return Ok(Typed::Many),
            Choice::Only(rule) => {
                if !demand(alloc, &mut rows, rule, form.left, form.right, form.whole)? {
                    return Ok(Typed::Nothing);
                }
            }
        }
        waiting = kept;
    }
}
