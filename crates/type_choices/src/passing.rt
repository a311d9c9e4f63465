//! Puts the forms that a table settles into it, until it settles none.
ghost use Rattle.std.specs.Prelude.{◌≡◌, ◌<◌, ◌≤◌, length};
ghost use Rattle.type_table.specs.Tables.{IsTable};
ghost use Rattle.type_choices.specs.Forms.{AreForms};
ghost use Rattle.type_choices.specs.Passing.{Passes, SettlesAll};

use crate::settling::rule_now;
use std::alloc::{AllocError, Global};
use type_schemes::{Form, demand};
use type_table::Row;

/// Looks at each form once, the last one first, and puts it into the table if the table says its rule; gives the forms
/// that wait, the last one first, or None where no typing keeps them. So the next look goes the other way.
#[tactic(auto, using(crate::proofs::Walks::passing_none, crate::proofs::Walks::passing_kept, crate::proofs::Walks::passing_put, crate::proofs::Walks::passing_clash, crate::proofs::Walks::passed, crate::proofs::Walks::popped_form))]
fn pass(
    alloc: Global,
    rows: &mut Vec<Row>,
    mut waiting: Vec<Form>,
) -> Result<Option<Vec<Form>>, AllocError>
    requires table { IsTable rows.old.items }
    requires forms { AreForms (length rows.old.items) waiting.items }
    ensures { Passes rows.old.items rows.new.items waiting.items result }
{
    let mut kept = Vec::new(alloc);
    while let Some(form) = waiting.pop() {
        match rule_now(rows.as_slice(), form) {
            None => kept.push(form)?,
            Some(rule) => {
                if !demand(alloc, rows, rule, form.left, form.right, form.whole)? {
                    return Ok(None);
                }
            }
        }
    }
    Ok(Some(kept))
}

/// Puts each form into the table whose rule the table says, and gives those that wait; None where no typing keeps the
/// forms.
#[tactic(auto, using(crate::proofs::Walks::settling_none, crate::proofs::Walks::settling_more, crate::proofs::Walks::settling_clash, crate::proofs::Walks::settled))]
pub fn settle(
    alloc: Global,
    rows: &mut Vec<Row>,
    forms: Vec<Form>,
) -> Result<Option<Vec<Form>>, AllocError>
    requires table { IsTable rows.old.items }
    requires forms { AreForms (length rows.old.items) forms.items }
    ensures { SettlesAll rows.old.items rows.new.items forms.items result }
{
    let mut waiting = forms;
    loop {
        let before = waiting.len();
        let Some(kept) = pass(alloc, rows, waiting)? else {
            return Ok(None);
        };
        if kept.len() == before {
            return Ok(Some(kept));
        }
        waiting = kept;
    }
}
