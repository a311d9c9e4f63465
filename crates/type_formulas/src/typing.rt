//! The one typing of a formula.
ghost use Rattle.std.specs.Prelude.{◌≡◌, ◌≤◌, IfOk, length};
ghost use Rattle.type_choices.specs.Choosing.{IsTyped};
ghost use Rattle.type_choices.specs.Forms.{AreForms};
ghost use Rattle.type_formulas.specs.Typings as spec;
ghost use Rattle.type_formulas.specs.Typings.{Answers, CanBeRead, IsAnswer, Keeping, all_known};

use crate::known::{Known, know_all, known_count, outer};
use crate::sorting::{any_twice, any_unknown, forms_in};
use b_ast::Formula;
use b_values::NameFace;
use std::alloc::{AllocError, Global};
use type_choices::{Typed, type_forms};
use type_demands::{Demand, walk};
use type_schemes::{Form, open_table};
use type_table::Row;

/// The most nodes that a type may have.
pub const TYPE_LIMIT: usize = 500;

/// What is said of a formula's types.
#[derive(Drop)]
pub enum Answer {
    /// A name, or an `x$0`, is known nowhere round it.
    UnknownName,
    /// Two names of one binder are equal.
    EqualNames,
    /// No typing has types of at most 500 nodes.
    NoTyping,
    ManyTypings,
    /// A table that says the type of each part, as `type_of` reads it, and the part that is the whole formula.
    Typed(Vec<Row>, usize),
}

// How many typings keep forms where names are known.
#[tactic(auto, using(crate::proofs::Answering::solved, crate::proofs::Answering::solved_none, crate::proofs::Answering::open_inside, crate::proofs::Answering::open_is_table))]
fn solve(
    alloc: Global,
    known: &Known<'_>,
    forms: Vec<Form>,
    parts: usize,
) -> Result<Typed, AllocError>
    requires known { length (all_known known.now) ≤ parts }
    requires forms { AreForms parts forms.items }
    ensures { IfOk result (IsTyped 500 parts (Keeping 500 (all_known known.now) forms.items parts)) }
{
    let mut rows = open_table(alloc, parts)?;
    let count = known_count(known)?;
    if !know_all(alloc, &mut rows, known, count)? {
        return Ok(Typed::Nothing);
    }
    type_forms(alloc, rows, forms, parts, TYPE_LIMIT)
}

fn answered(typed: Typed, whole: usize) -> Answer
    ensures { result ≡ spec.answered whole typed }
{
    match typed {
        Typed::Nothing => Answer::NoTyping,
        Typed::One(rows) => Answer::Typed(rows, whole),
        Typed::Many => Answer::ManyTypings,
    }
}

/// What is said of demands beside known names. Unknown names come first, then equal names of a binder, then the number of
/// typings.
#[tactic(auto, using(crate::proofs::Answering::answered_is))]
pub fn judged(
    alloc: Global,
    known: &Known<'_>,
    demands: &[Demand],
    parts: usize,
    whole: usize,
) -> Result<Answer, AllocError>
    requires known { length (all_known known.now) ≤ parts }
    requires forms { AreForms parts (spec.forms_in demands.now) }
    ensures { IfOk result (Answers 500 (all_known known.now) demands.now parts whole) }
{
    if any_unknown(demands) {
        return Ok(Answer::UnknownName);
    }
    if any_twice(demands) {
        return Ok(Answer::EqualNames);
    }
    let forms = forms_in(alloc, demands)?;
    let typed = solve(alloc, known, forms, parts)?;
    Ok(answered(typed, whole))
}

// Known names of one kind.
fn only(known: &[NameFace]) -> Known<'_>
    ensures { all_known result ≡ known.now }
{
    Known {
        sets: &[],
        constants: known,
        variables: &[],
        params: &[],
    }
}

/// The one typing of a formula beside known names, of which the first of two equal ones counts, or why there is none.
#[tactic(auto, using(crate::proofs::Answering::demands_within, crate::proofs::Answering::parts_known, crate::proofs::Answering::readable))]
pub fn type_formula(alloc: Global, known: &[NameFace], tree: &Formula) -> Result<Answer, AllocError>
    ensures answer { IfOk result (IsAnswer 500 known.now tree.now) }
    ensures read { IfOk result CanBeRead }
{
    let mut frames = outer(alloc, known)?;
    let mut demands = Vec::new(alloc);
    let mut next = known.len();
    let whole = walk(tree, alloc, &mut frames, &mut demands, &mut next)?;
    let all = only(known);
    judged(alloc, &all, demands.as_slice(), next, whole)
}
