//! Forms whose reading the table settles.
ghost use Rattle.std.specs.Prelude.{◌≡◌, ◌<◌, ◌≤◌, length};
ghost use Rattle.type_table.specs.Tables.{IsTable};
ghost use Rattle.type_choices.specs.Forms.{AreForms, IsForm};
ghost use Rattle.type_choices.specs.Settling as settling;
ghost use Rattle.type_choices.specs.Settling.{Lookups, MustBe};

use std::alloc::{AllocError, Global};
use type_schemes::{Form, Reading, Rule};
use type_table::{Basic, Row, root};

/// What a table says of a part's type, as far as `-` and `*` ask.
#[derive(Clone, Copy, Debug, PartialEq, Eq)]
pub enum Kind {
    /// Nothing.
    Open,
    Number,
    /// It is not a number.
    Other,
}

fn kind_of_basic(basic: Basic) -> Kind
    ensures { result ≡ settling.kind_of_basic basic }
{
    match basic {
        Basic::Int => Kind::Number,
        Basic::Truth => Kind::Other,
        Basic::Text => Kind::Other,
        Basic::Elem(_) => Kind::Other,
    }
}

/// What a table says of a part.
#[tactic(auto, using(crate::proofs::Looking::looked_open))]
fn kind_of(rows: &[Row], i: usize) -> Kind
    requires table { IsTable rows.now }
    requires inside { i < length rows.now }
    ensures { Lookups rows.now i result }
{
    let end = root(rows, i);
    match rows[end] {
        Row::Open => Kind::Open,
        Row::Basic(basic) => kind_of_basic(basic),
        Row::Set(_) => Kind::Other,
        Row::Pair(_, _) => Kind::Other,
        Row::Same(_) => Kind::Other,
    }
}

/// Which of two rules a form must obey, if a table says so: one of its parts is a number, or is none.
#[tactic(auto, using(crate::proofs::Looking::number_whole, crate::proofs::Looking::number_left, crate::proofs::Looking::number_right, crate::proofs::Looking::other_whole, crate::proofs::Looking::other_left, crate::proofs::Looking::other_right, crate::proofs::Looking::may_wait))]
fn one_of(rows: &[Row], form: Form, numbers: Rule, sets: Rule) -> Option<Rule>
    requires table { IsTable rows.now }
    requires form { IsForm (length rows.now) form }
    requires is { form.reading ≡ Reading.Either numbers sets }
    ensures { MustBe rows.now form result }
{
    match kind_of(rows, form.whole) {
        Kind::Number => Some(numbers),
        Kind::Other => Some(sets),
        Kind::Open => match kind_of(rows, form.left) {
            Kind::Number => Some(numbers),
            Kind::Other => Some(sets),
            Kind::Open => match kind_of(rows, form.right) {
                Kind::Number => Some(numbers),
                Kind::Other => Some(sets),
                Kind::Open => None,
            },
        },
    }
}

/// The rule that a form must obey, if a table says it.
#[tactic(auto, using(crate::proofs::Looking::must_one))]
pub fn rule_now(rows: &[Row], form: Form) -> Option<Rule>
    requires table { IsTable rows.now }
    requires form { IsForm (length rows.now) form }
    ensures { MustBe rows.now form result }
{
    match form.reading {
        Reading::One(rule) => Some(rule),
        Reading::Either(numbers, sets) => one_of(rows, form, numbers, sets),
    }
}
