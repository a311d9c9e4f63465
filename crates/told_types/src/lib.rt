//! The type of a part of a text, as its table tells it.
#![tactic(auto)]

ghost use Rattle.std.specs.Prelude.{◌≡◌, IfOk};
ghost use Rattle.type_table.specs.Tables as tables;
ghost use Rattle.type_table.specs.Types as types;
ghost use Rattle.told_types.specs.Told as spec;

use b_values::Ty;
use sqlite_items::Boxed;
use std::alloc::{AllocError, Global};
use type_table::{Basic, Row};

/// The most nodes that a type has, and so the most that stand in one another.
const DEEPEST: usize = 500;

fn row_at(rows: &[Row], part: usize) -> Row
    ensures { result ≡ tables.row_at rows.now part }
{
    match rows.get(part).copied() {
        None => Row::Open,
        Some(row) => row,
    }
}

// Where a part's links end, in so many steps.
fn row_within(rows: &[Row], steps: usize, part: usize) -> Row
    ensures { result ≡ spec.row_within rows.now steps part }
{
    if steps == 0 {
        return Row::Open;
    }
    match row_at(rows, part) {
        Row::Same(before) => row_within(rows, steps - 1, before),
        row => row,
    }
}

// A link goes back, so that there are no more of them than parts before.
fn row_of(rows: &[Row], part: usize) -> Row
    ensures { result ≡ spec.row_of rows.now part }
{
    row_within(rows, rows.len(), part)
}

/// Whether a part is a set.
pub fn is_set(rows: &[Row], part: usize) -> bool
    ensures { result ≡ spec.is_set rows.now part }
{
    match row_of(rows, part) {
        Row::Set(_) => true,
        Row::Open | Row::Basic(_) | Row::Pair(_, _) | Row::Same(_) => false,
    }
}

fn basic_type(basic: Basic) -> Ty
    ensures { result ≡ types.basic_type basic }
{
    match basic {
        Basic::Int => Ty::Int,
        Basic::Truth => Ty::Truth,
        Basic::Text => Ty::Text,
        Basic::Elem(set) => Ty::Elem(set),
    }
}

#[tactic(auto, using(crate::proofs::Within::within_some, crate::proofs::Within::within_set, crate::proofs::Within::within_pair))]
fn type_within(
    alloc: Global,
    rows: &[Row],
    deep: usize,
    part: usize,
) -> Result<Boxed<Ty>, AllocError>
    ensures { IfOk result (λ t. t ≡ spec.type_within rows.now deep part) }
{
    if deep == 0 {
        return Boxed::new(alloc, Ty::Int);
    }
    match row_of(rows, part) {
        Row::Open | Row::Same(_) => Boxed::new(alloc, Ty::Int),
        Row::Basic(basic) => Boxed::new(alloc, basic_type(basic)),
        Row::Set(of) => {
            let inner = type_within(alloc, rows, deep - 1, of)?;
            let set = Boxed::new(alloc, Ty::Set(inner))?;
            Ok(set)
        }
        Row::Pair(first, second) => {
            let left = type_within(alloc, rows, deep - 1, first)?;
            let right = type_within(alloc, rows, deep - 1, second)?;
            let pair = Boxed::new(alloc, Ty::Pair(left, right))?;
            Ok(pair)
        }
    }
}

/// The type of a part. A part of which nothing is told is a number: in the table of a text with one typing there is none.
#[tactic(auto, unfolding(crate::specs::Told::type_at))]
pub fn type_at(alloc: Global, rows: &[Row], part: usize) -> Result<Ty, AllocError>
    ensures { IfOk result (λ t. t ≡ spec.type_at rows.now part) }
{
    Ok(type_within(alloc, rows, DEEPEST, part)?.into_inner())
}
