//! Known types, put behind a table.
ghost use Rattle.std.specs.Prelude.{◌≡◌, ℕ, List, ◌<◌, ◌≤◌, ◌++◌, ◌∷◌, [], IfOk, OnOk, length};
ghost use Rattle.type_table.specs.Tables.{IsTable};
ghost use Rattle.type_schemes.specs.Growing.{Demands};
ghost use Rattle.type_formulas.specs.Putting.{Puts};
ghost use Rattle.type_demands.specs.Scopes.{meaning_in, scope_of};
ghost use Rattle.type_formulas.specs.Typings.{AreKnown, IsAt, all_known, scope_known};

use b_values::{NameFace, Ty};
use std::alloc::{AllocError, Global};
use std::collections::HashMap;
use type_demands::{Frame, put_name, take_all};
use type_table::{Basic, Row, unify};

/// Names whose types are known: of sets and of their elements, constants, variables and parameters. Their parts are the
/// first ones, in this order.
#[derive(Clone, Copy)]
pub struct Known<'a> {
    pub sets: &'a [NameFace],
    pub constants: &'a [NameFace],
    pub variables: &'a [NameFace],
    pub params: &'a [NameFace],
}

// The frame of known names, of which the first of two equal ones counts.
#[tactic(auto, using(type_demands::proofs::Frames::opening_none, type_demands::proofs::Frames::opening_more, type_demands::proofs::Frames::opening_all))]
fn frame_of(alloc: Global, known: &[NameFace]) -> Result<Frame, AllocError>
    ensures { IfOk result (λ frame. (x : List ℕ) → meaning_in frame.meanings x ≡ scope_known known.now x) }
{
    let mut meanings = HashMap::with_capacity(alloc, known.len())?;
    let mut i = known.len();
    while i > 0 {
        i -= 1;
        put_name(&mut meanings, alloc, known[i].name.as_slice(), i)?;
    }
    Ok(Frame { meanings })
}

/// What is known outside of all binders.
#[tactic(auto, using(crate::proofs::Answering::outer_is))]
pub fn outer(alloc: Global, known: &[NameFace]) -> Result<Vec<Frame>, AllocError>
    ensures { IfOk result (λ frames. scope_of frames.items ≡ scope_known known.now) }
{
    let mut frames = Vec::new(alloc);
    frames.push(frame_of(alloc, known)?)?;
    Ok(frames)
}

// One row more.
fn put_row(rows: &mut Vec<Row>, row: Row) -> Result<usize, AllocError>
    ensures place { IfOk result (λ p. p ≡ length rows.old.items) }
    ensures rows { OnOk result (rows.new.items ≡ rows.old.items ++ row ∷ []) }
{
    let place = rows.len();
    rows.push(row)?;
    Ok(place)
}

fn put_basic(rows: &mut Vec<Row>, basic: Basic) -> Result<usize, AllocError>
    ensures place { IfOk result (λ p. p ≡ length rows.old.items) }
    ensures rows { OnOk result (rows.new.items ≡ rows.old.items ++ Row.Basic basic ∷ []) }
{
    put_row(rows, Row::Basic(basic))
}

/// Puts the rows of a type behind a table, and gives the part that has it.
#[tactic(auto, using(crate::proofs::Rows::put_basic_row, crate::proofs::Rows::put_set_row, crate::proofs::Rows::put_pair_row, crate::proofs::Rows::put_table))]
pub fn put_type(ty: &Ty, rows: &mut Vec<Row>) -> Result<usize, AllocError>
    requires table { IsTable rows.old.items }
    ensures { Puts rows.old.items rows.new.items ty.now result }
{
    match ty {
        Ty::Int => put_basic(rows, Basic::Int),
        Ty::Truth => put_basic(rows, Basic::Truth),
        Ty::Text => put_basic(rows, Basic::Text),
        Ty::Elem(set) => put_basic(rows, Basic::Elem(*set)),
        Ty::Set(t) => {
            let inner = put_type(t.get(), rows)?;
            put_row(rows, Row::Set(inner))
        }
        Ty::Pair(t, u) => {
            let first = put_type(t.get(), rows)?;
            let second = put_type(u.get(), rows)?;
            put_row(rows, Row::Pair(first, second))
        }
    }
}

/// Makes a part be of a type, or finds that it can't.
#[tactic(auto, using(crate::proofs::Rows::known_one, crate::proofs::Rows::put_table))]
fn know(alloc: Global, rows: &mut Vec<Row>, i: usize, ty: &Ty) -> Result<bool, AllocError>
    requires table { IsTable rows.old.items }
    requires inside { i < length rows.old.items }
    ensures { Demands rows.old.items rows.new.items (λ s. s i ≡ ty.now) result }
{
    let part = put_type(ty, rows)?;
    unify(alloc, rows.as_mut_slice(), i, part)
}

// Makes a part be of the type of the known name at its place.
fn know_at(
    alloc: Global,
    rows: &mut Vec<Row>,
    known: &Known<'_>,
    i: usize,
) -> Result<bool, AllocError>
    requires table { IsTable rows.old.items }
    requires row { i < length rows.old.items }
    requires inside { i < length (all_known known.now) }
    ensures { Demands rows.old.items rows.new.items (IsAt (all_known known.now) i) result }
{
    if i < known.sets.len() {
        return know(alloc, rows, i, &known.sets[i].ty);
    }
    let j = i - known.sets.len();
    if j < known.constants.len() {
        return know(alloc, rows, i, &known.constants[j].ty);
    }
    let k = j - known.constants.len();
    if k < known.variables.len() {
        return know(alloc, rows, i, &known.variables[k].ty);
    }
    let l = k - known.variables.len();
    know(alloc, rows, i, &known.params[l].ty)
}

/// The number of known names.
pub fn known_count(known: &Known<'_>) -> Result<usize, AllocError>
    ensures { IfOk result (λ n. n ≡ length (all_known known.now)) }
{
    let mut count = known.sets.len();
    take_all(&mut count, known.constants.len())?;
    take_all(&mut count, known.variables.len())?;
    take_all(&mut count, known.params.len())?;
    Ok(count)
}

/// Makes the first parts be of the types of known names, or finds that they can't.
#[tactic(auto, using(crate::proofs::Rows::knowing_none, crate::proofs::Rows::knowing_more, crate::proofs::Rows::knowing_clash, crate::proofs::Rows::knowing_all))]
pub fn know_all(
    alloc: Global,
    rows: &mut Vec<Row>,
    known: &Known<'_>,
    count: usize,
) -> Result<bool, AllocError>
    requires table { IsTable rows.old.items }
    requires all { count ≡ length (all_known known.now) }
    requires inside { count ≤ length rows.old.items }
    ensures { Demands rows.old.items rows.new.items (AreKnown (all_known known.now)) result }
{
    for i in 0..count {
        if !know_at(alloc, rows, known, i)? {
            return Ok(false);
        }
    }
    Ok(true)
}
