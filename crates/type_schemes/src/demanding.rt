ghost use Rattle.std.specs.Prelude.{◌≡◌, ◌<◌, ◌+◌, ◌^◌, ℕ, IfOk, length};
ghost use Rattle.type_table.specs.Tables.{IsRow, IsTable};
ghost use Rattle.type_table.specs.Unifying.{Settles};
ghost use Rattle.type_schemes.specs.Rules.{Obeys};
ghost use Rattle.type_schemes.specs.Schemes.{IsShort, shift_row, with_scheme};
ghost use Rattle.type_schemes.specs.Growing.{Demands, IsOpenTable, ThreeAlike};

use crate::rules::Rule;
use crate::schemes::scheme_of;
use std::alloc::{AllocError, Global};
use type_table::{Row, unify};

/// A table of which nothing is known.
#[tactic(auto, using(crate::proofs::Opening::all_open))]
pub fn open_table(alloc: Global, parts: usize) -> Result<Vec<Row>, AllocError>
    ensures { IfOk result (λ rows. IsOpenTable parts rows.items) }
{
    let rows = vec![in alloc; Row::Open; parts]?;
    Ok(rows)
}

/// A row of a small table where that table begins further on.
fn shifted(row: Row, by: usize) -> Row
    requires small { IsRow 20 20 row }
    requires room { by + 20 < 2 ^ 64 }
    ensures { result ≡ shift_row by row }
{
    match row {
        Row::Set(j) => Row::Set(by + j),
        Row::Pair(j, k) => Row::Pair(by + j, by + k),
        Row::Same(j) => Row::Same(by + j),
        _ => row,
    }
}

/// Puts a small table behind a table.
#[tactic(auto, using(crate::proofs::Demands::put_none, crate::proofs::Demands::put_more, crate::proofs::Demands::put_all, crate::proofs::Joining::short_row))]
fn put_behind(rows: &mut Vec<Row>, scheme: &[Row]) -> Result<(), AllocError>
    requires { IsShort scheme.now }
    ensures { IfOk result (λ u. rows.new.items ≡ with_scheme rows.old.items scheme.now) }
{
    let by = rows.len();
    for row in scheme {
        rows.push(shifted(*row, by))?;
    }
    Ok(())
}

/// Makes three parts be of the types of three rows that stand together.
#[tactic(auto, using(crate::proofs::Demands::three_all, crate::proofs::Demands::three_first, crate::proofs::Demands::three_second))]
fn make_alike(
    alloc: Global,
    rows: &mut [Row],
    whole: usize,
    left: usize,
    right: usize,
    at: usize,
) -> Result<bool, AllocError>
    requires table { IsTable rows.old }
    requires whole { whole < length rows.old }
    requires left { left < length rows.old }
    requires right { right < length rows.old }
    requires three { at + 2 < length rows.old }
    ensures { Settles rows.old rows.new (ThreeAlike whole left right at) result }
{
    if !unify(alloc, rows, whole, at)? {
        return Ok(false);
    }
    if !unify(alloc, rows, left, at + 1)? {
        return Ok(false);
    }
    unify(alloc, rows, right, at + 2)
}

/// Puts a rule for three parts into a table, or finds that no typing obeys it. A rule of fewer parts doesn't look at
/// the others.
#[tactic(auto, using(crate::proofs::Demands::demanded, crate::proofs::Demands::scheme_table, crate::proofs::Demands::scheme_room, crate::proofs::Shortness::scheme_short))]
pub fn demand(
    alloc: Global,
    rows: &mut Vec<Row>,
    rule: Rule,
    left: usize,
    right: usize,
    whole: usize,
) -> Result<bool, AllocError>
    requires table { IsTable rows.old.items }
    requires left { left < length rows.old.items }
    requires right { right < length rows.old.items }
    requires whole { whole < length rows.old.items }
    ensures { Demands rows.old.items rows.new.items (λ s. Obeys rule (s left) (s right) (s whole)) result }
{
    let at = rows.len();
    put_behind(rows, scheme_of(rule))?;
    make_alike(alloc, rows.as_mut_slice(), whole, left, right, at)
}
