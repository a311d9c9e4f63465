//! A table of definitions in the order of use.
ghost use Rattle.std.specs.Prelude.{◌≡◌, length, IfOk, OnOk, IsPermutation};
ghost use Rattle.b_definitions.specs.Arranging.{Arranges, HasNoCircle, IsCircleIn, IsChecked};
ghost use Rattle.b_definitions.specs.Meaning.{MeansInOrder, IsSettled};
ghost use Rattle.b_definitions.specs.Tables.{IsIndexed, SameFirst};
ghost use Rattle.b_definitions.specs.Uses as uses;

use crate::checks;
use crate::parting::parts_of;
use crate::search::{Found, order_of_use};
use crate::sorting::sorted_by_rank;
use crate::uses::all_uses;
use b_ast::machine::{Def, DefTable};
use b_names::{Index, index_of};
use sqlite_items::Items;
use std::alloc::{AllocError, Global};

/// Why a table has no order of use.
#[derive(Clone, Copy, Debug, PartialEq, Eq)]
pub enum Disorder {
    /// The definition at this place uses itself, perhaps through others.
    Circle(usize),
    Memory,
}

// The index of the names of a table.
fn indexed(alloc: Global, table: &[Def]) -> Result<Index, AllocError>
    ensures { IfOk result (IsIndexed table.now) }
{
    index_of(alloc, table)
}

// For each definition of a table those that it uses.
fn rows_of(alloc: Global, table: &[Def]) -> Result<Items<Items<usize>>, AllocError>
    ensures { IfOk result (λ rows. rows ≡ uses.all_uses table.now) }
{
    let index = indexed(alloc, table)?;
    all_uses(alloc, table, &index)
}

// A circle that a search found, if it is one.
fn circle(rows: &[Items<usize>], found: &[usize]) -> Disorder
    ensures { IsCircleIn rows.now result }
{
    match found {
        [] => Disorder::Memory,
        [first, _rest @ ..] => {
            if checks::is_circle(rows, found) {
                Disorder::Circle(*first)
            } else {
                Disorder::Memory
            }
        }
    }
}

// A sorted table, if it is in the order of use.
fn checked(alloc: Global, table: DefTable) -> Result<DefTable, Disorder>
    ensures { IsChecked table result }
{
    match rows_of(alloc, table.defs.as_slice()) {
        Ok(rows) => {
            if checks::is_ordered(rows.as_slice()) {
                Ok(table)
            } else {
                Err(Disorder::Memory)
            }
        }
        Err(_) => Err(Disorder::Memory),
    }
}

// The first definitions of names by rank, and the others behind them.
#[tactic(auto, using(crate::proofs::Parts::firsts_stay, crate::proofs::Parts::all_stay, crate::proofs::Kept::none_lost))]
fn sorted_firsts(
    alloc: Global,
    table: DefTable,
    index: &Index,
    ranks: &[u64],
) -> Result<DefTable, AllocError>
    requires { IsIndexed table.defs index.now }
    ensures first { IfOk result (λ t. SameFirst table.defs t.defs) }
    ensures same { IfOk result (λ t. IsPermutation table.defs t.defs) }
    ensures many { IfOk result (λ t. length t.defs ≡ length table.defs) }
{
    let parts = parts_of(alloc, table, index)?;
    let sorted = sorted_by_rank(alloc, DefTable { defs: parts.firsts }, index, ranks)?;
    let mut defs = sorted.defs;
    defs.append(parts.later)?;
    Ok(DefTable { defs })
}

// The definitions by rank, if that is an order of use.
fn in_order(
    alloc: Global,
    table: DefTable,
    index: &Index,
    ranks: &[u64],
) -> Result<DefTable, Disorder>
    requires { IsIndexed table.defs index.now }
    ensures { Arranges table.defs result }
{
    match sorted_firsts(alloc, table, index, ranks) {
        Ok(sorted) => checked(alloc, sorted),
        Err(_) => Err(Disorder::Memory),
    }
}

// By the uses of each definition.
fn arranged_by(
    alloc: Global,
    table: DefTable,
    index: &Index,
    rows: &[Items<usize>],
) -> Result<DefTable, Disorder>
    requires rows { rows.now ≡ uses.all_uses table.defs }
    requires index { IsIndexed table.defs index.now }
    ensures { Arranges table.defs result }
{
    match order_of_use(rows, alloc) {
        Ok(Found::Circle(found)) => Err(circle(rows, found.as_slice())),
        Ok(Found::Ranks(ranks)) => in_order(alloc, table, index, ranks.as_slice()),
        Err(_) => Err(Disorder::Memory),
    }
}

fn arranged_or_circle(alloc: Global, table: DefTable) -> Result<DefTable, Disorder>
    ensures { Arranges table.defs result }
{
    match indexed(alloc, table.defs.as_slice()) {
        Ok(index) => match all_uses(alloc, table.defs.as_slice(), &index) {
            Ok(rows) => arranged_by(alloc, table, &index, rows.as_slice()),
            Err(_) => Err(Disorder::Memory),
        },
        Err(_) => Err(Disorder::Memory),
    }
}

/// The same definitions in an order in which each uses only those before it, if no definition uses itself through others.
/// Definitions whose name has an earlier one come last: nothing means them.
pub fn arranged(alloc: Global, table: DefTable) -> Result<DefTable, Disorder>
    ensures arranges { Arranges table.defs result }
    ensures means { IfOk result (λ t. MeansInOrder table.defs t.defs) }
    ensures settled { OnOk result (IsSettled table.defs) }
    ensures exact { OnOk result (HasNoCircle table.defs) }
{
    arranged_or_circle(alloc, table)
}
