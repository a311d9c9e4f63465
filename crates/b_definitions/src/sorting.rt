//! Definitions sorted by ranks that their names have, without a change of the first definition of any name.
ghost use Rattle.std.specs.Prelude.{◌≡◌, length, map, IfOk, IsPermutation, vec_len};
ghost use Rattle.std.specs.List.Sorted.{IsStableByKey};
ghost use Rattle.std.specs.Ordering.{nat_cmp};
ghost use Rattle.b_definitions.specs.Ranks as spec;
ghost use Rattle.b_definitions.specs.Tables.{SameFirst};

use b_ast::machine::{Def, DefTable};
use b_names::Index;
use sqlite_items::Items;
use std::alloc::{AllocError, Global};

/// A definition with the rank of its name.
#[derive(Drop)]
pub struct Ranked {
    pub rank: u64,
    pub def: Def,
}

fn rank_of(index: &Index, ranks: &[u64], name: &[u8]) -> u64
    ensures { result ≡ spec.rank_of index.now ranks.now name.now }
{
    match index.first(name) {
        Some(i) => match ranks.get(i) {
            Some(rank) => *rank,
            None => 0,
        },
        None => 0,
    }
}

fn ranked_one(index: &Index, ranks: &[u64], def: Def) -> Ranked
    ensures { result ≡ spec.ranked index.now ranks.now def }
{
    let rank = rank_of(index, ranks, def.name.as_slice());
    Ranked { rank, def }
}

// The definitions with their ranks.
fn ranked_all(
    alloc: Global,
    defs: Items<Def>,
    index: &Index,
    ranks: &[u64],
) -> Result<Vec<Ranked>, AllocError>
    ensures { IfOk result (λ rs. rs.items ≡ map (spec.ranked index.now ranks.now) defs) }
{
    let mut left = defs;
    let mut all = Vec::new(alloc);
    while let Some(def) = left.pop() {
        all.push(ranked_one(index, ranks, def))?;
    }
    all.reverse();
    Ok(all)
}

// The definitions without their ranks.
fn unranked(alloc: Global, ranked: Vec<Ranked>) -> Result<Items<Def>, AllocError>
    ensures { IfOk result (λ ds. ds ≡ map (λ r. r.def) ranked.items) }
{
    let mut left = ranked;
    let mut all = Vec::new(alloc);
    while let Some(one) = left.pop() {
        let Ranked { rank: _, def } = one;
        all.push(def)?;
    }
    all.reverse();
    Ok(Items::from_vec(all))
}

// By rank, and those of one rank as they stood.
fn sorted(ranked: Vec<Ranked>) -> Result<Vec<Ranked>, AllocError>
    ensures same { IfOk result (λ rs. IsStableByKey (λ r. r.rank) nat_cmp ranked.items rs.items) }
    ensures all { IfOk result (λ rs. IsPermutation ranked.items rs.items) }
    ensures many { IfOk result (λ rs. vec_len rs ≡ vec_len ranked) }
{
    let mut ranked = ranked;
    ranked.sort_by_key(
        |one: &Ranked| -> u64
            ensures { result ≡ one.now.rank }
        { one.rank },
    )?;
    Ok(ranked)
}

/// The definitions by the ranks of their names; of two definitions of one name the first stays the first.
pub fn sorted_by_rank(
    alloc: Global,
    table: DefTable,
    index: &Index,
    ranks: &[u64],
) -> Result<DefTable, AllocError>
    ensures first { IfOk result (λ t. SameFirst table.defs t.defs) }
    ensures same { IfOk result (λ t. IsPermutation table.defs t.defs) }
    ensures many { IfOk result (λ t. length t.defs ≡ length table.defs) }
{
    let ranked = ranked_all(alloc, table.defs, index, ranks)?;
    let ranked = sorted(ranked)?;
    let defs = unranked(alloc, ranked)?;
    Ok(DefTable { defs })
}
