//! Summaries from summaries.
ghost use Rattle.std.specs.Prelude.{◌≡◌, [], ◌∷◌, ◌++◌, map, Some, None, IfOk};
ghost use Rattle.b_expand.specs.Expansion.{both};
ghost use Rattle.b_summaries.specs.Making as spec;
ghost use Rattle.b_summaries.specs.Summaries as summed;

use crate::sizes::{asking, met, nothing_asked, place_size, plus, raised, scaled_share, times};
use crate::summary::{Asked, Entry, Kind, Parts, Share, Size, Summary, Told};
use b_ast::Sort;
use b_expand::brackets;
use sqlite_items::Items;
use std::alloc::{AllocError, Global};

fn alone(alloc: Global, size: Size) -> Parts
    ensures { result ≡ spec.alone size }
{
    Parts {
        size,
        entries: Items::new(alloc),
    }
}

/// A node with a place, before its parts.
pub fn start(alloc: Global, depth: u64) -> Option<Parts>
    ensures { result ≡ summed.start (spec.place_size 1 depth) }
{
    Some(alone(alloc, place_size(1, depth)))
}

/// A node without a place, before its parts.
pub fn start_row(alloc: Global) -> Option<Parts>
    ensures { result ≡ summed.start summed.node }
{
    Some(alone(
        alloc,
        Size {
            nodes: 1,
            depth: None,
        },
    ))
}

pub fn leaf(alloc: Global, depth: u64) -> Summary
    ensures { result ≡ summed.leaf depth }
{
    Summary {
        kind: Kind::Own(Sort::Expression),
        parts: alone(alloc, place_size(1, depth)),
    }
}

/// The argument for a parameter, at a place with so many brackets open.
pub fn parameter(alloc: Global, parameter: usize, depth: u64) -> Result<Summary, AllocError>
    ensures { IfOk result (λ u. u ≡ summed.parameter parameter depth) }
{
    let mut entries = Items::new(alloc);
    entries.push(Entry {
        parameter,
        share: Share {
            count: 1,
            offset: Some(brackets(1, depth)),
            asked: nothing_asked(),
        },
    })?;
    let size = Size {
        nodes: 0,
        depth: None,
    };
    Ok(Summary {
        kind: Kind::Argument(parameter),
        parts: Parts { size, entries },
    })
}

// ---- parts

#[tactic(auto, using(crate::proofs::PartLists::place_joined))]
fn placed(depth: u64, parts: Parts) -> Parts
    ensures { result ≡ spec.join parts (spec.alone (spec.place_size 0 depth)) }
{
    let Parts { size, entries } = parts;
    Parts {
        size: plus(size, place_size(0, depth)),
        entries,
    }
}

/// With one more place.
pub fn with_place(depth: u64, parts: Option<Parts>) -> Option<Parts>
    ensures { result ≡ summed.with_place depth parts }
{
    match parts {
        Some(parts) => Some(placed(depth, parts)),
        None => None,
    }
}

fn join(some: Parts, more: Parts) -> Result<Parts, AllocError>
    ensures { IfOk result (λ p. p ≡ spec.join some more) }
{
    let Parts { size, mut entries } = some;
    let Parts {
        size: other,
        entries: others,
    } = more;
    entries.append(others)?;
    Ok(Parts {
        size: plus(size, other),
        entries,
    })
}

fn demand(asked: Asked, parameter: usize) -> Entry
    ensures { result ≡ spec.demand asked parameter }
{
    Entry {
        parameter,
        share: Share {
            count: 0,
            offset: None,
            asked,
        },
    }
}

fn with_entry(entry: Entry, parts: Parts) -> Result<Parts, AllocError>
    ensures { IfOk result (λ p. p ≡ record { size = parts.size; entries = parts.entries ++ entry ∷ [] }) }
{
    let Parts { size, mut entries } = parts;
    entries.push(entry)?;
    Ok(Parts { size, entries })
}

/// The parts of a tree that has to be what is asked for.
pub fn fitted(asked: Asked, kind: Kind, parts: Parts) -> Result<Option<Parts>, AllocError>
    ensures { IfOk result (λ o. o ≡ spec.fitted asked kind parts) }
{
    match kind {
        Kind::Own(sort) => {
            if met(asked, sort) {
                Ok(Some(parts))
            } else {
                Ok(None)
            }
        }
        Kind::Argument(i) => {
            let parts = with_entry(demand(asked, i), parts)?;
            Ok(Some(parts))
        }
    }
}

pub fn fit(asked: Asked, tree: Option<Summary>) -> Result<Option<Parts>, AllocError>
    ensures { IfOk result (λ o. o ≡ spec.fit asked tree) }
{
    match tree {
        Some(tree) => {
            let Summary { kind, parts } = tree;
            fitted(asked, kind, parts)
        }
        None => Ok(None),
    }
}

pub fn joined(some: Option<Parts>, more: Option<Parts>) -> Result<Option<Parts>, AllocError>
    ensures { IfOk result (λ o. o ≡ both spec.join some more) }
{
    match some {
        Some(some) => match more {
            Some(more) => {
                let parts = join(some, more)?;
                Ok(Some(parts))
            }
            None => Ok(None),
        },
        None => Ok(None),
    }
}

/// With one more tree, which has to be of a sort.
#[inline(never)]
pub fn with_part(
    wanted: Sort,
    tree: Option<Summary>,
    parts: Option<Parts>,
) -> Result<Option<Parts>, AllocError>
    ensures { IfOk result (λ o. o ≡ summed.with_part wanted tree parts) }
{
    let more = fit(asking(wanted), tree)?;
    joined(parts, more)
}

/// A tree of a sort from its parts.
pub fn formed(sort: Sort, parts: Option<Parts>) -> Option<Summary>
    ensures { result ≡ summed.formed sort parts }
{
    match parts {
        Some(parts) => Some(Summary {
            kind: Kind::Own(sort),
            parts,
        }),
        None => None,
    }
}

/// A tree of a sort round one of a wanted sort.
#[inline(never)]
pub fn around(
    alloc: Global,
    depth: u64,
    sort: Sort,
    wanted: Sort,
    tree: Option<Summary>,
) -> Result<Option<Summary>, AllocError>
    ensures { IfOk result (λ o. o ≡ summed.formed sort (summed.with_part wanted tree (summed.start (spec.place_size 1 depth)))) }
{
    let parts = with_part(wanted, tree, start(alloc, depth))?;
    Ok(formed(sort, parts))
}

// ---- uses

fn scaled_entry(share: &Share, entry: &Entry) -> Entry
    ensures { result ≡ spec.scaled_entry share.now.count share.now.offset entry.now }
{
    Entry {
        parameter: entry.parameter,
        share: scaled_share(share.count, share.offset, entry.share),
    }
}

fn with_scaled(share: &Share, more: &Parts, parts: Parts) -> Result<Parts, AllocError>
    ensures { IfOk result (λ p. p ≡ spec.join parts (spec.scaled share.now.count share.now.offset more.now)) }
{
    let Parts { size, mut entries } = parts;
    for entry in more.entries.as_slice() {
        entries.push(scaled_entry(share, entry))?;
    }
    Ok(Parts {
        size: plus(size, times(share.count, share.offset, more.size)),
        entries,
    })
}

// What an argument adds, with other parts.
#[tactic(auto, using(crate::proofs::PartLists::demand_scaled))]
fn with_argument(
    share: &Share,
    argument: &Summary,
    parts: Parts,
) -> Result<Option<Parts>, AllocError>
    ensures { IfOk result (λ o. o ≡ both spec.join (Some parts) (spec.lifted share.now argument.now)) }
{
    match argument.kind {
        Kind::Own(sort) => {
            if met(share.asked, sort) {
                let parts = with_scaled(share, &argument.parts, parts)?;
                Ok(Some(parts))
            } else {
                Ok(None)
            }
        }
        Kind::Argument(i) => {
            let parts = with_scaled(share, &argument.parts, parts)?;
            let parts = with_entry(scaled_entry(share, &demand(share.asked, i)), parts)?;
            Ok(Some(parts))
        }
    }
}

// The same, if there are other parts.
fn with_next(
    share: &Share,
    argument: &Summary,
    parts: Option<Parts>,
) -> Result<Option<Parts>, AllocError>
    ensures { IfOk result (λ o. o ≡ both spec.join parts (spec.lifted share.now argument.now)) }
{
    match parts {
        Some(parts) => with_argument(share, argument, parts),
        None => Ok(None),
    }
}

#[tactic(auto, using(crate::proofs::PartLists::too_few))]
fn with_arguments(
    shares: &[Share],
    arguments: &[Summary],
    parts: Option<Parts>,
) -> Result<Option<Parts>, AllocError>
    ensures { IfOk result (λ o. o ≡ spec.lifted_all parts shares.now arguments.now) }
{
    let mut found = parts;
    let mut left = arguments;
    for share in shares {
        match left.split_first() {
            Some((argument, rest)) => {
                found = with_next(share, argument, found)?;
                left = rest;
            }
            None => return Ok(None),
        }
    }
    match left {
        [] => Ok(found),
        [_, ..] => Ok(None),
    }
}

fn kind_in(kind: Kind, arguments: &[Summary]) -> Option<Kind>
    ensures { result ≡ spec.kind_in kind arguments.now }
{
    match kind {
        Kind::Own(sort) => Some(Kind::Own(sort)),
        Kind::Argument(i) => match sqlite_items::at(arguments, i) {
            Some(argument) => Some(argument.kind),
            None => None,
        },
    }
}

fn body_size(depth: u64, size: Size) -> Size
    ensures { result ≡ spec.body_size depth size }
{
    Size {
        nodes: size.nodes,
        depth: raised(Some(brackets(depth, 1)), size.depth),
    }
}

/// A use of a definition with its arguments.
pub fn substituted(
    told: &Told,
    depth: u64,
    arguments: &[Summary],
    alloc: Global,
) -> Result<Option<Summary>, AllocError>
    ensures { IfOk result (λ o. o ≡ spec.substituted told.now depth arguments.now) }
{
    let body = alone(alloc, body_size(depth, told.size));
    match kind_in(told.kind, arguments) {
        Some(kind) => match with_arguments(told.shares.as_slice(), arguments, Some(body))? {
            Some(parts) => Ok(Some(Summary { kind, parts })),
            None => Ok(None),
        },
        None => Ok(None),
    }
}
