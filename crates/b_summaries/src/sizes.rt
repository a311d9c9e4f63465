//! How wide and how deep parts are together, and which sorts are asked for.
ghost use Rattle.std.specs.Prelude.{◌≡◌, ◌+◌, ◌*◌, Some, true, if◌then◌else◌};
ghost use Rattle.b_ast.specs.Sorts as sorts;
ghost use Rattle.b_summaries.specs.Making as making;
ghost use Rattle.b_summaries.specs.Sizes as spec;

use crate::summary::{Asked, Share, Size};
use b_ast::Sort;
use b_ast::sorts::fits;
use b_expand::brackets;

/// The most nodes that are counted: one more than a text may have.
const MOST_COUNTED: u64 = 1_000_001;

fn added(some: u64, more: u64) -> u64
    ensures { result ≡ spec.counted (some + more) }
{
    some.saturating_add(more).min(MOST_COUNTED)
}

fn multiplied(some: u64, more: u64) -> u64
    ensures { result ≡ spec.counted (some * more) }
{
    some.saturating_mul(more).min(MOST_COUNTED)
}

fn deeper_of(some: Option<u64>, more: Option<u64>) -> Option<u64>
    ensures { result ≡ spec.deeper_of some more }
{
    match some {
        None => more,
        Some(m) => match more {
            None => Some(m),
            Some(n) => Some(m.max(n)),
        },
    }
}

/// A depth under so many more brackets, if there are both.
pub fn raised(offset: Option<u64>, depth: Option<u64>) -> Option<u64>
    ensures { result ≡ spec.raised offset depth }
{
    match offset {
        None => None,
        Some(n) => match depth {
            None => None,
            Some(d) => Some(brackets(n, d)),
        },
    }
}

pub fn place_size(nodes: u64, depth: u64) -> Size
    ensures { result ≡ making.place_size nodes depth }
{
    Size {
        nodes,
        depth: Some(depth),
    }
}

/// Two parts.
pub fn plus(some: Size, more: Size) -> Size
    ensures { result ≡ spec.plus some more }
{
    Size {
        nodes: added(some.nodes, more.nodes),
        depth: deeper_of(some.depth, more.depth),
    }
}

/// A part so many times, its places under so many more brackets.
pub fn times(count: u64, offset: Option<u64>, size: Size) -> Size
    ensures { result ≡ spec.times count offset size }
{
    Size {
        nodes: multiplied(count, size.nodes),
        depth: raised(offset, size.depth),
    }
}

/// What is asked for by one sort.
pub fn asking(sort: Sort) -> Asked
    ensures { result ≡ spec.asking sort }
{
    match sort {
        Sort::Expression => Asked {
            expression: true,
            predicate: false,
            implication: false,
        },
        Sort::Predicate => Asked {
            expression: false,
            predicate: true,
            implication: false,
        },
        Sort::Implication => Asked {
            expression: false,
            predicate: false,
            implication: true,
        },
    }
}

fn asked_for(asked: bool, wanted: Sort, sort: Sort) -> bool
    ensures { result ≡ (if asked then sorts.fits wanted (Some sort) else true) }
{
    if asked {
        fits(wanted, Some(sort))
    } else {
        true
    }
}

/// Whether a sort is all that is asked for.
pub fn met(asked: Asked, sort: Sort) -> bool
    ensures { result ≡ spec.met asked sort }
{
    let expression = asked_for(asked.expression, Sort::Expression, sort);
    let predicate = asked_for(asked.predicate, Sort::Predicate, sort);
    let implication = asked_for(asked.implication, Sort::Implication, sort);
    expression && (predicate && implication)
}

fn both_asked(some: Asked, more: Asked) -> Asked
    ensures { result ≡ spec.both_asked some more }
{
    Asked {
        expression: some.expression || more.expression,
        predicate: some.predicate || more.predicate,
        implication: some.implication || more.implication,
    }
}

/// What is asked for by nothing.
pub fn nothing_asked() -> Asked
    ensures { result ≡ spec.nothing_asked }
{
    Asked {
        expression: false,
        predicate: false,
        implication: false,
    }
}

/// A share so many times, under so many more brackets.
pub fn scaled_share(count: u64, offset: Option<u64>, share: Share) -> Share
    ensures { result ≡ record { count = spec.counted (count * share.count); offset = spec.raised offset share.offset; asked = share.asked } }
{
    Share {
        count: multiplied(count, share.count),
        offset: raised(offset, share.offset),
        asked: share.asked,
    }
}

/// Two shares of one argument.
pub fn more_share(some: Share, more: Share) -> Share
    ensures { result ≡ making.more_share some more }
{
    Share {
        count: added(some.count, more.count),
        offset: deeper_of(some.offset, more.offset),
        asked: both_asked(some.asked, more.asked),
    }
}
