//! Places under more brackets.
ghost use Rattle.std.specs.Prelude.{◌≡◌, IfOk, map};
ghost use Rattle.b_expand.specs.Places as spec;

use b_ast::{Bound, Place};
use sqlite_items::Items;
use std::alloc::{AllocError, Global};

/// So many brackets and so many more, counted up to 101.
pub fn brackets(round: u64, depth: u64) -> u64
    ensures { result ≡ spec.brackets round depth }
{
    round.saturating_add(depth).min(101)
}

/// A place under so many more brackets.
pub fn deeper_place(round: u64, at: Place) -> Place
    ensures { result ≡ spec.deeper_place round at }
{
    Place {
        machine: at.machine,
        at: at.at,
        depth: brackets(round, at.depth),
    }
}

/// A copy of bytes.
pub fn copied(alloc: Global, bytes: &[u8]) -> Result<Items<u8>, AllocError>
    ensures { IfOk result (λ x. x ≡ bytes.now) }
{
    Items::from_slice(alloc, bytes)
}

/// A place under so many more brackets, or as it is.
pub fn raised_place(extra: Option<u64>, at: Place) -> Place
    ensures { result ≡ spec.raised_place extra at }
{
    match extra {
        Some(n) => deeper_place(n, at),
        None => at,
    }
}

/// So many more brackets under those, if there are any.
pub fn raised(extra: Option<u64>, depth: u64) -> u64
    ensures { result ≡ spec.raised extra depth }
{
    match extra {
        Some(n) => brackets(n, depth),
        None => depth,
    }
}

/// Copies of bound names under so many brackets and those more.
pub fn moved_bounds(
    alloc: Global,
    names: &[Bound],
    round: u64,
    extra: Option<u64>,
) -> Result<Items<Bound>, AllocError>
    ensures { IfOk result (λ xs. xs ≡ map (spec.moved_bound (spec.raised_place extra)) (map (spec.deeper_bound round) names.now)) }
{
    let mut copies = Items::new(alloc);
    for name in names {
        copies.push(Bound {
            name: copied(alloc, name.name.as_slice())?,
            at: raised_place(extra, deeper_place(round, name.at)),
        })?;
    }
    Ok(copies)
}
