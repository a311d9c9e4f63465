//! Parts of a body with nodes, places and uses added.
ghost use Rattle.std.specs.Prelude.{◌≡◌, [], ◌∷◌, Some, IfOk};
ghost use Rattle.b_expand.specs.Places as places;
ghost use Rattle.b_summaries.specs.Sizes as sizes;
ghost use Rattle.b_summaries.specs.Making as making;
ghost use Rattle.b_summaries.specs.Summaries.{node};
ghost use Rattle.b_substitutions.specs.Summaries as spec;

use b_ast::{Bound, Place};
use b_summaries::making::{fit, joined};
use b_summaries::sizes::{nothing_asked, place_size, plus};
use b_summaries::{Parts, Size, Summary};
use sqlite_items::Items;
use std::alloc::{AllocError, Global};

/// No parts yet.
pub fn start(alloc: Global) -> Option<Parts>
    ensures { result ≡ Some (making.alone sizes.nothing) }
{
    Some(Parts {
        size: Size {
            nodes: 0,
            depth: None,
        },
        entries: Items::new(alloc),
    })
}

#[tactic(auto, using(crate::proofs::PartSizes::size_joined))]
fn sized(size: Size, parts: Parts) -> Parts
    ensures { result ≡ making.join parts (making.alone size) }
{
    let Parts {
        size: before,
        entries,
    } = parts;
    Parts {
        size: plus(before, size),
        entries,
    }
}

fn with_size(size: Size, parts: Option<Parts>) -> Option<Parts>
    ensures { result ≡ spec.with_size size parts }
{
    match parts {
        Some(parts) => Some(sized(size, parts)),
        None => None,
    }
}

/// With one more node that has a place.
pub fn with_node(depth: u64, parts: Option<Parts>) -> Option<Parts>
    ensures { result ≡ spec.with_node depth parts }
{
    with_size(place_size(1, depth), parts)
}

/// With one more node that has no place of its own.
pub fn with_chain(parts: Option<Parts>) -> Option<Parts>
    ensures { result ≡ spec.with_size node parts }
{
    with_size(
        Size {
            nodes: 1,
            depth: None,
        },
        parts,
    )
}

/// With a use.
pub fn with_use(used: Option<Summary>, parts: Option<Parts>) -> Result<Option<Parts>, AllocError>
    ensures { IfOk result (λ o. o ≡ spec.with_use used parts) }
{
    let more = fit(nothing_asked(), used)?;
    joined(parts, more)
}

/// How many brackets are open at most at a place and a name.
pub fn name_depth(at: Place, name: &Bound) -> u64
    ensures { result ≡ places.names_depth at (name.now ∷ []) }
{
    at.depth.max(name.at.depth)
}
