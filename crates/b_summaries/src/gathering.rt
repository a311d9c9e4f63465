//! One share for each parameter of a definition.
ghost use Rattle.std.specs.Prelude.{◌≡◌, Some, None, IfOk, MatchBool};
ghost use Rattle.b_summaries.specs.Making as spec;

use crate::making::fitted;
use crate::sizes::{more_share, nothing_asked};
use crate::summary::{Asked, Entry, Kind, Parts, Share, Summary, Told};
use sqlite_items::Items;
use std::alloc::{AllocError, Global};

fn no_shares(params: &[Items<u8>], alloc: Global) -> Result<Items<Share>, AllocError>
    ensures { IfOk result (λ hs. hs ≡ spec.no_shares params.now) }
{
    let mut shares = Items::new(alloc);
    for _name in params {
        shares.push(Share {
            count: 0,
            offset: None,
            asked: nothing_asked(),
        })?;
    }
    Ok(shares)
}

// One more share of an argument; false where there is no such parameter.
#[tactic(auto, using(crate::proofs::PartLists::share_added, crate::proofs::PartLists::share_missing))]
fn add_share(shares: &mut Items<Share>, entry: &Entry) -> bool
    ensures { MatchBool result (spec.added_share shares.old entry.now.parameter entry.now.share ≡ Some shares.new) (spec.added_share shares.old entry.now.parameter entry.now.share ≡ None) }
{
    match shares.get(entry.parameter) {
        Some(share) => {
            let share = more_share(*share, entry.share);
            shares.set(entry.parameter, share);
            true
        }
        None => false,
    }
}

fn gathered(
    params: &[Items<u8>],
    kind: Kind,
    parts: Parts,
    alloc: Global,
) -> Result<Option<Told>, AllocError>
    ensures { IfOk result (λ o. o ≡ spec.told_parts params.now kind parts) }
{
    let mut shares = no_shares(params, alloc)?;
    for entry in parts.entries.as_slice() {
        if !add_share(&mut shares, entry) {
            return Ok(None);
        }
    }
    Ok(Some(Told {
        kind,
        size: parts.size,
        shares,
    }))
}

/// What a use of a body gives that has to be what is asked for.
pub fn told_of(
    params: &[Items<u8>],
    asked: Asked,
    body: Option<Summary>,
    alloc: Global,
) -> Result<Option<Told>, AllocError>
    ensures { IfOk result (λ o. o ≡ spec.told_of params.now asked body) }
{
    match body {
        Some(body) => {
            let Summary { kind, parts } = body;
            match fitted(asked, kind, parts)? {
                Some(parts) => gathered(params, kind, parts, alloc),
                None => Ok(None),
            }
        }
        None => Ok(None),
    }
}
