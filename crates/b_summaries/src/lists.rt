//! Lists of summaries that may be missing.
ghost use Rattle.std.specs.Prelude.{◌≡◌, [], ◌∷◌, ◌++◌, IfOk};
ghost use Rattle.b_expand.specs.Expansion as expansion;

use crate::summary::Summary;
use sqlite_items::Items;
use std::alloc::{AllocError, Global};

/// The list with one more at its end, where both are there.
pub fn pushed(
    items: Option<Items<Summary>>,
    item: Option<Summary>,
) -> Result<Option<Items<Summary>>, AllocError>
    ensures { IfOk result (λ o. o ≡ expansion.both (λ xs x. xs ++ x ∷ []) items item) }
{
    match (items, item) {
        (Some(mut items), Some(item)) => {
            items.push(item)?;
            Ok(Some(items))
        }
        _ => Ok(None),
    }
}

/// The list with one more before it, where both are there.
pub fn before(
    alloc: Global,
    first: Option<Summary>,
    rest: Option<Items<Summary>>,
) -> Result<Option<Items<Summary>>, AllocError>
    ensures { IfOk result (λ o. o ≡ expansion.both (λ x xs. x ∷ xs) first rest) }
{
    match (first, rest) {
        (Some(first), Some(rest)) => {
            let mut items = Items::new(alloc);
            items.push(first)?;
            items.append(rest)?;
            Ok(Some(items))
        }
        _ => Ok(None),
    }
}
