//! What is made of answers.
ghost use Rattle.b_stretches.specs.Making as spec;

use crate::Unread;
use sqlite_items::Items;

/// Both answers, or the first that is none.
pub fn pair<A: Drop, B: Drop>(a: Result<A, Unread>, b: Result<B, Unread>) -> Result<(A, B), Unread>
    ensures { spec.IsPair a b result }
{
    match a {
        Ok(x) => match b {
            Ok(y) => Ok((x, y)),
            Err(e) => Err(e),
        },
        Err(e) => Err(e),
    }
}

/// An answer behind those that are there.
pub fn push_read<T: Drop>(all: &mut Items<T>, one: Result<T, Unread>) -> Result<(), Unread>
    ensures { spec.IsPushed all.old one all.new result }
{
    match one {
        Ok(item) => match all.push(item) {
            Ok(()) => Ok(()),
            Err(_) => Err(Unread::Memory),
        },
        Err(e) => Err(e),
    }
}
