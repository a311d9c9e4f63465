//! Sets by their members, unless they are too large: what the operators on sets stand on.
#![tactic(auto)]

ghost use Rattle.std.specs.Prelude.{◌≡◌, IfOk};
ghost use Rattle.ascending.specs.Ascending.{IsAscending};
ghost use Rattle.b_values.specs.Values as values;
ghost use Rattle.b_values.specs.Values.{value_cmp};
ghost use Rattle.b_values.specs.declared.values.Value.TheVariants.{Pair};
ghost use Rattle.set_making.specs.Making as spec;
ghost use Rattle.set_making.specs.Making.{Answers};

mod gathering;
mod growing;
mod merging;

use b_values::{FaultKind, Value, is_member, limited, make_set};
pub use gathering::Gathering;
pub use growing::Growing;
pub use merging::merge;
use shared::Shared;
use sqlite_items::Items;
use std::alloc::{AllocError, Global};
use thiserror::Error;

/// Why an operator gives no value.
#[derive(Clone, Copy, Debug, PartialEq, Eq, Error)]
pub enum OpFault {
    #[error("{0:?}")]
    Fault(FaultKind),
    #[error("out of memory")]
    Memory,
}

/// The set with these members, in any order and repeated or not: n log n comparisons.
pub fn set_with(alloc: Global, members: Vec<Value>) -> Result<Value, OpFault>
    ensures { Answers (spec.set_with members.items) result }
{
    match make_set(alloc, members) {
        Ok(set) => within_limit(set),
        Err(_) => Err(OpFault::Memory),
    }
}

/// The value, unless it has too many nodes.
pub fn within_limit(v: Value) -> Result<Value, OpFault>
    ensures { Answers (values.limited v) result }
{
    limited(v).map_err(OpFault::Fault)
}

/// The set with these members, which ascend: one pass over its nodes, and no comparison.
pub fn set_in_order(alloc: Global, members: Items<Value>) -> Result<Value, OpFault>
    requires { IsAscending value_cmp members }
    ensures { Answers (spec.set_with members) result }
{
    match Shared::new(alloc, members) {
        Ok(items) => within_limit(Value::Set(items)),
        Err(_) => Err(OpFault::Memory),
    }
}

/// The couple of two values, sharing their parts.
pub fn couple(alloc: Global, a: &Value, b: &Value) -> Result<Value, AllocError>
    ensures { IfOk result (λ v. v ≡ Pair a.now b.now) }
{
    Ok(Value::Pair(
        Shared::new(alloc, a.share()?)?,
        Shared::new(alloc, b.share()?)?,
    ))
}

/// Whether a value is among those of an ascending list, by a binary search.
pub fn is_among(items: &[Value], x: &Value) -> bool
    requires { IsAscending value_cmp items.now }
    ensures { result ≡ spec.is_among items.now x.now }
{
    is_member(items, x)
}
