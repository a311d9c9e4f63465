ghost use Rattle.std.specs.Prelude.{◌≡◌, ◌↔◌, IsTrue, IfOk};
ghost use Rattle.ascending.specs.Ascending.{In, IsAscending, set_of};
ghost use Rattle.b_values.specs.Values.{limited, value_cmp};
ghost use Rattle.b_values.specs.declared.values.Value.TheVariants.{Set};

use crate::sizes::{NODE_LIMIT, fits};
use crate::values::{FaultKind, Value};
use ascending::make_ascending;
use shared::Shared;
use sqlite_items::Items;
use std::alloc::{AllocError, Global};

/// The ascending list with the members of these, each once. It takes no memory.
pub fn set_from(items: Vec<Value>) -> Items<Value>
    ensures set { result ≡ set_of value_cmp items.items }
    ensures ascends { IsAscending value_cmp result }
{
    let mut items = items;
    make_ascending(&mut items);
    Items::from_vec(items)
}

/// The set with these members.
pub fn make_set(alloc: Global, items: Vec<Value>) -> Result<Value, AllocError>
    ensures { IfOk result (λ v. v ≡ Set (set_of value_cmp items.items)) }
{
    Ok(Value::Set(Shared::new(alloc, set_from(items))?))
}

/// Whether a value is among those of an ascending list, by a binary search.
pub fn is_member(items: &[Value], x: &Value) -> bool
    requires { IsAscending value_cmp items.now }
    ensures { IsTrue result ↔ In x.now items.now }
{
    ascending::is_member(items, x)
}

/// The value, unless it has too many nodes.
pub fn limited(v: Value) -> Result<Value, FaultKind>
    ensures { result ≡ limited v }
{
    if fits(&v, NODE_LIMIT) {
        Ok(v)
    } else {
        Err(FaultKind::TooLarge)
    }
}
