ghost use Rattle.std.specs.Prelude.{◌≡◌, [], ◌∷◌, ◌++◌, if◌then◌else◌, OnOk, OnErr, IfErr};
ghost use Rattle.ascending.specs.Ascending.{IsAscending};
ghost use Rattle.b_values.specs.Values.{value_cmp};
ghost use Rattle.set_making.specs.Making as spec;
ghost use Rattle.set_making.specs.Making.{Answers, FaultOf};

use crate::OpFault;
use b_values::{FaultKind, NODE_LIMIT, Value, spend};
use shared::Shared;
use sqlite_items::Items;
use std::alloc::Global;
use std::marker::Model;

/// The members of a set to be, which come in ascending order. Contracts see the list of them. It counts nodes down from
/// the limit and refuses the first member past it, so that nothing past the limit is kept and nothing is compared.
#[derive(Drop)]
pub struct Growing {
    alloc: Global,
    items: Items<Value>,
    /// How many more nodes the set may have.
    left: u64,
}

impl Model for Growing {
    ghost use Rattle.std.specs.Prelude.{◌≡◌, ◌+◌, map, sum};
    ghost use Rattle.b_values.specs.Values.{node_count};
    ghost use Rattle.b_values.specs.contracts.values.Value as row;
    ghost use Rattle.std.specs.Coded.{coded_list};
    ghost use Rattle.set_making.specs.Gathered.{Gathered};

    ghost Value = { Gathered };

    ghost coded = { coded_list row.the_row.coded };

    ghost view = { λ g. g.items };

    ghost invariant = { λ g. sum (map node_count g.items) + g.left ≡ 999999 };
}

impl Growing {
    pub fn new(alloc: Global) -> Growing
        ensures { result ≡ [] }
    {
        Growing {
            alloc,
            items: Items::new(alloc),
            left: NODE_LIMIT - 1,
        }
    }

    /// Puts one more at the end. A fault is that of the members with this one; they then stay as they are.
    pub fn add(&mut self, v: Value) -> Result<(), OpFault>
        requires { IsAscending value_cmp (self.old ++ v ∷ []) }
        ensures grown { OnOk result (self.new ≡ self.old ++ v ∷ []) }
        ensures fault { IfErr result (λ e. FaultOf (spec.set_with (self.old ++ v ∷ [])) e) }
        ensures unchanged { OnErr result (self.new ≡ self.old) }
    {
        let Some(left) = spend(&v, self.left) else {
            return Err(OpFault::Fault(FaultKind::TooLarge));
        };
        if has_pushed(&mut self.items, v) {
            self.left = left;
            Ok(())
        } else {
            Err(OpFault::Memory)
        }
    }

    /// The set of the members.
    pub fn finish(self) -> Result<Value, OpFault>
        requires { IsAscending value_cmp self }
        ensures { Answers (spec.set_with self) result }
    {
        let Growing {
            alloc,
            items,
            left: _,
        } = self;
        match Shared::new(alloc, items) {
            Ok(items) => Ok(Value::Set(items)),
            Err(_) => Err(OpFault::Memory),
        }
    }
}

/// Whether there was memory for one more, which then stands at the end.
fn has_pushed(items: &mut Items<Value>, v: Value) -> bool
    ensures { items.new ≡ (if result then items.old ++ v ∷ [] else items.old) }
{
    items.push(v).is_ok()
}
