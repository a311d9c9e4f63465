ghost use Rattle.std.specs.Prelude.{◌≡◌, [], ◌∷◌, ◌++◌, if◌then◌else◌, OnOk, OnErr, IfErr};
ghost use Rattle.ascending.specs.Ascending.{insert};
ghost use Rattle.b_values.specs.Values.{value_cmp};
ghost use Rattle.set_making.specs.Making as spec;
ghost use Rattle.set_making.specs.Making.{Answers, FaultOf};

use crate::{OpFault, set_with};
use ascending::make_ascending;
use b_values::{FaultKind, NODE_LIMIT, Value, spend, spend_all};
use std::alloc::Global;
use std::marker::Model;

/// The members of a set to be, gathered in any order and repeated or not. Contracts see the ascending list of what was
/// gathered. It holds at most some two million nodes: when they are reached, doubles go, and a set that is too large by
/// then is refused. So n members cost some n log n comparisons, however large the set would be.
#[derive(Drop)]
pub struct Gathering {
    alloc: Global,
    items: Vec<Value>,
    /// How many more nodes are taken before doubles go.
    left: u64,
}

impl Model for Gathering {
    ghost use Rattle.ascending.specs.Ascending.{set_of};
    ghost use Rattle.b_values.specs.Values.{value_cmp};
    ghost use Rattle.b_values.specs.contracts.values.Value as row;
    ghost use Rattle.std.specs.Coded.{coded_list};
    ghost use Rattle.set_making.specs.Gathered.{Gathered};

    ghost Value = { Gathered };

    ghost coded = { coded_list row.the_row.coded };

    ghost view = { λ g. set_of value_cmp g.items.items };
}

impl Gathering {
    pub fn new(alloc: Global) -> Gathering
        ensures { result ≡ [] }
    {
        Gathering {
            alloc,
            items: Vec::new(alloc),
            left: 2 * NODE_LIMIT,
        }
    }

    /// Gathers one more. A fault is that of what was gathered before, which then stays as it is.
    pub fn add(&mut self, v: Value) -> Result<(), OpFault>
        ensures gathered { OnOk result (self.new ≡ insert value_cmp v self.old) }
        ensures fault { IfErr result (λ e. FaultOf (spec.set_with self.old) e) }
        ensures unchanged { OnErr result (self.new ≡ self.old) }
    {
        match spend(&v, self.left) {
            Some(left) => self.push(v, left),
            None => match self.settle() {
                Ok(()) => self.push_any(v),
                Err(fault) => Err(fault),
            },
        }
    }

    /// The set of what was gathered.
    pub fn finish(self) -> Result<Value, OpFault>
        ensures { Answers (spec.set_with self) result }
    {
        let Gathering {
            alloc,
            items,
            left: _,
        } = self;
        set_with(alloc, items)
    }

    /// Takes out doubles, and refuses a set that is too large.
    fn settle(&mut self) -> Result<(), OpFault>
        ensures fault { IfErr result (λ e. FaultOf (spec.set_with self.old) e) }
        ensures unchanged { self.new ≡ self.old }
    {
        make_ascending(&mut self.items);
        match spend_all(self.items.as_slice(), NODE_LIMIT - 1) {
            Some(left) => {
                self.left = left + NODE_LIMIT;
                Ok(())
            }
            None => Err(OpFault::Fault(FaultKind::TooLarge)),
        }
    }

    fn push_any(&mut self, v: Value) -> Result<(), OpFault>
        ensures gathered { OnOk result (self.new ≡ insert value_cmp v self.old) }
        ensures fault { IfErr result (λ e. FaultOf (spec.set_with self.old) e) }
        ensures unchanged { OnErr result (self.new ≡ self.old) }
    {
        let left = spend(&v, self.left).unwrap_or(0);
        self.push(v, left)
    }

    fn push(&mut self, v: Value, left: u64) -> Result<(), OpFault>
        ensures gathered { OnOk result (self.new ≡ insert value_cmp v self.old) }
        ensures fault { IfErr result (λ e. FaultOf (spec.set_with self.old) e) }
        ensures unchanged { OnErr result (self.new ≡ self.old) }
    {
        if has_pushed(&mut self.items, v) {
            self.left = left;
            Ok(())
        } else {
            Err(OpFault::Memory)
        }
    }
}

/// Whether there was memory for one more, which then stands at the end.
fn has_pushed(items: &mut Vec<Value>, v: Value) -> bool
    ensures { items.new.items ≡ (if result then items.old.items ++ v ∷ [] else items.old.items) }
{
    items.push(v).is_ok()
}
