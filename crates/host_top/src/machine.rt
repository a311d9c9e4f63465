// Machines of one counter, and the lists that their states offer.
ghost use Rattle.std.specs.Prelude.{◌≡◌, map, IfOk};
ghost use Rattle.host_top.specs.Machines.{lists_of, list_at, one_step_list, counting};

use animator::{ListEnd, OpList, Step};
use b_eval::add;
use b_values::{State, Value};
use sqlite_items::Items;
use std::alloc::{AllocError, Global};

/// An operation: its name, what it adds, and the place of its `+`.
#[derive(Debug, Drop)]
pub struct Operation {
    pub name: Items<u8>,
    pub amount: i128,
    pub at: u64,
}

/// A machine of one counter.
#[derive(Debug, Drop)]
pub struct Machine {
    pub name: Items<u8>,
    pub start: i128,
    pub ops: Items<Operation>,
}

fn counting_state(alloc: Global, n: i128) -> Result<State, AllocError>
    ensures { IfOk result (λ state. state ≡ counting n) }
{
    let mut values = Items::new(alloc);
    values.push(Value::Int(n))?;
    Ok(State::Running(Items::new(alloc), values))
}

// A list of one step.
fn one_step(alloc: Global, name: &[u8], n: i128) -> Result<OpList, AllocError>
    ensures { IfOk result (λ list. list ≡ one_step_list name.now n) }
{
    let mut steps = Items::new(alloc);
    steps.push(Step {
        op: Items::from_slice(alloc, name)?,
        dest: counting_state(alloc, n)?,
    })?;
    Ok(OpList {
        op: Items::from_slice(alloc, name)?,
        steps,
        end: ListEnd::Complete,
    })
}

fn operation_list(alloc: Global, n: i128, op: &Operation) -> Result<OpList, AllocError>
    ensures { IfOk result (λ list. list ≡ list_at n op.now) }
{
    match add(n, op.amount, op.at) {
        Ok(sum) => one_step(alloc, op.name.as_slice(), sum),
        Err(fault) => Ok(OpList {
            op: Items::from_slice(alloc, op.name.as_slice())?,
            steps: Items::new(alloc),
            end: ListEnd::Fault(fault),
        }),
    }
}

fn operation_lists(alloc: Global, n: i128, ops: &[Operation]) -> Result<Items<OpList>, AllocError>
    ensures { IfOk result (λ lists. lists ≡ map (list_at n) ops.now) }
{
    let mut lists = Items::new(alloc);
    for op in ops {
        lists.push(operation_list(alloc, n, op)?)?;
    }
    Ok(lists)
}

impl Machine {
    /// The lists that a state offers.
    pub fn expand(&self, alloc: Global, at: &State) -> Result<Items<OpList>, AllocError>
        ensures { IfOk result (λ lists. lists ≡ lists_of self.now at.now) }
    {
        match at {
            State::Root => {
                let mut lists = Items::new(alloc);
                lists.push(one_step(alloc, b"$initialise_machine", self.start)?)?;
                Ok(lists)
            }
            State::Constants(_) => Ok(Items::new(alloc)),
            State::Running(_, values) => match values.as_slice() {
                [Value::Int(n), ..] => operation_lists(alloc, *n, self.ops.as_slice()),
                _ => Ok(Items::new(alloc)),
            },
        }
    }
}
