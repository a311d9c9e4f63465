// The answers to the four questions. The type of a step's destination is open: an engine answers with packed states,
// and what its answers mean is said with plain ones.
ghost use Rattle.std.specs.Prelude.{◌≡◌, IfOk};
ghost use Rattle.engine_face.specs.Counting.{uncounted, expanded, valued, searched, checked};

use crate::packed::Packed;
use b_values::{EvalFault, OpId, Value, share_all};
use sqlite_items::Items;
use std::alloc::{AllocError, Global};

/// A step of a machine. A setup's parameters are the values of the constants.
#[derive(Debug, Drop)]
pub struct Step<D> {
    pub op: OpId,
    pub params: Items<Value>,
    pub results: Items<Value>,
    /// The state after the step.
    pub dest: D,
}

/// A step to a packed state.
pub type StepItem = Step<Packed>;

impl Step<Packed> {
    /// The same step, sharing its values' parts and its state.
    pub fn copy(&self, alloc: Global) -> Result<StepItem, AllocError>
        ensures { IfOk result (λ step. step ≡ self.now) }
    {
        Ok(Step {
            op: self.op,
            params: share_all(alloc, self.params.as_slice())?,
            results: share_all(alloc, self.results.as_slice())?,
            dest: self.dest.share()?,
        })
    }
}

/// How a list of steps ends: they are all, there may be more, or the first fault.
#[derive(Clone, Copy, Debug, PartialEq, Eq)]
pub enum ListEnd {
    Complete,
    Reached,
    Fault(EvalFault),
}

/// The steps of one operation.
#[derive(Debug, Drop)]
pub struct OpList<D> {
    pub op: OpId,
    pub steps: Items<Step<D>>,
    pub end: ListEnd,
}

/// The lists that a state offers, in their order.
#[derive(Debug, Drop)]
pub struct StepList<D> {
    pub lists: Items<OpList<D>>,
}

/// What a formula is in a state. It has no value where it names a constant or variable that has none there.
#[derive(Debug, Drop)]
pub enum ValueAnswer {
    NotInitialised,
    Fault(EvalFault),
    /// The value, and whether a range in the formula was cut by MININT or MAXINT.
    Value { value: Value, bounded: bool },
}

/// The step that was searched for by predicates.
#[derive(Debug, Drop)]
pub enum Found<D> {
    Step(Step<D>),
    Nothing,
    Fault(EvalFault),
}

/// The step that agrees with a saved one.
#[derive(Debug, Drop)]
pub enum Confirmed<D> {
    Step(Step<D>),
    NotAStep,
}

/// How often each of the four questions was asked. A count stays at 2^64 - 1 once there.
#[derive(Clone, Copy, Debug, PartialEq, Eq)]
pub struct Counts {
    pub expand: u64,
    pub value: u64,
    pub find: u64,
    pub confirm: u64,
}

impl Counts {
    /// Nothing was asked yet.
    pub fn none() -> Counts
        ensures { result ≡ uncounted }
    {
        Counts {
            expand: 0,
            value: 0,
            find: 0,
            confirm: 0,
        }
    }

    /// One more question for lists.
    pub fn count_expand(&mut self)
        ensures { self.new ≡ expanded self.old }
    {
        self.expand = self.expand.saturating_add(1);
    }

    /// One more question for a value.
    pub fn count_value(&mut self)
        ensures { self.new ≡ valued self.old }
    {
        self.value = self.value.saturating_add(1);
    }

    /// One more search for a step.
    pub fn count_find(&mut self)
        ensures { self.new ≡ searched self.old }
    {
        self.find = self.find.saturating_add(1);
    }

    /// One more saved step to be confirmed.
    pub fn count_confirm(&mut self)
        ensures { self.new ≡ checked self.old }
    {
        self.confirm = self.confirm.saturating_add(1);
    }
}
