ghost use Rattle.std.specs.Prelude.{◌≡◌, IfOk};
ghost use Rattle.b_values.specs.Values.{elements};

use shared::Shared;
use sqlite_items::Items;
use std::alloc::{AllocError, Global};

/// A value of the language. A set is a strictly ascending list, and a text is UTF-8 of fewer than 2^32 bytes.
#[derive(Debug, Drop)]
pub enum Value {
    Int(i128),
    Truth(bool),
    Text(Shared<Items<u8>>),
    /// An element of a set of the machine, by their places from 0.
    Elem { set: u32, index: u32 },
    Pair(Shared<Value>, Shared<Value>),
    Set(Shared<Items<Value>>),
}

/// Root, the constants, or the constants and the variables.
#[derive(Debug, Drop)]
pub enum State {
    Root,
    Constants(Items<Value>),
    Running(Items<Value>, Items<Value>),
}

/// Why a formula has no value.
#[derive(Clone, Copy, Debug, PartialEq, Eq)]
pub enum FaultKind {
    IllDefined,
    Overflow,
    TooLarge,
}

/// Which text a place is in.
#[derive(Clone, Copy, Debug, PartialEq, Eq)]
pub enum Text {
    Machine,
    Formula,
}

/// The first fault of an evaluation.
#[derive(Clone, Copy, Debug, PartialEq, Eq)]
pub struct EvalFault {
    pub kind: FaultKind,
    pub text: Text,
    /// The byte at which the operator begins.
    pub at: u64,
}

impl Value {
    /// The same value, sharing the parts of this one: at most two counts are raised, and no part is copied.
    pub fn share(&self) -> Result<Value, AllocError>
        ensures { IfOk result (λ v. v ≡ self.now) }
    {
        match self {
            Value::Int(n) => Ok(Value::Int(*n)),
            Value::Truth(b) => Ok(Value::Truth(*b)),
            Value::Text(s) => Ok(Value::Text(s.share()?)),
            Value::Elem { set, index } => Ok(Value::Elem {
                set: *set,
                index: *index,
            }),
            Value::Pair(a, b) => Ok(Value::Pair(a.share()?, b.share()?)),
            Value::Set(xs) => Ok(Value::Set(xs.share()?)),
        }
    }

    /// The members of a set, ascending; of another value none.
    pub fn members(&self) -> &[Value]
        ensures { result.now ≡ elements self.now }
    {
        match self {
            Value::Set(xs) => xs.get().as_slice(),
            _ => &[],
        }
    }
}

impl State {
    /// The same state, sharing the parts of each value.
    pub fn copy(&self, alloc: Global) -> Result<State, AllocError>
        ensures { IfOk result (λ s. s ≡ self.now) }
    {
        Ok(match self {
            State::Root => State::Root,
            State::Constants(cs) => State::Constants(share_all(alloc, cs.as_slice())?),
            State::Running(cs, vs) => State::Running(
                share_all(alloc, cs.as_slice())?,
                share_all(alloc, vs.as_slice())?,
            ),
        })
    }
}

/// The same values, sharing the parts of each.
pub fn share_all(alloc: Global, values: &[Value]) -> Result<Items<Value>, AllocError>
    ensures { IfOk result (λ shared. shared ≡ values.now) }
{
    let mut shared = Items::new(alloc);
    for v in values {
        shared.push(v.share()?)?;
    }
    Ok(shared)
}
