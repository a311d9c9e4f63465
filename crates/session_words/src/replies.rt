// What a command is answered.
ghost use Rattle.std.specs.Prelude.{◌≡◌, IfOk};

use crate::refusals::Refusal;
use b_values::Value;
use engine_face::{Packed, Step, StepList, ValueAnswer};
use shared::Shared;
use sqlite_items::Items;
use std::alloc::AllocError;

/// A state, packed, with the number under which it was shown.
#[derive(Debug, Drop)]
pub struct Numbered {
    pub state: Packed,
    pub number: u64,
}

impl Numbered {
    /// The same state again. It copies nothing.
    pub fn share(&self) -> Result<Numbered, AllocError>
        ensures { IfOk result (λ other. other ≡ self.now) }
    {
        Ok(Numbered {
            state: self.state.share()?,
            number: self.number,
        })
    }
}

/// The value of a subscription.
#[derive(Debug, Drop)]
pub struct SubValue {
    pub number: u64,
    pub answer: Shared<ValueAnswer>,
}

/// The canonical text of a subscription.
#[derive(Debug, Drop)]
pub struct SubText {
    pub number: u64,
    pub text: Items<u8>,
}

/// The value of an attribute of an item of a VisB document.
#[derive(Debug, Drop)]
pub struct ItemValue {
    pub id: Shared<Items<u8>>,
    pub attr: Shared<Items<u8>>,
    pub answer: Shared<ValueAnswer>,
}

/// A reply. `D` stands for a state: a state itself in definitions, a numbered one in the code. `subs` are the values of the
/// subscriptions at the state that the command arrived in.
#[derive(Debug, Drop)]
pub enum Reply<D> {
    /// Nothing, to a blank line.
    Silent,
    /// `ok` alone: to `unsub`, `keep` and `quit`.
    Done,
    /// To `info`.
    Info {
        state: D,
        position: u64,
        length: u64,
    },
    /// To `ops`.
    Lists(StepList<D>),
    /// The step that was added: to `step`, `do` and `click`.
    Added {
        step: Shared<Step<D>>,
        subs: Items<SubValue>,
    },
    /// To `back`, `forward`, `jump` and `use`.
    Moved {
        state: D,
        subs: Items<SubValue>,
    },
    /// To `trace`.
    Trace {
        position: u64,
        steps: Items<Shared<Step<D>>>,
    },
    /// The values of the constants and then of the variables, as many as there are; none at root: to `state` and `show`.
    State {
        state: D,
        values: Option<Items<Value>>,
    },
    /// To `eval`.
    Value {
        value: Value,
        bounded: bool,
    },
    /// To `sub`.
    Subscribed(SubValue),
    /// To `subs`.
    Subscriptions(Items<SubText>),
    /// To `inv`.
    Invariant {
        holds: bool,
        bounded: bool,
    },
    /// How many steps were stored: to `save`.
    Saved(u64),
    /// How many entries were stored: to `migrate`.
    Migrated(u64),
    /// The new trace: to `replay`.
    Replayed {
        steps: Items<Shared<Step<D>>>,
        subs: Items<SubValue>,
    },
    /// To `visb`.
    VisbItems(Items<ItemValue>),
    /// The steps that were added: to `random`.
    Walked {
        steps: Items<Shared<Step<D>>>,
        subs: Items<SubValue>,
    },
    Refused(Refusal),
}
