// Where a command in progress is, how it goes on, what it needs, and what it is answered.
use crate::held::{KeptStep, KeptTrace};
use b_values::OpId;
use engine_face::{FormulaKey, Found, Packed, StepItem, StepList, ValueAnswer};
use session_text::ReplyText;
use session_words::{Numbered, Refusal, Reply, SubValue};
use shared::Shared;
use sqlite_items::Items;
use trace_ops::Trace;

/// What the end of a command changes.
#[derive(Drop)]
pub enum Change {
    Stay,
    /// The position.
    Go(u64),
    Add(KeptStep),
    /// The whole trace.
    Put(Trace<KeptStep>),
    Subscribe(FormulaKey),
    Unsubscribe(u64),
    Keep(KeptTrace),
}

/// The first lines of a reply that the values of the subscriptions follow.
#[derive(Drop)]
pub enum Opening {
    Added(KeptStep),
    Moved(Numbered),
}

/// A new current state, with what leads there.
#[derive(Drop)]
pub struct Arrival {
    pub at: Numbered,
    pub change: Change,
    pub opening: Opening,
}

/// What a command in progress waits for.
#[derive(Drop)]
pub enum Stage {
    /// The lists of the current state, to show them.
    Listing,
    /// The lists of the current state, to take the step of this number.
    Taking(u64),
    /// Numbers for the states of these lists.
    NamingLists(Shared<StepList<Packed>>),
    /// The number of the state of the step that is added.
    NamingStep(StepItem),
    /// A value in the current state.
    Evaluating(FormulaKey),
    /// The invariant in the current state.
    Checking,
    /// The first value of a new subscription.
    Subscribing(FormulaKey),
    /// A step of an operation at which the predicates hold.
    Finding(OpId, Items<FormulaKey>),
    /// The value of the subscription behind those that were told.
    Telling(Arrival, Items<SubValue>),
}

/// How a command goes on: with a further need, or to its end.
#[derive(Drop)]
pub enum Next {
    Goes(Stage),
    Ends(Change, Reply<Numbered>),
    Refuses(Refusal),
    /// A blank line.
    Silent,
    /// A move to this position, where the state has this number and there are no subscriptions.
    Moves(u64, u64),
    Quits,
}

/// What a session needs next.
#[derive(Drop)]
pub enum Need {
    /// A line.
    Idle,
    /// The lists of a state.
    Steps(Packed),
    /// The value of a formula in a state.
    Value(Packed, FormulaKey),
    /// The numbers of states, in their order.
    Names(Items<Packed>),
    /// The step of an operation at which the predicates hold.
    Find(Packed, OpId, Items<FormulaKey>),
    /// That this text is given to the sink; the empty one to a blank line.
    Reply(ReplyText),
    /// The same, to `quit`.
    Quit(ReplyText),
}

/// What a need is answered.
#[derive(Drop)]
pub enum Answer {
    Steps(Shared<StepList<Packed>>),
    Value(Shared<ValueAnswer>),
    Names(Items<u64>),
    Find(Found<Packed>),
    /// The reply was given.
    Replied,
    /// There was no memory.
    Memory,
}
