// What is listed by hand.
use b_values::{EvalFault, OpId};
use engine_face::ListEnd;
use sqlite_items::Items;

/// A state of a table. They are numbered from 0, and behind root the variable is the state's number.
#[derive(Clone, Copy, Debug, PartialEq, Eq)]
pub enum TableState {
    Root,
    A,
    B,
    C,
    D,
}

/// What may be offered. No operation of a table has parameters or results.
#[derive(Clone, Copy, Debug, PartialEq, Eq)]
pub enum TableOp {
    Setup,
    Init,
    Up,
    Down,
}

/// The steps of an operation, by the states behind them.
#[derive(Debug, Drop)]
pub struct TableList {
    pub op: TableOp,
    pub to: Items<TableState>,
    pub end: ListEnd,
}

/// What a search is answered.
#[derive(Clone, Copy, Debug, PartialEq, Eq)]
pub enum Listed {
    To(TableState),
    Nothing,
    Fault(EvalFault),
}

/// What a search for a step of an operation is answered, whatever its predicates are.
#[derive(Clone, Copy, Debug, PartialEq, Eq)]
pub struct Finding {
    pub op: OpId,
    pub listed: Listed,
}

/// A saved step by its operation's name, and the step that confirms it.
#[derive(Debug, Drop)]
pub struct Confirming {
    pub name: Items<u8>,
    pub op: TableOp,
    pub to: TableState,
}

/// What a state answers. Of what isn't listed there is no step.
#[derive(Debug, Drop)]
pub struct Row {
    pub lists: Items<TableList>,
    pub finds: Items<Finding>,
    pub confirms: Items<Confirming>,
}

/// What a formula is in a state. A predicate has no number.
#[derive(Clone, Copy, Debug, PartialEq, Eq)]
pub enum Answered {
    NotInitialised,
    Fault(EvalFault),
    Truth(bool),
    Number(u64),
}

/// A formula that is accepted, and its answers, by the number of the state. It isn't initialised where none is listed.
#[derive(Debug, Drop)]
pub struct FormulaRow {
    pub text: Items<u8>,
    pub predicate: bool,
    pub answers: Items<Answered>,
}
