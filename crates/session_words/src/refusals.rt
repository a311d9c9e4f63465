// Why a command is refused.
use b_values::EvalFault;

/// Why a command is refused. Each leaves the session as it was.
#[derive(Clone, Copy, Debug, PartialEq, Eq)]
pub enum Refusal {
    /// A line of more than 65,536 bytes before its LF.
    LineTooLong,
    /// The line is no command.
    NoCommand,
    /// A step back at the start of the trace.
    AtStart,
    /// A step forward at its end.
    AtEnd,
    /// A jump past its end.
    NoPosition,
    /// A state that this session wasn't shown.
    NotShown,
    NoSub,
    NoKept,
    NoEvent,
    /// 64 traces are kept.
    KeptFull,
    UnknownName,
    Syntax,
    WrongType,
    /// There are 64 subscriptions.
    SubsFull,
    /// A document that wasn't there or passes its limit, or a call of the cabinet that failed.
    Document,
    /// A document that is no trace.
    TraceFile,
    /// The entry of this number, from 1, has a text after its step that isn't accepted.
    PostForm(u64),
    NotInitialised,
    /// The formula, a predicate or a step has this fault.
    Fault(EvalFault),
    /// The step isn't listed, or none was found.
    NoStep,
    /// The trace would pass 10,000 steps.
    TraceFull,
    /// The entry of this number, from 1, is confirmed by no step.
    NotAStep(u64),
    /// Memory ran out.
    Memory,
}
