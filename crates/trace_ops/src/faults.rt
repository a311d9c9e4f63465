// Why a trace stays as it is.

/// Why the position stays.
#[derive(Clone, Copy, Debug, PartialEq, Eq)]
pub enum MoveFault {
    /// Back from position 0.
    AtStart,
    /// Forward from the last step.
    AtEnd,
    /// To a position behind the last step.
    NoPosition,
}

/// Why a step isn't added. The step is given back.
#[derive(Debug, Drop)]
pub enum AddFault<S> {
    /// The position is 10,000.
    TraceFull(S),
    Memory(S),
}
