ghost use Rattle.std.specs.Prelude.{◌≡◌, ◌≤◌, length, option_copied, IfOk};
ghost use Rattle.trace_ops.specs.Traces.{untouched, current, back, forward, jump, Adds, Moves};

use crate::faults::{AddFault, MoveFault};
use crate::share::Share;
use std::alloc::{AllocError, Global};
use std::marker::Model;

/// The greatest position.
pub const MOST_STEPS: usize = 10_000;

/// Steps in their order and a position, the number of those that were taken. Contracts see a record of both.
#[derive(Debug, Drop)]
pub struct Trace<S> {
    steps: Vec<S>,
    position: usize,
}

impl<S> Model for Trace<S> {
    ghost use Rattle.std.specs.Prelude.{◌≤◌, vec_len};
    ghost use Rattle.trace_ops.specs.Histories.{History, history_code};

    ghost Value = { History S };

    ghost coded = { history_code S.code };

    ghost view = { λ t. record { steps = t.steps.items; position = t.position } };

    ghost invariant = { λ t. t.position ≤ vec_len t.steps };
}

impl<S> Trace<S> {
    /// No steps, and position 0. It takes no memory.
    pub fn new(alloc: Global) -> Trace<S>
        ensures { result ≡ untouched }
    {
        Trace {
            steps: Vec::new(alloc),
            position: 0,
        }
    }

    pub fn position(&self) -> u64
        ensures { result ≡ self.now.position }
    {
        self.position as u64
    }

    /// All steps, also those behind the position.
    pub fn steps(&self) -> &[S]
        ensures steps { result.now ≡ self.now.steps }
        ensures within { self.now.position ≤ length result.now }
    {
        self.steps.as_slice()
    }

    /// The last step that was taken.
    pub fn current(&self) -> Option<&S>
        ensures { option_copied result ≡ current self.now }
    {
        match self.position.checked_sub(1) {
            Some(at) => self.steps.get(at),
            None => None,
        }
    }
}

impl<S: Drop> Trace<S> {
    /// One step back. It takes no memory.
    pub fn back(&mut self) -> Result<(), MoveFault>
        ensures { Moves self.old (back self.old) self.new result }
    {
        if self.position == 0 {
            return Err(MoveFault::AtStart);
        }
        self.position -= 1;
        Ok(())
    }

    /// One step forward. It takes no memory.
    pub fn forward(&mut self) -> Result<(), MoveFault>
        ensures { Moves self.old (forward self.old) self.new result }
    {
        if self.position == self.steps.len() {
            return Err(MoveFault::AtEnd);
        }
        self.position += 1;
        Ok(())
    }

    /// To a position. It takes no memory.
    pub fn jump(&mut self, n: u64) -> Result<(), MoveFault>
        ensures { Moves self.old (jump n self.old) self.new result }
    {
        if n > self.steps.len() as u64 {
            return Err(MoveFault::NoPosition);
        }
        self.position = n as usize;
        Ok(())
    }

    /// Drops the steps behind the position, adds the step and goes to it. After a fault the trace is as it was.
    pub fn add(&mut self, step: S) -> Result<(), AddFault<S>>
        ensures { Adds self.old step self.new result }
    {
        if self.position >= MOST_STEPS {
            return Err(AddFault::TraceFull(step));
        }
        if self.position < self.steps.len() {
            self.steps[self.position] = step;
            self.steps.truncate(self.position + 1);
        } else if let Err(failed) = self.steps.push(step) {
            return Err(AddFault::Memory(failed.value));
        }
        self.position += 1;
        Ok(())
    }
}

impl<S: Share + Drop> Trace<S> {
    /// The same trace again, whose steps share the parts of these.
    pub fn copy(&self, alloc: Global) -> Result<Trace<S>, AllocError>
        ensures { IfOk result (λ copy. copy ≡ self.now) }
    {
        let mut steps = Vec::with_capacity(alloc, self.steps.len())?;
        for step in &self.steps {
            steps.push(step.share()?)?;
        }
        Ok(Trace {
            steps,
            position: self.position,
        })
    }
}
