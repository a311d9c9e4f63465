// A running session: its trace, whose steps keep the numbers of their states.
ghost use Rattle.std.specs.Prelude.{◌≡◌, ◌≤◌, ◌<◌, [], List, length, IfOk, OnOk, vec_len, vec_capacity};
ghost use Rattle.std.specs.Option.{option_copied};
ghost use Rattle.b_values.specs.declared.values.State.{State};
ghost use Rattle.animator.specs.Names.{place, IsNamed};
ghost use Rattle.animator.specs.Replies.{fresh, current, state_at, added};
ghost use Rattle.host_top.specs.Machines.{lists_of};
ghost use Rattle.host_top.specs.Sessions.{session_of, shown_before, HasNumber, IsNumbered};

use crate::machine::Machine;
use animator::{OpList, Step};
use b_values::State;
use sqlite_items::Items;
use std::alloc::{AllocError, Global};

/// A step of a trace, and the number with which its state was shown.
#[derive(Debug, Drop)]
pub struct ShownStep {
    pub step: Step,
    pub number: u64,
}

/// The steps of a session's trace and its position.
#[derive(Debug, Drop)]
pub struct Running {
    pub steps: Vec<ShownStep>,
    pub position: usize,
}

impl Running {
    /// A session that has done nothing.
    pub fn new(alloc: Global) -> Running
        ensures session { session_of result ≡ fresh }
        ensures steps { result.steps.items ≡ [] }
        ensures position { result.position ≡ 0 }
    {
        Running {
            steps: Vec::new(alloc),
            position: 0,
        }
    }

    /// The step that leads to a position: None at root.
    pub fn step_before(&self, position: usize) -> Option<&ShownStep>
        ensures { option_copied result ≡ shown_before self.now.steps.items position }
    {
        if position == 0 {
            return None;
        }
        sqlite_items::at(self.steps.as_slice(), position - 1)
    }

    /// The number of the state at a position.
    pub fn number_at(&self, position: usize) -> u64
        requires { position ≤ length self.now.steps.items }
        ensures { (names : List State) → IsNumbered names self.now → IsNamed names (state_at (session_of self.now).steps position) × (result ≡ place names (state_at (session_of self.now).steps position)) }
    {
        match self.step_before(position) {
            Some(shown) => shown.number,
            None => 0,
        }
    }

    /// The lists that the current state offers.
    pub fn lists(&self, alloc: Global, machine: &Machine) -> Result<Items<OpList>, AllocError>
        ensures { IfOk result (λ lists. lists ≡ lists_of machine.now (current (session_of self.now))) }
    {
        match self.step_before(self.position) {
            Some(shown) => machine.expand(alloc, &shown.step.dest),
            None => {
                let root = State::Root;
                machine.expand(alloc, &root)
            }
        }
    }

    /// Takes the room for one more step, and changes nothing that is seen.
    pub fn reserve(&mut self) -> Result<(), AllocError>
        ensures items { self.new.steps.items ≡ self.old.steps.items }
        ensures position { self.new.position ≡ self.old.position }
        ensures room { OnOk result (vec_len self.new.steps < vec_capacity self.new.steps) }
    {
        self.steps.reserve(1)
    }

    /// Keeps the steps up to the position, adds this one and goes to it. The room was taken before.
    pub fn add(&mut self, shown: ShownStep)
        requires room { vec_len self.old.steps < vec_capacity self.old.steps }
        requires within { self.old.position ≤ length self.old.steps.items }
        ensures session { session_of self.new ≡ added (session_of self.old) shown.step }
        ensures numbered { (names : List State) → IsNumbered names self.old → HasNumber names shown → IsNumbered names self.new }
    {
        self.steps.truncate(self.position);
        self.steps.push_reserved(shown);
        self.position += 1;
    }
}
