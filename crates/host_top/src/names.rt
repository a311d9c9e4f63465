// The host's one list of states.
ghost use Rattle.std.specs.Prelude.{◌≡◌, [], ◌∷◌, length, OnOk, OnErr, IfOk, slice_get};
ghost use Rattle.std.specs.Option.{option_copied};
ghost use Rattle.b_values.specs.declared.values.State.TheVariants.{Root};
ghost use Rattle.animator.specs.Names.{place, IsNamed, AreDistinct, Extends};
ghost use Rattle.host_top.specs.Placed.{with_state};

use b_values::{State, same_state};
use sqlite_items::Items;
use std::alloc::{AllocError, Global};
use std::marker::Model;

/// The numbered states: a state's number is its place.
#[derive(Drop)]
pub struct Names {
    states: Items<State>,
}

impl Model for Names {
    ghost use Rattle.std.specs.Prelude.{List};
    ghost use Rattle.b_values.specs.declared.values.State.{State};
    ghost use Rattle.b_values.specs.contracts.values.Value as value;
    ghost use Rattle.std.specs.Coded.{codes};
    ghost use Rattle.host_top.specs.Placed.{ArePlaced};

    ghost Value = { List State };

    ghost coded = { Prim.hlevel (codes, value.the_row.coded) };

    ghost view = { λ names. names.states };

    ghost invariant = { λ names. ArePlaced names.states };
}

impl Names {
    /// The list without any state.
    pub fn none(alloc: Global) -> Names
        ensures { result ≡ [] }
    {
        Names {
            states: Items::new(alloc),
        }
    }

    /// The list of root alone.
    pub fn new(alloc: Global) -> Result<Names, AllocError>
        ensures { IfOk result (λ names. names ≡ Root ∷ []) }
    {
        let mut states = Items::new(alloc);
        states.push(State::Root)?;
        Ok(Names { states })
    }

    /// The number of states. No state stands in the list twice.
    pub fn len(&self) -> u64
        ensures length { result ≡ length self.now }
        ensures distinct { AreDistinct self.now }
    {
        self.states.len() as u64
    }

    /// The state of that number: None exactly at `len()` and above.
    pub fn get(&self, id: u64) -> Option<&State>
        ensures { option_copied result ≡ slice_get self.now id }
    {
        self.states.get(id as usize)
    }

    /// The number of a state. A state that is there keeps its number; another goes last.
    pub fn name(&mut self, alloc: Global, state: &State) -> Result<u64, AllocError>
        ensures named { OnOk result (IsNamed self.new state.now) }
        ensures number { IfOk result (λ n. n ≡ place self.new state.now) }
        ensures extends { Extends self.old self.new }
        ensures exact { OnOk result (self.new ≡ with_state self.old state.now) }
        ensures same { OnErr result (self.new ≡ self.old) }
    {
        let number = place_in(self.states.as_slice(), state);
        if number == self.states.len() {
            self.states.push(state.copy(alloc)?)?;
        }
        Ok(number as u64)
    }
}

fn place_in(names: &[State], state: &State) -> usize
    ensures { result ≡ place names.now state.now }
{
    for (at, name) in names.iter().enumerate() {
        if same_state(name, state) {
            return at;
        }
    }
    names.len()
}
