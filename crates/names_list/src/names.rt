ghost use Rattle.names_list.specs.Naming.{AreDistinct, place, with_state};
ghost use Rattle.std.specs.Option.{option_copied};
ghost use Rattle.std.specs.Prelude.{◌≡◌, [], ◌∷◌, ◌<◌, length, IfOk, OnErr, OnOk, slice_get};

use engine_face::Packed;
use indexmap::IndexSet;
use std::alloc::{AllocError, Global};
use std::marker::Model;

/// The numbered states: a state's number is its place.
#[derive(Drop)]
pub struct Names {
    states: IndexSet<Packed>,
}

impl Model for Names {
    ghost use Rattle.std.specs.Coded.{coded_list, coded_ℕ};
    ghost use Rattle.std.specs.Prelude.{List, ℕ};

    ghost Value = { List (List ℕ) };

    ghost coded = { coded_list (coded_list coded_ℕ) };

    ghost view = { λ n. n.states.keys };
}

impl Names {
    /// The list without any state.
    pub fn none(alloc: Global) -> Names
        ensures { result ≡ [] }
    {
        Names {
            states: IndexSet::new(alloc),
        }
    }

    /// The list of root alone.
    pub fn new(alloc: Global, root: Packed) -> Result<Names, AllocError>
        ensures { IfOk result (λ names. names ≡ root ∷ []) }
    {
        let mut states = IndexSet::new(alloc);
        let _ = states.insert_full(root)?;
        Ok(Names { states })
    }

    /// The number of states. No state stands in the list twice.
    pub fn len(&self) -> u64
        ensures length { result ≡ length self.now }
        ensures distinct { AreDistinct self.now }
    {
        self.states.len() as u64
    }

    /// The state of that number: none exactly at `len()` and above.
    pub fn get(&self, id: u64) -> Option<&Packed>
        ensures { option_copied result ≡ slice_get self.now id }
    {
        self.states.get_index(id as usize)
    }

    /// The number of a state. A state that is there keeps its number; another goes last.
    pub fn name(&mut self, state: Packed) -> Result<u64, AllocError>
        requires { 0 < length self.old }
        ensures exact { OnOk result (self.new ≡ with_state self.old state) }
        ensures number { IfOk result (λ n. n ≡ place self.new state) }
        ensures within { IfOk result (λ n. n < length self.new) }
        ensures distinct { AreDistinct self.new }
        ensures err { OnErr result (self.new ≡ self.old) }
    {
        let (number, _) = self.states.insert_full(state)?;
        Ok(number as u64)
    }
}
