ghost use Rattle.engine_face.specs.Keys.{same_bytes};
ghost use Rattle.engine_face.specs.StoreLaws.{IsWithin};
ghost use Rattle.engine_face.specs.Stores.{Store, empty_store, found, looked, put_in, without};
ghost use Rattle.std.specs.List.{IsDistinct};
ghost use Rattle.std.specs.Map.{keys_of};
ghost use Rattle.std.specs.Prelude.{◌≡◌, ◌+◌, ◌≤◌, ◌<◌, IfOk, OnErr, OnOk, IsSome, length};

use engine_face::{Packed, StepList};
use lru::LruCache;
use shared::Shared;
use std::alloc::{AllocError, Global};
use std::marker::Model;
use std::num::NonZeroUsize;

/// The lists of the states that were asked for last, and how often a list wasn't there.
#[derive(Drop)]
pub struct StepStore {
    cache: LruCache<Packed, Shared<StepList<Packed>>>,
    misses: u64,
}

impl Model for StepStore {
    ghost use Rattle.engine_face.specs.Stores.{Store, coded_store};
    ghost use Rattle.engine_face.specs.contracts.answers.StepList as list;
    ghost use Rattle.engine_face.specs.contracts.packed.Packed as packed;
    ghost use Rattle.engine_face.specs.declared.answers.StepList.{StepList};
    ghost use Rattle.std.specs.Coded.{coded_list, coded_ℕ};
    ghost use Rattle.std.specs.Prelude.{List, ℕ};

    ghost Value = { Store (List ℕ) (StepList (List ℕ)) };

    ghost coded = { coded_store (coded_list coded_ℕ) (list.the_row packed.the_row).coded };

    ghost view = { λ s. record { entries = s.cache.entries; capacity = s.cache.cap; misses = s.misses } };
}

impl StepStore {
    /// A store without entries. It takes memory as its entries come.
    pub fn new(alloc: Global, capacity: u64) -> Result<StepStore, AllocError>
        requires { 0 < capacity }
        ensures { IfOk result (λ s. s ≡ empty_store capacity) }
    {
        match NonZeroUsize::new(capacity as usize) {
            None => unreachable!(),
            Some(room) => Ok(StepStore {
                cache: LruCache::sparse(alloc, room)?,
                misses: 0,
            }),
        }
    }

    /// The list of a state, whose entry is then the most recently used. A state that isn't there is a miss, and is
    /// answered without memory; want of memory comes at a hit, which then counts as a use too.
    pub fn look(&mut self, at: &Packed) -> Result<Option<Shared<StepList<Packed>>>, AllocError>
        ensures found { IfOk result (λ list. list ≡ found same_bytes self.old at.now) }
        ensures looked { self.new ≡ looked same_bytes self.old at.now }
        ensures misses { (self.old.misses ≤ self.new.misses) × (self.new.misses ≤ self.old.misses + 1) }
        ensures err { OnErr result (IsSome (found same_bytes self.old at.now)) }
    {
        match self.cache.get(at) {
            Some(list) => Ok(Some(list.share()?)),
            None => {
                self.misses = self.misses.saturating_add(1);
                Ok(None)
            }
        }
    }

    /// Keeps the list of a state, whose entry is then the most recently used. Where the state isn't there, a full
    /// store drops its least recently used entry.
    pub fn put(&mut self, at: Packed, list: Shared<StepList<Packed>>) -> Result<(), AllocError>
        ensures kept { OnOk result (self.new ≡ put_in same_bytes self.old at list) }
        ensures err { OnErr result (self.new ≡ self.old) }
    {
        self.cache.put(at, list)?;
        Ok(())
    }

    /// Takes the entry of a state out, if it is there.
    pub fn evict(&mut self, at: &Packed)
        ensures { self.new ≡ without same_bytes self.old at.now }
    {
        let _ = self.cache.pop_entry(at);
    }

    pub fn misses(&self) -> u64
        ensures { result ≡ self.now.misses }
    {
        self.misses
    }

    /// The number of entries: at most the capacity, and no two of one state.
    pub fn len(&self) -> u64
        ensures length { result ≡ length self.now.entries }
        ensures within { IsWithin self.now }
        ensures distinct { IsDistinct same_bytes (keys_of self.now.entries) }
    {
        self.cache.len() as u64
    }
}
