ghost use Rattle.engine_face.specs.StoreLaws.{IsWithin};
ghost use Rattle.engine_face.specs.Stores.{Store, empty_store, found, looked, put_in, without};
ghost use Rattle.value_cache.specs.Keys.{same_key};
ghost use Rattle.std.specs.List.{IsDistinct};
ghost use Rattle.std.specs.Map.{keys_of};
ghost use Rattle.std.specs.Prelude.{◌≡◌, ◌+◌, ◌≤◌, ◌<◌, IfOk, OnErr, OnOk, IsSome, length};

use engine_face::{FormulaKey, Packed, ValueAnswer};
use lru::LruCache;
use shared::Shared;
use std::alloc::{AllocError, Global};
use std::marker::Model;
use std::num::NonZeroUsize;

/// A formula in a state.
#[derive(Debug, Drop, PartialEq, Eq, Hash)]
pub struct ValueKey {
    pub at: Packed,
    pub key: FormulaKey,
}

impl ValueKey {
    /// The same key. It copies nothing.
    pub fn share(&self) -> Result<ValueKey, AllocError>
        ensures { IfOk result (λ key. key ≡ self.now) }
    {
        Ok(ValueKey {
            at: self.at.share()?,
            key: self.key.share()?,
        })
    }
}

/// The values that were asked for last, and how often one wasn't there.
#[derive(Drop)]
pub struct ValueStore {
    cache: LruCache<ValueKey, Shared<ValueAnswer>>,
    misses: u64,
}

impl Model for ValueStore {
    ghost use Rattle.engine_face.specs.Stores.{Store, coded_store};
    ghost use Rattle.engine_face.specs.contracts.answers.ValueAnswer as answer;
    ghost use Rattle.engine_face.specs.declared.answers.ValueAnswer.{ValueAnswer};
    ghost use Rattle.value_cache.specs.contracts.store.ValueKey as key;
    ghost use Rattle.value_cache.specs.declared.store.ValueKey.{ValueKey};

    ghost Value = { Store ValueKey ValueAnswer };

    ghost coded = { coded_store key.the_row.coded answer.the_row.coded };

    ghost view = { λ s. record { entries = s.cache.entries; capacity = s.cache.cap; misses = s.misses } };
}

impl ValueStore {
    /// A store without entries. It takes memory as its entries come.
    pub fn new(alloc: Global, capacity: u64) -> Result<ValueStore, AllocError>
        requires { 0 < capacity }
        ensures { IfOk result (λ s. s ≡ empty_store capacity) }
    {
        match NonZeroUsize::new(capacity as usize) {
            None => unreachable!(),
            Some(room) => Ok(ValueStore {
                cache: LruCache::sparse(alloc, room)?,
                misses: 0,
            }),
        }
    }

    /// The value at a key, whose entry is then the most recently used. A key that isn't there is a miss, and is
    /// answered without memory; want of memory comes at a hit, which then counts as a use too.
    pub fn look(&mut self, key: &ValueKey) -> Result<Option<Shared<ValueAnswer>>, AllocError>
        ensures found { IfOk result (λ answer. answer ≡ found same_key self.old key.now) }
        ensures looked { self.new ≡ looked same_key self.old key.now }
        ensures misses { (self.old.misses ≤ self.new.misses) × (self.new.misses ≤ self.old.misses + 1) }
        ensures err { OnErr result (IsSome (found same_key self.old key.now)) }
    {
        match self.cache.get(key) {
            Some(answer) => Ok(Some(answer.share()?)),
            None => {
                self.misses = self.misses.saturating_add(1);
                Ok(None)
            }
        }
    }

    /// Keeps the value at a key, whose entry is then the most recently used. Where the key isn't there, a full
    /// store drops its least recently used entry.
    pub fn put(&mut self, key: ValueKey, answer: Shared<ValueAnswer>) -> Result<(), AllocError>
        ensures kept { OnOk result (self.new ≡ put_in same_key self.old key answer) }
        ensures err { OnErr result (self.new ≡ self.old) }
    {
        self.cache.put(key, answer)?;
        Ok(())
    }

    /// Takes the entry of a key out, if it is there.
    pub fn evict(&mut self, key: &ValueKey)
        ensures { self.new ≡ without same_key self.old key.now }
    {
        let _ = self.cache.pop_entry(key);
    }

    pub fn misses(&self) -> u64
        ensures { result ≡ self.now.misses }
    {
        self.misses
    }

    /// The number of entries: at most the capacity, and no two of one key.
    pub fn len(&self) -> u64
        ensures length { result ≡ length self.now.entries }
        ensures within { IsWithin self.now }
        ensures distinct { IsDistinct same_key (keys_of self.now.entries) }
    {
        self.cache.len() as u64
    }
}
