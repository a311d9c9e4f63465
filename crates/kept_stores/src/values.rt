ghost use Rattle.engine_face.specs.Stores.{empty_store, found, looked};
ghost use Rattle.kept_stores.specs.Truth.{AreTrueValues, missed};
ghost use Rattle.std.specs.Prelude.{◌≡◌, ◌<◌, IfOk, IfSome};
ghost use Rattle.turn_lock.specs.Histories.{GrowsByOne};
ghost use Rattle.turn_lock.specs.Turns.{IsPassOf, known, tag_of};
ghost use Rattle.value_cache.specs.Keys.{same_key};
ghost use Rattle.value_cache.specs.Truth.{IsTrueValue};

use engine_face::{Engine, ValueAnswer};
use shared::Shared;
use std::alloc::{AllocError, Global};
use std::snapshot::Snapshot;
use std::sync::Wait;
use turn_lock::{Kept, Pass, Turn};
use value_cache::{ValueKey, ValueStore};

/// A store of values under a turn. Its history has an empty entry for each miss.
#[derive(Drop)]
pub struct KeptValues<E: Engine> {
    store: ValueStore,
    of: Snapshot<E>,
}

impl<E: Engine> Kept for KeptValues<E> {
    type Tag = E;

    type Entry = ();

    ghost tag = { λ kept. kept.of.value };

    ghost fits = { λ engine kept. (kept.of.value ≡ engine) × AreTrueValues (E.meaning kept.of.value) (E.unpack kept.of.value) kept.store };

    ghost history = { λ kept. missed kept.store.misses };

    fn length(&self) -> u64 {
        self.store.misses()
    }
}

impl<E: Engine> KeptValues<E> {
    /// An empty store for the machine of this engine.
    pub fn new(alloc: Global, engine: &E, capacity: u64) -> Result<KeptValues<E>, AllocError>
        requires { 0 < capacity }
        ensures of { IfOk result (λ kept. kept.of.value ≡ engine.now) }
        ensures store { IfOk result (λ kept. kept.store ≡ empty_store capacity) }
        ensures truth { IfOk result (λ kept. AreTrueValues (E.meaning kept.of.value) (E.unpack kept.of.value) kept.store) }
    {
        let store = ValueStore::new(alloc, capacity)?;
        let of = Snapshot::of(engine);
        Ok(KeptValues { store, of })
    }

    fn look(&mut self, key: &ValueKey) -> Result<Option<Shared<ValueAnswer>>, AllocError>
        requires { AreTrueValues (E.meaning self.old.of.value) (E.unpack self.old.of.value) self.old.store }
        ensures of { self.new.of ≡ self.old.of }
        ensures looked { self.new.store ≡ looked same_key self.old.store key.now }
        ensures truth { AreTrueValues (E.meaning self.new.of.value) (E.unpack self.new.of.value) self.new.store }
        ensures value { IfOk result (λ found. IfSome found (IsTrueValue (E.meaning self.old.of.value) (E.unpack self.old.of.value) key.now)) }
        ensures grows { GrowsByOne (missed self.old.store.misses) (missed self.new.store.misses) }
        ensures found { IfOk result (λ value. value ≡ found same_key self.old.store key.now) }
    {
        let value = self.store.look(key);
        self.store.len();
        value
    }

    fn put(&mut self, key: ValueKey, value: Shared<ValueAnswer>) -> bool
        requires store { AreTrueValues (E.meaning self.old.of.value) (E.unpack self.old.of.value) self.old.store }
        requires value { IsTrueValue (E.meaning self.old.of.value) (E.unpack self.old.of.value) key value }
        ensures of { self.new.of ≡ self.old.of }
        ensures truth { AreTrueValues (E.meaning self.new.of.value) (E.unpack self.new.of.value) self.new.store }
        ensures misses { self.new.store.misses ≡ self.old.store.misses }
    {
        let kept = self.store.put(key, value).is_ok();
        self.store.len();
        kept
    }

    /// Looks for a value under the turn.
    pub fn look_under<W: Wait>(
        rt: &W,
        turn: &Turn<KeptValues<E>>,
        pass: &mut Pass<KeptValues<E>>,
        key: &ValueKey,
    ) -> Result<Option<Shared<ValueAnswer>>, AllocError>
        requires { IsPassOf turn.now pass.old }
        ensures turn { IsPassOf turn.now pass.new × ((known pass.new).shares ≡ (known pass.old).shares) }
        ensures value { IfOk result (λ found. IfSome found (IsTrueValue (E.meaning (tag_of (λ kept. kept.of.value) turn.now)) (E.unpack (tag_of (λ kept. kept.of.value) turn.now)) key.now)) }
    {
        turn.hold(
            rt,
            pass,
            move |kept: &mut KeptValues<E>| -> Result<Option<Shared<ValueAnswer>>, AllocError>
                requires { AreTrueValues (E.meaning kept.old.of.value) (E.unpack kept.old.of.value) kept.old.store }
            { kept.look(key) },
        )
    }

    /// Puts a value under the turn, and says whether there was memory for it.
    pub fn put_under<W: Wait>(
        rt: &W,
        turn: &Turn<KeptValues<E>>,
        pass: &mut Pass<KeptValues<E>>,
        key: ValueKey,
        value: Shared<ValueAnswer>,
    ) -> bool
        requires turn { IsPassOf turn.now pass.old }
        requires value { IsTrueValue (E.meaning (tag_of (λ kept. kept.of.value) turn.now)) (E.unpack (tag_of (λ kept. kept.of.value) turn.now)) key value }
        ensures turn { IsPassOf turn.now pass.new × ((known pass.new).shares ≡ (known pass.old).shares) }
        ensures own { (known pass.new).own ≡ (known pass.old).own }
    {
        turn.hold(
            rt,
            pass,
            move |kept: &mut KeptValues<E>| -> bool
                requires store { AreTrueValues (E.meaning kept.old.of.value) (E.unpack kept.old.of.value) kept.old.store }
                requires value { IsTrueValue (E.meaning kept.old.of.value) (E.unpack kept.old.of.value) key value }
            { kept.put(key, value) },
        )
    }
}
