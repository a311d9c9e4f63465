ghost use Rattle.engine_face.specs.Answers.{IsStepList};
ghost use Rattle.engine_face.specs.Keys.{same_bytes};
ghost use Rattle.engine_face.specs.Stores.{empty_store, found, looked};
ghost use Rattle.kept_stores.specs.Truth.{AreTrueSteps, missed};
ghost use Rattle.std.specs.Prelude.{◌≡◌, ◌<◌, IfOk, IfSome};
ghost use Rattle.turn_lock.specs.Histories.{GrowsByOne};
ghost use Rattle.turn_lock.specs.Turns.{IsPassOf, known, tag_of};

use engine_face::{Engine, Packed, StepList};
use shared::Shared;
use std::alloc::{AllocError, Global};
use std::snapshot::Snapshot;
use std::sync::Wait;
use step_cache::StepStore;
use turn_lock::{Kept, Pass, Turn};

/// A store of lists under a turn. Its history has an empty entry for each miss.
#[derive(Drop)]
pub struct KeptSteps<E: Engine> {
    store: StepStore,
    of: Snapshot<E>,
}

impl<E: Engine> Kept for KeptSteps<E> {
    type Tag = E;

    type Entry = ();

    ghost tag = { λ kept. kept.of.value };

    ghost fits = { λ engine kept. (kept.of.value ≡ engine) × AreTrueSteps (E.meaning kept.of.value) (E.unpack kept.of.value) kept.store };

    ghost history = { λ kept. missed kept.store.misses };

    fn length(&self) -> u64 {
        self.store.misses()
    }
}

impl<E: Engine> KeptSteps<E> {
    /// An empty store for the machine of this engine.
    pub fn new(alloc: Global, engine: &E, capacity: u64) -> Result<KeptSteps<E>, AllocError>
        requires { 0 < capacity }
        ensures of { IfOk result (λ kept. kept.of.value ≡ engine.now) }
        ensures store { IfOk result (λ kept. kept.store ≡ empty_store capacity) }
        ensures truth { IfOk result (λ kept. AreTrueSteps (E.meaning kept.of.value) (E.unpack kept.of.value) kept.store) }
    {
        let store = StepStore::new(alloc, capacity)?;
        let of = Snapshot::of(engine);
        Ok(KeptSteps { store, of })
    }

    fn look(&mut self, at: &Packed) -> Result<Option<Shared<StepList<Packed>>>, AllocError>
        requires { AreTrueSteps (E.meaning self.old.of.value) (E.unpack self.old.of.value) self.old.store }
        ensures of { self.new.of ≡ self.old.of }
        ensures looked { self.new.store ≡ looked same_bytes self.old.store at.now }
        ensures truth { AreTrueSteps (E.meaning self.new.of.value) (E.unpack self.new.of.value) self.new.store }
        ensures list { IfOk result (λ found. IfSome found (IsStepList (E.meaning self.old.of.value) (E.unpack self.old.of.value) at.now)) }
        ensures grows { GrowsByOne (missed self.old.store.misses) (missed self.new.store.misses) }
        ensures found { IfOk result (λ list. list ≡ found same_bytes self.old.store at.now) }
    {
        let list = self.store.look(at);
        self.store.len();
        list
    }

    fn put(&mut self, at: Packed, list: Shared<StepList<Packed>>) -> bool
        requires store { AreTrueSteps (E.meaning self.old.of.value) (E.unpack self.old.of.value) self.old.store }
        requires list { IsStepList (E.meaning self.old.of.value) (E.unpack self.old.of.value) at list }
        ensures of { self.new.of ≡ self.old.of }
        ensures truth { AreTrueSteps (E.meaning self.new.of.value) (E.unpack self.new.of.value) self.new.store }
        ensures misses { self.new.store.misses ≡ self.old.store.misses }
    {
        let kept = self.store.put(at, list).is_ok();
        self.store.len();
        kept
    }

    /// Looks for the list of a state under the turn.
    pub fn look_under<W: Wait>(
        rt: &W,
        turn: &Turn<KeptSteps<E>>,
        pass: &mut Pass<KeptSteps<E>>,
        at: &Packed,
    ) -> Result<Option<Shared<StepList<Packed>>>, AllocError>
        requires { IsPassOf turn.now pass.old }
        ensures turn { IsPassOf turn.now pass.new × ((known pass.new).shares ≡ (known pass.old).shares) }
        ensures list { IfOk result (λ found. IfSome found (IsStepList (E.meaning (tag_of (λ kept. kept.of.value) turn.now)) (E.unpack (tag_of (λ kept. kept.of.value) turn.now)) at.now)) }
    {
        turn.hold(
            rt,
            pass,
            move |kept: &mut KeptSteps<E>| -> Result<Option<Shared<StepList<Packed>>>, AllocError>
                requires { AreTrueSteps (E.meaning kept.old.of.value) (E.unpack kept.old.of.value) kept.old.store }
            { kept.look(at) },
        )
    }

    /// Puts the list of a state under the turn, and says whether there was memory for it.
    pub fn put_under<W: Wait>(
        rt: &W,
        turn: &Turn<KeptSteps<E>>,
        pass: &mut Pass<KeptSteps<E>>,
        at: Packed,
        list: Shared<StepList<Packed>>,
    ) -> bool
        requires turn { IsPassOf turn.now pass.old }
        requires list { IsStepList (E.meaning (tag_of (λ kept. kept.of.value) turn.now)) (E.unpack (tag_of (λ kept. kept.of.value) turn.now)) at list }
        ensures turn { IsPassOf turn.now pass.new × ((known pass.new).shares ≡ (known pass.old).shares) }
        ensures own { (known pass.new).own ≡ (known pass.old).own }
    {
        turn.hold(
            rt,
            pass,
            move |kept: &mut KeptSteps<E>| -> bool
                requires store { AreTrueSteps (E.meaning kept.old.of.value) (E.unpack kept.old.of.value) kept.old.store }
                requires list { IsStepList (E.meaning kept.old.of.value) (E.unpack kept.old.of.value) at list }
            { kept.put(at, list) },
        )
    }
}
