ghost use Rattle.engine_face.specs.Packing.{IsPacked};
ghost use Rattle.kept_stores.specs.Truth.{HasNumber};
ghost use Rattle.names_list.specs.Naming.{AreTrueNames, place, with_state};
ghost use Rattle.std.specs.Prelude.{◌≡◌, drop, length, IfOk, OnErr, OnOk};
ghost use Rattle.turn_lock.specs.Histories.{GrowsByOne};
ghost use Rattle.turn_lock.specs.Turns.{IsPassOf, known, tag_of};

use engine_face::{Engine, Packed};
use names_list::Names;
use std::alloc::{AllocError, Global};
use std::snapshot::Snapshot;
use std::sync::Wait;
use turn_lock::{Kept, Pass, Turn};

/// The names under a turn. Their history is the states behind root.
#[derive(Drop)]
pub struct KeptNames<E: Engine> {
    names: Names,
    of: Snapshot<E>,
}

impl<E: Engine> Kept for KeptNames<E> {
    type Tag = E;

    type Entry = Packed;

    ghost tag = { λ kept. kept.of.value };

    ghost fits = { λ engine kept. (kept.of.value ≡ engine) × AreTrueNames (E.meaning kept.of.value) (E.unpack kept.of.value) kept.names };

    ghost history = { λ kept. drop 1 kept.names };

    fn length(&self) -> u64 {
        self.names.len().saturating_sub(1)
    }
}

impl<E: Engine> KeptNames<E> {
    /// The list of root alone, for the machine of this engine.
    pub fn new(alloc: Global, engine: &E) -> Result<KeptNames<E>, AllocError>
        ensures of { IfOk result (λ kept. kept.of.value ≡ engine.now) }
        ensures alone { IfOk result (λ kept. length kept.names ≡ 1) }
        ensures truth { IfOk result (λ kept. AreTrueNames (E.meaning kept.of.value) (E.unpack kept.of.value) kept.names) }
    {
        let names = Names::new(alloc, engine.root(alloc)?)?;
        let _count = names.len();
        let of = Snapshot::of(engine);
        Ok(KeptNames { names, of })
    }

    pub fn names(&self) -> &Names
        ensures { result.now ≡ self.now.names }
    {
        &self.names
    }

    fn name(&mut self, state: Packed) -> Result<u64, AllocError>
        requires names { AreTrueNames (E.meaning self.old.of.value) (E.unpack self.old.of.value) self.old.names }
        requires state { IsPacked (E.unpack self.old.of.value) state }
        ensures of { self.new.of ≡ self.old.of }
        ensures truth { AreTrueNames (E.meaning self.new.of.value) (E.unpack self.new.of.value) self.new.names }
        ensures number { IfOk result (λ n. HasNumber (E.meaning self.old.of.value) (E.unpack self.old.of.value) (drop 1 self.new.names) n state) }
        ensures grows { GrowsByOne (drop 1 self.old.names) (drop 1 self.new.names) }
    {
        let number = self.names.name(state)?;
        Ok(number)
    }

    /// Names a state under the turn: its number among the states that the pass has seen then.
    pub fn name_under<W: Wait>(
        rt: &W,
        turn: &Turn<KeptNames<E>>,
        pass: &mut Pass<KeptNames<E>>,
        state: Packed,
    ) -> Result<u64, AllocError>
        requires turn { IsPassOf turn.now pass.old }
        requires state { IsPacked (E.unpack (tag_of (λ kept. kept.of.value) turn.now)) state }
        ensures turn { IsPassOf turn.now pass.new × ((known pass.new).shares ≡ (known pass.old).shares) }
        ensures number { IfOk result (λ n. HasNumber (E.meaning (tag_of (λ kept. kept.of.value) turn.now)) (E.unpack (tag_of (λ kept. kept.of.value) turn.now)) (known pass.new).seen n state) }
    {
        turn.hold(
            rt,
            pass,
            move |kept: &mut KeptNames<E>| -> Result<u64, AllocError>
                requires names { AreTrueNames (E.meaning kept.old.of.value) (E.unpack kept.old.of.value) kept.old.names }
                requires state { IsPacked (E.unpack kept.old.of.value) state }
            { kept.name(state) },
        )
    }
}
