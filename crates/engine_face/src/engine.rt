use crate::answers::{Confirmed, Counts, Found, StepList, ValueAnswer};
use crate::keys::{FormulaKey, KeyFault, SavedStep, Scope};
use crate::packed::Packed;
use b_values::{Face, OpId, Value};
use sqlite_items::Items;
use std::alloc::{AllocError, Global};

/// A machine with its preferences, and the questions that may be asked of it. Whatever it answers, a question raises
/// its own count by one and no other, and changes nothing else.
pub trait Engine: Send + Sync + Drop {
    ghost use Rattle.std.specs.Prelude.{◌≡◌, ℕ, List, Some, IfOk};
    ghost use Rattle.std.specs.List.{AllByRecursion};
    ghost use Rattle.b_values.specs.declared.values.State.{State};
    ghost use Rattle.engine_face.specs.Answers.{IsStepList, IsValueAnswer, IsFound, IsConfirmed};
    ghost use Rattle.engine_face.specs.Counting.{expanded, valued, searched, checked};
    ghost use Rattle.engine_face.specs.Meaning.{Meaning, IsAskable, IsAccepted, IsPredicateOf, KeysHaveTexts, ReadsTo};
    ghost use Rattle.engine_face.specs.Packing.{Unpacking, IsPacked, IsOneSpelling, state_of};
    ghost use Rattle.engine_face.specs.Typing.{FitsScope, IsFace, IsStateOf, IsOpOf, values_in};
    ghost use Rattle.engine_face.specs.declared.answers.Counts.{Counts};
    ghost use Rattle.engine_face.specs.declared.keys.Scope.TheVariants as scope;

    /// What its machine means.
    ghost meaning: { Self → Meaning };

    /// Which state packed bytes stand for.
    ghost unpack: { Self → Unpacking };

    ghost counts: { Self → Counts };

    fn face(&self) -> &Face
        ensures { result.now ≡ (meaning self.now).face };

    fn counts(&self) -> Counts
        ensures { result ≡ counts self.now };

    /// The lists that a state offers.
    fn expand(&mut self, alloc: Global, at: &Packed) -> Result<StepList<Packed>, AllocError>
        requires { IsPacked (unpack self.old) at.now }
        ensures answer { IfOk result (IsStepList (meaning self.old) (unpack self.old) at.now) }
        ensures same_meaning { meaning self.new ≡ meaning self.old }
        ensures same_states { unpack self.new ≡ unpack self.old }
        ensures count { counts self.new ≡ expanded (counts self.old) };

    /// The value of a formula in a state.
    fn value(
        &mut self,
        alloc: Global,
        at: &Packed,
        key: &FormulaKey,
    ) -> Result<ValueAnswer, AllocError>
        requires at { IsPacked (unpack self.old) at.now }
        requires key { IsAskable (meaning self.old) key.now }
        ensures answer { IfOk result (IsValueAnswer (meaning self.old) (unpack self.old) at.now key.now) }
        ensures same_meaning { meaning self.new ≡ meaning self.old }
        ensures same_states { unpack self.new ≡ unpack self.old }
        ensures count { counts self.new ≡ valued (counts self.old) };

    /// The step of an operation at which the predicates hold.
    fn find(
        &mut self,
        alloc: Global,
        at: &Packed,
        op: OpId,
        preds: &[FormulaKey],
    ) -> Result<Found<Packed>, AllocError>
        requires at { IsPacked (unpack self.old) at.now }
        requires op { IsOpOf (meaning self.old).face op }
        requires keys { AllByRecursion (IsPredicateOf (meaning self.old) op) preds.now }
        ensures answer { IfOk result (IsFound (meaning self.old) (unpack self.old) at.now op preds.now) }
        ensures same_meaning { meaning self.new ≡ meaning self.old }
        ensures same_states { unpack self.new ≡ unpack self.old }
        ensures count { counts self.new ≡ searched (counts self.old) };

    /// The step that agrees with a saved one.
    fn confirm(
        &mut self,
        alloc: Global,
        at: &Packed,
        saved: &SavedStep,
    ) -> Result<Confirmed<Packed>, AllocError>
        requires { IsPacked (unpack self.old) at.now }
        ensures answer { IfOk result (IsConfirmed (meaning self.old) (unpack self.old) at.now saved.now) }
        ensures same_meaning { meaning self.new ≡ meaning self.old }
        ensures same_states { unpack self.new ≡ unpack self.old }
        ensures count { counts self.new ≡ checked (counts self.old) };

    /// The key of a formula.
    fn read_formula(&self, alloc: Global, scope: Scope, text: &[u8]) -> Result<FormulaKey, KeyFault>
        requires { FitsScope (meaning self.now).face scope }
        ensures { ReadsTo (meaning self.now) scope text.now result };

    /// The canonical text of a formula.
    fn canonical(&self, alloc: Global, key: &FormulaKey) -> Result<Vec<u8>, AllocError>
        requires { IsAccepted (meaning self.now) scope.State key.now }
        ensures { IfOk result (λ text. text.items ≡ (meaning self.now).canonical key.now) };

    /// The state before the first step.
    fn root(&self, alloc: Global) -> Result<Packed, AllocError>
        ensures { IfOk result (λ root. unpack self.now root ≡ Some (meaning self.now).root) };

    /// The constants' values, then the variables'.
    fn values_of(&self, alloc: Global, at: &Packed) -> Result<Items<Value>, AllocError>
        requires { IsPacked (unpack self.now) at.now }
        ensures { IfOk result (λ values. values ≡ values_in (state_of (unpack self.now) at.now)) };

    /// A state has one spelling.
    ghost one_spelling: { (e : Self) → IsOneSpelling (unpack e) };

    /// What packed bytes stand for is a state of the machine.
    ghost states_fit: { (e : Self) (p : List ℕ) (s : State) → unpack e p ≡ Some s → IsStateOf (meaning e).face s };

    ghost keys_have_texts: { (e : Self) → KeysHaveTexts (meaning e) };

    ghost face_fits: { (e : Self) → IsFace (meaning e).face };
}
