// What the definition of a store comes to, for lists by state.
ghost use Rattle.engine_face.specs.Answers.{IsStepList};
ghost use Rattle.engine_face.specs.Keys.{same_bytes};
ghost use Rattle.engine_face.specs.Meaning.{Meaning};
ghost use Rattle.engine_face.specs.Misses.{Use, misses_of_uses};
ghost use Rattle.engine_face.specs.Packing.{Unpacking};
ghost use Rattle.engine_face.specs.Stores.{Store, empty_store, found, looked, put_in, served_all, without};
ghost use Rattle.engine_face.specs.declared.answers.StepList.{StepList};
ghost use Rattle.std.specs.Prelude.{◌≡◌, ◌-◌, ◌^◌, ℕ, List, [], Some, min};
ghost use Rattle.step_cache.specs.Truth.{AreTrueLists};

/// A store whose lists are asked for, put where they weren't there, and taken out, misses as often as by the rule that
/// the least recently used state is lost.
pub fn misses_of_lists()
    ensures { (lists : List ℕ → StepList (List ℕ)) (capacity : ℕ) (uses : List (Use (List ℕ))) → (served_all same_bytes lists (empty_store capacity) uses).misses ≡ min (misses_of_uses same_bytes capacity [] uses) (2 ^ 64 - 1) }
{}

/// Where each list of a store is what a machine offers at its state, so it is after each call, and so is what is found.
pub fn lists_stay_true()
    ensures looked { (m : Meaning) (unpack : Unpacking) (store : Store (List ℕ) (StepList (List ℕ))) (at : List ℕ) → AreTrueLists m unpack store.entries → AreTrueLists m unpack (looked same_bytes store at).entries }
    ensures put { (m : Meaning) (unpack : Unpacking) (store : Store (List ℕ) (StepList (List ℕ))) (at : List ℕ) (list : StepList (List ℕ)) → IsStepList m unpack at list → AreTrueLists m unpack store.entries → AreTrueLists m unpack (put_in same_bytes store at list).entries }
    ensures evicted { (m : Meaning) (unpack : Unpacking) (store : Store (List ℕ) (StepList (List ℕ))) (at : List ℕ) → AreTrueLists m unpack store.entries → AreTrueLists m unpack (without same_bytes store at).entries }
    ensures found { (m : Meaning) (unpack : Unpacking) (store : Store (List ℕ) (StepList (List ℕ))) (at : List ℕ) (list : StepList (List ℕ)) → AreTrueLists m unpack store.entries → found same_bytes store at ≡ Some list → IsStepList m unpack at list }
{}
