// What the definition of a store comes to, for values by state and formula.
ghost use Rattle.engine_face.specs.Meaning.{Meaning};
ghost use Rattle.engine_face.specs.Misses.{Use, misses_of_uses};
ghost use Rattle.engine_face.specs.Packing.{Unpacking};
ghost use Rattle.engine_face.specs.Stores.{Store, empty_store, found, looked, put_in, served_all, without};
ghost use Rattle.engine_face.specs.declared.answers.ValueAnswer.{ValueAnswer};
ghost use Rattle.std.specs.Prelude.{◌≡◌, ◌-◌, ◌^◌, ℕ, List, [], Some, min};
ghost use Rattle.value_cache.specs.Keys.{same_key};
ghost use Rattle.value_cache.specs.Truth.{AreTrueValues, IsTrueValue};
ghost use Rattle.value_cache.specs.declared.store.ValueKey.{ValueKey};

/// A store whose values are asked for, put where they weren't there, and taken out, misses as often as by the rule that
/// the least recently used key is lost.
pub fn misses_of_values()
    ensures { (values : ValueKey → ValueAnswer) (capacity : ℕ) (uses : List (Use ValueKey)) → (served_all same_key values (empty_store capacity) uses).misses ≡ min (misses_of_uses same_key capacity [] uses) (2 ^ 64 - 1) }
{}

/// Where each value of a store is what its formula is in its state, so it is after each call, and so is what is found.
pub fn values_stay_true()
    ensures looked { (m : Meaning) (unpack : Unpacking) (store : Store ValueKey ValueAnswer) (key : ValueKey) → AreTrueValues m unpack store.entries → AreTrueValues m unpack (looked same_key store key).entries }
    ensures put { (m : Meaning) (unpack : Unpacking) (store : Store ValueKey ValueAnswer) (key : ValueKey) (answer : ValueAnswer) → IsTrueValue m unpack key answer → AreTrueValues m unpack store.entries → AreTrueValues m unpack (put_in same_key store key answer).entries }
    ensures evicted { (m : Meaning) (unpack : Unpacking) (store : Store ValueKey ValueAnswer) (key : ValueKey) → AreTrueValues m unpack store.entries → AreTrueValues m unpack (without same_key store key).entries }
    ensures found { (m : Meaning) (unpack : Unpacking) (store : Store ValueKey ValueAnswer) (key : ValueKey) (answer : ValueAnswer) → AreTrueValues m unpack store.entries → found same_key store key ≡ Some answer → IsTrueValue m unpack key answer }
{}
