// What the definitions of naming come to.
ghost use Rattle.engine_face.specs.Meaning.{Meaning};
ghost use Rattle.engine_face.specs.Packing.{IsPacked, Unpacking};
ghost use Rattle.names_list.specs.Naming.{AreDistinct, AreTrueNames, place, with_state};
ghost use Rattle.std.specs.Prelude.{◌≡◌, ◌<◌, ◌++◌, ℕ, List, length};

/// Naming a state leaves the names that were there and their places.
pub fn numbers_stay()
    ensures grow { (names : List (List ℕ)) (state : List ℕ) → (more : List (List ℕ)) × (with_state names state ≡ names ++ more) }
    ensures stay { (names more : List (List ℕ)) (state : List ℕ) → place names state < length names → place (names ++ more) state ≡ place names state }
{}

/// Names of a machine's states, root first, are so still when a state of the machine was named.
pub fn names_stay_true()
    ensures { (m : Meaning) (unpack : Unpacking) (names : List (List ℕ)) (state : List ℕ) → AreTrueNames m unpack names → IsPacked unpack state → AreDistinct (with_state names state) → AreTrueNames m unpack (with_state names state) }
{}
