ghost use Rattle.std.specs.Prelude.{◌≡◌, ◌+◌, ℕ, pos, Ok};
ghost use Rattle.b_relations.specs.Relations.{converse_row, dom_row, ran_row};
ghost use Rattle.b_sequences.specs.Rows.{concat_row, rev_row, size_row};
ghost use Rattle.b_sets.specs.Rows.{difference_row, intersect_row, union_row};
ghost use Rattle.b_values.specs.Values.{IsKept};
ghost use Rattle.b_values.specs.declared.values.Value.{Value};
ghost use Rattle.b_values.specs.declared.values.Value.TheVariants.{Int};

/// What is outside a union is outside both: `S - (T \/ U)` is `(S - T) /\ (S - U)`.
pub fn difference_of_union()
    ensures { (s t u v a b : Value) → union_row t u ≡ Ok v → difference_row s t ≡ Ok a → difference_row s u ≡ Ok b → difference_row s v ≡ intersect_row a b }
{}

/// The domain of the converse is the range.
pub fn domain_of_converse()
    ensures { (r c : Value) → converse_row r ≡ Ok c → dom_row c ≡ ran_row r }
{}

/// The reverse of the reverse is the sequence.
pub fn reverse_of_reverse()
    ensures { (s v : Value) → IsKept s → rev_row s ≡ Ok v → rev_row v ≡ Ok s }
{}

/// The size of `s ^ t` is that of both together.
pub fn size_of_join()
    ensures { (s t v : Value) → (m n : ℕ) → concat_row s t ≡ Ok v → size_row s ≡ Ok (Int (pos m)) → size_row t ≡ Ok (Int (pos n)) → size_row v ≡ Ok (Int (pos (m + n))) }
{}
