ghost use Rattle.b_values.specs.declared.types.Face.{Face};
ghost use Rattle.b_values.specs.declared.values.State.{State};
ghost use Rattle.engine_face.specs.Packing.{IsOneSpelling};
ghost use Rattle.engine_face.specs.Typing.{IsStateOf};
ghost use Rattle.pack_state.specs.Bytes.{state_bytes};
ghost use Rattle.pack_state.specs.Unpacking.{unpack_of};
ghost use Rattle.pack_state.specs.Spelled.{Unpacks};
ghost use Rattle.std.specs.Prelude.{◌≡◌, ℕ, List, Some};

/// What is unpacked is a state of the face and the bytes are its own; and each state of the face is unpacked from its
/// bytes.
pub fn unpacked_alone()
    ensures sound { (face : Face) (bytes : List ℕ) (s : State) → unpack_of face bytes ≡ Some s → Unpacks face bytes s }
    ensures complete { (face : Face) (s : State) → IsStateOf face s → unpack_of face (state_bytes s) ≡ Some s }
{}

/// So a state has one spelling.
pub fn spelled_once()
    ensures { (face : Face) → IsOneSpelling (unpack_of face) }
{}
