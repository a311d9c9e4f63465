ghost use Rattle.std.specs.Prelude.{◌≡◌, List, length};

/// A value that keeps a history, a list of entries that only grows at its end, and that fits a tag.
pub trait Kept {
    /// What the value has to fit. The turn makes no value of it.
    type Tag;
    /// What the history is a list of. The turn makes no value of it.
    type Entry;

    // the tag of a value that a turn is made with
    ghost tag: { Self → Self.Tag };

    ghost fits: { Self.Tag → Self → Type 0 };

    ghost history: { Self → List Self.Entry };

    /// The number of entries of the history.
    fn length(&self) -> u64
        ensures { result ≡ length (history self.now) };
}
