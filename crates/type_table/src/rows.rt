/// A type without parts.
#[derive(Clone, Copy, Debug, PartialEq, Eq)]
pub enum Basic {
    Int,
    Truth,
    Text,
    /// A set of the machine, by its place from 0.
    Elem(u32),
}

/// What is known of a part's type. Parts are named by their rows.
#[derive(Clone, Copy, Debug, PartialEq, Eq)]
pub enum Row {
    /// Nothing.
    Open,
    Basic(Basic),
    /// It is the set type of another part's.
    Set(usize),
    /// It is the couple type of two parts'.
    Pair(usize, usize),
    /// It is that of an earlier part.
    Same(usize),
}
