use type_schemes::Form;

/// What a name means at a place: the part whose type it has, and whether its old value, `x$0`, may stand there.
#[derive(Clone, Copy, Debug, PartialEq, Eq)]
pub struct Meaning {
    pub part: usize,
    pub has_old: bool,
}

/// What a formula demands. No typing meets the last two.
#[derive(Clone, Copy, Debug, PartialEq, Eq)]
pub enum Demand {
    /// The parts of a form have types by its rule.
    Keep(Form),
    /// A name, or an `x$0`, that means nothing where it stands.
    Unknown,
    /// Two names of one binder are equal.
    Twice,
}
