//! The operators of resolved trees, told apart by the types of their operands.

/// An operator of one operand that gives a value.
#[derive(Clone, Copy, Debug, PartialEq, Eq)]
pub enum UnaryOperator {
    /// `-a`
    Negative,
    /// `succ(a)`
    Successor,
    /// `pred(a)`
    Predecessor,
    /// `min(S)`
    Minimum,
    /// `max(S)`
    Maximum,
    /// `card(S)`
    Cardinality,
    /// `union(U)`
    Union,
    /// `inter(U)`
    Intersection,
    /// `dom(r)`
    Domain,
    /// `ran(r)`
    Range,
    /// `r~`
    Converse,
    /// `id(S)`
    Identity,
    /// `closure(r)`
    Closure,
    /// `closure1(r)`
    Closure1,
    /// `size(s)`
    Size,
    /// `rev(s)`
    Reverse,
    /// `first(s)`
    First,
    /// `last(s)`
    Last,
    /// `front(s)`
    Front,
    /// `tail(s)`
    Tail,
    /// `conc(s)`
    Concatenation,
}

/// An operator of two operands that gives a value.
#[derive(Clone, Copy, Debug, PartialEq, Eq)]
pub enum BinaryOperator {
    /// `a * b` of numbers
    Times,
    /// `a / b`
    Divide,
    /// `a mod b`
    Modulo,
    /// `a + b`
    Plus,
    /// `a - b` of numbers
    Minus,
    /// `a |-> b` and `(a,b)`
    Couple,
    /// `S \/ T`
    Union,
    /// `S /\ T`
    Intersection,
    /// `S - T` of sets
    Difference,
    /// `s ^ t`
    Concatenation,
    /// `x -> s`
    Prepend,
    /// `s <- x`
    Append,
    /// `s /|\ n`
    Take,
    /// `s \|/ n`
    Drop,
    /// `S <| r`
    DomainRestriction,
    /// `r |> S`
    RangeRestriction,
    /// `S <<| r`
    DomainSubtraction,
    /// `r |>> S`
    RangeSubtraction,
    /// `r <+ s`
    Overriding,
    /// `r >< s`
    DirectProduct,
    /// `r ; s`
    Composition,
    /// `r || s`
    ParallelProduct,
    /// `prj1(S,T)`
    Projection1,
    /// `prj2(S,T)`
    Projection2,
    /// `iterate(r,n)`
    Iterate,
    /// `f(x)`
    Apply,
    /// `r[S]`
    Image,
}

/// A word for a set that is no number's bounds.
#[derive(Clone, Copy, Debug, PartialEq, Eq)]
pub enum Word {
    Integer,
    Natural,
    Natural1,
    String,
    Bool,
}

/// The sets over a set. A membership in one is tested by its form.
#[derive(Clone, Copy, Debug, PartialEq, Eq)]
pub enum Family {
    /// `POW(S)`, `FIN(S)`
    Subsets,
    /// `POW1(S)`, `FIN1(S)`
    NonemptySubsets,
    /// `seq(S)`
    Sequences,
    /// `seq1(S)`
    NonemptySequences,
    /// `iseq(S)`
    InjectiveSequences,
    /// `perm(S)`
    Permutations,
}

/// A set of two operands. A membership in it is tested by its form.
#[derive(Clone, Copy, Debug, PartialEq, Eq)]
pub enum SetOperator {
    /// `a .. b`
    Interval,
    /// `S * T`
    Product,
    /// `S <-> T`
    Relations,
    /// `S +-> T`
    PartialFunctions,
    /// `S --> T`
    TotalFunctions,
    /// `S >+> T`
    PartialInjections,
    /// `S >-> T`
    TotalInjections,
    /// `S +->> T`
    PartialSurjections,
    /// `S -->> T`
    TotalSurjections,
    /// `S >->> T`
    TotalBijections,
}

/// What is made of the values at the tuples of a binder.
#[derive(Clone, Copy, Debug, PartialEq, Eq)]
pub enum Collector {
    /// `%x.(P | E)`
    Lambda,
    /// `SIGMA(x).(P | E)`
    Sum,
    /// `PI(x).(P | E)`
    Product,
    /// `UNION(x).(P | E)`
    Union,
    /// `INTER(x).(P | E)`
    Intersection,
}

/// A comparison of two values.
#[derive(Clone, Copy, Debug, PartialEq, Eq)]
pub enum Comparison {
    /// `=`
    Equal,
    /// `/=`
    NotEqual,
    /// `<`
    Less,
    /// `<=`
    LessOrEqual,
    /// `>`
    Greater,
    /// `>=`
    GreaterOrEqual,
    /// `<<:`
    StrictSubset,
    /// `/<<:`
    NotStrictSubset,
}

/// A test by the form of the right side.
#[derive(Clone, Copy, Debug, PartialEq, Eq)]
pub enum Membership {
    /// `:`
    Member,
    /// `/:`
    NotMember,
    /// `<:`
    Subset,
    /// `/<:`
    NotSubset,
}

/// What stands between two predicates.
#[derive(Clone, Copy, Debug, PartialEq, Eq)]
pub enum Connective {
    /// `&`
    And,
    /// `or`
    Or,
    /// `=>`
    Implies,
    /// `<=>`
    Equivalent,
}
