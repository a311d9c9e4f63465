ghost use Rattle.std.specs.Prelude.{◌≡◌};
ghost use Rattle.type_schemes.specs.Rules as rules;

use b_ast::{Constant, Function, Operator};

/// Which types the parts of a form have: the left and the right operand, or the argument, and the whole.
#[derive(Clone, Copy, Debug, PartialEq, Eq)]
pub enum Rule {
    /// `I, I` to `I`
    Arithmetic,
    /// `I, I` to `P(I)`
    Interval,
    /// `P(a), P(a)` to `P(a)`
    SameSets,
    /// `P(a), P(b)` to `P(a×b)`
    Products,
    /// `a, b` to `a×b`
    Couple,
    /// `P(I×a), P(I×a)` to `P(I×a)`
    Concatenation,
    /// `a, P(I×a)` to `P(I×a)`
    Prepend,
    /// `P(I×a), a` to `P(I×a)`
    Append,
    /// `P(I×a), I` to `P(I×a)`
    Cut,
    /// `P(a), P(a×b)` to `P(a×b)`
    DomainPart,
    /// `P(a×b), P(b)` to `P(a×b)`
    RangePart,
    /// `P(a×b), P(a×b)` to `P(a×b)`
    Overriding,
    /// `P(a×b), P(a×c)` to `P(a×(b×c))`
    DirectProduct,
    /// `P(a×c), P(b×d)` to `P((a×b)×(c×d))`
    ParallelProduct,
    /// `P(a×b), P(b×c)` to `P(a×c)`
    Composition,
    /// `P(a), P(b)` to `P(P(a×b))`
    Relations,
    /// `a, P(a)` to `B`
    Membership,
    /// `P(a), P(a)` to `B`
    Inclusion,
    /// `a, a` to `B`
    Equality,
    /// `I, I` to `B`
    NumberOrder,
    /// `B, B` to `B`
    Connective,
    /// `P(a), P(b)` to `P((a×b)×a)`
    FirstProjection,
    /// `P(a), P(b)` to `P((a×b)×b)`
    SecondProjection,
    /// `P(a×a), I` to `P(a×a)`
    Iteration,
    /// `P(a×b), a` to `b`
    Application,
    /// `P(a×b), P(a)` to `P(b)`
    Image,
    /// `a, b` to `P(a×b)`
    Collected,
    /// `I` to `I`
    Number,
    /// `P(a)` to `P(P(a))`
    Subsets,
    /// `P(P(a))` to `P(a)`
    Flattened,
    /// `P(a×b)` to `P(a)`
    Domain,
    /// `P(a×b)` to `P(b)`
    Range,
    /// `P(a)` to `P(a×a)`
    Identity,
    /// `P(a×a)` to `P(a×a)`
    Closure,
    /// `P(a×b)` to `P(b×a)`
    Converse,
    /// `P(a)` to `I`
    Cardinality,
    /// `P(I)` to `I`
    Extreme,
    /// `P(a)` to `P(P(I×a))`
    Sequences,
    /// `P(I×a)` to `I`
    Length,
    /// `P(I×a)` to `a`
    Element,
    /// `P(I×a)` to `P(I×a)`
    SameSequence,
    /// `P(I×P(I×a))` to `P(I×a)`
    JoinedSequence,
    /// `B` to `B`
    Predicate,
    /// `a` to `P(a)`
    Singleton,
    /// `a` to `P(I×a)`
    SequenceOf,
    /// `a` to `a`
    Alike,
    /// `P(a)` to `P(a)`
    SetAlike,
    /// `P(a)`
    EmptySet,
    /// `P(I×a)`
    EmptySequence,
    /// `I`
    Integer,
    /// `B`
    Truth,
    /// `T`
    Text,
    /// `P(I)`
    Integers,
    /// `P(B)`
    Truths,
    /// `P(T)`
    Texts,
}

/// What an operator is: one of numbers, of sets and so on, or one of numbers or of sets.
#[derive(Clone, Copy, Debug, PartialEq, Eq)]
pub enum Reading {
    One(Rule),
    Either(Rule, Rule),
}

/// What a binary operator is. Only `-` and `*` are two things.
pub fn reading_of(operator: Operator) -> Reading
    ensures { result ≡ rules.reading_of operator }
{
    match operator {
        Operator::Minus => Reading::Either(Rule::Arithmetic, Rule::SameSets),
        Operator::Times => Reading::Either(Rule::Arithmetic, Rule::Products),
        _ => Reading::One(operator_rule(operator)),
    }
}

/// The rule of each operator but `-` and `*`.
fn operator_rule(operator: Operator) -> Rule
    ensures { result ≡ rules.operator_rule operator }
{
    match operator {
        Operator::Power
        | Operator::Divide
        | Operator::Modulo
        | Operator::Plus
        | Operator::Minus
        | Operator::Times => Rule::Arithmetic,
        Operator::Interval => Rule::Interval,
        Operator::Maplet | Operator::Comma => Rule::Couple,
        Operator::Union | Operator::Intersection => Rule::SameSets,
        Operator::Concatenation => Rule::Concatenation,
        Operator::Prepend => Rule::Prepend,
        Operator::Append => Rule::Append,
        Operator::Take | Operator::Drop => Rule::Cut,
        Operator::DomainRestriction | Operator::DomainSubtraction => Rule::DomainPart,
        Operator::RangeRestriction | Operator::RangeSubtraction => Rule::RangePart,
        Operator::Overriding => Rule::Overriding,
        Operator::DirectProduct => Rule::DirectProduct,
        Operator::ParallelProduct => Rule::ParallelProduct,
        Operator::Composition => Rule::Composition,
        Operator::Relations
        | Operator::PartialFunctions
        | Operator::TotalFunctions
        | Operator::PartialInjections
        | Operator::TotalInjections
        | Operator::PartialSurjections
        | Operator::TotalSurjections
        | Operator::TotalBijections => Rule::Relations,
        Operator::Member | Operator::NotMember => Rule::Membership,
        Operator::Subset
        | Operator::NotSubset
        | Operator::StrictSubset
        | Operator::NotStrictSubset => Rule::Inclusion,
        Operator::Equal | Operator::NotEqual => Rule::Equality,
        Operator::Less | Operator::Greater | Operator::LessOrEqual | Operator::GreaterOrEqual =>
            Rule::NumberOrder,
        Operator::Equivalence | Operator::And | Operator::Or | Operator::Implication =>
            Rule::Connective,
    }
}

/// The rule of a function word, of its argument or its two arguments.
pub fn function_rule(function: Function) -> Rule
    ensures { result ≡ rules.function_rule function }
{
    match function {
        Function::Pow | Function::Pow1 | Function::Fin | Function::Fin1 => Rule::Subsets,
        Function::Union | Function::Inter => Rule::Flattened,
        Function::Dom => Rule::Domain,
        Function::Ran => Rule::Range,
        Function::Id => Rule::Identity,
        Function::Closure | Function::Closure1 => Rule::Closure,
        Function::Card => Rule::Cardinality,
        Function::Min | Function::Max => Rule::Extreme,
        Function::Succ | Function::Pred => Rule::Number,
        Function::Seq | Function::Seq1 | Function::Iseq | Function::Perm => Rule::Sequences,
        Function::Size => Rule::Length,
        Function::First | Function::Last => Rule::Element,
        Function::Front | Function::Tail | Function::Rev => Rule::SameSequence,
        Function::Conc => Rule::JoinedSequence,
        Function::Bool | Function::Not => Rule::Predicate,
        Function::Prj1 => Rule::FirstProjection,
        Function::Prj2 => Rule::SecondProjection,
        Function::Iterate => Rule::Iteration,
    }
}

/// The rule of a constant word.
pub fn constant_rule(constant: Constant) -> Rule
    ensures { result ≡ rules.constant_rule constant }
{
    match constant {
        Constant::Integer
        | Constant::Natural
        | Constant::Natural1
        | Constant::Int
        | Constant::Nat
        | Constant::Nat1 => Rule::Integers,
        Constant::String => Rule::Texts,
        Constant::Bool => Rule::Truths,
        Constant::True | Constant::False => Rule::Truth,
        Constant::MinInt | Constant::MaxInt => Rule::Integer,
    }
}
