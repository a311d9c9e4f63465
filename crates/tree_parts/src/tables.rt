//! Which operator of resolved trees a sign or a word of a text is.
ghost use Rattle.std.specs.Prelude.{◌≡◌};
ghost use Rattle.tree_parts.specs.Tables as spec;

use b_ast::{Function, Operator};
use b_tree::{
    BinaryOperator, Comparison, Connective, Family, Membership, SetOperator, UnaryOperator,
};

/// What an operator between two operands makes of them.
#[derive(Clone, Copy, Debug, PartialEq, Eq)]
pub enum Joins {
    /// A link of a chain.
    Link(BinaryOperator),
    /// `**`
    Power,
    /// A set with two sides.
    Sides(SetOperator),
    Compares(Comparison),
    Tests(Membership),
    /// A clause of a chain of predicates.
    Connects(Connective),
}

/// What a word with arguments makes of them.
#[derive(Clone, Copy, Debug, PartialEq, Eq)]
pub enum Called {
    One(UnaryOperator),
    /// A link of a chain, which the first argument begins.
    Two(BinaryOperator),
    Over(Family),
    /// `bool(P)`
    Truth,
    /// `not(P)`
    Negation,
}

// `*` and `-` mean one thing between numbers and another between sets.
fn either(is_set: bool, of_sets: Joins, of_numbers: Joins) -> Joins
    ensures { result ≡ spec.either is_set of_sets of_numbers }
{
    if is_set { of_sets } else { of_numbers }
}

/// What an operator is whose whole is a set, or isn't. The comma between arguments makes couples.
pub fn joins_by(operator: Operator, is_set: bool) -> Joins
    ensures { result ≡ spec.joins_by operator is_set }
{
    match operator {
        Operator::Power => Joins::Power,
        Operator::Times => either(
            is_set,
            Joins::Sides(SetOperator::Product),
            Joins::Link(BinaryOperator::Times),
        ),
        Operator::Minus => either(
            is_set,
            Joins::Link(BinaryOperator::Difference),
            Joins::Link(BinaryOperator::Minus),
        ),
        Operator::Divide => Joins::Link(BinaryOperator::Divide),
        Operator::Modulo => Joins::Link(BinaryOperator::Modulo),
        Operator::Plus => Joins::Link(BinaryOperator::Plus),
        Operator::Interval => Joins::Sides(SetOperator::Interval),
        Operator::Maplet => Joins::Link(BinaryOperator::Couple),
        Operator::Union => Joins::Link(BinaryOperator::Union),
        Operator::Intersection => Joins::Link(BinaryOperator::Intersection),
        Operator::Concatenation => Joins::Link(BinaryOperator::Concatenation),
        Operator::Prepend => Joins::Link(BinaryOperator::Prepend),
        Operator::Append => Joins::Link(BinaryOperator::Append),
        Operator::Take => Joins::Link(BinaryOperator::Take),
        Operator::Drop => Joins::Link(BinaryOperator::Drop),
        Operator::DomainRestriction => Joins::Link(BinaryOperator::DomainRestriction),
        Operator::RangeRestriction => Joins::Link(BinaryOperator::RangeRestriction),
        Operator::DomainSubtraction => Joins::Link(BinaryOperator::DomainSubtraction),
        Operator::RangeSubtraction => Joins::Link(BinaryOperator::RangeSubtraction),
        Operator::Overriding => Joins::Link(BinaryOperator::Overriding),
        Operator::DirectProduct => Joins::Link(BinaryOperator::DirectProduct),
        Operator::Relations => Joins::Sides(SetOperator::Relations),
        Operator::PartialFunctions => Joins::Sides(SetOperator::PartialFunctions),
        Operator::TotalFunctions => Joins::Sides(SetOperator::TotalFunctions),
        Operator::PartialInjections => Joins::Sides(SetOperator::PartialInjections),
        Operator::TotalInjections => Joins::Sides(SetOperator::TotalInjections),
        Operator::PartialSurjections => Joins::Sides(SetOperator::PartialSurjections),
        Operator::TotalSurjections => Joins::Sides(SetOperator::TotalSurjections),
        Operator::TotalBijections => Joins::Sides(SetOperator::TotalBijections),
        Operator::Member => Joins::Tests(Membership::Member),
        Operator::NotMember => Joins::Tests(Membership::NotMember),
        Operator::Subset => Joins::Tests(Membership::Subset),
        Operator::NotSubset => Joins::Tests(Membership::NotSubset),
        Operator::StrictSubset => Joins::Compares(Comparison::StrictSubset),
        Operator::NotStrictSubset => Joins::Compares(Comparison::NotStrictSubset),
        Operator::Equal => Joins::Compares(Comparison::Equal),
        Operator::NotEqual => Joins::Compares(Comparison::NotEqual),
        Operator::Less => Joins::Compares(Comparison::Less),
        Operator::Greater => Joins::Compares(Comparison::Greater),
        Operator::LessOrEqual => Joins::Compares(Comparison::LessOrEqual),
        Operator::GreaterOrEqual => Joins::Compares(Comparison::GreaterOrEqual),
        Operator::Equivalence => Joins::Connects(Connective::Equivalent),
        Operator::And => Joins::Connects(Connective::And),
        Operator::Or => Joins::Connects(Connective::Or),
        Operator::Implication => Joins::Connects(Connective::Implies),
        Operator::Composition => Joins::Link(BinaryOperator::Composition),
        Operator::ParallelProduct => Joins::Link(BinaryOperator::ParallelProduct),
        Operator::Comma => Joins::Link(BinaryOperator::Couple),
    }
}

/// What a word with arguments is.
pub fn called_as(function: Function) -> Called
    ensures { result ≡ spec.called_as function }
{
    match function {
        Function::Pow => Called::Over(Family::Subsets),
        Function::Pow1 => Called::Over(Family::NonemptySubsets),
        Function::Fin => Called::Over(Family::Subsets),
        Function::Fin1 => Called::Over(Family::NonemptySubsets),
        Function::Union => Called::One(UnaryOperator::Union),
        Function::Inter => Called::One(UnaryOperator::Intersection),
        Function::Dom => Called::One(UnaryOperator::Domain),
        Function::Ran => Called::One(UnaryOperator::Range),
        Function::Id => Called::One(UnaryOperator::Identity),
        Function::Closure => Called::One(UnaryOperator::Closure),
        Function::Closure1 => Called::One(UnaryOperator::Closure1),
        Function::Card => Called::One(UnaryOperator::Cardinality),
        Function::Min => Called::One(UnaryOperator::Minimum),
        Function::Max => Called::One(UnaryOperator::Maximum),
        Function::Succ => Called::One(UnaryOperator::Successor),
        Function::Pred => Called::One(UnaryOperator::Predecessor),
        Function::Seq => Called::Over(Family::Sequences),
        Function::Seq1 => Called::Over(Family::NonemptySequences),
        Function::Iseq => Called::Over(Family::InjectiveSequences),
        Function::Perm => Called::Over(Family::Permutations),
        Function::Size => Called::One(UnaryOperator::Size),
        Function::First => Called::One(UnaryOperator::First),
        Function::Last => Called::One(UnaryOperator::Last),
        Function::Front => Called::One(UnaryOperator::Front),
        Function::Tail => Called::One(UnaryOperator::Tail),
        Function::Rev => Called::One(UnaryOperator::Reverse),
        Function::Conc => Called::One(UnaryOperator::Concatenation),
        Function::Bool => Called::Truth,
        Function::Not => Called::Negation,
        Function::Prj1 => Called::Two(BinaryOperator::Projection1),
        Function::Prj2 => Called::Two(BinaryOperator::Projection2),
        Function::Iterate => Called::Two(BinaryOperator::Iterate),
    }
}
