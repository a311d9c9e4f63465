//! How tightly operators bind.
ghost use Rattle.std.specs.Prelude.{◌≡◌};
ghost use Rattle.b_ast.specs.Priorities as spec;

use crate::Operator;

/// How tightly an operator binds: a higher number binds tighter.
pub fn priority(operator: Operator) -> u64
    ensures { result ≡ spec.priority operator }
{
    match operator {
        Operator::Power => 200,
        Operator::Times | Operator::Divide | Operator::Modulo => 190,
        Operator::Plus | Operator::Minus => 180,
        Operator::Interval => 170,
        Operator::Maplet
        | Operator::Union
        | Operator::Intersection
        | Operator::Concatenation
        | Operator::Prepend
        | Operator::Append
        | Operator::Take
        | Operator::Drop
        | Operator::DomainRestriction
        | Operator::RangeRestriction
        | Operator::DomainSubtraction
        | Operator::RangeSubtraction
        | Operator::Overriding
        | Operator::DirectProduct => 160,
        Operator::Relations
        | Operator::PartialFunctions
        | Operator::TotalFunctions
        | Operator::PartialInjections
        | Operator::TotalInjections
        | Operator::PartialSurjections
        | Operator::TotalSurjections
        | Operator::TotalBijections => 125,
        Operator::Member
        | Operator::NotMember
        | Operator::Subset
        | Operator::NotSubset
        | Operator::StrictSubset
        | Operator::NotStrictSubset
        | Operator::Equal
        | Operator::NotEqual
        | Operator::Less
        | Operator::Greater
        | Operator::LessOrEqual
        | Operator::GreaterOrEqual => 60,
        Operator::Equivalence => 50,
        Operator::And | Operator::Or => 40,
        Operator::Implication => 30,
        Operator::Composition | Operator::ParallelProduct => 20,
        Operator::Comma => 0,
    }
}
