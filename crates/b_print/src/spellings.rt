//! How the operators and words of formulas are spelled, and how tight operators bind.
ghost use Rattle.std.specs.Prelude.{◌≡◌};
ghost use Rattle.b_print.specs.Spellings as spec;

pub use b_ast::priorities::priority;
use b_ast::{Collector, Constant, Function, Operator, Quantifier};

/// The sign or word of an operator.
pub fn sign_of(operator: Operator) -> &'static [u8]
    ensures { result.now ≡ spec.sign_of operator }
{
    match operator {
        Operator::Power => b"**",
        Operator::Times => b"*",
        Operator::Divide => b"/",
        Operator::Modulo => b"mod",
        Operator::Plus => b"+",
        Operator::Minus => b"-",
        Operator::Interval => b"..",
        Operator::Maplet => b"|->",
        Operator::Union => b"\\/",
        Operator::Intersection => b"/\\",
        Operator::Concatenation => b"^",
        Operator::Prepend => b"->",
        Operator::Append => b"<-",
        Operator::Take => b"/|\\",
        Operator::Drop => b"\\|/",
        Operator::DomainRestriction => b"<|",
        Operator::RangeRestriction => b"|>",
        Operator::DomainSubtraction => b"<<|",
        Operator::RangeSubtraction => b"|>>",
        Operator::Overriding => b"<+",
        Operator::DirectProduct => b"><",
        Operator::Relations => b"<->",
        Operator::PartialFunctions => b"+->",
        Operator::TotalFunctions => b"-->",
        Operator::PartialInjections => b">+>",
        Operator::TotalInjections => b">->",
        Operator::PartialSurjections => b"+->>",
        Operator::TotalSurjections => b"-->>",
        Operator::TotalBijections => b">->>",
        Operator::Member => b":",
        Operator::NotMember => b"/:",
        Operator::Subset => b"<:",
        Operator::NotSubset => b"/<:",
        Operator::StrictSubset => b"<<:",
        Operator::NotStrictSubset => b"/<<:",
        Operator::Equal => b"=",
        Operator::NotEqual => b"/=",
        Operator::Less => b"<",
        Operator::Greater => b">",
        Operator::LessOrEqual => b"<=",
        Operator::GreaterOrEqual => b">=",
        Operator::Equivalence => b"<=>",
        Operator::And => b"&",
        Operator::Or => b"or",
        Operator::Implication => b"=>",
        Operator::Composition => b";",
        Operator::ParallelProduct => b"||",
        Operator::Comma => b",",
    }
}

/// The word of a function.
pub fn function_word(function: Function) -> &'static [u8]
    ensures { result.now ≡ spec.function_word function }
{
    match function {
        Function::Pow => b"POW",
        Function::Pow1 => b"POW1",
        Function::Fin => b"FIN",
        Function::Fin1 => b"FIN1",
        Function::Union => b"union",
        Function::Inter => b"inter",
        Function::Dom => b"dom",
        Function::Ran => b"ran",
        Function::Id => b"id",
        Function::Closure => b"closure",
        Function::Closure1 => b"closure1",
        Function::Card => b"card",
        Function::Min => b"min",
        Function::Max => b"max",
        Function::Succ => b"succ",
        Function::Pred => b"pred",
        Function::Seq => b"seq",
        Function::Seq1 => b"seq1",
        Function::Iseq => b"iseq",
        Function::Perm => b"perm",
        Function::Size => b"size",
        Function::First => b"first",
        Function::Last => b"last",
        Function::Front => b"front",
        Function::Tail => b"tail",
        Function::Rev => b"rev",
        Function::Conc => b"conc",
        Function::Bool => b"bool",
        Function::Not => b"not",
        Function::Prj1 => b"prj1",
        Function::Prj2 => b"prj2",
        Function::Iterate => b"iterate",
    }
}

/// A constant word.
pub fn constant_word(constant: Constant) -> &'static [u8]
    ensures { result.now ≡ spec.constant_word constant }
{
    match constant {
        Constant::Integer => b"INTEGER",
        Constant::Natural => b"NATURAL",
        Constant::Natural1 => b"NATURAL1",
        Constant::Int => b"INT",
        Constant::Nat => b"NAT",
        Constant::Nat1 => b"NAT1",
        Constant::String => b"STRING",
        Constant::Bool => b"BOOL",
        Constant::True => b"TRUE",
        Constant::False => b"FALSE",
        Constant::MinInt => b"MININT",
        Constant::MaxInt => b"MAXINT",
    }
}

/// The sign of a quantifier.
pub fn quantifier_sign(quantifier: Quantifier) -> &'static [u8]
    ensures { result.now ≡ spec.quantifier_sign quantifier }
{
    match quantifier {
        Quantifier::Exists => b"#",
        Quantifier::ForAll => b"!",
    }
}

/// The sign or word of a collector.
pub fn collector_word(collector: Collector) -> &'static [u8]
    ensures { result.now ≡ spec.collector_word collector }
{
    match collector {
        Collector::Lambda => b"%",
        Collector::Sum => b"SIGMA",
        Collector::Product => b"PI",
        Collector::Union => b"UNION",
        Collector::Inter => b"INTER",
    }
}
