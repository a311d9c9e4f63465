//! Trees of the language B: formulas, substitutions, machines and definitions.
#![tactic(auto)]

use sqlite_items::{Boxed, Items};

/// A place in a text: a byte offset, in the machine's text or in a formula's own, and how many brackets are open there,
/// the one counted that opens there. The count is from the beginning of the text, of the body of a definition or, once
/// definitions are expanded, of the expanded text.
#[derive(Clone, Copy, Debug, PartialEq, Eq)]
pub struct Place {
    pub machine: bool,
    pub at: u64,
    pub depth: u64,
}

/// A constant word.
#[derive(Clone, Copy, Debug, PartialEq, Eq)]
pub enum Constant {
    Integer,
    Natural,
    Natural1,
    Int,
    Nat,
    Nat1,
    String,
    Bool,
    True,
    False,
    MinInt,
    MaxInt,
}

/// A word whose arguments stand in round brackets.
#[derive(Clone, Copy, Debug, PartialEq, Eq)]
pub enum Function {
    Pow,
    Pow1,
    Fin,
    Fin1,
    Union,
    Inter,
    Dom,
    Ran,
    Id,
    Closure,
    Closure1,
    Card,
    Min,
    Max,
    Succ,
    Pred,
    Seq,
    Seq1,
    Iseq,
    Perm,
    Size,
    First,
    Last,
    Front,
    Tail,
    Rev,
    Conc,
    /// `bool(P)`
    Bool,
    /// `not(P)`
    Not,
    Prj1,
    Prj2,
    Iterate,
}

/// A binary operator, a comparison or a connective.
#[derive(Clone, Copy, Debug, PartialEq, Eq)]
pub enum Operator {
    /// `**`
    Power,
    /// `*`
    Times,
    /// `/`
    Divide,
    /// `mod`
    Modulo,
    /// `+`
    Plus,
    /// `-`
    Minus,
    /// `..`
    Interval,
    /// `|->`, and the comma of a couple
    Maplet,
    /// `\/`
    Union,
    /// `/\`
    Intersection,
    /// `^`
    Concatenation,
    /// `->`
    Prepend,
    /// `<-`
    Append,
    /// `/|\`
    Take,
    /// `\|/`
    Drop,
    /// `<|`
    DomainRestriction,
    /// `|>`
    RangeRestriction,
    /// `<<|`
    DomainSubtraction,
    /// `|>>`
    RangeSubtraction,
    /// `<+`
    Overriding,
    /// `><`
    DirectProduct,
    /// `<->`
    Relations,
    /// `+->`
    PartialFunctions,
    /// `-->`
    TotalFunctions,
    /// `>+>`
    PartialInjections,
    /// `>->`
    TotalInjections,
    /// `+->>`
    PartialSurjections,
    /// `-->>`
    TotalSurjections,
    /// `>->>`
    TotalBijections,
    /// `:`
    Member,
    /// `/:`
    NotMember,
    /// `<:`
    Subset,
    /// `/<:`
    NotSubset,
    /// `<<:`
    StrictSubset,
    /// `/<<:`
    NotStrictSubset,
    /// `=`
    Equal,
    /// `/=`
    NotEqual,
    /// `<`
    Less,
    /// `>`
    Greater,
    /// `<=`
    LessOrEqual,
    /// `>=`
    GreaterOrEqual,
    /// `<=>`
    Equivalence,
    /// `&`
    And,
    /// `or`
    Or,
    /// `=>`
    Implication,
    /// `;` of relations
    Composition,
    /// `||` of relations
    ParallelProduct,
    /// The comma between arguments.
    Comma,
}

/// What a formula is. An implication is a predicate; it is told apart since `!` asks for one.
#[derive(Clone, Copy, Debug, PartialEq, Eq)]
pub enum Sort {
    Expression,
    Predicate,
    Implication,
}

/// What binds names over one formula.
#[derive(Clone, Copy, Debug, PartialEq, Eq)]
pub enum Quantifier {
    /// `#x.(P)`
    Exists,
    /// `!x.(P => Q)`
    ForAll,
}

/// What binds names over a predicate and an expression.
#[derive(Clone, Copy, Debug, PartialEq, Eq)]
pub enum Collector {
    /// `%x.(P | E)`
    Lambda,
    /// `SIGMA(x).(P | E)`
    Sum,
    /// `PI(x).(P | E)`
    Product,
    /// `UNION(x).(P | E)`
    Union,
    /// `INTER(x).(P | E)`
    Inter,
}

/// A name where it is bound, declared or written to.
#[derive(Drop)]
pub struct Bound {
    pub name: Items<u8>,
    pub at: Place,
}

/// An expression or a predicate. Brackets are no nodes. A use of a definition is a name, or an application of it.
#[cycle(formula)]
#[derive(Drop)]
pub enum Formula {
    /// At most 2^127 - 1.
    Number(Place, u128),
    /// The text that the string stands for.
    Text(Place, Items<u8>),
    Name(Place, Items<u8>),
    /// `x$0`
    Old(Place, Items<u8>),
    Constant(Place, Constant),
    /// `-E`
    Negative(Place, Boxed<Formula>),
    /// The operators of one priority with their operands in order. A comparison has one link.
    Chain(Boxed<Formula>, Items<Link>),
    /// The forms after one operand, in order.
    Row(Boxed<Formula>, Items<After>),
    /// A function word with its arguments.
    Call(Place, Function, Items<Formula>),
    /// `{E,F,..}`
    Set(Place, Items<Formula>),
    /// `[E,F,..]`
    Sequence(Place, Items<Formula>),
    /// `{x | P}`
    Comprehension(Place, Items<Bound>, Boxed<Formula>),
    Quantified(Place, Quantifier, Items<Bound>, Boxed<Formula>),
    Collected(Place, Collector, Items<Bound>, Boxed<Formula>, Boxed<Formula>),
    /// `IF P THEN E ELSE F END`
    If(Place, Boxed<Formula>, Boxed<Formula>, Boxed<Formula>),
}

/// An operator and its right operand.
#[cycle(formula)]
#[derive(Drop)]
pub struct Link {
    pub operator: Operator,
    pub at: Place,
    pub operand: Formula,
}

/// A form after an operand.
#[cycle(formula)]
#[derive(Drop)]
pub enum After {
    /// `~`
    Converse(Place),
    /// `(E)`. Several arguments are a chain of commas.
    Apply(Place, Formula),
    /// `[E]`
    Image(Place, Formula),
}

/// An expression: a formula whose form is that of an expression.
#[derive(Drop)]
pub struct Expr {
    pub formula: Formula,
}

/// A predicate: a formula whose form is that of a predicate.
#[derive(Drop)]
pub struct Pred {
    pub formula: Formula,
}

/// A text that is one formula.
#[derive(Drop)]
pub enum FormulaText {
    Expr(Expr),
    Pred(Pred),
}

pub mod machine;
pub mod priorities;
pub mod sorts;

#[cfg(test)]
mod tests {
    use super::sorts::sort_of;
    use super::{Bound, Formula, Function, Link, Operator, Place, Quantifier, Sort};
    use sqlite_items::{Boxed, Items};
    use std::alloc::{AllocError, Global};
    use std::test::Fail;

    const HERE: Place = Place {
        machine: false,
        at: 0,
        depth: 0,
    };

    // 1 operator 2
    fn two_numbers(alloc: Global, operator: Operator) -> Result<Formula, AllocError> {
        two(
            alloc,
            Formula::Number(HERE, 1),
            operator,
            Formula::Number(HERE, 2),
        )
    }

    fn two(
        alloc: Global,
        left: Formula,
        operator: Operator,
        right: Formula,
    ) -> Result<Formula, AllocError> {
        let mut links = Items::new(alloc);
        links.push(Link {
            operator,
            at: HERE,
            operand: right,
        })?;
        Ok(Formula::Chain(Boxed::new(alloc, left)?, links))
    }

    fn call(alloc: Global, function: Function, argument: Formula) -> Result<Formula, AllocError> {
        let mut arguments = Items::new(alloc);
        arguments.push(argument)?;
        Ok(Formula::Call(HERE, function, arguments))
    }

    fn for_all(alloc: Global, body: Formula) -> Result<Formula, AllocError> {
        let mut names = Items::new(alloc);
        names.push(Bound {
            name: Items::from_slice(alloc, b"x")?,
            at: HERE,
        })?;
        Ok(Formula::Quantified(HERE, Quantifier::ForAll, names, Boxed::new(alloc, body)?))
    }

    #[test]
    fn sorts(rt: HostRuntime) -> Result<(), Fail> {
        let alloc = rt.alloc();
        let sum = two_numbers(alloc, Operator::Plus)?;
        assert_eq!(rt; sort_of(&sum), Some(Sort::Expression));
        let equation = two_numbers(alloc, Operator::Equal)?;
        assert_eq!(rt; sort_of(&equation), Some(Sort::Predicate));
        let connected = two_numbers(alloc, Operator::And)?;
        assert_eq!(rt; sort_of(&connected), None);
        let added = two(
            alloc,
            two_numbers(alloc, Operator::Less)?,
            Operator::Plus,
            Formula::Number(HERE, 3),
        )?;
        assert_eq!(rt; sort_of(&added), None);
        let truth = call(alloc, Function::Bool, two_numbers(alloc, Operator::Equal)?)?;
        assert_eq!(rt; sort_of(&truth), Some(Sort::Expression));
        let size = call(alloc, Function::Card, two_numbers(alloc, Operator::Equal)?)?;
        assert_eq!(rt; sort_of(&size), None);
        Ok(())
    }

    #[test]
    fn bodies_of_for_all(rt: HostRuntime) -> Result<(), Fail> {
        let alloc = rt.alloc();
        let one = two_numbers(alloc, Operator::Equal)?;
        assert_eq!(rt; sort_of(&for_all(alloc, one)?), None);
        let left = two_numbers(alloc, Operator::Equal)?;
        let right = two_numbers(alloc, Operator::Less)?;
        let implication = two(alloc, left, Operator::Implication, right)?;
        assert_eq!(rt;
            sort_of(&for_all(alloc, implication)?),
            Some(Sort::Predicate)
        );
        Ok(())
    }
}
