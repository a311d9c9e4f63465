//! Formulas of the language B: symbols, the grammar, and its one reading.
#![tactic(auto)]

ghost use Rattle.b_grammar.specs.Laws.{StandsForAtMostOne, EndsAnOperand};
ghost use Rattle.b_grammar.specs.Readings.{AreReadings};

use b_ast::{Collector, Constant, Function, Operator, Place, Quantifier};
use sqlite_items::Items;

/// A bracket, a separator or another sign or word that is no operator.
#[derive(Clone, Copy, Debug, PartialEq, Eq)]
pub enum Mark {
    RoundOpen,
    RoundClose,
    CurlyOpen,
    CurlyClose,
    SquareOpen,
    SquareClose,
    Comma,
    Dot,
    Bar,
    /// `~`
    Converse,
    /// `<>`
    Empty,
    /// `$0`
    Old,
    If,
    Then,
    Else,
    End,
}

/// What a token is to the grammar.
#[derive(Drop)]
pub enum Symbol {
    Number(u128),
    /// The text that a string stands for.
    Text(Items<u8>),
    Name(Items<u8>),
    Constant(Constant),
    /// `-` too, also before an operand.
    Operator(Operator),
    Function(Function),
    Quantifier(Quantifier),
    Collector(Collector),
    Mark(Mark),
    /// A sign or word that no formula has.
    Other,
}

/// A symbol and its place.
#[derive(Drop)]
pub struct Lexeme {
    pub symbol: Symbol,
    pub at: Place,
}

pub mod brackets;
pub mod symbols;

/// Worked readings of small texts.
pub fn worked_readings()
    ensures { AreReadings }
{}

/// The last lexeme of a formula ends an operand. So what stands before a binary operator does, and a minus with such a
/// lexeme before it is binary; no piece begins behind one.
pub fn formula_ends_operand()
    ensures { EndsAnOperand }
{}

/// A list of lexemes stands for at most one tree.
pub fn one_tree()
    ensures { StandsForAtMostOne }
{}

#[cfg(test)]
mod tests {
    use super::symbols::{lexemes, symbol_of};
    use super::{Mark, Symbol, formula_ends_operand, one_tree, worked_readings};
    use b_ast::{Function, Operator};
    use b_lex::{Token, TokenKind};
    use std::test::Fail;

    #[test]
    fn signs_and_words(rt: HostRuntime) -> Result<(), Fail> {
        one_tree();
        worked_readings();
        formula_ends_operand();
        let operators: [(&[u8], TokenKind, Operator); 6] = [
            (b"mod", TokenKind::Word, Operator::Modulo),
            (b"or", TokenKind::Word, Operator::Or),
            (b"-", TokenKind::Sign, Operator::Minus),
            (b"/|\\", TokenKind::Sign, Operator::Take),
            (b"||", TokenKind::Sign, Operator::ParallelProduct),
            (b">->>", TokenKind::Sign, Operator::TotalBijections),
        ];
        for (spelling, kind, operator) in operators {
            let symbol = symbol_of(rt.alloc(), kind, spelling)?;
            assert!(rt; matches!(&symbol, Symbol::Operator(o) if *o == operator));
        }
        let card = symbol_of(rt.alloc(), TokenKind::Word, b"card")?;
        assert!(rt; matches!(&card, Symbol::Function(Function::Card)));
        let end = symbol_of(rt.alloc(), TokenKind::Word, b"END")?;
        assert!(rt; matches!(&end, Symbol::Mark(Mark::End)));
        let skip = symbol_of(rt.alloc(), TokenKind::Word, b"skip")?;
        assert!(rt; matches!(&skip, Symbol::Other));
        Ok(())
    }

    #[test]
    fn values(rt: HostRuntime) -> Result<(), Fail> {
        let number = symbol_of(rt.alloc(), TokenKind::Number, b"007")?;
        assert!(rt; matches!(&number, Symbol::Number(7)));
        let text = symbol_of(rt.alloc(), TokenKind::Text, b"\"a\\n\\\"\"")?;
        assert!(rt; matches!(&text, Symbol::Text(t) if t.as_slice() == b"a\n\"".as_slice()));
        let name = symbol_of(rt.alloc(), TokenKind::Name, b"x1")?;
        assert!(rt; matches!(&name, Symbol::Name(n) if n.as_slice() == b"x1".as_slice()));
        Ok(())
    }

    #[test]
    fn places(rt: HostRuntime) -> Result<(), Fail> {
        let tokens = [
            Token {
                kind: TokenKind::Name,
                from: 1,
                to: 2,
            },
            Token {
                kind: TokenKind::Sign,
                from: 2,
                to: 4,
            },
        ];
        let all = lexemes(rt.alloc(), true, b" x|>", &tokens)?;
        assert_eq!(rt; all.len(), 2);
        assert!(rt; all[1].at.machine);
        assert_eq!(rt; all[1].at.at, 2);
        assert_eq!(rt; all[1].at.depth, 0);
        assert!(rt; matches!(&all[1].symbol, Symbol::Operator(Operator::RangeRestriction)));
        Ok(())
    }
}
