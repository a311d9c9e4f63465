//! What each token is to the grammar.
ghost use Rattle.std.specs.Prelude.{◌≡◌, ◌<◌, ◌≤◌, ◌%◌, [], map, filter, IfOk, length, slice_index_or};
ghost use Rattle.b_lex.specs.Reading.{AreSpans};
ghost use Rattle.b_lex.specs.Tables.{is_in_row};
ghost use Rattle.b_grammar.specs.Symbols as spec;

use crate::brackets::depth_after;
use crate::{Lexeme, Mark, Symbol};
use b_ast::{Collector, Constant, Function, Operator, Place, Quantifier};
use b_lex::{Token, TokenKind, number_value, text_value, token_text};
use sqlite_items::Items;
use std::alloc::{AllocError, Global};

/// A symbol that has one spelling.
#[derive(Clone, Copy)]
pub enum Fixed {
    Constant(Constant),
    Operator(Operator),
    Function(Function),
    Quantifier(Quantifier),
    Collector(Collector),
    Mark(Mark),
    Other,
}

// The signs and words of formulas, in rows by their first byte modulo 59.
const SPELLINGS: [&[(&[u8], Fixed)]; 59] = [
    &[(b";", Fixed::Operator(Operator::Composition))],
    &[
        (b"<-", Fixed::Operator(Operator::Append)),
        (b"<|", Fixed::Operator(Operator::DomainRestriction)),
        (b"<<|", Fixed::Operator(Operator::DomainSubtraction)),
        (b"<+", Fixed::Operator(Operator::Overriding)),
        (b"<->", Fixed::Operator(Operator::Relations)),
        (b"<:", Fixed::Operator(Operator::Subset)),
        (b"<<:", Fixed::Operator(Operator::StrictSubset)),
        (b"<", Fixed::Operator(Operator::Less)),
        (b"<=", Fixed::Operator(Operator::LessOrEqual)),
        (b"<=>", Fixed::Operator(Operator::Equivalence)),
        (b"<>", Fixed::Mark(Mark::Empty)),
    ],
    &[
        (b"=", Fixed::Operator(Operator::Equal)),
        (b"=>", Fixed::Operator(Operator::Implication)),
    ],
    &[
        (b"><", Fixed::Operator(Operator::DirectProduct)),
        (b">+>", Fixed::Operator(Operator::PartialInjections)),
        (b">->", Fixed::Operator(Operator::TotalInjections)),
        (b">->>", Fixed::Operator(Operator::TotalBijections)),
        (b">", Fixed::Operator(Operator::Greater)),
        (b">=", Fixed::Operator(Operator::GreaterOrEqual)),
    ],
    &[],
    &[(b"{", Fixed::Mark(Mark::CurlyOpen))],
    &[
        (b"|->", Fixed::Operator(Operator::Maplet)),
        (b"|>", Fixed::Operator(Operator::RangeRestriction)),
        (b"|>>", Fixed::Operator(Operator::RangeSubtraction)),
        (b"||", Fixed::Operator(Operator::ParallelProduct)),
        (b"|", Fixed::Mark(Mark::Bar)),
    ],
    &[
        (b"BOOL", Fixed::Constant(Constant::Bool)),
        (b"}", Fixed::Mark(Mark::CurlyClose)),
    ],
    &[(b"~", Fixed::Mark(Mark::Converse))],
    &[],
    &[
        (b"ELSE", Fixed::Mark(Mark::Else)),
        (b"END", Fixed::Mark(Mark::End)),
    ],
    &[
        (b"FIN", Fixed::Function(Function::Fin)),
        (b"FIN1", Fixed::Function(Function::Fin1)),
        (b"FALSE", Fixed::Constant(Constant::False)),
    ],
    &[],
    &[],
    &[
        (b"INTEGER", Fixed::Constant(Constant::Integer)),
        (b"INT", Fixed::Constant(Constant::Int)),
        (b"INTER", Fixed::Collector(Collector::Inter)),
        (b"IF", Fixed::Mark(Mark::If)),
    ],
    &[],
    &[],
    &[],
    &[
        (b"MININT", Fixed::Constant(Constant::MinInt)),
        (b"MAXINT", Fixed::Constant(Constant::MaxInt)),
    ],
    &[
        (b"NATURAL", Fixed::Constant(Constant::Natural)),
        (b"NATURAL1", Fixed::Constant(Constant::Natural1)),
        (b"NAT", Fixed::Constant(Constant::Nat)),
        (b"NAT1", Fixed::Constant(Constant::Nat1)),
    ],
    &[],
    &[
        (b"POW", Fixed::Function(Function::Pow)),
        (b"POW1", Fixed::Function(Function::Pow1)),
        (b"PI", Fixed::Collector(Collector::Product)),
    ],
    &[],
    &[],
    &[
        (b"STRING", Fixed::Constant(Constant::String)),
        (b"SIGMA", Fixed::Collector(Collector::Sum)),
    ],
    &[
        (b"TRUE", Fixed::Constant(Constant::True)),
        (b"THEN", Fixed::Mark(Mark::Then)),
    ],
    &[(b"UNION", Fixed::Collector(Collector::Union))],
    &[],
    &[],
    &[],
    &[],
    &[],
    &[(b"[", Fixed::Mark(Mark::SquareOpen))],
    &[
        (b"\\/", Fixed::Operator(Operator::Union)),
        (b"\\|/", Fixed::Operator(Operator::Drop)),
        (b"!", Fixed::Quantifier(Quantifier::ForAll)),
    ],
    &[(b"]", Fixed::Mark(Mark::SquareClose))],
    &[
        (b"^", Fixed::Operator(Operator::Concatenation)),
        (b"#", Fixed::Quantifier(Quantifier::Exists)),
    ],
    &[(b"$0", Fixed::Mark(Mark::Old))],
    &[(b"%", Fixed::Collector(Collector::Lambda))],
    &[(b"&", Fixed::Operator(Operator::And))],
    &[(b"bool", Fixed::Function(Function::Bool))],
    &[
        (b"closure", Fixed::Function(Function::Closure)),
        (b"closure1", Fixed::Function(Function::Closure1)),
        (b"card", Fixed::Function(Function::Card)),
        (b"conc", Fixed::Function(Function::Conc)),
        (b"(", Fixed::Mark(Mark::RoundOpen)),
    ],
    &[
        (b"dom", Fixed::Function(Function::Dom)),
        (b")", Fixed::Mark(Mark::RoundClose)),
    ],
    &[
        (b"**", Fixed::Operator(Operator::Power)),
        (b"*", Fixed::Operator(Operator::Times)),
    ],
    &[
        (b"+", Fixed::Operator(Operator::Plus)),
        (b"+->", Fixed::Operator(Operator::PartialFunctions)),
        (b"+->>", Fixed::Operator(Operator::PartialSurjections)),
        (b"first", Fixed::Function(Function::First)),
        (b"front", Fixed::Function(Function::Front)),
    ],
    &[(b",", Fixed::Mark(Mark::Comma))],
    &[
        (b"-", Fixed::Operator(Operator::Minus)),
        (b"->", Fixed::Operator(Operator::Prepend)),
        (b"-->", Fixed::Operator(Operator::TotalFunctions)),
        (b"-->>", Fixed::Operator(Operator::TotalSurjections)),
    ],
    &[
        (b"..", Fixed::Operator(Operator::Interval)),
        (b"inter", Fixed::Function(Function::Inter)),
        (b"id", Fixed::Function(Function::Id)),
        (b"iseq", Fixed::Function(Function::Iseq)),
        (b"iterate", Fixed::Function(Function::Iterate)),
        (b".", Fixed::Mark(Mark::Dot)),
    ],
    &[
        (b"/", Fixed::Operator(Operator::Divide)),
        (b"/\\", Fixed::Operator(Operator::Intersection)),
        (b"/|\\", Fixed::Operator(Operator::Take)),
        (b"/:", Fixed::Operator(Operator::NotMember)),
        (b"/<:", Fixed::Operator(Operator::NotSubset)),
        (b"/<<:", Fixed::Operator(Operator::NotStrictSubset)),
        (b"/=", Fixed::Operator(Operator::NotEqual)),
    ],
    &[],
    &[(b"last", Fixed::Function(Function::Last))],
    &[
        (b"mod", Fixed::Operator(Operator::Modulo)),
        (b"min", Fixed::Function(Function::Min)),
        (b"max", Fixed::Function(Function::Max)),
    ],
    &[(b"not", Fixed::Function(Function::Not))],
    &[(b"or", Fixed::Operator(Operator::Or))],
    &[
        (b"pred", Fixed::Function(Function::Pred)),
        (b"perm", Fixed::Function(Function::Perm)),
        (b"prj1", Fixed::Function(Function::Prj1)),
        (b"prj2", Fixed::Function(Function::Prj2)),
    ],
    &[],
    &[
        (b"ran", Fixed::Function(Function::Ran)),
        (b"rev", Fixed::Function(Function::Rev)),
    ],
    &[
        (b"succ", Fixed::Function(Function::Succ)),
        (b"seq", Fixed::Function(Function::Seq)),
        (b"seq1", Fixed::Function(Function::Seq1)),
        (b"size", Fixed::Function(Function::Size)),
    ],
    &[(b"tail", Fixed::Function(Function::Tail))],
    &[
        (b":", Fixed::Operator(Operator::Member)),
        (b"union", Fixed::Function(Function::Union)),
    ],
];

fn lookup(mut table: &[(&[u8], Fixed)], spelling: &[u8]) -> Fixed
    ensures { result ≡ spec.lookup (spec.entries table.entry.now) spelling.now }
{
    while let [entry, rest @ ..] = table {
        if entry.0 == spelling {
            return entry.1;
        }
        table = rest;
    }
    Fixed::Other
}

// One row of a table.
fn row_of(
    table: &[&'static [(&'static [u8], Fixed)]],
    row: usize,
) -> &'static [(&'static [u8], Fixed)]
    requires { row < length table.now }
    ensures { spec.entries result.now ≡ slice_index_or (map (λ r. spec.entries r.now) table.now) row [] }
{
    table[row]
}

// The signs and words that may begin with this byte.
fn spellings_with(first: u8) -> &'static [(&'static [u8], Fixed)]
    ensures { spec.entries result.now ≡ filter (λ e. is_in_row 59 (first % 59) e.0) spec.spellings }
{
    row_of(&SPELLINGS, (first % 59) as usize)
}

fn find_fixed(spelling: &[u8]) -> Fixed
    ensures { result ≡ spec.fixed_of spelling.now }
{
    match spelling {
        [] => Fixed::Other,
        [first, ..] => lookup(spellings_with(*first), spelling),
    }
}

fn symbol_of_fixed(fixed: Fixed) -> Symbol
    ensures { result ≡ spec.symbol_of_fixed fixed }
{
    match fixed {
        Fixed::Constant(c) => Symbol::Constant(c),
        Fixed::Operator(o) => Symbol::Operator(o),
        Fixed::Function(f) => Symbol::Function(f),
        Fixed::Quantifier(q) => Symbol::Quantifier(q),
        Fixed::Collector(c) => Symbol::Collector(c),
        Fixed::Mark(m) => Symbol::Mark(m),
        Fixed::Other => Symbol::Other,
    }
}

/// What a token of this kind and spelling is to the grammar.
pub fn symbol_of(alloc: Global, kind: TokenKind, spelling: &[u8]) -> Result<Symbol, AllocError>
    ensures { IfOk result (λ s. s ≡ spec.symbol_of kind spelling.now) }
{
    match kind {
        TokenKind::Name => Ok(Symbol::Name(Items::from_slice(alloc, spelling)?)),
        TokenKind::Number => match number_value(spelling) {
            Some(n) => Ok(Symbol::Number(n)),
            None => Ok(Symbol::Other),
        },
        TokenKind::Text => Ok(Symbol::Text(Items::from_vec(text_value(alloc, spelling)?))),
        TokenKind::Word => Ok(symbol_of_fixed(find_fixed(spelling))),
        TokenKind::Sign => Ok(symbol_of_fixed(find_fixed(spelling))),
    }
}

fn lexeme_of(
    alloc: Global,
    machine: bool,
    spelling: &[u8],
    token: Token,
    depth: u64,
) -> Result<Lexeme, AllocError>
    ensures { IfOk result (λ l. l ≡ record { symbol = spec.symbol_of token.kind spelling.now; at = record { machine = machine; at = token.from; depth = depth } }) }
{
    let symbol = symbol_of(alloc, token.kind, spelling)?;
    Ok(Lexeme {
        symbol,
        at: Place {
            machine,
            at: token.from,
            depth,
        },
    })
}

/// The tokens of a text, each with its symbol and place. `machine` says whether it is the machine's text.
pub fn lexemes(
    alloc: Global,
    machine: bool,
    text: &[u8],
    mut tokens: &[Token],
) -> Result<Vec<Lexeme>, AllocError>
    requires { AreSpans 0 (length text.now) tokens.now }
    ensures { IfOk result (λ v. v.items ≡ spec.lexemes machine text.now tokens.entry.now) }
{
    let mut all = Vec::new(alloc);
    let mut depth = 0;
    while let [token, rest @ ..] = tokens {
        let spelling = token_text(text, *token);
        depth = depth_after(spelling, depth);
        all.push(lexeme_of(alloc, machine, spelling, *token, depth)?)?;
        tokens = rest;
    }
    Ok(all)
}
