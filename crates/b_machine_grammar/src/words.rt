//! What each token is to the grammar of machines.
ghost use Rattle.std.specs.Prelude.{◌≡◌, ◌≤◌, map, IfOk, length};
ghost use Rattle.b_lex.specs.Reading.{AreSpans};
ghost use Rattle.b_machine_grammar.specs.Words as spec;

use b_lex::{Token, TokenKind, token_text};
use std::alloc::{AllocError, Global};

/// What a token is to the grammar of machines, beside what it is to that of formulas.
#[derive(Clone, Copy, Debug, PartialEq, Eq)]
pub enum Word {
    /// A name.
    Name,
    /// A string.
    Text,
    Comma,
    Semicolon,
    /// `||`
    Parallel,
    /// `:=`
    Becomes,
    /// `::`
    ChosenFrom,
    /// `==`
    Defined,
    /// `<--`
    Results,
    /// `=`
    Equal,
    /// `:`
    Member,
    /// `&`
    And,
    RoundOpen,
    RoundClose,
    CurlyOpen,
    CurlyClose,
    SquareOpen,
    SquareClose,
    Skip,
    Begin,
    Pre,
    Assert,
    Choice,
    Or,
    If,
    Then,
    Elsif,
    Else,
    Select,
    When,
    Case,
    Of,
    Either,
    Any,
    Where,
    Let,
    Be,
    In,
    End,
    Machine,
    Sets,
    /// CONSTANTS and CONCRETE_CONSTANTS
    Constants,
    AbstractConstants,
    Properties,
    /// VARIABLES and ABSTRACT_VARIABLES
    Variables,
    ConcreteVariables,
    Invariant,
    Assertions,
    Definitions,
    Initialisation,
    Operations,
    /// A word that this profile of B leaves out.
    LeftOut,
    /// What only formulas have.
    Other,
}

/// What parts of a text stand between.
#[derive(Clone, Copy, Debug, PartialEq, Eq)]
pub enum Separator {
    /// This word.
    At(Word),
    /// `||` and `;`
    Joint,
    /// `:=` and `::`
    Becoming,
    /// The words that begin clauses.
    Clause,
}

// The signs and words of machines.
const SPELLINGS: [(&[u8], Word); 69] = [
    (b",", Word::Comma),
    (b";", Word::Semicolon),
    (b"||", Word::Parallel),
    (b":=", Word::Becomes),
    (b"::", Word::ChosenFrom),
    (b"==", Word::Defined),
    (b"<--", Word::Results),
    (b"=", Word::Equal),
    (b":", Word::Member),
    (b"&", Word::And),
    (b"(", Word::RoundOpen),
    (b")", Word::RoundClose),
    (b"{", Word::CurlyOpen),
    (b"}", Word::CurlyClose),
    (b"[", Word::SquareOpen),
    (b"]", Word::SquareClose),
    (b"skip", Word::Skip),
    (b"BEGIN", Word::Begin),
    (b"PRE", Word::Pre),
    (b"ASSERT", Word::Assert),
    (b"CHOICE", Word::Choice),
    (b"OR", Word::Or),
    (b"IF", Word::If),
    (b"THEN", Word::Then),
    (b"ELSIF", Word::Elsif),
    (b"ELSE", Word::Else),
    (b"SELECT", Word::Select),
    (b"WHEN", Word::When),
    (b"CASE", Word::Case),
    (b"OF", Word::Of),
    (b"EITHER", Word::Either),
    (b"ANY", Word::Any),
    (b"WHERE", Word::Where),
    (b"LET", Word::Let),
    (b"BE", Word::Be),
    (b"IN", Word::In),
    (b"END", Word::End),
    (b"MACHINE", Word::Machine),
    (b"SETS", Word::Sets),
    (b"CONSTANTS", Word::Constants),
    (b"CONCRETE_CONSTANTS", Word::Constants),
    (b"ABSTRACT_CONSTANTS", Word::AbstractConstants),
    (b"PROPERTIES", Word::Properties),
    (b"VARIABLES", Word::Variables),
    (b"ABSTRACT_VARIABLES", Word::Variables),
    (b"CONCRETE_VARIABLES", Word::ConcreteVariables),
    (b"INVARIANT", Word::Invariant),
    (b"ASSERTIONS", Word::Assertions),
    (b"DEFINITIONS", Word::Definitions),
    (b"INITIALISATION", Word::Initialisation),
    (b"OPERATIONS", Word::Operations),
    (b"REFINEMENT", Word::LeftOut),
    (b"IMPLEMENTATION", Word::LeftOut),
    (b"REFINES", Word::LeftOut),
    (b"INCLUDES", Word::LeftOut),
    (b"SEES", Word::LeftOut),
    (b"USES", Word::LeftOut),
    (b"EXTENDS", Word::LeftOut),
    (b"PROMOTES", Word::LeftOut),
    (b"IMPORTS", Word::LeftOut),
    (b"CONSTRAINTS", Word::LeftOut),
    (b"VALUES", Word::LeftOut),
    (b"LOCAL_OPERATIONS", Word::LeftOut),
    (b"VAR", Word::LeftOut),
    (b"WHILE", Word::LeftOut),
    (b"DO", Word::LeftOut),
    (b"VARIANT", Word::LeftOut),
    (b"rec", Word::LeftOut),
    (b"struct", Word::LeftOut),
];

fn lookup(mut table: &[(&[u8], Word)], spelling: &[u8]) -> Word
    ensures { result ≡ spec.lookup (map (λ e. (e.0.now, e.1)) table.entry.now) spelling.now }
{
    while let [entry, rest @ ..] = table {
        if entry.0 == spelling {
            return entry.1;
        }
        table = rest;
    }
    Word::Other
}

fn find_word(spelling: &[u8]) -> Word
    ensures { result ≡ spec.word_spelled spelling.now }
{
    lookup(&SPELLINGS, spelling)
}

/// What a token of this kind and spelling is to the grammar of machines.
pub fn word_of(kind: TokenKind, spelling: &[u8]) -> Word
    ensures { result ≡ spec.word_of kind spelling.now }
{
    match kind {
        TokenKind::Name => Word::Name,
        TokenKind::Number => Word::Other,
        TokenKind::Text => Word::Text,
        TokenKind::Word => find_word(spelling),
        TokenKind::Sign => find_word(spelling),
    }
}

/// What the tokens of a text are to the grammar of machines.
pub fn words(alloc: Global, text: &[u8], mut tokens: &[Token]) -> Result<Vec<Word>, AllocError>
    requires { AreSpans 0 (length text.now) tokens.now }
    ensures { IfOk result (λ v. v.items ≡ spec.words text.now tokens.entry.now) }
{
    let mut all = Vec::new(alloc);
    while let [token, rest @ ..] = tokens {
        all.push(word_of(token.kind, token_text(text, *token)))?;
        tokens = rest;
    }
    Ok(all)
}

/// Whether a word opens a bracket.
pub fn opens(word: Word) -> bool
    ensures { result ≡ spec.opens word }
{
    matches!(
        word,
        Word::RoundOpen
            | Word::CurlyOpen
            | Word::SquareOpen
            | Word::Begin
            | Word::Pre
            | Word::Assert
            | Word::Choice
            | Word::If
            | Word::Select
            | Word::Case
            | Word::Either
            | Word::Any
            | Word::Let
            | Word::Machine
    )
}

/// Whether a word closes a bracket.
pub fn closes(word: Word) -> bool
    ensures { result ≡ spec.closes word }
{
    matches!(
        word,
        Word::RoundClose | Word::CurlyClose | Word::SquareClose | Word::End
    )
}

/// Whether a word begins a clause.
pub fn begins_clause(word: Word) -> bool
    ensures { result ≡ spec.begins_clause word }
{
    matches!(
        word,
        Word::Sets
            | Word::Constants
            | Word::AbstractConstants
            | Word::Properties
            | Word::Variables
            | Word::ConcreteVariables
            | Word::Invariant
            | Word::Assertions
            | Word::Definitions
            | Word::Initialisation
            | Word::Operations
    )
}

/// Whether parts stand round this word.
pub fn separates(separator: Separator, word: Word) -> bool
    ensures { result ≡ spec.separates separator word }
{
    match separator {
        Separator::At(wanted) => wanted == word,
        Separator::Joint => matches!(word, Word::Parallel | Word::Semicolon),
        Separator::Becoming => matches!(word, Word::Becomes | Word::ChosenFrom),
        Separator::Clause => begins_clause(word),
    }
}
