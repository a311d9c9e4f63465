//! Names and formulas.
ghost use Rattle.std.specs.Prelude.{◌≡◌};
ghost use Rattle.b_machine_grammar.specs.Grammar as grammar;
ghost use Rattle.b_stretches.specs.Stretches.{pieces, Answers};
ghost use Rattle.b_read_parts.specs.Parts as spec;

use b_ast::{Bound, Formula};
use b_grammar::{Lexeme, Symbol};
use b_machine_grammar::words::Word;
use b_read_expr::tree_of;
use b_stretches::{Stretch, Unread, behind, count_of, cut_at, first, stuck, stuck_before};
use sqlite_items::Items;
use std::alloc::Global;

// The name of a symbol that is one.
fn spelled(symbol: &Symbol) -> Option<&Items<u8>>
    ensures { spec.now_of result ≡ spec.spelled symbol.now }
{
    match symbol {
        Symbol::Name(name) => Some(name),
        _ => None,
    }
}

/// The name that a lexeme is.
pub fn name_at(alloc: Global, lexeme: &Lexeme) -> Result<Bound, Unread>
    ensures { Answers (spec.IsNameAt lexeme.now) result }
{
    match spelled(&lexeme.symbol) {
        Some(name) => Ok(Bound {
            name: Items::from_slice(alloc, name.as_slice())?,
            at: lexeme.at,
        }),
        None => Err(Unread::NoMachine(lexeme.at.at)),
    }
}

/// The name that a stretch is.
pub fn name(alloc: Global, s: Stretch<'_>) -> Result<Bound, Unread>
    ensures { Answers (grammar.IsName (pieces s.entry)) result }
{
    match first(s) {
        None => Err(stuck(s)),
        Some((_, lexeme, more)) => match first(more) {
            None => name_at(alloc, lexeme),
            Some(_) => Err(stuck(more)),
        },
    }
}

/// Names with commas between them.
pub fn names(alloc: Global, s: Stretch<'_>) -> Result<Items<Bound>, Unread>
    ensures { Answers (grammar.IsNames (pieces s.entry)) result }
{
    let mut all = Items::new(alloc);
    let mut rest = Some(s);
    while let Some(part) = rest {
        let split = cut_at(part, Word::Comma);
        let one = name(alloc, split.front)?;
        all.push(one)?;
        rest = behind(split.next);
    }
    Ok(all)
}

// The lexemes of a stretch.
#[tactic(auto, using(crate::proofs::Forms::lexemes_of, crate::proofs::Forms::fits_lexemes))]
fn lexemes_in<'a>(s: Stretch<'a>) -> &'a [Lexeme]
    ensures { result.now ≡ spec.lexemes_in (pieces s.entry) }
{
    let (lexemes, _) = s.lexemes.split_at(count_of(s));
    lexemes
}

/// The formula that a stretch is.
pub fn written(alloc: Global, s: Stretch<'_>) -> Result<Formula, Unread>
    ensures { Answers (grammar.IsWritten (pieces s.entry)) result }
{
    match tree_of(alloc, lexemes_in(s)) {
        Ok(tree) => Ok(tree),
        Err(b_read_expr::Unread::NoTree(left)) => Err(stuck_before(s, left)),
        Err(b_read_expr::Unread::Memory) => Err(Unread::Memory),
    }
}

/// Formulas with commas between them.
pub fn written_list(alloc: Global, s: Stretch<'_>) -> Result<Items<Formula>, Unread>
    ensures { Answers (grammar.IsWrittenList (pieces s.entry)) result }
{
    let mut all = Items::new(alloc);
    let mut rest = Some(s);
    while let Some(part) = rest {
        let split = cut_at(part, Word::Comma);
        let one = written(alloc, split.front)?;
        all.push(one)?;
        rest = behind(split.next);
    }
    Ok(all)
}
