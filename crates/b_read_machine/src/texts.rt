//! Machines read from texts, or the first reason why a text is none.
ghost use Rattle.std.specs.Prelude.{◌≡◌, length, is_some, min};
ghost use Rattle.b_expand.specs.declared.faults.ParseFault.TheVariants as fault;
ghost use Rattle.b_lex.specs.Reading.{AreSpans};
ghost use Rattle.b_stretches.specs.Stretches.{pieces, zipped};
ghost use Rattle.b_read_machine.specs.Texts as spec;

use crate::machines::machine_tree;
use crate::rules::left_out;
use b_expand::{ParseFault, ParseKind};
use b_grammar::Lexeme;
use b_grammar::symbols::lexemes;
use b_lex::Token;
use b_machine_grammar::trees::MachineTree;
use b_machine_grammar::words::{Word, begins_clause, words};
use b_stretches::{Stretch, Unread, first, is_word};
use std::alloc::Global;

// How many brackets may be open at one place.
const MOST_OPEN: u64 = 100;

// The place of the first lexeme behind which more brackets are open.
#[tactic(auto, using(crate::proofs::Deep::deep_first, crate::proofs::Deep::shallow_first))]
fn first_deep(s: Stretch<'_>) -> Option<u64>
    ensures { is_some result ≡ spec.is_deep (pieces s.entry) }
{
    let mut rest = s;
    while let Some((_, lexeme, more)) = first(rest) {
        if lexeme.at.depth > MOST_OPEN {
            return Some(lexeme.at.at);
        }
        rest = more;
    }
    None
}

// A refusal at a place of a text that ends there.
fn refused(kind: ParseKind, at: u64, end: u64) -> ParseFault
    ensures { result ≡ fault.Refused kind (min at end) }
{
    ParseFault::Refused {
        kind,
        at: at.min(end),
    }
}

// Whether no more than 100 brackets are open anywhere and nothing is left out.
fn plain(words: &[Word], lexemes: &[Lexeme], end: u64) -> Result<(), ParseFault>
    ensures { spec.IsPlainAs (zipped words.now lexemes.now) end result }
{
    match first_deep(Stretch {
        words,
        lexemes,
        end,
    }) {
        Some(at) => Err(refused(ParseKind::TooDeep, at, end)),
        None => match left_out(words, lexemes) {
            Some(at) => Err(refused(ParseKind::LeftOut, at, end)),
            None => Ok(()),
        },
    }
}

fn tree_in(alloc: Global, s: Stretch<'_>) -> Result<MachineTree, ParseFault>
    ensures { spec.IsTreeAs (pieces s.entry) s.entry.end result }
{
    match machine_tree(alloc, s) {
        Ok(machine) => Ok(machine),
        Err(Unread::NoMachine(at)) => Err(refused(ParseKind::NotASentence, at, s.end)),
        Err(Unread::Memory) => Err(ParseFault::Memory),
    }
}

// Whether a lexeme behind this word stands in DEFINITIONS.
fn in_definitions(inside: bool, word: Word) -> bool
    ensures { result ≡ spec.in_definitions inside word }
{
    if begins_clause(word) {
        is_word(word, Word::Definitions)
    } else {
        inside
    }
}

// Whether this word is counted one bracket less.
fn counts_less(inside: bool, word: Word) -> bool
    ensures { result ≡ spec.counts_less inside word }
{
    inside && !begins_clause(word)
}

// Counts one bracket less at a lexeme, if so.
fn recount(lexeme: &mut Lexeme, less: bool)
    ensures { lexeme.new ≡ spec.recounted less lexeme.old }
{
    if less {
        lexeme.at.depth = lexeme.at.depth.saturating_sub(1);
    }
}

// The first word and the others, if there are some.
fn split(words: &[Word]) -> Option<(Word, &[Word])>
    ensures { spec.IsSplit words.now result }
{
    match words {
        [word, rest @ ..] => Some((*word, rest)),
        [] => None,
    }
}

// Places in definitions count brackets from their own beginning.
fn count_in_definitions(words: &[Word], lexemes: &mut [Lexeme])
    ensures { zipped words.now lexemes.new ≡ spec.counted (zipped words.now lexemes.old) }
{
    let mut rest = words;
    let mut inside = false;
    let mut count = 0;
    while let Some((word, more)) = split(rest) {
        if count == lexemes.len() {
            return;
        }
        let less = counts_less(inside, word);
        recount(&mut lexemes[count], less);
        inside = in_definitions(inside, word);
        count += 1;
        rest = more;
    }
}

// The tree of a text in which no more than 100 brackets are open and nothing is left out.
fn plain_machine(
    alloc: Global,
    words: &[Word],
    lexemes: &mut [Lexeme],
    end: u64,
) -> Result<MachineTree, ParseFault>
    ensures { spec.IsTreeAs (spec.counted (zipped words.now lexemes.old)) end result }
{
    count_in_definitions(words, lexemes);
    tree_in(
        alloc,
        Stretch {
            words,
            lexemes,
            end,
        },
    )
}

// The tree of lexemes with their words.
fn machine_in(
    alloc: Global,
    words: &[Word],
    lexemes: &mut [Lexeme],
    end: u64,
) -> Result<MachineTree, ParseFault>
    ensures { spec.IsReadAs (zipped words.now lexemes.old) end result }
{
    match plain(words, lexemes, end) {
        Ok(()) => plain_machine(alloc, words, lexemes, end),
        Err(fault) => Err(fault),
    }
}

/// The tree of a machine's text as it stands, before its definitions are expanded. A refusal has the place of the token
/// where no machine can go on, of the first token behind which too many brackets are open, or of what is left out.
pub fn machine_of_text(
    alloc: Global,
    text: &[u8],
    tokens: &[Token],
) -> Result<MachineTree, ParseFault>
    requires { AreSpans 0 (length text.now) tokens.now }
    ensures { spec.IsReadAs (spec.pieces_of text.now tokens.now) (length text.now) result }
{
    match words(alloc, text, tokens) {
        Ok(words) => match lexemes(alloc, true, text, tokens) {
            Ok(mut lexemes) => machine_in(
                alloc,
                words.as_slice(),
                lexemes.as_mut_slice(),
                text.len() as u64,
            ),
            Err(_) => Err(ParseFault::Memory),
        },
        Err(_) => Err(ParseFault::Memory),
    }
}
