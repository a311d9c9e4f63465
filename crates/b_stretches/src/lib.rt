//! Stretches of a machine's text and where they are cut.
#![tactic(auto)]

ghost use Rattle.std.specs.Prelude.{◌≡◌, ◌≤◌, ◌<◌, ◌^◌, ◌-◌, length, take};
ghost use Rattle.b_machine_grammar.specs.Cuts.{depth_behind};
ghost use Rattle.b_stretches.specs.declared.Unread.TheVariants.{Memory};
ghost use Rattle.b_stretches.specs.Stretches as spec;

mod answers;

pub use answers::{pair, push_read};
use b_grammar::Lexeme;
use b_machine_grammar::words::{Separator, Word, closes, opens, separates};
use std::alloc::AllocError;

/// Why no tree was read.
#[derive(Clone, Copy, Debug, PartialEq, Eq)]
pub enum Unread {
    /// The grammar has none. Reading stopped at this place of the text.
    NoMachine(u64),
    Memory,
}

impl From<AllocError> for Unread {
    ghost from_gives = { λ _ e. e ≡ Memory };

    fn from(_error: AllocError) -> Unread {
        Unread::Memory
    }
}

/// Lexemes with their words, and the place of what follows them.
#[derive(Clone, Copy)]
pub struct Stretch<'a> {
    pub words: &'a [Word],
    pub lexemes: &'a [Lexeme],
    pub end: u64,
}

/// A stretch up to a separator, that with its lexeme, and what is behind it.
#[derive(Clone, Copy)]
pub struct Split<'a> {
    pub front: Stretch<'a>,
    pub next: Option<Follow<'a>>,
}

/// A separator, its lexeme and what is behind it.
pub type Follow<'a> = (Word, &'a Lexeme, Stretch<'a>);

/// The first lexeme and the others.
pub fn first<'a>(s: Stretch<'a>) -> Option<Follow<'a>>
    ensures { spec.IsFirst (spec.pieces s.entry) result }
{
    match s.words {
        [] => None,
        [word, words @ ..] => match s.lexemes {
            [] => None,
            [lexeme, lexemes @ ..] => Some((
                *word,
                lexeme,
                Stretch {
                    words,
                    lexemes,
                    end: s.end,
                },
            )),
        },
    }
}

/// How many lexemes there are.
#[tactic(auto, using(crate::proofs::Pieces::length_short, crate::proofs::Pieces::length_long))]
pub fn count_of(s: Stretch<'_>) -> usize
    ensures { result ≡ length (spec.pieces s.entry) }
{
    if s.words.len() < s.lexemes.len() {
        s.words.len()
    } else {
        s.lexemes.len()
    }
}

/// Reading stopped where this begins.
pub fn stuck(s: Stretch<'_>) -> Unread
    ensures { spec.IsNoMachine result }
{
    match s.lexemes {
        [] => Unread::NoMachine(s.end),
        [lexeme, ..] => Unread::NoMachine(lexeme.at.at),
    }
}

/// Reading stopped where so many lexemes were left.
pub fn stuck_before(s: Stretch<'_>, left: usize) -> Unread
    ensures { spec.IsNoMachine result }
{
    match s.lexemes.get(s.lexemes.len().saturating_sub(left)) {
        Some(lexeme) => Unread::NoMachine(lexeme.at.at),
        None => Unread::NoMachine(s.end),
    }
}

/// Reading stopped where this ends.
pub fn stuck_behind(s: Stretch<'_>) -> Unread
    ensures { spec.IsNoMachine result }
{
    Unread::NoMachine(s.end)
}

/// Whether these are the same word.
pub fn is_word(word: Word, other: Word) -> bool
    ensures { result ≡ spec.is_word word other }
{
    word == other
}

// How many brackets are open behind a word.
fn depth_after(word: Word, depth: usize) -> usize
    requires { depth < 2 ^ 64 - 1 }
    ensures { result ≡ depth_behind word depth }
{
    if opens(word) {
        depth + 1
    } else if closes(word) {
        depth.saturating_sub(1)
    } else {
        depth
    }
}

// So many lexemes from the front.
#[tactic(auto, using(crate::proofs::Pieces::front_pieces, crate::proofs::Pieces::fits_words, crate::proofs::Pieces::fits_lexemes))]
fn front_of<'a>(s: Stretch<'a>, count: usize, end: u64) -> Stretch<'a>
    requires { count ≤ length (spec.pieces s) }
    ensures { spec.pieces result ≡ take count (spec.pieces s.entry) }
{
    let (words, _) = s.words.split_at(count);
    let (lexemes, _) = s.lexemes.split_at(count);
    Stretch {
        words,
        lexemes,
        end,
    }
}

fn ends_part(separator: Separator, depth: usize, word: Word) -> bool
    ensures { result ≡ spec.ends_part separator depth word }
{
    depth == 0 && separates(separator, word)
}

/// Cut at the first separator outside brackets.
pub fn cut<'a>(s: Stretch<'a>, separator: Separator) -> Split<'a>
    ensures { spec.IsCutAs (spec.cut separator (spec.pieces s.entry)) result }
{
    let most = count_of(s);
    let mut rest = s;
    let mut depth = 0;
    let mut count = 0;
    while let Some((word, lexeme, more)) = first(rest) {
        if ends_part(separator, depth, word) {
            return Split {
                front: front_of(s, count, lexeme.at.at),
                next: Some((word, lexeme, more)),
            };
        }
        depth = depth_after(word, depth);
        count += 1;
        rest = more;
    }
    Split {
        front: s,
        next: None,
    }
}

/// Cut at the first such word outside brackets.
pub fn cut_at<'a>(s: Stretch<'a>, word: Word) -> Split<'a>
    ensures { spec.IsCutAs (spec.cut_at word (spec.pieces s.entry)) result }
{
    cut(s, Separator::At(word))
}

// What follows, unless it is the last lexeme.
fn unless_last<'a>(next: Option<Follow<'a>>) -> Option<Follow<'a>>
    ensures { spec.next_of result ≡ spec.unless_last (spec.next_of next.entry) }
{
    match next {
        None => None,
        Some((word, lexeme, more)) => match first(more) {
            None => None,
            Some(_) => Some((word, lexeme, more)),
        },
    }
}

/// What is behind a separator, if there is one.
pub fn behind<'a>(next: Option<Follow<'a>>) -> Option<Stretch<'a>>
    ensures { result ≡ spec.behind next.entry }
{
    match next {
        None => None,
        Some((_, _, more)) => Some(more),
    }
}

/// The same, where one more such word may stand at the end.
pub fn cut_before<'a>(s: Stretch<'a>, word: Word) -> Split<'a>
    ensures { spec.IsCutAs (spec.cut_before word (spec.pieces s.entry)) result }
{
    let cut = cut_at(s, word);
    Split {
        front: cut.front,
        next: unless_last(cut.next),
    }
}

/// What stands on both sides of the first such word outside brackets.
pub fn halves<'a>(s: Stretch<'a>, word: Word) -> Result<(Stretch<'a>, Stretch<'a>), Unread>
    ensures { spec.IsHalvedAs (spec.cut_at word (spec.pieces s.entry)) result }
{
    let cut = cut_at(s, word);
    match cut.next {
        None => Err(stuck_behind(s)),
        Some((_, _, back)) => Ok((cut.front, back)),
    }
}

/// What stands before a word that is the last lexeme.
pub fn ended<'a>(s: Stretch<'a>, word: Word) -> Result<Stretch<'a>, Unread>
    ensures { spec.IsEndedAs (spec.cut_at word (spec.pieces s.entry)) result }
{
    let cut = cut_at(s, word);
    match cut.next {
        None => Err(stuck_behind(s)),
        Some((_, _, more)) => match first(more) {
            None => Ok(cut.front),
            Some(_) => Err(stuck(more)),
        },
    }
}

/// What stands between a first word and a last one.
pub fn enclosed<'a>(s: Stretch<'a>, opening: Word, closing: Word) -> Result<Stretch<'a>, Unread>
    ensures { spec.IsEnclosedAs opening (spec.cut_at closing) (spec.pieces s.entry) result }
{
    match first(s) {
        None => Err(stuck(s)),
        Some((word, _, more)) => {
            if is_word(word, opening) {
                ended(more, closing)
            } else {
                Err(stuck(s))
            }
        }
    }
}
