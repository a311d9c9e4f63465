//! Cuts a text into tokens.
ghost use Rattle.std.specs.Prelude.{◌≡◌, ◌≤◌, ◌<◌, ℕ, List, length, IfOk};
ghost use Rattle.b_lex.specs.declared.tokens.Token.{Token};
ghost use Rattle.b_lex.specs.declared.tokens.LexKind.{LexKind};
ghost use Rattle.b_lex.specs.Fronts.{Begins, IsWithin};
ghost use Rattle.b_lex.specs.Reading.{Lexes, AreTokens, IsFirstFault, AreSpans, spelling};
ghost use Rattle.b_lex.specs.Spelling.{AreSpelled};

use crate::fronts::Front;
use crate::strings::string_front;
use crate::words::plain_front;
use crate::{LexFault, Token};
use std::alloc::Global;

// What stands at the front of a text.
fn front_at(text: &[u8]) -> Front
    requires { 0 < length text.now }
    ensures begins { Begins text.now result }
    ensures within { IsWithin (length text.now) result }
{
    let [b, inside @ ..] = text else {
        unreachable!();
    };
    if *b == b'"' {
        string_front(inside)
    } else {
        plain_front(text)
    }
}

/// The tokens of a text, in order, or its first fault.
pub fn lex(alloc: Global, text: &[u8]) -> Result<Vec<Token>, LexFault>
    // These are the tokens, or this is the first fault in reading order.
    ensures exact { Lexes text.now result }
    // Their spans stand in order within the text.
    ensures spans { IfOk result (λ tokens. AreSpans 0 (length text.now) tokens.items) }
{
    let mut tokens = Vec::new(alloc);
    let mut at = 0;
    'fronts: while at < text.len() {
        let (_, rest) = text.split_at(at);
        match front_at(rest) {
            Front::Skip(n) => at += n,
            Front::Take(kind, n) => {
                let token = Token {
                    kind,
                    from: at as u64,
                    to: (at + n) as u64,
                };
                match tokens.push(token) {
                    Ok(()) => at += n,
                    Err(_) => return Err(LexFault::Memory),
                }
            }
            Front::Stop(kind, n) => return Err(LexFault::Refused {
                kind,
                at: (at + n) as u64,
            }),
        }
    }
    Ok(tokens)
}

/// The bytes that spell a token of a text.
pub fn token_text(text: &[u8], token: Token) -> &[u8]
    requires order { token.from ≤ token.to }
    requires within { token.to ≤ length text.now }
    ensures { result.now ≡ spelling text.entry.now token }
{
    &text[token.from as usize..token.to as usize]
}

/// The tokens of a text are spelled as their kinds say, and their spans stand in order within it.
pub fn spelled_tokens()
    ensures spelled { (text : List ℕ) (tokens : List Token) → AreTokens text tokens → AreSpelled text tokens }
    ensures spans { (text : List ℕ) (tokens : List Token) → AreTokens text tokens → AreSpans 0 (length text) tokens }
{}

/// A text has one row of tokens or one first fault, and not both.
pub fn one_reading()
    ensures tokens { (text : List ℕ) (a b : List Token) → AreTokens text a → AreTokens text b → a ≡ b }
    ensures fault { (text : List ℕ) (k l : LexKind) (i j : ℕ) → IsFirstFault text k i → IsFirstFault text l j → (k ≡ l) × (i ≡ j) }
    ensures apart { (text : List ℕ) (a : List Token) (k : LexKind) (i : ℕ) → AreTokens text a → IsFirstFault text k i → ⊥ }
{}
