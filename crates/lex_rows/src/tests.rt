// Tables of texts, and what each is cut into.
use b_lex::{LexFault, TokenKind, lex};
use std::alloc::{AllocError, Global};
use std::process::Abort;
use std::test::Fail;

mod long;
mod rows;
mod tables;
mod tokens;

// The letter of a kind of token.
fn letter(kind: TokenKind) -> u8 {
    match kind {
        TokenKind::Name => b'n',
        TokenKind::Number => b'd',
        TokenKind::Text => b't',
        TokenKind::Word => b'w',
        TokenKind::Sign => b's',
    }
}

// One letter for each byte of a token, the first one great.
fn add_token(shown: &mut Vec<u8>, letter: u8, len: u64) -> Result<(), AllocError> {
    for i in 0..len {
        if i == 0 {
            shown.push(letter.to_ascii_uppercase())?;
        } else {
            shown.push(letter)?;
        }
    }
    Ok(())
}

fn add_dots(shown: &mut Vec<u8>, count: u64) -> Result<(), AllocError> {
    for _ in 0..count {
        shown.push(b'.')?;
    }
    Ok(())
}

// What a text is cut into, in the notation of the tables.
fn shown(alloc: Global, text: &[u8]) -> Result<Vec<u8>, Fail> {
    match lex(alloc, text) {
        Ok(tokens) => {
            let mut shown = Vec::new(alloc);
            let mut at = 0u64;
            for token in &tokens {
                add_dots(&mut shown, token.from.saturating_sub(at))?;
                let len = token.to.saturating_sub(token.from);
                add_token(&mut shown, letter(token.kind), len)?;
                at = token.to;
            }
            add_dots(&mut shown, (text.len() as u64).saturating_sub(at))?;
            Ok(shown)
        }
        Err(LexFault::Refused { kind, at }) => {
            let fault = format!(in alloc; "!{kind:?} {at}")?;
            Ok(fault.into_bytes())
        }
        Err(LexFault::Memory) => Err(Fail::from("memory")),
    }
}

// What a text is cut into is as wanted.
fn expect_shown(rt: &impl Abort, alloc: Global, text: &[u8], wanted: &[u8]) -> Result<(), Fail> {
    let shown = shown(alloc, text)?;
    assert!(rt;
        shown.as_slice() == wanted,
        "{} is cut into {}",
        text.escape_ascii(),
        shown.as_slice().escape_ascii()
    );
    Ok(())
}
