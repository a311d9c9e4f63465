//! How many brackets are open at each token.
ghost use Rattle.std.specs.Prelude.{◌≡◌, ◌<◌, ◌^◌, ◌-◌, map};
ghost use Rattle.b_lex.specs.Tables.{has_entry};
ghost use Rattle.b_grammar.specs.Symbols as spec;

const OPENERS: [&[u8]; 14] = [
    b"(", b"{", b"[", b"BEGIN", b"PRE", b"ASSERT", b"CHOICE", b"IF", b"SELECT", b"CASE", b"EITHER",
    b"ANY", b"LET", b"MACHINE",
];

const CLOSERS: [&[u8]; 4] = [b")", b"}", b"]", b"END"];

fn is_among(table: &[&[u8]], word: &[u8]) -> bool
    ensures { result ≡ has_entry (map (λ e. e.now) table.now) word.now }
{
    for entry in table {
        if word == *entry {
            return true;
        }
    }
    false
}

fn opens(word: &[u8]) -> bool
    ensures { result ≡ has_entry spec.openers word.now }
{
    is_among(&OPENERS, word)
}

fn closes(word: &[u8]) -> bool
    ensures { result ≡ has_entry spec.closers word.now }
{
    is_among(&CLOSERS, word)
}

/// How many brackets are open behind a token of this spelling, where so many are open before it.
pub fn depth_after(word: &[u8], depth: u64) -> u64
    requires { depth < 2 ^ 64 - 1 }
    ensures { result ≡ spec.depth_after word.now depth }
{
    if opens(word) {
        depth + 1
    } else if closes(word) {
        depth.saturating_sub(1)
    } else {
        depth
    }
}
