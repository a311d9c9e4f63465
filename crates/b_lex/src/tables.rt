//! The reserved words and the signs, and how a text is looked up among them: in the one row of a table that its first
//! byte names.
ghost use Rattle.std.specs.Prelude.{◌≡◌, ◌<◌, ◌≤◌, ◌%◌, [], map, filter, length, slice_index_or};
ghost use Rattle.b_lex.specs.Tables.{has_entry, longest, words, left_out_words, signs, is_reserved, is_in_row};

// The reserved words that are read. A word stands in the row that its first letter's code has modulo 32: its number in the
// alphabet.
const WORDS: [&[&[u8]]; 32] = [
    &[],
    &[
        b"ASSERT",
        b"ANY",
        b"ABSTRACT_CONSTANTS",
        b"ABSTRACT_VARIABLES",
        b"ASSERTIONS",
    ],
    &[b"bool", b"BOOL", b"BEGIN", b"BE"],
    &[
        b"closure",
        b"closure1",
        b"card",
        b"conc",
        b"CHOICE",
        b"CASE",
        b"CONSTANTS",
        b"CONCRETE_CONSTANTS",
        b"CONCRETE_VARIABLES",
    ],
    &[b"dom", b"DEFINITIONS"],
    &[b"ELSIF", b"ELSE", b"EITHER", b"END"],
    &[b"FIN", b"FIN1", b"first", b"front", b"FALSE"],
    &[],
    &[],
    &[
        b"INTER",
        b"inter",
        b"id",
        b"iterate",
        b"iseq",
        b"INTEGER",
        b"INT",
        b"IF",
        b"IN",
        b"INVARIANT",
        b"INITIALISATION",
    ],
    &[],
    &[],
    &[b"last", b"LET"],
    &[b"mod", b"min", b"max", b"MININT", b"MAXINT", b"MACHINE"],
    &[b"not", b"NATURAL", b"NATURAL1", b"NAT", b"NAT1"],
    &[b"or", b"OR", b"OF", b"OPERATIONS"],
    &[
        b"POW",
        b"POW1",
        b"PI",
        b"prj1",
        b"prj2",
        b"pred",
        b"perm",
        b"PRE",
        b"PROPERTIES",
    ],
    &[],
    &[b"ran", b"rev"],
    &[
        b"SIGMA", b"succ", b"seq", b"seq1", b"size", b"STRING", b"skip", b"SELECT", b"SETS",
    ],
    &[b"tail", b"TRUE", b"THEN"],
    &[b"UNION", b"union"],
    &[b"VARIABLES"],
    &[b"WHEN", b"WHERE"],
    &[],
    &[],
    &[],
    &[],
    &[],
    &[],
    &[],
    &[],
];

// The reserved words that are left out of this profile of B, in such rows.
const LEFT_OUT: [&[&[u8]]; 32] = [
    &[],
    &[],
    &[],
    &[b"CONSTRAINTS"],
    &[b"DO"],
    &[b"EXTENDS"],
    &[],
    &[],
    &[],
    &[b"IMPLEMENTATION", b"INCLUDES", b"IMPORTS"],
    &[],
    &[],
    &[b"LOCAL_OPERATIONS"],
    &[],
    &[],
    &[],
    &[b"PROMOTES"],
    &[],
    &[b"REFINEMENT", b"REFINES", b"rec"],
    &[b"SEES", b"struct"],
    &[],
    &[b"USES"],
    &[b"VALUES", b"VAR", b"VARIANT"],
    &[b"WHILE"],
    &[],
    &[],
    &[],
    &[],
    &[],
    &[],
    &[],
    &[],
];

// Operators, brackets and what separates, by their first byte modulo 37: so each row has signs with one first byte.
const SIGNS: [&[&[u8]]; 37] = [
    &[b"%"],
    &[b"&"],
    &[],
    &[b"("],
    &[b")"],
    &[b"*", b"**"],
    &[b"+", b"+->", b"+->>"],
    &[b","],
    &[b"-", b"-->", b"-->>", b"->"],
    &[b"..", b"."],
    &[b"/:", b"/<:", b"/<<:", b"/=", b"/\\", b"/", b"/|\\"],
    &[],
    &[b"{"],
    &[b"|>", b"|>>", b"||", b"|", b"|->"],
    &[b"}"],
    &[b"~"],
    &[],
    &[b"["],
    &[b"\\/", b"\\|/"],
    &[b"]"],
    &[b"^"],
    &[b":", b":=", b"::"],
    &[b";"],
    &[
        b"<=>", b"<:", b"<<:", b"<", b"<=", b"<->", b"<|", b"<<|", b"<+", b"<-", b"<--", b"<>",
    ],
    &[b"=>", b"=", b"=="],
    &[b">", b">=", b">+>", b">->", b">->>", b"><"],
    &[],
    &[],
    &[],
    &[],
    &[],
    &[],
    &[],
    &[b"!"],
    &[],
    &[b"#"],
    &[b"$0"],
];

// Whether the table has this entry.
fn find_entry(table: &[&[u8]], entry: &[u8]) -> bool
    ensures { result ≡ has_entry (map (λ e. e.now) table.now) entry.now }
{
    for e in table {
        if entry == *e {
            return true;
        }
    }
    false
}

// How many bytes the longest entry has that the text begins with, 0 where it begins with none.
fn longest_entry(table: &[&[u8]], text: &[u8]) -> usize
    ensures value { result ≡ longest (map (λ e. e.now) table.now) text.now }
    ensures within { result ≤ length text.now }
{
    let mut most = 0;
    for entry in table {
        if entry.len() > most && text.starts_with(*entry) {
            most = entry.len();
        }
    }
    most
}

// One row of a table.
fn row_of(table: &[&'static [&'static [u8]]], row: usize) -> &'static [&'static [u8]]
    requires { row < length table.now }
    ensures { map (λ e. e.now) result.now ≡ slice_index_or (map (λ r. map (λ e. e.now) r.now) table.now) row [] }
{
    table[row]
}

// The reserved words that are read and may begin with this byte.
fn words_with(first: u8) -> &'static [&'static [u8]]
    ensures { map (λ e. e.now) result.now ≡ filter (is_in_row 32 (first % 32)) words }
{
    row_of(&WORDS, (first % 32) as usize)
}

// The reserved words that are left out and may begin with this byte.
fn left_out_with(first: u8) -> &'static [&'static [u8]]
    ensures { map (λ e. e.now) result.now ≡ filter (is_in_row 32 (first % 32)) left_out_words }
{
    row_of(&LEFT_OUT, (first % 32) as usize)
}

// The signs that may begin with this byte.
fn signs_with(first: u8) -> &'static [&'static [u8]]
    ensures { map (λ e. e.now) result.now ≡ filter (is_in_row 37 (first % 37)) signs }
{
    row_of(&SIGNS, (first % 37) as usize)
}

/// Whether a word is one of the reserved words that this profile of B leaves out.
pub fn is_left_out(word: &[u8]) -> bool
    ensures { result ≡ has_entry left_out_words word.now }
{
    match word {
        [] => false,
        [first, ..] => find_entry(left_out_with(*first), word),
    }
}

// Whether a word is one of the reserved words that are read.
fn kept_word(word: &[u8]) -> bool
    ensures { result ≡ has_entry words word.now }
{
    match word {
        [] => false,
        [first, ..] => find_entry(words_with(*first), word),
    }
}

// Whether this is a reserved word.
pub(crate) fn reserved_word(word: &[u8]) -> bool
    ensures { result ≡ is_reserved word.now }
{
    kept_word(word) || is_left_out(word)
}

// How many bytes the sign at the front of the text has, 0 where no sign stands there.
pub(crate) fn sign_len(text: &[u8]) -> usize
    ensures value { result ≡ longest signs text.now }
    ensures within { result ≤ length text.now }
{
    match text {
        [] => 0,
        [first, ..] => longest_entry(signs_with(*first), text),
    }
}
