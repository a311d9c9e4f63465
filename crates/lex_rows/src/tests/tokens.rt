// Each reserved word and each sign, and what tokens stand for.
use b_lex::{
    Token, TokenKind, is_left_out, lex, number_value, one_reading, spelled_tokens, text_value,
    token_text,
};
use std::alloc::Global;
use std::test::Fail;

// The text has one token, of this kind, and nothing else.
fn is_one(alloc: Global, text: &[u8], kind: TokenKind) -> bool {
    match lex(alloc, text) {
        Ok(tokens) => {
            let whole = Token {
                kind,
                from: 0,
                to: text.len() as u64,
            };
            tokens.as_slice() == [whole].as_slice()
        }
        Err(_) => false,
    }
}

const WORDS: &str =
    "or not mod POW POW1 FIN FIN1 UNION INTER SIGMA PI union inter dom ran id prj1 prj2 iterate closure closure1 card min max succ pred bool seq seq1 iseq perm size first last front tail rev conc INTEGER NATURAL NATURAL1 INT NAT NAT1 STRING BOOL TRUE FALSE MININT MAXINT skip BEGIN PRE ASSERT CHOICE OR IF THEN ELSIF ELSE SELECT WHEN CASE OF EITHER ANY WHERE LET BE IN END MACHINE SETS CONSTANTS CONCRETE_CONSTANTS ABSTRACT_CONSTANTS PROPERTIES VARIABLES ABSTRACT_VARIABLES CONCRETE_VARIABLES INVARIANT ASSERTIONS DEFINITIONS INITIALISATION OPERATIONS REFINEMENT IMPLEMENTATION REFINES INCLUDES SEES USES EXTENDS PROMOTES IMPORTS CONSTRAINTS VALUES LOCAL_OPERATIONS VAR WHILE DO VARIANT rec struct";

// Of these a letter less is a word as well.
const LONGER: [&str; 7] = [
    "POW1", "FIN1", "closure1", "seq1", "NATURAL1", "NAT1", "INT",
];

const SIGNS: &str =
    "& => <=> ! # : /: <: <<: /<: /<<: = /= == < > <= >= \\/ /\\ - * / ** + .. . <-> +-> --> >+> >-> +->> -->> >->> <| |> <<| |>> <+ >< || ~ ; % | |-> ^ -> <- <-- /|\\ \\|/ <> , ( ) { } [ ] := :: $0";

#[test]
fn words(rt: HostRuntime) -> Result<(), Fail> {
    let mut count = 0u64;
    for word in WORDS.split_whitespace() {
        let bytes = word.as_bytes();
        assert!(rt; is_one(rt.alloc(), bytes, TokenKind::Word), "{word}");
        let mut more = bytes.to_vec(rt.alloc())?;
        more.push(b'x')?;
        assert!(rt;
            is_one(rt.alloc(), more.as_slice(), TokenKind::Name),
            "{word}x"
        );
        if let [less @ .., _] = bytes {
            let kind = if LONGER.contains(&word) {
                TokenKind::Word
            } else {
                TokenKind::Name
            };
            assert!(rt; is_one(rt.alloc(), less, kind), "{word} cut");
        }
        count = count.saturating_add(1);
    }
    assert_eq!(rt; count, 103);
    assert!(rt; is_left_out(b"SEES") && is_left_out(b"struct") && !is_left_out(b"MACHINE"));
    Ok(())
}

#[test]
fn signs(rt: HostRuntime) {
    let mut count = 0u64;
    for sign in SIGNS.split_whitespace() {
        assert!(rt;
            is_one(rt.alloc(), sign.as_bytes(), TokenKind::Sign),
            "{sign}"
        );
        count = count.saturating_add(1);
    }
    assert_eq!(rt; count, 64);
}

#[test]
fn values(rt: HostRuntime) -> Result<(), Fail> {
    assert_eq!(rt; number_value(b"0042"), Some(42));
    assert_eq!(rt;
        number_value(b"170141183460469231731687303715884105727"),
        Some((1 << 127) - 1)
    );
    assert_eq!(rt;
        number_value(b"170141183460469231731687303715884105728"),
        None
    );
    let value = text_value(rt.alloc(), b"\"a\\n\\t\\\\\\\"\xC3\xA9\"")?;
    assert_eq!(rt; value.as_slice(), b"a\n\t\\\"\xC3\xA9".as_slice());
    let ab = Token {
        kind: TokenKind::Name,
        from: 2,
        to: 4,
    };
    let name = token_text(b"1 ab+", ab);
    assert_eq!(rt; name, b"ab".as_slice());
    one_reading();
    spelled_tokens();
    Ok(())
}
