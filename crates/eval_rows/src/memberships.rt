// Membership by form: no set is built where none is asked, and the first test that is false or faults decides.
use crate::answers::{check, truth_text};
use b_meaning::{eval, member};
use b_places::Scope;
use std::test::Fail;
use tree_notation::expr_of;

const WORDS: &str = "-5 INTEGER : ? TRUE
0 NATURAL : ? TRUE
-1 NATURAL : ? FALSE
1 NATURAL1 : ? TRUE
0 NATURAL1 : ? FALSE
\"a STRING : ? TRUE
TRUE BOOL : ? TRUE
e0.2 S0.3 : ? TRUE
e0.3 S0.3 : ? FALSE
e1.0 S0.3 : ? FALSE
e0.999998 S0.999999 : ? TRUE
e0.0 S0.1000000'a : ? too-large a
e0.0 {1 S0.3 POW : ? TRUE
5 1 MAX .. : ? TRUE
0 1 MAX .. : ? FALSE
MAX MIN MAX .. : ? TRUE
0 1 1 0 /'a .. : ? ill-defined a
5 1 0 /'a MAX 1 +'b .. : ? ill-defined a
5 1 MAX 1 +'b .. : ? overflow b
1 0 /'a MAX 1 +'b {1 : ? ill-defined a
-1 NATURAL /: ? TRUE
1 NATURAL /: ? FALSE
1 1 0 /'a {1 /: ? ill-defined a
1 1 2 {2 : ? TRUE
3 1 2 {2 : ? FALSE
1 1 0 /'a {1 : ? ill-defined a
1 INTEGER'a 1 {1 \\/ : ? too-large a
1 1 2 |-> 1 3 |-> {2 dom : ? TRUE
2 1 2 |-> 1 3 |-> {2 dom : ? FALSE
3 1 2 |-> 1 3 |-> {2 ran : ? TRUE
1 1 1 0 /'a |-> {1 dom : ? ill-defined a";

const SUBSETS: &str = "{0 INTEGER POW : ? TRUE
1 2 {2 INTEGER POW : ? TRUE
-1 2 {2 NATURAL POW : ? FALSE
1 2 {2 NATURAL POW1 : ? TRUE
{0 NATURAL POW1 : ? FALSE
{0 1 0 /'a {1 POW : ? TRUE
{0 1 0 /'a {1 POW1 : ? FALSE
1 {1 1 0 /'a {1 POW1 : ? ill-defined a
1 {1 1 17 .. POW : ? TRUE
1 {1 {1 INTEGER POW POW : ? TRUE
-1 {1 {1 NATURAL POW POW : ? FALSE
1 2 {2 NATURAL <: ? TRUE
-1 {1 NATURAL <: ? FALSE
{0 1 0 /'a {1 <: ? TRUE
1 {1 1 0 /'a {1 <: ? ill-defined a
1 0 /'a {1 MAX 1 +'b {1 <: ? ill-defined a
-1 {1 NATURAL /<: ? TRUE
1 {1 NATURAL /<: ? FALSE
{0 1 0 /'a {1 /<: ? FALSE
1 {1 1 0 /'a {1 /<: ? ill-defined a
1 5 |-> 2 5 |-> {2 2 {1 1 0 /'a {1 *S <: ? FALSE
2 5 |-> 3 5 |-> {2 2 {1 1 0 /'a {1 *S <: ? ill-defined a";

const COUPLES: &str = "1 2 |-> INTEGER NATURAL *S : ? TRUE
1 -2 |-> INTEGER NATURAL *S : ? FALSE
-1 2 |-> NATURAL INTEGER *S : ? FALSE
1 5 |-> 2 {1 1 0 /'a {1 *S : ? FALSE
2 5 |-> 2 {1 1 0 /'a {1 *S : ? ill-defined a
1 5 |-> 1 0 /'a {1 MAX 1 +'b {1 *S : ? ill-defined a
1 2 |-> 3 |-> INTEGER NATURAL *S NATURAL *S : ? TRUE
1 2 |-> {1 INTEGER INTEGER <-> : ? TRUE
1 -2 |-> {1 INTEGER NATURAL <-> : ? FALSE
{0 1 0 /'a {1 MAX 1 +'b {1 <-> : ? TRUE
1 5 |-> 2 5 |-> {2 2 {1 1 0 /'a {1 <-> : ? FALSE";

const ARROWS: &str = "1 2 |-> 2 2 |-> {2 INTEGER INTEGER +-> : ? TRUE
1 2 |-> 1 3 |-> {2 INTEGER INTEGER +-> : ? FALSE
-1 2 |-> {1 NATURAL INTEGER +-> : ? FALSE
1 2 |-> 1 -3 |-> {2 INTEGER NATURAL +-> : ? FALSE
{0 1 0 /'a {1 MAX 1 +'b {1 +-> : ? TRUE
1 3 |-> 2 4 |-> {2 INTEGER INTEGER >+> : ? TRUE
1 3 |-> 2 3 |-> {2 INTEGER INTEGER >+> : ? FALSE
1 3 |-> 1 4 |-> {2 INTEGER INTEGER >+> : ? FALSE
1 3 |-> 2 3 |-> {2 INTEGER 3 {1 +->> : ? TRUE
1 3 |-> {1 INTEGER 3 4 {2 +->> : ? FALSE
1 3 |-> 1 4 |-> {2 INTEGER INTEGER'b +->> : ? FALSE
1 3 |-> {1 INTEGER INTEGER'b +->> : ? too-large b
1 3 |-> 2 3 |-> {2 1 2 {2 INTEGER --> : ? TRUE
1 3 |-> {1 1 2 {2 INTEGER --> : ? FALSE
1 3 |-> 1 4 |-> {2 INTEGER'a INTEGER --> : ? FALSE
1 3 |-> {1 INTEGER'a INTEGER --> : ? too-large a
{0 1 0 /'a {1 INTEGER --> : ? ill-defined a
{0 {0 1 0 /'a {1 --> : ? TRUE
1 3 |-> 2 4 |-> {2 1 2 {2 INTEGER >-> : ? TRUE
1 3 |-> 2 3 |-> {2 INTEGER'a INTEGER >-> : ? FALSE
1 3 |-> 2 4 |-> {2 INTEGER'a INTEGER >-> : ? too-large a
1 3 |-> 2 3 |-> {2 1 2 {2 3 {1 -->> : ? TRUE
1 3 |-> {1 1 2 {2 INTEGER'b -->> : ? FALSE
1 3 |-> {1 1 {1 INTEGER'b -->> : ? too-large b
1 3 |-> {1 INTEGER'a INTEGER'b -->> : ? too-large a
1 3 |-> {1 1 {1 3 4 {2 -->> : ? FALSE
1 3 |-> 2 4 |-> {2 1 2 {2 3 4 {2 >->> : ? TRUE
1 3 |-> 2 3 |-> {2 INTEGER'a INTEGER'b >->> : ? FALSE
1 3 |-> {1 1 {1 INTEGER'b >->> : ? too-large b
1 3 |-> {1 1 2 {2 INTEGER'b >->> : ? FALSE
1 3 |-> {1 1 {1 3 4 {2 >->> : ? FALSE
1 3 |-> 1 4 |-> {2 1 0 /'a {1 INTEGER >->> : ? ill-defined a";

const SEQUENCES: &str = "5 6 [2 INTEGER seq : ? TRUE
[0 NATURAL seq : ? TRUE
-5 [1 NATURAL seq : ? FALSE
2 5 |-> {1 INTEGER seq : ? FALSE
2 5 |-> {1 1 0 /'a {1 seq : ? FALSE
1 5 |-> {1 1 0 /'a {1 seq : ? ill-defined a
[0 1 0 /'a {1 seq : ? TRUE
5 [1 NATURAL seq1 : ? TRUE
[0 NATURAL seq1 : ? FALSE
[0 1 0 /'a {1 seq1 : ? FALSE
5 6 [2 INTEGER iseq : ? TRUE
5 5 [2 INTEGER iseq : ? FALSE
[0 INTEGER iseq : ? TRUE
5 6 [2 5 6 {2 perm : ? TRUE
5 [1 5 6 {2 perm : ? FALSE
5 5 [2 INTEGER'a perm : ? FALSE
5 6 [2 INTEGER'a perm : ? too-large a
-1 5 [2 NATURAL'a perm : ? FALSE
5 [1 {1 INTEGER seq POW : ? TRUE";

#[test]
fn memberships(rt: HostRuntime) -> Result<(), Fail> {
    let alloc = rt.alloc();
    for table in [WORDS, SUBSETS, COUPLES, ARROWS, SEQUENCES] {
        check(&rt, alloc, table)?;
    }
    Ok(())
}

#[test]
fn a_value_and_a_set(rt: HostRuntime) -> Result<(), Fail> {
    let alloc = rt.alloc();
    let scope = Scope::Slots(&[]);
    let v = eval(alloc, &expr_of(alloc, "7 {1")?, &scope)?;
    let set = expr_of(alloc, "NATURAL POW1")?;
    let text = truth_text(alloc, member(alloc, &set, &v, &scope))?;
    assert_eq!(rt; text.as_slice(), "TRUE".as_bytes());
    Ok(())
}
