// Expressions without bound names: each form, its faults, and where they stand.
use crate::answers::check;
use std::test::Fail;

const NUMBERS: &str = r"1 2 + ? 3
MAX 1 +'a ? overflow a
MIN 1 -'a ? overflow a
5 7 - ? -2
3 -4 * ? -12
MAX 2 *'a ? overflow a
5 neg ? -5
MIN neg'a ? overflow a
41 succ ? 42
MAX succ'a ? overflow a
0 pred ? -1
MIN pred'a ? overflow a
7 2 / ? 3
-7 2 / ? -3
7 -2 / ? -3
-7 -2 / ? 3
7 0 /'a ? ill-defined a
MIN -1 /'a ? overflow a
7 3 mod ? 1
0 3 mod ? 0
-1 3 mod'a ? ill-defined a
7 0 mod'a ? ill-defined a
7 -3 mod'a ? ill-defined a
2 ^^ 10 **1 ? 1024
0 ^^ 0 **1 ? 1
-2 ^^ 127 **1 ? -170141183460469231731687303715884105728
2 ^^'a -1 **1 ? ill-defined a
2 ^^'a 127 **1 ? overflow a
2 ^^ 3 ^^ 2 **2 ? 512
2 ^^'a 2 ^^'b 127 **2 ? overflow b
2 ^^'a 2 ^^'b 7 **2 ? overflow a
1 0 /'c ^^'a 2 ^^'b -1 **2 ? ill-defined c
2 ^^'a 2 ^^'b 1 0 /'c **2 ? ill-defined c
1 2 - 3 - ? -4
1 2 3 - - ? 2
6 3 / 2 * ? 4
2 neg ^^ 2 **1 ? 4
2 ^^ 126 **1 2 ^^ 126 **1 +'a ? overflow a
2 ^^ 126 **1 2 ^^ 126 **1 1 - + ? 170141183460469231731687303715884105727
MAX 1 +'A ? overflow A";

const OPERANDS: &str = r"1 0 /'a MAX 1 +'b +'c ? ill-defined a
MAX 1 +'b 1 0 /'a +'c ? overflow b
MAX 1 +'a 1 0 /'b +'c ? overflow a
1 0 /'a 2 +'b 3 +'c ? ill-defined a
MAX 1 +'b 1 0 /'c +'d ? overflow b
MAX 1 +'b 1 -'c ? overflow b
1 0 /'a MAX 1 +'b {2'c ? ill-defined a
1 MAX 1 +'b {2'c ? overflow b
1 0 /'a MAX 1 +'b [2'c ? ill-defined a
1 0 /'a MAX 1 +'b ..'c ? ill-defined a
1 MAX 1 +'b ..'c ? overflow b
1 0 /'a {1 1 {1 <->'c ? ill-defined a
1 0 /'a {1 POW'c ? ill-defined a
1 0 /'a neg'c ? ill-defined a
{0 1 0 /'a {1 -->'c ? ill-defined a
1 2 |-> {1 1 0 /'a ()'c ? ill-defined a";

const SETS: &str = r"{0 ? {}
3 1 2 1 {4 ? {1,2,3}
1 499997 .. 1 499999 .. {2 card ? 2
1 500000 .. 1 499999 .. {2'a ? too-large a
1 3 .. ? {1,2,3}
3 1 .. ? {}
MAX MAX .. ? {170141183460469231731687303715884105727}
1 999999 .. card ? 999999
1 1000000 ..'a ? too-large a
MIN MAX ..'a ? too-large a
3 1 2 {3 min ? 1
3 1 2 {3 max ? 3
{0 min'a ? ill-defined a
{0 max'a ? ill-defined a
{0 card ? 0
1 2 {2 2 3 {2 \/ ? {1,2,3}
1 600000 .. 600001 1200000 .. \/'a ? too-large a
1 2 {2 2 3 {2 /\ ? {2}
1 2 {2 2 3 {2 -S ? {1}
1 2 {2 TRUE {1 *S ? {(1|->TRUE),(2|->TRUE)}
1 1000 .. 1 1000 .. *S'a ? too-large a
1 2 {2 POW ? {{},{1},{1,2},{2}}
{0 POW ? {{}}
1 2 {2 POW1 ? {{1},{1,2},{2}}
{0 POW1 ? {}
1 17 .. POW'a ? too-large a
1 17 .. POW1'a ? too-large a
1 16 .. POW card ? 65536
1 {1 1 2 {2 {2 union ? {1,2}
{0 union ? {}
1 2 {2 2 3 {2 {2 inter ? {2}
{0 inter'a ? ill-defined a
INTEGER'a ? too-large a
NATURAL'a ? too-large a
NATURAL1'a ? too-large a
STRING'a ? too-large a
BOOL ? {FALSE,TRUE}
S0.3 ? {a,b,c}
S1.2 ? {d,e}
S0.1000000'a ? too-large a
e1.1 ? e";

const RELATIONS: &str = r"1 {1 3 {1 <-> ? {{},{(1|->3)}}
1 2 {2 3 {1 +-> ? {{},{(1|->3)},{(1|->3),(2|->3)},{(2|->3)}}
1 2 {2 3 {1 >+> ? {{},{(1|->3)},{(2|->3)}}
1 2 {2 3 {1 +->> ? {{(1|->3)},{(1|->3),(2|->3)},{(2|->3)}}
1 2 {2 3 {1 --> ? {{(1|->3),(2|->3)}}
1 2 {2 3 {1 >-> ? {}
1 2 {2 3 4 {2 >-> ? {{(1|->3),(2|->4)},{(1|->4),(2|->3)}}
1 2 {2 3 {1 -->> ? {{(1|->3),(2|->3)}}
1 2 {2 3 4 {2 >->> ? {{(1|->3),(2|->4)},{(1|->4),(2|->3)}}
1 2 {2 3 {1 >->> ? {}
1 17 .. 1 2 .. <->'a ? too-large a
1 17 .. 1 2 .. +->'a ? too-large a
1 17 .. 1 2 .. -->'a ? too-large a
1 16 .. 1 16 .. >->>'a ? too-large a
1 2 |-> 2 3 |-> {2 dom ? {1,2}
1 2 |-> 2 3 |-> {2 ran ? {2,3}
1 2 |-> 2 3 |-> {2 ~ ? {(2|->1),(3|->2)}
1 2 {2 id ? {(1|->1),(2|->2)}
1 400000 .. id'a ? too-large a
1 2 |-> 2 3 |-> {2 1 {1 [] ? {2}
1 2 |-> 2 3 |-> {2 5 {1 [] ? {}
1 {1 1 2 |-> 2 3 |-> {2 <| ? {(1|->2)}
1 {1 1 2 |-> 2 3 |-> {2 <<| ? {(2|->3)}
1 2 |-> 2 3 |-> {2 3 {1 |> ? {(2|->3)}
1 2 |-> 2 3 |-> {2 3 {1 |>> ? {(1|->2)}
1 2 |-> 2 3 |-> {2 1 9 |-> {1 <+ ? {(1|->9),(2|->3)}
1 2 |-> {1 2 5 |-> {1 ; ? {(1|->5)}
1 2 |-> {1 1 3 |-> {1 >< ? {(1|->(2|->3))}
1 2 |-> {1 3 4 |-> {1 || ? {((1|->3)|->(2|->4))}
1 {1 2 {1 prj1 ? {((1|->2)|->1)}
1 {1 2 {1 prj2 ? {((1|->2)|->2)}
1 1000 .. 1 1000 .. prj1'a ? too-large a
1 2 |-> 2 3 |-> {2 2 iterate ? {(1|->3)}
1 2 |-> 2 3 |-> {2 1 iterate ? {(1|->2),(2|->3)}
1 2 |-> 2 3 |-> {2 0 iterate ? {(1|->1),(2|->2),(3|->3)}
1 2 |-> {1 -1 iterate'a ? ill-defined a
1 2 |-> 2 3 |-> {2 closure1 ? {(1|->2),(1|->3),(2|->3)}
1 2 |-> 2 3 |-> {2 closure ? {(1|->1),(1|->2),(1|->3),(2|->2),(2|->3),(3|->3)}
1 1 |-> 1 2 |-> 2 5 |-> {3 1 ()'a ? ill-defined a
1 1 |-> 1 2 |-> 2 5 |-> {3 2 ()'a ? 5
1 1 |-> {1 7 ()'a ? ill-defined a
1 2 3 |-> {1 |-> {1 1 () 2 () ? 3";

const SEQUENCES: &str = r"[0 ? {}
5 6 [2 ? {(1|->5),(2|->6)}
1 999996 .. [1 card ? 1
1 999997 .. [1'a ? too-large a
{0 seq ? {{}}
{0 seq1 ? {}
1 {1 seq'a ? too-large a
1 {1 seq1'a ? too-large a
7 {1 iseq ? {{},{(1|->7)}}
7 8 {2 perm ? {{(1|->7),(2|->8)},{(1|->8),(2|->7)}}
1 12 .. iseq'a ? too-large a
1 12 .. perm'a ? too-large a
5 6 [2 size ? 2
2 5 |-> {1 size'a ? ill-defined a
5 6 [2 rev ? {(1|->6),(2|->5)}
2 5 |-> {1 rev'a ? ill-defined a
5 [1 6 [1 ^ ? {(1|->5),(2|->6)}
5 [1 2 6 |-> {1 ^'a ? ill-defined a
2 5 |-> {1 6 [1 ^'a ? ill-defined a
5 6 [1 -> ? {(1|->5),(2|->6)}
5 2 6 |-> {1 ->'a ? ill-defined a
5 [1 6 <- ? {(1|->5),(2|->6)}
2 5 |-> {1 6 <-'a ? ill-defined a
5 6 [2 first ? 5
[0 first'a ? ill-defined a
2 5 |-> {1 first'a ? ill-defined a
5 6 [2 last ? 6
[0 last'a ? ill-defined a
5 6 [2 front ? {(1|->5)}
[0 front'a ? ill-defined a
5 6 [2 tail ? {(1|->6)}
[0 tail'a ? ill-defined a
2 5 |-> {1 tail'a ? ill-defined a
5 [1 6 [1 [2 conc ? {(1|->5),(2|->6)}
[0 conc ? {}
2 5 [1 |-> {1 conc'a ? ill-defined a
2 5 |-> {1 [1 conc'a ? ill-defined a
5 6 [2 1 /|\ ? {(1|->5)}
5 6 [2 0 /|\ ? {}
5 6 [2 3 /|\'a ? ill-defined a
5 6 [2 -1 /|\'a ? ill-defined a
2 5 |-> {1 0 /|\'a ? ill-defined a
5 6 [2 1 \|/ ? {(1|->6)}
5 6 [2 2 \|/ ? {}
5 6 [2 3 \|/'a ? ill-defined a
5 6 [2 -1 \|/'a ? ill-defined a
2 5 |-> {1 0 \|/'a ? ill-defined a";

const OTHERS: &str = r#"TRUE ? TRUE
"ab ? "ab"
1 2 |-> ? (1|->2)
1 2 |-> 3 |-> ? ((1|->2)|->3)
1 2 3 |-> |-> ? (1|->(2|->3))
1 400000 .. 1 500000 .. |-> 1 |-> {1 card ? 1
1 500000 .. 1 500000 .. |->'a ? too-large a
T bool ? TRUE
F bool ? FALSE
1 0 /'a 1 = bool ? ill-defined a
T 1 2 if ? 1
F 1 2 if ? 2
T 1 1 0 /'a if ? 1
F 1 0 /'a 2 if ? 2
T 1 0 /'a 2 if ? ill-defined a
1 0 /'a 1 = MAX 1 +'b 2 if ? ill-defined a"#;

#[test]
fn expressions(rt: HostRuntime) -> Result<(), Fail> {
    let alloc = rt.alloc();
    for table in [NUMBERS, OPERANDS, SETS, RELATIONS, SEQUENCES, OTHERS] {
        check(&rt, alloc, table)?;
    }
    Ok(())
}
