// Bound names: the ranges of each kind, what stops a quantifier, what is gathered, and which fault comes first.
use crate::answers::check;
use std::test::Fail;

const RANGES: &str = "3 only T {|1 ? {3}
1 0 /'b only'a T {|1 ? ill-defined b
2 1 {2 in T {|1 ? {1,2}
{0 in T {|1 ? {}
1 0 /'b {1 in'a T {|1 ? ill-defined b
INTEGER'b in'a T {|1 ? too-large b
1 3 num T {|1 ? {1,2,3}
1 3 num> T {|1 ? {2,3}
1 3 num< T {|1 ? {1,2}
1 3 num<> T {|1 ? {2}
1 2 num<> T {|1 ? {}
3 1 num T {|1 ? {}
MAX MAX num T {|1 ? {170141183460469231731687303715884105727}
MAX MAX num> T {|1 ? {}
MIN MIN num< T {|1 ? {}
MIN MIN num T {|1 ? {-170141183460469231731687303715884105728}
MIN MAX num T #1 ? TRUE
1 0 /'b MAX 1 +'c num'a T {|1 ? ill-defined b
1 0 /'b MAX 1 +'c num^'a T {|1 ? overflow c
1 MAX 1 +'c num'a T {|1 ? overflow c
1 2 {2 sub T {|1 ? {{},{1},{1,2},{2}}
1 17 .. sub'a T {|1 ? too-large a
1 17 ..'b sub'a F #1 ? too-large a
1 0 /'b {1 sub'a T {|1 ? ill-defined b
1 2 {2 cut T {|1 ? {1,2}
1 0 /'b {1 cut'a T {|1 ? ill-defined a
1 1000000 ..'b cut'a T #1 ? too-large a
INTEGER'b cut'a T #1 ? too-large a
0 5 num< s0 NATURAL : s0 5 < & {|1 ? {0,1,2,3,4}
0 3 num s0 NATURAL : {|1 ? {0,1,2,3}
2 1 {2 in s0 1 > {|1 ? {2}";

const EARLIER: &str = "1 2 num s0 1 + only T {|2 ? {(1|->2),(2|->3)}
1 2 num s0 s0 5 + {2 in T {|2 ? {(1|->1),(1|->6),(2|->2),(2|->7)}
1 3 num s0 3 num T {|2 ? {(1|->1),(1|->2),(1|->3),(2|->2),(2|->3),(3|->3)}
1 2 num s0 {1 sub T {|2 ? {(1|->{}),(1|->{1}),(2|->{}),(2|->{2})}
1 2 num s0 {1 cut T {|2 ? {(1|->1),(2|->2)}
1 only 2 only s0 s1 + only T {|3 ? {((1|->2)|->3)}
1 2 num s0 10 * only s1 1 + only T {|3 ? {((1|->10)|->11),((2|->20)|->21)}
1 2 num 7 8 num s0 2 = s1 8 = & {|2 ? {(2|->8)}
1 2 num 1 2 num s0 s1 = {|1 {0 = #1 ? FALSE
1 2 num s0 1 num s1 s0 + 3 = {|1 {0 /= {|1 ? {}
1 3 num 1 s0 num s0 s1 = {|1 s0 {1 = {|1 ? {1,2,3}";

const STOPS: &str = "1 3 num s0 3 = #1 ? TRUE
1 3 num s0 4 = #1 ? FALSE
3 1 num T #1 ? FALSE
1 3 num T s0 4 < !1 ? TRUE
1 3 num T s0 2 < !1 ? FALSE
3 1 num T F !1 ? TRUE
0 1 num s0 0 /= 1 s0 /'a 1 = !1 ? TRUE
0 1 num 1 s0 /'a 1 = #1 ? ill-defined a
1 3 num 4 3 s0 - /'a 2 = #1 ? TRUE
1 3 num 4 3 s0 - /'a 1 = #1 ? ill-defined a
1 3 num T 4 3 s0 - /'a 2 /= !1 ? FALSE
1 3 num T 4 3 s0 - /'a 9 /= !1 ? ill-defined a
1 3 num 4 3 s0 - /'a 9 = T !1 ? ill-defined a
1 2 num s0 1 = 1 0 /'a MAX 1 +'b if 0 = #1 ? ill-defined a
1 2 num T s0 1 = 1 0 /'a MAX 1 +'b if 0 = !1 ? ill-defined a
1 2 num s0 1 = 1 0 /'a MAX 1 +'b if 0 = {|1 ? ill-defined a
1 2 num T s0 1 = 1 0 /'a MAX 1 +'b if SIGMA1 ? ill-defined a
1 2 num T s0 1 = 1 0 /'a MAX 1 +'b if %1 ? ill-defined a
2 1 {2 in T s0 1 = 1 0 /'a MAX 1 +'b if %1 ? ill-defined a
2 1 {2 cut T s0 1 = 1 0 /'a MAX 1 +'b if %1 ? ill-defined a
1 {1 sub T s0 {0 = 1 0 /'a MAX 1 +'b if %1 ? ill-defined a
1 2 num 1 2 num T s1 1 = 1 0 /'a MAX 1 +'b if %2 ? ill-defined a
1 2 num 1 2 num T s0 1 = s1 2 = & 1 0 /'a s0 2 = MAX 1 +'b 1 if if %2 ? ill-defined a";

// The range of the second name is 2 at 0, faults at 1 and is -2 at 2.
const FAULTY_RANGES: &str = "0 2 num 2 1 s0 - /'a only T #2 ? TRUE
0 2 num 2 1 s0 - /'a only s0 0 = #2 ? TRUE
0 2 num 2 1 s0 - /'a only s0 2 = #2 ? ill-defined a
0 2 num 2 1 s0 - /'a only F #2 ? ill-defined a
0 2 num 2 1 s0 - /'a only T s1 2 /= !2 ? FALSE
0 2 num 2 1 s0 - /'a only T s0 2 /= !2 ? ill-defined a
0 2 num 2 1 s0 - /'a only T T !2 ? ill-defined a
0 2 num 2 1 s0 - /'a only F T !2 ? ill-defined a
0 2 num 2 1 s0 - /'a only T {|2 ? ill-defined a
0 2 num 2 1 s0 - /'a only F {|2 ? ill-defined a
0 2 num 2 1 s0 - /'a only T 1 SIGMA2 ? ill-defined a
0 2 num 2 1 s0 - /'a only MAX 1 +'b 0 = #2 ? overflow b
0 2 num 2 1 s0 - /'a {1 in s0 2 = #2 ? ill-defined a
0 2 num 0 2 1 s0 - /'a num s0 2 = #2 ? ill-defined a
0 2 num 2 1 s0 - /'b {1 sub'a s0 2 = #2 ? ill-defined b
0 2 num 2 1 s0 - /'b {1 cut'a s0 2 = #2 ? ill-defined a
0 2 num 3 1 num 1 0 /'a only T #3 ? FALSE
1 0 /'a only 3 1 num T #2 ? ill-defined a
3 1 num 1 0 /'a only T #2 ? FALSE";

const GATHERED: &str = "1 2 num T s0 10 * %1 ? {(1|->10),(2|->20)}
1 4 num s0 2 mod 0 = s0 %1 ? {(2|->2),(4|->4)}
1 only 2 only T 3 %2 ? {((1|->2)|->3)}
3 1 num T s0 %1 ? {}
1 2 num T 1 600000 .. %1'a ? too-large a
1 3 num T s0 3 = 1 0 /'b {1 1 600000 .. if %1'a ? ill-defined b
1 3 num T s0 s0 * SIGMA1 ? 14
1 3 num T s0 s0 * PI1 ? 36
3 1 num T s0 SIGMA1 ? 0
3 1 num T s0 PI1 ? 1
0 2 num s0 0 /= 4 s0 /'a SIGMA1 ? 6
1 3 num T s0 1 = MAX s0 2 = 1 -1 if if SIGMA1'a ? overflow a
1 3 num T s0 1 = MAX s0 2 = 1 1 0 /'b if if SIGMA1'a ? overflow a
1 3 num T s0 1 = MAX s0 2 = 1 0 /'b 1 if if SIGMA1'a ? ill-defined b
1 3 num T s0 1 = MAX s0 2 = 2 0 if if PI1'a ? overflow a
1 2 num T s0 s0 1 + {2 UNION1 ? {1,2,3}
3 1 num T s0 {1 UNION1 ? {}
1 2 num T s0 1 = 1 600000 .. 600001 1200000 .. if UNION1'a ? too-large a
1 3 num T s0 1 = 1 600000 .. s0 2 = 600001 1200000 .. 1 0 /'b {1 if if UNION1'a ? ill-defined b
1 2 num T s0 s0 1 + {2 INTER1 ? {2}
3 1 num T s0 {1 INTER1'a ? ill-defined a
1 3 num F s0 {1 INTER1'a ? ill-defined a
1 2 num T s0 1 = 1 {1 1 0 /'b {1 if INTER1'a ? ill-defined b
1 3 num T {|1 card ? 3
1 {1 sub T s0 {1 %1 ? {({}|->{{}}),({1}|->{{1}})}";

#[test]
fn bound_names(rt: HostRuntime) -> Result<(), Fail> {
    let alloc = rt.alloc();
    for table in [RANGES, EARLIER, STOPS, FAULTY_RANGES, GATHERED] {
        check(&rt, alloc, table)?;
    }
    Ok(())
}
