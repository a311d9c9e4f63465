// Comparisons and connectives, and where they stop.
use crate::answers::check;
use std::test::Fail;

const COMPARISONS: &str = "1 1 = ? TRUE
1 2 = ? FALSE
1 2 {2 2 1 {2 = ? TRUE
1 2 |-> 1 3 |-> = ? FALSE
1 1 /= ? FALSE
1 2 /= ? TRUE
1 2 < ? TRUE
2 2 < ? FALSE
2 2 <= ? TRUE
3 2 <= ? FALSE
2 1 > ? TRUE
2 2 > ? FALSE
2 2 >= ? TRUE
1 2 >= ? FALSE
-1 0 < ? TRUE
MIN MAX < ? TRUE
1 {1 1 2 {2 <<: ? TRUE
1 2 {2 1 2 {2 <<: ? FALSE
3 {1 1 2 {2 <<: ? FALSE
1 {1 1 2 {2 /<<: ? FALSE
1 2 {2 1 2 {2 /<<: ? TRUE
{0 1 0 /'a {1 <<: ? ill-defined a
1 0 /'a {1 MAX 1 +'b {1 <<: ? ill-defined a
1 0 /'a MAX 1 +'b = ? ill-defined a
1 MAX 1 +'b = ? overflow b
1 0 /'a MAX 1 +'b < ? ill-defined a";

const CONNECTIVES: &str = "T T & ? TRUE
T F & ? FALSE
F T & ? FALSE
F 1 0 /'a 1 = & ? FALSE
T 1 0 /'a 1 = & ? ill-defined a
1 0 /'a 1 = F & ? ill-defined a
T F or ? TRUE
F T or ? TRUE
F F or ? FALSE
T 1 0 /'a 1 = or ? TRUE
F 1 0 /'a 1 = or ? ill-defined a
1 0 /'a 1 = T or ? ill-defined a
T T => ? TRUE
T F => ? FALSE
F F => ? TRUE
F 1 0 /'a 1 = => ? TRUE
T 1 0 /'a 1 = => ? ill-defined a
1 0 /'a 1 = T => ? ill-defined a
T T <=> ? TRUE
T F <=> ? FALSE
F T <=> ? FALSE
F F <=> ? TRUE
F 1 0 /'a 1 = <=> ? ill-defined a
T 1 0 /'a 1 = <=> ? ill-defined a
1 0 /'a 1 = MAX 1 +'b 1 = <=> ? ill-defined a
F T & 1 0 /'a 1 = or ? ill-defined a
T F or 1 0 /'a 1 = & ? ill-defined a
F 1 0 /'a 1 = & T or ? TRUE
T 1 0 /'a 1 = or F & ? FALSE
F T => F => ? FALSE
1 1 = 1 2 = or 1 2 = & ? FALSE
T not ? FALSE
F not ? TRUE
1 0 /'a 1 = not ? ill-defined a";

#[test]
fn predicates(rt: HostRuntime) -> Result<(), Fail> {
    let alloc = rt.alloc();
    check(&rt, alloc, COMPARISONS)?;
    check(&rt, alloc, CONNECTIVES)
}
