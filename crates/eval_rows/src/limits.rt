// The millionth tuple, and the place after it.
use crate::answers::check;
use std::test::Fail;

#[test]
fn exactly_a_million(rt: HostRuntime) -> Result<(), Fail> {
    check(
        &rt,
        rt.alloc(),
        "1 1000000 num'a F #1 ? FALSE
1 1000000 num'a T s0 SIGMA1 ? 500000500000
1 1000001 num'a s0 1000000 = #1 ? TRUE
1 1000 num'a 1 1000 num'b F #2 ? FALSE
1 1000000 num'a F {|1 ? {}",
    )
}

// The place after the millionth tuple is faulty at the first bound name, whatever else would be its fault; a fault before
// it keeps its own place.
#[test]
fn one_more(rt: HostRuntime) -> Result<(), Fail> {
    check(
        &rt,
        rt.alloc(),
        "1 1000001 num'a F #1 ? too-large a
1 1000001 num'a T T !1 ? too-large a
1 1000001 num'a F {|1 ? too-large a
1 1000001 num'a T s0 SIGMA1 ? too-large a
1 1000 num'a 1 1001 num'b F #2 ? too-large a
1 1000001 num'a 1 1000001 s0 - /'b only F #2 ? too-large a
1 1000001 num'a 1 1000000 s0 - /'b only F #2 ? ill-defined b",
    )
}
