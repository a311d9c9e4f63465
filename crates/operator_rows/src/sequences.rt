// Operators on sequences.
use crate::expressions::{check, value};
use b_setops::is_sequence;

const ONE_OPERAND: &str = "size r:[5,6,5];3
size r:<>;0
rev r:[5,6,7];{(1|->7),(2|->6),(3|->5)}
rev r:<>;{}
first r:[5,6,7];5
first r:<>;ill-defined
last r:[5,6,7];7
last r:<>;ill-defined
front r:[5,6,7];{(1|->5),(2|->6)}
front r:[5];{}
front r:<>;ill-defined
tail r:[5,6,7];{(1|->6),(2|->7)}
tail r:[5];{}
tail r:<>;ill-defined";

const NO_SEQUENCES: &str = "size r:{(1|->5),(3|->6)};ill-defined
size r:{(1|->5),(1|->6)};ill-defined
size r:{(0|->5),(1|->6)};ill-defined
size r:{(2|->5)};ill-defined
rev r:{(1|->5),(3|->6)};ill-defined
rev r:{(1|->5),(1|->6)};ill-defined
rev r:{(0|->5),(1|->6)};ill-defined
rev r:{(2|->5)};ill-defined
first r:{(1|->5),(3|->6)};ill-defined
first r:{(1|->5),(1|->6)};ill-defined
first r:{(0|->5),(1|->6)};ill-defined
first r:{(2|->5)};ill-defined
last r:{(1|->5),(3|->6)};ill-defined
last r:{(1|->5),(1|->6)};ill-defined
last r:{(0|->5),(1|->6)};ill-defined
last r:{(2|->5)};ill-defined
front r:{(1|->5),(3|->6)};ill-defined
front r:{(1|->5),(1|->6)};ill-defined
front r:{(0|->5),(1|->6)};ill-defined
front r:{(2|->5)};ill-defined
tail r:{(1|->5),(3|->6)};ill-defined
tail r:{(1|->5),(1|->6)};ill-defined
tail r:{(0|->5),(1|->6)};ill-defined
tail r:{(2|->5)};ill-defined
size s:{1,2};ill-defined";

const TWO_OPERANDS: &str = "concat r:[5,6] r:[6,7];{(1|->5),(2|->6),(3|->6),(4|->7)}
concat r:<> r:[5];{(1|->5)}
concat r:[5] r:<>;{(1|->5)}
concat r:[5] r:{(2|->6)};ill-defined
concat r:{(2|->6)} r:[5];ill-defined
prepend n:4 r:[5,6];{(1|->4),(2|->5),(3|->6)}
prepend n:4 r:<>;{(1|->4)}
prepend n:4 r:{(0|->5)};ill-defined
append r:[5,6] n:4;{(1|->5),(2|->6),(3|->4)}
append r:<> n:4;{(1|->4)}
append r:{(0|->5)} n:4;ill-defined
take r:[5,6,7] n:0;{}
take r:[5,6,7] n:2;{(1|->5),(2|->6)}
take r:[5,6,7] n:3;{(1|->5),(2|->6),(3|->7)}
take r:[5,6,7] n:4;ill-defined
take r:[5,6,7] n:-1;ill-defined
take r:{(2|->5)} n:0;ill-defined
drop_first r:[5,6,7] n:0;{(1|->5),(2|->6),(3|->7)}
drop_first r:[5,6,7] n:2;{(1|->7)}
drop_first r:[5,6,7] n:3;{}
drop_first r:[5,6,7] n:4;ill-defined
drop_first r:[5,6,7] n:-1;ill-defined
drop_first r:{(2|->5)} n:0;ill-defined";

const JOINS_OF_LISTS: &str = "conc q:[[5,6],<>,[5]];{(1|->5),(2|->6),(3|->5)}
conc q:<>;{}
conc q:[[5],{(2|->6)}];ill-defined
conc q:{(2|->[5])};ill-defined";

const LAWS: &str = "rev rev r:[5,6,7] = r:[5,6,7]
dom concat r:[5,6,7] r:[6,5] = interval n:1 n:5
size concat r:[5,6,7] r:[6,5] = card concat r:[5,6,7] r:[6,5]
size concat r:[5,6,7] r:[6,5];5
card concat r:[5,6,7] r:[6,5];5";

/// A sequence of 333,333 numbers has 1,000,000 nodes.
const LARGEST: &str =
    "size concat times interval n:1 n:262144 s:{7} take times interval n:1 n:262144 s:{7} n:71189;333333
concat times interval n:1 n:262144 s:{7} times interval n:1 n:262144 s:{7};too-large";

const ONE_MORE: &str = "append times interval n:1 n:333333 s:{7} n:7;too-large
prepend n:7 times interval n:1 n:333333 s:{7};too-large";

const LARGEST_REVERSED: &str =
    "rev times interval n:1 n:333333 s:{7} = times interval n:1 n:333333 s:{7}";

#[test]
fn rows(rt: HostRuntime) {
    check(&rt, rt.alloc(), ONE_OPERAND);
    check(&rt, rt.alloc(), NO_SEQUENCES);
    check(&rt, rt.alloc(), TWO_OPERANDS);
    check(&rt, rt.alloc(), JOINS_OF_LISTS);
    check(&rt, rt.alloc(), LAWS);
}

#[test]
fn tells_sequences(rt: HostRuntime) {
    for (text, is) in [("s:{1,2}", false), ("n:5", false), ("r:[5,6]", true)] {
        let v = value(rt.alloc(), text).expect(&rt, text);
        assert_eq!(rt; is_sequence(&v), is, "{text}");
    }
}

#[test]
fn reaches_the_limit(rt: HostRuntime) {
    check(&rt, rt.alloc(), LARGEST);
}

#[test]
fn refuses_one_more(rt: HostRuntime) {
    check(&rt, rt.alloc(), ONE_MORE);
}

#[test]
fn reverses_the_largest(rt: HostRuntime) {
    check(&rt, rt.alloc(), LARGEST_REVERSED);
}
