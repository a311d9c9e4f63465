// Operators on relations and functions.
use crate::expressions::check;

const ONE_OPERAND: &str = "dom r:{};{}
dom r:{(1|->5),(1|->6),(2|->5)};{1,2}
ran r:{};{}
ran r:{(1|->5),(1|->6),(2|->5)};{5,6}
converse r:{};{}
converse r:{(1|->5),(1|->6),(2|->5)};{(5|->1),(5|->2),(6|->1)}
identity s:{};{}
identity s:{2,1};{(1|->1),(2|->2)}
closure1 r:{};{}
closure1 r:{(1|->1)};{(1|->1)}
closure1 r:{(1|->2),(2|->3),(3|->4)};{(1|->2),(1|->3),(1|->4),(2|->3),(2|->4),(3|->4)}
closure1 r:{(1|->2),(2|->1)};{(1|->1),(1|->2),(2|->1),(2|->2)}
closure r:{};{}
closure r:{(1|->2),(2|->3)};{(1|->1),(1|->2),(1|->3),(2|->2),(2|->3),(3|->3)}";

const RESTRICTIONS: &str = "image r:{} s:{1};{}
image r:{(1|->5),(1|->6),(2|->7)} s:{};{}
image r:{(1|->5),(1|->6),(2|->7),(3|->8)} s:{1,3,4};{5,6,8}
dom_restrict s:{} r:{(1|->5)};{}
dom_restrict s:{1,3} r:{(1|->5),(1|->6),(2|->7),(3|->8)};{(1|->5),(1|->6),(3|->8)}
dom_subtract s:{} r:{(1|->5)};{(1|->5)}
dom_subtract s:{1,3} r:{(1|->5),(1|->6),(2|->7),(3|->8)};{(2|->7)}
ran_restrict r:{(1|->5)} s:{};{}
ran_restrict r:{(1|->5),(1|->6),(2|->5),(5|->1)} s:{1,5};{(1|->5),(2|->5),(5|->1)}
ran_subtract r:{(1|->5)} s:{};{(1|->5)}
ran_subtract r:{(1|->5),(1|->6),(2|->5),(5|->1)} s:{1,5};{(1|->6)}
overwrite r:{} r:{(1|->5)};{(1|->5)}
overwrite r:{(1|->5)} r:{};{(1|->5)}
overwrite r:{(1|->5),(1|->6),(2|->7)} r:{(1|->8),(3|->9)};{(1|->8),(2|->7),(3|->9)}
apply r:{(1|->1),(1|->2),(2|->5)} n:1;ill-defined
apply r:{(1|->1),(1|->2),(2|->5)} n:2;5
apply r:{(1|->1),(1|->2),(2|->5)} n:3;ill-defined
apply r:{} n:1;ill-defined";

const JOINS: &str = "compose r:{} r:{(1|->5)};{}
compose r:{(1|->2),(1|->3),(4|->9)} r:{(2|->5),(3|->5),(3|->6)};{(1|->5),(1|->6)}
direct r:{} r:{(1|->5)};{}
direct r:{(1|->2),(1|->3),(4|->9)} r:{(1|->5),(2|->6)};{(1|->(2|->5)),(1|->(3|->5))}
parallel r:{} r:{(1|->5)};{}
parallel r:{(1|->2),(3|->4)} r:{(5|->6)};{((1|->5)|->(2|->6)),((3|->5)|->(4|->6))}
prj1 s:{} s:{5};{}
prj1 s:{1,2} s:{5};{((1|->5)|->1),((2|->5)|->2)}
prj2 s:{1} s:{};{}
prj2 s:{1,2} s:{5};{((1|->5)|->5),((2|->5)|->5)}
iterate r:{(1|->2),(2|->3),(3|->4)} n:-1;ill-defined
iterate r:{(1|->2),(2|->3),(3|->4)} n:0;{(1|->1),(2|->2),(3|->3),(4|->4)}
iterate r:{(1|->2),(2|->3),(3|->4)} n:1;{(1|->2),(2|->3),(3|->4)}
iterate r:{(1|->2),(2|->3),(3|->4)} n:2;{(1|->3),(2|->4)}
iterate r:{(1|->2),(2|->3),(3|->4)} n:3;{(1|->4)}
iterate r:{(1|->2),(2|->3),(3|->4)} n:4;{}
iterate r:{(1|->2),(2|->1)} n:85070591730234615865843651857942052864;{(1|->1),(2|->2)}
iterate r:{(1|->2),(2|->1)} n:85070591730234615865843651857942052865;{(1|->2),(2|->1)}
iterate r:{} n:7;{}";

/// The domain of a converse is the range, and the converse of a composition the composition of the converses.
const LAWS: &str = "dom converse r:{} = ran r:{}
converse compose r:{} r:{(2|->1)} = compose converse r:{(2|->1)} converse r:{}
dom converse r:{(1|->2)} = ran r:{(1|->2)}
converse compose r:{(1|->2)} r:{} = compose converse r:{} converse r:{(1|->2)}
dom converse r:{(1|->2)} = ran r:{(1|->2)}
converse compose r:{(1|->2)} r:{(2|->1),(2|->3)} = compose converse r:{(2|->1),(2|->3)} converse r:{(1|->2)}
dom converse r:{(1|->1),(1|->2),(2|->5)} = ran r:{(1|->1),(1|->2),(2|->5)}
converse compose r:{(1|->1),(1|->2),(2|->5)} r:{(2|->1),(5|->2)} = compose converse r:{(2|->1),(5|->2)} converse r:{(1|->1),(1|->2),(2|->5)}
dom converse r:{1|->5,2|->5,2|->6} = ran r:{1|->5,2|->5,2|->6}
dom converse r:{1|->5,2|->5,2|->6};{5,6}
ran r:{1|->5,2|->5,2|->6};{5,6}
converse converse r:{1|->5,2|->5,2|->6} = r:{1|->5,2|->5,2|->6}";

/// 500 values of 1003 nodes, each related to a number of its own; 0 related to each; 0 to 2 related to 0 too. A million nodes
/// are the limit.
const LARGE_JOINS: &str = "card dom prj1 interval n:0 n:499 ran append s:{} interval n:0 n:999;500
card times s:{0} times interval n:0 n:499 ran append s:{} interval n:0 n:999;500
card overwrite times interval n:0 n:2 s:{0} times s:{0} times interval n:0 n:499 ran append s:{} interval n:0 n:999;502
prj1 times interval n:0 n:499 ran append s:{} interval n:0 n:999 interval n:0 n:2;too-large
prj2 times interval n:0 n:499 ran append s:{} interval n:0 n:999 interval n:0 n:2;too-large
compose times interval n:0 n:2 s:{0} times s:{0} times interval n:0 n:499 ran append s:{} interval n:0 n:999;too-large
direct times s:{0} times interval n:0 n:499 ran append s:{} interval n:0 n:999 times s:{0} interval n:0 n:2;too-large
parallel times s:{0} times interval n:0 n:499 ran append s:{} interval n:0 n:999 times interval n:0 n:2 s:{0};too-large";

const LARGE_OTHERS: &str =
    "overwrite prj1 interval n:0 n:499 ran append s:{} interval n:0 n:999 converse prj1 interval n:0 n:499 ran append s:{} interval n:0 n:999;too-large
identity times interval n:0 n:499 ran append s:{} interval n:0 n:999;too-large
closure1 overwrite times interval n:0 n:2 s:{0} times s:{0} times interval n:0 n:499 ran append s:{} interval n:0 n:999;too-large
closure overwrite times interval n:0 n:2 s:{0} times s:{0} times interval n:0 n:499 ran append s:{} interval n:0 n:999;too-large
iterate overwrite times interval n:0 n:2 s:{0} times s:{0} times interval n:0 n:499 ran append s:{} interval n:0 n:999 n:2;too-large";

#[test]
fn rows(rt: HostRuntime) {
    check(&rt, rt.alloc(), ONE_OPERAND);
    check(&rt, rt.alloc(), RESTRICTIONS);
    check(&rt, rt.alloc(), JOINS);
    check(&rt, rt.alloc(), LAWS);
}

#[test]
fn limits_of_joins(rt: HostRuntime) {
    check(&rt, rt.alloc(), LARGE_JOINS);
}

#[test]
fn limits_of_others(rt: HostRuntime) {
    check(&rt, rt.alloc(), LARGE_OTHERS);
}
