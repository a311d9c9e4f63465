// Operators on sets and on sets of numbers.
use crate::expressions::check;

const ONE_OPERAND: &str = "min s:{3};3
min s:{3,-1,2};-1
min s:{};ill-defined
max s:{3};3
max s:{3,-1,2};3
max s:{};ill-defined
card s:{};0
card s:{7,7};1
card s:{3,-1,2};3
big_union f:{};{}
big_union f:{{}};{}
big_union f:{{1,2},{2,3},{}};{1,2,3}
big_inter f:{};ill-defined
big_inter f:{{}};{}
big_inter f:{{2,1}};{1,2}
big_inter f:{{1,2,3},{2,3,4},{3,2}};{2,3}
big_inter f:{{1,2},{3}};{}";

const TWO_OPERANDS: &str = "interval n:1 n:3;{1,2,3}
interval n:-1 n:1;{-1,0,1}
interval n:5 n:5;{5}
interval n:3 n:1;{}
interval n:1 n:2000000;too-large
interval n:170141183460469231731687303715884105726 n:170141183460469231731687303715884105727;{170141183460469231731687303715884105726,170141183460469231731687303715884105727}
interval n:-170141183460469231731687303715884105728 n:170141183460469231731687303715884105727;too-large
interval n:170141183460469231731687303715884105727 n:-170141183460469231731687303715884105728;{}
interval t:TRUE t:TRUE;ill-defined
union s:{} s:{};{}
union s:{1,3} s:{};{1,3}
union s:{} s:{1,3};{1,3}
union s:{1,3,5} s:{2,3};{1,2,3,5}
union s:{2,3} s:{1,3,5};{1,2,3,5}
intersect s:{} s:{1};{}
intersect s:{1} s:{};{}
intersect s:{1,3,5} s:{2,3,5,6};{3,5}
intersect s:{2,3,5,6} s:{1,3,5};{3,5}
intersect s:{1} s:{2};{}
difference s:{} s:{1};{}
difference s:{1,2} s:{};{1,2}
difference s:{1,2,3} s:{2,4};{1,3}
difference s:{2,4} s:{1,2,3};{4}
difference s:{1,2} s:{1,2};{}
times s:{} s:{1};{}
times s:{1} s:{};{}
times s:{2,1} s:{4,3};{(1|->3),(1|->4),(2|->3),(2|->4)}";

/// What an answer leaves of a universe is the other operator's answer for what each operand leaves.
const LAWS: &str =
    "difference interval n:1 n:3 union s:{} s:{1} = intersect difference interval n:1 n:3 s:{} difference interval n:1 n:3 s:{1}
difference interval n:1 n:3 intersect s:{} s:{1} = union difference interval n:1 n:3 s:{} difference interval n:1 n:3 s:{1}
difference interval n:1 n:3 union s:{1,2} s:{2,3} = intersect difference interval n:1 n:3 s:{1,2} difference interval n:1 n:3 s:{2,3}
difference interval n:1 n:3 intersect s:{1,2} s:{2,3} = union difference interval n:1 n:3 s:{1,2} difference interval n:1 n:3 s:{2,3}
difference interval n:1 n:3 union s:{1,2,3} s:{2} = intersect difference interval n:1 n:3 s:{1,2,3} difference interval n:1 n:3 s:{2}
difference interval n:1 n:3 intersect s:{1,2,3} s:{2} = union difference interval n:1 n:3 s:{1,2,3} difference interval n:1 n:3 s:{2}
difference interval n:1 n:3 union s:{3} s:{1} = intersect difference interval n:1 n:3 s:{3} difference interval n:1 n:3 s:{1}
difference interval n:1 n:3 intersect s:{3} s:{1} = union difference interval n:1 n:3 s:{3} difference interval n:1 n:3 s:{1}
difference s:{1,2,3,4,5} union s:{1,3} s:{3,5,7} = intersect difference s:{1,2,3,4,5} s:{1,3} difference s:{1,2,3,4,5} s:{3,5,7}
difference s:{1,2,3,4,5} union s:{1,3} s:{3,5,7};{2,4}";

/// Nodes are limited, not elements: a set of numbers may have 999,999, a set of couples of numbers 333,333.
const LIMITS: &str = "card union interval n:1 n:999998 interval n:0 n:333333;999999
union interval n:1 n:999999 interval n:0 n:0;too-large
card times interval n:1 n:333333 interval n:0 n:0;333333
times interval n:1 n:333334 interval n:0 n:0;too-large
times interval n:1 n:100000 interval n:0 n:100000;too-large";

#[test]
fn rows(rt: HostRuntime) {
    check(&rt, rt.alloc(), ONE_OPERAND);
    check(&rt, rt.alloc(), TWO_OPERANDS);
    check(&rt, rt.alloc(), LAWS);
}

#[test]
fn limits(rt: HostRuntime) {
    check(&rt, rt.alloc(), LIMITS);
}
