// Sets of sets, of relations, of functions and of sequences, also by the numbers of members that combinatorics gives.
use crate::expressions::check;
use std::alloc::Global;
use std::process::Abort;

const ONE_OPERAND: &str = "pow s:{};{{}}
pow s:{1,2};{{},{1},{1,2},{2}}
pow s:{1,2,3,4,5,6,7,8,9,10,11,12,13,14,15,16,17};too-large
pow1 s:{};{}
pow1 s:{1,2};{{1},{1,2},{2}}
pow1 s:{1,2,3,4,5,6,7,8,9,10,11,12,13,14,15,16,17};too-large
seq s:{};{{}}
seq s:{1};too-large
seq1 s:{};{}
seq1 s:{1};too-large
iseq s:{7};{{},{(1|->7)}}
perm s:{7,8};{{(1|->7),(2|->8)},{(1|->8),(2|->7)}}";

const TWO_OPERANDS: &str = "relations s:{1} s:{3};{{},{(1|->3)}}
relations s:{1,2,3,4,5,6,7,8,9,10,11,12,13,14,15,16,17} s:{1,2};too-large
partial s:{1} s:{3,4};{{},{(1|->3)},{(1|->4)}}
partial_inj s:{1,2} s:{3};{{},{(1|->3)},{(2|->3)}}
partial_surj s:{1,2} s:{3};{{(1|->3)},{(1|->3),(2|->3)},{(2|->3)}}
total s:{1} s:{3,4};{{(1|->3)},{(1|->4)}}
total s:{} s:{3};{{}}
total s:{1,2,3,4,5,6,7,8,9,10,11,12,13,14,15,16,17} s:{1,2};too-large
total_inj s:{1,2} s:{3,4};{{(1|->3),(2|->4)},{(1|->4),(2|->3)}}
total_surj s:{1,2} s:{3};{{(1|->3),(2|->3)}}
bijections s:{1,2} s:{3,4};{{(1|->3),(2|->4)},{(1|->4),(2|->3)}}
bijections s:{1,2,3,4,5,6,7,8,9,10,11,12,13,14,15,16} s:{1,2,3,4,5,6,7,8,9,10,11,12,13,14,15,16};too-large";

/// 16 elements have 65,536 subsets, of 589,825 nodes; 17 have subsets of 1,245,185 nodes.
const LARGEST: &str = "card pow s:{1,2,3,4,5,6,7,8,9,10,11,12,13,14,15,16};65536";

const NUMBERS: &str = "card pow s:{};1
card pow s:{1};2
card pow s:{1,2};4
card pow s:{1,2,3};8
card perm s:{};1
card perm s:{1};1
card perm s:{1,2};2
card perm s:{1,2,3};6
card iseq s:{};1
card iseq s:{1};2
card iseq s:{1,2};5
card iseq s:{1,2,3};16";

/// How many there are from S to T: a group for each number of elements of S, from 0 on, and in it one number for each of T's.
const COUNTS: &str = "relations; 1 1 1 1  1 2 4 8  1 4 16 64  1 8 64 512
partial; 1 1 1 1  1 2 3 4  1 4 9 16  1 8 27 64
partial_inj; 1 1 1 1  1 2 3 4  1 3 7 13  1 4 13 34
partial_surj; 1 0 0 0  1 1 0 0  1 3 2 0  1 7 12 6
total; 1 1 1 1  0 1 2 3  0 1 4 9  0 1 8 27
total_inj; 1 1 1 1  0 1 2 3  0 0 2 6  0 0 0 6
total_surj; 1 0 0 0  0 1 0 0  0 1 2 0  0 1 6 6
bijections; 1 0 0 0  0 1 0 0  0 0 2 0  0 0 0 6";

/// The sets of the first numbers.
const FIRST_NUMBERS: [&str; 4] = ["s:{}", "s:{1}", "s:{1,2}", "s:{1,2,3}"];

fn check_count(rt: &impl Abort, alloc: Global, op: &str, s: &str, t: &str, want: &str) {
    let row = format!(in alloc; "card {op} {s} {t};{want}").expect(rt, op);
    check(rt, alloc, row.as_str());
}

fn check_counts(rt: &impl Abort, alloc: Global, line: &str) {
    let (op, counts) = line.split_once(';').expect(rt, line);
    let mut counts = counts.split_whitespace();
    for s in FIRST_NUMBERS {
        for t in FIRST_NUMBERS {
            check_count(rt, alloc, op, s, t, counts.next().expect(rt, line));
        }
    }
    assert!(rt; counts.next().is_none(), "{line}");
}

#[test]
fn counts_as_combinatorics(rt: HostRuntime) {
    check(&rt, rt.alloc(), NUMBERS);
    for line in COUNTS.lines() {
        check_counts(&rt, rt.alloc(), line);
    }
}

#[test]
fn rows(rt: HostRuntime) {
    check(&rt, rt.alloc(), ONE_OPERAND);
    check(&rt, rt.alloc(), TWO_OPERANDS);
    check(&rt, rt.alloc(), LARGEST);
}
