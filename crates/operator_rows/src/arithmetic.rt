// Arithmetic on integers of 128 bits.
use b_arith::{add, div, modulo, mul, neg, power, sub};
use b_values::FaultKind;
use std::alloc::{AllocError, Global};
use std::process::Abort;

const ROWS: &str =
    "add 85070591730234615865843651857942052864 85070591730234615865843651857942052864;overflow
add 85070591730234615865843651857942052864 85070591730234615865843651857942052863;170141183460469231731687303715884105727
add 170141183460469231731687303715884105727 1;overflow
add -170141183460469231731687303715884105728 -1;overflow
add 170141183460469231731687303715884105727 -170141183460469231731687303715884105728;-1
add -170141183460469231731687303715884105728 0;-170141183460469231731687303715884105728
sub 1 2;-1
sub -170141183460469231731687303715884105728 1;overflow
sub 0 -170141183460469231731687303715884105728;overflow
sub -1 -170141183460469231731687303715884105728;170141183460469231731687303715884105727
sub 170141183460469231731687303715884105727 -1;overflow
mul -3 7;-21
mul -170141183460469231731687303715884105728 1;-170141183460469231731687303715884105728
mul -170141183460469231731687303715884105728 -1;overflow
mul 18446744073709551616 9223372036854775808;overflow
mul 18446744073709551616 -9223372036854775808;-170141183460469231731687303715884105728
div 7 2;3
div -7 2;-3
div 7 -2;-3
div -7 -2;3
div 1 -170141183460469231731687303715884105728;0
div -170141183460469231731687303715884105728 -1;overflow
div -170141183460469231731687303715884105728 1;-170141183460469231731687303715884105728
div 7 0;ill-defined
mod 7 3;1
mod 0 1;0
mod 170141183460469231731687303715884105727 170141183460469231731687303715884105727;0
mod 7 0;ill-defined
mod 7 -3;ill-defined
mod -1 3;ill-defined
power 0 0;1
power -2 2;4
power -2 127;-170141183460469231731687303715884105728
power 2 127;overflow
power 2 126;85070591730234615865843651857942052864
power 2 170141183460469231731687303715884105727;overflow
power -1 170141183460469231731687303715884105727;-1
power 1 170141183460469231731687303715884105727;1
power 0 170141183460469231731687303715884105727;0
power 2 -1;ill-defined";

fn answer(op: &str, a: i128, b: i128) -> Option<Result<i128, FaultKind>> {
    match op {
        "add" => Some(add(a, b)),
        "sub" => Some(sub(a, b)),
        "mul" => Some(mul(a, b)),
        "div" => Some(div(a, b)),
        "mod" => Some(modulo(a, b)),
        "power" => Some(power(a, b)),
        _ => None,
    }
}

fn told(alloc: Global, answer: Result<i128, FaultKind>) -> Result<String, AllocError> {
    match answer {
        Ok(n) => format!(in alloc; "{n}"),
        Err(FaultKind::Overflow) => String::from_str(alloc, "overflow"),
        Err(FaultKind::IllDefined) => String::from_str(alloc, "ill-defined"),
        Err(FaultKind::TooLarge) => String::from_str(alloc, "too-large"),
    }
}

/// A line has an operator, its numbers and what it answers.
fn check_line(rt: &impl Abort, alloc: Global, line: &str) {
    let (call, want) = line.split_once(';').expect(rt, line);
    let (op, numbers) = call.split_once(' ').expect(rt, line);
    let (a, b) = numbers.split_once(' ').expect(rt, line);
    let a = a.parse::<i128>().expect(rt, a);
    let b = b.parse::<i128>().expect(rt, b);
    let found = answer(op, a, b).expect(rt, op);
    let got = told(alloc, found).expect(rt, call);
    assert_eq!(rt; got.as_str(), want, "{call}");
}

#[test]
fn two_numbers(rt: HostRuntime) {
    for line in ROWS.lines() {
        check_line(&rt, rt.alloc(), line);
    }
}

#[test]
fn negations(rt: HostRuntime) {
    assert_eq!(rt; neg(5), Ok(-5));
    assert_eq!(rt; neg(0), Ok(0));
    assert_eq!(rt;
        neg(i128::MAX),
        Ok(-170141183460469231731687303715884105727)
    );
    assert_eq!(rt; neg(i128::MIN), Err(FaultKind::Overflow));
}

#[test]
fn a_power_of_a_power(rt: HostRuntime) {
    assert_eq!(rt; power(3, 2).and_then(|b| power(2, b)), Ok(512));
}
