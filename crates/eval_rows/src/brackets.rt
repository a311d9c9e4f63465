// Trees with many brackets in one another, in a thread with a stack of 2 MB.
use crate::answers::{face, worth};
use std::alloc::{AllocError, Global};
use std::test::Fail;
use std::thread::Builder;

// How many brackets; what stands first, what is repeated, what stands between, what is repeated then, what stands last;
// and what it is worth.
type Nest = (u64, [&'static str; 5], &'static str);

const NESTS: [Nest; 31] = [
    (100, ["1", "", "", " neg", ""], "1"),
    (100, ["1", "", "", " {1", " card"], "1"),
    (100, ["1", "", "", " [1", " card"], "1"),
    (100, ["", "1 ", "1", " +", ""], "101"),
    (100, ["", "1 ^^ ", "1", " **1", ""], "1"),
    (100, ["1", "", "", " ^^ 1 **1", ""], "1"),
    (100, ["", "1 1 |-> {1 ", "1", " ()", ""], "1"),
    (100, ["", "1 1 |-> {1 ", "1 {1", " []", " card"], "1"),
    (100, ["T", "", "", " bool TRUE =", ""], "TRUE"),
    (100, ["T", "", "", " 1 2 if 1 =", ""], "TRUE"),
    (100, ["", "T ", "1", " 0 if", ""], "1"),
    (100, ["", "F 0 ", "1", " if", ""], "1"),
    (100, ["T", "", "", " not", ""], "TRUE"),
    (100, ["", "T ", "T", " &", ""], "TRUE"),
    (100, ["", "T ", "T", " =>", ""], "TRUE"),
    (100, ["", "1 1 num ", "T", " #1", ""], "TRUE"),
    (100, ["", "1 1 num T ", "T", " !1", ""], "TRUE"),
    (100, ["", "1 1 num ", "T", " T !1", ""], "TRUE"),
    (100, ["", "1 1 num ", "T", " {|1 {0 /=", ""], "TRUE"),
    (100, ["1", "", "", " only T {|1", " card"], "1"),
    (100, ["1", "", "", " {1 in T {|1", " card"], "1"),
    (100, ["1", "", "", " {1 cut T {|1", " card"], "1"),
    (100, ["1", "", "", " 1 num T s0 SIGMA1", ""], "1"),
    (100, ["", "1 1 num T ", "1", " %1", " card"], "1"),
    (100, ["", "1 1 num T ", "1", " {1 UNION1", " card"], "1"),
    (100, ["", "1 1 num T ", "1", " PI1", ""], "1"),
    (100, ["1", " {1", " 1 {1", " POW", " :"], "TRUE"),
    (100, ["1", " [1", " 1 {1", " perm", " :"], "TRUE"),
    (240, ["1", " 1 |->", " 1 {1", " 1 {1 *S", " :"], "TRUE"),
    (100, ["1", " 1 |-> {1", " 1 {1", " 1 {1 -->", " :"], "TRUE"),
    (
        100,
        [
            "",
            "T T T 1 1 1 1 ^^ ",
            "-1",
            " neg **1 * + .. 1 1 .. = <=> & => -1 -1 if",
            "",
        ],
        "-1",
    ),
];

fn add_often(text: &mut Vec<u8>, part: &str, count: u64) -> Result<(), AllocError> {
    for _ in 0..count {
        text.extend_from_slice(part.as_bytes())?;
    }
    Ok(())
}

fn nested(alloc: Global, count: u64, parts: [&str; 5]) -> Result<Vec<u8>, AllocError> {
    let [begin, first, middle, second, end] = parts;
    let mut text = Vec::new(alloc);
    add_often(&mut text, begin, 1)?;
    add_often(&mut text, first, count)?;
    add_often(&mut text, middle, 1)?;
    add_often(&mut text, second, count)?;
    add_often(&mut text, end, 1)?;
    Ok(text)
}

fn is_worth(alloc: Global, notation: &[u8], want: &str) -> bool {
    match (str::from_utf8(notation), face(alloc)) {
        (Ok(notation), Ok(face)) => match worth(alloc, &face, notation) {
            Ok(text) => text.as_slice() == want.as_bytes(),
            Err(_) => false,
        },
        _ => false,
    }
}

fn is_nest_worth(alloc: Global, nest: Nest) -> bool {
    let (count, parts, want) = nest;
    match nested(alloc, count, parts) {
        Ok(text) => is_worth(alloc, text.as_slice(), want),
        Err(_) => false,
    }
}

#[test]
fn brackets_in_a_small_thread(rt: HostRuntime) -> Result<(), Fail> {
    let alloc = rt.alloc();
    for nest in NESTS {
        let child = Builder::new()
            .stack_size(2 << 20)
            .spawn(&rt, move || is_nest_worth(alloc, nest))?;
        let right = child.join(&rt);
        let (_, parts, _) = nest;
        assert!(rt; right, "{parts:?}");
    }
    Ok(())
}
