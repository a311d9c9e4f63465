// Types of 500 and 501 nodes, and many signs.
use crate::names::{answer, known};
use std::alloc::Global;
use std::process::Abort;
use std::test::Fail;

// A text, and behind it another so many times, and an end.
fn repeated(
    alloc: Global,
    front: &str,
    again: &str,
    count: usize,
    end: &str,
) -> Result<Vec<u8>, Fail> {
    let mut text = Vec::new(alloc);
    text.extend_from_slice(front.as_bytes())?;
    for _ in 0..count {
        text.extend_from_slice(again.as_bytes())?;
    }
    text.extend_from_slice(end.as_bytes())?;
    Ok(text)
}

fn expect(rt: &impl Abort, alloc: Global, text: &[u8], wanted: &str) -> Result<(), Fail> {
    let names = known(alloc)?;
    let said = answer(alloc, &names, text)?;
    assert_eq!(rt; said.as_slice(), wanted.as_bytes());
    Ok(())
}

// A couple of 250 numbers has 499 nodes.
#[test]
fn couple_within_a_set_of_500_nodes(rt: HostRuntime) -> Result<(), Fail> {
    let text = repeated(rt.alloc(), "card({1", "|->1", 249, "})")?;
    expect(&rt, rt.alloc(), &text, "INTEGER")
}

#[test]
fn set_of_sets_of_501_nodes(rt: HostRuntime) -> Result<(), Fail> {
    let text = repeated(rt.alloc(), "card({{1", "|->1", 249, "}})")?;
    expect(&rt, rt.alloc(), &text, "C3")
}

#[test]
fn couple_of_501_nodes(rt: HostRuntime) -> Result<(), Fail> {
    let text = repeated(rt.alloc(), "card({1", "|->1", 250, "})")?;
    expect(&rt, rt.alloc(), &text, "C3")
}

#[test]
fn many_signs_known_early(rt: HostRuntime) -> Result<(), Fail> {
    let text = repeated(rt.alloc(), "n", " - n", 10000, "")?;
    expect(&rt, rt.alloc(), &text, "INTEGER")
}

#[test]
fn many_signs_known_late(rt: HostRuntime) -> Result<(), Fail> {
    let text = repeated(rt.alloc(), "{x | x", " - x", 10000, " = 1}")?;
    expect(&rt, rt.alloc(), &text, "POW(INTEGER)")
}

#[test]
fn many_open_signs(rt: HostRuntime) -> Result<(), Fail> {
    let text = repeated(rt.alloc(), "#(x,y).(x - y = x", " & x - y = y", 40, ")")?;
    expect(&rt, rt.alloc(), &text, "C4")
}
