// A fault at each call of the outside, on the session of the worked row.
use super::*;

// How many states have numbers after so many of its lines.
const STATES: [u64; 8] = [1, 1, 2, 2, 3, 3, 3, 3];

// A run whose session ended by a fault, after so many lines of which so many replies were given whole.
fn compare_cut(
    rt: &impl Abort,
    alloc: Global,
    call: u64,
    seen: &Seen,
    end: End,
    lines: usize,
    given: usize,
) -> Result<(), AllocError> {
    let name = if end == End::SinkFault {
        "sink-fault"
    } else {
        "source-fault"
    };
    let states = STATES.get(lines).copied().unwrap_or(0);
    let text = format!(in alloc; "session s {name} lines {lines} memory 0\nstates {states}\n")?;
    let output = replies(alloc, given)?;
    let wanted = Wanted {
        status: 6,
        text: text.as_bytes(),
        end: Some(end),
        lines: lines as u64,
        states,
        output: &output,
    };
    compare(rt, call as usize, seen, &wanted);
    Ok(())
}

// How many of the lines end among the first bytes.
fn whole_lines(taken: usize) -> usize {
    LINES.iter().take(taken).filter(|b| **b == b'\n').count()
}

#[test]
fn each_call_of_the_source(rt: HostRuntime) -> Result<(), Fail> {
    let alloc = rt.alloc();
    for taken in 0..40u64 {
        let faults = Failing {
            source: &[taken + 1],
            ..NONE
        };
        let seen = solo(&rt, alloc, COUNTER, LINES, faults, &[])?;
        let lines = whole_lines(taken as usize);
        compare_cut(&rt, alloc, taken + 1, &seen, End::SourceFault, lines, lines)?;
    }
    Ok(())
}

#[test]
fn each_call_of_the_sink(rt: HostRuntime) -> Result<(), Fail> {
    let alloc = rt.alloc();
    for given in 0..7u64 {
        let faults = Failing {
            sink: &[given + 1],
            ..NONE
        };
        let seen = solo(&rt, alloc, COUNTER, LINES, faults, &[])?;
        compare_cut(
            &rt,
            alloc,
            given + 1,
            &seen,
            End::SinkFault,
            given as usize + 1,
            given as usize,
        )?;
    }
    Ok(())
}

#[test]
fn each_call_of_the_opener(rt: HostRuntime) -> Result<(), Fail> {
    let alloc = rt.alloc();
    for (call, text) in [(1u64, b"document m\n"), (2, b"document s\n")] {
        let faults = Failing {
            opener: &[call],
            ..NONE
        };
        let seen = solo(&rt, alloc, COUNTER, LINES, faults, &[])?;
        let wanted = Wanted {
            status: 3,
            text,
            end: None,
            lines: 0,
            states: 0,
            output: b"",
        };
        compare(&rt, call as usize, &seen, &wanted);
    }
    Ok(())
}

#[test]
fn a_fault_of_out_hides_no_other(rt: HostRuntime) -> Result<(), Fail> {
    let alloc = rt.alloc();
    let all = replies(alloc, 7)?;
    let some = replies(alloc, 2)?;
    for (at, (sink, status, end, lines, output)) in [
        ([9u64], 5u8, End::EndOfInput, 7, all.as_slice()),
        ([3], 6, End::SinkFault, 3, some.as_slice()),
    ]
    .into_iter()
    .enumerate()
    {
        let faults = Failing {
            sink: &sink,
            ..NONE
        };
        let seen = solo(&rt, alloc, COUNTER, LINES, faults, &[1])?;
        let wanted = Wanted {
            status,
            text: b"",
            end: Some(end),
            lines,
            states: if lines == 7 { 3 } else { 2 },
            output,
        };
        compare(&rt, at, &seen, &wanted);
    }
    Ok(())
}

#[test]
fn pieces_of_the_source(rt: HostRuntime) -> Result<(), Fail> {
    let alloc = rt.alloc();
    let all = replies(alloc, 7)?;
    for piece in [1, 2, 5, 1000] {
        let seen = solo(&rt, alloc, COUNTER, LINES, Failing { piece, ..NONE }, &[])?;
        assert_eq!(rt; seen.status, 0, "of {piece}");
        assert_eq!(rt; seen.output.as_slice(), all.as_slice(), "of {piece}");
    }
    Ok(())
}

// A sink that takes one byte a call.
#[derive(Drop)]
struct Dripping {
    inside: MemSink,
}

impl Sink for Dripping {
    ghost use Rattle.std.specs.Prelude.{Some};
    ghost use Rattle.host_io.specs.Memory.{held_of};

    ghost held = { λ k. Some (held_of k.inside) };

    ghost faults = { λ k. k.inside.calls.faults };

    fn give(&mut self, bytes: &[u8]) -> Result<usize, Failed> {
        match bytes {
            [first, _, ..] => self.inside.give(&[*first]),
            _ => self.inside.give(bytes),
        }
    }
}

// The status of a run, and what such an out holds whose call of that number fails.
fn drip<Rt: Threads + Wait + Sync>(
    rt: &Rt,
    alloc: Global,
    call: u64,
) -> Result<(u8, Vec<u8>), AllocError> {
    let mut opener = opener(alloc, COUNTER, LINES, NONE)?;
    let fails = Items::from_slice(alloc, &[call])?;
    let mut out = Dripping {
        inside: MemSink::new(alloc, 4096, fails)?,
    };
    let words = words(alloc, &["solo", "m", "s"])?;
    let finished = host(rt, alloc, words.as_slice(), &mut opener, &mut out);
    Ok((finished.status, Vec::from_slice(alloc, out.inside.bytes())?))
}

#[test]
fn an_out_that_takes_one_byte_a_call(rt: HostRuntime) -> Result<(), Fail> {
    let text = b"session s end-of-input lines 7 memory 0\nstates 3\n".as_slice();
    for given in 0..50u64 {
        let (status, held) = drip(&rt, rt.alloc(), given + 1)?;
        let (front, rest) = text.split_at((given as usize).min(text.len()));
        assert_eq!(rt; held.as_slice(), front, "at {given}");
        assert_eq!(rt; status, if rest.is_empty() { 0 } else { 5 }, "at {given}");
    }
    Ok(())
}
