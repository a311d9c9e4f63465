// The limits of this stage.
use super::*;

fn blanks(alloc: Global, count: usize) -> Result<Vec<u8>, AllocError> {
    vec![in alloc; b'\n'; count]
}

// A line that isn't complete at the limit isn't answered.
#[test]
fn the_limit_of_a_session(rt: HostRuntime) -> Result<(), Fail> {
    let alloc = rt.alloc();
    for (at, (count, more, status, end, lines)) in [
        (65_535usize, b"".as_slice(), 0u8, End::EndOfInput, 65_535u64),
        (65_536, b"", 0, End::EndOfInput, 65_536),
        (65_537, b"", 6, End::LineLimit, 65_536),
        (65_533, b"back\n", 6, End::LineLimit, 65_533),
    ]
    .into_iter()
    .enumerate()
    {
        let name = if status == 0 {
            "end-of-input"
        } else {
            "line-limit"
        };
        let text = format!(in alloc; "session s {name} lines {lines} memory 0\nstates 1\n")?;
        let mut bytes = blanks(alloc, count)?;
        bytes.extend_from_slice(more)?;
        let seen = solo(&rt, alloc, COUNTER, &bytes, NONE, &[])?;
        let wanted = Wanted {
            status,
            text: text.as_bytes(),
            end: Some(end),
            lines,
            states: 1,
            output: b"",
        };
        compare(&rt, at, &seen, &wanted);
    }
    Ok(())
}

#[test]
fn the_limit_of_a_document(rt: HostRuntime) -> Result<(), Fail> {
    let alloc = rt.alloc();
    for (size, status) in [(1_048_576usize, 0u8), (1_048_577, 7)] {
        let mut machine = Vec::from_slice(alloc, COUNTER)?;
        machine.resize(size, b' ')?;
        let seen = solo(&rt, alloc, &machine, LINES, NONE, &[])?;
        assert_eq!(rt; seen.status, status, "of {size}");
        if status == 7 {
            assert_eq!(rt; seen.text.as_slice(), b"limit m\n".as_slice());
        }
    }
    Ok(())
}
