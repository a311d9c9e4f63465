// Where memory is refused, the run says so. With memory enough this says that nothing was refused; with each allocation
// refused in turn, that each refused line has its mark and says so, and that each other line is answered as in a session
// that has no refused line, with memory enough.
use super::*;

// The replies that a session owes, one for each mark. Fails where memory is refused, also where a session says so.
fn owed<Rt: Threads + Wait + Sync>(
    rt: &Rt,
    alloc: Global,
    marks: &[bool],
) -> Result<Vec<u8>, AllocError> {
    let mut owed = Vec::new(alloc);
    let mut kept = Vec::new(alloc);
    let mut told = 0;
    for (line, refused) in LINES.split_inclusive(|b| *b == b'\n').zip(marks) {
        if *refused {
            owed.extend_from_slice(b"error E23 memory\n")?;
        } else {
            kept.extend_from_slice(line)?;
            let seen = solo(rt, alloc, COUNTER, kept.as_slice(), NONE, &[])?;
            if seen.status != 0 || seen.marked > 0 {
                return Err(AllocError);
            }
            owed.extend_from_slice(seen.output.get(told..).unwrap_or(b""))?;
            told = seen.output.len();
        }
    }
    Ok(owed)
}

fn compare_refused<Rt: Threads + Wait + Sync + Abort>(
    rt: &Rt,
    alloc: Global,
) -> Result<(), AllocError> {
    let seen = solo(rt, alloc, COUNTER, LINES, NONE, &[])?;
    let owed = owed(rt, alloc, seen.marks.as_slice())?;
    let text = format!(in alloc;
        "session s end-of-input lines 7 memory {}\nstates {}\n",
        seen.marked, seen.states
    )?;
    assert!(rt; seen.status < 2);
    assert_eq!(rt; seen.marks.len() as u64, seen.lines);
    assert_eq!(rt; seen.output.as_slice(), owed.as_slice());
    if seen.status == 0 {
        assert_eq!(rt; seen.text.as_slice(), text.as_bytes());
    }
    Ok(())
}

// Where memory is refused beside the run, all is done once more.
#[test]
fn each_refused_line_has_its_mark(rt: HostRuntime) -> Result<(), Fail> {
    let alloc = rt.alloc();
    if compare_refused(&rt, alloc).is_err() {
        compare_refused(&rt, alloc)?;
    }
    Ok(())
}
