// Words, machines and lines, and texts that are nearly such.
use super::*;

// The status of a run of these words, and its text.
fn run<Rt: Threads + Wait + Sync>(
    rt: &Rt,
    alloc: Global,
    given: &[&str],
) -> Result<(u8, Vec<u8>), AllocError> {
    let mut opener = opener(alloc, COUNTER, LINES, NONE)?;
    let mut out = MemSink::new(alloc, 4096, Items::new(alloc))?;
    let words = words(alloc, given)?;
    let finished = host(rt, alloc, words.as_slice(), &mut opener, &mut out);
    Ok((finished.status, Vec::from_slice(alloc, out.bytes())?))
}

#[test]
fn words_and_missing_documents(rt: HostRuntime) -> Result<(), Fail> {
    for (at, (given, wanted, text)) in [
        ([].as_slice(), 2u8, b"usage\n".as_slice()),
        (&["fly"], 2, b"usage\n"),
        (&["solo"], 2, b"usage\n"),
        (&["solo", "m"], 2, b"usage\n"),
        (&["solo", "m", "s", "t"], 2, b"usage\n"),
        (&["Solo", "m", "s"], 2, b"usage\n"),
        (&["solo", "-m", "s"], 2, b"usage\n"),
        (&["solo", "m", "--pref"], 2, b"usage\n"),
        (&["solo", "m", "s", "--pref", "MAXINT=0"], 2, b"usage\n"),
        (&["check", "m"], 2, b"usage\n"),
        (&["solo", "q", "s"], 3, b"document q\n"),
        (&["solo", "m", "r"], 3, b"document r\n"),
    ]
    .into_iter()
    .enumerate()
    {
        let (status, said) = run(&rt, rt.alloc(), given)?;
        assert_eq!(rt; status, wanted, "the words {at}");
        assert_eq!(rt; said.as_slice(), text, "the words {at}");
    }
    Ok(())
}

// Each differs from a machine in one place.
const NEARLY: [&[u8]; 22] = [
    b"",
    b"MACHINE A END",
    b"MACHINE A VARIABLES x INVARIANT x : INTEGER INITIALISATION x := 5 OPERATIONS inc = x := x + 2",
    b"MACHINE A VARIABLES x INVARIANT x : INTEGER INITIALISATION x := 5 OPERATIONS inc = x := x + 2 END END",
    b"MACHINE A VARIABLES x INVARIANT x : INTEGER INITIALISATION x := 5 OPERATIONS inc = x := x + 2; END",
    b"MACHINE A VARIABLES x INVARIANT x : INTEGER INITIALISATION x := 5 OPERATIONS END",
    b"MACHINE A VARIABLES x INVARIANT x : NATURAL INITIALISATION x := 5 OPERATIONS inc = x := x + 2 END",
    b"MACHINE A VARIABLES x INVARIANT y : INTEGER INITIALISATION x := 5 OPERATIONS inc = x := x + 2 END",
    b"MACHINE A VARIABLES x INVARIANT x : INTEGER INITIALISATION y := 5 OPERATIONS inc = x := x + 2 END",
    b"MACHINE A VARIABLES x INVARIANT x : INTEGER INITIALISATION x := 5 OPERATIONS inc = y := x + 2 END",
    b"MACHINE A VARIABLES x INVARIANT x : INTEGER INITIALISATION x := 5 OPERATIONS inc = x := y + 2 END",
    b"MACHINE A VARIABLES x INVARIANT x : INTEGER INITIALISATION x := 5 OPERATIONS inc = x := x - 2 END",
    b"MACHINE A VARIABLES x INVARIANT x : INTEGER INITIALISATION x := 5 OPERATIONS inc = x : = x + 2 END",
    b"MACHINE A VARIABLES x INVARIANT x : INTEGER INITIALISATION x := -5 OPERATIONS inc = x := x + 2 END",
    b"MACHINE A VARIABLES x INVARIANT x : INTEGER INITIALISATION x := 5 OPERATIONS inc = x := x + 170141183460469231731687303715884105728 END",
    b"MACHINE A VARIABLES x INVARIANT x : INTEGER INITIALISATION x := 5 OPERATIONS x = x := x + 2 END",
    b"MACHINE A VARIABLES x INVARIANT x : INTEGER INITIALISATION x := 5 OPERATIONS inc = x := x + 2; inc = x := x + 3 END",
    b"MACHINE A VARIABLES skip INVARIANT skip : INTEGER INITIALISATION skip := 5 OPERATIONS inc = skip := skip + 2 END",
    b"MACHINE 1A VARIABLES x INVARIANT x : INTEGER INITIALISATION x := 5 OPERATIONS inc = x := x + 2 END",
    b"MACHINE A VARIABLES _x INVARIANT _x : INTEGER INITIALISATION _x := 5 OPERATIONS inc = _x := _x + 2 END",
    b"MACHINE A /* c */ VARIABLES x INVARIANT x : INTEGER INITIALISATION x := 5 OPERATIONS inc = x := x + 2 END",
    b"MACHINE A VARIABLES x INVARIANT x : INTEGER INITIALISATION x := 5x OPERATIONS inc = x := x + 2 END",
];

#[test]
fn texts_that_are_nearly_machines(rt: HostRuntime) -> Result<(), Fail> {
    for (at, machine) in NEARLY.iter().enumerate() {
        let seen = solo(&rt, rt.alloc(), machine, LINES, NONE, &[])?;
        assert_eq!(rt; seen.status, 4, "the text {at}");
        assert_eq!(rt;
            seen.text.as_slice(),
            b"refused P0 machine:0\n".as_slice(),
            "the text {at}"
        );
    }
    Ok(())
}

// The spelling of a machine is free between its tokens.
#[test]
fn texts_that_are_machines(rt: HostRuntime) -> Result<(), Fail> {
    for machine in [
        b"MACHINE A\r\n\tVARIABLES x\nINVARIANT x:INTEGER INITIALISATION x:=007 OPERATIONS inc=x:=x+0 END\n".as_slice(),
        b" MACHINE A VARIABLES MACHINE1 INVARIANT MACHINE1 : INTEGER INITIALISATION MACHINE1 := 5 OPERATIONS A = MACHINE1 := MACHINE1 + 1 END",
        b"MACHINE A VARIABLES x INVARIANT x : INTEGER INITIALISATION x := 5 OPERATIONS inc = x := x + 2;b_2=x := x + 170141183460469231731687303715884105727 END",
    ] {
        let seen = solo(&rt, rt.alloc(), machine, b"step 1\n", NONE, &[])?;
        assert_eq!(rt; seen.status, 0);
        assert_eq!(rt;
            seen.output.as_slice(),
            b"$initialise_machine : 1\nok\n".as_slice()
        );
    }
    Ok(())
}

const NO_COMMANDS: [&[u8]; 16] = [
    b"op\n",
    b"opss\n",
    b"ops 1\n",
    b"Ops\n",
    b"step\n",
    b"step 1 2\n",
    b"step x\n",
    b"step -1\n",
    b"step 1x\n",
    b"step 18446744073709551616\n",
    b"step1\n",
    b"back 1\n",
    b"backs\n",
    b"/ /\n",
    b"quit\n",
    b"ops\r \n",
];

#[test]
fn lines_that_are_nearly_commands(rt: HostRuntime) -> Result<(), Fail> {
    for (at, line) in NO_COMMANDS.iter().enumerate() {
        let seen = solo(&rt, rt.alloc(), COUNTER, line, NONE, &[])?;
        assert_eq!(rt; seen.status, 0, "the line {at}");
        assert_eq!(rt;
            seen.output.as_slice(),
            b"error E1 command\n".as_slice(),
            "the line {at}"
        );
    }
    Ok(())
}

#[test]
fn lines_and_their_replies(rt: HostRuntime) -> Result<(), Fail> {
    for (lines, count, output) in [
        (
            b"\n \t\n//x\n\t// back\n\r\n".as_slice(),
            5u64,
            b"".as_slice(),
        ),
        (b"\tback \r\n", 1, b"error E9 at-start\n"),
        (b"back", 1, b"error E9 at-start\n"),
        (b"step 18446744073709551615\n", 1, b"error E5 no-step\n"),
        (b"step 0\n", 1, b"error E5 no-step\n"),
        (b"step  01\n", 1, b"$initialise_machine : 1\nok\n"),
        (
            b"step 1\nback\nback\n",
            3,
            b"$initialise_machine : 1\nok\nstate 0\nok\nerror E9 at-start\n",
        ),
        (
            b"step 1\nstep 1\nback\nback\nstep 1\nback\n",
            6,
            b"$initialise_machine : 1\nok\ninc : 2\nok\nstate 1\nok\nstate 0\nok\n$initialise_machine : 1\nok\nstate 0\nok\n",
        ),
    ] {
        let seen = solo(&rt, rt.alloc(), COUNTER, lines, NONE, &[])?;
        assert_eq!(rt; seen.status, 0);
        assert_eq!(rt; seen.lines, count);
        assert_eq!(rt; seen.output.as_slice(), output);
    }
    Ok(())
}
