// Which line is which command.
use super::tables::{BLANKS, FORMS, NAMES, NUMBERS, OTHERS};
use super::*;
use session_text::{CommandFault, read_command};

// The command of a line in the notation of the tables: `E1` where it has none.
fn shown(alloc: Global, line: &[u8]) -> Result<Vec<u8>, Fail> {
    match read_command(alloc, line) {
        Ok(command) => {
            let text = format!(in alloc; "{command:?}")?;
            Ok(text.into_bytes())
        }
        Err(CommandFault::NoCommand) => Ok(Vec::from_slice(alloc, b"E1")?),
        Err(CommandFault::Memory) => Err(Fail::from("memory")),
    }
}

// A line of each table.
fn expect_rows(rt: &impl Abort, alloc: Global, table: &str) -> Result<(), Fail> {
    for (row, text) in table.lines().enumerate() {
        let Some((line, wanted)) = text.split_once('`') else {
            return Err(Fail::from("a row without a mark"));
        };
        let line = bytes_of(alloc, line)?;
        let wanted = bytes_of(alloc, wanted)?;
        let shown = shown(alloc, line.as_slice())?;
        expect_text(rt, row, shown.as_slice(), wanted.as_slice());
    }
    Ok(())
}

#[test]
fn each_form(rt: HostRuntime) -> Result<(), Fail> {
    expect_rows(&rt, rt.alloc(), FORMS)
}

#[test]
fn blanks_and_returns(rt: HostRuntime) -> Result<(), Fail> {
    expect_rows(&rt, rt.alloc(), BLANKS)
}

#[test]
fn numbers(rt: HostRuntime) -> Result<(), Fail> {
    expect_rows(&rt, rt.alloc(), NUMBERS)
}

#[test]
fn names(rt: HostRuntime) -> Result<(), Fail> {
    expect_rows(&rt, rt.alloc(), NAMES)
}

#[test]
fn no_commands(rt: HostRuntime) -> Result<(), Fail> {
    expect_rows(&rt, rt.alloc(), OTHERS)
}
