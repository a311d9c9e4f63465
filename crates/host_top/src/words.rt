// Reads the command that a line stands for.
ghost use Rattle.std.specs.Prelude.{◌≡◌, ◌≤◌, ◌<◌, ◌^◌, not, length, IfSome, unwrap_or};
ghost use Rattle.std.specs.List.{position};
ghost use Rattle.animator.specs.Words.{is_blank, number_of, command_of};
ghost use Rattle.host_top.specs.Reading.{word_of, behind_word, command_at};

use animator::Command;

fn blank(b: u8) -> bool
    ensures { result ≡ is_blank b }
{
    b == 32 || b == 9
}

// The place of the first blank.
fn blank_at(bytes: &[u8]) -> Option<usize>
    ensures { result ≡ position is_blank bytes.now }
{
    bytes.iter().position(|b| blank(*b))
}

// The place of the first byte that is no blank.
fn word_at(bytes: &[u8]) -> Option<usize>
    ensures { result ≡ position (λ b. not (is_blank b)) bytes.now }
{
    bytes.iter().position(|b| !blank(*b))
}

/// A place, or the end.
pub fn before(bytes: &[u8], place: Option<usize>) -> usize
    ensures front { result ≡ unwrap_or place (length bytes.now) }
{
    place.unwrap_or(bytes.len())
}

// The first word of a line, and what stands behind it.
fn split_word(line: &[u8]) -> (&[u8], &[u8])
    ensures word { result.0.now ≡ word_of line.now }
    ensures behind { result.1.now ≡ behind_word line.now }
{
    let (_, rest) = line.split_at(before(line, word_at(line)));
    rest.split_at(before(rest, blank_at(rest)))
}

/// The number that one or more digits stand for, up to `most`.
pub fn read_number(most: u128, digits: &[u8]) -> Option<u128>
    ensures value { result ≡ number_of most digits.now }
    ensures within { IfSome result (λ n. n ≤ most) }
{
    if digits.is_empty() {
        return None;
    }
    let mut high = 0u128;
    for b in digits {
        if *b < 48 || *b > 57 {
            return None;
        }
        let Some(tens) = high.checked_mul(10) else {
            return None;
        };
        let Some(next) = tens.checked_add((*b - 48) as u128) else {
            return None;
        };
        high = next;
    }
    if high <= most { Some(high) } else { None }
}

// The command of the first three words of a line.
fn command_at_front(line: &[u8]) -> Command
    ensures { result ≡ command_at (word_of line.now) (word_of (behind_word line.now)) (word_of (behind_word (behind_word line.now))) }
{
    let (word, rest) = split_word(line);
    let (argument, rest) = split_word(rest);
    let (more, _) = split_word(rest);
    if word.is_empty() || word.starts_with(b"//") {
        Command::Blank
    } else if word == b"ops".as_slice() && argument.is_empty() {
        Command::Ops
    } else if word == b"back".as_slice() && argument.is_empty() {
        Command::Back
    } else if word == b"step".as_slice() && more.is_empty() {
        match read_number(u64::MAX as u128, argument) {
            Some(k) => Command::Take(k as u64),
            None => Command::Unknown,
        }
    } else {
        Command::Unknown
    }
}

/// The command that a line stands for.
pub fn read_command(line: &[u8]) -> Command
    ensures { result ≡ command_of line.now }
{
    command_at_front(line)
}
