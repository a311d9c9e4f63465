// The words of the program.
ghost use Rattle.std.specs.Prelude.{◌≡◌, [], ◌∷◌, length, map, string_bytes, IfOk, IsErrOf, IsSome};
ghost use Rattle.host_top.specs.Reading.{Gives};
ghost use Rattle.host_top.specs.declared.asking.Form.TheVariants.{Solo};
ghost use Rattle.host_top.specs.Asking.{asked_of, asked_by};

use std::alloc::{AllocError, Global};
use thiserror::Error;

/// The forms of the program's words.
#[derive(Clone, Copy, Debug, PartialEq, Eq)]
pub enum Form {
    Solo,
}

/// What the words ask for: a form, the name of the machine's document, and the names of the sessions.
#[derive(Debug, Drop)]
pub struct Words {
    pub form: Form,
    pub machine: String,
    pub sessions: Vec<String>,
}

/// Why words weren't read.
#[derive(Debug, Drop, Error)]
pub enum WordsFault {
    #[error("the words have no form of the program")]
    Usage,
    #[error("out of memory")]
    Memory,
}

// The names of `solo MACHINE SESSION`. A word that begins with `-` is an option, and there are none yet.
fn solo_names(words: &[String]) -> Option<(&str, &str)>
    ensures { Gives (λ names. record { form = Solo; machine = names.0.now; sessions = names.1.now ∷ [] }) result (asked_of (map (λ word. string_bytes word) words.now)) }
{
    match words {
        [word, machine, session] => {
            let plain = !machine.as_bytes().starts_with(b"-")
                && !session.as_bytes().starts_with(b"-");
            if word.as_str() == "solo" && plain {
                Some((machine.as_str(), session.as_str()))
            } else {
                None
            }
        }
        _ => None,
    }
}

fn one_word(alloc: Global, word: &str) -> Result<Vec<String>, AllocError>
    ensures { IfOk result (λ words. map (λ word. string_bytes word) words.items ≡ word.now ∷ []) }
{
    let mut words = Vec::new(alloc);
    words.push(String::from_str(alloc, word)?)?;
    Ok(words)
}

fn solo_words(alloc: Global, machine: &str, session: &str) -> Result<Words, AllocError>
    ensures { IfOk result (λ words. asked_by words ≡ record { form = Solo; machine = machine.now; sessions = session.now ∷ [] }) }
{
    Ok(Words {
        form: Form::Solo,
        machine: String::from_str(alloc, machine)?,
        sessions: one_word(alloc, session)?,
    })
}

/// Reads the words of the command line, without the program's own name.
pub fn read_words(alloc: Global, words: &[String]) -> Result<Words, WordsFault>
    ensures asked { IfOk result (λ read. asked_of (map (λ word. string_bytes word) words.now) ≡ Some (asked_by read)) }
    ensures usage { IsErrOf result WordsFault.Usage → asked_of (map (λ word. string_bytes word) words.now) ≡ None }
    ensures memory { IsErrOf result WordsFault.Memory → IsSome (asked_of (map (λ word. string_bytes word) words.now)) }
    ensures one { IfOk result (λ read. length read.sessions.items ≡ 1) }
{
    let Some((machine, session)) = solo_names(words) else {
        return Err(WordsFault::Usage);
    };
    match solo_words(alloc, machine, session) {
        Ok(read) => Ok(read),
        Err(AllocError) => Err(WordsFault::Memory),
    }
}
