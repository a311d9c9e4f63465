// Reads the command of a line.
ghost use Rattle.std.specs.Prelude.{◌≡◌, IfOk};
ghost use Rattle.std.specs.Option.{option_map};
ghost use Rattle.b_lex.specs.Spelling.{is_name};
ghost use Rattle.session_words.specs.Arguments.{has_byte, such_as, number_of, is_document};
ghost use Rattle.session_words.specs.Commands.{alone, do_of, migrate_of, random_of, command_with, command_by, command_of, is_silent};
ghost use Rattle.session_text.specs.Reading.{IsRead, IsCopied};

use crate::arguments::{cut_word, document, find_verb, operation, read_number, trim};
use b_lex::is_name;
use session_words::{Command, Verb};
use sqlite_items::Items;
use std::alloc::{AllocError, Global};

/// Why a line gives no command.
#[derive(Clone, Copy, Debug, PartialEq, Eq)]
pub enum CommandFault {
    /// It has none of the forms.
    NoCommand,
    Memory,
}

fn any_byte(bytes: &[u8]) -> bool
    ensures { result ≡ has_byte bytes.now }
{
    match bytes {
        [] => false,
        [_, ..] => true,
    }
}

fn silent(line: &[u8]) -> bool
    ensures { result ≡ is_silent line.now }
{
    !any_byte(line) || line.starts_with(b"//")
}

fn read_alone(rest: &[u8], command: Command) -> Result<Command, CommandFault>
    ensures { IsRead (alone rest.now command) result }
{
    match rest {
        [] => Ok(command),
        [_, ..] => Err(CommandFault::NoCommand),
    }
}

// A copy of the bytes, where they passed the test of their kind.
fn copy_such(alloc: Global, passes: bool, bytes: &[u8]) -> Result<Items<u8>, CommandFault>
    ensures { IsCopied passes bytes.now result }
{
    if !passes {
        return Err(CommandFault::NoCommand);
    }
    match Items::from_slice(alloc, bytes) {
        Ok(copy) => Ok(copy),
        Err(AllocError) => Err(CommandFault::Memory),
    }
}

// A copy of the bytes, where there are any.
fn copy_any(alloc: Global, bytes: &[u8]) -> Result<Option<Items<u8>>, AllocError>
    ensures { IfOk result (λ copy. copy ≡ such_as has_byte bytes.now) }
{
    match bytes {
        [] => Ok(None),
        [_, ..] => {
            let copy = Items::from_slice(alloc, bytes)?;
            Ok(Some(copy))
        }
    }
}

fn read_do(alloc: Global, name: &[u8], pred: &[u8]) -> Result<Command, CommandFault>
    ensures { IsRead (do_of name.now pred.now) result }
{
    if !operation(name) {
        return Err(CommandFault::NoCommand);
    }
    let Ok(op) = Items::from_slice(alloc, name) else {
        return Err(CommandFault::Memory);
    };
    match copy_any(alloc, pred) {
        Ok(pred) => Ok(Command::Do { op, pred }),
        Err(AllocError) => Err(CommandFault::Memory),
    }
}

fn read_migrate(alloc: Global, from: &[u8], to: &[u8]) -> Result<Command, CommandFault>
    ensures { IsRead (migrate_of from.now to.now) result }
{
    if !(document(from) && document(to)) {
        return Err(CommandFault::NoCommand);
    }
    let Ok(from) = Items::from_slice(alloc, from) else {
        return Err(CommandFault::Memory);
    };
    match Items::from_slice(alloc, to) {
        Ok(to) => Ok(Command::Migrate { from, to }),
        Err(AllocError) => Err(CommandFault::Memory),
    }
}

fn read_random(steps: Option<u64>, seed: Option<u64>) -> Result<Command, CommandFault>
    ensures { IsRead (random_of steps seed) result }
{
    let Some(steps) = steps else {
        return Err(CommandFault::NoCommand);
    };
    let Some(seed) = seed else {
        return Err(CommandFault::NoCommand);
    };
    if steps >= 1 && steps <= 1000 {
        Ok(Command::Random { steps, seed })
    } else {
        Err(CommandFault::NoCommand)
    }
}

fn read_eval(alloc: Global, rest: &[u8]) -> Result<Command, CommandFault>
    ensures { IsRead (option_map Command.Eval (such_as has_byte rest.now)) result }
{
    match copy_such(alloc, any_byte(rest), rest) {
        Ok(bytes) => Ok(Command::Eval(bytes)),
        Err(CommandFault::NoCommand) => Err(CommandFault::NoCommand),
        Err(CommandFault::Memory) => Err(CommandFault::Memory),
    }
}

fn read_sub(alloc: Global, rest: &[u8]) -> Result<Command, CommandFault>
    ensures { IsRead (option_map Command.Sub (such_as has_byte rest.now)) result }
{
    match copy_such(alloc, any_byte(rest), rest) {
        Ok(bytes) => Ok(Command::Sub(bytes)),
        Err(CommandFault::NoCommand) => Err(CommandFault::NoCommand),
        Err(CommandFault::Memory) => Err(CommandFault::Memory),
    }
}

fn read_keep(alloc: Global, rest: &[u8]) -> Result<Command, CommandFault>
    ensures { IsRead (option_map Command.Keep (such_as is_name rest.now)) result }
{
    match copy_such(alloc, is_name(rest), rest) {
        Ok(bytes) => Ok(Command::Keep(bytes)),
        Err(CommandFault::NoCommand) => Err(CommandFault::NoCommand),
        Err(CommandFault::Memory) => Err(CommandFault::Memory),
    }
}

fn read_use(alloc: Global, rest: &[u8]) -> Result<Command, CommandFault>
    ensures { IsRead (option_map Command.Use (such_as is_name rest.now)) result }
{
    match copy_such(alloc, is_name(rest), rest) {
        Ok(bytes) => Ok(Command::Use(bytes)),
        Err(CommandFault::NoCommand) => Err(CommandFault::NoCommand),
        Err(CommandFault::Memory) => Err(CommandFault::Memory),
    }
}

fn read_save(alloc: Global, rest: &[u8]) -> Result<Command, CommandFault>
    ensures { IsRead (option_map Command.Save (such_as is_document rest.now)) result }
{
    match copy_such(alloc, document(rest), rest) {
        Ok(bytes) => Ok(Command::Save(bytes)),
        Err(CommandFault::NoCommand) => Err(CommandFault::NoCommand),
        Err(CommandFault::Memory) => Err(CommandFault::Memory),
    }
}

fn read_replay(alloc: Global, rest: &[u8]) -> Result<Command, CommandFault>
    ensures { IsRead (option_map Command.Replay (such_as is_document rest.now)) result }
{
    match copy_such(alloc, document(rest), rest) {
        Ok(bytes) => Ok(Command::Replay(bytes)),
        Err(CommandFault::NoCommand) => Err(CommandFault::NoCommand),
        Err(CommandFault::Memory) => Err(CommandFault::Memory),
    }
}

fn read_click(alloc: Global, rest: &[u8]) -> Result<Command, CommandFault>
    ensures { IsRead (option_map Command.Click (such_as has_byte rest.now)) result }
{
    match copy_such(alloc, any_byte(rest), rest) {
        Ok(bytes) => Ok(Command::Click(bytes)),
        Err(CommandFault::NoCommand) => Err(CommandFault::NoCommand),
        Err(CommandFault::Memory) => Err(CommandFault::Memory),
    }
}

fn read_step(rest: &[u8]) -> Result<Command, CommandFault>
    ensures { IsRead (option_map Command.Step (number_of rest.now)) result }
{
    match read_number(rest) {
        Some(k) => Ok(Command::Step(k)),
        None => Err(CommandFault::NoCommand),
    }
}

fn read_jump(rest: &[u8]) -> Result<Command, CommandFault>
    ensures { IsRead (option_map Command.Jump (number_of rest.now)) result }
{
    match read_number(rest) {
        Some(k) => Ok(Command::Jump(k)),
        None => Err(CommandFault::NoCommand),
    }
}

fn read_show(rest: &[u8]) -> Result<Command, CommandFault>
    ensures { IsRead (option_map Command.Show (number_of rest.now)) result }
{
    match read_number(rest) {
        Some(k) => Ok(Command::Show(k)),
        None => Err(CommandFault::NoCommand),
    }
}

fn read_unsub(rest: &[u8]) -> Result<Command, CommandFault>
    ensures { IsRead (option_map Command.Unsub (number_of rest.now)) result }
{
    match read_number(rest) {
        Some(k) => Ok(Command::Unsub(k)),
        None => Err(CommandFault::NoCommand),
    }
}

// The command of a verb with bytes behind it.
fn read_form(alloc: Global, verb: Verb, rest: &[u8]) -> Result<Command, CommandFault>
    ensures { IsRead (command_with verb rest.now) result }
{
    match verb {
        Verb::Info => read_alone(rest, Command::Info),
        Verb::Ops => read_alone(rest, Command::Ops),
        Verb::Step => read_step(rest),
        Verb::Do => {
            let (name, pred) = cut_word(rest);
            read_do(alloc, name, pred)
        }
        Verb::Back => read_alone(rest, Command::Back),
        Verb::Forward => read_alone(rest, Command::Forward),
        Verb::Jump => read_jump(rest),
        Verb::Trace => read_alone(rest, Command::Trace),
        Verb::State => read_alone(rest, Command::State),
        Verb::Show => read_show(rest),
        Verb::Eval => read_eval(alloc, rest),
        Verb::Sub => read_sub(alloc, rest),
        Verb::Unsub => read_unsub(rest),
        Verb::Subs => read_alone(rest, Command::Subs),
        Verb::Inv => read_alone(rest, Command::Inv),
        Verb::Keep => read_keep(alloc, rest),
        Verb::Use => read_use(alloc, rest),
        Verb::Save => read_save(alloc, rest),
        Verb::Replay => read_replay(alloc, rest),
        Verb::Migrate => {
            let (from, to) = cut_word(rest);
            read_migrate(alloc, from, to)
        }
        Verb::Visb => read_alone(rest, Command::Visb),
        Verb::Click => read_click(alloc, rest),
        Verb::Random => {
            let (steps, seed) = cut_word(rest);
            read_random(read_number(steps), read_number(seed))
        }
        Verb::Quit => read_alone(rest, Command::Quit),
    }
}

// The command of a line without blanks at its ends.
fn read_trimmed(alloc: Global, line: &[u8]) -> Result<Command, CommandFault>
    ensures { IsRead (command_by line.now) result }
{
    if silent(line) {
        return Ok(Command::Blank);
    }
    let (word, rest) = cut_word(line);
    match find_verb(word) {
        Some(verb) => read_form(alloc, verb, rest),
        None => Err(CommandFault::NoCommand),
    }
}

/// The command of a line, given without its LF and without a CR before that. Only commands with a formula, a name or an
/// id take memory.
pub fn read_command(alloc: Global, line: &[u8]) -> Result<Command, CommandFault>
    ensures { IsRead (command_of line.now) result }
{
    read_trimmed(alloc, trim(line))
}
