// What a session holds between commands.
ghost use Rattle.std.specs.Prelude.{◌≡◌, IfOk, OnOk, OnErr};
ghost use Rattle.session_core.specs.Moving.{numbered_in, numbered_before};

use engine_face::Step;
use formulas::Subs;
use session_words::Numbered;
use shared::Shared;
use sqlite_items::Items;
use trace_ops::Trace;

/// A step of a trace; its state has the number with which it was shown.
pub type KeptStep = Shared<Step<Numbered>>;

/// A trace that is kept under a name. It shares its steps.
#[derive(Drop)]
pub struct KeptTrace {
    pub name: Items<u8>,
    pub trace: Trace<KeptStep>,
}

/// What a session has beside the states that were shown.
#[derive(Drop)]
pub struct Held {
    pub trace: Trace<KeptStep>,
    pub kept: Items<KeptTrace>,
    pub subs: Subs,
}

/// The state in which a trace stands.
pub fn state_in<'a>(root: &'a Numbered, trace: &'a Trace<KeptStep>) -> &'a Numbered
    ensures { result.now ≡ numbered_in root.entry.now trace.entry.now }
{
    match trace.current() {
        Some(step) => &step.get().dest,
        None => root,
    }
}

/// The state behind so many steps.
pub fn state_before<'a>(root: &'a Numbered, steps: &'a [KeptStep], n: u64) -> &'a Numbered
    ensures { result.now ≡ numbered_before root.entry.now steps.entry.now n }
{
    match n.checked_sub(1) {
        Some(at) => match sqlite_items::at(steps, at as usize) {
            Some(step) => &step.get().dest,
            None => root,
        },
        None => root,
    }
}
