// What a line of a session asks for.
ghost use Rattle.std.specs.Prelude.{◌≡◌};
ghost use Rattle.session_words.specs.Verbs.{spelling};

use sqlite_items::Items;

/// The word that a command begins with.
#[derive(Clone, Copy, Debug, PartialEq, Eq)]
pub enum Verb {
    Info,
    Ops,
    Step,
    Do,
    Back,
    Forward,
    Jump,
    Trace,
    State,
    Show,
    Eval,
    Sub,
    Unsub,
    Subs,
    Inv,
    Keep,
    Use,
    Save,
    Replay,
    Migrate,
    Visb,
    Click,
    Random,
    Quit,
}

/// All verbs.
pub const VERBS: [Verb; 24] = [
    Verb::Info,
    Verb::Ops,
    Verb::Step,
    Verb::Do,
    Verb::Back,
    Verb::Forward,
    Verb::Jump,
    Verb::Trace,
    Verb::State,
    Verb::Show,
    Verb::Eval,
    Verb::Sub,
    Verb::Unsub,
    Verb::Subs,
    Verb::Inv,
    Verb::Keep,
    Verb::Use,
    Verb::Save,
    Verb::Replay,
    Verb::Migrate,
    Verb::Visb,
    Verb::Click,
    Verb::Random,
    Verb::Quit,
];

impl Verb {
    /// How it is written.
    pub fn word(self) -> &'static [u8]
        ensures { result.now ≡ spelling self }
    {
        match self {
            Verb::Info => b"info",
            Verb::Ops => b"ops",
            Verb::Step => b"step",
            Verb::Do => b"do",
            Verb::Back => b"back",
            Verb::Forward => b"forward",
            Verb::Jump => b"jump",
            Verb::Trace => b"trace",
            Verb::State => b"state",
            Verb::Show => b"show",
            Verb::Eval => b"eval",
            Verb::Sub => b"sub",
            Verb::Unsub => b"unsub",
            Verb::Subs => b"subs",
            Verb::Inv => b"inv",
            Verb::Keep => b"keep",
            Verb::Use => b"use",
            Verb::Save => b"save",
            Verb::Replay => b"replay",
            Verb::Migrate => b"migrate",
            Verb::Visb => b"visb",
            Verb::Click => b"click",
            Verb::Random => b"random",
            Verb::Quit => b"quit",
        }
    }
}

/// A command, with its arguments in their order. Formulas, names and ids are bytes of the line.
#[derive(Debug, Drop)]
pub enum Command {
    /// An empty line, or a comment.
    Blank,
    Info,
    Ops,
    /// Takes the step of this number in the list of steps.
    Step(u64),
    /// Takes the step of an operation at which a predicate holds.
    Do {
        op: Items<u8>,
        pred: Option<Items<u8>>,
    },
    Back,
    Forward,
    /// Goes to a position of the trace.
    Jump(u64),
    Trace,
    State,
    /// Shows the state of this number.
    Show(u64),
    Eval(Items<u8>),
    Sub(Items<u8>),
    Unsub(u64),
    Subs,
    Inv,
    Keep(Items<u8>),
    Use(Items<u8>),
    Save(Items<u8>),
    Replay(Items<u8>),
    /// Loads a document and stores its entries in the present version under the second name.
    Migrate {
        from: Items<u8>,
        to: Items<u8>,
    },
    Visb,
    Click(Items<u8>),
    /// Takes from 1 to 1,000 steps by the choices of a seed.
    Random {
        steps: u64,
        seed: u64,
    },
    Quit,
}
