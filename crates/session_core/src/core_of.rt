// The session core.
ghost use Rattle.std.specs.Prelude.{◌≡◌, ◌≤◌, Some, true, length, IfOk, OnOk, OnErr, IsOk, false};
ghost use Rattle.std.specs.List.{AllByRecursion, position};
ghost use Rattle.session_words.specs.declared.refusals.Refusal.TheVariants as refusal;
ghost use Rattle.session_words.specs.declared.replies.Reply.TheVariants as reply;
ghost use Rattle.session_text.specs.Writing.{text_of_reply};
ghost use Rattle.session_text.specs.Brief.{HasWords};
ghost use Rattle.engine_face.specs.Meaning.{IsAccepted};
ghost use Rattle.engine_face.specs.Packing.{IsPacked};
ghost use Rattle.engine_face.specs.declared.keys.Scope.TheVariants as scope;
ghost use Rattle.session_core.specs.Moving.{numbered_in, is_named_as, with_kept, changed_held, line_next, line_built, line_spared, taken_on};
ghost use Rattle.session_core.specs.Settling.{moved_text, Asks, Replies, RepliesToQuit, Settled, IsShort, is_asking, is_marked, quits_at, quits_line};
ghost use Rattle.session_core.specs.Fitting.{RootFits, HeldFits, StageFits, AnswerFits, CoreFits, IsAskableNeed};
ghost use Rattle.session_core.specs.Standing.{Begins, GoesOn, Feeds, IsAsked, IsFresh};

use crate::feeding::feed_stage;
use crate::held::{Held, KeptStep, KeptTrace};
use crate::needs::need_of;
use crate::stages::{Answer, Change, Need, Next, Stage};
use crate::starting::{builds, start_command};
use b_values::Face;
use engine_face::{Engine, FormulaKey};
use formulas::{SubFault, Subs};
use session_text::{CommandFault, ReplyText, read_command, write_moved, write_reply};
use session_words::{Numbered, Refusal, Reply};
use sqlite_items::Items;
use std::alloc::{AllocError, Global};
use std::mem;
use trace_ops::{AddFault, Trace};

/// The greatest length of a line.
pub const MOST_LINE: usize = 65_536;

/// Where a session is.
#[derive(Drop)]
pub enum At {
    Idle,
    /// Within a command.
    Asking(Stage),
    /// A reply is given.
    Replying,
    /// The reply to `quit` is given.
    Quitting,
    /// The reply is given that memory refused the command.
    Marked,
}

/// A session.
#[derive(Drop)]
pub struct SessionCore {
    pub(crate) root: Numbered,
    pub(crate) held: Held,
    pub(crate) at: At,
}

/// Where a session went, and what it needs.
#[derive(Drop)]
pub(crate) struct Turn {
    pub(crate) at: At,
    pub(crate) need: Need,
}

fn add(held: &mut Held, step: KeptStep) -> Result<(), AllocError>
    ensures done { OnOk result (held.new ≡ changed_held held.old (Change.Add step)) }
    ensures same { OnErr result (held.new ≡ held.old) }
{
    match held.trace.add(step) {
        Ok(()) => Ok(()),
        Err(AddFault::TraceFull(_)) => Err(AllocError),
        Err(AddFault::Memory(_)) => Err(AllocError),
    }
}

fn go(held: &mut Held, n: u64) -> Result<(), AllocError>
    ensures done { OnOk result (held.new ≡ changed_held held.old (Change.Go n)) }
    ensures same { OnErr result (held.new ≡ held.old) }
    ensures within { n ≤ length held.old.trace.steps → IsOk result }
{
    match held.trace.jump(n) {
        Ok(()) => Ok(()),
        Err(_) => Err(AllocError),
    }
}

fn subscribe(held: &mut Held, key: FormulaKey) -> Result<(), AllocError>
    ensures done { OnOk result (held.new ≡ changed_held held.old (Change.Subscribe key)) }
    ensures same { OnErr result (held.new ≡ held.old) }
{
    match held.subs.add(key) {
        Ok(_) => Ok(()),
        Err(SubFault::SubsFull) => Err(AllocError),
        Err(SubFault::NoSub) => Err(AllocError),
        Err(SubFault::Memory) => Err(AllocError),
    }
}

fn unsubscribe(held: &mut Held, n: u64) -> Result<(), AllocError>
    ensures done { OnOk result (held.new ≡ changed_held held.old (Change.Unsubscribe n)) }
    ensures same { OnErr result (held.new ≡ held.old) }
{
    match held.subs.remove(n) {
        Ok(()) => Ok(()),
        Err(SubFault::SubsFull) => Err(AllocError),
        Err(SubFault::NoSub) => Err(AllocError),
        Err(SubFault::Memory) => Err(AllocError),
    }
}

fn place_of(kept: &[KeptTrace], new: &KeptTrace) -> Option<usize>
    ensures { result ≡ position (is_named_as new.now) kept.now }
{
    kept.iter()
        .position(|one| new.name.as_slice() == one.name.as_slice())
}

#[tactic(auto, using(crate::proofs::Keeping::kept_within, crate::proofs::Keeping::kept_some, crate::proofs::Keeping::kept_none))]
fn keep_in(kept: &mut Items<KeptTrace>, new: KeptTrace) -> Result<(), AllocError>
    ensures done { OnOk result (kept.new ≡ with_kept new kept.old) }
    ensures same { OnErr result (kept.new ≡ kept.old) }
{
    match place_of(kept.as_slice(), &new) {
        Some(at) => {
            kept.set(at, new);
            Ok(())
        }
        None => match kept.push(new) {
            Ok(()) => Ok(()),
            Err(AllocError) => Err(AllocError),
        },
    }
}

fn keep(held: &mut Held, kept: KeptTrace) -> Result<(), AllocError>
    ensures done { OnOk result (held.new ≡ changed_held held.old (Change.Keep kept)) }
    ensures same { OnErr result (held.new ≡ held.old) }
{
    match keep_in(&mut held.kept, kept) {
        Ok(()) => Ok(()),
        Err(AllocError) => Err(AllocError),
    }
}

// Makes a change, or leaves all as it was.
fn apply(held: &mut Held, change: Change) -> Result<(), AllocError>
    ensures done { OnOk result (held.new ≡ changed_held held.old change) }
    ensures same { OnErr result (held.new ≡ held.old) }
{
    match change {
        Change::Stay => Ok(()),
        Change::Go(n) => go(held, n),
        Change::Add(step) => add(held, step),
        Change::Put(trace) => {
            held.trace = trace;
            Ok(())
        }
        Change::Subscribe(key) => subscribe(held, key),
        Change::Unsubscribe(n) => unsubscribe(held, n),
        Change::Keep(kept) => keep(held, kept),
    }
}

fn ask(alloc: Global, root: &Numbered, held: &Held, stage: Stage) -> Result<Turn, AllocError>
    ensures { IfOk result (Asks root.now held.now held.now stage) }
{
    let need = need_of(alloc, root, held, &stage)?;
    Ok(Turn {
        at: At::Asking(stage),
        need,
    })
}

// The reply is written before anything is changed.
fn write_end(
    alloc: Global,
    face: &Face,
    held: &mut Held,
    change: Change,
    reply: Reply<Numbered>,
) -> Result<ReplyText, AllocError>
    ensures text { IfOk result (λ text. text ≡ text_of_reply face.now reply) }
    ensures done { OnOk result (held.new ≡ changed_held held.old change) }
    ensures same { OnErr result (held.new ≡ held.old) }
{
    let text = write_reply(alloc, face, &reply)?;
    match apply(held, change) {
        Ok(()) => Ok(text),
        Err(AllocError) => Err(AllocError),
    }
}

fn refuse(alloc: Global, face: &Face, why: Refusal) -> Result<Turn, AllocError>
    ensures turn { (held : Held) → IfOk result (Replies held held (text_of_reply face.now (reply.Refused why))) }
    ensures spared { HasWords why → IsOk result }
{
    match write_reply(alloc, face, &Reply::Refused(why)) {
        Ok(text) => Ok(Turn {
            at: At::Replying,
            need: Need::Reply(text),
        }),
        Err(AllocError) => Err(AllocError),
    }
}

fn quit(alloc: Global, face: &Face) -> Result<Turn, AllocError>
    ensures turn { (held : Held) → IfOk result (RepliesToQuit held held (text_of_reply face.now reply.Done)) }
    ensures spared { IsOk result }
{
    match write_reply(alloc, face, &Reply::Done) {
        Ok(text) => Ok(Turn {
            at: At::Quitting,
            need: Need::Quit(text),
        }),
        Err(AllocError) => Err(AllocError),
    }
}

fn move_at_once(alloc: Global, held: &mut Held, n: u64, number: u64) -> Result<Turn, AllocError>
    ensures turn { IfOk result (Replies (changed_held held.old (Change.Go n)) held.new (moved_text number)) }
    ensures same { OnErr result (held.new ≡ held.old) }
    ensures spared { n ≤ length held.old.trace.steps → IsOk result }
{
    match go(held, n) {
        Ok(()) => Ok(Turn {
            at: At::Replying,
            need: Need::Reply(write_moved(alloc, number)),
        }),
        Err(AllocError) => Err(AllocError),
    }
}

fn end_turn(
    alloc: Global,
    face: &Face,
    held: &mut Held,
    change: Change,
    reply: Reply<Numbered>,
) -> Result<Turn, AllocError>
    ensures turn { IfOk result (Replies (changed_held held.old change) held.new (text_of_reply face.now reply)) }
    ensures same { OnErr result (held.new ≡ held.old) }
{
    match write_end(alloc, face, held, change, reply) {
        Ok(text) => Ok(Turn {
            at: At::Replying,
            need: Need::Reply(text),
        }),
        Err(AllocError) => Err(AllocError),
    }
}

fn settle(
    alloc: Global,
    face: &Face,
    root: &Numbered,
    held: &mut Held,
    next: Next,
) -> Result<Turn, AllocError>
    ensures settled { IfOk result (Settled root.now held.old face.now next held.new) }
    ensures same { OnErr result (held.new ≡ held.old) }
    ensures spared { IsShort held.old next → IsOk result }
{
    match next {
        Next::Goes(stage) => ask(alloc, root, held, stage),
        Next::Ends(change, reply) => end_turn(alloc, face, held, change, reply),
        Next::Refuses(why) => refuse(alloc, face, why),
        Next::Silent => Ok(Turn {
            at: At::Replying,
            need: Need::Reply(ReplyText::new(alloc)),
        }),
        Next::Moves(n, number) => move_at_once(alloc, held, n, number),
        Next::Quits => quit(alloc, face),
    }
}

// The reply to a command that memory refused. It takes no memory.
fn memory_text(alloc: Global, face: &Face) -> ReplyText
    ensures { result ≡ text_of_reply face.now (reply.Refused refusal.Memory) }
{
    match write_reply(alloc, face, &Reply::Refused(Refusal::Memory)) {
        Ok(text) => text,
        Err(AllocError) => ReplyText::new(alloc),
    }
}

/// Whether a session answers this line: the commands of the others aren't built.
pub fn builds_line(alloc: Global, line: &[u8]) -> Result<bool, AllocError>
    ensures { IfOk result (λ built. built ≡ line_built line.now) }
{
    if line.len() > MOST_LINE {
        return Ok(true);
    }
    match read_command(alloc, line) {
        Ok(command) => Ok(builds(&command)),
        Err(CommandFault::NoCommand) => Ok(true),
        Err(CommandFault::Memory) => Err(AllocError),
    }
}

fn start_line<E: Engine>(
    alloc: Global,
    engine: &E,
    root: &Numbered,
    held: &Held,
    line: &[u8],
) -> Result<Next, AllocError>
    requires at { IsPacked (E.unpack engine.now) (numbered_in root.now held.now.trace).state }
    requires subs { AllByRecursion (λ sub. IsAccepted (E.meaning engine.now) scope.State sub.key) held.now.subs.list }
    requires built { line_built line.now ≡ true }
    ensures next { IfOk result (λ next. next ≡ line_next (E.meaning engine.now) (E.unpack engine.now) root.now held.now line.now) }
    ensures spared { line_spared held.now line.now ≡ true → IsOk result }
{
    if line.len() > MOST_LINE {
        return Ok(Next::Refuses(Refusal::LineTooLong));
    }
    match read_command(alloc, line) {
        Ok(command) => match start_command(alloc, engine, root, held, command) {
            Ok(next) => Ok(next),
            Err(AllocError) => Err(AllocError),
        },
        Err(CommandFault::NoCommand) => Ok(Next::Refuses(Refusal::NoCommand)),
        Err(CommandFault::Memory) => Err(AllocError),
    }
}

fn start_turn<E: Engine>(
    alloc: Global,
    engine: &E,
    root: &Numbered,
    held: &mut Held,
    line: &[u8],
) -> Result<Turn, AllocError>
    requires at { IsPacked (E.unpack engine.now) (numbered_in root.now held.old.trace).state }
    requires subs { AllByRecursion (λ sub. IsAccepted (E.meaning engine.now) scope.State sub.key) held.old.subs.list }
    requires built { line_built line.now ≡ true }
    ensures turn { IfOk result (Settled root.now held.old (E.meaning engine.now).face (line_next (E.meaning engine.now) (E.unpack engine.now) root.now held.old line.now) held.new) }
    ensures same { OnErr result (held.new ≡ held.old) }
    ensures spared { line_spared held.old line.now ≡ true → IsShort held.old (line_next (E.meaning engine.now) (E.unpack engine.now) root.now held.old line.now) → IsOk result }
    ensures within { held.old.trace.position ≤ length held.old.trace.steps }
{
    let _steps = held.trace.steps();
    match start_line(alloc, engine, root, held, line) {
        Ok(next) => settle(alloc, engine.face(), root, held, next),
        Err(AllocError) => Err(AllocError),
    }
}

fn feed_turn(
    alloc: Global,
    face: &Face,
    root: &Numbered,
    held: &mut Held,
    stage: Stage,
    answer: Answer,
) -> Result<Turn, AllocError>
    ensures turn { IfOk result (λ turn. (next : Next) × (taken_on held.old stage answer ≡ Some next) × Settled root.now held.old face.now next held.new turn) }
    ensures same { OnErr result (held.new ≡ held.old) }
    ensures within { held.old.trace.position ≤ length held.old.trace.steps }
{
    let _steps = held.trace.steps();
    match feed_stage(alloc, held, stage, answer) {
        Ok(next) => settle(alloc, face, root, held, next),
        Err(AllocError) => Err(AllocError),
    }
}

impl SessionCore {
    /// A session that has done nothing, without visual elements.
    pub fn new<E: Engine>(alloc: Global, engine: &E) -> Result<SessionCore, AllocError>
        ensures fresh { IfOk result (IsFresh (E.meaning engine.now) (E.unpack engine.now)) }
        ensures fits { IfOk result (CoreFits (E.meaning engine.now) (E.unpack engine.now)) }
    {
        let root = Numbered {
            state: engine.root(alloc)?,
            number: 0,
        };
        let held = Held {
            trace: Trace::new(alloc),
            kept: Items::new(alloc),
            subs: Subs::new(alloc),
        };
        Ok(SessionCore {
            root,
            held,
            at: At::Idle,
        })
    }

    /// Whether memory refused the last command.
    pub fn is_marked(&self) -> bool
        ensures { result ≡ is_marked self.now.at }
    {
        match self.at {
            At::Marked => true,
            _ => false,
        }
    }

    /// Begins the command of a line: what it needs first, or its reply.
    pub fn start<E: Engine>(&mut self, alloc: Global, engine: &E, line: &[u8]) -> Need
        requires fits { CoreFits (E.meaning engine.now) (E.unpack engine.now) self.old }
        requires built { line_built line.now ≡ true }
        ensures fits { CoreFits (E.meaning engine.now) (E.unpack engine.now) self.new }
        ensures root { self.new.root ≡ self.old.root }
        ensures asks { IsAskableNeed (E.meaning engine.now) (E.unpack engine.now) result }
        ensures unchanged { is_asking self.new.at ≡ true → self.new.held ≡ self.old.held }
        ensures begins { Begins (E.meaning engine.now) (E.unpack engine.now) self.old line.now self.new result }
        ensures spared { line_spared self.old.held line.now ≡ true → is_marked self.new.at ≡ false }
        ensures quits { quits_at self.new.at ≡ quits_line line.now }
    {
        match start_turn(alloc, engine, &self.root, &mut self.held, line) {
            Ok(turn) => {
                let Turn { at, need } = turn;
                self.at = at;
                need
            }
            Err(AllocError) => {
                self.at = At::Marked;
                Need::Reply(memory_text(alloc, engine.face()))
            }
        }
    }

    fn go_on<E: Engine>(&mut self, alloc: Global, engine: &E, stage: Stage, answer: Answer) -> Need
        requires fits { RootFits (E.meaning engine.now) (E.unpack engine.now) self.old.root × HeldFits (E.meaning engine.now) (E.unpack engine.now) self.old.held × StageFits (E.meaning engine.now) (E.unpack engine.now) stage }
        requires answer { AnswerFits (E.meaning engine.now) (E.unpack engine.now) answer }
        requires asked { IsAsked (E.meaning engine.now) (E.unpack engine.now) self.old.held (At.Asking stage) answer }
        ensures fits { CoreFits (E.meaning engine.now) (E.unpack engine.now) self.new }
        ensures root { self.new.root ≡ self.old.root }
        ensures asks { IsAskableNeed (E.meaning engine.now) (E.unpack engine.now) result }
        ensures memory { answer ≡ Answer.Memory → is_marked self.new.at ≡ true }
        ensures quits { quits_at self.new.at ≡ false }
        ensures unchanged { is_asking self.new.at ≡ true → self.new.held ≡ self.old.held }
        ensures goes { GoesOn (E.meaning engine.now) (E.unpack engine.now) self.old.root self.old.held stage answer self.new.held self.new.at result }
    {
        match feed_turn(
            alloc,
            engine.face(),
            &self.root,
            &mut self.held,
            stage,
            answer,
        ) {
            Ok(turn) => {
                let Turn { at, need } = turn;
                self.at = at;
                need
            }
            Err(AllocError) => {
                self.at = At::Marked;
                Need::Reply(memory_text(alloc, engine.face()))
            }
        }
    }

    /// Takes an answer to what the session needs: what it needs next.
    pub fn feed<E: Engine>(&mut self, alloc: Global, engine: &E, answer: Answer) -> Need
        requires fits { CoreFits (E.meaning engine.now) (E.unpack engine.now) self.old }
        requires answer { AnswerFits (E.meaning engine.now) (E.unpack engine.now) answer }
        requires asked { IsAsked (E.meaning engine.now) (E.unpack engine.now) self.old.held self.old.at answer }
        ensures fits { CoreFits (E.meaning engine.now) (E.unpack engine.now) self.new }
        ensures root { self.new.root ≡ self.old.root }
        ensures asks { IsAskableNeed (E.meaning engine.now) (E.unpack engine.now) result }
        ensures memory { answer ≡ Answer.Memory → is_marked self.new.at ≡ true }
        ensures quits { quits_at self.new.at ≡ false }
        ensures unchanged { is_asking self.new.at ≡ true → self.new.held ≡ self.old.held }
        ensures feeds { Feeds (E.meaning engine.now) (E.unpack engine.now) self.old.root self.old.held self.old.at answer self.new.held self.new.at result }
    {
        let at = mem::replace(&mut self.at, At::Idle);
        match at {
            At::Asking(stage) => self.go_on(alloc, engine, stage, answer),
            At::Idle => Need::Idle,
            At::Replying => Need::Idle,
            At::Quitting => Need::Idle,
            At::Marked => Need::Idle,
        }
    }
}
