// What a command asks first, or how it ends without a question.
ghost use Rattle.std.specs.Prelude.{◌≡◌, [], ◌∷◌, map, Some, true, IfOk, IsOk};
ghost use Rattle.std.specs.List.{AllByRecursion, find, position};
ghost use Rattle.std.specs.Option.{option_copied};
ghost use Rattle.std.specs.Str.{bytes_eq};
ghost use Rattle.engine_face.specs.Meaning.{IsAccepted};
ghost use Rattle.engine_face.specs.Packing.{IsPacked};
ghost use Rattle.engine_face.specs.Typing.{IsOpOf};
ghost use Rattle.engine_face.specs.declared.keys.Scope.TheVariants as scope;
ghost use Rattle.animator.specs.Commands.{formula_error, operation_of, sub_text};
ghost use Rattle.trace_ops.specs.Traces.{back, forward, jump};
ghost use Rattle.session_core.specs.Moving.{numbered_in, numbered_before, opened, arriving, going, moving, using_kept, kept_under, keeping_under, unsubscribing, values_told, evaluating, subscribing_to, subscribing, searching_by, searching, doing, started_info, started_trace, started_state, started_subs, started, is_built, takes_no_memory};

use crate::held::{Held, KeptTrace, state_before, state_in};
use crate::lists::share_steps;
use crate::stages::{Arrival, Change, Next, Opening, Stage};
use b_values::{Face, OpId, Value};
use engine_face::{Engine, FormulaKey, KeyFault, LoadKind, Scope};
use formulas::{MOST_SUBS, Sub};
use session_words::{Command, Numbered, Refusal, Reply, SubText, SubValue};
use sqlite_items::Items;
use std::alloc::{AllocError, Global};

/// How many traces may be kept.
pub const MOST_KEPT: usize = 64;

fn reply_of(opening: Opening, subs: Items<SubValue>) -> Reply<Numbered>
    ensures { result ≡ opened opening subs }
{
    match opening {
        Opening::Added(step) => Reply::Added { step, subs },
        Opening::Moved(state) => Reply::Moved { state, subs },
    }
}

/// The end of an arrival whose subscriptions have these values.
pub fn end_arrival(arrival: Arrival, told: Items<SubValue>) -> Next
    ensures { result ≡ Next.Ends arrival.change (opened arrival.opening told) }
{
    let Arrival {
        at: _,
        change,
        opening,
    } = arrival;
    Next::Ends(change, reply_of(opening, told))
}

/// At a new current state the subscriptions are asked, where there are any.
pub fn arrive(alloc: Global, subs: &[Sub], arrival: Arrival) -> Next
    ensures { result ≡ arriving subs.now arrival }
{
    match subs {
        [] => end_arrival(arrival, Items::new(alloc)),
        [_, ..] => Next::Goes(Stage::Telling(arrival, Items::new(alloc))),
    }
}

fn go_to(alloc: Global, subs: &[Sub], n: u64, at: &Numbered) -> Result<Next, AllocError>
    ensures next { IfOk result (λ next. next ≡ going subs.now n at.now) }
    ensures spared { subs.now ≡ [] → IsOk result }
{
    match subs {
        [] => Ok(Next::Moves(n, at.number)),
        [_, ..] => Ok(Next::Goes(Stage::Telling(
            Arrival {
                at: at.share()?,
                change: Change::Go(n),
                opening: Opening::Moved(at.share()?),
            },
            Items::new(alloc),
        ))),
    }
}

fn move_to(alloc: Global, root: &Numbered, held: &Held, n: u64) -> Result<Next, AllocError>
    ensures next { IfOk result (λ next. next ≡ going held.now.subs.list n (numbered_before root.now held.now.trace.steps n)) }
    ensures spared { held.now.subs.list ≡ [] → IsOk result }
{
    let at = state_before(root, held.trace.steps(), n);
    go_to(alloc, held.subs.list(), n, at)
}

fn start_back(alloc: Global, root: &Numbered, held: &Held) -> Result<Next, AllocError>
    ensures next { IfOk result (λ next. next ≡ moving root.now held.now (back held.now.trace)) }
    ensures spared { held.now.subs.list ≡ [] → IsOk result }
{
    match held.trace.position().checked_sub(1) {
        Some(n) => move_to(alloc, root, held, n),
        None => Ok(Next::Refuses(Refusal::AtStart)),
    }
}

fn start_forward(alloc: Global, root: &Numbered, held: &Held) -> Result<Next, AllocError>
    ensures next { IfOk result (λ next. next ≡ moving root.now held.now (forward held.now.trace)) }
    ensures spared { held.now.subs.list ≡ [] → IsOk result }
{
    let position = held.trace.position();
    if position == held.trace.steps().len() as u64 {
        return Ok(Next::Refuses(Refusal::AtEnd));
    }
    move_to(alloc, root, held, position + 1)
}

fn start_jump(alloc: Global, root: &Numbered, held: &Held, n: u64) -> Result<Next, AllocError>
    ensures next { IfOk result (λ next. next ≡ moving root.now held.now (jump n held.now.trace)) }
    ensures spared { held.now.subs.list ≡ [] → IsOk result }
{
    if n > held.trace.steps().len() as u64 {
        return Ok(Next::Refuses(Refusal::NoPosition));
    }
    move_to(alloc, root, held, n)
}

fn start_info(root: &Numbered, held: &Held) -> Result<Next, AllocError>
    ensures { IfOk result (λ next. next ≡ started_info root.now held.now) }
{
    let state = state_in(root, &held.trace).share()?;
    Ok(Next::Ends(
        Change::Stay,
        Reply::Info {
            state,
            position: held.trace.position(),
            length: held.trace.steps().len() as u64,
        },
    ))
}

fn start_trace(alloc: Global, held: &Held) -> Result<Next, AllocError>
    ensures { IfOk result (λ next. next ≡ started_trace held.now) }
{
    let steps = share_steps(alloc, held.trace.steps())?;
    Ok(Next::Ends(
        Change::Stay,
        Reply::Trace {
            position: held.trace.position(),
            steps,
        },
    ))
}

fn tell_values<E: Engine>(
    alloc: Global,
    engine: &E,
    root: &Numbered,
    at: &Numbered,
) -> Result<Option<Items<Value>>, AllocError>
    requires { IsPacked (E.unpack engine.now) at.now.state }
    ensures { IfOk result (λ values. values ≡ values_told (E.unpack engine.now) root.now at.now) }
{
    if root.state == at.state {
        return Ok(None);
    }
    let values = engine.values_of(alloc, &at.state)?;
    Ok(Some(values))
}

fn start_state<E: Engine>(
    alloc: Global,
    engine: &E,
    root: &Numbered,
    held: &Held,
) -> Result<Next, AllocError>
    requires { IsPacked (E.unpack engine.now) (numbered_in root.now held.now.trace).state }
    ensures { IfOk result (λ next. next ≡ started_state (E.unpack engine.now) root.now held.now) }
{
    let at = state_in(root, &held.trace);
    let values = tell_values(alloc, engine, root, at)?;
    let state = at.share()?;
    Ok(Next::Ends(Change::Stay, Reply::State { state, values }))
}

/// The error of a formula that is refused.
fn error_of(kind: LoadKind) -> Refusal
    ensures { result ≡ formula_error kind }
{
    match kind {
        LoadKind::UnknownName => Refusal::UnknownName,
        LoadKind::DuplicateName => Refusal::WrongType,
        LoadKind::TypeClash => Refusal::WrongType,
        LoadKind::AmbiguousType => Refusal::WrongType,
        LoadKind::WrittenTwice => Refusal::WrongType,
        LoadKind::NotWritable => Refusal::WrongType,
        LoadKind::NotEnumerable => Refusal::WrongType,
        LoadKind::NotSet => Refusal::WrongType,
        _ => Refusal::Syntax,
    }
}

fn start_eval<E: Engine>(alloc: Global, engine: &E, text: &[u8]) -> Result<Next, AllocError>
    ensures { IfOk result (λ next. next ≡ evaluating ((E.meaning engine.now).read_formula scope.State text.now)) }
{
    match engine.read_formula(alloc, Scope::State, text) {
        Ok(key) => Ok(Next::Goes(Stage::Evaluating(key))),
        Err(KeyFault::Refused(kind)) => Ok(Next::Refuses(error_of(kind))),
        Err(KeyFault::Memory) => Err(AllocError),
    }
}

fn subscribe_to(held: &Held, key: FormulaKey) -> Next
    ensures { result ≡ subscribing_to held.now key }
{
    if held.subs.list().len() >= MOST_SUBS {
        return Next::Refuses(Refusal::SubsFull);
    }
    Next::Goes(Stage::Subscribing(key))
}

fn start_sub<E: Engine>(
    alloc: Global,
    engine: &E,
    held: &Held,
    text: &[u8],
) -> Result<Next, AllocError>
    ensures { IfOk result (λ next. next ≡ subscribing held.now ((E.meaning engine.now).read_formula scope.State text.now)) }
{
    match engine.read_formula(alloc, Scope::State, text) {
        Ok(key) => Ok(subscribe_to(held, key)),
        Err(KeyFault::Refused(kind)) => Ok(Next::Refuses(error_of(kind))),
        Err(KeyFault::Memory) => Err(AllocError),
    }
}

fn search_by(alloc: Global, op: OpId, key: FormulaKey) -> Result<Next, AllocError>
    ensures { IfOk result (λ next. next ≡ searching_by op key) }
{
    if !key.predicate {
        return Ok(Next::Refuses(Refusal::Syntax));
    }
    let mut preds = Items::new(alloc);
    preds.push(key)?;
    Ok(Next::Goes(Stage::Finding(op, preds)))
}

fn search_where<E: Engine>(
    alloc: Global,
    engine: &E,
    op: OpId,
    text: &[u8],
) -> Result<Next, AllocError>
    requires { IsOpOf (E.meaning engine.now).face op }
    ensures { IfOk result (λ next. next ≡ searching op ((E.meaning engine.now).read_formula (scope.Op op) text.now)) }
{
    match engine.read_formula(alloc, Scope::Op(op), text) {
        Ok(key) => search_by(alloc, op, key),
        Err(KeyFault::Refused(kind)) => Ok(Next::Refuses(error_of(kind))),
        Err(KeyFault::Memory) => Err(AllocError),
    }
}

// The place of the operation of this name.
fn find_op(face: &Face, name: &[u8]) -> Option<usize>
    ensures { result ≡ position (λ f. bytes_eq name.now f.name) face.now.ops }
{
    face.ops
        .as_slice()
        .iter()
        .position(|op| name == op.name.as_slice())
}

fn operation(face: &Face, name: &[u8]) -> Result<Option<OpId>, AllocError>
    ensures { IfOk result (λ op. op ≡ operation_of face.now name.now) }
{
    if name == b"$setup_constants".as_slice() {
        return Ok(Some(OpId::Setup));
    }
    if name == b"$initialise_machine".as_slice() {
        return Ok(Some(OpId::Init));
    }
    match find_op(face, name) {
        Some(at) => match u32::try_from(at) {
            Ok(n) => Ok(Some(OpId::Op(n))),
            Err(_) => Err(AllocError),
        },
        None => Ok(None),
    }
}

fn start_do<E: Engine>(
    alloc: Global,
    engine: &E,
    name: &[u8],
    pred: Option<Items<u8>>,
) -> Result<Next, AllocError>
    ensures { IfOk result (λ next. next ≡ doing (E.meaning engine.now) pred (operation_of (E.meaning engine.now).face name.now)) }
{
    match operation(engine.face(), name)? {
        Some(op) => match pred {
            Some(text) => search_where(alloc, engine, op, text.as_slice()),
            None => Ok(Next::Goes(Stage::Finding(op, Items::new(alloc)))),
        },
        None => Ok(Next::Refuses(Refusal::UnknownName)),
    }
}

fn start_unsub(held: &Held, n: u64) -> Next
    ensures { result ≡ unsubscribing n held.now }
{
    if held.subs.has(n) {
        Next::Ends(Change::Unsubscribe(n), Reply::Done)
    } else {
        Next::Refuses(Refusal::NoSub)
    }
}

fn text_of_sub<E: Engine>(alloc: Global, engine: &E, sub: &Sub) -> Result<SubText, AllocError>
    requires { IsAccepted (E.meaning engine.now) scope.State sub.now.key }
    ensures { IfOk result (λ text. text ≡ sub_text (E.meaning engine.now) sub.now) }
{
    let text = engine.canonical(alloc, &sub.key)?;
    Ok(SubText {
        number: sub.number,
        text: Items::from_vec(text),
    })
}

fn texts_of_subs<E: Engine>(
    alloc: Global,
    engine: &E,
    subs: &[Sub],
) -> Result<Items<SubText>, AllocError>
    requires { AllByRecursion (λ sub. IsAccepted (E.meaning engine.now) scope.State sub.key) subs.now }
    ensures { IfOk result (λ texts. texts ≡ map (sub_text (E.meaning engine.now)) subs.now) }
{
    let mut texts = Items::new(alloc);
    for sub in subs {
        texts.push(text_of_sub(alloc, engine, sub)?)?;
    }
    Ok(texts)
}

fn start_subs<E: Engine>(alloc: Global, engine: &E, held: &Held) -> Result<Next, AllocError>
    requires { AllByRecursion (λ sub. IsAccepted (E.meaning engine.now) scope.State sub.key) held.now.subs.list }
    ensures { IfOk result (λ next. next ≡ started_subs (E.meaning engine.now) held.now) }
{
    let texts = texts_of_subs(alloc, engine, held.subs.list())?;
    Ok(Next::Ends(Change::Stay, Reply::Subscriptions(texts)))
}

/// The trace that is kept under a name.
pub fn find_kept<'a>(kept: &'a [KeptTrace], name: &[u8]) -> Option<&'a KeptTrace>
    ensures { option_copied result ≡ find (λ one. bytes_eq name.now one.name) kept.now }
{
    for one in kept {
        if name == one.name.as_slice() {
            return Some(one);
        }
    }
    None
}

fn start_keep(alloc: Global, held: &Held, name: Items<u8>) -> Result<Next, AllocError>
    ensures { IfOk result (λ next. next ≡ keeping_under name held.now) }
{
    let kept = held.kept.as_slice();
    if find_kept(kept, name.as_slice()).is_none() && kept.len() >= MOST_KEPT {
        return Ok(Next::Refuses(Refusal::KeptFull));
    }
    let trace = held.trace.copy(alloc)?;
    Ok(Next::Ends(Change::Keep(KeptTrace { name, trace }), Reply::Done))
}

fn use_trace(
    alloc: Global,
    root: &Numbered,
    held: &Held,
    kept: &KeptTrace,
) -> Result<Next, AllocError>
    ensures { IfOk result (λ next. next ≡ using_kept root.now held.now (Some kept.now)) }
{
    let at = state_in(root, &kept.trace);
    let arrival = Arrival {
        at: at.share()?,
        change: Change::Put(kept.trace.copy(alloc)?),
        opening: Opening::Moved(at.share()?),
    };
    Ok(arrive(alloc, held.subs.list(), arrival))
}

fn start_use(alloc: Global, root: &Numbered, held: &Held, name: &[u8]) -> Result<Next, AllocError>
    ensures { IfOk result (λ next. next ≡ using_kept root.now held.now (kept_under name.now held.now)) }
{
    match find_kept(held.kept.as_slice(), name) {
        Some(kept) => {
            let next = use_trace(alloc, root, held, kept)?;
            Ok(next)
        }
        None => Ok(Next::Refuses(Refusal::NoKept)),
    }
}

/// Whether the session answers this command.
pub fn builds(command: &Command) -> bool
    ensures { result ≡ is_built command.now }
{
    match command {
        Command::Show(_) => false,
        Command::Save(_) => false,
        Command::Replay(_) => false,
        Command::Migrate { from: _, to: _ } => false,
        Command::Random { steps: _, seed: _ } => false,
        _ => true,
    }
}

/// What a command asks first, or how it ends.
pub fn start_command<E: Engine>(
    alloc: Global,
    engine: &E,
    root: &Numbered,
    held: &Held,
    command: Command,
) -> Result<Next, AllocError>
    requires at { IsPacked (E.unpack engine.now) (numbered_in root.now held.now.trace).state }
    requires subs { AllByRecursion (λ sub. IsAccepted (E.meaning engine.now) scope.State sub.key) held.now.subs.list }
    requires built { is_built command ≡ true }
    ensures next { IfOk result (λ next. next ≡ started (E.meaning engine.now) (E.unpack engine.now) root.now held.now command) }
    ensures spared { takes_no_memory held.now command ≡ true → IsOk result }
{
    match command {
        Command::Blank => Ok(Next::Silent),
        Command::Info => start_info(root, held),
        Command::Ops => Ok(Next::Goes(Stage::Listing)),
        Command::Step(k) => Ok(Next::Goes(Stage::Taking(k))),
        Command::Do { op, pred } => start_do(alloc, engine, op.as_slice(), pred),
        Command::Back => start_back(alloc, root, held),
        Command::Forward => start_forward(alloc, root, held),
        Command::Jump(n) => start_jump(alloc, root, held, n),
        Command::Trace => start_trace(alloc, held),
        Command::State => start_state(alloc, engine, root, held),
        Command::Eval(text) => start_eval(alloc, engine, text.as_slice()),
        Command::Sub(text) => start_sub(alloc, engine, held, text.as_slice()),
        Command::Unsub(n) => Ok(start_unsub(held, n)),
        Command::Subs => start_subs(alloc, engine, held),
        Command::Inv => Ok(Next::Goes(Stage::Checking)),
        Command::Keep(name) => start_keep(alloc, held, name),
        Command::Use(name) => start_use(alloc, root, held, name.as_slice()),
        Command::Visb => Ok(Next::Ends(Change::Stay, Reply::VisbItems(Items::new(alloc)))),
        Command::Click(_) => Ok(Next::Refuses(Refusal::NoEvent)),
        Command::Quit => Ok(Next::Quits),
        _ => Err(AllocError),
    }
}
