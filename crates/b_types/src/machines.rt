//! The one typing of a machine.
ghost use Rattle.std.specs.Prelude.{◌≡◌, ◌+◌, [], IfOk, OnOk, length};
ghost use Rattle.type_demands.specs.Scopes.{all_differ, scope_of};
ghost use Rattle.type_choices.specs.Forms.{AreForms};
ghost use Rattle.type_formulas.specs.Typings.{Answers, all_known, forms_in};
ghost use Rattle.type_names.specs.Looking.{IsFramed};
ghost use Rattle.type_names.specs.Machines as names;
ghost use Rattle.type_substs.specs.Told.{told};
ghost use Rattle.b_types.specs.Machines as spec;

use crate::answers::{CheckFault, Typing, checked};
use crate::clauses::{
    behind_all, tell_initialisation, tell_operations, tell_perhaps, tell_predicates,
};
use crate::knowing::{know_names, known_sets};
use b_ast::machine::MachineText;
use b_values::{NameFace, Prefs};
use std::alloc::{AllocError, Global};
use type_demands::{Demand, Frame, take_all, tell_twice};
use type_formulas::{Answer, Known, judged};
use type_names::{Hiding, frame_of_sets, machine_names};

// Sets and their elements are known first.
#[tactic(auto, using(crate::proofs::Scopes::one_frame))]
fn open_sets(
    alloc: Global,
    declared: &Hiding,
    m: &MachineText,
    default: u64,
) -> Result<Vec<Frame>, AllocError>
    requires declared { declared.now.names ≡ names.machine_names m.now }
    requires framed { IsFramed declared.now }
    ensures { IfOk result (λ frames. scope_of frames.items ≡ names.sets_scope m.now default) }
{
    let mut frames = Vec::new(alloc);
    frames.push(frame_of_sets(alloc, declared, m, default)?)?;
    Ok(frames)
}

// The number of the first constant's part, behind one for each set and one for its elements.
fn first_constant(m: &MachineText) -> Result<usize, AllocError>
    ensures { IfOk result (λ n. n ≡ spec.first_constant m.now) }
{
    let mut after = m.sets.len();
    take_all(&mut after, m.sets.len())?;
    Ok(after)
}

// The number of the first operation's own part.
fn first_own(m: &MachineText, variable: usize) -> Result<usize, AllocError>
    requires { variable ≡ spec.first_variable m.now }
    ensures { IfOk result (λ n. n ≡ spec.first_own m.now) }
{
    let mut after = variable;
    take_all(&mut after, m.variables.len())?;
    Ok(after)
}

// The clauses that speak of states.
fn tell_states(
    m: &MachineText,
    alloc: Global,
    declared: &Hiding,
    frames: &mut Vec<Frame>,
    out: &mut Vec<Demand>,
    next: &mut usize,
    own: usize,
) -> Result<(), AllocError>
    requires declared { declared.now.names ≡ names.machine_names m.now }
    requires framed { IsFramed declared.now }
    requires own { own ≡ spec.first_own m.now }
    ensures demands { OnOk result (out.new.items ≡ (spec.with_states m.now (scope_of frames.old.items) (told out.old.items next.old)).demands) }
    ensures parts { OnOk result (next.new ≡ (spec.with_states m.now (scope_of frames.old.items) (told out.old.items next.old)).next) }
{
    tell_perhaps(&m.invariant, alloc, frames, out, next)?;
    tell_predicates(m.assertions.as_slice(), alloc, frames, out, next)?;
    tell_initialisation(&m.initialisation, alloc, frames, out, next)?;
    tell_operations(
        m.operations.as_slice(),
        alloc,
        declared,
        frames,
        out,
        next,
        own,
    )
}

// PROPERTIES, where sets, elements and constants are known. The number is that of the first variable's part.
fn tell_properties(
    m: &MachineText,
    alloc: Global,
    frames: &mut Vec<Frame>,
    out: &mut Vec<Demand>,
    next: &mut usize,
    default: u64,
) -> Result<usize, AllocError>
    requires scope { scope_of frames.old.items ≡ names.sets_scope m.now default }
    ensures variable { IfOk result (λ n. n ≡ spec.first_variable m.now) }
    ensures scope { OnOk result (scope_of frames.new.items ≡ spec.constants_scope m.now default) }
    ensures told { OnOk result (told out.new.items next.new ≡ spec.with_perhaps m.now.properties (spec.constants_scope m.now default) (told out.old.items (spec.first_part m.now))) }
{
    let constant = first_constant(m)?;
    let variable = know_names(alloc, frames, m.constants.as_slice(), constant)?;
    let own = first_own(m, variable)?;
    *next = behind_all(own, m.operations.as_slice())?;
    tell_perhaps(&m.properties, alloc, frames, out, next)?;
    Ok(variable)
}

// All that a machine demands; the number is that of its parts.
fn tell_machine(
    m: &MachineText,
    alloc: Global,
    declared: &Hiding,
    frames: &mut Vec<Frame>,
    out: &mut Vec<Demand>,
    default: u64,
) -> Result<usize, AllocError>
    requires declared { declared.now.names ≡ names.machine_names m.now }
    requires differ { declared.now.differ ≡ all_differ (names.machine_names m.now) }
    requires framed { IsFramed declared.now }
    requires scope { scope_of frames.old.items ≡ names.sets_scope m.now default }
    requires first { out.old.items ≡ [] }
    ensures demands { OnOk result (out.new.items ≡ (spec.machine_told m.now default).demands) }
    ensures parts { IfOk result (λ n. n ≡ (spec.machine_told m.now default).next) }
{
    tell_twice(out, declared.differ)?;
    let mut next = 0;
    let variable = tell_properties(m, alloc, frames, out, &mut next, default)?;
    let own = know_names(alloc, frames, m.variables.as_slice(), variable)?;
    tell_states(m, alloc, declared, frames, out, &mut next, own)?;
    Ok(next)
}

// Known sets alone.
fn only(sets: &[NameFace]) -> Known<'_>
    ensures { all_known result ≡ sets.now }
{
    Known {
        sets,
        constants: &[],
        variables: &[],
        params: &[],
    }
}

#[tactic(auto, using(crate::proofs::MachineParts::sets_inside, crate::proofs::MachineParts::machine_within))]
fn machine_answer(alloc: Global, m: &MachineText, default: u64) -> Result<Answer, AllocError>
    ensures { IfOk result (Answers 500 (spec.machine_known m.now) (spec.machine_told m.now default).demands (spec.machine_told m.now default).next (spec.machine_told m.now default).next) }
{
    let declared = machine_names(alloc, m)?;
    let mut frames = open_sets(alloc, &declared, m, default)?;
    let mut demands = Vec::new(alloc);
    let parts = tell_machine(m, alloc, &declared, &mut frames, &mut demands, default)?;
    let sets = known_sets(alloc, m.sets.len())?;
    let known = only(&sets);
    judged(alloc, &known, demands.as_slice(), parts, parts)
}

/// The one typing of a machine, or the first reason why it has none: a name that means nothing where it stands, two equal
/// names, no typing within 500 nodes a type, more than one. Want of memory is the only other answer. Of the preferences only
/// the default size of deferred sets counts: by it their elements have names.
pub fn type_machine(alloc: Global, m: &MachineText, prefs: &Prefs) -> Result<Typing, CheckFault>
    ensures { spec.IsTypedMachine m.now prefs.now.default_setsize result }
{
    checked(machine_answer(alloc, m, prefs.default_setsize))
}
