//! The one typing of a formula beside a machine's face.
ghost use Rattle.std.specs.Prelude.{◌≡◌, ◌+◌, ◌++◌, [], IfOk, OnOk, length, slice_get};
ghost use Rattle.type_demands.specs.Scopes as scopes;
ghost use Rattle.type_formulas.specs.Typings.{Answers, all_known};
ghost use Rattle.type_names.specs.Faces.{scope_beside};
ghost use Rattle.type_substs.specs.Told.{told};
ghost use Rattle.b_types.specs.Formulas as spec;
ghost use Rattle.b_types.specs.Known as known;

use crate::answers::{CheckFault, Typing, checked};
use crate::knowing::known_sets;
use b_ast::FormulaText;
use b_values::{Face, NameFace, OpFace, OpId};
use std::alloc::{AllocError, Global};
use type_demands::{Demand, Frame, walk, walk_predicate};
use type_formulas::{Answer, Known, judged, known_count};
use type_names::frame_beside;

/// Which names a formula knows beside a machine.
#[derive(Clone, Copy, Debug, PartialEq, Eq)]
pub enum Scope {
    /// Sets, elements, constants and variables.
    State,
    /// The constants alone for `Setup`, what a state has for `Init`, and an operation's parameters besides. An operation
    /// that the machine hasn't has no parameters.
    Op(OpId),
}

fn variables_known(face: &Face, scope: Scope) -> &[NameFace]
    ensures { result.now ≡ spec.variables_known face.now scope }
{
    match scope {
        Scope::Op(OpId::Setup) => &[],
        _ => face.variables.as_slice(),
    }
}

fn params_at(ops: &[OpFace], n: usize) -> &[NameFace]
    ensures { result.now ≡ spec.params_of (slice_get ops.now n) }
{
    match ops.get(n) {
        None => &[],
        Some(op) => op.params.as_slice(),
    }
}

fn params_known(face: &Face, scope: Scope) -> &[NameFace]
    ensures { result.now ≡ spec.params_known face.now scope }
{
    match scope {
        Scope::Op(OpId::Op(n)) => params_at(face.ops.as_slice(), n as usize),
        _ => &[],
    }
}

// All that is known, where these are the sets' types.
fn all<'a>(face: &'a Face, scope: Scope, sets: &'a [NameFace]) -> Known<'a>
    requires { sets.now ≡ known.known_sets (length face.now.sets) }
    ensures { all_known result ≡ spec.formula_known face.now scope }
{
    Known {
        sets,
        constants: face.constants.as_slice(),
        variables: variables_known(face, scope),
        params: params_known(face, scope),
    }
}

#[tactic(auto, using(crate::proofs::Scopes::one_frame))]
fn open_face(alloc: Global, face: &Face, scope: Scope) -> Result<Vec<Frame>, AllocError>
    ensures { IfOk result (λ frames. scopes.scope_of frames.items ≡ spec.scope_of face.now scope) }
{
    let variables = variables_known(face, scope);
    let params = params_known(face, scope);
    let mut frames = Vec::new(alloc);
    frames.push(frame_beside(alloc, face, face.constants.as_slice(), variables, params)?)?;
    Ok(frames)
}

fn tell_text(
    text: &FormulaText,
    alloc: Global,
    frames: &mut Vec<Frame>,
    out: &mut Vec<Demand>,
    next: &mut usize,
) -> Result<(), AllocError>
    ensures demands { OnOk result (out.new.items ≡ (spec.with_text text.now (scopes.scope_of frames.old.items) (told out.old.items next.old)).demands) }
    ensures parts { OnOk result (next.new ≡ (spec.with_text text.now (scopes.scope_of frames.old.items) (told out.old.items next.old)).next) }
{
    match text {
        FormulaText::Expr(e) => {
            walk(&e.formula, alloc, frames, out, next)?;
        }
        FormulaText::Pred(p) => {
            walk_predicate(&p.formula, alloc, frames, out, next)?;
        }
    }
    Ok(())
}

#[tactic(auto, using(crate::proofs::FormulaParts::known_inside, crate::proofs::FormulaParts::formula_within))]
fn formula_answer(
    alloc: Global,
    face: &Face,
    scope: Scope,
    text: &FormulaText,
) -> Result<Answer, AllocError>
    ensures { IfOk result (Answers 500 (spec.formula_known face.now scope) (spec.formula_told face.now scope text.now).demands (spec.formula_told face.now scope text.now).next (spec.formula_told face.now scope text.now).next) }
{
    let sets = known_sets(alloc, face.sets.len())?;
    let known = all(face, scope, &sets);
    let mut frames = open_face(alloc, face, scope)?;
    let mut demands = Vec::new(alloc);
    let mut next = known_count(&known)?;
    tell_text(text, alloc, &mut frames, &mut demands, &mut next)?;
    judged(alloc, &known, demands.as_slice(), next, next)
}

/// The one typing of a formula beside a machine's face, or the first reason why it has none, in the order of
/// `type_machine`.
pub fn type_formula(
    alloc: Global,
    face: &Face,
    scope: Scope,
    text: &FormulaText,
) -> Result<Typing, CheckFault>
    ensures { spec.IsTypedFormula face.now scope text.now result }
{
    checked(formula_answer(alloc, face, scope, text))
}
