//! Which substitutions of a text can be right, in one walk through them.
ghost use Rattle.std.specs.Prelude.{◌≡◌, ◌&&◌, map, IfOk};
ghost use Rattle.b_ast.specs.declared.Sort.TheVariants as sorts;
ghost use Rattle.b_summaries.specs.Summaries.{may_bind_all as binds_all};
ghost use Rattle.b_use_forms.specs.Forms as spec;
ghost use Rattle.b_use_forms.specs.Forms.{all_right};
ghost use Rattle.b_use_forms.specs.Standing.{IsReady, fits_in, expressions_in, arguments_in, subst_in, branch_in, case_in, step_in};

use crate::forms::{Form, is_right};
use crate::texts::{Text, meant};
use crate::uses::subst_use_at;
use crate::walk::{walk_arguments, walk_as};
use b_ast::machine::{Branch, CaseBranch, Step, Subst};
use b_ast::{Bound, Formula, Sort};
use b_summaries::texts::may_bind_all;
use sqlite_items::Items;
use std::alloc::{AllocError, Global};

/// Whether a formula can be of a sort.
pub fn fits(
    formula: &Formula,
    wanted: Sort,
    alloc: Global,
    text: &Text<'_>,
) -> Result<bool, AllocError>
    requires { IsReady text.now }
    ensures { IfOk result (λ b. b ≡ fits_in text.now wanted formula.now) }
{
    walk_as(formula, wanted, alloc, text)
}

fn are_expressions(formulas: &[Formula], alloc: Global, text: &Text<'_>) -> Result<bool, AllocError>
    requires { IsReady text.now }
    ensures { IfOk result (λ b. b ≡ expressions_in text.now formulas.now) }
{
    for formula in formulas {
        let right = fits(formula, Sort::Expression, alloc, text)?;
        if !right {
            return Ok(false);
        }
    }
    Ok(true)
}

fn are_two(
    formula: &Formula,
    other: &Formula,
    alloc: Global,
    text: &Text<'_>,
) -> Result<bool, AllocError>
    requires { IsReady text.now }
    ensures { IfOk result (λ b. b ≡ (fits_in text.now sorts.Expression formula.now && fits_in text.now sorts.Expression other.now)) }
{
    let right = fits(formula, Sort::Expression, alloc, text)?;
    if !right {
        return Ok(false);
    }
    fits(other, Sort::Expression, alloc, text)
}

// The arguments in the brackets of a use.
fn arguments(
    formulas: &[Formula],
    alloc: Global,
    text: &Text<'_>,
) -> Result<Items<Form>, AllocError>
    requires { IsReady text.now }
    ensures { IfOk result (λ fs. fs ≡ arguments_in text.now formulas.now) }
{
    match formulas {
        [] => Ok(Items::new(alloc)),
        [formula, ..] => walk_arguments(formula, alloc, text),
    }
}

fn use_fits(text: &Text<'_>, place: Option<usize>, arguments: &[Form]) -> bool
    requires { IsReady text.now }
    ensures { result ≡ spec.subst_use text.now.formulas.table.now text.now.front text.now.formulas.params.now place arguments.now }
{
    match place {
        Some(place) => is_right(subst_use_at(text, place, arguments)),
        None => false,
    }
}

// A use of a definition.
fn fits_use(
    name: &[u8],
    formulas: &[Formula],
    alloc: Global,
    text: &Text<'_>,
) -> Result<bool, AllocError>
    requires { IsReady text.now }
    ensures { IfOk result (λ b. b ≡ spec.subst_use text.now.formulas.table.now text.now.front text.now.formulas.params.now (spec.meant text.now.formulas.table.now text.now.front text.now.formulas.params.now name.now) (arguments_in text.now formulas.now)) }
{
    let arguments = arguments(formulas, alloc, text)?;
    Ok(use_fits(text, meant(text, name), arguments.as_slice()))
}

// Whether names may be bound, and a predicate can be right.
fn fits_under(
    names: &[Bound],
    predicate: &Formula,
    alloc: Global,
    text: &Text<'_>,
) -> Result<bool, AllocError>
    requires { IsReady text.now }
    ensures { IfOk result (λ b. b ≡ (binds_all text.now.formulas.table.now text.now.formulas.params.now names.now && fits_in text.now sorts.Predicate predicate.now)) }
{
    if may_bind_all(&text.formulas, names) {
        fits(predicate, Sort::Predicate, alloc, text)
    } else {
        Ok(false)
    }
}

// Whether names may be bound, and values of theirs can be right.
fn fits_for(
    names: &[Bound],
    values: &[Formula],
    alloc: Global,
    text: &Text<'_>,
) -> Result<bool, AllocError>
    requires { IsReady text.now }
    ensures { IfOk result (λ b. b ≡ (binds_all text.now.formulas.table.now text.now.formulas.params.now names.now && expressions_in text.now values.now)) }
{
    if may_bind_all(&text.formulas, names) {
        are_expressions(values, alloc, text)
    } else {
        Ok(false)
    }
}

/// Whether a substitution can be right.
#[cycle(fits_subst)]
pub fn fits_subst(subst: &Subst, alloc: Global, text: &Text<'_>) -> Result<bool, AllocError>
    requires { IsReady text.now }
    ensures { IfOk result (λ b. b ≡ subst_in text.now subst.now) }
{
    match subst {
        Subst::Skip(_) => Ok(true),
        Subst::Block(_, body) => fits_subst(body.get(), alloc, text),
        Subst::Assign(_, _, values) => are_expressions(values.as_slice(), alloc, text),
        Subst::Update(_, _, argument, value) => are_two(argument, value, alloc, text),
        Subst::ChooseFrom(_, _, value) => fits(value, Sort::Expression, alloc, text),
        Subst::ChooseSuch(_, _, predicate) => fits(predicate, Sort::Predicate, alloc, text),
        Subst::Guarded(_, _, predicate, body) => {
            let right = fits(predicate, Sort::Predicate, alloc, text)?;
            if !right {
                return Ok(false);
            }
            fits_subst(body.get(), alloc, text)
        }
        Subst::If(_, branches, otherwise) => {
            let right = fit_branches(branches.as_slice(), alloc, text)?;
            if !right {
                return Ok(false);
            }
            match otherwise {
                Some(body) => fits_subst(body.get(), alloc, text),
                None => Ok(true),
            }
        }
        Subst::Select(_, branches, otherwise) => {
            let right = fit_branches(branches.as_slice(), alloc, text)?;
            if !right {
                return Ok(false);
            }
            match otherwise {
                Some(body) => fits_subst(body.get(), alloc, text),
                None => Ok(true),
            }
        }
        Subst::Choice(_, bodies) => fit_all(bodies.as_slice(), alloc, text),
        Subst::Case(_, value, branches, otherwise) => {
            let right = fits(value, Sort::Expression, alloc, text)?;
            if !right {
                return Ok(false);
            }
            let right = fit_cases(branches.as_slice(), alloc, text)?;
            if !right {
                return Ok(false);
            }
            match otherwise {
                Some(body) => fits_subst(body.get(), alloc, text),
                None => Ok(true),
            }
        }
        Subst::Any(_, names, predicate, body) => {
            let right = fits_under(names.as_slice(), predicate, alloc, text)?;
            if !right {
                return Ok(false);
            }
            fits_subst(body.get(), alloc, text)
        }
        Subst::Let(_, names, values, body) => {
            let right = fits_for(names.as_slice(), values.as_slice(), alloc, text)?;
            if !right {
                return Ok(false);
            }
            fits_subst(body.get(), alloc, text)
        }
        Subst::Chain(first, steps) => {
            let right = fits_subst(first.get(), alloc, text)?;
            if !right {
                return Ok(false);
            }
            fit_steps(steps.as_slice(), alloc, text)
        }
        Subst::Use(_, name, formulas) => {
            fits_use(name.as_slice(), formulas.as_slice(), alloc, text)
        }
    }
}

#[cycle(fits_subst)]
fn fit_all(bodies: &[Subst], alloc: Global, text: &Text<'_>) -> Result<bool, AllocError>
    requires { IsReady text.now }
    ensures { IfOk result (λ b. b ≡ all_right (map (subst_in text.now) bodies.now)) }
{
    for body in bodies {
        let right = fits_subst(body, alloc, text)?;
        if !right {
            return Ok(false);
        }
    }
    Ok(true)
}

#[cycle(fits_subst)]
fn fit_branches(branches: &[Branch], alloc: Global, text: &Text<'_>) -> Result<bool, AllocError>
    requires { IsReady text.now }
    ensures { IfOk result (λ b. b ≡ all_right (map (branch_in text.now) branches.now)) }
{
    for branch in branches {
        let right = fits_branch(branch, alloc, text)?;
        if !right {
            return Ok(false);
        }
    }
    Ok(true)
}

#[cycle(fits_subst)]
fn fits_branch(branch: &Branch, alloc: Global, text: &Text<'_>) -> Result<bool, AllocError>
    requires { IsReady text.now }
    ensures { IfOk result (λ b. b ≡ branch_in text.now branch.now) }
{
    let right = fits(&branch.guard, Sort::Predicate, alloc, text)?;
    if !right {
        return Ok(false);
    }
    fits_subst(&branch.body, alloc, text)
}

#[cycle(fits_subst)]
fn fit_cases(branches: &[CaseBranch], alloc: Global, text: &Text<'_>) -> Result<bool, AllocError>
    requires { IsReady text.now }
    ensures { IfOk result (λ b. b ≡ all_right (map (case_in text.now) branches.now)) }
{
    for branch in branches {
        let right = fits_case(branch, alloc, text)?;
        if !right {
            return Ok(false);
        }
    }
    Ok(true)
}

#[cycle(fits_subst)]
fn fits_case(branch: &CaseBranch, alloc: Global, text: &Text<'_>) -> Result<bool, AllocError>
    requires { IsReady text.now }
    ensures { IfOk result (λ b. b ≡ case_in text.now branch.now) }
{
    let right = are_expressions(branch.labels.as_slice(), alloc, text)?;
    if !right {
        return Ok(false);
    }
    fits_subst(&branch.body, alloc, text)
}

#[cycle(fits_subst)]
fn fit_steps(steps: &[Step], alloc: Global, text: &Text<'_>) -> Result<bool, AllocError>
    requires { IsReady text.now }
    ensures { IfOk result (λ b. b ≡ all_right (map (step_in text.now) steps.now)) }
{
    for step in steps {
        let right = fits_step(step, alloc, text)?;
        if !right {
            return Ok(false);
        }
    }
    Ok(true)
}

#[cycle(fits_subst)]
fn fits_step(step: &Step, alloc: Global, text: &Text<'_>) -> Result<bool, AllocError>
    requires { IsReady text.now }
    ensures { IfOk result (λ b. b ≡ step_in text.now step.now) }
{
    fits_subst(&step.body, alloc, text)
}
