//! What substitutions add to the parts of a body, in one walk through them.
ghost use Rattle.std.specs.Prelude.{◌≡◌, map, IfOk};
ghost use Rattle.b_expand.specs.Places as places;
ghost use Rattle.b_substitutions.specs.Summaries as spec;
ghost use Rattle.b_substitutions.specs.Standing.{IsReady, uses_in, subst_in, branch_in, case_in, step_in, formula_in, expressions_in, arguments_in};

use crate::parts::{name_depth, with_chain, with_node, with_use};
use crate::texts::{SubstText, use_of_name};
use b_ast::machine::{Branch, CaseBranch, Step, Subst};
use b_ast::{Bound, Formula, Place, Sort};
use b_summaries::making::{with_part, with_place};
use b_summaries::texts::{may_bind_all, names_depth};
use b_summaries::walk::{walk, walk_arguments};
use b_summaries::{Parts, Summary};
use sqlite_items::Items;
use std::alloc::{AllocError, Global};

// With a formula, which has to be of a sort.
fn add_formula(
    formula: &Formula,
    wanted: Sort,
    parts: Option<Parts>,
    alloc: Global,
    text: &SubstText<'_>,
) -> Result<Option<Parts>, AllocError>
    requires { IsReady text.now }
    ensures { IfOk result (λ o. o ≡ formula_in text.now wanted formula.now parts) }
{
    let summary = walk(formula, alloc, &text.formulas)?;
    with_part(wanted, summary, parts)
}

// With expressions.
fn add_expressions(
    formulas: &[Formula],
    parts: Option<Parts>,
    alloc: Global,
    text: &SubstText<'_>,
) -> Result<Option<Parts>, AllocError>
    requires { IsReady text.now }
    ensures { IfOk result (λ o. o ≡ expressions_in text.now formulas.now parts) }
{
    let mut found = parts;
    for formula in formulas {
        found = add_formula(formula, Sort::Expression, found, alloc, text)?;
    }
    Ok(found)
}

// The arguments in the brackets of a use.
fn arguments(
    formulas: &[Formula],
    alloc: Global,
    text: &SubstText<'_>,
) -> Result<Option<Items<Summary>>, AllocError>
    requires { IsReady text.now }
    ensures { IfOk result (λ o. o ≡ arguments_in text.now formulas.now) }
{
    match formulas {
        [] => Ok(Some(Items::new(alloc))),
        [formula, ..] => walk_arguments(formula, alloc, &text.formulas),
    }
}

// With a use of a definition.
fn add_use(
    at: Place,
    name: &[u8],
    formulas: &[Formula],
    parts: Option<Parts>,
    alloc: Global,
    text: &SubstText<'_>,
) -> Result<Option<Parts>, AllocError>
    requires { IsReady text.now }
    ensures { IfOk result (λ o. o ≡ spec.with_use (spec.used at.depth (spec.called text.now.formulas.params.now (uses_in text.now) name.now) (arguments_in text.now formulas.now)) parts) }
{
    let arguments = arguments(formulas, alloc, text)?;
    let used = use_of_name(name, at.depth, &arguments, alloc, text)?;
    with_use(used, parts)
}

// With the node of a form that writes to names, and with expressions.
fn add_written(
    at: Place,
    names: &[Bound],
    formulas: &[Formula],
    parts: Option<Parts>,
    alloc: Global,
    text: &SubstText<'_>,
) -> Result<Option<Parts>, AllocError>
    requires { IsReady text.now }
    ensures { IfOk result (λ o. o ≡ expressions_in text.now formulas.now (spec.with_node (places.names_depth at names.now) parts)) }
{
    add_expressions(
        formulas,
        with_node(names_depth(at, names), parts),
        alloc,
        text,
    )
}

/// With a substitution; None where no substitution that it stands for can be in order.
#[cycle(add)]
pub fn add(
    subst: &Subst,
    parts: Option<Parts>,
    alloc: Global,
    text: &SubstText<'_>,
) -> Result<Option<Parts>, AllocError>
    requires { IsReady text.now }
    ensures { IfOk result (λ o. o ≡ subst_in text.now subst.now parts) }
{
    match subst {
        Subst::Skip(at) => Ok(with_node(at.depth, parts)),
        Subst::Block(at, body) => add(body.get(), with_node(at.depth, parts), alloc, text),
        Subst::Assign(at, names, values) => add_written(
            *at,
            names.as_slice(),
            values.as_slice(),
            parts,
            alloc,
            text,
        ),
        Subst::Update(at, name, argument, value) => {
            let parts = with_node(name_depth(*at, name), parts);
            let parts = add_formula(argument, Sort::Expression, parts, alloc, text)?;
            add_formula(value, Sort::Expression, parts, alloc, text)
        }
        Subst::ChooseFrom(at, name, value) => {
            let parts = with_node(name_depth(*at, name), parts);
            add_formula(value, Sort::Expression, parts, alloc, text)
        }
        Subst::ChooseSuch(at, names, predicate) => {
            let parts = with_node(names_depth(*at, names.as_slice()), parts);
            add_formula(predicate, Sort::Predicate, parts, alloc, text)
        }
        Subst::Guarded(at, _, predicate, body) => {
            let parts = with_node(at.depth, parts);
            let parts = add_formula(predicate, Sort::Predicate, parts, alloc, text)?;
            add(body.get(), parts, alloc, text)
        }
        Subst::If(at, branches, otherwise) => {
            let parts = with_node(at.depth, parts);
            let parts = add_branches(branches.as_slice(), parts, alloc, text)?;
            match otherwise {
                Some(body) => add(body.get(), parts, alloc, text),
                None => Ok(parts),
            }
        }
        Subst::Select(at, branches, otherwise) => {
            let parts = with_node(at.depth, parts);
            let parts = add_branches(branches.as_slice(), parts, alloc, text)?;
            match otherwise {
                Some(body) => add(body.get(), parts, alloc, text),
                None => Ok(parts),
            }
        }
        Subst::Choice(at, bodies) => {
            let parts = with_node(at.depth, parts);
            add_all(bodies.as_slice(), parts, alloc, text)
        }
        Subst::Case(at, value, branches, otherwise) => {
            let parts = with_node(at.depth, parts);
            let parts = add_formula(value, Sort::Expression, parts, alloc, text)?;
            let parts = add_cases(branches.as_slice(), parts, alloc, text)?;
            match otherwise {
                Some(body) => add(body.get(), parts, alloc, text),
                None => Ok(parts),
            }
        }
        Subst::Any(at, names, predicate, body) => {
            let names = names.as_slice();
            if !may_bind_all(&text.formulas, names) {
                return Ok(None);
            }
            let parts = with_node(names_depth(*at, names), parts);
            let parts = add_formula(predicate, Sort::Predicate, parts, alloc, text)?;
            add(body.get(), parts, alloc, text)
        }
        Subst::Let(at, names, values, body) => {
            let names = names.as_slice();
            if !may_bind_all(&text.formulas, names) {
                return Ok(None);
            }
            let parts = add_written(*at, names, values.as_slice(), parts, alloc, text)?;
            add(body.get(), parts, alloc, text)
        }
        Subst::Chain(first, steps) => {
            let parts = add(first.get(), with_chain(parts), alloc, text)?;
            add_steps(steps.as_slice(), parts, alloc, text)
        }
        Subst::Use(at, name, formulas) => add_use(
            *at,
            name.as_slice(),
            formulas.as_slice(),
            parts,
            alloc,
            text,
        ),
    }
}

#[cycle(add)]
fn add_all(
    bodies: &[Subst],
    parts: Option<Parts>,
    alloc: Global,
    text: &SubstText<'_>,
) -> Result<Option<Parts>, AllocError>
    requires { IsReady text.now }
    ensures { IfOk result (λ o. o ≡ spec.with_all (map (subst_in text.now) bodies.now) parts) }
{
    let mut found = parts;
    for body in bodies {
        found = add(body, found, alloc, text)?;
    }
    Ok(found)
}

#[cycle(add)]
fn add_branches(
    branches: &[Branch],
    parts: Option<Parts>,
    alloc: Global,
    text: &SubstText<'_>,
) -> Result<Option<Parts>, AllocError>
    requires { IsReady text.now }
    ensures { IfOk result (λ o. o ≡ spec.with_all (map (branch_in text.now) branches.now) parts) }
{
    let mut found = parts;
    for branch in branches {
        found = add_branch(branch, found, alloc, text)?;
    }
    Ok(found)
}

#[cycle(add)]
fn add_branch(
    branch: &Branch,
    parts: Option<Parts>,
    alloc: Global,
    text: &SubstText<'_>,
) -> Result<Option<Parts>, AllocError>
    requires { IsReady text.now }
    ensures { IfOk result (λ o. o ≡ branch_in text.now branch.now parts) }
{
    let parts = add_formula(&branch.guard, Sort::Predicate, parts, alloc, text)?;
    add(&branch.body, parts, alloc, text)
}

#[cycle(add)]
fn add_cases(
    branches: &[CaseBranch],
    parts: Option<Parts>,
    alloc: Global,
    text: &SubstText<'_>,
) -> Result<Option<Parts>, AllocError>
    requires { IsReady text.now }
    ensures { IfOk result (λ o. o ≡ spec.with_all (map (case_in text.now) branches.now) parts) }
{
    let mut found = parts;
    for branch in branches {
        found = add_case(branch, found, alloc, text)?;
    }
    Ok(found)
}

#[cycle(add)]
fn add_case(
    branch: &CaseBranch,
    parts: Option<Parts>,
    alloc: Global,
    text: &SubstText<'_>,
) -> Result<Option<Parts>, AllocError>
    requires { IsReady text.now }
    ensures { IfOk result (λ o. o ≡ case_in text.now branch.now parts) }
{
    let parts = add_expressions(branch.labels.as_slice(), parts, alloc, text)?;
    add(&branch.body, parts, alloc, text)
}

#[cycle(add)]
fn add_steps(
    steps: &[Step],
    parts: Option<Parts>,
    alloc: Global,
    text: &SubstText<'_>,
) -> Result<Option<Parts>, AllocError>
    requires { IsReady text.now }
    ensures { IfOk result (λ o. o ≡ spec.with_all (map (step_in text.now) steps.now) parts) }
{
    let mut found = parts;
    for step in steps {
        found = add_step(step, found, alloc, text)?;
    }
    Ok(found)
}

#[cycle(add)]
fn add_step(
    step: &Step,
    parts: Option<Parts>,
    alloc: Global,
    text: &SubstText<'_>,
) -> Result<Option<Parts>, AllocError>
    requires { IsReady text.now }
    ensures { IfOk result (λ o. o ≡ step_in text.now step.now parts) }
{
    add(&step.body, with_place(step.at.depth, parts), alloc, text)
}
