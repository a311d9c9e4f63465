//! The substitutions that texts become when their definitions are put in. Each part is copied once, where it ends up.
ghost use Rattle.std.specs.Prelude.{◌≡◌, Some, None, IfOk, option_and_then};
ghost use Rattle.b_ast.specs.declared.machine.Subst.TheVariants as form;
ghost use Rattle.b_expand.specs.Places as places;
ghost use Rattle.b_expand.specs.Standing.{IsReady, means_in, parts_in, filling_in, scope_of};
ghost use Rattle.b_substitutions.specs.Expansion as expansion;
ghost use Rattle.b_substitutions.specs.Filling as filling;
ghost use Rattle.b_substitutions.specs.Filled as spec;
ghost use Rattle.b_substitutions.specs.Filled.{IsLevel};

use b_ast::machine::{Branch, CaseBranch, DefBody, Guard, Step, Subst};
use b_ast::{Bound, Formula, Place};
use b_expand::expander::{caller_of, fill};
use b_expand::names::{arguments_of, definition_of, place_of};
use b_expand::{Arguments, Callers, Frame, Standing, brackets, deeper_place, parts};
use sqlite_items::{Boxed, Items};
use std::alloc::{AllocError, Global};

// What stands for what is no substitution.
fn nothing() -> Subst
    ensures { result ≡ filling.nothing }
{
    Subst::Skip(Place {
        machine: false,
        at: 0,
        depth: 0,
    })
}

// A place of a text under all brackets.
fn placed(text: &Standing<'_>, at: Place) -> Place
    ensures { result ≡ places.deeper_place text.now.here.round at }
{
    deeper_place(text.here.round, at)
}

// A name that is written to or bound, under all brackets.
fn target(name: &Bound, alloc: Global, text: &Standing<'_>) -> Result<Bound, AllocError>
    ensures { IfOk result (λ x. x ≡ places.deeper_bound text.now.here.round name.now) }
{
    Ok(Bound {
        name: Items::from_slice(alloc, name.name.as_slice())?,
        at: deeper_place(text.here.round, name.at),
    })
}

fn targets(names: &[Bound], alloc: Global, text: &Standing<'_>) -> Result<Items<Bound>, AllocError>
    ensures { IfOk result (λ xs. xs ≡ expansion.targets (scope_of text.now) names.now) }
{
    let mut copies = Items::new(alloc);
    for name in names {
        let copy = target(name, alloc, text)?;
        copies.push(copy)?;
    }
    Ok(copies)
}

// The formula that a formula of a text becomes.
fn formula(tree: &Formula, alloc: Global, text: &Standing<'_>) -> Result<Formula, AllocError>
    requires ready { IsReady text.now.table }
    requires level { IsLevel text.now }
    ensures { IfOk result (λ e. e ≡ spec.formula_in text.now tree.now) }
{
    fill(tree, alloc, text)
}

fn formulas(
    trees: &[Formula],
    alloc: Global,
    text: &Standing<'_>,
) -> Result<Items<Formula>, AllocError>
    requires ready { IsReady text.now.table }
    requires level { IsLevel text.now }
    ensures { IfOk result (λ es. es ≡ spec.formulas_in text.now trees.now) }
{
    let mut filled = Items::new(alloc);
    for tree in trees {
        let part = formula(tree, alloc, text)?;
        filled.push(part)?;
    }
    Ok(filled)
}

// The definition that a name means where it is no parameter.
fn called(text: &Standing<'_>, name: &[u8]) -> Option<usize>
    requires { IsReady text.now.table }
    ensures { option_and_then (spec.use_at text.now) result ≡ spec.called_in text.now name.now }
{
    match place_of(&text.table, text.here.place, name) {
        Some(_) => None,
        None => definition_of(text, name),
    }
}

// The arguments in the brackets of a use.
fn arguments<'a>(formulas: &'a [Formula], text: &Standing<'_>) -> Arguments<'a>
    ensures { parts_in (means_in text.now) result ≡ expansion.arguments_by (λ e. (filling_in text.now e).arguments) formulas.now }
{
    match formulas {
        [] => parts::no_arguments(),
        [formula, ..] => arguments_of(formula, text),
    }
}

// How many brackets are open round the body of a definition that is used under so many.
fn round_of_use(text: &Standing<'_>, depth: u64) -> u64
    ensures { result ≡ spec.round_in text.now depth }
{
    brackets(brackets(text.here.round, depth), 1)
}

// `x,y := E,F`
fn assign(
    at: Place,
    names: &[Bound],
    values: &[Formula],
    alloc: Global,
    text: &Standing<'_>,
) -> Result<Subst, AllocError>
    requires ready { IsReady text.now.table }
    requires level { IsLevel text.now }
    ensures { IfOk result (λ u. u ≡ form.Assign (places.deeper_place text.now.here.round at) (expansion.targets (scope_of text.now) names.now) (spec.formulas_in text.now values.now)) }
{
    let names = targets(names, alloc, text)?;
    let values = formulas(values, alloc, text)?;
    Ok(Subst::Assign(placed(text, at), names, values))
}

// `f(E) := F`
fn update(
    at: Place,
    name: &Bound,
    argument: &Formula,
    value: &Formula,
    alloc: Global,
    text: &Standing<'_>,
) -> Result<Subst, AllocError>
    requires ready { IsReady text.now.table }
    requires level { IsLevel text.now }
    ensures { IfOk result (λ u. u ≡ form.Update (places.deeper_place text.now.here.round at) (places.deeper_bound text.now.here.round name.now) (spec.formula_in text.now argument.now) (spec.formula_in text.now value.now)) }
{
    let name = target(name, alloc, text)?;
    let argument = formula(argument, alloc, text)?;
    let value = formula(value, alloc, text)?;
    Ok(Subst::Update(placed(text, at), name, argument, value))
}

// `x :: E`
fn choose_from(
    at: Place,
    name: &Bound,
    value: &Formula,
    alloc: Global,
    text: &Standing<'_>,
) -> Result<Subst, AllocError>
    requires ready { IsReady text.now.table }
    requires level { IsLevel text.now }
    ensures { IfOk result (λ u. u ≡ form.ChooseFrom (places.deeper_place text.now.here.round at) (places.deeper_bound text.now.here.round name.now) (spec.formula_in text.now value.now)) }
{
    let name = target(name, alloc, text)?;
    let value = formula(value, alloc, text)?;
    Ok(Subst::ChooseFrom(placed(text, at), name, value))
}

// `x,y : (P)`
fn choose_such(
    at: Place,
    names: &[Bound],
    predicate: &Formula,
    alloc: Global,
    text: &Standing<'_>,
) -> Result<Subst, AllocError>
    requires ready { IsReady text.now.table }
    requires level { IsLevel text.now }
    ensures { IfOk result (λ u. u ≡ form.ChooseSuch (places.deeper_place text.now.here.round at) (expansion.targets (scope_of text.now) names.now) (spec.formula_in text.now predicate.now)) }
{
    let names = targets(names, alloc, text)?;
    let predicate = formula(predicate, alloc, text)?;
    Ok(Subst::ChooseSuch(placed(text, at), names, predicate))
}

/// The substitution that a substitution of a text becomes.
#[cycle(fill_subst)]
pub fn fill_subst(subst: &Subst, alloc: Global, text: &Standing<'_>) -> Result<Subst, AllocError>
    requires ready { IsReady text.now.table }
    requires level { IsLevel text.now }
    ensures { IfOk result (λ u. u ≡ spec.subst_in text.now subst.now) }
{
    match subst {
        Subst::Skip(at) => Ok(Subst::Skip(placed(text, *at))),
        Subst::Block(at, body) => fill_block(*at, body.get(), alloc, text),
        Subst::Assign(at, names, values) => assign(
            *at,
            names.as_slice(),
            values.as_slice(),
            alloc,
            text,
        ),
        Subst::Update(at, name, argument, value) => update(*at, name, argument, value, alloc, text),
        Subst::ChooseFrom(at, name, value) => choose_from(*at, name, value, alloc, text),
        Subst::ChooseSuch(at, names, predicate) => choose_such(
            *at,
            names.as_slice(),
            predicate,
            alloc,
            text,
        ),
        Subst::Guarded(at, guard, predicate, body) => fill_guarded(
            *at,
            *guard,
            predicate,
            body.get(),
            alloc,
            text,
        ),
        Subst::If(at, branches, None) => fill_if(*at, branches.as_slice(), alloc, text),
        Subst::If(at, branches, Some(body)) => fill_if_else(
            *at,
            branches.as_slice(),
            body.get(),
            alloc,
            text,
        ),
        Subst::Select(at, branches, None) => fill_select(*at, branches.as_slice(), alloc, text),
        Subst::Select(at, branches, Some(body)) => fill_select_else(
            *at,
            branches.as_slice(),
            body.get(),
            alloc,
            text,
        ),
        Subst::Choice(at, bodies) => fill_choice(*at, bodies.as_slice(), alloc, text),
        Subst::Case(at, value, branches, None) => fill_case(
            *at,
            value,
            branches.as_slice(),
            alloc,
            text,
        ),
        Subst::Case(at, value, branches, Some(body)) => fill_case_else(
            *at,
            value,
            branches.as_slice(),
            body.get(),
            alloc,
            text,
        ),
        Subst::Any(at, names, predicate, body) => fill_any(
            *at,
            names.as_slice(),
            predicate,
            body.get(),
            alloc,
            text,
        ),
        Subst::Let(at, names, values, body) => fill_let(
            *at,
            names.as_slice(),
            values.as_slice(),
            body.get(),
            alloc,
            text,
        ),
        Subst::Chain(first, steps) => fill_chain(first.get(), steps.as_slice(), alloc, text),
        Subst::Use(at, name, formulas) => fill_use(
            name.as_slice(),
            at.depth,
            arguments(formulas.as_slice(), text),
            alloc,
            text,
        ),
    }
}

// `BEGIN S END`
#[cycle(fill_subst)]
fn fill_block(
    at: Place,
    body: &Subst,
    alloc: Global,
    text: &Standing<'_>,
) -> Result<Subst, AllocError>
    requires ready { IsReady text.now.table }
    requires level { IsLevel text.now }
    ensures { IfOk result (λ u. u ≡ form.Block (places.deeper_place text.now.here.round at) (spec.subst_in text.now body.now)) }
{
    let body = fill_part(body, alloc, text)?;
    Ok(Subst::Block(placed(text, at), body))
}

// `PRE P THEN S END`, `ASSERT P THEN S END`
#[cycle(fill_subst)]
fn fill_guarded(
    at: Place,
    guard: Guard,
    predicate: &Formula,
    body: &Subst,
    alloc: Global,
    text: &Standing<'_>,
) -> Result<Subst, AllocError>
    requires ready { IsReady text.now.table }
    requires level { IsLevel text.now }
    ensures { IfOk result (λ u. u ≡ form.Guarded (places.deeper_place text.now.here.round at) guard (spec.formula_in text.now predicate.now) (spec.subst_in text.now body.now)) }
{
    let predicate = formula(predicate, alloc, text)?;
    let body = fill_part(body, alloc, text)?;
    Ok(Subst::Guarded(placed(text, at), guard, predicate, body))
}

// Without ELSE.
#[cycle(fill_subst)]
fn fill_if(
    at: Place,
    branches: &[Branch],
    alloc: Global,
    text: &Standing<'_>,
) -> Result<Subst, AllocError>
    requires ready { IsReady text.now.table }
    requires level { IsLevel text.now }
    ensures { IfOk result (λ u. u ≡ form.If (places.deeper_place text.now.here.round at) (spec.branches_in text.now branches.now) None) }
{
    let branches = fill_branches(branches, alloc, text)?;
    Ok(Subst::If(placed(text, at), branches, None))
}

// With ELSE.
#[cycle(fill_subst)]
fn fill_if_else(
    at: Place,
    branches: &[Branch],
    body: &Subst,
    alloc: Global,
    text: &Standing<'_>,
) -> Result<Subst, AllocError>
    requires ready { IsReady text.now.table }
    requires level { IsLevel text.now }
    ensures { IfOk result (λ u. u ≡ form.If (places.deeper_place text.now.here.round at) (spec.branches_in text.now branches.now) (Some (spec.subst_in text.now body.now))) }
{
    let branches = fill_branches(branches, alloc, text)?;
    let body = fill_part(body, alloc, text)?;
    Ok(Subst::If(placed(text, at), branches, Some(body)))
}

// Without ELSE.
#[cycle(fill_subst)]
fn fill_select(
    at: Place,
    branches: &[Branch],
    alloc: Global,
    text: &Standing<'_>,
) -> Result<Subst, AllocError>
    requires ready { IsReady text.now.table }
    requires level { IsLevel text.now }
    ensures { IfOk result (λ u. u ≡ form.Select (places.deeper_place text.now.here.round at) (spec.branches_in text.now branches.now) None) }
{
    let branches = fill_branches(branches, alloc, text)?;
    Ok(Subst::Select(placed(text, at), branches, None))
}

// With ELSE.
#[cycle(fill_subst)]
fn fill_select_else(
    at: Place,
    branches: &[Branch],
    body: &Subst,
    alloc: Global,
    text: &Standing<'_>,
) -> Result<Subst, AllocError>
    requires ready { IsReady text.now.table }
    requires level { IsLevel text.now }
    ensures { IfOk result (λ u. u ≡ form.Select (places.deeper_place text.now.here.round at) (spec.branches_in text.now branches.now) (Some (spec.subst_in text.now body.now))) }
{
    let branches = fill_branches(branches, alloc, text)?;
    let body = fill_part(body, alloc, text)?;
    Ok(Subst::Select(placed(text, at), branches, Some(body)))
}

// `CHOICE S OR T END`
#[cycle(fill_subst)]
fn fill_choice(
    at: Place,
    bodies: &[Subst],
    alloc: Global,
    text: &Standing<'_>,
) -> Result<Subst, AllocError>
    requires ready { IsReady text.now.table }
    requires level { IsLevel text.now }
    ensures { IfOk result (λ u. u ≡ form.Choice (places.deeper_place text.now.here.round at) (spec.substs_in text.now bodies.now)) }
{
    let bodies = fill_all(bodies, alloc, text)?;
    Ok(Subst::Choice(placed(text, at), bodies))
}

// Without ELSE.
#[cycle(fill_subst)]
fn fill_case(
    at: Place,
    value: &Formula,
    branches: &[CaseBranch],
    alloc: Global,
    text: &Standing<'_>,
) -> Result<Subst, AllocError>
    requires ready { IsReady text.now.table }
    requires level { IsLevel text.now }
    ensures { IfOk result (λ u. u ≡ form.Case (places.deeper_place text.now.here.round at) (spec.formula_in text.now value.now) (spec.cases_in text.now branches.now) None) }
{
    let value = formula(value, alloc, text)?;
    let branches = fill_cases(branches, alloc, text)?;
    Ok(Subst::Case(placed(text, at), value, branches, None))
}

// With ELSE.
#[cycle(fill_subst)]
fn fill_case_else(
    at: Place,
    value: &Formula,
    branches: &[CaseBranch],
    body: &Subst,
    alloc: Global,
    text: &Standing<'_>,
) -> Result<Subst, AllocError>
    requires ready { IsReady text.now.table }
    requires level { IsLevel text.now }
    ensures { IfOk result (λ u. u ≡ form.Case (places.deeper_place text.now.here.round at) (spec.formula_in text.now value.now) (spec.cases_in text.now branches.now) (Some (spec.subst_in text.now body.now))) }
{
    let value = formula(value, alloc, text)?;
    let branches = fill_cases(branches, alloc, text)?;
    let body = fill_part(body, alloc, text)?;
    Ok(Subst::Case(placed(text, at), value, branches, Some(body)))
}

// `ANY x,y WHERE P THEN S END`
#[cycle(fill_subst)]
fn fill_any(
    at: Place,
    names: &[Bound],
    predicate: &Formula,
    body: &Subst,
    alloc: Global,
    text: &Standing<'_>,
) -> Result<Subst, AllocError>
    requires ready { IsReady text.now.table }
    requires level { IsLevel text.now }
    ensures { IfOk result (λ u. u ≡ form.Any (places.deeper_place text.now.here.round at) (expansion.targets (scope_of text.now) names.now) (spec.formula_in text.now predicate.now) (spec.subst_in text.now body.now)) }
{
    let names = targets(names, alloc, text)?;
    let predicate = formula(predicate, alloc, text)?;
    let body = fill_part(body, alloc, text)?;
    Ok(Subst::Any(placed(text, at), names, predicate, body))
}

// `LET x,y BE x = E & y = F IN S END`
#[cycle(fill_subst)]
fn fill_let(
    at: Place,
    names: &[Bound],
    values: &[Formula],
    body: &Subst,
    alloc: Global,
    text: &Standing<'_>,
) -> Result<Subst, AllocError>
    requires ready { IsReady text.now.table }
    requires level { IsLevel text.now }
    ensures { IfOk result (λ u. u ≡ form.Let (places.deeper_place text.now.here.round at) (expansion.targets (scope_of text.now) names.now) (spec.formulas_in text.now values.now) (spec.subst_in text.now body.now)) }
{
    let names = targets(names, alloc, text)?;
    let values = formulas(values, alloc, text)?;
    let body = fill_part(body, alloc, text)?;
    Ok(Subst::Let(placed(text, at), names, values, body))
}

// `||` and `;`
#[cycle(fill_subst)]
fn fill_chain(
    first: &Subst,
    steps: &[Step],
    alloc: Global,
    text: &Standing<'_>,
) -> Result<Subst, AllocError>
    requires ready { IsReady text.now.table }
    requires level { IsLevel text.now }
    ensures { IfOk result (λ u. u ≡ form.Chain (spec.subst_in text.now first.now) (spec.steps_in text.now steps.now)) }
{
    let first = fill_part(first, alloc, text)?;
    let steps = fill_steps(steps, alloc, text)?;
    Ok(Subst::Chain(first, steps))
}

#[cycle(fill_subst)]
fn fill_part(subst: &Subst, alloc: Global, text: &Standing<'_>) -> Result<Boxed<Subst>, AllocError>
    requires ready { IsReady text.now.table }
    requires level { IsLevel text.now }
    ensures { IfOk result (λ u. u ≡ spec.subst_in text.now subst.now) }
{
    Boxed::new(alloc, fill_subst(subst, alloc, text)?)
}

#[cycle(fill_subst)]
fn fill_all(
    bodies: &[Subst],
    alloc: Global,
    text: &Standing<'_>,
) -> Result<Items<Subst>, AllocError>
    requires ready { IsReady text.now.table }
    requires level { IsLevel text.now }
    ensures { IfOk result (λ us. us ≡ spec.substs_in text.now bodies.now) }
{
    let mut filled = Items::new(alloc);
    for body in bodies {
        let part = fill_subst(body, alloc, text)?;
        filled.push(part)?;
    }
    Ok(filled)
}

#[cycle(fill_subst)]
fn fill_branches(
    branches: &[Branch],
    alloc: Global,
    text: &Standing<'_>,
) -> Result<Items<Branch>, AllocError>
    requires ready { IsReady text.now.table }
    requires level { IsLevel text.now }
    ensures { IfOk result (λ bs. bs ≡ spec.branches_in text.now branches.now) }
{
    let mut filled = Items::new(alloc);
    for branch in branches {
        let part = fill_branch(branch, alloc, text)?;
        filled.push(part)?;
    }
    Ok(filled)
}

#[cycle(fill_subst)]
fn fill_branch(branch: &Branch, alloc: Global, text: &Standing<'_>) -> Result<Branch, AllocError>
    requires ready { IsReady text.now.table }
    requires level { IsLevel text.now }
    ensures { IfOk result (λ b. b ≡ spec.branch_in text.now branch.now) }
{
    Ok(Branch {
        guard: formula(&branch.guard, alloc, text)?,
        body: fill_subst(&branch.body, alloc, text)?,
    })
}

#[cycle(fill_subst)]
fn fill_cases(
    branches: &[CaseBranch],
    alloc: Global,
    text: &Standing<'_>,
) -> Result<Items<CaseBranch>, AllocError>
    requires ready { IsReady text.now.table }
    requires level { IsLevel text.now }
    ensures { IfOk result (λ bs. bs ≡ spec.cases_in text.now branches.now) }
{
    let mut filled = Items::new(alloc);
    for branch in branches {
        let part = fill_case_branch(branch, alloc, text)?;
        filled.push(part)?;
    }
    Ok(filled)
}

#[cycle(fill_subst)]
fn fill_case_branch(
    branch: &CaseBranch,
    alloc: Global,
    text: &Standing<'_>,
) -> Result<CaseBranch, AllocError>
    requires ready { IsReady text.now.table }
    requires level { IsLevel text.now }
    ensures { IfOk result (λ b. b ≡ spec.case_in text.now branch.now) }
{
    Ok(CaseBranch {
        labels: formulas(branch.labels.as_slice(), alloc, text)?,
        body: fill_subst(&branch.body, alloc, text)?,
    })
}

#[cycle(fill_subst)]
fn fill_steps(steps: &[Step], alloc: Global, text: &Standing<'_>) -> Result<Items<Step>, AllocError>
    requires ready { IsReady text.now.table }
    requires level { IsLevel text.now }
    ensures { IfOk result (λ ks. ks ≡ spec.steps_in text.now steps.now) }
{
    let mut filled = Items::new(alloc);
    for step in steps {
        let part = fill_step(step, alloc, text)?;
        filled.push(part)?;
    }
    Ok(filled)
}

#[cycle(fill_subst)]
fn fill_step(step: &Step, alloc: Global, text: &Standing<'_>) -> Result<Step, AllocError>
    requires ready { IsReady text.now.table }
    requires level { IsLevel text.now }
    ensures { IfOk result (λ k. k ≡ spec.step_in text.now step.now) }
{
    Ok(Step {
        joint: step.joint,
        at: placed(text, step.at),
        body: fill_subst(&step.body, alloc, text)?,
    })
}

// A use of a name.
#[cycle(fill_subst)]
fn fill_use(
    name: &[u8],
    depth: u64,
    arguments: Arguments<'_>,
    alloc: Global,
    text: &Standing<'_>,
) -> Result<Subst, AllocError>
    requires ready { IsReady text.now.table }
    requires level { IsLevel text.now }
    ensures { IfOk result (λ u. u ≡ spec.used_by text.now depth (spec.called_in text.now name.now) arguments.entry) }
{
    match called(text, name) {
        Some(i) => fill_called(i, depth, arguments, alloc, text),
        None => Ok(nothing()),
    }
}

// A use of the definition at a place.
#[cycle(fill_subst)]
fn fill_called(
    i: usize,
    depth: u64,
    arguments: Arguments<'_>,
    alloc: Global,
    text: &Standing<'_>,
) -> Result<Subst, AllocError>
    requires ready { IsReady text.now.table }
    requires level { IsLevel text.now }
    ensures { IfOk result (λ u. u ≡ spec.used_by text.now depth (spec.use_at text.now i) arguments.entry) }
{
    match sqlite_items::at(text.table.defs, i) {
        Some(def) => {
            let caller = caller_of(text);
            let inner = Standing {
                table: text.table,
                here: Frame {
                    place: i,
                    round: round_of_use(text, depth),
                    arguments,
                },
                callers: Callers::Within(&caller),
                extra: None,
            };
            fill_body(&def.body, alloc, &inner)
        }
        None => Ok(nothing()),
    }
}

#[cycle(fill_subst)]
fn fill_body(body: &DefBody, alloc: Global, text: &Standing<'_>) -> Result<Subst, AllocError>
    requires ready { IsReady text.now.table }
    requires level { IsLevel text.now }
    ensures { IfOk result (λ u. u ≡ spec.body_in text.now body.now) }
{
    match body {
        DefBody::Subst(u) => fill_subst(u, alloc, text),
        DefBody::Expr(_) => Ok(nothing()),
        DefBody::Pred(_) => Ok(nothing()),
    }
}
