//! One walk through a formula, which tells what it demands.
ghost use Rattle.std.specs.Prelude.{◌≡◌, ◌+◌, ◌++◌, ◌∷◌, [], IfOk, OnOk, length, map};
ghost use Rattle.type_schemes.specs.declared.rules.Reading.TheVariants as reading;
ghost use Rattle.type_demands.specs.Scopes.{bind, names_of, scope_of, without_last};
ghost use Rattle.type_demands.specs.Demands as spec;
ghost use Rattle.type_demands.specs.Demands.{said};

use crate::demands::{Demand, Meaning};
use crate::scopes::{Frame, close, find, open_names, take};
use b_ast::{After, Bound, Collector, Formula, Link};
use std::alloc::{AllocError, Global};
use type_schemes::{Form, Reading, Rule, constant_rule, function_rule, reading_of};

// What a form demands of its parts.
fn keep(
    out: &mut Vec<Demand>,
    reading: Reading,
    left: usize,
    right: usize,
    whole: usize,
) -> Result<(), AllocError>
    ensures { OnOk result (out.new.items ≡ out.old.items ++ spec.keeping reading left right whole ∷ []) }
{
    out.push(Demand::Keep(Form {
        reading,
        left,
        right,
        whole,
    }))?;
    Ok(())
}

/// What a form demands that has one rule.
pub fn keep_one(
    out: &mut Vec<Demand>,
    rule: Rule,
    left: usize,
    right: usize,
    whole: usize,
) -> Result<(), AllocError>
    ensures { OnOk result (out.new.items ≡ out.old.items ++ spec.obeying rule left right whole ∷ []) }
{
    keep(out, Reading::One(rule), left, right, whole)
}

// What a name demands.
fn named(meaning: Option<Meaning>, n: usize) -> Demand
    ensures { result ≡ spec.named meaning n }
{
    match meaning {
        None => Demand::Unknown,
        Some(m) => Demand::Keep(Form {
            reading: Reading::One(Rule::Alike),
            left: m.part,
            right: m.part,
            whole: n,
        }),
    }
}

fn old_part(has_old: bool, part: usize, n: usize) -> Demand
    ensures { result ≡ spec.old_part has_old part n }
{
    if has_old {
        Demand::Keep(Form {
            reading: Reading::One(Rule::Alike),
            left: part,
            right: part,
            whole: n,
        })
    } else {
        Demand::Unknown
    }
}

fn old_named(meaning: Option<Meaning>, n: usize) -> Demand
    ensures { result ≡ spec.old_named meaning n }
{
    match meaning {
        None => Demand::Unknown,
        Some(m) => old_part(m.has_old, m.part, n),
    }
}

// A part without operands.
fn walk_alone(out: &mut Vec<Demand>, next: &mut usize, rule: Rule) -> Result<usize, AllocError>
    ensures whole { IfOk result (λ w. w ≡ next.old) }
    ensures parts { OnOk result (next.new ≡ next.old + 1) }
    ensures demands { OnOk result (out.new.items ≡ out.old.items ++ spec.obeying rule next.old next.old next.old ∷ []) }
{
    let whole = take(next)?;
    keep_one(out, rule, whole, whole, whole)?;
    Ok(whole)
}

/// A name, which has the type of what it means.
pub fn walk_name(
    frames: &[Frame],
    out: &mut Vec<Demand>,
    next: &mut usize,
    name: &[u8],
) -> Result<usize, AllocError>
    ensures whole { IfOk result (λ w. w ≡ next.old) }
    ensures parts { OnOk result (next.new ≡ next.old + 1) }
    ensures demands { OnOk result (out.new.items ≡ out.old.items ++ spec.named (scope_of frames.now name.now) next.old ∷ []) }
{
    let whole = take(next)?;
    out.push(named(find(frames, name), whole))?;
    Ok(whole)
}

fn walk_old(
    frames: &[Frame],
    out: &mut Vec<Demand>,
    next: &mut usize,
    name: &[u8],
) -> Result<usize, AllocError>
    ensures whole { IfOk result (λ w. w ≡ next.old) }
    ensures parts { OnOk result (next.new ≡ next.old + 1) }
    ensures demands { OnOk result (out.new.items ≡ out.old.items ++ spec.old_named (scope_of frames.now name.now) next.old ∷ []) }
{
    let whole = take(next)?;
    out.push(old_named(find(frames, name), whole))?;
    Ok(whole)
}

// The couple of a binder's names, from the left; gives the part that is the whole couple.
#[tactic(auto)]
fn couple(
    out: &mut Vec<Demand>,
    next: &mut usize,
    names: &[Bound],
    first: usize,
) -> Result<usize, AllocError>
    requires before { next.old ≡ first + length names.now }
    ensures whole { IfOk result (λ w. w ≡ spec.tuple_whole names.now first) }
    ensures parts { OnOk result (next.new ≡ first + spec.tuple_parts names.now) }
    ensures demands { OnOk result (out.new.items ≡ out.old.items ++ spec.tuple_demands names.now first) }
{
    let mut whole = first;
    for i in 1..names.len() {
        let couple = take(next)?;
        keep_one(out, Rule::Couple, whole, first + i, couple)?;
        whole = couple;
    }
    Ok(whole)
}

#[tactic(auto, using(crate::proofs::Couples::nothing_more))]
fn couple_if(
    coupled: bool,
    out: &mut Vec<Demand>,
    next: &mut usize,
    names: &[Bound],
    first: usize,
) -> Result<usize, AllocError>
    requires before { next.old ≡ first + length names.now }
    ensures whole { IfOk result (λ w. w ≡ spec.bound_whole coupled names.now first) }
    ensures parts { OnOk result (next.new ≡ first + spec.bound_parts coupled names.now) }
    ensures demands { OnOk result (out.new.items ≡ out.old.items ++ spec.bound_demands coupled names.now first) }
{
    if coupled {
        couple(out, next, names, first)
    } else {
        Ok(first)
    }
}

/// The part of a binder, and that of the couple of its names.
#[derive(Clone, Copy, Debug, PartialEq, Eq)]
pub struct Entered {
    pub whole: usize,
    pub tuple: usize,
}

// Enters the scope of a binder's names.
fn enter(
    alloc: Global,
    frames: &mut Vec<Frame>,
    out: &mut Vec<Demand>,
    next: &mut usize,
    names: &[Bound],
    coupled: bool,
) -> Result<Entered, AllocError>
    ensures whole { IfOk result (λ e. e.whole ≡ next.old) }
    ensures tuple { IfOk result (λ e. e.tuple ≡ spec.bound_whole coupled names.now (next.old + 1)) }
    ensures parts { OnOk result (next.new ≡ next.old + 1 + spec.bound_parts coupled names.now) }
    ensures demands { OnOk result (out.new.items ≡ out.old.items ++ (spec.twice names.now ++ spec.bound_demands coupled names.now (next.old + 1))) }
    ensures scope { OnOk result (scope_of frames.new.items ≡ bind (names_of names.now) (next.old + 1) (scope_of frames.old.items)) }
    ensures outer { OnOk result (without_last frames.new.items ≡ frames.old.items) }
{
    let whole = take(next)?;
    let first = open_names(alloc, frames, out, next, names)?;
    let tuple = couple_if(coupled, out, next, names, first)?;
    Ok(Entered { whole, tuple })
}

fn is_coupled(collector: Collector) -> bool
    ensures { result ≡ spec.is_coupled collector }
{
    match collector {
        Collector::Lambda => true,
        Collector::Sum => false,
        Collector::Product => false,
        Collector::Union => false,
        Collector::Inter => false,
    }
}

fn keep_collected(
    out: &mut Vec<Demand>,
    collector: Collector,
    tuple: usize,
    image: usize,
    whole: usize,
) -> Result<(), AllocError>
    ensures { OnOk result (out.new.items ≡ out.old.items ++ spec.collected_as collector tuple image whole ∷ []) }
{
    match collector {
        Collector::Lambda => keep_one(out, Rule::Collected, tuple, image, whole),
        Collector::Sum => keep_one(out, Rule::Number, image, image, whole),
        Collector::Product => keep_one(out, Rule::Number, image, image, whole),
        Collector::Union => keep_one(out, Rule::SetAlike, image, image, whole),
        Collector::Inter => keep_one(out, Rule::SetAlike, image, image, whole),
    }
}

// A word with a number of operands that the grammar doesn't have.
fn walk_nothing(out: &mut Vec<Demand>, next: &mut usize) -> Result<usize, AllocError>
    ensures whole { IfOk result (λ w. w ≡ next.old) }
    ensures parts { OnOk result (next.new ≡ next.old + 1) }
    ensures demands { OnOk result (out.new.items ≡ out.old.items ++ Demand.Unknown ∷ []) }
{
    let whole = take(next)?;
    out.push(Demand::Unknown)?;
    Ok(whole)
}

fn walk_converse(out: &mut Vec<Demand>, next: &mut usize, left: usize) -> Result<usize, AllocError>
    ensures whole { IfOk result (λ w. w ≡ next.old) }
    ensures parts { OnOk result (next.new ≡ next.old + 1) }
    ensures demands { OnOk result (out.new.items ≡ out.old.items ++ spec.obeying Rule.Converse left left next.old ∷ []) }
{
    let whole = take(next)?;
    keep_one(out, Rule::Converse, left, left, whole)?;
    Ok(whole)
}

/// Tells what a formula demands, and gives the part that is the whole. Brackets alone nest calls.
#[cycle(walk)]
pub fn walk(
    tree: &Formula,
    alloc: Global,
    frames: &mut Vec<Frame>,
    out: &mut Vec<Demand>,
    next: &mut usize,
) -> Result<usize, AllocError>
    ensures whole { IfOk result (λ w. w ≡ (said tree.now).whole next.old) }
    ensures parts { OnOk result (next.new ≡ next.old + (said tree.now).parts) }
    ensures demands { OnOk result (out.new.items ≡ out.old.items ++ (said tree.now).demands (scope_of frames.old.items) next.old) }
    ensures frames { OnOk result (frames.new.items ≡ frames.old.items) }
{
    match tree {
        Formula::Number(_, _) => walk_alone(out, next, Rule::Integer),
        Formula::Text(_, _) => walk_alone(out, next, Rule::Text),
        Formula::Name(_, name) => walk_name(frames.as_slice(), out, next, name.as_slice()),
        Formula::Old(_, name) => walk_old(frames.as_slice(), out, next, name.as_slice()),
        Formula::Constant(_, c) => walk_alone(out, next, constant_rule(*c)),
        Formula::Negative(_, e) => walk_over(e.get(), alloc, frames, out, next, Rule::Number),
        Formula::Chain(e, links) => {
            let first = walk(e.get(), alloc, frames, out, next)?;
            walk_links(links.as_slice(), alloc, frames, out, next, first)
        }
        Formula::Row(e, forms) => {
            let first = walk(e.get(), alloc, frames, out, next)?;
            walk_forms(forms.as_slice(), alloc, frames, out, next, first)
        }
        Formula::Call(_, f, arguments) => {
            walk_call(
                arguments.as_slice(),
                alloc,
                frames,
                out,
                next,
                function_rule(*f),
            )
        }
        Formula::Set(_, es) => walk_listed(
            es.as_slice(),
            alloc,
            frames,
            out,
            next,
            Rule::EmptySet,
            Rule::Singleton,
        ),
        Formula::Sequence(_, es) => walk_listed(
            es.as_slice(),
            alloc,
            frames,
            out,
            next,
            Rule::EmptySequence,
            Rule::SequenceOf,
        ),
        Formula::Comprehension(_, names, p) => walk_comprehension(
            p.get(),
            alloc,
            frames,
            out,
            next,
            names.as_slice(),
        ),
        Formula::Quantified(_, _, names, p) => walk_quantified(
            p.get(),
            alloc,
            frames,
            out,
            next,
            names.as_slice(),
        ),
        Formula::Collected(_, c, names, p, e) => {
            let bound = walk_bound(
                p.get(),
                alloc,
                frames,
                out,
                next,
                names.as_slice(),
                is_coupled(*c),
            )?;
            walk_image(e.get(), alloc, frames, out, next, bound, *c)
        }
        Formula::If(_, p, e, f) => {
            let whole = take(next)?;
            walk_predicate(p.get(), alloc, frames, out, next)?;
            let first = walk(e.get(), alloc, frames, out, next)?;
            keep_one(out, Rule::Alike, first, first, whole)?;
            let second = walk(f.get(), alloc, frames, out, next)?;
            keep_one(out, Rule::Alike, second, second, whole)?;
            Ok(whole)
        }
    }
}

// A form with one operand.
#[cycle(walk)]
fn walk_over(
    e: &Formula,
    alloc: Global,
    frames: &mut Vec<Frame>,
    out: &mut Vec<Demand>,
    next: &mut usize,
    rule: Rule,
) -> Result<usize, AllocError>
    ensures whole { IfOk result (λ w. w ≡ (spec.over rule (said e.now)).whole next.old) }
    ensures parts { OnOk result (next.new ≡ next.old + (spec.over rule (said e.now)).parts) }
    ensures demands { OnOk result (out.new.items ≡ out.old.items ++ (spec.over rule (said e.now)).demands (scope_of frames.old.items) next.old) }
    ensures frames { OnOk result (frames.new.items ≡ frames.old.items) }
{
    let whole = take(next)?;
    let inner = walk(e, alloc, frames, out, next)?;
    keep_one(out, rule, inner, inner, whole)?;
    Ok(whole)
}

// A function word with its arguments.
#[cycle(walk)]
fn walk_call(
    arguments: &[Formula],
    alloc: Global,
    frames: &mut Vec<Frame>,
    out: &mut Vec<Demand>,
    next: &mut usize,
    rule: Rule,
) -> Result<usize, AllocError>
    ensures whole { IfOk result (λ w. w ≡ (spec.called rule (map said arguments.now)).whole next.old) }
    ensures parts { OnOk result (next.new ≡ next.old + (spec.called rule (map said arguments.now)).parts) }
    ensures demands { OnOk result (out.new.items ≡ out.old.items ++ (spec.called rule (map said arguments.now)).demands (scope_of frames.old.items) next.old) }
    ensures frames { OnOk result (frames.new.items ≡ frames.old.items) }
{
    match arguments {
        [e] => walk_over(e, alloc, frames, out, next, rule),
        [e, f] => {
            let whole = take(next)?;
            let left = walk(e, alloc, frames, out, next)?;
            let right = walk(f, alloc, frames, out, next)?;
            keep_one(out, rule, left, right, whole)?;
            Ok(whole)
        }
        _ => walk_nothing(out, next),
    }
}

// Operators with their right operands.
#[cycle(walk)]
fn walk_links(
    links: &[Link],
    alloc: Global,
    frames: &mut Vec<Frame>,
    out: &mut Vec<Demand>,
    next: &mut usize,
    first: usize,
) -> Result<usize, AllocError>
    ensures whole { IfOk result (λ w. w ≡ spec.steps_whole first next.old (map spec.link_said links.now)) }
    ensures parts { OnOk result (next.new ≡ next.old + spec.steps_parts (map spec.link_said links.now)) }
    ensures demands { OnOk result (out.new.items ≡ out.old.items ++ spec.steps_demands (scope_of frames.old.items) first next.old (map spec.link_said links.now)) }
    ensures frames { OnOk result (frames.new.items ≡ frames.old.items) }
{
    let mut left = first;
    for link in links {
        left = walk_link(link, alloc, frames, out, next, left)?;
    }
    Ok(left)
}

// Forms after an operand.
#[cycle(walk)]
fn walk_forms(
    forms: &[After],
    alloc: Global,
    frames: &mut Vec<Frame>,
    out: &mut Vec<Demand>,
    next: &mut usize,
    first: usize,
) -> Result<usize, AllocError>
    ensures whole { IfOk result (λ w. w ≡ spec.steps_whole first next.old (map spec.after_said forms.now)) }
    ensures parts { OnOk result (next.new ≡ next.old + spec.steps_parts (map spec.after_said forms.now)) }
    ensures demands { OnOk result (out.new.items ≡ out.old.items ++ spec.steps_demands (scope_of frames.old.items) first next.old (map spec.after_said forms.now)) }
    ensures frames { OnOk result (frames.new.items ≡ frames.old.items) }
{
    let mut left = first;
    for form in forms {
        left = walk_form(form, alloc, frames, out, next, left)?;
    }
    Ok(left)
}

#[cycle(walk)]
fn walk_step(
    e: &Formula,
    alloc: Global,
    frames: &mut Vec<Frame>,
    out: &mut Vec<Demand>,
    next: &mut usize,
    reading: Reading,
    left: usize,
) -> Result<usize, AllocError>
    ensures whole { IfOk result (λ w. w ≡ next.old) }
    ensures parts { OnOk result (next.new ≡ next.old + (spec.step reading (said e.now)).parts) }
    ensures demands { OnOk result (out.new.items ≡ out.old.items ++ (spec.step reading (said e.now)).demands (scope_of frames.old.items) left next.old) }
    ensures frames { OnOk result (frames.new.items ≡ frames.old.items) }
{
    let whole = take(next)?;
    let right = walk(e, alloc, frames, out, next)?;
    keep(out, reading, left, right, whole)?;
    Ok(whole)
}

#[cycle(walk)]
fn walk_link(
    link: &Link,
    alloc: Global,
    frames: &mut Vec<Frame>,
    out: &mut Vec<Demand>,
    next: &mut usize,
    left: usize,
) -> Result<usize, AllocError>
    ensures whole { IfOk result (λ w. w ≡ next.old) }
    ensures parts { OnOk result (next.new ≡ next.old + (spec.link_said link.now).parts) }
    ensures demands { OnOk result (out.new.items ≡ out.old.items ++ (spec.link_said link.now).demands (scope_of frames.old.items) left next.old) }
    ensures frames { OnOk result (frames.new.items ≡ frames.old.items) }
{
    walk_step(
        &link.operand,
        alloc,
        frames,
        out,
        next,
        reading_of(link.operator),
        left,
    )
}

#[cycle(walk)]
fn walk_form(
    form: &After,
    alloc: Global,
    frames: &mut Vec<Frame>,
    out: &mut Vec<Demand>,
    next: &mut usize,
    left: usize,
) -> Result<usize, AllocError>
    ensures whole { IfOk result (λ w. w ≡ next.old) }
    ensures parts { OnOk result (next.new ≡ next.old + (spec.after_said form.now).parts) }
    ensures demands { OnOk result (out.new.items ≡ out.old.items ++ (spec.after_said form.now).demands (scope_of frames.old.items) left next.old) }
    ensures frames { OnOk result (frames.new.items ≡ frames.old.items) }
{
    match form {
        After::Converse(_) => walk_converse(out, next, left),
        After::Apply(_, e) => walk_step(
            e,
            alloc,
            frames,
            out,
            next,
            Reading::One(Rule::Application),
            left,
        ),
        After::Image(_, e) => walk_step(
            e,
            alloc,
            frames,
            out,
            next,
            Reading::One(Rule::Image),
            left,
        ),
    }
}

// A list in brackets, by one rule where it is empty, and else by one for each element.
#[cycle(walk)]
fn walk_listed(
    elements: &[Formula],
    alloc: Global,
    frames: &mut Vec<Frame>,
    out: &mut Vec<Demand>,
    next: &mut usize,
    empty: Rule,
    rule: Rule,
) -> Result<usize, AllocError>
    ensures whole { IfOk result (λ w. w ≡ (spec.listed empty rule (map said elements.now)).whole next.old) }
    ensures parts { OnOk result (next.new ≡ next.old + (spec.listed empty rule (map said elements.now)).parts) }
    ensures demands { OnOk result (out.new.items ≡ out.old.items ++ (spec.listed empty rule (map said elements.now)).demands (scope_of frames.old.items) next.old) }
    ensures frames { OnOk result (frames.new.items ≡ frames.old.items) }
{
    let whole = take(next)?;
    if elements.is_empty() {
        keep_one(out, empty, whole, whole, whole)?;
    }
    walk_elements(elements, alloc, frames, out, next, rule, whole)?;
    Ok(whole)
}

#[cycle(walk)]
fn walk_elements(
    elements: &[Formula],
    alloc: Global,
    frames: &mut Vec<Frame>,
    out: &mut Vec<Demand>,
    next: &mut usize,
    rule: Rule,
    whole: usize,
) -> Result<usize, AllocError>
    ensures parts { OnOk result (next.new ≡ next.old + spec.each_parts (map said elements.now)) }
    ensures demands { OnOk result (out.new.items ≡ out.old.items ++ spec.each_demands rule (scope_of frames.old.items) whole next.old (map said elements.now)) }
    ensures frames { OnOk result (frames.new.items ≡ frames.old.items) }
{
    for element in elements {
        let part = walk(element, alloc, frames, out, next)?;
        keep_one(out, rule, part, part, whole)?;
    }
    Ok(whole)
}

/// A predicate.
#[cycle(walk)]
pub fn walk_predicate(
    p: &Formula,
    alloc: Global,
    frames: &mut Vec<Frame>,
    out: &mut Vec<Demand>,
    next: &mut usize,
) -> Result<usize, AllocError>
    ensures whole { IfOk result (λ w. w ≡ (said p.now).whole next.old) }
    ensures parts { OnOk result (next.new ≡ next.old + (said p.now).parts) }
    ensures demands { OnOk result (out.new.items ≡ out.old.items ++ spec.true_or_false (said p.now) (scope_of frames.old.items) next.old) }
    ensures frames { OnOk result (frames.new.items ≡ frames.old.items) }
{
    let part = walk(p, alloc, frames, out, next)?;
    keep_one(out, Rule::Truth, part, part, part)?;
    Ok(part)
}

// The names of a binder and its predicate; the names stay known.
#[cycle(walk)]
fn walk_bound(
    p: &Formula,
    alloc: Global,
    frames: &mut Vec<Frame>,
    out: &mut Vec<Demand>,
    next: &mut usize,
    names: &[Bound],
    coupled: bool,
) -> Result<Entered, AllocError>
    ensures whole { IfOk result (λ e. e.whole ≡ next.old) }
    ensures tuple { IfOk result (λ e. e.tuple ≡ spec.bound_whole coupled names.now (next.old + 1)) }
    ensures parts { OnOk result (next.new ≡ next.old + 1 + spec.bound_parts coupled names.now + (said p.now).parts) }
    ensures demands { OnOk result (out.new.items ≡ out.old.items ++ (spec.twice names.now ++ spec.bound_demands coupled names.now (next.old + 1) ++ spec.true_or_false (said p.now) (bind (names_of names.now) (next.old + 1) (scope_of frames.old.items)) (next.old + 1 + spec.bound_parts coupled names.now))) }
    ensures scope { OnOk result (scope_of frames.new.items ≡ bind (names_of names.now) (next.old + 1) (scope_of frames.old.items)) }
    ensures outer { OnOk result (without_last frames.new.items ≡ frames.old.items) }
{
    let entered = enter(alloc, frames, out, next, names, coupled)?;
    walk_predicate(p, alloc, frames, out, next)?;
    Ok(entered)
}

// What is collected, which ends the scope of the names.
#[cycle(walk)]
fn walk_image(
    e: &Formula,
    alloc: Global,
    frames: &mut Vec<Frame>,
    out: &mut Vec<Demand>,
    next: &mut usize,
    bound: Entered,
    collector: Collector,
) -> Result<usize, AllocError>
    ensures whole { IfOk result (λ w. w ≡ bound.whole) }
    ensures parts { OnOk result (next.new ≡ next.old + (said e.now).parts) }
    ensures demands { OnOk result (out.new.items ≡ out.old.items ++ ((said e.now).demands (scope_of frames.old.items) next.old ++ spec.collected_as collector bound.tuple ((said e.now).whole next.old) bound.whole ∷ [])) }
    ensures frames { OnOk result (frames.new.items ≡ without_last frames.old.items) }
{
    let image = walk(e, alloc, frames, out, next)?;
    close(frames);
    keep_collected(out, collector, bound.tuple, image, bound.whole)?;
    Ok(bound.whole)
}

#[cycle(walk)]
fn walk_comprehension(
    p: &Formula,
    alloc: Global,
    frames: &mut Vec<Frame>,
    out: &mut Vec<Demand>,
    next: &mut usize,
    names: &[Bound],
) -> Result<usize, AllocError>
    ensures whole { IfOk result (λ w. w ≡ (spec.comprehension names.now (said p.now)).whole next.old) }
    ensures parts { OnOk result (next.new ≡ next.old + (spec.comprehension names.now (said p.now)).parts) }
    ensures demands { OnOk result (out.new.items ≡ out.old.items ++ (spec.comprehension names.now (said p.now)).demands (scope_of frames.old.items) next.old) }
    ensures frames { OnOk result (frames.new.items ≡ frames.old.items) }
{
    let bound = walk_bound(p, alloc, frames, out, next, names, true)?;
    close(frames);
    keep_one(out, Rule::Singleton, bound.tuple, bound.tuple, bound.whole)?;
    Ok(bound.whole)
}

#[cycle(walk)]
fn walk_quantified(
    p: &Formula,
    alloc: Global,
    frames: &mut Vec<Frame>,
    out: &mut Vec<Demand>,
    next: &mut usize,
    names: &[Bound],
) -> Result<usize, AllocError>
    ensures whole { IfOk result (λ w. w ≡ (spec.quantified names.now (said p.now)).whole next.old) }
    ensures parts { OnOk result (next.new ≡ next.old + (spec.quantified names.now (said p.now)).parts) }
    ensures demands { OnOk result (out.new.items ≡ out.old.items ++ (spec.quantified names.now (said p.now)).demands (scope_of frames.old.items) next.old) }
    ensures frames { OnOk result (frames.new.items ≡ frames.old.items) }
{
    let bound = enter(alloc, frames, out, next, names, false)?;
    let body = walk(p, alloc, frames, out, next)?;
    close(frames);
    keep_one(out, Rule::Predicate, body, body, bound.whole)?;
    Ok(bound.whole)
}
