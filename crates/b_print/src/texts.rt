//! The canonical text of a formula: the one text by which a tree is written.
ghost use Rattle.std.specs.Prelude.{◌≡◌, ◌++◌, ◌∷◌, IfOk, OnOk, codes, decimal, map};
ghost use Rattle.b_print.specs.Spellings as spelled;
ghost use Rattle.b_print.specs.Texts as spec;

use crate::spellings::{
    collector_word, constant_word, function_word, priority, quantifier_sign, sign_of,
};
use b_ast::{After, Bound, Collector, Expr, Formula, Link, Operator, Pred, Quantifier};
use itoa::Buffer;
use std::alloc::{AllocError, Global};

/// Memory ran out.
pub use std::alloc::AllocError as NoMemory;

// How tight neighbours bind.
const INSIDE: u64 = 0;

const ALONE: u64 = 20;

const SIGN: u64 = 210;

const FORMS: u64 = 250;

/// The text of an expression.
pub fn print_expr(alloc: Global, e: &Expr) -> Result<Vec<u8>, NoMemory>
    ensures { IfOk result (λ bytes. bytes.items ≡ spec.text_of e.now.formula) }
{
    let mut out = Vec::new(alloc);
    write_at(&mut out, &e.formula, ALONE)?;
    Ok(out)
}

/// The text of a predicate.
pub fn print_pred(alloc: Global, p: &Pred) -> Result<Vec<u8>, NoMemory>
    ensures { IfOk result (λ bytes. bytes.items ≡ spec.text_of p.now.formula) }
{
    let mut out = Vec::new(alloc);
    write_at(&mut out, &p.formula, ALONE)?;
    Ok(out)
}

fn write_number(out: &mut Vec<u8>, n: u128) -> Result<(), AllocError>
    ensures { OnOk result (out.new.items ≡ out.old.items ++ decimal n) }
{
    let mut buffer = Buffer::new();
    out.extend_from_slice(buffer.format(n).as_bytes())
}

fn write_byte(out: &mut Vec<u8>, b: u8) -> Result<(), AllocError>
    ensures { OnOk result (out.new.items ≡ out.old.items ++ spec.spelling_of b) }
{
    if b == b'"' {
        return out.extend_from_slice(b"\\\"");
    }
    if b == b'\\' {
        return out.extend_from_slice(b"\\\\");
    }
    if b == b'\n' {
        return out.extend_from_slice(b"\\n");
    }
    if b == b'\t' {
        return out.extend_from_slice(b"\\t");
    }
    out.push(b)?;
    Ok(())
}

fn write_string(out: &mut Vec<u8>, bytes: &[u8]) -> Result<(), AllocError>
    ensures { OnOk result (out.new.items ≡ out.old.items ++ spec.quoted bytes.now) }
{
    out.push(b'"')?;
    for b in bytes {
        write_byte(out, *b)?;
    }
    out.push(b'"')?;
    Ok(())
}

// Names with commas between them.
fn write_names(out: &mut Vec<u8>, names: &[Bound]) -> Result<(), AllocError>
    ensures { OnOk result (out.new.items ≡ out.old.items ++ spec.names names.now) }
{
    let mut is_first = true;
    for bound in names {
        if !is_first {
            out.push(b',')?;
        }
        out.extend_from_slice(bound.name.as_slice())?;
        is_first = false;
    }
    Ok(())
}

fn write_names_in_brackets(out: &mut Vec<u8>, names: &[Bound]) -> Result<(), AllocError>
    ensures { OnOk result (out.new.items ≡ out.old.items ++ spec.round (spec.names names.now)) }
{
    out.push(b'(')?;
    write_names(out, names)?;
    out.push(b')')?;
    Ok(())
}

fn write_binder_names(out: &mut Vec<u8>, names: &[Bound]) -> Result<(), AllocError>
    ensures { OnOk result (out.new.items ≡ out.old.items ++ spec.binder_names names.now) }
{
    match names {
        [bound] => out.extend_from_slice(bound.name.as_slice()),
        _ => write_names_in_brackets(out, names),
    }
}

fn write_collector_names(
    out: &mut Vec<u8>,
    collector: Collector,
    names: &[Bound],
) -> Result<(), AllocError>
    ensures { OnOk result (out.new.items ≡ out.old.items ++ spec.collector_names collector names.now) }
{
    match collector {
        Collector::Lambda => write_binder_names(out, names),
        _ => write_names_in_brackets(out, names),
    }
}

fn write_comprehension_front(out: &mut Vec<u8>, names: &[Bound]) -> Result<(), AllocError>
    ensures { OnOk result (out.new.items ≡ out.old.items ++ spec.comprehension_front names.now) }
{
    out.push(b'{')?;
    write_names(out, names)?;
    write_bar(out)
}

// The bar between the parts of a binder.
fn write_bar(out: &mut Vec<u8>) -> Result<(), AllocError>
    ensures { OnOk result (out.new.items ≡ out.old.items ++ codes " | ") }
{
    out.extend_from_slice(b" | ")
}

fn write_quantified_front(
    out: &mut Vec<u8>,
    quantifier: Quantifier,
    names: &[Bound],
) -> Result<(), AllocError>
    ensures { OnOk result (out.new.items ≡ out.old.items ++ spec.quantified_front quantifier names.now) }
{
    out.extend_from_slice(quantifier_sign(quantifier))?;
    write_binder_names(out, names)?;
    out.extend_from_slice(b".(")
}

fn write_collected_front(
    out: &mut Vec<u8>,
    collector: Collector,
    names: &[Bound],
) -> Result<(), AllocError>
    ensures { OnOk result (out.new.items ≡ out.old.items ++ spec.collected_front collector names.now) }
{
    out.extend_from_slice(collector_word(collector))?;
    write_collector_names(out, collector, names)?;
    out.extend_from_slice(b".(")
}

fn write_operator(out: &mut Vec<u8>, operator: Operator) -> Result<(), AllocError>
    ensures { OnOk result (out.new.items ≡ out.old.items ++ spec.operator_text operator) }
{
    out.push(b' ')?;
    out.extend_from_slice(sign_of(operator))?;
    out.push(b' ')?;
    Ok(())
}

// How tight a chain with these links binds.
fn chain_binds(links: &[Link]) -> u64
    ensures { result ≡ spec.chain_binds (map spec.link_text links.now) }
{
    match links {
        [] => INSIDE,
        [link, ..] => priority(link.operator),
    }
}

// How tight the neighbours of operands bind: the sign before an operand, the forms behind one, the links of a chain
// behind its first operand, and an operator before its right operand.
fn beside_sign() -> u64
    ensures { result ≡ spelled.sign }
{
    SIGN
}

fn beside_forms() -> u64
    ensures { result ≡ spelled.forms }
{
    FORMS
}

fn beside_links(links: &[Link]) -> u64
    ensures { result ≡ spec.chain_binds (map spec.link_text links.now) }
{
    chain_binds(links)
}

fn behind(operator: Operator) -> u64
    ensures { result ≡ spelled.priority operator }
{
    priority(operator)
}

// The bracket before and behind what binds no tighter than its neighbour.
fn write_opening(out: &mut Vec<u8>, own: u64, neighbour: u64) -> Result<(), AllocError>
    ensures { OnOk result (out.new.items ≡ out.old.items ++ spec.opening own neighbour) }
{
    if own <= neighbour {
        out.push(b'(')?;
    }
    Ok(())
}

fn write_closing(out: &mut Vec<u8>, own: u64, neighbour: u64) -> Result<(), AllocError>
    ensures { OnOk result (out.new.items ≡ out.old.items ++ spec.closing own neighbour) }
{
    if own <= neighbour {
        out.push(b')')?;
    }
    Ok(())
}

// Writes the text of a tree beside a neighbour that binds so tight.
#[cycle(write)]
fn write_at(out: &mut Vec<u8>, tree: &Formula, neighbour: u64) -> Result<(), AllocError>
    ensures { OnOk result (out.new.items ≡ out.old.items ++ spec.text_at tree.now neighbour) }
{
    match tree {
        Formula::Number(_, n) => write_number(out, *n),
        Formula::Text(_, s) => write_string(out, s.as_slice()),
        Formula::Name(_, x) => out.extend_from_slice(x.as_slice()),
        Formula::Old(_, x) => {
            out.extend_from_slice(x.as_slice())?;
            out.extend_from_slice(b"$0")
        }
        Formula::Constant(_, c) => out.extend_from_slice(constant_word(*c)),
        Formula::Negative(_, e) => {
            write_opening(out, SIGN, neighbour)?;
            out.push(b'-')?;
            write_at(out, e.get(), beside_sign())?;
            write_closing(out, SIGN, neighbour)
        }
        Formula::Chain(e, links) => {
            let own = chain_binds(links.as_slice());
            write_opening(out, own, neighbour)?;
            write_at(out, e.get(), beside_links(links.as_slice()))?;
            write_links(out, links.as_slice())?;
            write_closing(out, own, neighbour)
        }
        Formula::Row(e, forms) => {
            write_opening(out, FORMS, neighbour)?;
            write_at(out, e.get(), beside_forms())?;
            write_forms(out, forms.as_slice())?;
            write_closing(out, FORMS, neighbour)
        }
        Formula::Call(_, f, arguments) => {
            out.extend_from_slice(function_word(*f))?;
            out.push(b'(')?;
            write_all(out, arguments.as_slice())?;
            out.extend_from_slice(b")")
        }
        Formula::Set(_, elements) => {
            out.push(b'{')?;
            write_all(out, elements.as_slice())?;
            out.extend_from_slice(b"}")
        }
        Formula::Sequence(_, elements) => {
            out.push(b'[')?;
            write_all(out, elements.as_slice())?;
            out.extend_from_slice(b"]")
        }
        Formula::Comprehension(_, names, p) => {
            write_comprehension_front(out, names.as_slice())?;
            write_at(out, p.get(), INSIDE)?;
            out.extend_from_slice(b"}")
        }
        Formula::Quantified(_, q, names, p) => {
            write_quantified_front(out, *q, names.as_slice())?;
            write_at(out, p.get(), INSIDE)?;
            out.extend_from_slice(b")")
        }
        Formula::Collected(_, c, names, p, e) => {
            write_collected_front(out, *c, names.as_slice())?;
            write_at(out, p.get(), INSIDE)?;
            write_bar(out)?;
            write_at(out, e.get(), INSIDE)?;
            out.extend_from_slice(b")")
        }
        Formula::If(_, p, e, f) => {
            out.extend_from_slice(b"IF ")?;
            write_at(out, p.get(), ALONE)?;
            out.extend_from_slice(b" THEN ")?;
            write_at(out, e.get(), ALONE)?;
            out.extend_from_slice(b" ELSE ")?;
            write_at(out, f.get(), ALONE)?;
            out.extend_from_slice(b" END")
        }
    }
}

// Operators with their right operands.
#[cycle(write)]
fn write_links(out: &mut Vec<u8>, links: &[Link]) -> Result<(), AllocError>
    ensures { OnOk result (out.new.items ≡ out.old.items ++ spec.links (map spec.link_text links.now)) }
{
    for link in links {
        write_operator(out, link.operator)?;
        write_at(out, &link.operand, behind(link.operator))?;
    }
    Ok(())
}

#[cycle(write)]
fn write_forms(out: &mut Vec<u8>, forms: &[After]) -> Result<(), AllocError>
    ensures { OnOk result (out.new.items ≡ out.old.items ++ spec.afters (map spec.after_text forms.now)) }
{
    for form in forms {
        write_form(out, form)?;
    }
    Ok(())
}

#[cycle(write)]
fn write_form(out: &mut Vec<u8>, form: &After) -> Result<(), AllocError>
    ensures { OnOk result (out.new.items ≡ out.old.items ++ spec.after_text form.now) }
{
    match form {
        After::Converse(_) => out.extend_from_slice(b"~"),
        After::Apply(_, e) => {
            out.push(b'(')?;
            write_at(out, e, INSIDE)?;
            out.push(b')')?;
            Ok(())
        }
        After::Image(_, e) => {
            out.push(b'[')?;
            write_at(out, e, INSIDE)?;
            out.push(b']')?;
            Ok(())
        }
    }
}

// Formulas directly inside brackets, with commas between them.
#[cycle(write)]
fn write_all(out: &mut Vec<u8>, trees: &[Formula]) -> Result<(), AllocError>
    ensures { OnOk result (out.new.items ≡ out.old.items ++ spec.commas (map spec.text_at trees.now)) }
{
    let mut is_first = true;
    for tree in trees {
        if !is_first {
            out.push(b',')?;
        }
        write_at(out, tree, INSIDE)?;
        is_first = false;
    }
    Ok(())
}
