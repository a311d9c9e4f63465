//! Names that a formula reads.
ghost use Rattle.std.specs.Prelude.{◌≡◌, IfOk, map};
ghost use Rattle.written_names.specs.Names.{at_if, is_among, named};
ghost use Rattle.written_names.specs.Reads as spec;
ghost use Rattle.written_names.specs.Reads.{all_read, read_in, read_in_form, read_in_link};

use crate::names::{Among, names_of};
use b_ast::{After, Bound, Formula, Link, Place};
use std::alloc::{AllocError, Global};

/// A place where a name stands that is one of these.
pub fn at_name(at: Place, name: &[u8], these: &Among) -> Option<Place>
    ensures { result ≡ at_if (is_among these.now name.now) at }
{
    if these.has(name) { Some(at) } else { None }
}

/// The first place at which one of the names `these` stands, or one of the names `olds` with `$0`; bound names hide them.
#[cycle(reads)]
pub fn read<'a>(
    e: &Formula,
    alloc: Global,
    these: &'a Among<'a>,
    olds: &'a Among<'a>,
) -> Result<Option<Place>, AllocError>
    ensures { IfOk result (λ at. at ≡ read_in e.now (is_among these.now) (is_among olds.now)) }
{
    match e {
        Formula::Number(_, _) => Ok(None),
        Formula::Text(_, _) => Ok(None),
        Formula::Name(at, name) => Ok(at_name(*at, name.as_slice(), these)),
        Formula::Old(at, name) => Ok(at_name(*at, name.as_slice(), olds)),
        Formula::Constant(_, _) => Ok(None),
        Formula::Negative(_, e) => read(e.get(), alloc, these, olds),
        Formula::Chain(first, links) => match read(first.get(), alloc, these, olds)? {
            Some(at) => Ok(Some(at)),
            None => read_links(links.as_slice(), alloc, these, olds),
        },
        Formula::Row(first, forms) => match read(first.get(), alloc, these, olds)? {
            Some(at) => Ok(Some(at)),
            None => read_forms(forms.as_slice(), alloc, these, olds),
        },
        Formula::Call(_, _, arguments) => read_all(arguments.as_slice(), alloc, these, olds),
        Formula::Set(_, elements) => read_all(elements.as_slice(), alloc, these, olds),
        Formula::Sequence(_, elements) => read_all(elements.as_slice(), alloc, these, olds),
        Formula::Comprehension(_, names, p) => {
            read_inside(p.get(), alloc, these, olds, names.as_slice())
        }
        Formula::Quantified(_, _, names, p) => {
            read_inside(p.get(), alloc, these, olds, names.as_slice())
        }
        Formula::Collected(_, _, names, p, e) => {
            match read_inside(p.get(), alloc, these, olds, names.as_slice())? {
                Some(at) => Ok(Some(at)),
                None => read_inside(e.get(), alloc, these, olds, names.as_slice()),
            }
        }
        Formula::If(_, p, e, f) => match read(p.get(), alloc, these, olds)? {
            Some(at) => Ok(Some(at)),
            None => match read(e.get(), alloc, these, olds)? {
                Some(at) => Ok(Some(at)),
                None => read(f.get(), alloc, these, olds),
            },
        },
    }
}

// A formula in which bound names hide others.
#[cycle(reads)]
fn read_inside<'a>(
    e: &Formula,
    alloc: Global,
    these: &'a Among<'a>,
    olds: &'a Among<'a>,
    names: &[Bound],
) -> Result<Option<Place>, AllocError>
    ensures { IfOk result (λ at. at ≡ spec.inside names.now (read_in e.now) (is_among these.now) (is_among olds.now)) }
{
    let hidden = names_of(alloc, names)?;
    read(
        e,
        alloc,
        &Among::Without(&hidden, &*these),
        &Among::Without(&hidden, &*olds),
    )
}

/// The first such place in formulas.
#[cycle(reads)]
pub fn read_all<'a>(
    es: &[Formula],
    alloc: Global,
    these: &'a Among<'a>,
    olds: &'a Among<'a>,
) -> Result<Option<Place>, AllocError>
    ensures { IfOk result (λ at. at ≡ all_read (map read_in es.now) (is_among these.now) (is_among olds.now)) }
{
    for e in es {
        if let Some(at) = read(e, alloc, these, olds)? {
            return Ok(Some(at));
        }
    }
    Ok(None)
}

#[cycle(reads)]
fn read_links<'a>(
    links: &[Link],
    alloc: Global,
    these: &'a Among<'a>,
    olds: &'a Among<'a>,
) -> Result<Option<Place>, AllocError>
    ensures { IfOk result (λ at. at ≡ all_read (map read_in_link links.now) (is_among these.now) (is_among olds.now)) }
{
    for link in links {
        if let Some(at) = read(&link.operand, alloc, these, olds)? {
            return Ok(Some(at));
        }
    }
    Ok(None)
}

#[cycle(reads)]
fn read_forms<'a>(
    forms: &[After],
    alloc: Global,
    these: &'a Among<'a>,
    olds: &'a Among<'a>,
) -> Result<Option<Place>, AllocError>
    ensures { IfOk result (λ at. at ≡ all_read (map read_in_form forms.now) (is_among these.now) (is_among olds.now)) }
{
    for form in forms {
        if let Some(at) = read_form(form, alloc, these, olds)? {
            return Ok(Some(at));
        }
    }
    Ok(None)
}

#[cycle(reads)]
fn read_form<'a>(
    form: &After,
    alloc: Global,
    these: &'a Among<'a>,
    olds: &'a Among<'a>,
) -> Result<Option<Place>, AllocError>
    ensures { IfOk result (λ at. at ≡ read_in_form form.now (is_among these.now) (is_among olds.now)) }
{
    match form {
        After::Converse(_) => Ok(None),
        After::Apply(_, e) => read(e, alloc, these, olds),
        After::Image(_, e) => read(e, alloc, these, olds),
    }
}
