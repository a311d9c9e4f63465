//! What the conjuncts of PROPERTIES say of the sizes of sets.
ghost use Rattle.std.specs.Prelude.{◌≡◌, ◌++◌, IfOk, map};
ghost use Rattle.set_elements.specs.Sizes.{link_of, shape_of};
ghost use Rattle.set_elements.specs.Sizes as spec;

use b_ast::{Formula, Function, Link, Operator};
use sqlite_items::Items;
use std::alloc::{AllocError, Global};

/// A conjunct `card(S) = n` or `n = card(S)`: the name of S, and n where it is a literal from 1 to 1,000.
#[derive(Drop)]
pub struct Sizing {
    pub name: Items<u8>,
    pub size: Option<u64>,
}

/// What a formula is to sizes: a name, `card` of a name, a size that is written out, and what its conjuncts say.
#[derive(Drop)]
pub struct Shape {
    pub name: Option<Items<u8>>,
    pub set: Option<Items<u8>>,
    pub size: Option<u64>,
    pub sizings: Items<Sizing>,
}

fn plain(alloc: Global) -> Shape
    ensures { result ≡ spec.plain }
{
    of_size(alloc, None)
}

fn of_size(alloc: Global, size: Option<u64>) -> Shape
    ensures { result ≡ spec.of_size size }
{
    Shape {
        name: None,
        set: None,
        size,
        sizings: Items::new(alloc),
    }
}

fn of_name(alloc: Global, name: &[u8]) -> Result<Shape, AllocError>
    ensures { IfOk result (λ s. s ≡ spec.of_name name.now) }
{
    Ok(Shape {
        name: Some(Items::from_slice(alloc, name)?),
        set: None,
        size: None,
        sizings: Items::new(alloc),
    })
}

fn of_set(alloc: Global, set: Option<Items<u8>>) -> Shape
    ensures { result ≡ spec.of_set set }
{
    Shape {
        name: None,
        set,
        size: None,
        sizings: Items::new(alloc),
    }
}

// `card` of what may be a name.
fn of_argument(alloc: Global, argument: Shape) -> Shape
    ensures { result ≡ spec.of_set argument.name }
{
    let Shape {
        name,
        set: _set,
        size: _size,
        sizings: _sizings,
    } = argument;
    of_set(alloc, name)
}

/// What a formula's conjuncts say.
pub fn taken(shape: Shape) -> Items<Sizing>
    ensures { result ≡ shape.sizings }
{
    let Shape {
        name: _name,
        set: _set,
        size: _size,
        sizings,
    } = shape;
    sizings
}

fn of_sizings(sizings: Items<Sizing>) -> Shape
    ensures { result ≡ spec.of_sizings sizings }
{
    Shape {
        name: None,
        set: None,
        size: None,
        sizings,
    }
}

fn literal(k: u128) -> Option<u64>
    ensures { result ≡ spec.literal k }
{
    if 1 <= k && k <= 1000 {
        Some(k as u64)
    } else {
        None
    }
}

fn sized(
    alloc: Global,
    set: &Option<Items<u8>>,
    size: Option<u64>,
) -> Result<Items<Sizing>, AllocError>
    ensures { IfOk result (λ v. v ≡ spec.sized set.now size) }
{
    let mut found = Items::new(alloc);
    if let Some(name) = set {
        found.push(Sizing {
            name: Items::from_slice(alloc, name.as_slice())?,
            size,
        })?;
    }
    Ok(found)
}

fn equated(
    alloc: Global,
    set: &Option<Items<u8>>,
    size: Option<u64>,
    operand: &Shape,
) -> Result<Items<Sizing>, AllocError>
    ensures { IfOk result (λ v. v ≡ spec.sized set.now operand.now.size ++ spec.sized operand.now.set size) }
{
    let mut found = sized(alloc, set, operand.size)?;
    let more = sized(alloc, &operand.set, size)?;
    found.append(more)?;
    Ok(found)
}

fn joined(mut found: Items<Sizing>, operand: Shape) -> Result<Items<Sizing>, AllocError>
    ensures { IfOk result (λ v. v ≡ found ++ operand.sizings) }
{
    found.append(taken(operand))?;
    Ok(found)
}

fn continued(
    alloc: Global,
    set: &Option<Items<u8>>,
    size: Option<u64>,
    operator: Operator,
    found: Items<Sizing>,
    operand: Shape,
) -> Result<Items<Sizing>, AllocError>
    ensures { IfOk result (λ v. v ≡ spec.continued set.now size operator found operand) }
{
    match operator {
        Operator::And => joined(found, operand),
        Operator::Equal => equated(alloc, set, size, &operand),
        _ => Ok(Items::new(alloc)),
    }
}

/// What a formula is to sizes. Only conjuncts and their sides are looked at.
#[cycle(shape_in)]
pub fn shape_in(e: &Formula, alloc: Global) -> Result<Shape, AllocError>
    ensures { IfOk result (λ s. s ≡ shape_of e.now) }
{
    match e {
        Formula::Number(_, k) => Ok(of_size(alloc, literal(*k))),
        Formula::Name(_, name) => of_name(alloc, name.as_slice()),
        Formula::Call(_, f, arguments) => shape_called(arguments.as_slice(), alloc, *f),
        Formula::Chain(first, links) => {
            let head = shape_in(first.get(), alloc)?;
            shape_chain(links.as_slice(), alloc, head)
        }
        _ => Ok(plain(alloc)),
    }
}

#[cycle(shape_in)]
fn shape_chain(links: &[Link], alloc: Global, head: Shape) -> Result<Shape, AllocError>
    ensures { IfOk result (λ s. s ≡ spec.of_sizings (spec.chain_on head.set head.size head.sizings (map link_of links.now))) }
{
    let Shape {
        name: _name,
        set,
        size,
        sizings,
    } = head;
    let found = shape_links(links, alloc, &set, size, sizings)?;
    Ok(of_sizings(found))
}

#[cycle(shape_in)]
fn shape_called(
    arguments: &[Formula],
    alloc: Global,
    function: Function,
) -> Result<Shape, AllocError>
    ensures { IfOk result (λ s. s ≡ spec.called function (map shape_of arguments.now)) }
{
    match function {
        Function::Card => shape_carded(arguments, alloc),
        _ => Ok(plain(alloc)),
    }
}

#[cycle(shape_in)]
fn shape_carded(arguments: &[Formula], alloc: Global) -> Result<Shape, AllocError>
    ensures { IfOk result (λ s. s ≡ spec.carded (map shape_of arguments.now)) }
{
    match arguments {
        [e] => {
            let argument = shape_in(e, alloc)?;
            Ok(of_argument(alloc, argument))
        }
        _ => Ok(plain(alloc)),
    }
}

#[cycle(shape_in)]
fn shape_links(
    links: &[Link],
    alloc: Global,
    set: &Option<Items<u8>>,
    size: Option<u64>,
    begun: Items<Sizing>,
) -> Result<Items<Sizing>, AllocError>
    ensures { IfOk result (λ v. v ≡ spec.chain_on set.now size begun (map link_of links.now)) }
{
    let mut found = begun;
    for link in links {
        let operand = shape_in(&link.operand, alloc)?;
        found = continued(alloc, set, size, link.operator, found, operand)?;
    }
    Ok(found)
}
