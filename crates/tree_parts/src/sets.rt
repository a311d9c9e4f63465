//! The set of all values of a type.
ghost use Rattle.std.specs.Prelude.{◌≡◌, Some, IfOk};
ghost use Rattle.tree_parts.specs.Constants as constants;
ghost use Rattle.tree_parts.specs.Sets as spec;

use crate::constants::interval;
use b_tree::{ExprTree, Family, Place, SetOperator, Sides, Word};
use b_values::Ty;
use shared::Shared;
use sqlite_items::Boxed;
use std::alloc::{AllocError, Global};

/// MININT and MAXINT, and how many elements each set of the machine has.
#[derive(Clone, Copy)]
pub struct Extents<'a> {
    pub minint: i128,
    pub maxint: i128,
    pub sizes: &'a [u32],
}

fn size_of(extents: &Extents<'_>, set: u32) -> u32
    ensures { result ≡ spec.size_of extents.now set }
{
    match extents.sizes.get(set as usize).copied() {
        None => 0,
        Some(size) => size,
    }
}

fn product(
    alloc: Global,
    at: Place,
    left: Boxed<ExprTree>,
    right: Boxed<ExprTree>,
) -> Result<Boxed<ExprTree>, AllocError>
    ensures { IfOk result (λ e. e ≡ spec.product at left right) }
{
    let left = Shared::new(alloc, left.into_inner())?;
    let right = Shared::new(alloc, right.into_inner())?;
    let sides = Boxed::new(alloc, Sides { left, right })?;
    Boxed::new(alloc, ExprTree::Between(SetOperator::Product, at, sides))
}

fn product_of(
    alloc: Global,
    at: Place,
    left: Option<Boxed<ExprTree>>,
    right: Option<Boxed<ExprTree>>,
) -> Result<Option<Boxed<ExprTree>>, AllocError>
    ensures { IfOk result (λ e. e ≡ spec.product_of at left right) }
{
    match left {
        None => Ok(None),
        Some(left) => match right {
            None => Ok(None),
            Some(right) => {
                let made = product(alloc, at, left, right)?;
                Ok(Some(made))
            }
        },
    }
}

fn subsets_of(
    alloc: Global,
    at: Place,
    set: Option<Boxed<ExprTree>>,
) -> Result<Option<Boxed<ExprTree>>, AllocError>
    ensures { IfOk result (λ e. e ≡ spec.subsets_of at set) }
{
    match set {
        None => Ok(None),
        Some(set) => {
            let made = Boxed::new(alloc, ExprTree::Over(Family::Subsets, at, set))?;
            Ok(Some(made))
        }
    }
}

fn integers(
    alloc: Global,
    extents: &Extents<'_>,
    at: Place,
) -> Result<Option<Boxed<ExprTree>>, AllocError>
    ensures { IfOk result (λ e. e ≡ Some (constants.interval at extents.now.minint extents.now.maxint)) }
{
    let made = interval(alloc, at, extents.minint, extents.maxint)?;
    Ok(Some(made))
}

fn truths(alloc: Global, at: Place) -> Result<Option<Boxed<ExprTree>>, AllocError>
    ensures { IfOk result (λ e. e ≡ Some (ExprTree.Word at Word.Bool)) }
{
    let made = Boxed::new(alloc, ExprTree::Word(at, Word::Bool))?;
    Ok(Some(made))
}

fn elements_of(
    alloc: Global,
    extents: &Extents<'_>,
    at: Place,
    set: u32,
) -> Result<Option<Boxed<ExprTree>>, AllocError>
    ensures { IfOk result (λ e. e ≡ Some (ExprTree.Given at set (spec.size_of extents.now set))) }
{
    let size = size_of(extents, set);
    let made = Boxed::new(alloc, ExprTree::Given(at, set, size))?;
    Ok(Some(made))
}

/// The set of all values of a type, its integers cut to MININT..MAXINT. None where strings are among its parts.
pub fn type_set(
    ty: &Ty,
    alloc: Global,
    extents: &Extents<'_>,
    at: Place,
) -> Result<Option<Boxed<ExprTree>>, AllocError>
    ensures { IfOk result (λ e. e ≡ spec.type_set extents.now at ty.now) }
{
    match ty {
        Ty::Int => integers(alloc, extents, at),
        Ty::Truth => truths(alloc, at),
        Ty::Text => Ok(None),
        Ty::Elem(set) => elements_of(alloc, extents, at, *set),
        Ty::Pair(a, b) => {
            let left = type_set(a.get(), alloc, extents, at)?;
            let right = type_set(b.get(), alloc, extents, at)?;
            product_of(alloc, at, left, right)
        }
        Ty::Set(a) => {
            let members = type_set(a.get(), alloc, extents, at)?;
            subsets_of(alloc, at, members)
        }
    }
}

/// Whether integers are among a type's parts, so that the set of its values is cut.
pub fn has_numbers(ty: &Ty) -> bool
    ensures { result ≡ spec.has_numbers ty.now }
{
    match ty {
        Ty::Int => true,
        Ty::Truth => false,
        Ty::Text => false,
        Ty::Elem(_) => false,
        Ty::Pair(a, b) => has_numbers(a.get()) || has_numbers(b.get()),
        Ty::Set(a) => has_numbers(a.get()),
    }
}
