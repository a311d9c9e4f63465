ghost use Rattle.std.specs.Prelude.{◌≡◌, ◌<◌, ◌≤◌, IfOk, length};
ghost use Rattle.type_table.specs.Tables.{IsTable};
ghost use Rattle.type_table.specs.Types as types;
ghost use Rattle.type_count.specs.Telling.{Tells};
ghost use Rattle.type_count.specs.Typings.{TellsOf};

use b_values::Ty;
use sqlite_items::Boxed;
use std::alloc::{AllocError, Global};
use type_table::{Basic, Row, root};

/// A part's type that has no open part and at most so many nodes; None where it has an open part or more nodes.
#[tactic(auto, using(crate::proofs::Tellings::told_none, crate::proofs::Tellings::told_some))]
pub fn type_of(
    alloc: Global,
    rows: &[Row],
    i: usize,
    limit: usize,
) -> Result<Option<Ty>, AllocError>
    requires table { IsTable rows.now }
    requires inside { i < length rows.now }
    ensures { TellsOf rows.now i limit result }
{
    Ok(match tell(alloc, rows, i, limit)? {
        None => None,
        Some(told) => Some(told.ty),
    })
}

/// A type, and what is left of a budget.
#[derive(Drop)]
struct Told {
    ty: Ty,
    left: usize,
}

/// The type that a row without parts names.
fn basic_type(basic: Basic) -> Ty
    ensures { result ≡ types.basic_type basic }
{
    match basic {
        Basic::Int => Ty::Int,
        Basic::Truth => Ty::Truth,
        Basic::Text => Ty::Text,
        Basic::Elem(set) => Ty::Elem(set),
    }
}

/// The type of sets of a told type.
fn set_of(alloc: Global, told: Told) -> Result<Told, AllocError>
    ensures { IfOk result (λ r. (r.ty ≡ Ty.Set told.ty) × (r.left ≡ told.left)) }
{
    Ok(Told {
        ty: Ty::Set(Boxed::new(alloc, told.ty)?),
        left: told.left,
    })
}

/// The type of couples of two told types.
fn pair_of(alloc: Global, first: Told, second: Told) -> Result<Told, AllocError>
    ensures { IfOk result (λ r. (r.ty ≡ Ty.Pair first.ty second.ty) × (r.left ≡ second.left)) }
{
    Ok(Told {
        ty: Ty::Pair(Boxed::new(alloc, first.ty)?, Boxed::new(alloc, second.ty)?),
        left: second.left,
    })
}

#[tactic(auto, using(crate::proofs::Tellings::told_zero, crate::proofs::Tellings::tell_open, crate::proofs::Tellings::tell_basic, crate::proofs::Tellings::tell_set, crate::proofs::Tellings::tell_pair))]
fn tell(alloc: Global, rows: &[Row], i: usize, budget: usize) -> Result<Option<Told>, AllocError>
    requires table { IsTable rows.now }
    requires inside { i < length rows.now }
    ensures { Tells rows.now i budget result }
{
    if budget == 0 {
        return Ok(None);
    }
    let end = root(rows, i);
    match rows[end] {
        Row::Open => Ok(None),
        Row::Basic(basic) => Ok(Some(Told {
            ty: basic_type(basic),
            left: budget - 1,
        })),
        Row::Set(j) => match tell(alloc, rows, j, budget - 1)? {
            None => Ok(None),
            Some(told) => Ok(Some(set_of(alloc, told)?)),
        },
        Row::Pair(j, k) => {
            let Some(first) = tell(alloc, rows, j, budget - 1)? else {
                return Ok(None);
            };
            match tell(alloc, rows, k, first.left)? {
                None => Ok(None),
                Some(second) => Ok(Some(pair_of(alloc, first, second)?)),
            }
        }
        Row::Same(_) => Ok(None),
    }
}
