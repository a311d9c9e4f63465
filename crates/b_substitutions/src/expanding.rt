//! The substitution that a substitution stands for, put together.
ghost use Rattle.std.specs.Prelude.{◌≡◌, Some, IfOk};
ghost use Rattle.b_expand.specs.Standing.{IsIndexed};
ghost use Rattle.b_substitutions.specs.Expansion.{subst_expansion};
ghost use Rattle.b_substitutions.specs.Filling as filling;
ghost use Rattle.b_substitutions.specs.Made.{IsMade};
ghost use Rattle.b_substitutions.specs.Limits.{IsWithinLimits};

use crate::filler::fill_subst;
use crate::tables::Substitutions;
use b_ast::machine::Subst;
use b_expand::parts::no_arguments;
use b_expand::{Callers, Frame, Standing, Table};
use std::alloc::{AllocError, Global};

// The substitution with the definitions of a table put in.
fn put_in(alloc: Global, table: &Table<'_>, subst: &Subst) -> Result<Subst, AllocError>
    requires { IsIndexed table.now.defs.now table.now.index.now }
    ensures { IfOk result (λ u. u ≡ filling.filled table.now.defs.now subst.now) }
{
    let text = Standing {
        table: *table,
        here: Frame {
            place: table.defs.len(),
            round: 0,
            arguments: no_arguments(),
        },
        callers: Callers::Outside,
        extra: None,
    };
    fill_subst(subst, alloc, &text)
}

/// The substitution that a substitution stands for, where it stands for one within the limits, as `measured_subst` tells.
/// Each part is copied once, where it ends up. The recursion goes no deeper than the brackets of what is made.
pub fn expanded_subst(
    alloc: Global,
    defs: &Substitutions<'_>,
    subst: &Subst,
) -> Result<Subst, AllocError>
    requires made { IsMade defs.now }
    requires fits { IsWithinLimits defs.now.formulas.table.now.defs subst.now }
    ensures { IfOk result (λ u. subst_expansion defs.now.formulas.table.now.defs subst.now ≡ Some u) }
{
    let table = Table {
        defs: defs.formulas.table.defs.as_slice(),
        index: &defs.formulas.index,
    };
    put_in(alloc, &table, subst)
}
