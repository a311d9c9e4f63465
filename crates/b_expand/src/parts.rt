//! Parts of trees that definitions are put into.
ghost use Rattle.std.specs.Prelude.{◌≡◌, [], ◌∷◌, IfOk};
ghost use Rattle.b_expand.specs.Expansion as spec;
ghost use Rattle.b_expand.specs.Filling as filling;
ghost use Rattle.b_expand.specs.Places as places;
ghost use Rattle.b_expand.specs.Standing.{parts_in};

use crate::copies::raised_place;
use crate::standing::Arguments;
use b_ast::{After, Formula, Operator, Place};
use sqlite_items::{Boxed, Items};
use std::alloc::{AllocError, Global};

/// What stands for a substitution, which is no formula.
pub fn nothing() -> Formula
    ensures { result ≡ filling.nothing }
{
    let at = Place {
        machine: false,
        at: 0,
        depth: 0,
    };
    Formula::Number(at, 0)
}

/// The operator of a link once it separates no arguments.
pub fn expanded_operator(operator: Operator) -> Operator
    ensures { result ≡ spec.expanded_operator operator }
{
    match operator {
        Operator::Comma => Operator::Maplet,
        _ => operator,
    }
}

/// Whether an operator is the comma between arguments or parts of a couple.
pub fn is_comma(operator: Operator) -> bool
    ensures { result ≡ spec.is_comma operator }
{
    match operator {
        Operator::Comma => true,
        _ => false,
    }
}

/// The same under so many more brackets, if there are any.
pub fn nothing_raised(extra: Option<u64>) -> Formula
    ensures { result ≡ places.moved (places.raised_place extra) filling.nothing }
{
    let at = Place {
        machine: false,
        at: 0,
        depth: 0,
    };
    Formula::Number(raised_place(extra, at), 0)
}

/// No arguments.
pub fn no_arguments<'a>() -> Arguments<'a>
    ensures { (means : filling.Inserts) → parts_in means result ≡ [] }
{
    Arguments {
        first: None,
        others: &[],
    }
}

/// A use with the forms after its arguments.
pub fn row_of(alloc: Global, used: Formula, forms: Items<After>) -> Result<Formula, AllocError>
    ensures { IfOk result (λ e. e ≡ spec.row_of used forms) }
{
    match forms.as_slice() {
        [] => Ok(used),
        [_, ..] => Ok(Formula::Row(Boxed::new(alloc, used)?, forms)),
    }
}
