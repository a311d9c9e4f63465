//! Uses that stand alone, as substitutions.
ghost use Rattle.std.specs.Prelude.{◌≡◌, IfOk};
ghost use Rattle.b_ast.specs.declared.Formula.{out-Formula};
ghost use Rattle.b_ast.specs.declared.After.{out-After};
ghost use Rattle.b_machine_defs.specs.Declaring as spec;

use b_ast::machine::Subst;
use b_ast::{After, Formula, Place};
use sqlite_items::Items;
use std::alloc::{AllocError, Global};

fn no_use() -> Subst
    ensures { result ≡ spec.no_use }
{
    Subst::Skip(Place {
        machine: false,
        at: 0,
        depth: 0,
    })
}

fn with_argument(
    alloc: Global,
    at: Place,
    name: Items<u8>,
    form: After,
) -> Result<Subst, AllocError>
    ensures { IfOk result (λ u. u ≡ spec.with_argument at name (out-After form)) }
{
    match form {
        After::Apply(_, argument) => {
            let mut arguments = Items::new(alloc);
            arguments.push(argument)?;
            Ok(Subst::Use(at, name, arguments))
        }
        After::Converse(_) | After::Image(_, _) => Ok(no_use()),
    }
}

fn with_forms(
    alloc: Global,
    at: Place,
    name: Items<u8>,
    forms: Items<After>,
) -> Result<Subst, AllocError>
    ensures { IfOk result (λ u. u ≡ spec.with_forms at name forms) }
{
    let mut forms = forms;
    match forms.pop() {
        Some(form) => {
            if forms.is_empty() {
                with_argument(alloc, at, name, form)
            } else {
                Ok(no_use())
            }
        }
        None => Ok(no_use()),
    }
}

fn with_head(alloc: Global, head: Formula, forms: Items<After>) -> Result<Subst, AllocError>
    ensures { IfOk result (λ u. u ≡ spec.with_head (out-Formula head) forms) }
{
    match head {
        Formula::Name(at, name) => with_forms(alloc, at, name, forms),
        Formula::Number(_, _)
        | Formula::Text(_, _)
        | Formula::Old(_, _)
        | Formula::Constant(_, _)
        | Formula::Negative(_, _)
        | Formula::Chain(_, _)
        | Formula::Row(_, _)
        | Formula::Call(_, _, _)
        | Formula::Set(_, _)
        | Formula::Sequence(_, _)
        | Formula::Comprehension(_, _, _)
        | Formula::Quantified(_, _, _, _)
        | Formula::Collected(_, _, _, _, _)
        | Formula::If(_, _, _, _) => Ok(no_use()),
    }
}

/// The substitution that a use is which stands alone.
pub fn use_of(alloc: Global, tree: Formula) -> Result<Subst, AllocError>
    ensures { IfOk result (λ u. u ≡ spec.use_of tree) }
{
    match tree {
        Formula::Name(at, name) => Ok(Subst::Use(at, name, Items::new(alloc))),
        Formula::Row(head, forms) => with_head(alloc, head.into_inner(), forms),
        Formula::Number(_, _)
        | Formula::Text(_, _)
        | Formula::Old(_, _)
        | Formula::Constant(_, _)
        | Formula::Negative(_, _)
        | Formula::Chain(_, _)
        | Formula::Call(_, _, _)
        | Formula::Set(_, _)
        | Formula::Sequence(_, _)
        | Formula::Comprehension(_, _, _)
        | Formula::Quantified(_, _, _, _)
        | Formula::Collected(_, _, _, _, _)
        | Formula::If(_, _, _, _) => Ok(no_use()),
    }
}
