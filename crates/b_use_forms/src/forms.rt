//! What a tree can be.
ghost use Rattle.std.specs.Prelude.{◌≡◌};
ghost use Rattle.std.specs.List.{list_all};
ghost use Rattle.b_use_forms.specs.Forms as spec;

use b_ast::Sort;
use b_ast::sorts::fits;
use b_summaries::Asked;
use b_summaries::sizes::met;

/// What a tree can be: nothing, any formula or substitution, or a formula of its own sort.
#[derive(Clone, Copy, Debug, PartialEq, Eq)]
pub enum Form {
    Wrong,
    Any,
    Own(Sort),
}

/// Whether it can be a formula of a sort.
pub fn is_form(wanted: Sort, form: Form) -> bool
    ensures { result ≡ spec.is_form wanted form }
{
    match form {
        Form::Wrong => false,
        Form::Any => true,
        Form::Own(sort) => fits(wanted, Some(sort)),
    }
}

/// Whether it can be all that is asked for.
pub fn meets(asked: Asked, form: Form) -> bool
    ensures { result ≡ spec.meets asked form }
{
    match form {
        Form::Wrong => false,
        Form::Any => true,
        Form::Own(sort) => met(asked, sort),
    }
}

/// Whether it can be something.
pub fn is_right(form: Form) -> bool
    ensures { result ≡ spec.is_right form }
{
    match form {
        Form::Wrong => false,
        Form::Any | Form::Own(_) => true,
    }
}

/// A tree of a sort, if it can be right.
pub fn given(right: bool, sort: Sort) -> Form
    ensures { result ≡ spec.given right sort }
{
    if right { Form::Own(sort) } else { Form::Wrong }
}

/// Whether each can be something.
pub fn are_right(forms: &[Form]) -> bool
    ensures { result ≡ list_all spec.is_right forms.now }
{
    for form in forms {
        if !is_right(*form) {
            return false;
        }
    }
    true
}
