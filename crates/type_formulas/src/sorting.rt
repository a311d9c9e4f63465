//! Demands, sorted by what they are.
ghost use Rattle.std.specs.Prelude.{◌≡◌, IfOk};
ghost use Rattle.type_formulas.specs.Typings as spec;

use std::alloc::{AllocError, Global};
use type_demands::Demand;
use type_schemes::Form;

pub fn any_unknown(demands: &[Demand]) -> bool
    ensures { result ≡ spec.any_unknown demands.now }
{
    for demand in demands {
        match demand {
            Demand::Unknown => return true,
            Demand::Keep(_) => {}
            Demand::Twice => {}
        }
    }
    false
}

pub fn any_twice(demands: &[Demand]) -> bool
    ensures { result ≡ spec.any_twice demands.now }
{
    for demand in demands {
        match demand {
            Demand::Twice => return true,
            Demand::Keep(_) => {}
            Demand::Unknown => {}
        }
    }
    false
}

pub fn forms_in(alloc: Global, demands: &[Demand]) -> Result<Vec<Form>, AllocError>
    ensures { IfOk result (λ forms. forms.items ≡ spec.forms_in demands.now) }
{
    let mut forms = Vec::new(alloc);
    for demand in demands {
        match demand {
            Demand::Keep(form) => forms.push(*form)?,
            Demand::Unknown => {}
            Demand::Twice => {}
        }
    }
    Ok(forms)
}
