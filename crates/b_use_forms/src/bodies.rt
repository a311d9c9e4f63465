//! Bodies of definitions, and texts without parameters.
ghost use Rattle.std.specs.Prelude.{◌≡◌, [], Some, not, is_some, slice_get, IfOk};
ghost use Rattle.std.specs.Option.{option_copied};
ghost use Rattle.b_substitutions.specs.Made.{IsMade};
ghost use Rattle.b_summaries.specs.Standing.{ArePlaces};
ghost use Rattle.b_use_forms.specs.Forms as spec;
ghost use Rattle.b_use_forms.specs.Standing.{IsReady};

use crate::substitutions::{fits, fits_subst};
use crate::texts::Text;
use b_ast::machine::{Def, DefBody, Subst};
use b_ast::{Formula, Sort};
use b_names::Index;
use b_substitutions::Substitutions;
use b_summaries::texts::Text as FormulaText;
use sqlite_items::Items;
use std::alloc::{AllocError, Global};

// A text with parameters under a table whose first definitions come to an end.
fn text_of<'a>(
    defs: &'a Substitutions<'a>,
    front: usize,
    params: &'a [Items<u8>],
    places: Option<&'a Index>,
) -> Text<'a>
    requires made { IsMade defs.now }
    requires places { ArePlaces params.now (option_copied places) }
    ensures ready { IsReady result }
    ensures table { result.formulas.table.now ≡ defs.now.formulas.table.now.defs }
    ensures params { result.formulas.params.now ≡ params.now }
    ensures front { result.front ≡ front }
{
    let table = defs.formulas.table.defs.as_slice();
    let known = defs.formulas.known.as_slice();
    let uses = defs.uses.as_slice();
    Text {
        formulas: FormulaText {
            table,
            index: &defs.formulas.index,
            known,
            params,
            places,
        },
        uses,
        front,
    }
}

fn text_alone<'a>(defs: &'a Substitutions<'a>, front: usize) -> Text<'a>
    requires { IsMade defs.now }
    ensures ready { IsReady result }
    ensures table { result.formulas.table.now ≡ defs.now.formulas.table.now.defs }
    ensures params { result.formulas.params.now ≡ [] }
    ensures front { result.front ≡ front }
{
    text_of(defs, front, &[], None)
}

/// Whether a formula without parameters can be of a sort.
pub fn formula_fits(
    formula: &Formula,
    wanted: Sort,
    alloc: Global,
    defs: &Substitutions<'_>,
    front: usize,
) -> Result<bool, AllocError>
    requires { IsMade defs.now }
    ensures { IfOk result (λ b. b ≡ spec.is_formula defs.now.formulas.table.now.defs front [] wanted formula.now) }
{
    let text = text_alone(defs, front);
    fits(formula, wanted, alloc, &text)
}

/// Whether a substitution without parameters can be right.
pub fn subst_fits(
    subst: &Subst,
    alloc: Global,
    defs: &Substitutions<'_>,
    front: usize,
) -> Result<bool, AllocError>
    requires { IsMade defs.now }
    ensures { IfOk result (λ b. b ≡ spec.subst_fits defs.now.formulas.table.now.defs front [] subst.now) }
{
    let text = text_alone(defs, front);
    fits_subst(subst, alloc, &text)
}

fn body_fits(body: &DefBody, alloc: Global, text: &Text<'_>) -> Result<bool, AllocError>
    requires { IsReady text.now }
    ensures { IfOk result (λ b. b ≡ spec.body_fits text.now.formulas.table.now text.now.front text.now.formulas.params.now body.now) }
{
    match body {
        DefBody::Expr(e) => fits(&e.formula, Sort::Expression, alloc, text),
        DefBody::Pred(p) => fits(&p.formula, Sort::Predicate, alloc, text),
        DefBody::Subst(subst) => fits_subst(subst, alloc, text),
    }
}

// Whether the body of the definition at a place can be right.
fn definition_fits(
    place: usize,
    def: &Def,
    alloc: Global,
    defs: &Substitutions<'_>,
    front: usize,
) -> Result<bool, AllocError>
    requires made { IsMade defs.now }
    requires there { slice_get defs.now.formulas.table.now.defs place ≡ Some def.now }
    ensures { IfOk result (λ b. b ≡ spec.body_fits defs.now.formulas.table.now.defs front def.now.params def.now.body) }
{
    let parameters = defs.formulas.index.parameters.as_slice();
    let places = sqlite_items::at(parameters, place);
    let params = def.params.as_slice();
    let text = text_of(defs, front, params, places);
    body_fits(&def.body, alloc, &text)
}

/// The place of the first definition whose body can't be right.
pub fn wrong_body(
    alloc: Global,
    defs: &Substitutions<'_>,
    front: usize,
) -> Result<Option<u64>, AllocError>
    requires { IsMade defs.now }
    ensures { IfOk result (λ o. is_some o ≡ not (spec.bodies_fit defs.now.formulas.table.now.defs front defs.now.formulas.table.now.defs)) }
{
    let table = defs.formulas.table.defs.as_slice();
    for (place, def) in table.iter().enumerate() {
        let right = definition_fits(place, def, alloc, defs, front)?;
        if !right {
            return Ok(Some(def.at));
        }
    }
    Ok(None)
}
