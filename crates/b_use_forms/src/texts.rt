//! What names mean in a text.
ghost use Rattle.std.specs.Prelude.{◌≡◌, ◌==◌, is_some};
ghost use Rattle.b_names.specs.Index as places;
ghost use Rattle.b_summaries.specs.Summaries as summed;
ghost use Rattle.b_use_forms.specs.Forms as spec;
ghost use Rattle.b_use_forms.specs.Standing.{IsReady};

use b_summaries::Told;
use b_summaries::texts::{Text as FormulaText, definition_of, place_of};

/// A text under a table all of whose definitions are told.
#[derive(Clone, Copy)]
pub struct Text<'a> {
    pub formulas: FormulaText<'a>,
    /// What is told of the definitions as substitutions.
    pub uses: &'a [Option<Told>],
    /// How many first definitions come to an end.
    pub front: usize,
}

/// Whether a name is a parameter of the text.
pub fn is_parameter(text: &Text<'_>, name: &[u8]) -> bool
    requires { IsReady text.now }
    ensures { result ≡ is_some (summed.place_of text.now.formulas.params.now name.now) }
{
    place_of(&text.formulas, name).is_some()
}

// The first definition of a name.
fn first_place(text: &Text<'_>, name: &[u8]) -> Option<usize>
    requires { IsReady text.now }
    ensures { result ≡ places.place_of text.now.formulas.table.now name.now }
{
    definition_of(&text.formulas, name)
}

/// The definition that a name means where it is no parameter.
pub fn meant(text: &Text<'_>, name: &[u8]) -> Option<usize>
    requires { IsReady text.now }
    ensures { result ≡ spec.meant text.now.formulas.table.now text.now.front text.now.formulas.params.now name.now }
{
    if is_parameter(text, name) {
        None
    } else {
        first_place(text, name)
    }
}

/// How many parameters the definition at a place has.
pub fn arity_of(text: &Text<'_>, place: usize) -> usize
    ensures { result ≡ spec.arity_of text.now.formulas.table.now place }
{
    match sqlite_items::at(text.formulas.table, place) {
        Some(def) => def.params.len(),
        None => 0,
    }
}

/// The definition with parameters that a name means.
pub fn with_parameters(text: &Text<'_>, name: &[u8]) -> Option<usize>
    requires { IsReady text.now }
    ensures { result ≡ spec.with_parameters text.now.formulas.table.now text.now.front text.now.formulas.params.now (spec.meant text.now.formulas.table.now text.now.front text.now.formulas.params.now name.now) }
{
    let place = meant(text, name)?;
    if arity_of(text, place) == 0 {
        None
    } else {
        Some(place)
    }
}
