ghost use Rattle.std.specs.Prelude.{◌≡◌, ◌+◌, length, slice_get, MatchResult};
ghost use Rattle.b_places.specs.Scopes.{slots_of};

use b_values::Value;

/// The values of the slots in scope. A binder adds those of its tuple without a copy of the others.
#[derive(Clone, Copy)]
pub enum Scope<'a> {
    Slots(&'a [Value]),
    Inside(&'a Scope<'a>, &'a [Value]),
}

/// The value of a slot, or how far past the last slot it is.
pub fn slot<'a>(scope: &Scope<'a>, i: usize) -> Result<&'a Value, usize>
    ensures { MatchResult result (λ v. slice_get (slots_of scope.now) i ≡ Some v.now) (λ past. length (slots_of scope.now) + past ≡ i) }
{
    match scope {
        Scope::Slots(values) => nth(values, i),
        Scope::Inside(outer, values) => match slot(outer, i) {
            Ok(v) => Ok(v),
            Err(past) => nth(values, past),
        },
    }
}

fn nth(values: &[Value], i: usize) -> Result<&Value, usize>
    ensures { MatchResult result (λ v. slice_get values.now i ≡ Some v.now) (λ past. length values.now + past ≡ i) }
{
    if i < values.len() {
        Ok(&values[i])
    } else {
        Err(i - values.len())
    }
}
