//! The labels of a CASE.

ghost use Rattle.std.specs.Prelude.{◌≡◌, map, IfOk};
ghost use Rattle.std.specs.List.{AllByRecursion};
ghost use Rattle.b_meaning.specs.Meaning.{tuple_limit, value_of};
ghost use Rattle.b_places.specs.Scopes.{slots_of};
ghost use Rattle.b_rows.specs.Answers.{Means, bind};
ghost use Rattle.b_values.specs.Values.{IsKept};
ghost use Rattle.b_values.specs.Values as values;
ghost use Rattle.b_outcomes.specs.Outcomes as spec;

use b_meaning::eval;
use b_places::Scope;
use b_rows::EvalStop;
use b_tree::ExprTree;
use b_values::{Value, same_value};
use std::alloc::Global;

/// Whether one of the labels has this value. They are evaluated in order up to the first that has it.
pub(crate) fn has_label(
    alloc: Global,
    labels: &[ExprTree],
    v: &Value,
    env: &Scope<'_>,
) -> Result<bool, EvalStop>
    requires { AllByRecursion IsKept (slots_of env.now) }
    ensures { Means (spec.has_label (map (value_of tuple_limit) labels.now) v.now (slots_of env.now)) result }
{
    for label in labels {
        match is_label(alloc, label, v, env) {
            Ok(true) => return Ok(true),
            Ok(false) => {}
            Err(s) => return Err(s),
        }
    }
    Ok(false)
}

fn is_label(alloc: Global, label: &ExprTree, v: &Value, env: &Scope<'_>) -> Result<bool, EvalStop>
    requires { AllByRecursion IsKept (slots_of env.now) }
    ensures { Means (bind (value_of tuple_limit label.now (slots_of env.now)) (λ w. Ok (values.same_value w v.now))) result }
{
    match eval(alloc, label, env) {
        Ok(w) => Ok(same_value(&w, v)),
        Err(s) => Err(s),
    }
}
