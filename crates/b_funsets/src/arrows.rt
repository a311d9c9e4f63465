ghost use Rattle.std.specs.Prelude.{◌≡◌, ◌↔◌, IfOk};
ghost use Rattle.ascending.specs.Ascending.{In};
ghost use Rattle.b_values.specs.Values.{elements, IsKept};
ghost use Rattle.set_making.specs.Making.{Answers};
ghost use Rattle.b_funsets.specs.Arrows.{relations_that, partial_row, partial_inj_row, partial_surj_row, total_row, total_inj_row, total_surj_row, bijections_row, IsPartialFunction, IsPartialInjection, IsPartialSurjection, IsTotalFunction, IsTotalInjection, IsTotalSurjection, IsBijection};
ghost use Rattle.b_funsets.specs.Levels.{is_such, IsSuch};

use crate::levels::{Arrow, functions, sets_of};
use b_values::Value;
use set_making::{OpFault, set_with};
use std::alloc::Global;

const PARTIAL: Arrow = Arrow {
    total: false,
    one_to_one: false,
    onto: false,
};

const PARTIAL_INJ: Arrow = Arrow {
    total: false,
    one_to_one: true,
    onto: false,
};

const PARTIAL_SURJ: Arrow = Arrow {
    total: false,
    one_to_one: false,
    onto: true,
};

const TOTAL: Arrow = Arrow {
    total: true,
    one_to_one: false,
    onto: false,
};

pub const TOTAL_INJ: Arrow = Arrow {
    total: true,
    one_to_one: true,
    onto: false,
};

const TOTAL_SURJ: Arrow = Arrow {
    total: true,
    one_to_one: false,
    onto: true,
};

const BIJECTION: Arrow = Arrow {
    total: true,
    one_to_one: true,
    onto: true,
};

/// `S +-> T`: the functions from S to T.
pub fn partial(alloc: Global, s: &Value, t: &Value) -> Result<Value, OpFault>
    requires left { IsKept s.now }
    requires right { IsKept t.now }
    ensures value { Answers (partial_row s.now t.now) result }
    ensures kept { IfOk result (λ v. IsKept v) }
    ensures members { IfOk result (λ v. (x : Value) → In x (elements v) ↔ IsPartialFunction s.now t.now x) }
{
    functions_of(alloc, PARTIAL, s, t)
}

/// `S >+> T`: the one-to-one functions from S to T.
pub fn partial_inj(alloc: Global, s: &Value, t: &Value) -> Result<Value, OpFault>
    requires left { IsKept s.now }
    requires right { IsKept t.now }
    ensures value { Answers (partial_inj_row s.now t.now) result }
    ensures kept { IfOk result (λ v. IsKept v) }
    ensures members { IfOk result (λ v. (x : Value) → In x (elements v) ↔ IsPartialInjection s.now t.now x) }
{
    functions_of(alloc, PARTIAL_INJ, s, t)
}

/// `S +->> T`: the functions from S onto T.
pub fn partial_surj(alloc: Global, s: &Value, t: &Value) -> Result<Value, OpFault>
    requires left { IsKept s.now }
    requires right { IsKept t.now }
    ensures value { Answers (partial_surj_row s.now t.now) result }
    ensures kept { IfOk result (λ v. IsKept v) }
    ensures members { IfOk result (λ v. (x : Value) → In x (elements v) ↔ IsPartialSurjection s.now t.now x) }
{
    functions_of(alloc, PARTIAL_SURJ, s, t)
}

/// `S --> T`: the total functions from S to T.
pub fn total(alloc: Global, s: &Value, t: &Value) -> Result<Value, OpFault>
    requires left { IsKept s.now }
    requires right { IsKept t.now }
    ensures value { Answers (total_row s.now t.now) result }
    ensures kept { IfOk result (λ v. IsKept v) }
    ensures members { IfOk result (λ v. (x : Value) → In x (elements v) ↔ IsTotalFunction s.now t.now x) }
{
    functions_of(alloc, TOTAL, s, t)
}

/// `S >-> T`: the one-to-one total functions from S to T.
pub fn total_inj(alloc: Global, s: &Value, t: &Value) -> Result<Value, OpFault>
    requires left { IsKept s.now }
    requires right { IsKept t.now }
    ensures value { Answers (total_inj_row s.now t.now) result }
    ensures kept { IfOk result (λ v. IsKept v) }
    ensures members { IfOk result (λ v. (x : Value) → In x (elements v) ↔ IsTotalInjection s.now t.now x) }
{
    functions_of(alloc, TOTAL_INJ, s, t)
}

/// `S -->> T`: the total functions from S onto T.
pub fn total_surj(alloc: Global, s: &Value, t: &Value) -> Result<Value, OpFault>
    requires left { IsKept s.now }
    requires right { IsKept t.now }
    ensures value { Answers (total_surj_row s.now t.now) result }
    ensures kept { IfOk result (λ v. IsKept v) }
    ensures members { IfOk result (λ v. (x : Value) → In x (elements v) ↔ IsTotalSurjection s.now t.now x) }
{
    functions_of(alloc, TOTAL_SURJ, s, t)
}

/// `S >->> T`: the bijections from S to T.
pub fn bijections(alloc: Global, s: &Value, t: &Value) -> Result<Value, OpFault>
    requires left { IsKept s.now }
    requires right { IsKept t.now }
    ensures value { Answers (bijections_row s.now t.now) result }
    ensures kept { IfOk result (λ v. IsKept v) }
    ensures members { IfOk result (λ v. (x : Value) → In x (elements v) ↔ IsBijection s.now t.now x) }
{
    functions_of(alloc, BIJECTION, s, t)
}

fn functions_of(alloc: Global, a: Arrow, s: &Value, t: &Value) -> Result<Value, OpFault>
    requires left { IsKept s.now }
    requires right { IsKept t.now }
    ensures value { Answers (relations_that (is_such a (elements s.now) (elements t.now)) s.now t.now) result }
    ensures kept { IfOk result (λ v. IsKept v) }
    ensures members { IfOk result (λ v. (x : Value) → In x (elements v) ↔ IsSuch a s.now t.now x) }
{
    match functions(alloc, a, s.members(), t.members()) {
        Ok(rows) => match sets_of(alloc, rows) {
            Ok(sets) => set_with(alloc, sets),
            Err(_) => Err(OpFault::Memory),
        },
        Err(fault) => Err(fault),
    }
}
