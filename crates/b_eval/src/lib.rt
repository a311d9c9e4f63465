//! The values of formulas. So far a formula is a sum of two integers.
#![tactic(auto)]

ghost use Rattle.std.specs.Prelude.{◌≡◌};
ghost use Rattle.b_eval.specs.Sums.{sum_at};

use b_values::{EvalFault, Text};

/// The value of `a + b`, whose `+` is the byte `at` of the machine's text.
pub fn add(a: i128, b: i128, at: u64) -> Result<i128, EvalFault>
    ensures { result ≡ sum_at a b at }
{
    match b_arith::add(a, b) {
        Ok(sum) => Ok(sum),
        Err(kind) => Err(EvalFault {
            kind,
            text: Text::Machine,
            at,
        }),
    }
}

#[cfg(test)]
mod tests {
    use super::*;
    use b_values::FaultKind;

    #[test]
    fn sums_and_their_faults(rt: HostRuntime) {
        assert_eq!(rt; add(5, 2, 108), Ok(7));
        let fault = EvalFault {
            kind: FaultKind::Overflow,
            text: Text::Machine,
            at: 108,
        };
        assert_eq!(rt; add(i128::MAX, 1, 108), Err(fault));
    }
}
