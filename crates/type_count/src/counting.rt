ghost use Rattle.std.specs.Prelude.{◌≡◌, ◌<◌, ◌≤◌, length};
ghost use Rattle.type_table.specs.Tables.{IsTable};
ghost use Rattle.type_count.specs.Typings.{AreReadable, Counts, HasNumbered, IsTyping};
ghost use Rattle.type_count.specs.Spending.{Spends};
ghost use Rattle.type_count.specs.Counted.{IsCounted, Looks};

use type_table::{Row, root};

/// What is left of a budget once a part's type is read, and whether an open part stands in it.
#[derive(Clone, Copy, Debug, PartialEq, Eq)]
pub struct Rest {
    pub left: usize,
    pub open: bool,
}

/// What is left of a budget when a part's type is read, one for each node; None where no typing keeps to the budget.
#[tactic(auto, using(crate::proofs::Spending::nothing_left, crate::proofs::Spending::at_open, crate::proofs::Spending::at_basic, crate::proofs::Spending::at_set, crate::proofs::Spending::at_pair, crate::proofs::Spending::at_pair_first, crate::proofs::Spending::at_pair_second))]
pub fn spend(rows: &[Row], i: usize, budget: usize) -> Option<Rest>
    requires table { IsTable rows.now }
    requires inside { i < length rows.now }
    ensures { Spends rows.now i budget result }
{
    if budget == 0 {
        return None;
    }
    let end = root(rows, i);
    match rows[end] {
        Row::Open => Some(Rest {
            left: budget - 1,
            open: true,
        }),
        Row::Basic(_) => Some(Rest {
            left: budget - 1,
            open: false,
        }),
        Row::Set(j) => spend(rows, j, budget - 1),
        Row::Pair(j, k) => match spend(rows, j, budget - 1) {
            None => None,
            Some(first) => match spend(rows, k, first.left) {
                None => None,
                Some(second) => Some(Rest {
                    left: second.left,
                    open: first.open || second.open,
                }),
            },
        },
        Row::Same(_) => None,
    }
}

/// How many typings there are.
#[derive(Clone, Copy, Debug, PartialEq, Eq)]
pub enum Verdict {
    Nothing,
    One,
    Many,
}

/// Reads one row more, and says whether an open part was seen in a part. A link says nothing new.
#[tactic(auto, using(crate::proofs::Countings::count_open, crate::proofs::Countings::count_past, crate::proofs::Countings::count_shut, crate::proofs::Countings::count_link, crate::proofs::Countings::looked_none))]
fn look(rows: &[Row], i: usize, parts: usize, limit: usize, many: bool) -> Option<bool>
    requires table { IsTable rows.now }
    requires inside { i < length rows.now }
    requires counted { IsCounted limit parts rows.now i many }
    ensures { Looks limit parts rows.now i result }
{
    match rows[i] {
        Row::Same(_) => Some(many),
        _ => match spend(rows, i, limit) {
            None => None,
            Some(rest) => {
                if rest.open && i < parts {
                    Some(true)
                } else {
                    Some(many)
                }
            }
        },
    }
}

/// How many typings of its first rows, the parts, a table has, within a number of nodes for each type. It reads each
/// class once; after `flatten` each link is one step.
#[tactic(auto, using(crate::proofs::Countings::count_none))]
pub fn decide(rows: &[Row], parts: usize, limit: usize) -> Verdict
    requires table { IsTable rows.now }
    requires inside { parts ≤ length rows.now }
    ensures counted { Counts parts (IsTyping limit rows.now) result }
    ensures numbered { HasNumbered limit rows.now result }
    ensures readable { AreReadable limit parts rows.now result }
{
    let mut many = false;
    for i in 0..rows.len() {
        match look(rows, i, parts, limit, many) {
            None => return Verdict::Nothing,
            Some(seen) => many = seen,
        }
    }
    if many { Verdict::Many } else { Verdict::One }
}
