//! Whether a table is in the order of use, and whether some definitions use one another in a circle.
ghost use Rattle.std.specs.Prelude.{◌≡◌, nat_lt};
ghost use Rattle.std.specs.List.{list_all};
ghost use Rattle.b_definitions.specs.Arranging.{ordered_from};
ghost use Rattle.b_definitions.specs.Uses as spec;

use sqlite_items::Items;

fn uses(rows: &[Items<usize>], from: usize, to: usize) -> bool
    ensures { result ≡ spec.uses rows.now from to }
{
    match sqlite_items::at(rows, from) {
        Some(row) => row.as_slice().iter().any(|k| *k == to),
        None => false,
    }
}

fn leads(rows: &[Items<usize>], from: usize, rest: &[usize], last: usize) -> bool
    ensures { result ≡ spec.leads rows.now from rest.now last }
{
    let mut at = from;
    for next in rest {
        if !uses(rows, at, *next) {
            return false;
        }
        at = *next;
    }
    uses(rows, at, last)
}

/// Whether each place of a list uses the next, and the last one the first.
pub fn is_circle(rows: &[Items<usize>], circle: &[usize]) -> bool
    ensures { result ≡ spec.is_circle rows.now circle.now }
{
    match circle {
        [] => false,
        [first, rest @ ..] => leads(rows, *first, rest, *first),
    }
}

fn all_before(row: &[usize], end: usize) -> bool
    ensures { result ≡ list_all (λ j. nat_lt j end) row.now }
{
    row.iter().all(|j| *j < end)
}

/// Whether each definition uses only those before it.
pub fn is_ordered(rows: &[Items<usize>]) -> bool
    ensures { result ≡ ordered_from 0 rows.now }
{
    for (i, row) in rows.iter().enumerate() {
        if !all_before(row.as_slice(), i) {
            return false;
        }
    }
    true
}
