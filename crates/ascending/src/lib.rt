//! Strictly ascending lists under a total order: what they are, their laws, and the making and searching of them.
#![tactic(auto)]

ghost use Rattle.std.specs.Prelude.{◌≡◌, ◌↔◌, IsTrue};
ghost use Rattle.std.specs.FinSet.{IsAntisymmetric};
ghost use Rattle.ascending.specs.Ascending.{In, IsAscending, set_of};

/// Puts the elements in order, each once. It takes no memory.
pub fn make_ascending<T: Ord + Drop>(items: &mut Vec<T>)
    requires { IsAntisymmetric T.cmp }
    ensures set { items.new.items ≡ set_of T.cmp items.old.items }
    ensures ascends { IsAscending T.cmp items.new.items }
{
    items.sort_unstable();
    items.dedup();
}

/// Whether an ascending list has the element, by a binary search.
pub fn is_member<T: Ord>(items: &[T], x: &T) -> bool
    requires one { IsAntisymmetric T.cmp }
    requires ascends { IsAscending T.cmp items.now }
    ensures { IsTrue result ↔ In x.now items.now }
{
    items.binary_search(x).is_ok()
}

#[cfg(test)]
mod tests;
