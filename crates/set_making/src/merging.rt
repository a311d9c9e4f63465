ghost use Rattle.std.specs.Prelude.{◌≡◌, ◌++◌, IfOk, OnOk};
ghost use Rattle.ascending.specs.Ascending.{IsAscending, set_of};
ghost use Rattle.b_values.specs.Values.{value_cmp};

use b_values::{Value, order};
use sqlite_items::Items;
use std::alloc::{AllocError, Global};
use std::cmp::Ordering;

/// The ascending list with the members of two ascending lists, in time linear in their lengths.
pub fn merge(alloc: Global, xs: &[Value], ys: &[Value]) -> Result<Items<Value>, AllocError>
    requires left { IsAscending value_cmp xs.now }
    requires right { IsAscending value_cmp ys.now }
    ensures { IfOk result (λ zs. zs ≡ set_of value_cmp (xs.now ++ ys.now)) }
{
    let mut merged = Items::new(alloc);
    let mut i = 0;
    let mut j = 0;
    while i < xs.len() && j < ys.len() {
        let x = &xs[i];
        let y = &ys[j];
        match order(x, y) {
            Ordering::Less => {
                merged.push(x.share()?)?;
                i += 1;
            }
            Ordering::Equal => {
                merged.push(x.share()?)?;
                i += 1;
                j += 1;
            }
            Ordering::Greater => {
                merged.push(y.share()?)?;
                j += 1;
            }
        }
    }
    push_all(&mut merged, &xs[i..])?;
    push_all(&mut merged, &ys[j..])?;
    Ok(merged)
}

fn push_all(items: &mut Items<Value>, more: &[Value]) -> Result<(), AllocError>
    ensures { OnOk result (items.new ≡ items.old ++ more.now) }
{
    for x in more {
        items.push(x.share()?)?;
    }
    Ok(())
}
