// What threads may share, and hand to one another.
use engine_face::{FormulaKey, Packed, StepList, ValueAnswer};
use names_list::Names;
use shared::Shared;
use sqlite_items::Items;
use std::test::Fail;
use value_cache::ValueKey;

fn crosses<T: Send + Sync>(_value: &T) {}

#[test]
fn keys_and_entries(rt: HostRuntime) -> Result<(), Fail> {
    let at = Packed::of_bytes(rt.alloc(), Items::new(rt.alloc()))?;
    crosses(&at);
    let key = FormulaKey::invariant(rt.alloc())?;
    crosses(&key);
    crosses(&ValueKey { at, key });
    let lists: StepList<Packed> = StepList {
        lists: Items::new(rt.alloc()),
    };
    crosses(&Shared::new(rt.alloc(), lists)?);
    crosses(&Shared::new(rt.alloc(), ValueAnswer::NotInitialised)?);
    Ok(())
}

#[test]
fn names(rt: HostRuntime) {
    crosses(&Names::none(rt.alloc()));
}
