use super::*;
use std::test::Fail;

#[test]
fn puts_in_order_each_once(rt: HostRuntime) -> Result<(), Fail> {
    let alloc = rt.alloc();
    let mut items = [3u32, 1, 2, 3, 1].to_vec(alloc)?;
    make_ascending(&mut items);
    assert_eq!(rt; items.as_slice(), [1, 2, 3].as_slice());
    let mut none: Vec<u32> = Vec::new(alloc);
    make_ascending(&mut none);
    assert_eq!(rt; none.len(), 0);
    Ok(())
}

#[test]
fn finds_members(rt: HostRuntime) -> Result<(), Fail> {
    let alloc = rt.alloc();
    let mut none: Vec<u32> = Vec::new(alloc);
    make_ascending(&mut none);
    assert!(rt; !is_member(none.as_slice(), &1));
    let mut items = [9u32, 4, 1].to_vec(alloc)?;
    make_ascending(&mut items);
    for (x, is) in [
        (0, false),
        (1, true),
        (2, false),
        (4, true),
        (9, true),
        (10, false),
    ] {
        assert_eq!(rt; is_member(items.as_slice(), &x), is, "at {x}");
    }
    Ok(())
}
