use page_lists::{PageLists, Taken};
use std::test::Fail;

fn taken(frame: u32, cached: bool) -> Option<Taken> {
    Some(Taken { frame, cached })
}

#[test]
fn frames_go_round(rt: HostRuntime) -> Result<(), Fail> {
    let mut lists = PageLists::new(rt.alloc(), 3)?;
    assert_eq!(rt; lists.first_listed(), Some(0));
    for frame in 0..3 {
        assert!(rt; lists.listed(frame));
    }
    assert_eq!(rt; lists.take(), taken(0, false));
    assert_eq!(rt; lists.take(), taken(1, false));
    assert_eq!(rt; lists.take(), taken(2, false));
    assert!(rt; !lists.is_available());
    assert_eq!(rt; lists.first_listed(), None);
    assert!(rt; !lists.listed(1));
    lists.cache(1);
    assert!(rt; !lists.listed(0));
    lists.cache(0);
    assert!(rt; !lists.listed(2));
    lists.free(2);
    assert!(rt; lists.reclaim(0));
    assert!(rt; !lists.reclaim(2));
    assert!(rt; !lists.listed(0));
    assert!(rt; lists.listed(1));
    assert!(rt; lists.is_available());
    assert_eq!(rt; lists.take(), taken(2, false));
    assert_eq!(rt; lists.take(), taken(1, true));
    assert_eq!(rt; lists.take(), None);
    Ok(())
}
