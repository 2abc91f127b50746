//! Names of two files and of swap come and go, with ample memory.

use page_hash::{PageHash, PageName};
use std::test::Fail;

#[test]
fn names_come_and_go(rt: HostRuntime) -> Result<(), Fail> {
    let seventh = PageName { object: 0, page: 7 };
    let other_file = PageName { object: 1, page: 7 };
    let swapped = PageName {
        object: 64,
        page: 65535,
    };
    let mut hash = PageHash::new(rt.alloc(), 3)?;
    assert_eq!(rt; hash.find(seventh), None);
    assert_eq!(rt; hash.name_of(2), None);
    hash.enter(seventh, 2);
    hash.enter(other_file, 0);
    assert_eq!(rt; hash.find(swapped), None);
    hash.enter(swapped, 1);
    for (name, held_by) in [(seventh, 2), (other_file, 0), (swapped, 1)] {
        assert_eq!(rt; hash.find(name), Some(held_by), "at frame {held_by}");
    }
    assert_eq!(rt; hash.name_of(0), Some(other_file));
    assert_eq!(rt; hash.remove(other_file), Some(0));
    assert_eq!(rt; hash.remove(other_file), None);
    assert_eq!(rt; hash.name_of(0), None);
    assert_eq!(rt; hash.find(seventh), Some(2));
    assert_eq!(rt; hash.find(swapped), Some(1));
    assert_eq!(rt; hash.remove(seventh), Some(2));
    hash.enter(seventh, 0);
    assert_eq!(rt; hash.find(seventh), Some(0));
    assert_eq!(rt; hash.name_of(1), Some(swapped));
    Ok(())
}
