//! Words at their places, with values by hand.
use flat_model::{word_at, word_put};
use std::prelude::HostRuntime;
use std::test::Fail;

#[test]
fn words_lie_big_endian_at_their_places(rt: HostRuntime) -> Result<(), Fail> {
    let mut page = [0u8; 4096];
    word_put(&mut page, 0x1ffc, 4, 0x01020304);
    assert_eq!(rt;
        (page[4092], page[4093], page[4094], page[4095]),
        (1, 2, 3, 4)
    );
    word_put(&mut page, 0x1002, 2, 0xa0b0);
    word_put(&mut page, 0x1001, 1, 0xc0);
    assert_eq!(rt; (page[0], page[1], page[2], page[3]), (0, 0xc0, 0xa0, 0xb0));
    let read = [
        (0x1ffc, 4, 0x01020304),
        (0x1002, 2, 0xa0b0),
        (0x1003, 1, 0xb0),
        (0x1000, 4, 0xc0a0b0),
    ];
    for (addr, size, word) in read {
        assert_eq!(rt; word_at(&page, addr, size), word);
    }
    Ok(())
}
