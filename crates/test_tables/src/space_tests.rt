//! Each call once, with ample memory, at numbered pieces.
use addr_space::Ranges;
use std::test::Fail;

// What `find` answers, with the piece by value.
fn found(ranges: &Ranges<u8>, page: u32) -> Option<(u32, u32, u8)> {
    let (first, pages, piece) = ranges.find(page)?;
    Some((first, pages, *piece))
}

#[test]
fn pieces_are_found_cut_and_taken_out(rt: HostRuntime) -> Result<(), Fail> {
    let mut ranges = Ranges::new(rt.alloc());
    assert_eq!(rt; ranges.gap(0x7ffff), Some(1));
    assert_eq!(rt; ranges.gap(0x80000), None);
    ranges.reserve(3)?;

    // Pages 4 to 7, then 10 and 11 behind a hole.
    ranges.insert(4, 4, 40);
    ranges.insert(10, 2, 100);
    assert_eq!(rt; ranges.pages(), 6);
    let looks = [
        (3, None),
        (4, Some((4, 4, 40))),
        (7, Some((4, 4, 40))),
        (8, None),
        (9, None),
        (10, Some((10, 2, 100))),
        (11, Some((10, 2, 100))),
        (12, None),
        (0xffff_ffff, None),
    ];
    for (page, answer) in looks {
        assert_eq!(rt; found(&ranges, page), answer, "page {page}");
    }

    let nexts = [
        (0, Some(4)),
        (4, Some(4)),
        (5, Some(10)),
        (10, Some(10)),
        (11, None),
    ];
    for (page, answer) in nexts {
        assert_eq!(rt; ranges.next(page), answer, "from page {page}");
    }

    let gaps = [
        (0, Some(1)),
        (3, Some(1)),
        (4, Some(12)),
        (2, Some(1)),
        (0x7fff4, Some(12)),
        (0x7fff5, None),
    ];
    for (pages, answer) in gaps {
        assert_eq!(rt; ranges.gap(pages), answer, "{pages} pages");
    }

    ranges.split_at(6, 60);
    assert_eq!(rt; ranges.pages(), 6);
    let halves = [
        (4, Some((4, 2, 40))),
        (5, Some((4, 2, 40))),
        (6, Some((6, 2, 60))),
        (7, Some((6, 2, 60))),
        (8, None),
    ];
    for (page, answer) in halves {
        assert_eq!(rt;
            found(&ranges, page),
            answer,
            "page {page} of the cut piece"
        );
    }

    if let Some(piece) = ranges.find_mut(7) {
        *piece = 61;
    }
    assert_eq!(rt; found(&ranges, 6), Some((6, 2, 61)));
    assert_eq!(rt; found(&ranges, 5), Some((4, 2, 40)));

    assert_eq!(rt; ranges.remove(5), None);
    assert_eq!(rt; ranges.remove(4), Some(40));
    assert_eq!(rt; ranges.pages(), 4);
    assert_eq!(rt; ranges.remove(4), None);
    assert_eq!(rt; ranges.gap(5), Some(1));
    assert_eq!(rt; found(&ranges, 6), Some((6, 2, 61)));
    Ok(())
}
