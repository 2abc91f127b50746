//! Blocks that break each rule of a table of files, and worked tables, byte by byte.
ghost use Rattle.std.specs.Prelude.{◌≡◌, ◌≤◌, length};

use std::alloc::{AllocError, Global};
use std::test::Fail;
use volume_format::{Extent, Extents, FileInfo, FileName, Table, decode, encode};

// A number at a place of a block.
pub(crate) type Word = (usize, u32);

// The first words of a table's block.
const MAGIC: Word = (0, 0x53554e56);

const SECOND: Word = (4, 0x4d564f4c);
// Past the block: no word.
const NONE: Word = (4096, 0);

// The file `a` of 5 bytes in blocks 1 and 2, and `b` of 8192 bytes in blocks 3 and 5.
pub(crate) const TWO_FILES: [Word; 20] = [
    MAGIC,
    SECOND,
    (8, 2),
    (12, 8),
    (16, 2),
    (20, 3),
    (32, 0x61000000),
    (48, 5),
    (56, 1),
    (60, 1),
    (64, 0x62000000),
    (80, 8192),
    (84, 1),
    (88, 2),
    (2080, 1),
    (2084, 2),
    (2088, 3),
    (2092, 1),
    (2096, 5),
    (2100, 1),
];

// The same `a`, and `b` of 4096 bytes in block 3, in version 1.
const TWO_OLD_FILES: [Word; 14] = [
    MAGIC,
    SECOND,
    (8, 1),
    (12, 8),
    (16, 2),
    (32, 0x61000000),
    (48, 5),
    (52, 1),
    (56, 2),
    (60, 1),
    (64, 0x62000000),
    (80, 4096),
    (84, 3),
    (88, 1),
];

pub(crate) fn put_words(block: &mut [u8], words: &[Word])
    requires { length block.old ≡ 4096 }
{
    for &(at, word) in words {
        if at <= 4092 {
            block[at..at + 4].copy_from_slice(&word.to_be_bytes());
        }
    }
}

// The rule that a block breaks, or 0 where it is a table.
fn told(alloc: Global, words: &[Word], changes: &[Word]) -> Result<u32, AllocError> {
    let mut block = [0u8; 4096];
    put_words(&mut block, words);
    put_words(&mut block, changes);
    match decode(alloc, &block, 8)? {
        Ok(_) => Ok(0),
        Err(bad) => Ok(bad.rule),
    }
}

#[test]
fn the_first_broken_rule_is_told(rt: HostRuntime) -> Result<(), Fail> {
    let alloc = rt.alloc();
    let cases: [(u32, Word, Word, Word); 46] = [
        (0, NONE, NONE, NONE),
        (1, (0, 0x53554e57), NONE, NONE),
        (1, (4, 0x4d564f4d), NONE, NONE),
        (1, (0, 0x53554e57), (8, 3), NONE),
        (2, (8, 3), NONE, NONE),
        (2, (8, 0), (12, 9), NONE),
        (3, (12, 9), NONE, NONE),
        (3, (12, 9), (16, 65), NONE),
        (4, (16, 65), NONE, NONE),
        (4, (16, 65), (20, 253), NONE),
        (14, (20, 253), NONE, NONE),
        (14, (20, 253), (24, 1), NONE),
        (5, (24, 1), NONE, NONE),
        (5, (28, 1), (64, 0x41000000), NONE),
        (6, (64, 0x41000000), NONE, NONE),
        (6, (64, 0), NONE, NONE),
        (6, (76, 1), NONE, NONE),
        (6, (64, 0x7a65726f), NONE, NONE),
        (6, (64, 0x41000000), (92, 2), NONE),
        (7, (92, 2), NONE, NONE),
        (7, (92, 2), (84, 0), NONE),
        (15, (84, 0), NONE, NONE),
        (15, (88, 0), NONE, NONE),
        (15, (88, 3), NONE, NONE),
        (15, (84, 0), (2092, 0), NONE),
        (16, (2088, 0), NONE, NONE),
        (16, (2100, 0), NONE, NONE),
        (16, (2096, 8), NONE, NONE),
        (16, (2096, 0xffffffff), (2100, 2), NONE),
        (16, (2096, 2), (2100, 0), NONE),
        (17, (2096, 2), NONE, NONE),
        (17, (2080, 4), (2084, 1), (2096, 4)),
        (18, (2096, 4), NONE, NONE),
        (18, (2096, 4), (80, 8193), NONE),
        (9, (80, 8193), NONE, NONE),
        (9, (80, 8193), (2080, 6), NONE),
        (10, (2080, 6), NONE, NONE),
        (10, (2080, 6), (64, 0x61000000), NONE),
        (11, (64, 0x61000000), NONE, NONE),
        (11, (64, 0x61000000), (20, 4), NONE),
        (19, (20, 4), NONE, NONE),
        (19, (20, 4), (96, 1), NONE),
        (12, (96, 1), NONE, NONE),
        (12, (2076, 1), NONE, NONE),
        (12, (2104, 1), NONE, NONE),
        (12, (4092, 1), NONE, NONE),
    ];
    for (rule, one, two, three) in cases {
        let changes = [one, two, three];
        assert_eq!(rt; told(alloc, &TWO_FILES, &changes)?, rule, "{one:?} {two:?}");
    }
    Ok(())
}

#[test]
fn the_first_broken_rule_of_version_1_is_told(rt: HostRuntime) -> Result<(), Fail> {
    let alloc = rt.alloc();
    let cases: [(u32, Word, Word, Word); 22] = [
        (0, NONE, NONE, NONE),
        (2, (8, 0), (12, 9), NONE),
        (3, (12, 9), (16, 65), NONE),
        (4, (16, 65), (20, 1), NONE),
        (5, (20, 1), NONE, NONE),
        (5, (28, 1), (64, 0x41000000), NONE),
        (6, (64, 0x41000000), (92, 2), NONE),
        (7, (92, 2), (84, 0), NONE),
        (8, (84, 0), NONE, NONE),
        (8, (88, 0), NONE, NONE),
        (8, (84, 8), NONE, NONE),
        (8, (84, 0xffffffff), (88, 2), NONE),
        (8, (88, 0), (80, 4097), NONE),
        (9, (80, 4097), NONE, NONE),
        (9, (80, 4097), (84, 2), NONE),
        (10, (84, 2), NONE, NONE),
        (10, (84, 2), (64, 0x61000000), NONE),
        (11, (64, 0x61000000), NONE, NONE),
        (11, (64, 0x61000000), (96, 1), NONE),
        (12, (96, 1), NONE, NONE),
        (12, (2080, 1), NONE, NONE),
        (12, (4092, 1), NONE, NONE),
    ];
    for (rule, one, two, three) in cases {
        let changes = [one, two, three];
        assert_eq!(rt;
            told(alloc, &TWO_OLD_FILES, &changes)?,
            rule,
            "{one:?} {two:?}"
        );
    }
    Ok(())
}

// The table of a disk of 8 blocks with the file `a` of 5 bytes, which may be written and has blocks 1 and 2, in either version.
const WORKED: &[u8; 64] = b"SUNVMVOL\0\0\0\x02\0\0\0\x08\0\0\0\x01\0\0\0\x01\0\0\0\0\0\0\0\0\
    a\0\0\0\0\0\0\0\0\0\0\0\0\0\0\0\0\0\0\x05\0\0\0\0\0\0\0\x01\0\0\0\x01";

const WORKED_OLD: &[u8; 64] = b"SUNVMVOL\0\0\0\x01\0\0\0\x08\0\0\0\x01\0\0\0\0\0\0\0\0\0\0\0\0\
    a\0\0\0\0\0\0\0\0\0\0\0\0\0\0\0\0\0\0\x05\0\0\0\x01\0\0\0\x02\0\0\0\x01";

// Whether the table has the one file of the worked blocks, and is written as this block.
fn is_worked(table: &Table, block: &[u8; 4096]) -> bool {
    let [file] = table.entries() else {
        return false;
    };
    let mut written = [255u8; 4096];
    encode(table, &mut written);
    file.name.bytes() == b"a".as_slice()
        && file.length == 5
        && file.writable
        && file.extents.list() == [Extent { start: 1, pages: 2 }].as_slice()
        && written == *block
}

// Whether a block is read as the worked table, and written as the other block.
fn is_read_and_written(
    alloc: Global,
    block: &[u8; 4096],
    written: &[u8; 4096],
) -> Result<bool, AllocError> {
    match decode(alloc, block, 8)? {
        Err(_) => Ok(false),
        Ok(table) => Ok(is_worked(&table, written)),
    }
}

#[test]
fn the_worked_tables_are_read_and_written(rt: HostRuntime) -> Result<(), Fail> {
    let mut second = [0u8; 4096];
    second[..64].copy_from_slice(WORKED);
    second[2080..2088].copy_from_slice(b"\0\0\0\x01\0\0\0\x02");
    let mut first = [0u8; 4096];
    first[..64].copy_from_slice(WORKED_OLD);
    assert!(rt; is_read_and_written(rt.alloc(), &second, &second)?);
    assert!(rt; is_read_and_written(rt.alloc(), &first, &second)?);
    Ok(())
}

#[test]
fn a_table_is_changed(rt: HostRuntime) -> Result<(), Fail> {
    let alloc = rt.alloc();
    let mut table = Table::new(alloc, 6);
    assert!(rt; table.place(6) == None && table.place(5) == Some(1));
    let file = FileInfo {
        name: FileName::new(b"a"),
        disk: 0,
        extents: Extents::new(alloc, &[Extent { start: 2, pages: 2 }])?,
        length: 5,
        writable: true,
    };
    table.add(file)?;
    assert!(rt; table.place(1) == Some(1) && table.place(2) == Some(4) && table.place(3) == None);
    let grown = Extents::new(
        alloc,
        &[Extent { start: 2, pages: 3 }, Extent { start: 1, pages: 1 }],
    )?;
    table.set(0, 16384, &grown)?;
    assert!(rt; table.place(1) == Some(5) && table.place(2) == None);
    assert!(rt; table.blocks() == 6 && table.entries()[0].length == 16384);
    Ok(())
}
