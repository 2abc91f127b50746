//! Whole runs over disks that are mounted, that don't tell, or that hold much.
ghost use Rattle.std.specs.Prelude.{◌≤◌};

use block_device::Block;
use std::alloc::{AllocError, Global};
use std::test::Fail;
use test_run::{
    FIRST, Fails, NEVER, NO_WORDS, OLD_TABLE, REPORT, TABLE, Word, blocks_of, many_files,
    put_words, run_kept, run_trial, run_untold, script_of_file,
};

// The script that stores into sixteen pages of zero memory over six frames and loads them, and its report.
fn least_frames(alloc: Global, kind: &str) -> Result<(String, String), AllocError> {
    let head = "\
frames 6
swap 16
disk 0 blank 2
process
map 0x10000 65536 rw";
    let mut script = format!(in alloc; "{head} {kind} zero 0\n")?;
    let mut report = String::from_str(alloc, "process 1\n5 map 0x00010000\n")?;
    for k in 0..16_u32 {
        let line = format!(in alloc; "store 0x{:x} 4 0x{:x}\n", 0x1_0000 + 0x1000 * k, 0x100 + k)?;
        script.push_str(&line)?;
        report.push_str(&format!(in alloc; "{} store ok\n", 6 + k)?)?;
    }
    for k in 0..16_u32 {
        script.push_str(&format!(in alloc; "load 0x{:x} 4\n", 0x1_0000 + 0x1000 * k)?)?;
        report.push_str(&format!(in alloc; "{} load 0x{:08x}\n", 22 + k, 0x100 + k)?)?;
    }
    script.push_str("end\n")?;
    report.push_str("38 exit ok\n")?;
    Ok((script, report))
}

#[test]
fn zero_memory_goes_out_to_swap_and_comes_back(rt: HostRuntime) -> Result<(), Fail> {
    let alloc = rt.alloc();
    for kind in ["private", "shared"] {
        let (script, report) = least_frames(alloc, kind)?;
        let left = run_trial(&rt, alloc, NO_WORDS, script.as_bytes(), &NEVER)?;
        assert_eq!(rt; left.status, 0, "{kind}");
        assert_eq!(rt; left.text.as_slice(), report.as_bytes(), "{kind}");
        let (reads, writes) = left.swap;
        assert!(rt; writes >= 10 && reads >= 10, "{kind}");
    }
    Ok(())
}

// Three files in version 1, of which the last is cut off behind its name.
const THREE_FILES: [Word; 13] = [
    (0, 0x53554e56),
    (4, 0x4d564f4c),
    (8, 1),
    (12, 8),
    (16, 3),
    (32, 0x61000000),
    (52, 1),
    (56, 2),
    (64, 0x62000000),
    (84, 3),
    (88, 1),
    (96, 0x63000000),
    (100, 0),
];

const MANY_FILES: [Word; 5] = [
    (0, 0x53554e56),
    (4, 0x4d564f4c),
    (8, 1),
    (12, 8),
    (16, 0xffffffff),
];

#[test]
fn a_disk_whose_block_0_is_no_table_is_refused(rt: HostRuntime) -> Result<(), Fail> {
    let alloc = rt.alloc();
    let script = b"disk 0 path v\nprocess\nend\n";
    let cases: [(usize, u8, &[Word], &[u8]); 4] = [
        (8, 1, &[], b"setup: rule 9 disk 0 volume 1\n"),
        (1, 0, &[], b"setup: rule 9 disk 0 volume 0\n"),
        (8, 0, &THREE_FILES, b"setup: rule 9 disk 0 volume 8\n"),
        (8, 0, &MANY_FILES, b"setup: rule 9 disk 0 volume 4\n"),
    ];
    for (count, byte, words, expected) in cases {
        let blocks = blocks_of(alloc, count, byte, words)?;
        let left = run_kept(&rt, alloc, NO_WORDS, script, &NEVER, &blocks)?;
        assert_eq!(rt; left.status, 4);
        assert_eq!(rt; left.text.as_slice(), expected);
    }
    Ok(())
}

// The disk of the first path as version 1 says it.
fn old_disk(alloc: Global) -> Result<Vec<Block>, AllocError> {
    let mut blocks = blocks_of(alloc, 1, 0, &OLD_TABLE)?;
    blocks.append(&mut blocks_of(alloc, 1, 0, &[(0, 0x4a656c6c), (4, 0x6f000000)])?)?;
    blocks.append(&mut blocks_of(alloc, 6, 0, &[])?)?;
    Ok(blocks)
}

// The disk of the first path is mounted again: its file is read, and mapped; and then its like with a table of version 1: the
// table tells the file, and a table of version 2 is written.
#[test]
fn a_disk_that_was_closed_is_mounted_again(rt: HostRuntime) -> Result<(), Fail> {
    let alloc = rt.alloc();
    let mut left = run_trial(&rt, alloc, NO_WORDS, FIRST, &NEVER)?;
    let Some(closed) = left.disks.pop() else {
        return Err(Fail::new("the disk came back"));
    };
    let read = b"disk 0 path v\nprocess\nread a 0 16\nend\n";
    let shown = run_kept(&rt, alloc, NO_WORDS, read, &NEVER, &closed)?;
    assert_eq!(rt; shown.status, 0);
    assert_eq!(rt;
        shown.text.as_slice(),
        b"\
process 1
3 read 5 4a656c6c6f
4 exit ok
file a 5
00000000 4a656c6c6f
"
            .as_slice()
    );
    let again = b"\
disk 0 path v
process
map 0x2000 4096 r shared a 0
load 0x2000 1
end
";
    let mut table = [0; 4096];
    put_words(&mut table, &TABLE);
    for blocks in vec![in alloc; closed, old_disk(alloc)?]? {
        let mut left = run_kept(&rt, alloc, NO_WORDS, again, &NEVER, &blocks)?;
        assert_eq!(rt; left.status, 0);
        assert_eq!(rt;
            left.text.as_slice(),
            b"\
process 1
3 map 0x00002000
4 load 0x4a
5 exit ok
file a 5
00000000 4a656c6c6f
"
                .as_slice()
        );
        let Some(blocks) = left.disks.pop() else {
            return Err(Fail::new("the disk came back"));
        };
        assert_eq!(rt; blocks.len(), 8);
        assert!(rt; blocks[0].bytes == table, "the table");
    }
    Ok(())
}

#[test]
fn a_run_is_the_same_over_disks_that_tell_nothing(rt: HostRuntime) -> Result<(), Fail> {
    let (status, text) = run_untold(&rt, rt.alloc(), FIRST)?;
    assert_eq!(rt; status, 0);
    assert_eq!(rt; text.as_slice(), REPORT);
    Ok(())
}

// So many lines of such a file, of 32 bytes each.
fn long_lines(alloc: Global, count: u32) -> Result<String, AllocError>
    requires { count ≤ 128 }
{
    let mut lines = String::new(alloc);
    for line in 0..count {
        lines.push_str(&format!(in alloc; "{:08x} ", 32 * line)?)?;
        for _ in 0..32 {
            lines.push_str("41")?;
        }
        lines.push_str("\n")?;
    }
    Ok(lines)
}

#[test]
fn a_script_that_is_too_long_or_has_too_many_files_is_told(rt: HostRuntime) -> Result<(), Fail> {
    let alloc = rt.alloc();
    let long = vec![in alloc; b' '; 1_048_577]?;
    let left = run_trial(&rt, alloc, NO_WORDS, long.as_slice(), &NEVER)?;
    assert_eq!(rt; left.status, 3);
    assert_eq!(rt; left.text.as_slice(), b"script: line 0: long\n".as_slice());
    for (count, expected) in [(64, 0), (65, 4)] {
        let script = many_files(alloc, count)?;
        let left = run_trial(&rt, alloc, NO_WORDS, script.as_bytes(), &NEVER)?;
        assert_eq!(rt; left.status, expected, "{count} files");
        assert!(rt;
            left.status == 0 || left.text.as_slice() == b"setup: rule 10\n".as_slice(),
            "{count} files"
        );
    }
    Ok(())
}

// A file of two pages: the first page's lines stand before the fault of the second.
#[test]
fn a_file_is_shown_page_by_page(rt: HostRuntime) -> Result<(), Fail> {
    let alloc = rt.alloc();
    let mut script = script_of_file(alloc, 4100)?;
    script.push_str("end\n")?;
    let first = long_lines(alloc, 128)?;
    let head = "process 1\n4 exit ok\nfile c 4100\n";
    for (disk_0, tail) in [(0, "00001000 41414141\n"), (6, "fault: disk 0 0 1\n")] {
        let fails = Fails { disk_0, ..NEVER };
        let left = run_trial(&rt, alloc, NO_WORDS, script.as_bytes(), &fails)?;
        let expected = format!(in alloc; "{head}{first}{tail}")?;
        assert_eq!(rt; left.status, if disk_0 == 0 { 0 } else { 7 });
        assert_eq!(rt; left.text.as_slice(), expected.as_bytes());
    }
    Ok(())
}
