//! Lines of a trace before its entries that are read back, and lines that are spelled otherwise.
use std::alloc::{AllocError, Global};
use std::test::Fail;
use trace_text::{OpeningLine, opening_of_line};

// What is told of a line: its kind by a letter, with its first number; nothing where it is no line.
fn told_of(line: &OpeningLine) -> (u8, u64) {
    match line {
        OpeningLine::Slots(slots) => (b's', u64::from(*slots)),
        OpeningLine::Disk(disk, _) => (b'd', u64::from(*disk)),
        OpeningLine::Root(process) => (b'r', u64::from(*process)),
        OpeningLine::File(head) => (b'f', u64::from(head.file)),
        OpeningLine::Piece(offset, _) => (b'p', u64::from(*offset)),
        OpeningLine::Entries(count) => (b'e', *count),
    }
}

fn make_told(alloc: Global, text: &str) -> Result<Option<(u8, u64)>, AllocError> {
    match opening_of_line(alloc, text.as_bytes())? {
        Some(line) => Ok(Some(told_of(&line))),
        None => Ok(None),
    }
}

#[test]
fn each_line_of_the_opening_part_is_read(rt: HostRuntime) -> Result<(), Fail> {
    let cases = [
        ("trace swap 64\n", b's', 64),
        ("trace swap 4294967295\n", b's', 4294967295),
        ("disk 7 8\n", b'd', 7),
        ("root 1\n", b'r', 1),
        ("file 0 a rw 0 5 1+2\n", b'f', 0),
        ("file 3 a.b-c_0 ro 1 0 \n", b'f', 3),
        ("file 1 b rw 7 8192 1+2,5+1,4294967295+0\n", b'f', 1),
        ("00000000 68656c6c6f\n", b'p', 0),
        (
            "00000fe0 0000000000000000000000000000000000000000000000000000000000000001\n",
            b'p',
            4064,
        ),
        ("entries 0\n", b'e', 0),
        ("entries 18446744073709551615\n", b'e', 18446744073709551615),
    ];
    for (line, kind, number) in cases {
        assert_eq!(rt;
            make_told(rt.alloc(), line)?,
            Some((kind, number)),
            "{line}"
        );
    }
    Ok(())
}

#[test]
fn other_lines_of_an_opening_part_tell_nothing(rt: HostRuntime) -> Result<(), Fail> {
    let lines = [
        "",
        "trace swap 64",
        "trace swap 064\n",
        "trace swap 4294967296\n",
        "trace swap 12345678901\n",
        "trace Swap 64\n",
        "disk 0  8\n",
        "disk 0 8 \n",
        "root -1\n",
        "file 0 abcdefghijklmnopq rw 0 5 1+2\n",
        "file 0 zero rw 0 5 1+2\n",
        "file 0  rw 0 5 1+2\n",
        "file 0 a wr 0 5 1+2\n",
        "file 0 a rw 0 5 1+2,\n",
        "file 0 a rw 0 5 1+2+3\n",
        "file 0 a rw 0 5\n",
        "00000000 68656C6C6F\n",
        "00000000 0000000000\n",
        "00000000 \n",
        "00000000 686\n",
        "0000000 68\n",
        "00000000 000000000000000000000000000000000000000000000000000000000000000001\n",
        "entries 04\n",
        "entries 18446744073709551616\n",
    ];
    for line in lines {
        assert_eq!(rt; make_told(rt.alloc(), line)?, None, "{line}");
    }
    Ok(())
}
