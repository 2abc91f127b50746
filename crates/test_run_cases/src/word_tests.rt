//! The words of the command, and what a run says that can't be made.
use command_line::{Inquiry, Options, Saying, file_word, read_words};
use std::test::Fail;
use test_run::{Fails, NEVER, NO_WORDS, run_trial, words_of};

fn run_of(
    trace: bool,
    pageout: u32,
    make: Option<u32>,
    check: bool,
    quiet: bool,
) -> Option<Saying> {
    Some(Saying::Options(Options {
        trace,
        pageout,
        make,
        check,
        quiet,
    }))
}

fn options(trace: bool, pageout: u32, make: Option<u32>) -> Option<Saying> {
    run_of(trace, pageout, make, false, false)
}

fn checking(trace: bool, pageout: u32, make: Option<u32>) -> Option<Saying> {
    run_of(trace, pageout, make, true, false)
}

const HELP: Option<Saying> = Some(Saying::Inquiry(Inquiry::Help));

const VERSION: Option<Saying> = Some(Saying::Inquiry(Inquiry::Version));

#[test]
fn words_are_taken_or_not(rt: HostRuntime) -> Result<(), Fail> {
    let cases: [(&str, Option<Saying>); 27] = [
        (NO_WORDS, options(false, 0, None)),
        ("--trace", options(true, 0, None)),
        ("--pageout\n1000000", options(false, 1_000_000, None)),
        (
            "--make=4294967295\n--trace",
            options(true, 0, Some(4_294_967_295)),
        ),
        ("--make\n0\n--pageout=007", options(false, 7, Some(0))),
        ("--check", checking(false, 0, None)),
        ("--make=3\n--check\n--trace", checking(true, 0, Some(3))),
        ("--quiet", run_of(false, 0, None, false, true)),
        ("--quiet\n--check", run_of(false, 0, None, true, true)),
        ("--help", HELP),
        ("-h", HELP),
        ("--version\n-h\n--trace", HELP),
        ("--version", VERSION),
        ("--pageout\n3\n--version", VERSION),
        ("--check=1", None),
        ("--pageout\n1000001", None),
        ("--make\n4294967296", None),
        ("--make=-1", None),
        ("--make=", None),
        ("--make", None),
        ("--trace=yes", None),
        ("--trace\n--trace", None),
        ("--help\n-h", None),
        ("-V", None),
        ("--version\n--pageout\nx", None),
        ("script", None),
        ("\n", None),
    ];
    for (lines, expected) in cases {
        let words = words_of(rt.alloc(), lines)?;
        assert_eq!(rt; read_words(rt.alloc(), &words)?, expected, "{lines:?}");
    }
    Ok(())
}

#[test]
fn a_word_is_a_file_where_it_is_no_option(rt: HostRuntime) -> Result<(), Fail> {
    let cases: [(&str, Option<usize>); 10] = [
        (NO_WORDS, None),
        ("a.vm", Some(0)),
        ("--trace\na.vm", Some(1)),
        ("--pageout\na.vm", None),
        ("--pageout\n5\na.vm", Some(2)),
        ("--pageout=5\na.vm", Some(1)),
        ("--make\n--make\na.vm\nb.vm", Some(2)),
        ("--\na.vm", Some(1)),
        ("-\n--", None),
        ("--check\n-x\n\na", Some(2)),
    ];
    for (lines, expected) in cases {
        let words = words_of(rt.alloc(), lines)?;
        assert_eq!(rt; file_word(&words), expected, "{lines:?}");
    }
    Ok(())
}

const ONE: &[u8] = b"process\nload 0x2001 1\nend\n";

const TWO: &[u8] = b"process\nend\nprocess\nend\n";

#[test]
fn what_is_asked_is_read_or_a_line_says_why_not(rt: HostRuntime) -> Result<(), Fail> {
    let cases: [(&str, &[u8], u64, u8, &[u8]); 11] = [
        (
            NO_WORDS,
            ONE,
            0,
            0,
            b"process 1\n2 load SEGV nomap\n3 exit ok\n",
        ),
        (
            "--make\n1",
            b"bad",
            1,
            0,
            b"make 1 entries 16832 signals 0 refusals 0 sum 4024264\n",
        ),
        (
            "now",
            ONE,
            0,
            2,
            b"usage: sunvm [--trace] [--pageout N] [--make N]\n",
        ),
        (NO_WORDS, b"process\nbad\n", 0, 3, b"script: line 2: word\n"),
        (
            NO_WORDS,
            TWO,
            0,
            0,
            b"process 1\n2 exit ok\nprocess 2\n4 exit ok\n",
        ),
        (
            NO_WORDS,
            b"process\nfork\nend\nend\n",
            0,
            0,
            b"process 1\n2 fork 2\n4 exit ok\nprocess 2\n3 exit ok\n",
        ),
        (
            NO_WORDS,
            b"frames 1\nprocess\nend\n",
            0,
            4,
            b"setup: rule 1\n",
        ),
        ("-h", ONE, 1, 0, Inquiry::Help.text()),
        (
            "--version",
            b"bad",
            1,
            0,
            b"sunvm 0.9.2, proved with rattle-kit-13f, logic dac8208d650f15bf\n",
        ),
        (NO_WORDS, ONE, 1, 5, b"script: read fault\n"),
        (NO_WORDS, ONE, 4, 5, b"script: read fault\n"),
    ];
    for (lines, script, fail_at, status, text) in cases {
        let fails = Fails {
            source: fail_at,
            ..NEVER
        };
        let left = run_trial(&rt, rt.alloc(), lines, script, &fails)?;
        assert_eq!(rt; left.status, status, "{lines:?}");
        assert_eq!(rt; left.text.as_slice(), text);
    }
    Ok(())
}

const SMALL: &[u8] = b"\
trace swap 64
disk 0 8
root 1
file 0 a rw 0 5 1+2
00000000 68656c6c6f
entries 4
1 0000000000000000 map 0x00002000 4096 rw shared file 0 0 = 0x00002000
1 0000000000000000 load 0x00002001 1 = 0x65
1 0000000000000000 store 0x00002000 1 0x4a = ok
1 0000000000000000 exit = ok
";

const WRONG_LOAD: &[u8] = b"\
trace swap 64
disk 0 8
root 1
file 0 a rw 0 5 1+2
00000000 68656c6c6f
entries 4
1 0000000000000000 map 0x00002000 4096 rw shared file 0 0 = 0x00002000
1 0000000000000000 load 0x00002001 1 = 0x66
1 0000000000000000 store 0x00002000 1 0x4a = ok
1 0000000000000000 exit = ok
";

const CUT_OFF: &[u8] = b"\
trace swap 64
disk 0 8
root 1
file 0 a rw 0 5 1+2
00000000 68656c6c6f
entries 4
1 0000000000000000 map 0x00002000 4096 rw shared file 0 0 = 0x00002000
1 0000000000000000 load 0x00002001 1 = 0x65
1 0000000000000000 store 0x00002000 1 0x4a = ok
";

#[test]
fn a_trace_is_checked_in_place_of_a_script(rt: HostRuntime) -> Result<(), Fail> {
    let cases: [(&str, &[u8], u64, u8, &[u8]); 6] = [
        ("--check", SMALL, 0, 0, b"trace: legal 4\n"),
        (
            "--make=1\n--check\n--trace",
            SMALL,
            0,
            0,
            b"trace: legal 4\n",
        ),
        ("--check", WRONG_LOAD, 0, 9, b"trace: entry 1\n"),
        ("--check", CUT_OFF, 0, 3, b"trace: line 10\n"),
        ("--check", b"", 0, 3, b"trace: line 1\n"),
        ("--check", SMALL, 1, 5, b"script: read fault\n"),
    ];
    for (lines, trace, fail_at, status, text) in cases {
        let fails = Fails {
            source: fail_at,
            ..NEVER
        };
        let left = run_trial(&rt, rt.alloc(), lines, trace, &fails)?;
        assert_eq!(rt; left.status, status, "{lines:?}");
        assert_eq!(rt; left.text.as_slice(), text);
    }
    Ok(())
}

#[test]
fn a_verdict_that_is_not_written_is_status_6(rt: HostRuntime) -> Result<(), Fail> {
    let cases: [(&[u8], u8); 2] = [(SMALL, 6), (CUT_OFF, 3)];
    let text: &[u8] = b"trace";
    for (trace, status) in cases {
        let fails = Fails { sink: 2, ..NEVER };
        let left = run_trial(&rt, rt.alloc(), "--check", trace, &fails)?;
        assert_eq!(rt; left.status, status);
        assert_eq!(rt; left.text.as_slice(), text);
    }
    Ok(())
}
