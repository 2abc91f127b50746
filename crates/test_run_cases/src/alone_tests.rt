//! Runs without threads: which scripts need none, and what is printed of them.
use std::alloc::Global;
use std::test::Fail;
use test_run::{FIRST, NO_WORDS, REPORT, run_threadless};

// Words, a script, and what is told of its run: its status and its text; None where it needs threads.
type Case = (&'static str, &'static [u8], Option<(u8, &'static [u8])>);

const CASES: [Case; 10] = [
    (NO_WORDS, FIRST, Some((0, REPORT))),
    (NO_WORDS, b"", Some((0, b""))),
    ("--pageout\n0", FIRST, Some((0, REPORT))),
    ("--pageout\n1", FIRST, None),
    (NO_WORDS, b"process\nend\nprocess\nend\n", None),
    (NO_WORDS, b"process\nfork\nend\nend\n", None),
    (NO_WORDS, b"process\nwait\nend\n", None),
    (
        "--pageout\nx",
        FIRST,
        Some((2, b"usage: sunvm [--trace] [--pageout N] [--make N]\n")),
    ),
    (
        NO_WORDS,
        b"process\n",
        Some((3, b"script: line 2: place\n")),
    ),
    (
        NO_WORDS,
        b"frames 4\nprocess\nend\nprocess\nend\n",
        Some((4, b"setup: rule 1\n")),
    ),
];

fn tell(alloc: Global, cases: &[Case]) -> Result<(), Fail> {
    for (place, &(words, script, due)) in cases.iter().enumerate() {
        let told = run_threadless(alloc, words, script)?;
        let same = match (&told, due) {
            (None, None) => true,
            (Some((status, text)), Some((due, expected))) => {
                *status == due && text.as_slice() == expected
            }
            _ => false,
        };
        if !same {
            return Err(Fail::new(format_args!("{place}")));
        }
    }
    Ok(())
}

#[test]
fn a_script_that_needs_no_thread_is_run_without_one(rt: HostRuntime) -> Result<(), Fail> {
    tell(rt.alloc(), &CASES)
}
