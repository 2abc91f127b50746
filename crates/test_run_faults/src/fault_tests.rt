//! The first path over a sink and a source that fail at each of their calls in turn, and how many transfers it makes.
use std::test::Fail;
use test_run::{FIRST, Fails, NEVER, NO_WORDS, REPORT, TRACE, run_trial};

const AGAIN: &[u8] = b"\
disk 0 blank 8
file a rw 0 2 68656c6c6f
process
map 0x2000 4096 rw shared a 0
load 0x2001 1
load 0x2001 1
store 0x2000 1 0x4a
end
";

#[test]
fn a_load_that_finds_its_page_makes_no_transfer(rt: HostRuntime) -> Result<(), Fail> {
    for script in [FIRST, AGAIN] {
        let left = run_trial(&rt, rt.alloc(), NO_WORDS, script, &NEVER)?;
        assert_eq!(rt; (left.first, left.disks.len()), ((3, 3), 1));
        assert_eq!(rt; left.status, 0);
    }
    Ok(())
}

// A sink that fails at each of its calls in turn has a front of the text, each time a longer one.
#[test]
fn a_sink_that_fails_has_a_front_of_the_text(rt: HostRuntime) -> Result<(), Fail> {
    let mut before = 0;
    for sink in 1..400 {
        let fails = Fails { sink, ..NEVER };
        let left = run_trial(&rt, rt.alloc(), "--trace", FIRST, &fails)?;
        let count = left.text.len();
        assert!(rt; TRACE.starts_with(left.text.as_slice()), "call {sink}");
        if left.status == 0 {
            assert_eq!(rt; count, TRACE.len(), "all was taken");
            assert!(rt; sink > 70, "5 bytes a call");
            return Ok(());
        }
        assert_eq!(rt; left.status, 6, "call {sink}");
        assert!(rt; sink == 1 || before < count, "call {sink}");
        assert_eq!(rt; left.disks.len(), 1, "call {sink}");
        before = count;
    }
    Err(Fail::new("the text has fewer calls"))
}

// A source that fails at each of its calls in turn.
#[test]
fn a_source_that_fails_ends_the_run(rt: HostRuntime) -> Result<(), Fail> {
    for source in 1..400 {
        let fails = Fails { source, ..NEVER };
        let left = run_trial(&rt, rt.alloc(), NO_WORDS, FIRST, &fails)?;
        if left.status == 0 {
            assert_eq!(rt; left.text.as_slice(), REPORT);
            assert!(rt; source > FIRST.len() as u64 / 7, "7 bytes a call");
            return Ok(());
        }
        assert_eq!(rt; (left.status, left.disks.len()), (5, 0), "call {source}");
        assert_eq!(rt; left.text.as_slice(), b"script: read fault\n".as_slice());
    }
    Err(Fail::new("the script has fewer calls"))
}
