//! Whole runs whose transfers overlap: two that processes wait for, and one that a process waits for with a push of the pageout daemon.
use crate::gated_rack::{Event, Gate, GatedDisk, GatedRack};
use block_device::MemRack;
use std::alloc::{AllocError, Global};
use std::sync::Wait;
use std::test::Fail;
use std::thread::Threads;
use test_run::{NEVER, NO_WORDS, run_over};
use vm_run::Outcome;

// Each of two processes loads from a file on a disk of its own.
const PAIR: &[u8] = b"\
disk 0 blank 8
disk 1 blank 8
file a rw 0 1 41
file b rw 1 1 42
process
map 0x2000 4096 r shared a 0
load 0x2000 1
end
process
map 0x2000 4096 r shared b 0
load 0x2000 1
end
";

const PAIR_REPORT: &[u8] = b"\
process 1
6 map 0x00002000
7 load 0x41
8 exit ok
process 2
10 map 0x00002000
11 load 0x42
12 exit ok
file a 1
00000000 41
file b 1
00000000 42
";

// A process stores into a page that has to be pushed to swap, and loads from a file.
const PUSHED: &[u8] = b"\
frames 8
disk 0 blank 8
file a rw 0 1 41
process
map 0x2000 4096 rw private zero 0
store 0x2000 1 7
map 0x4000 4096 r shared a 0
load 0x4000 1
end
";

const PUSHED_REPORT: &[u8] = b"\
process 1
5 map 0x00002000
6 store ok
7 map 0x00004000
8 load 0x41
9 exit ok
file a 1
00000000 41
";

// Sixteen processes, of which each is the next one's parent, load from one page of a file. Each but the last one waits for its child then, and makes no call
// meanwhile; the last one loads from a file on another disk first.
fn waiters_script(alloc: Global) -> Result<String, AllocError> {
    let mut script = String::from_str(
        alloc,
        "\
disk 0 blank 8
disk 1 blank 8
file a rw 0 1 41
file b rw 1 1 42
process
map 0x2000 4096 r shared a 0
map 0x4000 4096 r shared b 0
",
    )?;
    for _ in 0..15 {
        script.push_str("fork\n")?;
    }
    script.push_str("load 0x4000 1\nload 0x2000 1\nend\n")?;
    for _ in 0..15 {
        script.push_str("load 0x2000 1\nwait\nend\n")?;
    }
    Ok(script)
}

fn waiters_report(alloc: Global) -> Result<String, AllocError> {
    let mut report = String::from_str(
        alloc,
        "\
process 1
6 map 0x00002000
7 map 0x00004000
8 fork 2
68 load 0x41
70 exit ok
",
    )?;
    for process in 2..16u32 {
        let fork = 7 + process;
        let back = 26 + 3 * (15 - process);
        let child = process + 1;
        report.push_str(&format!(in alloc; "process {process}\n{fork} fork {child}\n")?)?;
        report.push_str(&format!(in alloc; "{back} load 0x41\n{} exit ok\n", back + 2)?)?;
    }
    report.push_str(
        "\
process 16
23 load 0x42
24 load 0x41
25 exit ok
file a 1
00000000 41
file b 1
00000000 42
",
    )?;
    Ok(report)
}

// Whether a transfer ended before what it waited for had begun.
fn was_late(outcome: &Outcome<GatedDisk<'_>>) -> bool {
    outcome.disks.iter().any(|disk| disk.was_late)
}

// How a run over a rack of these gates ended, whether a transfer of it was late, and what it printed. The other disk's number is given.
pub(crate) fn run_gated(
    rt: &(impl Threads + Wait + Sync),
    alloc: Global,
    words: &str,
    script: &[u8],
    gates: (Gate<'_>, u32, Gate<'_>),
) -> Result<(u8, bool, Vec<u8>), AllocError> {
    let (first, other, second) = gates;
    let mut rack = GatedRack {
        rack: MemRack::new(alloc, Vec::new(alloc), Vec::new(alloc)),
        first,
        other,
        second,
    };
    let (outcome, text) = run_over(rt, alloc, words, script, &NEVER, &mut rack)?;
    Ok((outcome.status, was_late(&outcome), text))
}

// Each disk's first read of its file waits for the other's.
#[test]
fn transfers_of_two_processes_overlap(rt: HostRuntime) -> Result<(), Fail> {
    let (one, two) = (Event::new(), Event::new());
    let first = Gate::Read {
        begun: &one,
        until: &two,
    };
    let second = Gate::Read {
        begun: &two,
        until: &one,
    };
    let (status, late, text) = run_gated(&rt, rt.alloc(), NO_WORDS, PAIR, (first, 1, second))?;
    assert_eq!(rt; (status, late), (0, false));
    assert_eq!(rt; text.as_slice(), PAIR_REPORT);
    Ok(())
}

// The file disk's first read waits for a write to the swap disk.
#[test]
fn a_push_of_the_daemon_begins_during_a_read(rt: HostRuntime) -> Result<(), Fail> {
    let (one, two) = (Event::new(), Event::new());
    let first = Gate::Read {
        begun: &one,
        until: &two,
    };
    let second = Gate::Write { begun: &two };
    let (status, late, text) = run_gated(
        &rt,
        rt.alloc(),
        "--pageout\n1000000",
        PUSHED,
        (first, 8, second),
    )?;
    assert_eq!(rt; (status, late), (0, false));
    assert_eq!(rt; text.as_slice(), PUSHED_REPORT);
    Ok(())
}

// A process stores into a page of a file, loads from one on another disk, and then from another page of the first.
fn held_script(alloc: Global) -> Result<String, AllocError> {
    let mut script = String::from_str(
        alloc,
        "frames 8\ndisk 0 blank 8\ndisk 1 blank 8\nfile a rw 0 2 ",
    )?;
    for _byte in 0..4097 {
        script.push_str("41")?;
    }
    script.push_str(
        "
file b rw 1 1 42
process
map 0x2000 8192 rw shared a 0
map 0x8000 4096 r shared b 0
store 0x2000 1 0x07
load 0x8000 1
load 0x3000 1
end
",
    )?;
    Ok(script)
}

// The daemon's push of the stored page is held until the process has read from the other disk, and long enough for it to find the first disk out and to
// rest. Nobody else is there who would wake it then: so the run ends only where the end of the push does.
#[test]
fn who_waits_for_a_disk_of_the_daemon_is_woken(rt: HostRuntime) -> Result<(), Fail> {
    let (one, two, never) = (Event::new(), Event::new(), Event::new());
    let first = Gate::Held {
        was_read: false,
        begun: &one,
        until: &two,
        never: &never,
    };
    let second = Gate::Read {
        begun: &two,
        until: &one,
    };
    let script = held_script(rt.alloc())?;
    let (status, late, text) = run_gated(
        &rt,
        rt.alloc(),
        "--pageout\n1000000",
        script.as_bytes(),
        (first, 1, second),
    )?;
    assert_eq!(rt; (status, late), (0, false));
    let told: &[u8] = b"\
process 1
7 map 0x00002000
8 map 0x00008000
9 store ok
10 load 0x42
11 load 0x41
12 exit ok
file a 4097
";
    assert!(rt; text.starts_with(told));
    Ok(())
}

// Many wait for a page, whose read ends once the last one reads from another disk. The end of the read wakes one of them; a load that goes on then tells
// nothing, but passes the wake-up on, and there is nobody else who would: so the run ends only where each does.
#[test]
fn each_who_waits_for_a_page_is_woken(rt: HostRuntime) -> Result<(), Fail> {
    let alloc = rt.alloc();
    let (one, two) = (Event::new(), Event::new());
    let first = Gate::Read {
        begun: &one,
        until: &two,
    };
    let second = Gate::Read {
        begun: &two,
        until: &two,
    };
    let script = waiters_script(alloc)?;
    let report = waiters_report(alloc)?;
    let (status, late, text) = run_gated(
        &rt,
        alloc,
        NO_WORDS,
        script.as_bytes(),
        (first, 1, second),
    )?;
    assert_eq!(rt; (status, late), (0, false));
    assert_eq!(rt; text.as_slice(), report.as_bytes());
    Ok(())
}
