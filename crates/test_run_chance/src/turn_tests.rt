//! Whole runs of two trees of processes over disks of which one fails, at each of its calls in turn, without the pageout daemon and beside it.
use crate::forest_tests::{
    DAEMON, Forest, file_told, is_told, look_at_text, look_at_whole, make_forest,
};
use crate::random_tests::Chance;
use std::alloc::Global;
use std::sync::Wait;
use std::test::Fail;
use std::thread::Threads;
use test_run::{Fails, Left, NEVER, run_trial};

const SLOTS: u32 = 24;

/// The disk that fails.
#[derive(Clone, Copy)]
enum Failing {
    Files,
    Swap,
}

fn fails_at(disk: Failing, call: u64) -> Fails {
    match disk {
        Failing::Files => Fails {
            disk_0: call,
            ..NEVER
        },
        Failing::Swap => Fails {
            swap: call,
            ..NEVER
        },
    }
}

// How many transfers the disk was asked for.
fn transfers(disk: Failing, left: &Left) -> u64 {
    let (reads, writes) = match disk {
        Failing::Files => left.first,
        Failing::Swap => left.swap,
    };
    reads.saturating_add(writes)
}

const FAULT: &str = "fault: disk 0 0 1\n";

// Looks at a run whose file's page wasn't read back: what is told of the file ends before that page.
fn look_at_shown(
    rt: &(impl Threads + Wait + Sync),
    alloc: Global,
    call: u32,
    forest: &Forest,
    left: &Left,
) -> Result<(), Fail> {
    let Some(blocks) = left.disks.first() else {
        return Err(Fail::new(format_args!("call {call}: no disk")));
    };
    for pages in 0..3usize {
        let mut end = file_told(alloc, blocks, pages)?;
        end.push_str(FAULT)?;
        if left.text.ends_with(end.as_bytes()) {
            return look_at_text(rt, alloc, call, forest, left, &end);
        }
    }
    Err(Fail::new(format_args!("call {call}: the file")))
}

// Looks at how a run ended whose disk failed at this call.
fn look_at_end(
    rt: &(impl Threads + Wait + Sync),
    alloc: Global,
    call: u32,
    forest: &Forest,
    left: &Left,
) -> Result<(), Fail> {
    if !is_told(alloc, SLOTS, left.entries.as_slice())? {
        return Err(Fail::new(format_args!("call {call}: the history")));
    }
    match (left.status, left.fault) {
        (0, "none") => look_at_whole(rt, alloc, call, forest, SLOTS, left),
        (7, "opening") if left.entries.is_empty() && left.text.ends_with(FAULT.as_bytes()) => {
            Ok(())
        }
        (7, "closing") => look_at_text(rt, alloc, call, forest, left, FAULT),
        (7, "showing") => look_at_shown(rt, alloc, call, forest, left),
        (status, fault) => Err(Fail::new(format_args!("call {call}: {status}, {fault}"))),
    }
}

// Runs one script, while the disk fails at each of its calls in turn, until it has no more of them.
fn fail_in_turn(
    rt: &(impl Threads + Wait + Sync),
    alloc: Global,
    words: &str,
    disk: Failing,
) -> Result<(), Fail> {
    let forest = make_forest(alloc, &mut Chance { last: 57 }, 6, SLOTS, 70)?;
    for call in 1..400u32 {
        let fails = fails_at(disk, u64::from(call));
        let left = run_trial(rt, alloc, words, forest.script.as_bytes(), &fails)?;
        look_at_end(rt, alloc, call, &forest, &left)?;
        if transfers(disk, &left) < u64::from(call) {
            // The script has more pages than there are frames.
            return match call {
                0..=1 => Err(Fail::new(format_args!("the disk has {call} calls"))),
                _ => Ok(()),
            };
        }
    }
    Err(Fail::new("the disk has more calls"))
}

#[test]
fn the_files_disk_fails_at_each_call_in_turn(rt: HostRuntime) -> Result<(), Fail> {
    fail_in_turn(&rt, rt.alloc(), "--trace", Failing::Files)?;
    fail_in_turn(&rt, rt.alloc(), DAEMON, Failing::Files)
}

#[test]
fn the_swap_disk_fails_at_each_call_in_turn(rt: HostRuntime) -> Result<(), Fail> {
    fail_in_turn(&rt, rt.alloc(), "--trace", Failing::Swap)?;
    fail_in_turn(&rt, rt.alloc(), DAEMON, Failing::Swap)
}
