//! Whole runs of several processes on threads: children and their children, forks that are refused, and two that share a file. What is compared doesn't hang on
//! the order in which the threads run; their histories are those of flat memory, in whatever order their entries stand.
ghost use Rattle.std.specs.Prelude.{◌≤◌};

use flat_state::FlatState;
use std::alloc::{AllocError, Global};
use std::sync::Wait;
use std::test::Fail;
use std::thread::Threads;
use test_run::{Left, NEVER, NO_WORDS, replays, run_trial};
use vm_types::{Call, Entry, ends_call};

// A parent and its child each store into their page.
const BOTH_SIDES: &[u8] = b"\
process
map 0x2000 4096 rw private zero 0
store 0x2000 1 0x11
fork
store 0x2000 1 0x22
load 0x2000 1
end
store 0x2000 1 0x33
load 0x2000 1
end
";

// What a child stores is its parent's too where the memory is shared, and isn't where it is private.
const SHARED_AND_PRIVATE: &[u8] = b"\
process
map 0x2000 4096 rw shared zero 0
map 0x4000 4096 rw private zero 0
fork
store 0x2000 1 7
store 0x4000 1 7
end
wait
load 0x2000 1
load 0x4000 1
end
";

// Pages that are reserved and not used count for a fork.
const RESERVED: &[u8] = b"\
swap 6
process
map 0x2000 16384 rw private zero 0
fork
end
unmap 0x5000 4096
fork
end
end
";

// The first fork is refused, and with it the one in its block; the second is done, and so is the one in its block.
const REFUSED: &[u8] = b"\
swap 6
process
map 0x2000 16384 rw private zero 0
store 0x2000 1 9
fork
fork
load 0x2000 1
end
end
unmap 0x4000 8192
fork
store 0x2000 1 4
fork
load 0x2000 1
end
load 0x2000 1
end
wait
load 0x2000 1
end
";

// Nobody waits for the two children.
const TWO_CHILDREN: &[u8] = b"process\nfork\nend\nfork\nload 0x2000 1\nend\nend\n";

/// A script of one process and its children that names no file, over so many slots, beside its report, and what a check says of
/// its trace.
#[derive(Clone, Copy)]
struct Tree {
    name: &'static str,
    slots: u32,
    script: &'static [u8],
    text: &'static [u8],
    verdict: &'static [u8],
}

const TREES: [Tree; 5] = [
    Tree {
        name: "copy on write, both sides",
        slots: 64,
        script: BOTH_SIDES,
        text: b"\
process 1
2 map 0x00002000
3 store ok
4 fork 2
8 store ok
9 load 0x33
10 exit ok
process 2
5 store ok
6 load 0x22
7 exit ok
",
        verdict: b"trace: legal 9\n",
    },
    Tree {
        name: "shared and private zero memory",
        slots: 64,
        script: SHARED_AND_PRIVATE,
        text: b"\
process 1
2 map 0x00002000
3 map 0x00004000
4 fork 2
9 load 0x07
10 load 0x00
11 exit ok
process 2
5 store ok
6 store ok
7 exit ok
",
        verdict: b"trace: legal 9\n",
    },
    Tree {
        name: "reserved and not used",
        slots: 6,
        script: RESERVED,
        text: b"\
process 1
3 map 0x00002000
4 fork error 3 NoSwap
6 unmap ok
7 fork 3
9 exit ok
process 2 not born
process 3
8 exit ok
",
        verdict: b"trace: legal 6\n",
    },
    Tree {
        name: "a fork that is refused",
        slots: 6,
        script: REFUSED,
        text: b"\
process 1
3 map 0x00002000
4 store ok
5 fork error 3 NoSwap
10 unmap ok
11 fork 4
19 load 0x09
20 exit ok
process 2 not born
process 3 not born
process 4
12 store ok
13 fork 5
16 load 0x04
17 exit ok
process 5
14 load 0x04
15 exit ok
",
        verdict: b"trace: legal 13\n",
    },
    Tree {
        name: "two children",
        slots: 64,
        script: TWO_CHILDREN,
        text: b"\
process 1
2 fork 2
4 fork 3
7 exit ok
process 2
3 exit ok
process 3
5 load SEGV nomap
6 exit ok
",
        verdict: b"trace: legal 6\n",
    },
];

/// Turns of the pageout daemon, beside the processes.
const DAEMON: &str = "--pageout\n300";

// Flat memory as process 1 begins alone.
fn opened(alloc: Global, slots: u32) -> Result<FlatState, AllocError> {
    let mut flat = FlatState::new(alloc, slots);
    flat.root(1)?;
    Ok(flat)
}

// Flat memory as two processes begin, with a file of one page of zeros.
fn opened_for_two(alloc: Global) -> Result<FlatState, AllocError> {
    let mut flat = FlatState::new(alloc, 64);
    flat.disk(0, 8)?;
    flat.file(4096, 0, &[(1, 1)], true, &[0u8; 4096])?;
    flat.root(1)?;
    flat.root(2)?;
    Ok(flat)
}

// Looks at what a run printed, and at its history, which begins with this flat memory.
fn look_at(left: &Left, name: &str, text: &[u8], flat: FlatState) -> Result<(), Fail> {
    let mut flat = flat;
    if left.status != 0 || left.text.as_slice() != text {
        let status = left.status;
        return Err(Fail::new(format_args!("{name}: {status}, or the text")));
    }
    if !replays(&mut flat, left.entries.as_slice())? {
        return Err(Fail::new(format_args!("{name}: the history")));
    }
    Ok(())
}

/// Runs a script with a trace, beside turns of the pageout daemon, and checks what was printed before this report.
pub(crate) fn look_at_trace(
    rt: &(impl Threads + Wait + Sync),
    alloc: Global,
    script: &[u8],
    report: &[u8],
    verdict: &[u8],
) -> Result<(), Fail> {
    let left = run_trial(rt, alloc, "--trace\n--pageout\n500", script, &NEVER)?;
    let printed = left.text.as_slice();
    if left.status != 0 || printed.len() < report.len() {
        return Err(Fail::new(format_args!("no trace was printed")));
    }
    let (trace, rest) = printed.split_at(printed.len() - report.len());
    let checked = run_trial(rt, alloc, "--check", trace, &NEVER)?;
    if rest != report || checked.status != 0 || checked.text.as_slice() != verdict {
        return Err(Fail::new(format_args!("the trace, or what is said of it")));
    }
    Ok(())
}

#[test]
fn what_processes_print_of_a_trace_is_legal(rt: HostRuntime) -> Result<(), Fail> {
    let alloc = rt.alloc();
    for tree in TREES {
        look_at_trace(&rt, alloc, tree.script, tree.text, tree.verdict)?;
    }
    let script = writers_script(alloc)?;
    let report = writers_report(alloc)?;
    look_at_trace(
        &rt,
        alloc,
        script.as_bytes(),
        report.as_bytes(),
        b"trace: legal 2004\n",
    )
}

#[test]
fn processes_have_what_their_blocks_say(rt: HostRuntime) -> Result<(), Fail> {
    for tree in TREES {
        for words in [NO_WORDS, DAEMON] {
            let alloc = rt.alloc();
            let flat = opened(alloc, tree.slots)?;
            let made = run_trial(&rt, alloc, words, tree.script, &NEVER)?;
            look_at(&made, tree.name, tree.text, flat)?;
        }
    }
    Ok(())
}

// One process and 63 children, each of which has its parent's word and then its own.
fn family_script(alloc: Global) -> Result<String, AllocError> {
    let mut script = String::from_str(
        alloc,
        "\
process
map 0x2000 4096 rw private zero 0
store 0x2000 1 1
",
    )?;
    for child in 2..65u32 {
        script.push_str("fork\nload 0x2000 1\n")?;
        script.push_str(&format!(in alloc; "store 0x2000 1 {child}\nload 0x2000 1\nend\n")?)?;
    }
    script.push_str("end\n")?;
    Ok(script)
}

// The line at which a child's block begins: three lines stand before all, and five in each block.
fn line_of(child: u32) -> u32
    requires { (2 ≤ child) × (child ≤ 64) }
    ensures { result ≤ 314 }
{
    4 + 5 * (child - 2)
}

fn family_report(alloc: Global) -> Result<String, AllocError> {
    let mut report = String::from_str(alloc, "process 1\n2 map 0x00002000\n3 store ok\n")?;
    for child in 2..65u32 {
        report.push_str(&format!(in alloc; "{} fork {child}\n", line_of(child))?)?;
    }
    report.push_str("319 exit ok\n")?;
    for child in 2..65u32 {
        let line = line_of(child);
        report.push_str(&format!(in alloc; "process {child}\n{} load 0x01\n", line + 1)?)?;
        report.push_str(&format!(in alloc;
            "{} store ok\n{} load 0x{child:02x}\n",
            line + 2,
            line + 3
        )?)?;
        report.push_str(&format!(in alloc; "{} exit ok\n", line + 4)?)?;
    }
    Ok(report)
}

#[test]
fn a_process_has_63_children(rt: HostRuntime) -> Result<(), Fail> {
    let alloc = rt.alloc();
    let script = family_script(alloc)?;
    let report = family_report(alloc)?;
    let flat = opened(alloc, 64)?;
    let left = run_trial(&rt, alloc, DAEMON, script.as_bytes(), &NEVER)?;
    look_at(&left, "63 children", report.as_bytes(), flat)
}

// A process forks a child, and so does each child, 60 deep; each waits for its child.
fn line_script(alloc: Global) -> Result<String, AllocError> {
    let mut script = String::from_str(
        alloc,
        "\
process
map 0x2000 4096 rw private zero 0
store 0x2000 1 1
",
    )?;
    for process in 2..61u32 {
        script.push_str("fork\nload 0x2000 1\n")?;
        script.push_str(&format!(in alloc; "store 0x2000 1 {process}\n")?)?;
    }
    script.push_str("end\n")?;
    for _ in 0..59 {
        script.push_str("wait\nload 0x2000 1\nend\n")?;
    }
    Ok(script)
}

// What is told of a process that forks the next: its first load has its parent's word, and its last its own.
fn line_section(alloc: Global, process: u32) -> Result<String, AllocError>
    requires { (2 ≤ process) × (process ≤ 59) }
{
    let fork = 4 + 3 * (process - 2);
    let back = 182 + 3 * (59 - process);
    let before = process - 1;
    let next = process + 1;
    let mut text = format!(in alloc; "process {process}\n{} load 0x{before:02x}\n", fork + 1)?;
    text.push_str(&format!(in alloc; "{} store ok\n{} fork {next}\n", fork + 2, fork + 3)?)?;
    text.push_str(&format!(in alloc;
        "{} load 0x{process:02x}\n{} exit ok\n",
        back + 1,
        back + 2
    )?)?;
    Ok(text)
}

fn line_report(alloc: Global) -> Result<String, AllocError> {
    let mut report = String::from_str(
        alloc,
        "\
process 1
2 map 0x00002000
3 store ok
4 fork 2
357 load 0x01
358 exit ok
",
    )?;
    for process in 2..60u32 {
        report.push_str(&line_section(alloc, process)?)?;
    }
    report.push_str("process 60\n179 load 0x3b\n180 store ok\n181 exit ok\n")?;
    Ok(report)
}

#[test]
fn each_of_60_processes_is_the_next_ones_parent(rt: HostRuntime) -> Result<(), Fail> {
    let alloc = rt.alloc();
    let script = line_script(alloc)?;
    let report = line_report(alloc)?;
    let flat = opened(alloc, 64)?;
    let left = run_trial(&rt, alloc, DAEMON, script.as_bytes(), &NEVER)?;
    look_at(&left, "a line of 60", report.as_bytes(), flat)
}

// Appends a text so many times.
pub(crate) fn repeat(text: &mut String, times: u32, what: &str) -> Result<(), AllocError> {
    for _ in 0..times {
        text.push_str(what)?;
    }
    Ok(())
}

// A process that maps the file and stores its word into a thousand bytes from an address on.
fn write_block(alloc: Global, script: &mut String, first: u32, word: u32) -> Result<(), AllocError>
    requires { first ≤ 0x4000 }
{
    script.push_str("process\nmap 0x2000 4096 rw shared a 0\n")?;
    for place in 0..1000u32 {
        script.push_str(&format!(in alloc; "store 0x{:x} 1 {word}\n", first + place)?)?;
    }
    script.push_str("end\n")
}

// Two such processes, over a page of zeros.
fn writers_script(alloc: Global) -> Result<String, AllocError> {
    let mut script = String::from_str(alloc, "disk 0 blank 8\nfile a rw 0 1 ")?;
    repeat(&mut script, 4096, "00")?;
    script.push_str("\n")?;
    write_block(alloc, &mut script, 0x2000, 1)?;
    write_block(alloc, &mut script, 0x2800, 2)?;
    Ok(script)
}

// A thousand bytes from an address of the file on: 31 lines of 32 bytes, and one that ends with 24 zeros.
fn show_writer(alloc: Global, text: &mut String, first: u32, byte: &str) -> Result<(), AllocError>
    requires { first ≤ 4096 }
{
    for line in 0..31u32 {
        text.push_str(&format!(in alloc; "{:08x} ", first + 32 * line)?)?;
        repeat(text, 32, byte)?;
        text.push_str("\n")?;
    }
    text.push_str(&format!(in alloc; "{:08x} ", first + 992)?)?;
    repeat(text, 8, byte)?;
    repeat(text, 24, "00")?;
    text.push_str("\n")
}

// What is told of such a process, whose map stands in this line.
fn told_of_writer(
    alloc: Global,
    report: &mut String,
    process: u32,
    map: u32,
) -> Result<(), AllocError>
    requires { map ≤ 2000 }
{
    report.push_str(&format!(in alloc; "process {process}\n{map} map 0x00002000\n")?)?;
    for store in 1..1001u32 {
        report.push_str(&format!(in alloc; "{} store ok\n", map + store)?)?;
    }
    report.push_str(&format!(in alloc; "{} exit ok\n", map + 1001)?)
}

fn writers_report(alloc: Global) -> Result<String, AllocError> {
    let mut report = String::new(alloc);
    told_of_writer(alloc, &mut report, 1, 4)?;
    told_of_writer(alloc, &mut report, 2, 1007)?;
    report.push_str("file a 4096\n")?;
    show_writer(alloc, &mut report, 0, "01")?;
    show_writer(alloc, &mut report, 0x800, "02")?;
    Ok(report)
}

#[test]
fn two_processes_write_to_one_page_and_pageout_pushes_it(rt: HostRuntime) -> Result<(), Fail> {
    let alloc = rt.alloc();
    let script = writers_script(alloc)?;
    let report = writers_report(alloc)?;
    let flat = opened_for_two(alloc)?;
    let left = run_trial(&rt, alloc, "--pageout\n500", script.as_bytes(), &NEVER)?;
    look_at(&left, "two writers", report.as_bytes(), flat)
}

// A process that writes two hundred of its bytes in five parts and reads them again, twenty times.
fn part_block(alloc: Global, script: &mut String, byte: &str) -> Result<(), AllocError> {
    script.push_str("process\n")?;
    for _ in 0..20u32 {
        script.push_str("write a 60 ")?;
        repeat(script, 200, byte)?;
        script.push_str("\nread a 60 200\n")?;
    }
    script.push_str("end\n")
}

// Whether no call of a file stands between two parts of another process's.
fn keep_apart(entries: &[Entry]) -> bool {
    let mut open = None;
    for entry in entries {
        if !entry.call.is_well_formed() {
            return false;
        }
        if let Call::Read { .. } | Call::Write { .. } = entry.call {
            if open.is_some_and(|process| process != entry.process) {
                return false;
            }
            open = if ends_call(&entry.call, &entry.reply) {
                None
            } else {
                Some(entry.process)
            };
        }
    }
    open.is_none()
}

#[test]
fn the_parts_of_two_processes_writes_stand_apart(rt: HostRuntime) -> Result<(), Fail> {
    let alloc = rt.alloc();
    let mut script = String::from_str(alloc, "disk 0 blank 8\nfile a rw 0 1 ")?;
    repeat(&mut script, 4096, "00")?;
    script.push_str("\n")?;
    part_block(alloc, &mut script, "01")?;
    part_block(alloc, &mut script, "02")?;
    let mut flat = opened_for_two(alloc)?;
    let left = run_trial(&rt, alloc, DAEMON, script.as_bytes(), &NEVER)?;
    // Of each call five parts, and two exits.
    assert_eq!(rt; (left.status, left.entries.len()), (0, 2 * 20 * 2 * 5 + 2));
    assert!(rt; replays(&mut flat, left.entries.as_slice())?);
    assert!(rt; keep_apart(left.entries.as_slice()));
    Ok(())
}
