//! Whole runs of scripts made by chance that have several processes: what is printed is what their histories say, each entry is a step of flat memory, and the file
//! that is closed is its file.
use crate::random_tests::{BYTES, Chance, is_file, length_in, random_line};
use block_device::Block;
use flat_state::FlatState;
use std::alloc::{AllocError, Global};
use std::sync::Wait;
use std::test::Fail;
use std::thread::Threads;
use test_run::{Fails, Left, NEVER, Own, acts, file_lines, file_section, run_trial, sections};
use vm_types::{Entry, Reply};

/// A script of two trees of five processes each, as it is made: processes 1 and 6 have top blocks.
#[derive(Drop)]
pub(crate) struct Forest {
    pub(crate) script: String,
    pub(crate) lines: Vec<Own>,
    line: u32,
    begun: Vec<u32>,
    processes: u32,
}

/// How many processes there are.
const PROCESSES: u32 = 10;

/// A trace, and turns of the pageout daemon beside the processes.
pub(crate) const DAEMON: &str = "--trace\n--pageout\n300";

/// Nobody's number in the script: who reads flat memory's file at the end.
const READER: u32 = 11;

impl Forest {
    fn put(&mut self, text: &str) -> Result<(), AllocError> {
        self.line = self.line.saturating_add(1);
        self.script.push_str(text)
    }

    // A line whose call is the innermost open block's.
    fn call(&mut self, text: &str) -> Result<(), AllocError> {
        self.put(text)?;
        if let Some(&process) = self.begun.last() {
            self.lines.push(Own {
                process,
                line: self.line,
            })?;
        }
        Ok(())
    }

    fn begin(&mut self) -> Result<(), AllocError> {
        self.processes = self.processes.saturating_add(1);
        self.begun.push(self.processes)?;
        Ok(())
    }

    fn fork(&mut self) -> Result<(), AllocError> {
        self.call("fork\n")?;
        self.begin()
    }

    fn end(&mut self) -> Result<(), AllocError> {
        self.call("end\n")?;
        self.begun.pop();
        Ok(())
    }

    // A fork, an end, a wait or another line, where the tree has at most so many processes.
    fn step(&mut self, alloc: Global, chance: &mut Chance, most: u32) -> Result<(), AllocError> {
        match chance.below(16) {
            0..=1 if self.processes < most => self.fork(),
            2 if self.begun.len() > 1 => self.end(),
            3 => self.put("wait\n"),
            4 => self.call(&format!(in alloc; "truncate c {}\n", chance.below(9000))?),
            _ => self.call(&random_line(alloc, chance)?),
        }
    }

    // A tree of processes, the last of which has this number, with so many lines and some more.
    fn tree(
        &mut self,
        alloc: Global,
        chance: &mut Chance,
        last: u32,
        lines: u32,
    ) -> Result<(), AllocError> {
        self.put("process\n")?;
        self.begin()?;
        self.call("map 0x2000 8192 rw shared c 0\n")?;
        self.call("map 0x5000 8192 rw private c 0\n")?;
        self.call("map 0x8000 12288 rw private zero 0\n")?;
        self.call("map 0xb000 12288 rw shared zero 0\n")?;
        for _ in 0..lines {
            self.step(alloc, chance, last)?;
        }
        for _ in self.processes..last {
            self.fork()?;
            self.end()?;
        }
        for _ in 0..self.begun.len() {
            self.end()?;
        }
        Ok(())
    }
}

/// A script over so many frames and slots, whose trees have so many lines and some more.
pub(crate) fn make_forest(
    alloc: Global,
    chance: &mut Chance,
    frames: u32,
    slots: u32,
    lines: u32,
) -> Result<Forest, AllocError> {
    let mut script = format!(in alloc; "frames {frames}\nswap {slots}\ntranslations 8\n")?;
    script.push_str(&file_lines(alloc, BYTES.len())?)?;
    let mut forest = Forest {
        script,
        lines: Vec::new(alloc),
        line: 5,
        begun: Vec::new(alloc),
        processes: 0,
    };
    forest.tree(alloc, chance, 5, lines)?;
    forest.tree(alloc, chance, PROCESSES, lines)?;
    Ok(forest)
}

// Flat memory as the script opens it, beside a process of which it says nothing.
fn opened(alloc: Global, slots: u32) -> Result<FlatState, AllocError> {
    let mut state = FlatState::new(alloc, slots);
    state.disk(0, 8)?;
    state.file(4100, 0, &[(1, 2)], true, &BYTES)?;
    state.root(1)?;
    state.root(6)?;
    state.root(READER)?;
    Ok(state)
}

// Whether an entry that stands behind these began behind its process's, if it is a Sync's.
fn begins_behind(before: &[Entry], entry: &Entry) -> bool {
    let Reply::Synced(from) = entry.reply else {
        return true;
    };
    let from = from as usize;
    if from > before.len() {
        return false;
    }
    let (_, since) = before.split_at(from);
    since.iter().all(|other| other.process != entry.process)
}

// Whether the entries are steps of flat memory, one behind the other, and each Sync began behind its process's entry before.
fn is_legal(flat: &mut FlatState, entries: &[Entry]) -> Result<bool, AllocError> {
    for (place, entry) in entries.iter().enumerate() {
        let (before, _) = entries.split_at(place);
        if !begins_behind(before, entry) || !acts(flat, entry)? {
            return Ok(false);
        }
    }
    Ok(true)
}

/// Whether the entries are flat memory's.
pub(crate) fn is_told(alloc: Global, slots: u32, entries: &[Entry]) -> Result<bool, AllocError> {
    let mut flat = opened(alloc, slots)?;
    is_legal(&mut flat, entries)
}

// Whether the entries are flat memory's, and the file that these blocks have is its file.
fn is_flat(
    alloc: Global,
    slots: u32,
    entries: &[Entry],
    blocks: &[Block],
) -> Result<bool, AllocError> {
    let mut flat = opened(alloc, slots)?;
    Ok(is_legal(&mut flat, entries)? && is_file(&mut flat, READER, blocks)?)
}

// Whether this trace is judged legal, with so many entries.
fn is_judged_legal(
    rt: &(impl Threads + Wait + Sync),
    alloc: Global,
    trace: &[u8],
    entries: usize,
) -> Result<bool, AllocError> {
    let checked = run_trial(rt, alloc, "--check", trace, &NEVER)?;
    let verdict = format!(in alloc; "trace: legal {entries}\n")?;
    Ok(checked.status == 0 && checked.text.as_slice() == verdict.as_bytes())
}

// What has to stand behind the trace: the sections of the processes, and then this.
fn report_of(alloc: Global, forest: &Forest, left: &Left, end: &str) -> Result<String, AllocError> {
    let entries = left.entries.as_slice();
    let mut report = sections(alloc, PROCESSES, forest.lines.as_slice(), entries)?;
    report.push_str(end)?;
    Ok(report)
}

/// What has to be told of the file before the page behind so many, by the blocks of its disk.
pub(crate) fn file_told(
    alloc: Global,
    blocks: &[Block],
    pages: usize,
) -> Result<String, AllocError> {
    match blocks.split_first() {
        Some((table, rest)) => {
            let (shown, _) = rest.split_at(pages.min(rest.len()));
            file_section(alloc, "c", length_in(table), shown)
        }
        None => Ok(String::new(alloc)),
    }
}

/// Looks at what the run of this number printed, with a trace: a trace that is legal, and behind it the report of its history, with this end.
pub(crate) fn look_at_text(
    rt: &(impl Threads + Wait + Sync),
    alloc: Global,
    number: u32,
    forest: &Forest,
    left: &Left,
    end: &str,
) -> Result<(), Fail> {
    let report = report_of(alloc, forest, left, end)?;
    let printed = left.text.as_slice();
    if printed.len() < report.len() {
        return Err(Fail::new(format_args!("run {number}: a short text")));
    }
    let (trace, rest) = printed.split_at(printed.len() - report.len());
    if rest != report.as_bytes() {
        return Err(Fail::new(format_args!("run {number}: the report")));
    }
    if !is_judged_legal(rt, alloc, trace, left.entries.len())? {
        return Err(Fail::new(format_args!("run {number}: the trace")));
    }
    Ok(())
}

/// Looks at the run of this number, which came to its end.
pub(crate) fn look_at_whole(
    rt: &(impl Threads + Wait + Sync),
    alloc: Global,
    number: u32,
    forest: &Forest,
    slots: u32,
    left: &Left,
) -> Result<(), Fail> {
    let Some(blocks) = left.disks.first() else {
        return Err(Fail::new(format_args!("run {number}: no disk")));
    };
    if !is_flat(alloc, slots, left.entries.as_slice(), blocks)? {
        return Err(Fail::new(format_args!("run {number}: the history")));
    }
    look_at_text(
        rt,
        alloc,
        number,
        forest,
        left,
        &file_told(alloc, blocks, 3)?,
    )
}

// One script, whose swap disk may fail, with the pageout daemon at every second seed.
fn run_by_chance(rt: &(impl Threads + Wait + Sync), alloc: Global, seed: u32) -> Result<(), Fail> {
    let mut chance = Chance { last: seed };
    let (frames, slots) = (6 + seed % 7, 8 + chance.below(40));
    let forest = make_forest(alloc, &mut chance, frames, slots, 45)?;
    let words = if seed % 2 == 0 { "--trace" } else { DAEMON };
    let fails = Fails {
        swap: u64::from(chance.below(60)),
        ..NEVER
    };
    let left = run_trial(rt, alloc, words, forest.script.as_bytes(), &fails)?;
    if left.status != 0 {
        return Err(Fail::new(format_args!("run {seed}: status {}", left.status)));
    }
    look_at_whole(rt, alloc, seed, &forest, slots, &left)
}

// The scripts of 25 seeds.
fn run_each(rt: &(impl Threads + Wait + Sync), alloc: Global, first: u32) -> Result<(), Fail> {
    for seed in first..first.saturating_add(25) {
        run_by_chance(rt, alloc, seed)?;
    }
    Ok(())
}

#[test]
fn runs_of_ten_processes_are_told_as_they_were(rt: HostRuntime) -> Result<(), Fail> {
    run_each(&rt, rt.alloc(), 1)
}

#[test]
fn runs_from_seed_26_on_are_told_as_they_were(rt: HostRuntime) -> Result<(), Fail> {
    run_each(&rt, rt.alloc(), 26)
}

#[test]
fn runs_from_seed_51_on_are_told_as_they_were(rt: HostRuntime) -> Result<(), Fail> {
    run_each(&rt, rt.alloc(), 51)
}

#[test]
fn runs_from_seed_76_on_are_told_as_they_were(rt: HostRuntime) -> Result<(), Fail> {
    run_each(&rt, rt.alloc(), 76)
}
