//! Whole runs of scripts made by chance: their histories are those of flat memory, and so are their files.
ghost use Rattle.std.specs.Prelude.{◌<◌, ◌≤◌, ◌^◌, length};

use block_device::Block;
use flat_state::FlatState;
use std::alloc::{AllocError, Global};
use std::test::Fail;
use test_run::{Fails, Left, NEVER, NO_WORDS, acts, replays, run_trial, script_of_file};
use vm_types::{Call, Entry, Line, Reply, ends_call};

// Numbers by chance: a linear congruential generator.
#[derive(Drop)]
pub(crate) struct Chance {
    pub(crate) last: u32,
}

impl Chance {
    pub(crate) fn below(&mut self, bound: u32) -> u32
        requires { 0 < bound }
        ensures { result < bound }
    {
        let next = self.last.wrapping_mul(1_664_525);
        self.last = next.wrapping_add(1_013_904_223);
        (self.last >> 16) % bound
    }
}

fn size(chance: &mut Chance) -> u32
    ensures { 0 < result }
{
    match chance.below(3) {
        0 => 1,
        1 => 2,
        _ => 4,
    }
}

// The address and the size of a word near the begin or the end of a page. Some pages are never mapped, and some addresses are
// no multiples of the size.
fn word(chance: &mut Chance) -> (u32, u32) {
    let page = 2 + chance.below(13);
    let addr = 4096 * page + 4088 * chance.below(2) + chance.below(8);
    let size = size(chance);
    match chance.below(8) {
        0 => (addr, size),
        _ => (addr - addr % size, size),
    }
}

// What is mapped, with which rights.
fn mapped(chance: &mut Chance) -> &'static str {
    match chance.below(10) {
        0 => "rw shared c",
        1 => "r shared c",
        2 => "rw private c",
        3 => "r private c",
        4..=6 => "rw private zero",
        7 => "r shared zero",
        _ => "rw shared zero",
    }
}

// Most often all rights.
fn rights(chance: &mut Chance) -> &'static str {
    match chance.below(6) {
        0 => "none",
        1 => "r",
        2 => "w",
        _ => "rw",
    }
}

// A map at an address or at the lowest gap, an unmap, a protect, or a sync.
fn mapping_line(alloc: Global, chance: &mut Chance) -> Result<String, AllocError> {
    let addr = 4096 * (2 + chance.below(10));
    let length = 4096 * (1 + chance.below(3));
    let offset = 4096 * (chance.below(4) / 3);
    let what = mapped(chance);
    match chance.below(11) {
        0..=3 => format!(in alloc; "map {addr} {length} {what} {offset}\n"),
        4 => format!(in alloc; "map any {length} {what} {offset}\n"),
        5 => format!(in alloc; "unmap {addr} {length}\n"),
        6..=7 => format!(in alloc; "protect {addr} {length} {}\n", rights(chance)),
        _ => format!(in alloc; "sync {addr} {length}\n"),
    }
}

// A read, a write or a truncate of the file, which is by some bytes behind the begin or about the end of one of three pages: of a
// few parts, and many end behind the file's end.
fn file_line(alloc: Global, chance: &mut Chance) -> Result<String, AllocError> {
    let offset = 4050 * chance.below(3) + chance.below(130);
    match chance.below(5) {
        0..=1 => format!(in alloc; "read c {offset} {}\n", 1 + chance.below(200)),
        2..=3 => {
            let mut line = format!(in alloc; "write c {offset} ")?;
            for _ in 0..1 + chance.below(140) {
                line.push_str(&format!(in alloc; "{:02x}", chance.below(256))?)?;
            }
            line.push_str("\n")?;
            Ok(line)
        }
        _ => format!(in alloc; "truncate c {offset}\n"),
    }
}

pub(crate) fn random_line(alloc: Global, chance: &mut Chance) -> Result<String, AllocError> {
    match chance.below(19) {
        0..=3 => mapping_line(alloc, chance),
        4..=6 => file_line(alloc, chance),
        7..=11 => {
            let (addr, size) = word(chance);
            format!(in alloc; "store {addr} {size} {}\n", chance.below(256))
        }
        _ => {
            let (addr, size) = word(chance);
            format!(in alloc; "load {addr} {size}\n")
        }
    }
}

// The bytes of the file at the start.
pub(crate) const BYTES: [u8; 4100] = [0x41; 4100];

// A script over so many frames and slots.
fn random_script(
    alloc: Global,
    chance: &mut Chance,
    frames: u32,
    slots: u32,
) -> Result<String, AllocError> {
    let mut script = format!(in alloc; "frames {frames}\nswap {slots}\ntranslations 8\n")?;
    script.push_str(&script_of_file(alloc, BYTES.len())?)?;
    script.push_str("map 0x2000 8192 rw shared c 0\n")?;
    script.push_str("map 0x5000 8192 rw private c 0\n")?;
    script.push_str("map 0x8000 12288 rw private zero 0\n")?;
    script.push_str("map 0xb000 12288 rw shared zero 0\n")?;
    for _ in 0..120 {
        script.push_str(&random_line(alloc, chance)?)?;
    }
    script.push_str("end\n")?;
    Ok(script)
}

// Flat memory as the script opens it.
fn opened(alloc: Global, slots: u32) -> Result<FlatState, AllocError> {
    let mut state = FlatState::new(alloc, slots);
    state.disk(0, 8)?;
    state.file(4100, 0, &[(1, 2)], true, &BYTES)?;
    state.root(1)?;
    Ok(state)
}

// Whether a process reads these bytes in the line of this number of the file.
fn reads(flat: &mut FlatState, process: u32, line: u32, bytes: &[u8]) -> Result<bool, AllocError>
    requires line { line < 256 }
    requires bytes { length bytes.now ≤ 64 }
{
    let entry = Entry {
        process,
        call: Call::Read {
            file: 0,
            offset: 64 * line,
            length: 64,
        },
        reply: Reply::Bytes(Line::new(bytes)),
        cleared: 0,
    };
    acts(flat, &entry)
}

/// The length of the only file of a disk, by its table.
pub(crate) fn length_in(table: &Block) -> usize
    ensures { result < 2 ^ 32 }
{
    let bytes = &table.bytes;
    u32::from_be_bytes([bytes[48], bytes[49], bytes[50], bytes[51]]) as usize
}

/// Whether the file that these blocks have from block 1 on, which may have grown by a page, is that of flat memory, as a process reads it.
pub(crate) fn is_file(
    flat: &mut FlatState,
    process: u32,
    blocks: &[Block],
) -> Result<bool, AllocError> {
    if blocks.len() != 8 {
        return Ok(false);
    }
    let length = length_in(&blocks[0]);
    if length >= 3 * 4096 {
        return Ok(false);
    }
    for line in 0..length / 64 + 1 {
        let page = &blocks[1 + line / 64].bytes[..];
        let first = 64 * (line % 64);
        let count = (length - 64 * line).min(64);
        if !reads(flat, process, line as u32, &page[first..first + count])? {
            return Ok(false);
        }
    }
    Ok(true)
}

// How many of the entries end their calls.
fn calls_in(entries: &[Entry]) -> usize {
    let mut calls = 0;
    for entry in entries {
        if entry.call.is_well_formed()
            && ends_call(&entry.call, &entry.reply)
            && calls < 1_000_000
        {
            calls += 1;
        }
    }
    calls
}

// Whether the run told a history of flat memory, and left the file that is there before the process exits.
fn is_flat(alloc: Global, slots: u32, left: &Left) -> Result<bool, AllocError> {
    let mut flat = opened(alloc, slots)?;
    let Some(blocks) = left.disks.first() else {
        return Ok(false);
    };
    match left.entries.split_last() {
        Some((exit, entries)) => Ok(
            calls_in(entries) == 124
                && replays(&mut flat, entries)?
                && is_file(&mut flat, 1, blocks)?
                && acts(&mut flat, exit)?,
        ),
        None => Ok(false),
    }
}

#[test]
fn runs_by_chance_are_those_of_flat_memory(rt: HostRuntime) -> Result<(), Fail> {
    let alloc = rt.alloc();
    for seed in 1..41 {
        let mut chance = Chance { last: seed };
        let frames = 6 + seed % 5;
        let slots = 8 + chance.below(6);
        let script = random_script(alloc, &mut chance, frames, slots)?;
        let fails = Fails {
            swap: u64::from(chance.below(30)),
            ..NEVER
        };
        let left = run_trial(&rt, alloc, NO_WORDS, script.as_bytes(), &fails)?;
        assert_eq!(rt; left.status, 0, "seed {seed}");
        assert!(rt; is_flat(alloc, slots, &left)?, "seed {seed}");
    }
    Ok(())
}
