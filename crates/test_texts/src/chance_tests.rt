//! Scripts and tables of files with one to four changes made by chance: each is read, or refused with a fault that there is.
ghost use Rattle.std.specs.Prelude.{◌≡◌, ◌<◌, ◌≤◌, length};

use crate::volume_tests::{TWO_FILES, put_words};
use std::alloc::{AllocError, Global};
use std::test::Fail;
use vm_script::{ScriptKind, broken_rule, parse};
use volume_format::{decode, encode};

// Numbers by chance: a linear congruential generator.
#[derive(Drop)]
struct Chance {
    last: u32,
}

impl Chance {
    fn below(&mut self, bound: u32) -> u32
        requires { 0 < bound }
        ensures { result < bound }
    {
        let next = self.last.wrapping_mul(1_664_525);
        self.last = next.wrapping_add(1_013_904_223);
        (self.last >> 16) % bound
    }
}

const SCRIPTS: [&[u8]; 3] = [
    b"\
frames 9
swap 16
translations 8
disk 0 blank 8
file a rw 0 2 68656c6c6f
process
map any 4096 rw shared a 0
load 0x2001 1
store 0x2000 1 0x4a
fork
sync 0x1000 4096
end
wait
end
",
    b"\
# two disks
disk 0 blank 8
disk 1 path p
join 0 mirror 1
file b ro 0 1 -
process
read b 0 64
write b 60 0102030405
truncate b 9
unmap 0x1000 4096
protect 0x1000 4096 none
end
process
end
",
    b"process\nfork\nfork\nend\nend\nwait\nend",
];

// The bytes that take another's place, most of them such as scripts have.
const BYTES: &[u8; 32] = b"0123456789abcdefxrw -\n#\t\x7f\0pnlse.";

// One byte is another one, goes, or comes to another; or the text ends there.
fn change(chance: &mut Chance, text: &mut Vec<u8>) -> Result<(), AllocError> {
    if text.is_empty() || text.len() > 65_536 {
        return Ok(());
    }
    let place = chance.below(text.len() as u32) as usize;
    let byte = BYTES[chance.below(32) as usize];
    match chance.below(10) {
        0..=4 => text[place] = byte,
        5..=6 => {
            text.remove(place);
        }
        7..=8 => text.insert(place, byte)?,
        _ => text.truncate(place),
    }
    Ok(())
}

// A script with some changes.
fn changed(alloc: Global, seed: u32) -> Result<Vec<u8>, AllocError> {
    let mut chance = Chance { last: seed };
    let mut text = Vec::from_slice(alloc, SCRIPTS[(seed % 3) as usize])?;
    for _ in 0..1 + chance.below(4) {
        change(&mut chance, &mut text)?;
    }
    Ok(text)
}

// How many lines there are; the last one may lack its line feed.
fn count_lines(text: &[u8]) -> usize {
    let feeds = text.iter().filter(|byte| **byte == b'\n').count();
    match text.last() {
        None | Some(b'\n') => feeds,
        Some(_) => feeds + 1,
    }
}

// The lines before this one, which are counted from 1.
fn before_line(text: &[u8], line: u32) -> &[u8] {
    let mut left = line;
    for (place, byte) in text.iter().enumerate() {
        if left <= 1 {
            return &text[..place];
        }
        if *byte == b'\n' {
            left -= 1;
        }
    }
    text
}

// Whether the lines before a bad one have no fault but that a block is open at their end.
fn is_first(alloc: Global, before: &[u8], line: u32) -> Result<bool, AllocError> {
    match parse(alloc, before)? {
        Ok(_) => Ok(true),
        Err(fault) => Ok(fault.line == line && fault.kind == ScriptKind::Place),
    }
}

// Whether the script is read and its first broken rule is one that there is; or its fault names one of its lines or, for a block
// that is open at the end, the one behind them, and no line before it is bad.
fn is_answered(alloc: Global, text: &[u8]) -> Result<bool, AllocError> {
    match parse(alloc, text)? {
        Ok(plan) => Ok(match broken_rule(&plan) {
            None => true,
            Some(rule) => (rule >= 1 && rule <= 8) || rule == 14,
        }),
        Err(fault) => {
            let behind = count_lines(text).saturating_add(1);
            let line = fault.line as usize;
            let there = line < behind || (line == behind && fault.kind == ScriptKind::Place);
            Ok(line >= 1 && there && is_first(alloc, before_line(text, fault.line), fault.line)?)
        }
    }
}

/// How many seeds of each kind the tests take.
const SEEDS: u32 = 400;

#[test]
fn changed_scripts_are_read_or_refused(rt: HostRuntime) -> Result<(), Fail> {
    for seed in 0..SEEDS {
        let text = changed(rt.alloc(), seed)?;
        assert!(rt; is_answered(rt.alloc(), text.as_slice())?, "{seed}");
    }
    Ok(())
}

// A place of a word of the block's table, or anywhere.
fn place(chance: &mut Chance) -> usize {
    match chance.below(3) {
        0 => 4 * chance.below(32) as usize,
        1 => 2080 + 4 * chance.below(8) as usize,
        _ => 4 * chance.below(1024) as usize,
    }
}

// A small number, one near a limit, or any.
fn word(chance: &mut Chance) -> u32 {
    match chance.below(4) {
        0 => chance.below(10),
        1 => 4096 * chance.below(3) + chance.below(2),
        2 => 0x6100_0000 + (chance.below(26) << 24),
        _ => chance.last,
    }
}

// Whether a table's block with some changes breaks a rule that there is; or is read, and what is written of it is read as the same.
fn is_told(alloc: Global, seed: u32) -> Result<bool, AllocError> {
    let mut chance = Chance { last: seed };
    let mut block = [0u8; 4096];
    put_words(&mut block, &TWO_FILES);
    for _ in 0..1 + chance.below(4) {
        let at = place(&mut chance);
        put_words(&mut block, &[(at, word(&mut chance))]);
    }
    match decode(alloc, &block, 8)? {
        Err(bad) => Ok(bad.rule >= 1 && bad.rule <= 19),
        Ok(table) => {
            encode(&table, &mut block);
            is_its_own(alloc, &block)
        }
    }
}

// Whether a block that was written is read, and written as it is.
fn is_its_own(alloc: Global, block: &[u8; 4096]) -> Result<bool, AllocError> {
    match decode(alloc, block, 8)? {
        Err(_) => Ok(false),
        Ok(table) => {
            let mut written = [255u8; 4096];
            encode(&table, &mut written);
            Ok(written == *block)
        }
    }
}

#[test]
fn changed_tables_are_read_or_told(rt: HostRuntime) -> Result<(), Fail> {
    for seed in 0..SEEDS {
        assert!(rt; is_told(rt.alloc(), seed)?, "{seed}");
    }
    Ok(())
}
