//! Two disks block by block where their closing fails: which pages and tables are written then, and that the rest is as the rack gave it.
use Has::{Anything, Bytes, Given, Table};
use block_device::Block;
use std::alloc::{AllocError, Global};
use std::sync::Wait;
use std::test::Fail;
use std::thread::Threads;
use test_run::{Fails, NEVER, NO_WORDS, OLD_TABLE, TABLE, blocks_of, put_words, run_kept};

/// What a block has: what the rack gave; the table of the mounted disk's file, in version 2; these bytes, and zeros behind them; or anything, where a write of it
/// failed.
#[derive(Clone, Copy)]
enum Has {
    Given,
    Table,
    Bytes(&'static [u8]),
    Anything,
}

/// A closing in which these calls fail: how the text ends, and what the blocks of the two disks have.
#[derive(Clone, Copy)]
struct Closing {
    fails: Fails,
    end: &'static [u8],
    first: [Has; 8],
    second: [Has; 4],
}

/// A file of the mounted disk is stored into, and one of a blank disk.
const SCRIPT: &[u8] = b"\
disk 0 path v
disk 1 blank 4
file b rw 1 1 6262
process
map 0x2000 4096 rw shared a 0
map 0x3000 4096 rw shared b 0
store 0x2000 1 0x4a
store 0x3000 1 0x4b
end
";

/// The page of the mounted disk's file, of which byte 0 is stored into.
const STORED: Has = Bytes(b"J\x11\x11\x11\x11");

// Of disk 0 call 1 reads the table, call 2 the page that is stored into, call 3 writes it, and call 4 the table. Of disk 1 call 1 reads the table, call 2 places the
// file, call 3 reads its page, call 4 writes it, and call 5 the table.
const CLOSINGS: [Closing; 4] = [
    // A page isn't written: no table is.
    Closing {
        fails: Fails { disk_1: 4, ..NEVER },
        end: b"fault: disk 1 0 1\n",
        first: [Given, STORED, Given, Given, Given, Given, Given, Given],
        second: [Given, Anything, Given, Given],
    },
    Closing {
        fails: Fails { disk_0: 3, ..NEVER },
        end: b"fault: disk 0 0 1\n",
        first: [Given, Anything, Given, Given, Given, Given, Given, Given],
        second: [Given, Anything, Given, Given],
    },
    // The second table isn't: the first one is, and all pages are there.
    Closing {
        fails: Fails { disk_1: 5, ..NEVER },
        end: b"fault: disk 1 0 1\n",
        first: [Table, STORED, Given, Given, Given, Given, Given, Given],
        second: [Anything, Bytes(b"Kb"), Given, Given],
    },
    // The first table isn't: nor is the second one.
    Closing {
        fails: Fails { disk_0: 4, ..NEVER },
        end: b"fault: disk 0 0 1\n",
        first: [Anything, STORED, Given, Given, Given, Given, Given, Given],
        second: [Given, Bytes(b"Kb"), Given, Given],
    },
];

/// A disk of eight blocks with a file of five bytes, for two pages; each block but the table is full of a byte of its own.
fn mounted(alloc: Global) -> Result<Vec<Block>, AllocError> {
    let mut blocks = blocks_of(alloc, 1, 0, &OLD_TABLE)?;
    for byte in 0x11..0x18u8 {
        blocks.append(&mut blocks_of(alloc, 1, byte, &[])?)?;
    }
    Ok(blocks)
}

fn is_as_asked(block: &Block, given: &Block, asked: Has) -> bool {
    let mut bytes = [0; 4096];
    match asked {
        Given => return block.bytes == given.bytes,
        Anything => return true,
        Table => put_words(&mut bytes, &TABLE),
        Bytes(front) => {
            for (place, &byte) in front.iter().enumerate() {
                if place < 4096 {
                    bytes[place] = byte;
                }
            }
        }
    }
    block.bytes == bytes
}

/// The first block that hasn't what it should.
fn wrong_block(blocks: &[Block], given: &[Block], all: &[Has]) -> Option<usize> {
    if blocks.len() != all.len() || given.len() != all.len() {
        return Some(blocks.len());
    }
    for place in 0..all.len() {
        if !is_as_asked(&blocks[place], &given[place], all[place]) {
            return Some(place);
        }
    }
    None
}

/// The first disk with such a block, and that.
fn wrong_disk(
    alloc: Global,
    disks: &[Vec<Block>],
    closing: &Closing,
) -> Result<Option<(u32, usize)>, Fail> {
    let (Some(first), Some(second)) = (disks.first(), disks.get(1)) else {
        return Err(Fail::new("both disks came back"));
    };
    if let Some(block) = wrong_block(first, &mounted(alloc)?, &closing.first) {
        return Ok(Some((0, block)));
    }
    let blank = blocks_of(alloc, 4, 0, &[])?;
    Ok(match wrong_block(second, &blank, &closing.second) {
        Some(block) => Some((1, block)),
        None => None,
    })
}

fn close_each(
    rt: &(impl Threads + Wait + Sync),
    alloc: Global,
    closings: &[Closing],
) -> Result<(), Fail> {
    for (place, closing) in closings.iter().enumerate() {
        let left = run_kept(
            rt,
            alloc,
            NO_WORDS,
            SCRIPT,
            &closing.fails,
            &mounted(alloc)?,
        )?;
        if left.status != 7 || !left.text.as_slice().ends_with(closing.end) {
            let status = left.status;
            return Err(Fail::new(format_args!("closing {place}: {status}, or the text")));
        }
        if let Some((disk, block)) = wrong_disk(alloc, left.disks.as_slice(), closing)? {
            return Err(Fail::new(format_args!("closing {place}: disk {disk}, block {block}")));
        }
    }
    Ok(())
}

#[test]
fn a_closing_that_fails_leaves_the_rest_as_it_was(rt: HostRuntime) -> Result<(), Fail> {
    close_each(&rt, rt.alloc(), &CLOSINGS)
}
