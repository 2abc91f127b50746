//! Acts on a disk, and what is told of each.

use Act::{Read, Write};
use Told::{Failed, Got, Put};
use block_device::{Disk, MemDisk};
use std::test::Fail;

#[derive(Clone, Copy)]
pub(crate) enum Act {
    /// Reads a block.
    Read(u32),
    /// Fills a block with a byte.
    Write(u32, u8),
}

#[derive(Clone, Copy, PartialEq, Eq)]
pub(crate) enum Told {
    /// The first byte and the last of the block that was read.
    Got(u8, u8),
    Put,
    Failed,
}

fn make<D: Disk>(disk: &mut D, act: Act) -> Result<Told, Fail> {
    let block = match act {
        Read(block) | Write(block, _) => block,
    };
    if block >= disk.blocks() {
        return Err(Fail::new("there is no such block"));
    }
    let mut page = [0u8; 4096];
    let done = match act {
        Read(block) => disk.read(block, &mut page),
        Write(block, byte) => disk.write(block, &[byte; 4096]),
    };
    Ok(match (done, act) {
        (Err(_), _) => Failed,
        (Ok(()), Read(_)) => Got(page[0], page[4095]),
        (Ok(()), Write(..)) => Put,
    })
}

/// Makes the acts. It fails at the first of which something else is told.
pub(crate) fn make_all<D: Disk>(disk: &mut D, acts: &[(Act, Told)]) -> Result<(), Fail> {
    for (place, &(act, told)) in acts.iter().enumerate() {
        let made = make(disk, act)?;
        if made != told {
            return Err(Fail::new(format_args!("act {place} is told something else")));
        }
    }
    Ok(())
}

/// The first byte and the last of each of two blocks, and how many reads, writes and faults were counted.
pub(crate) type Look = ([(u8, u8); 2], u64, u64, u64);

pub(crate) fn look_at(disk: &MemDisk) -> Result<Look, Fail> {
    match disk.content() {
        [first, second] => Ok((
            [
                (first.bytes[0], first.bytes[4095]),
                (second.bytes[0], second.bytes[4095]),
            ],
            disk.reads(),
            disk.writes(),
            disk.faults(),
        )),
        _ => Err(Fail::new("the disk has two blocks")),
    }
}
