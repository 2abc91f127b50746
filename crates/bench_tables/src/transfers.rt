//! Transfers of any disk.
ghost use Rattle.std.specs.Prelude.{◌≡◌, ◌≤◌};

use block_device::Disk;

/// How many blocks are read or written, in turn.
pub(crate) const BLOCKS: u32 = 8;

/// Makes so many transfers, and sums the first bytes of what is read.
pub(crate) fn transfers<D: Disk>(disk: &mut D, writes: bool, count: u32) -> u64
    requires { 8 ≤ (D.seen disk.old).size }
{
    let mut page = [1u8; 4096];
    let mut sum: u64 = 0;
    for turn in 0..count {
        let block = turn % BLOCKS;
        let done = if writes {
            disk.write(block, &page)
        } else {
            disk.read(block, &mut page)
        };
        if done.is_ok() {
            sum = sum.wrapping_add(u64::from(page[0]) + 1);
        }
    }
    sum
}
