//! What is said of a rule of volumes, of a set-up rule that looks at disks, of a signal and of a refusal.
ghost use Rattle.std.specs.Prelude.{◌≡◌};
ghost use Rattle.fault_help.specs.Tables as tables;

use vm_script::{Errno, Signal};

/// What is said of a signal.
pub fn signal_help(signal: Signal) -> &'static str
    ensures { result.now ≡ tables.signal_help signal }
{
    match signal {
        Signal::NoMap => "nothing is mapped at the address",
        Signal::Prot => "the page's protection forbids the access",
        Signal::Align => "the address is no multiple of the word's size",
        Signal::Past => "the page lies past the end of the mapped object",
    }
}

/// What is said of a refusal.
pub fn errno_help(errno: Errno) -> &'static str
    ensures { result.now ≡ tables.errno_help errno }
{
    match errno {
        Errno::Invalid =>
            "an address or offset is no multiple of 4096, the length is 0, or the range leaves the user addresses",
        Errno::Access => "the protection is more than the object allows",
        Errno::NoSwap => "too few swap slots are left for the private pages",
        Errno::NoRoom => "no gap of the address space is long enough",
        Errno::TooLarge => "the process would have more than 65536 mapped pages",
        Errno::NotMapped => "a page of the range isn't mapped",
        Errno::ReadOnly => "the file may only be read",
        Errno::TooBig => "the file can't become so long",
        Errno::NoObject => "no disk has a file of that name",
    }
}

/// What is said of a set-up rule that looks at disks: 9 to 12, and 15.
#[tactic(auto, unfolding(crate::specs::Tables::disk_rule_help))]
pub fn disk_rule_help(rule: u32) -> &'static str
    ensures { result.now ≡ tables.disk_rule_help rule }
{
    match rule {
        9 => "the disk is no volume",
        10 => "there are more than 64 files on the disks and in the script",
        11 => "a file line gives a name that a file has already",
        12 =>
            "a disk has too few free blocks in a row for a file line's pages, or no room in its table",
        15 => "two disks that are joined have different numbers of blocks",
        _ => "a set-up rule is broken",
    }
}

#[tactic(auto, unfolding(crate::specs::Tables::old_volume_help))]
fn old_volume_help(rule: u32) -> &'static str
    ensures { result.now ≡ tables.old_volume_help rule }
{
    match rule {
        0 => "a disk has from 2 to 16384 blocks of 4096 bytes",
        1 => "block 0 is neither zeros nor begins with SUNVMVOL",
        2 => "the table's version is neither 1 nor 2",
        3 => "the table is that of a disk with another number of blocks",
        4 => "the table says more than 64 files",
        5 => "the table's header has other bytes where zeros have to be",
        6 => "a file's name in the table is no name",
        7 => "a file's mode in the table is neither 0 nor 1",
        8 => "a file's blocks begin in block 0, are none, or leave the disk",
        9 => "a file is longer than its blocks",
        10 => "the files don't stand in the order of their blocks",
        11 => "two files in the table have one name",
        12 => "the table has other bytes where zeros have to be",
        _ => "the table is broken",
    }
}

/// What is said of a rule of volumes, told with set-up rule 9: 0 to 12 and 14 to 19.
#[tactic(auto, unfolding(crate::specs::Tables::volume_help))]
pub fn volume_help(rule: u32) -> &'static str
    ensures { result.now ≡ tables.volume_help rule }
{
    match rule {
        14 => "the table says more than 252 extents",
        15 => "a file's extents aren't the next ones of the table's list",
        16 => "an extent begins in block 0, has no block, or leaves the disk",
        17 => "two extents have a block in common",
        18 => "an extent goes on where the same file's extent before it ends",
        19 => "the table's list has more extents than the files",
        _ => old_volume_help(rule),
    }
}
