//! Pages of files that were never written get zeros on their disks.
ghost use Rattle.std.specs.Prelude.{◌≡◌, ◌<◌, ℕ, length, IfErr, IfNone, IfSome, OnOk, MatchResult};
ghost use Rattle.std.specs.Result.{IsOk};
ghost use Rattle.seg_ops.specs.page_store.Bays.{pairs_seen};
ghost use Rattle.kernel_close.specs.Closing.{AreDisksOf, WritesBlanks, FillsPages, WritesZeros, ZeroedOrStay, FailsToFill, no_page};
ghost use Rattle.kernel_close.specs.Finish.{IsFilePage, disk_at, IsLastFault};
ghost use Rattle.seg_ops.specs.vm_world.World.{file_name};

use seg_ops::{Disk, DiskFault, Files, pages_in, write_block};

/// Where the disk of this number stands.
fn place_of<D: Disk>(disks: &[(u32, D)], number: u32) -> usize
    requires { (i : ℕ) × (i < length disks.now)
        × ((disk_at (pairs_seen D.seen disks.now) i).0 ≡ number) }
    ensures within { result < length disks.now }
    ensures number { (disk_at (pairs_seen D.seen disks.now) result).0 ≡ number }
{
    for at in 0..disks.len() {
        if disks[at].0 == number {
            return at;
        }
    }
    unreachable!()
}

/// Writes zeros to a block of the disk of this number.
fn write_zeros<D: Disk>(disks: &mut [(u32, D)], number: u32, block: u32) -> Result<(), DiskFault>
    requires there { (i : ℕ) × (i < length disks.old)
        × ((disk_at (pairs_seen D.seen disks.old) i).0 ≡ number) }
    requires block { (i : ℕ) → i < length disks.old
        → (disk_at (pairs_seen D.seen disks.old) i).0 ≡ number
        → block < (disk_at (pairs_seen D.seen disks.old) i).1.size }
    ensures writes { WritesZeros
        (pairs_seen D.seen disks.old) (pairs_seen D.seen disks.new) number block result }
    ensures fault { IfErr result (λ fault. (fault.disk ≡ number)
        × IsLastFault (pairs_seen D.seen disks.old) (pairs_seen D.seen disks.new) fault) }
{
    let at = place_of(disks, number);
    write_block(number, &mut disks[at].1, block, &[0; 4096])
}

/// Writes zeros to the block of a page that is blank. It isn't blank then.
fn fill_page<D: Disk>(
    files: &mut Files,
    disks: &mut [(u32, D)],
    file: u32,
    page: u32,
) -> Result<(), DiskFault>
    requires page { IsFilePage files.old (file_name file page) }
    requires disks { AreDisksOf files.old (pairs_seen D.seen disks.old) }
    ensures fills { OnOk result (FillsPages files.old (pairs_seen D.seen disks.old)
        files.new (pairs_seen D.seen disks.new) (λ name. name ≡ file_name file page)) }
    ensures goes { OnOk result (ZeroedOrStay files.old
        (pairs_seen D.seen disks.old) (pairs_seen D.seen disks.new) no_page) }
    ensures fault { IfErr result (FailsToFill files.old
        (pairs_seen D.seen disks.old) (pairs_seen D.seen disks.new)) }
    // What stays.
    ensures writes { WritesBlanks files.old (pairs_seen D.seen disks.old)
        files.new (pairs_seen D.seen disks.new) }
{
    if files.blank(file, page) {
        write_zeros(disks, files.info(file).disk, files.block(file, page))?;
        files.set_blank(file, page, false);
    }
    Ok(())
}

/// Writes zeros to the blank pages of a file below its length, and stops at the first failure.
fn fill_file<D: Disk>(files: &mut Files, disks: &mut [(u32, D)], file: u32) -> Result<(), DiskFault>
    requires file { file < length files.old.files }
    requires disks { AreDisksOf files.old (pairs_seen D.seen disks.old) }
    ensures fills { OnOk result (FillsPages files.old (pairs_seen D.seen disks.old)
        files.new (pairs_seen D.seen disks.new) (λ name. name.object ≡ file)) }
    ensures goes { OnOk result (ZeroedOrStay files.old
        (pairs_seen D.seen disks.old) (pairs_seen D.seen disks.new) no_page) }
    ensures fault { IfErr result (FailsToFill files.old
        (pairs_seen D.seen disks.old) (pairs_seen D.seen disks.new)) }
    // What stays.
    ensures writes { WritesBlanks files.old (pairs_seen D.seen disks.old)
        files.new (pairs_seen D.seen disks.new) }
{
    for page in 0..pages_in(files.info(file).length) {
        fill_page(files, disks, file, page)?;
    }
    Ok(())
}

/// Writes zeros to the blank pages of all files below their lengths, and stops at the first failure. Takes no memory.
pub(crate) fn fill_files<D: Disk>(
    files: &mut Files,
    disks: &mut [(u32, D)],
) -> Result<(), DiskFault>
    requires { AreDisksOf files.old (pairs_seen D.seen disks.old) }
    ensures fills { OnOk result (FillsPages files.old (pairs_seen D.seen disks.old)
        files.new (pairs_seen D.seen disks.new) (λ name. Unit {0})) }
    ensures goes { OnOk result (ZeroedOrStay files.old
        (pairs_seen D.seen disks.old) (pairs_seen D.seen disks.new) no_page) }
    ensures fault { IfErr result (FailsToFill files.old
        (pairs_seen D.seen disks.old) (pairs_seen D.seen disks.new)) }
    // What stays.
    ensures writes { WritesBlanks files.old (pairs_seen D.seen disks.old)
        files.new (pairs_seen D.seen disks.new) }
{
    for file in 0..files.count() {
        fill_file(files, disks, file)?;
    }
    Ok(())
}

/// Writes zeros to the blank pages of all files, unless a push failed before. Answers the first failure.
pub(crate) fn fill_if_pushed<D: Disk>(
    pushed: Result<(), DiskFault>,
    files: &mut Files,
    disks: &mut [(u32, D)],
) -> Option<DiskFault>
    requires { AreDisksOf files.old (pairs_seen D.seen disks.old) }
    ensures fills { IfNone result (IsOk pushed × FillsPages files.old (pairs_seen D.seen disks.old)
        files.new (pairs_seen D.seen disks.new) (λ name. Unit {0})) }
    ensures goes { IfNone result (ZeroedOrStay files.old
        (pairs_seen D.seen disks.old) (pairs_seen D.seen disks.new) no_page) }
    ensures fault { IfSome result (λ fault. MatchResult pushed
        (λ _. FailsToFill files.old
        (pairs_seen D.seen disks.old) (pairs_seen D.seen disks.new) fault)
        (λ first. (fault ≡ first) × (disks.new ≡ disks.old))) }
    // What stays.
    ensures writes { WritesBlanks files.old (pairs_seen D.seen disks.old)
        files.new (pairs_seen D.seen disks.new) }
{
    match pushed {
        Ok(()) => fill_files(files, disks).err(),
        Err(fault) => Some(fault),
    }
}
