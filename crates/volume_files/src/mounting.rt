//! Volumes are attached one after another, and the table of each is read.
ghost use Rattle.std.specs.Prelude.{◌≡◌, ◌≢◌, ◌<◌, ◌≤◌, ◌+◌, ◌++◌, [], length, map, None, false, Ok, if◌then◌else◌, IfOk, IfErr, OnOk, vec_len, vec_capacity};
ghost use Rattle.std.specs.List.{list_any};
ghost use Rattle.std.specs.Option.{ForSome, option_to_list};
ghost use Rattle.block_device.specs.DiskSeen.{HasBlocks, failures_told};
ghost use Rattle.block_device.specs.RackSeen.{spec_number};
ghost use Rattle.block_device.specs.declared.rack.Spec.{Spec};
ghost use Rattle.volume_disks.specs.Volumes.{HasTwoNumbers, first_spec, second_spec};
ghost use Rattle.volume_format.specs.Rules.{reading};
ghost use Rattle.volume_format.specs.Volume.{IsVolumeTable};
ghost use Rattle.vm_report.specs.vm_script.Rules.{broken_join, gives_disk, has_wrong_disk};
ghost use Rattle.volume_disks.specs.Singles.{single_seen};
ghost use Rattle.volume_files.specs.Attached.{AreMounted, bare_disks};
ghost use Rattle.stored_files.specs.Written.{numbered_seen};
ghost use Rattle.volume_files.specs.Handed.{members_of};
ghost use Rattle.volume_files.specs.Mounting.{Holds, HoldSame, SaysTableRead, BadTableCause, UnreadCause, MountsOne, MountsNumber, HaltsNumber, HaltsSpec, Halts, IsOtherDisk, unmounted_as, volumes_seen};
ghost use Rattle.volume_files.specs.Opened.{given_disk, disk_numbered, is_second, joined_by, joined_to, second_numbered, setup_volumes, volume_numbered};
ghost use Rattle.volume_files.specs.Unfailed.{NoneCounted, UnlessFailed, UnlessUngiven};
ghost use Rattle.stored_files.specs.Written.{OnlyReads};

use crate::stops::{OpenStop, Refusal};
use block_device::{Disk, PathText, Rack, Spec, Unopened};
use joined_disk::JoinedDisk;
use std::alloc::{AllocError, Global};
use vm_report::{SetupAct, SetupLine};
use volume_disks::{Single, VolumeSpec, VolumeStop, attach_volume};
use volume_format::{Table, decode};

// The disk of a number that a set-up line gives, if it gives that.
fn spec_of_line(alloc: Global, act: &SetupAct, number: u32) -> Result<Option<Spec>, AllocError>
    ensures { IfOk result (λ spec. spec
        ≡ (if gives_disk number act.now then given_disk act.now else None)) }
{
    match act {
        SetupAct::Blank { disk, blocks } if *disk == number => Ok(Some(Spec::Blank {
            number,
            blocks: *blocks,
        })),
        SetupAct::Path { disk, path } if *disk == number => {
            let path = PathText::new(alloc, path.bytes())?;
            Ok(Some(Spec::Path { number, path }))
        }
        _ => Ok(None),
    }
}

// The disk of a number that set-up lines give, if one does.
fn spec_numbered(
    alloc: Global,
    setup: &[SetupLine],
    number: u32,
) -> Result<Option<Spec>, AllocError>
    ensures { IfOk result (λ spec. spec ≡ disk_numbered setup.now number) }
{
    for line in setup {
        if let Some(spec) = spec_of_line(alloc, &line.act, number)? {
            return Ok(Some(spec));
        }
    }
    Ok(None)
}

// The disk to which a line joins that of a number as its second, and whether it mirrors the two.
fn joined_to(act: &SetupAct, number: u32) -> Option<(u32, bool)>
    ensures { result ≡ joined_to number act.now }
{
    match act {
        SetupAct::Join {
            disk,
            other,
            mirror,
        } if *disk == number => Some((*other, *mirror)),
        _ => None,
    }
}

// That of the first of these lines that joins it to one.
fn joined_by(setup: &[SetupLine], number: u32) -> Option<(u32, bool)>
    ensures { result ≡ joined_by setup.now number }
{
    for line in setup {
        if let Some(join) = joined_to(&line.act, number) {
            return Some(join);
        }
    }
    None
}

// Does the line join the disk of a number to another as its second?
fn has_second(act: &SetupAct, number: u32) -> bool
    ensures { result ≡ is_second number act.now }
{
    match act {
        SetupAct::Join { other, .. } => *other == number,
        _ => false,
    }
}

// Does one of these lines?
fn is_second(setup: &[SetupLine], number: u32) -> bool
    ensures { result ≡ list_any (λ l. is_second number l.act) setup.now }
{
    setup.iter().any(|line| has_second(&line.act, number))
}

// The second disk of the volume of a number, where a line joins one to it, and whether it mirrors the two.
fn second_numbered(
    alloc: Global,
    setup: &[SetupLine],
    number: u32,
) -> Result<Option<(Spec, bool)>, AllocError>
    ensures { IfOk result (λ second. second ≡ second_numbered setup.now number) }
{
    let Some((other, mirror)) = joined_by(setup, number) else {
        return Ok(None);
    };
    match spec_numbered(alloc, setup, other)? {
        Some(spec) => Ok(Some((spec, mirror))),
        None => Ok(None),
    }
}

/// The volume of a number that set-up lines give, if they give one.
pub(crate) fn volume_numbered(
    alloc: Global,
    setup: &[SetupLine],
    number: u32,
) -> Result<Option<VolumeSpec>, AllocError>
    ensures { IfOk result (λ volume. volume ≡ volume_numbered setup.now number) }
{
    if is_second(setup, number) {
        return Ok(None);
    }
    let Some(first) = spec_numbered(alloc, setup, number)? else {
        return Ok(None);
    };
    match second_numbered(alloc, setup, number)? {
        Some((second, mirror)) => Ok(Some(VolumeSpec::Joined {
            first,
            second,
            mirror,
        })),
        None => Ok(Some(VolumeSpec::Plain(first))),
    }
}

// The table that a block 0 says, which is that of the disk of a number.
fn table_in_block(alloc: Global, number: u32, block: &[u8], blocks: u32) -> Result<Table, OpenStop>
    requires { length block.now ≡ 4096 }
    ensures ok { IfOk result (λ t. (Ok t ≡ reading block.now blocks) × IsVolumeTable t) }
    ensures err { IfErr result (BadTableCause number (reading block.now blocks)) }
{
    match decode(alloc, block, blocks) {
        Ok(Ok(table)) => Ok(table),
        Ok(Err(bad)) => Err(OpenStop::Refused(Refusal::Volume {
            disk: number,
            rule: bad.rule,
        })),
        Err(_) => Err(OpenStop::Memory),
    }
}

// The table that block 0 of a disk says. It tests the disk's size first.
fn read_table<D: Disk>(alloc: Global, disk: &mut Unopened<D>) -> Result<Table, OpenStop>
    ensures number { disk.new.number ≡ disk.old.number }
    ensures reads { OnlyReads (D.seen disk.old.disk) (D.seen disk.new.disk) }
    ensures ok { IfOk result (SaysTableRead (D.seen disk.new.disk)) }
    ensures err { IfErr result (UnreadCause (disk.old.number, D.seen disk.new.disk)) }
    ensures failures { UnlessFailed result
        (failures_told (D.seen disk.new.disk) ≡ failures_told (D.seen disk.old.disk)) }
{
    let number = disk.number();
    let blocks = disk.blocks();
    if blocks < 2 || blocks > 16384 {
        let rule = Refusal::Volume {
            disk: number,
            rule: 0,
        };
        return Err(OpenStop::Refused(rule));
    }
    let mut block = [0; 4096];
    match disk.read(0, &mut block) {
        Ok(()) => table_in_block(alloc, number, &block, blocks),
        Err(fault) => Err(OpenStop::Failed(fault)),
    }
}

// Why the volume's table isn't read, where a disk of it wasn't attached or the sizes of two don't serve.
fn unmounted(why: VolumeStop) -> OpenStop
    ensures { result ≡ unmounted_as why }
{
    match why {
        VolumeStop::Memory => OpenStop::Memory,
        VolumeStop::Failed(fault) => OpenStop::Failed(fault),
        VolumeStop::Size { disk } => OpenStop::Refused(Refusal::Volume { disk, rule: 0 }),
        VolumeStop::Unequal => OpenStop::Refused(Refusal::Rule(15)),
    }
}

// What a disk tells of its blocks is as many blocks as it has.
fn whole_law<D: Disk>()
    ensures { (d : D) → HasBlocks (D.seen d).content (D.seen d).size }
{}

// A disk of a volume that wasn't attached whole stands behind the volumes by itself.
fn put_alone<D: Disk>(disk: Option<Unopened<D>>, disks: &mut Vec<Unopened<JoinedDisk<D>>>)
    requires { vec_len disks.old < vec_capacity disks.old }
    ensures items { volumes_seen D.seen disks.new.items
        ≡ volumes_seen D.seen disks.old.items
        ++ map (numbered_seen D.seen) (option_to_list disk) }
    ensures count { vec_len disks.new ≤ vec_len disks.old + 1 }
    ensures room { vec_capacity disks.new ≡ vec_capacity disks.old }
{
    match disk {
        Some(disk) => disks.push_reserved(disk.alone()),
        None => {}
    }
}

// Attaches a volume, and reads its table. Where the table isn't read, the volume stands behind the others all the same; where it
// wasn't attached whole, those of its disks that were stand there, each by itself.
fn mount<R: Rack>(
    alloc: Global,
    volume: &VolumeSpec,
    rack: &mut R,
    disks: &mut Vec<Unopened<JoinedDisk<Single<R::D>>>>,
    tables: &mut Vec<Table>,
) -> Result<(), OpenStop>
    requires numbers { HasTwoNumbers volume.now }
    requires disks { vec_len disks.old + 1 < vec_capacity disks.old }
    requires tables { vec_len tables.old < vec_capacity tables.old }
    // The volume is there with its table, or why not.
    ensures ok { OnOk result (MountsOne (R.seen rack.old).holds volume.now
        (volumes_seen (single_seen R.D.seen) disks.old.items) (volumes_seen (single_seen R.D.seen) disks.new.items)
        tables.old.items tables.new.items) }
    ensures err { IfErr result (HaltsSpec (R.seen rack.old).holds volume.now
        (R.seen rack.old).faults (R.seen rack.new).faults
        (volumes_seen (single_seen R.D.seen) disks.old.items)
        (volumes_seen (single_seen R.D.seen) disks.new.items)) }
    // What stays.
    ensures others { (s : Spec) → spec_number s ≢ spec_number (first_spec volume.now)
        → ForSome (second_spec volume.now) (λ t. spec_number s ≢ spec_number t)
        → (R.seen rack.new).holds s ≡ (R.seen rack.old).holds s }
    ensures later { (R.seen rack.old).faults ≤ (R.seen rack.new).faults }
    // Unless the rack failed, it counted no fault; unless it or a disk failed, no disk tells one.
    ensures steady { UnlessUngiven result
        ((R.seen rack.new).faults ≡ (R.seen rack.old).faults) }
    ensures uncounted { UnlessFailed result
        (NoneCounted (volumes_seen (single_seen R.D.seen) disks.old.items)
        → NoneCounted (volumes_seen (single_seen R.D.seen) disks.new.items)) }
    // Each disk that the rack attached is in a list.
    ensures count { (R.seen rack.new).attached
        + members_of (bare_disks (volumes_seen (single_seen R.D.seen) disks.old.items))
        ≡ (R.seen rack.old).attached
        + members_of (bare_disks (volumes_seen (single_seen R.D.seen) disks.new.items)) }
    // Room for one volume is taken, or for its two disks.
    ensures disks { OnOk result (vec_len disks.new ≤ vec_len disks.old + 1) }
    ensures most { vec_len disks.new ≤ vec_len disks.old + 2 }
    ensures tables { vec_len tables.new ≤ vec_len tables.old + 1 }
    ensures room { vec_capacity disks.new ≡ vec_capacity disks.old }
    ensures tables_room { vec_capacity tables.new ≡ vec_capacity tables.old }
{
    whole_law::<Single<R::D>>();
    let mut disk = match attach_volume(alloc, rack, volume) {
        Ok(disk) => disk,
        Err(back) => {
            put_alone(back.first, disks);
            put_alone(back.second, disks);
            return Err(unmounted(back.why));
        }
    };
    let read = read_table(alloc, &mut disk);
    disks.push_reserved(disk);
    match read {
        Ok(table) => {
            tables.push_reserved(table);
            Ok(())
        }
        Err(how) => Err(how),
    }
}
// Attaches the volume of a number, and reads its table, where set-up lines give one.
fn mount_numbered<R: Rack>(
    alloc: Global,
    setup: &[SetupLine],
    number: u32,
    rack: &mut R,
    disks: &mut Vec<Unopened<JoinedDisk<Single<R::D>>>>,
    tables: &mut Vec<Table>,
) -> Result<(), OpenStop>
    requires disks { vec_len disks.old + 1 < vec_capacity disks.old }
    requires tables { vec_len tables.old < vec_capacity tables.old }
    ensures ok { OnOk result (MountsNumber setup.now number (R.seen rack.old).holds
        (volumes_seen (single_seen R.D.seen) disks.old.items) (volumes_seen (single_seen R.D.seen) disks.new.items)
        tables.old.items tables.new.items) }
    ensures err { IfErr result (HaltsNumber setup.now number (R.seen rack.old).holds
        (R.seen rack.old).faults (R.seen rack.new).faults
        (volumes_seen (single_seen R.D.seen) disks.old.items)
        (volumes_seen (single_seen R.D.seen) disks.new.items)) }
    // What stays.
    ensures others { (s : Spec) → IsOtherDisk setup.now number s
        → (R.seen rack.new).holds s ≡ (R.seen rack.old).holds s }
    ensures later { (R.seen rack.old).faults ≤ (R.seen rack.new).faults }
    // Unless the rack failed, it counted no fault; unless it or a disk failed, no disk tells one.
    ensures steady { UnlessUngiven result
        ((R.seen rack.new).faults ≡ (R.seen rack.old).faults) }
    ensures uncounted { UnlessFailed result
        (NoneCounted (volumes_seen (single_seen R.D.seen) disks.old.items)
        → NoneCounted (volumes_seen (single_seen R.D.seen) disks.new.items)) }
    // Each disk that the rack attached is in a list.
    ensures count { (R.seen rack.new).attached
        + members_of (bare_disks (volumes_seen (single_seen R.D.seen) disks.old.items))
        ≡ (R.seen rack.old).attached
        + members_of (bare_disks (volumes_seen (single_seen R.D.seen) disks.new.items)) }
    // Room for one volume is taken, or for its two disks.
    ensures disks { OnOk result (vec_len disks.new ≤ vec_len disks.old + 1) }
    ensures most { vec_len disks.new ≤ vec_len disks.old + 2 }
    ensures tables { vec_len tables.new ≤ vec_len tables.old + 1 }
    ensures room { vec_capacity disks.new ≡ vec_capacity disks.old }
    ensures tables_room { vec_capacity tables.new ≡ vec_capacity tables.old }
{
    match volume_numbered(alloc, setup, number) {
        Ok(None) => Ok(()),
        Ok(Some(volume)) => mount(alloc, &volume, rack, disks, tables),
        Err(_) => Err(OpenStop::Memory),
    }
}

/// Attaches the volumes that set-up lines give, in rising number, and reads the table of each before it attaches the next one. It
/// takes no memory for the lists. Where it stops at a volume of two, those of its disks that were attached stand there, each by itself.
pub fn mount_all<R: Rack>(
    alloc: Global,
    setup: &[SetupLine],
    rack: &mut R,
    disks: &mut Vec<Unopened<JoinedDisk<Single<R::D>>>>,
    tables: &mut Vec<Table>,
) -> Result<(), OpenStop>
    requires right { has_wrong_disk setup.now ≡ false }
    requires joins { broken_join setup.now ≡ None }
    requires no_disks { disks.old.items ≡ [] }
    requires no_tables { tables.old.items ≡ [] }
    requires disks { 9 ≤ vec_capacity disks.old }
    requires tables { 8 ≤ vec_capacity tables.old }
    // The volume of each number is attached and read, or it stops at the first that isn't.
    ensures ok { (holds : Holds) → HoldSame (R.seen rack.old).holds holds
        → OnOk result (AreMounted holds (setup_volumes setup.now)
        (volumes_seen (single_seen R.D.seen) disks.new.items) tables.new.items) }
    ensures err { (holds : Holds) → HoldSame (R.seen rack.old).holds holds
        → IfErr result (Halts setup.now holds
        (R.seen rack.old).faults (R.seen rack.new).faults
        (volumes_seen (single_seen R.D.seen) disks.new.items)) }
    // What else holds.
    ensures later { (R.seen rack.old).faults ≤ (R.seen rack.new).faults }
    // Unless the rack failed, it counted no fault; unless it or a disk failed, no disk tells one.
    ensures steady { UnlessUngiven result
        ((R.seen rack.new).faults ≡ (R.seen rack.old).faults) }
    ensures uncounted { UnlessFailed result
        (NoneCounted (volumes_seen (single_seen R.D.seen) disks.new.items)) }
    ensures count { (R.seen rack.new).attached ≡ (R.seen rack.old).attached
        + members_of (bare_disks (volumes_seen (single_seen R.D.seen) disks.new.items)) }
    ensures few { vec_len disks.new ≤ 9 }
    ensures eight { OnOk result (vec_len disks.new ≤ 8) }
{
    for number in 0..8 {
        mount_numbered(alloc, setup, number, rack, disks, tables)?;
    }
    Ok(())
}
