//! The files are placed on the disks.
ghost use Rattle.std.specs.Prelude.{ℕ, ◌≡◌, ◌≤◌, All, List, Option, IfOk, IfErr, None, length, map, option_map};
ghost use Rattle.block_device.specs.declared.rack.Spec.{Spec};
ghost use Rattle.volume_disks.specs.declared.volume_spec.VolumeSpec.{VolumeSpec};
ghost use Rattle.vm_report.specs.vm_script.FileNames.{with_files};
ghost use Rattle.vm_report.specs.vm_script.Rules.{broken_rule};
ghost use Rattle.vm_report.specs.vm_script.Sound.{IsSoundSetup};
ghost use Rattle.volume_format.specs.vnode_files.Vnode.{IsSoundVnode};
ghost use Rattle.volume_files.specs.Attached.{AreAttached, AreMounted, ArePlaced, HasRooms, StopsEarly, attached_seen, bare_disks};
ghost use Rattle.stored_files.specs.Written.{numbered_seen};
ghost use Rattle.volume_files.specs.Handed.{AreUncounted, member_count};
ghost use Rattle.volume_files.specs.Opened.{OpenedFile, numbered_plan};
ghost use Rattle.volume_files.specs.Placing.{Distinct, IsPlaceable, PlaceStopped, PlacesFiles, RemainThere, attached_numbers, found_files, open_stop_of, names_made, placing_read};
ghost use Rattle.stored_files.specs.Uncut.{counts_of};

use crate::attaching::{Attached, hand_back};
use crate::file_lines::add_lines;
use crate::pages::write_lines;
use crate::stops::{HandedBack, OpenStop, Refusal};
use crate::table_files::{PlaceStop, mount};
use block_device::{Disk, Unopened};
use std::alloc::{AllocError, Global};
use vm_report::{ByteText, Plan, SetupLine};
use volume_format::{Files, Table};

/// The disks and the files of a run before its processes run.
#[derive(Drop)]
pub struct Placed<D: Disk> {
    pub attached: Attached<D>,
    pub files: Files,
}

impl PlaceStop {
    // Why the files weren't opened then.
    fn open_stop(self) -> OpenStop
        ensures { result ≡ open_stop_of self }
    {
        match self {
            PlaceStop::Memory => OpenStop::Memory,
            PlaceStop::Rule(rule) => OpenStop::Refused(Refusal::Rule(rule)),
            PlaceStop::Fault(fault) => OpenStop::Failed(fault),
        }
    }
}

// The names of the files, in their order.
fn names_of(alloc: Global, files: &Files) -> Result<Vec<ByteText>, AllocError>
    ensures names { IfOk result (λ names. names.items ≡ names_made files.now) }
    ensures sound { IfOk result (λ _. All IsSoundVnode files.now.files) }
    ensures few { IfOk result (λ _. length files.now.files ≤ 64) }
{
    let mut names = Vec::new(alloc);
    for file in 0..files.count() {
        names.push(ByteText::new(alloc, files.info(file).name.bytes())?)?;
    }
    Ok(names)
}

// Takes the files of the tables, places those of the lines, and writes their pages; all memory is taken before.
fn place_files<D: Disk>(
    alloc: Global,
    setup: &[SetupLine],
    tables: &[Table],
    disks: &mut [Unopened<D>],
) -> Result<(Files, Vec<ByteText>), PlaceStop>
    // The disks are mounted, and the lines keep the rules.
    requires mounted { (holds : Spec → Option (List (List ℕ))) × (specs : List VolumeSpec)
        × AreMounted holds specs (map (numbered_seen D.seen) disks.old) tables.now }
    requires distinct { Distinct (attached_numbers disks.old) }
    requires placeable { All (λ l. IsPlaceable l.act) setup.now }

    // The files are placed, with their names.
    ensures ok { IfOk result (λ r.
        PlacesFiles D.seen setup.now disks.old tables.now disks.new r.0) }
    ensures names { IfOk result (λ r. r.1.items ≡ names_made r.0) }
    ensures sound { IfOk result (λ r. All IsSoundVnode r.0.files) }
    ensures few { IfOk result (λ r. length r.0.files ≤ 64) }

    // Or why not; the disks stay where they are.
    ensures stop { IfErr result (PlaceStopped D.seen
        (length (found_files (map (numbered_seen D.seen) disks.old) tables.now))
        (placing_read D.seen disks.old tables.now setup.now) disks.old disks.new) }
    ensures remain { RemainThere D.seen disks.old disks.new }
    ensures failures { IfOk result (λ _. counts_of (map (numbered_seen D.seen) disks.new)
        ≡ counts_of (map (numbered_seen D.seen) disks.old)) }
{
    let mut files = mount(alloc, disks, tables)?;
    let first = files.count();
    add_lines(alloc, setup, &mut files)?;
    let names = names_of(alloc, &files)?;
    write_lines(setup, first, &files, disks)?;
    Ok((files, names))
}

// Places the files, and gives the plan their numbers.
fn number_files<D: Disk>(
    alloc: Global,
    plan: &mut Plan,
    tables: &[Table],
    disks: &mut [Unopened<D>],
) -> Result<Files, PlaceStop>
    // The disks are mounted, and the lines keep the rules.
    requires mounted { (holds : Spec → Option (List (List ℕ))) × (specs : List VolumeSpec)
        × AreMounted holds specs (map (numbered_seen D.seen) disks.old) tables.now }
    requires distinct { Distinct (attached_numbers disks.old) }
    requires placeable { All (λ l. IsPlaceable l.act) plan.old.setup }

    // The files are placed, and the plan has their numbers.
    ensures ok { IfOk result
        (PlacesFiles D.seen plan.old.setup disks.old tables.now disks.new) }
    ensures plan { IfOk result (λ files. plan.new ≡ with_files (names_made files) plan.old) }
    ensures sound { IfOk result (λ files. All IsSoundVnode files.files) }
    ensures few { IfOk result (λ files. length files.files ≤ 64) }

    // Or why not; the disks stay where they are.
    ensures stop { IfErr result (PlaceStopped D.seen
        (length (found_files (map (numbered_seen D.seen) disks.old) tables.now))
        (placing_read D.seen disks.old tables.now plan.old.setup) disks.old disks.new) }
    ensures remain { RemainThere D.seen disks.old disks.new }
    ensures failures { IfOk result (λ _. counts_of (map (numbered_seen D.seen) disks.new)
        ≡ counts_of (map (numbered_seen D.seen) disks.old)) }
{
    let (files, names) = place_files(alloc, plan.setup(), tables, disks)?;
    plan.set_files(&names);
    Ok(files)
}

/// Takes the files of the disks, places those of the script's lines on them, and writes their pages. The plan gets the numbers of
/// the files of its names.
///
/// An error is want of memory, a fault of a disk, or a rule that is broken; it has all disks. For each file that is placed it
/// looks at each extent of its disk for each of that disk's blocks.
pub fn place<D: Disk>(
    alloc: Global,
    plan: &mut Plan,
    attached: Attached<D>,
) -> Result<Placed<D>, HandedBack<D>>
    requires rules { broken_rule plan.old ≡ None }
    requires sound { IsSoundSetup plan.old.setup }
    requires attached { (holds : Spec → Option (List (List ℕ)))
        × AreAttached plan.old holds (attached_seen D.seen attached) }
    requires rooms { HasRooms attached }

    // The files are placed, and the plan has their numbers; it keeps the rules.
    ensures ok { (holds : Spec → Option (List (List ℕ)))
        → AreAttached plan.old holds (attached_seen D.seen attached)
        → IfOk result (λ p. (files : List OpenedFile)
        × ArePlaced plan.old holds files (attached_seen D.seen p.attached) p.files
        × (plan.new ≡ numbered_plan files plan.old)) }
    ensures rooms { IfOk result (λ p. HasRooms p.attached) }
    ensures kept { IfOk result (λ p.
        member_count (bare_disks (attached_seen D.seen p.attached).disks)
        (attached_seen D.seen p.attached).swap
        ≡ member_count (bare_disks (attached_seen D.seen attached).disks)
        (attached_seen D.seen attached).swap) }
    ensures rules { IfOk result (λ _. broken_rule plan.new ≡ None) }

    // Unless a disk failed, none counted a fault.
    ensures uncounted { AreUncounted (bare_disks (attached_seen D.seen attached).disks)
        (attached_seen D.seen attached).swap
        → IfOk result (λ p. AreUncounted (bare_disks (attached_seen D.seen p.attached).disks)
        (attached_seen D.seen p.attached).swap) }
    ensures lacked { AreUncounted (bare_disks (attached_seen D.seen attached).disks)
        (attached_seen D.seen attached).swap
        → IfErr result (λ s. s.why ≡ OpenStop.Memory
        → AreUncounted (map D.seen s.disks.items) (option_map D.seen s.swap)) }

    // An error: the rack wasn't called.
    ensures err { (holds : Spec → Option (List (List ℕ))) (count : ℕ)
        → AreAttached plan.old holds (attached_seen D.seen attached)
        → IfErr result (StopsEarly plan.old holds count count D.seen) }
    ensures back { IfErr result (λ s.
        member_count (map D.seen s.disks.items) (option_map D.seen s.swap)
        ≡ member_count (bare_disks (attached_seen D.seen attached).disks)
        (attached_seen D.seen attached).swap) }
{
    let mut attached = attached;
    match number_files(alloc, plan, &attached.tables, &mut attached.disks) {
        Ok(files) => Ok(Placed { attached, files }),
        Err(how) => Err(hand_back(how.open_stop(), attached)),
    }
}
