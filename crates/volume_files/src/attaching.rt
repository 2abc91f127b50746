//! The disks are attached, and their tables read.
ghost use Rattle.std.specs.Prelude.{◌≡◌, ◌≤◌, ◌<◌, ◌+◌, [], map, option_map, length, false, None, IfOk, IfErr, IfSome, OnErr, vec_capacity};
ghost use Rattle.vm_report.specs.vm_script.Rules.{amounts_of, broken_join, broken_rule, has_wrong_disk};
ghost use Rattle.volume_disks.specs.Singles.{single_seen};
ghost use Rattle.volume_files.specs.Attached.{AreAttached, HasRooms, StopsEarly, attached_seen, bare_disks};
ghost use Rattle.volume_files.specs.Handed.{AreUncounted, IsSwapAsGiven, IsSwapFor, member_count, swap_members};
ghost use Rattle.joined_disk.specs.JoinedSeen.{joined_seen};
ghost use Rattle.volume_files.specs.Mounting.{HoldSame, UngivenCause};
ghost use Rattle.volume_files.specs.Unfailed.{UnlessFailed, UnlessRack};

use crate::mounting::mount_all;
use crate::stops::{HandedBack, OpenStop};
use block_device::{AttachFault, Disk, Rack, Spec, Unopened};
use joined_disk::JoinedDisk;
use std::alloc::{AllocError, Global};
use vm_report::{Plan, amounts_of};
use volume_disks::{Single, attach_single};
use volume_format::Table;

/// The disks of a run before its processes run, with the tables of their files.
#[derive(Drop)]
pub struct Attached<D: Disk> {
    /// In rising number.
    pub disks: Vec<Unopened<D>>,
    /// The table of each disk.
    pub tables: Vec<Table>,
    pub swap: Option<Unopened<D>>,
    // Room for the disks to be started with, and to be handed back.
    pub numbered: Vec<(u32, D)>,
    pub back: Vec<D>,
}

// No disks yet, with room for eight in each list, and for one more that is handed back: where a volume of two isn't attached whole, both of
// its disks come back in its place.
fn take_rooms<D: Disk>(alloc: Global) -> Result<Attached<D>, AllocError>
    ensures disks { IfOk result (λ a. (a.disks.items ≡ []) × (9 ≤ vec_capacity a.disks)) }
    ensures tables { IfOk result (λ a. (a.tables.items ≡ []) × (8 ≤ vec_capacity a.tables)) }
    ensures swap { IfOk result (λ a. a.swap ≡ None) }
    ensures numbered { IfOk result (λ a. (a.numbered.items ≡ [])
        × (8 ≤ vec_capacity a.numbered)) }
    ensures back { IfOk result (λ a. (a.back.items ≡ []) × (9 ≤ vec_capacity a.back)) }
{
    Ok(Attached {
        disks: Vec::with_capacity(alloc, 9)?,
        tables: Vec::with_capacity(alloc, 8)?,
        swap: None,
        numbered: Vec::with_capacity(alloc, 8)?,
        back: Vec::with_capacity(alloc, 9)?,
    })
}

// Attaches the swap disk, with a block for each slot, where there are slots. It is never joined.
fn attach_swap<R: Rack>(
    slots: u32,
    rack: &mut R,
) -> Result<Option<Unopened<JoinedDisk<Single<R::D>>>>, OpenStop>
    ensures ok { IfOk result (λ swap.
        IsSwapFor slots (option_map (λ d. joined_seen (single_seen R.D.seen) d.disk) swap)) }
    ensures blank { IfOk result (λ swap.
        IsSwapAsGiven slots (option_map (λ d. joined_seen (single_seen R.D.seen) d.disk) swap)) }
    ensures err { IfErr result (UngivenCause 8 (R.seen rack.old).faults (R.seen rack.new).faults) }
    ensures slots { IfErr result (λ _. 0 < slots) }
    // The rack counts the disk.
    ensures counted { IfOk result (λ swap. (R.seen rack.new).attached
        ≡ (R.seen rack.old).attached
        + swap_members (option_map (λ d. joined_seen (single_seen R.D.seen) d.disk) swap)) }
    ensures uncounted { OnErr result ((R.seen rack.new).attached ≡ (R.seen rack.old).attached) }
    ensures same { HoldSame (R.seen rack.new).holds (R.seen rack.old).holds }
    ensures later { (R.seen rack.old).faults ≤ (R.seen rack.new).faults }
    ensures steady { UnlessFailed result
        ((R.seen rack.new).faults ≡ (R.seen rack.old).faults) }
    ensures unfailed { IfOk result (λ swap.
        IfSome (option_map (λ d. joined_seen (single_seen R.D.seen) d.disk) swap) (λ d. d.faults ≡ 0)) }
{
    if slots == 0 {
        return Ok(None);
    }
    let spec = Spec::Blank {
        number: 8,
        blocks: slots,
    };
    match attach_single(rack, &spec) {
        Ok(disk) => Ok(Some(disk.alone())),
        Err(AttachFault::Failed(fault)) => Err(OpenStop::Failed(fault)),
        Err(AttachFault::Memory) => Err(OpenStop::Memory),
    }
}

/// The disks as they are, in a list that has room for them. It takes no memory.
pub fn into_disks<D: Disk>(disks: Vec<Unopened<D>>, back: Vec<D>) -> Vec<D>
    requires none { back.items ≡ [] }
    requires room { length disks.items ≤ vec_capacity back }
    ensures { result.items ≡ map (λ d. d.disk) disks.items }
{
    let mut back = back;
    for disk in disks {
        back.push_reserved(disk.into_disk());
    }
    back
}

/// The swap disk as it is.
pub fn into_swap<D: Disk>(swap: Option<Unopened<D>>) -> Option<D>
    ensures { result ≡ option_map (λ d. d.disk) swap }
{
    match swap {
        Some(disk) => Some(disk.into_disk()),
        None => None,
    }
}

// The disks that were attached, handed back. It takes no memory.
pub(crate) fn hand_back<D: Disk>(why: OpenStop, attached: Attached<D>) -> HandedBack<D>
    requires none { attached.back.items ≡ [] }
    requires room { length attached.disks.items ≤ vec_capacity attached.back }
    // The disks come back.
    ensures why { result.why ≡ why }
    ensures disks { result.disks.items ≡ map (λ d. d.disk) attached.disks.items }
    ensures swap { result.swap ≡ option_map (λ d. d.disk) attached.swap }
    ensures count { member_count (map D.seen result.disks.items) (option_map D.seen result.swap)
        ≡ member_count (bare_disks (attached_seen D.seen attached).disks)
        (attached_seen D.seen attached).swap }
{
    HandedBack {
        why,
        disks: into_disks(attached.disks, attached.back),
        swap: into_swap(attached.swap),
    }
}

// Attaches the disks that set-up lines give into rooms that are empty.
fn attach_within<R: Rack>(
    alloc: Global,
    plan: &Plan,
    rack: &mut R,
    rooms: Attached<JoinedDisk<Single<R::D>>>,
) -> Result<Attached<JoinedDisk<Single<R::D>>>, HandedBack<JoinedDisk<Single<R::D>>>>
    requires right { has_wrong_disk plan.now.setup ≡ false }
    requires joins { broken_join plan.now.setup ≡ None }
    requires disks { (rooms.disks.items ≡ []) × (9 ≤ vec_capacity rooms.disks) }
    requires tables { (rooms.tables.items ≡ []) × (8 ≤ vec_capacity rooms.tables) }
    requires swap { rooms.swap ≡ None }
    requires numbered { (rooms.numbered.items ≡ []) × (8 ≤ vec_capacity rooms.numbered) }
    requires back { (rooms.back.items ≡ []) × (9 ≤ vec_capacity rooms.back) }
    // As `attach`.
    ensures ok { IfOk result (λ a. AreAttached plan.now (R.seen rack.old).holds
        (attached_seen (joined_seen (single_seen R.D.seen)) a)) }
    ensures rooms { IfOk result HasRooms }
    ensures err { IfErr result (StopsEarly plan.now (R.seen rack.old).holds
        (R.seen rack.old).faults (R.seen rack.new).faults (joined_seen (single_seen R.D.seen))) }
    // Each disk that the rack attached is there, or is handed back.
    ensures kept { IfOk result (λ a. (R.seen rack.new).attached ≡ (R.seen rack.old).attached
        + member_count (bare_disks (attached_seen (joined_seen (single_seen R.D.seen)) a).disks)
        (attached_seen (joined_seen (single_seen R.D.seen)) a).swap) }
    ensures back { IfErr result (λ s. (R.seen rack.new).attached ≡ (R.seen rack.old).attached
        + member_count (map (joined_seen (single_seen R.D.seen)) s.disks.items)
        (option_map (joined_seen (single_seen R.D.seen)) s.swap)) }
    ensures later { (R.seen rack.old).faults ≤ (R.seen rack.new).faults }
    // Unless the rack or a disk failed, none counted a fault.
    ensures steady { IfOk result (λ _. (R.seen rack.new).faults ≡ (R.seen rack.old).faults) }
    ensures uncounted { IfOk result (λ a.
        AreUncounted (bare_disks (attached_seen (joined_seen (single_seen R.D.seen)) a).disks)
        (attached_seen (joined_seen (single_seen R.D.seen)) a).swap) }
    ensures rack { IfErr result (λ s. UnlessRack s.why
        ((R.seen rack.new).faults ≡ (R.seen rack.old).faults)) }
    ensures lacked { IfErr result (λ s. s.why ≡ OpenStop.Memory
        → AreUncounted (map (joined_seen (single_seen R.D.seen)) s.disks.items)
        (option_map (joined_seen (single_seen R.D.seen)) s.swap)) }
{
    let mut attached = rooms;
    let swap = match attach_swap(amounts_of(plan.setup()).slots, rack) {
        Ok(swap) => swap,
        Err(how) => return Err(hand_back(how, attached)),
    };
    attached.swap = swap;
    match mount_all(
        alloc,
        plan.setup(),
        rack,
        &mut attached.disks,
        &mut attached.tables,
    ) {
        Ok(()) => Ok(attached),
        Err(how) => Err(hand_back(how, attached)),
    }
}

/// Attaches the swap disk, where there are slots, and then the disks in rising number, and reads the table of each.
///
/// An error is want of memory, a fault of the rack or of a disk, or a disk whose size or table breaks a rule; it has the disks
/// that were attached so far.
pub fn attach<R: Rack>(
    alloc: Global,
    plan: &Plan,
    rack: &mut R,
) -> Result<Attached<JoinedDisk<Single<R::D>>>, HandedBack<JoinedDisk<Single<R::D>>>>
    requires { broken_rule plan.now ≡ None }
    ensures ok { IfOk result (λ a. AreAttached plan.now (R.seen rack.old).holds
        (attached_seen (joined_seen (single_seen R.D.seen)) a)) }
    ensures rooms { IfOk result HasRooms }
    ensures err { IfErr result (StopsEarly plan.now (R.seen rack.old).holds
        (R.seen rack.old).faults (R.seen rack.new).faults (joined_seen (single_seen R.D.seen))) }
    // Each disk that the rack attached is there, or is handed back.
    ensures kept { IfOk result (λ a. (R.seen rack.new).attached ≡ (R.seen rack.old).attached
        + member_count (bare_disks (attached_seen (joined_seen (single_seen R.D.seen)) a).disks)
        (attached_seen (joined_seen (single_seen R.D.seen)) a).swap) }
    ensures back { IfErr result (λ s. (R.seen rack.new).attached ≡ (R.seen rack.old).attached
        + member_count (map (joined_seen (single_seen R.D.seen)) s.disks.items)
        (option_map (joined_seen (single_seen R.D.seen)) s.swap)) }
    ensures later { (R.seen rack.old).faults ≤ (R.seen rack.new).faults }
    // Unless the rack or a disk failed, none counted a fault.
    ensures steady { IfOk result (λ _. (R.seen rack.new).faults ≡ (R.seen rack.old).faults) }
    ensures uncounted { IfOk result (λ a.
        AreUncounted (bare_disks (attached_seen (joined_seen (single_seen R.D.seen)) a).disks)
        (attached_seen (joined_seen (single_seen R.D.seen)) a).swap) }
    ensures rack { IfErr result (λ s. UnlessRack s.why
        ((R.seen rack.new).faults ≡ (R.seen rack.old).faults)) }
    ensures lacked { IfErr result (λ s. s.why ≡ OpenStop.Memory
        → AreUncounted (map (joined_seen (single_seen R.D.seen)) s.disks.items)
        (option_map (joined_seen (single_seen R.D.seen)) s.swap)) }
{
    match take_rooms(alloc) {
        Ok(rooms) => attach_within(alloc, plan, rack, rooms),
        Err(_) => Err(HandedBack {
            why: OpenStop::Memory,
            disks: Vec::new(alloc),
            swap: None,
        }),
    }
}
