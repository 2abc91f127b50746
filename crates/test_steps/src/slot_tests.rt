//! Places that are emptied, and pages that are copied, over a swap disk in memory: two private mappings of a process hold one slot. And an object
//! of zeros that is dropped.
ghost use Rattle.std.specs.Prelude.{◌≡◌, ◌<◌, ℕ, true, false, Some, None, IfOk, IfSome, IsTrue, IsSome, slice_index_or};
ghost use Rattle.anon_slots.specs.Slots.{count_at};
ghost use Rattle.block_device.specs.MemDiskLook.{look};
ghost use Rattle.block_device.specs.MemSeen.{disk_of};
ghost use Rattle.hat_layer.specs.Pool.{translation_at};
ghost use Rattle.seg_ops.specs.page_store.Steps.{next_frame};
ghost use Rattle.seg_ops.specs.vm_world.World.{world_seen, slot_in};
ghost use Rattle.test_steps.specs.SlotTrials.{HoldsOne, IsHoldingPlace, holding_maps, holding_slots, holding_spaces, object_spaces};
ghost use Rattle.test_steps.specs.PageTrials.{IsTrialIn, IsTrialOutIn};

use anon_map::AnonMaps;
use anon_slots::AnonSlots;
use block_device::{Block, MemDisk};
use hat_layer::Hat;
use seg_ops::{
    Flight, PageName, Plan, Residence, SWAP_OBJECT, Store, Wants, World, ZeroObjects, ask,
    begin_read, copy_slot, drop_object, drop_places, drop_slot, end_flight, front_kept, leave_slot,
    make_zero,
};
use std::alloc::{AllocError, Global};
use std::test::Fail;
use vnode_files::Files;

#[derive(Clone, Copy)]
enum Act {
    /// Reads the page of this slot in.
    Read(u32),
    /// Gives the first place of this map a slot of its own, where others hold its slot.
    Copy(u32),
    /// Empties this place of this map.
    Empty(u32, u32),
    /// Empties all places of this map.
    Clear(u32),
    /// How many places hold this slot.
    Count(u32),
    /// Whether the page of this slot is home.
    Home(u32),
}

#[derive(Clone, Copy)]
enum ObjectAct {
    /// Makes a page of zeros for this place of the object.
    Zero(u32),
    /// Drops the object.
    Drop,
    /// How many places hold this slot.
    Count(u32),
    /// Whether the page of this slot is home.
    Home(u32),
    /// Whether a frame can be taken.
    Room,
}

#[derive(Clone, Copy, PartialEq, Eq)]
enum Told {
    Yes,
    /// The act can't be done now.
    No,
    Slot(u32),
    Count(u32),
}

fn page_of_slot(slot: u32) -> PageName
    ensures { result ≡ record { object = 64; page = slot } }
{
    PageName {
        object: SWAP_OBJECT,
        page: slot,
    }
}

/// A disk of seven blocks.
fn swap_disk(alloc: Global) -> Result<MemDisk, AllocError>
    ensures { IfOk result (λ disk. (disk_of (look disk)).size ≡ 7) }
{
    let blocks = [
        Block::new([0x10; 4096]),
        Block::new([0x11; 4096]),
        Block::new([0x12; 4096]),
        Block::new([0x13; 4096]),
        Block::new([0x14; 4096]),
        Block::new([0x15; 4096]),
        Block::new([0x16; 4096]),
    ];
    Ok(MemDisk::from_blocks(blocks.to_vec(alloc)?, [99u64].to_vec(alloc)?))
}

/// Seven slots, of which two places hold the first, whose page was pushed.
fn one_slot(alloc: Global) -> Result<AnonSlots, AllocError>
    ensures { IfOk result (HoldsOne true) }
{
    let mut anon = AnonSlots::new(alloc, 7)?;
    let Ok(()) = anon.reserve(4) else {
        return Err(AllocError);
    };
    let slot = anon.make();
    anon.dup(slot);
    anon.set_swapped(slot);
    Ok(anon)
}

/// Two maps of two places, of which the first holds slot 0.
fn both_maps(alloc: Global) -> Result<AnonMaps, AllocError>
    ensures { IfOk result (λ maps. maps ≡ holding_maps) }
{
    let mut maps = AnonMaps::new(alloc);
    let first = maps.make(2)?;
    let second = maps.make(2)?;
    maps.set(first, 0, Some(0));
    maps.set(second, 0, Some(0));
    Ok(maps)
}

/// A world that fits with a process with two private mappings.
fn new_world(alloc: Global) -> Result<World<MemDisk>, AllocError>
    ensures fits { IfOk result (λ world. IsTrialIn holding_spaces (world_seen world)) }
    ensures anon { IfOk result (λ world. world.anon ≡ holding_slots true) }
    ensures maps { IfOk result (λ world. world.maps ≡ holding_maps) }
{
    let swap = swap_disk(alloc)?;
    let anon = one_slot(alloc)?;
    let maps = both_maps(alloc)?;
    let hat = Hat::new(alloc, 2, 2)?;
    let disks = Vec::new(alloc);
    let Ok(store) = Store::new(alloc, 2, disks, Some(swap)) else {
        return Err(AllocError);
    };
    Ok(World {
        store,
        anon,
        maps,
        hat,
        files: Files::new(alloc),
        zeros: ZeroObjects::new(alloc),
        pending: 0,
    })
}

/// The world where the process shows an object of zeros too.
fn object_world(alloc: Global) -> Result<World<MemDisk>, AllocError>
    ensures { IfOk result (λ world. IsTrialIn object_spaces (world_seen world)) }
{
    let mut world = new_world(alloc)?;
    let Ok(()) = world.anon.reserve(3) else {
        return Err(AllocError);
    };
    world.maps.make(3)?;
    Ok(world)
}

/// Whether it is a place of one of the maps, whose page has no translation.
fn is_place(world: &World<MemDisk>, map: u32, place: u32) -> bool
    requires fits { IsTrialIn holding_spaces (world_seen world.now) }
    ensures { IsTrue result → IsHoldingPlace (world_seen world.now) map place }
{
    if map >= 2 || place >= 2 || !world.maps.is_there(map) {
        return false;
    }
    place < world.maps.pages(map) && world.hat.find(1, 2 * map + 1 + place).is_none()
}

/// Makes a transfer, for seat 1, and ends it.
fn fly(world: &mut World<MemDisk>, mut flight: Flight<MemDisk>) -> Told
    requires out { IsTrialOutIn holding_spaces (world_seen world.old) flight }
    ensures fits { IsTrialIn holding_spaces (world_seen world.new) }
{
    let result = flight.perform();
    end_flight(world, flight);
    match result {
        Ok(()) => Told::Yes,
        Err(_) => Told::No,
    }
}

fn read_in(world: &mut World<MemDisk>, slot: u32) -> Told
    requires used { 0 < count_at world.old.anon slot }
    requires swapped { slice_index_or world.old.anon.swapped slot false ≡ true }
    requires available { IsSome (next_frame world.old.store) }
    requires fits { IsTrialIn holding_spaces (world_seen world.old) }
    ensures fits { IsTrialIn holding_spaces (world_seen world.new) }
{
    let name = page_of_slot(slot);
    match world.store.resident(name) {
        Residence::Absent => match ask(world, Plan::Read(name)) {
            Wants::Transfer(_) => {
                let flight = begin_read(world, 1, name);
                fly(world, flight)
            }
            Wants::Seat(_) => Told::No,
        },
        Residence::Home(_) => Told::No,
        Residence::Moving(_) => Told::No,
    }
}

fn try_read(world: &mut World<MemDisk>, slot: u32) -> Told
    requires fits { IsTrialIn holding_spaces (world_seen world.old) }
    ensures fits { IsTrialIn holding_spaces (world_seen world.new) }
{
    if slot >= world.anon.slots() || world.anon.count(slot) == 0 {
        return Told::No;
    }
    if !world.anon.swapped(slot) || !world.store.available() {
        return Told::No;
    }
    read_in(world, slot)
}

/// The slot that a place holds, and how many places hold it.
fn held(world: &World<MemDisk>, map: u32, place: u32) -> Option<(u32, u32)>
    requires place { IsHoldingPlace (world_seen world.now) map place }
    requires fits { IsTrialIn holding_spaces (world_seen world.now) }
    ensures { IfSome result (λ pair. (slot_in world.now.maps map place ≡ Some pair.0)
        × (pair.1 ≡ count_at world.now.anon pair.0) × (0 < pair.1)) }
{
    let slot = world.maps.get(map, place)?;
    Some((slot, world.anon.count(slot)))
}

fn try_copy(world: &mut World<MemDisk>, map: u32) -> Told
    requires fits { IsTrialIn holding_spaces (world_seen world.old) }
    ensures fits { IsTrialIn holding_spaces (world_seen world.new) }
{
    if !is_place(world, map, 0) || !world.store.available() {
        return Told::No;
    }
    let Some((slot, count)) = held(world, map, 0) else {
        return Told::No;
    };
    let name = page_of_slot(slot);
    match world.store.resident(name) {
        Residence::Home(frame) => {
            if count == 1 || world.store.listed(frame) {
                return Told::No;
            }
            let front = front_kept(world, name, frame);
            Told::Slot(copy_slot(world, front, map, 0, slot))
        }
        Residence::Absent => Told::No,
        Residence::Moving(_) => Told::No,
    }
}

fn try_empty(world: &mut World<MemDisk>, map: u32, place: u32) -> Told
    requires fits { IsTrialIn holding_spaces (world_seen world.old) }
    ensures fits { IsTrialIn holding_spaces (world_seen world.new) }
{
    if !is_place(world, map, place) {
        return Told::No;
    }
    let Some((slot, count)) = held(world, map, place) else {
        return Told::No;
    };
    if count == 1 {
        drop_slot(world, map, place, slot);
    } else {
        leave_slot(world, map, place, slot);
    }
    Told::Yes
}

fn try_clear(world: &mut World<MemDisk>, map: u32) -> Told
    requires fits { IsTrialIn holding_spaces (world_seen world.old) }
    ensures fits { IsTrialIn holding_spaces (world_seen world.new) }
{
    if map >= 2 || !is_place(world, map, 0) || !is_place(world, map, 1) {
        return Told::No;
    }
    drop_places(world, map, 0, 2);
    Told::Yes
}

fn count(world: &World<MemDisk>, slot: u32) -> Told {
    if slot >= world.anon.slots() {
        return Told::No;
    }
    Told::Count(world.anon.count(slot))
}

fn is_home(world: &World<MemDisk>, slot: u32) -> Told {
    match world.store.resident(page_of_slot(slot)) {
        Residence::Home(_) => Told::Yes,
        Residence::Absent => Told::No,
        Residence::Moving(_) => Told::No,
    }
}

fn make(world: &mut World<MemDisk>, act: Act) -> Told
    requires fits { IsTrialIn holding_spaces (world_seen world.old) }
    ensures fits { IsTrialIn holding_spaces (world_seen world.new) }
{
    match act {
        Act::Read(slot) => try_read(world, slot),
        Act::Copy(map) => try_copy(world, map),
        Act::Empty(map, place) => try_empty(world, map, place),
        Act::Clear(map) => try_clear(world, map),
        Act::Count(slot) => count(world, slot),
        Act::Home(slot) => is_home(world, slot),
    }
}

/// Makes the acts. It fails at the first of which something else is told.
fn make_all(world: &mut World<MemDisk>, acts: &[(Act, Told)]) -> Result<(), Fail>
    requires fits { IsTrialIn holding_spaces (world_seen world.old) }
{
    for (place, &(act, told)) in acts.iter().enumerate() {
        let made = make(world, act);
        if made != told {
            return Err(Fail::new(format_args!("act {place} is told something else")));
        }
    }
    Ok(())
}

/// Whether a page of the process has no translation.
fn is_unloaded(world: &World<MemDisk>, page: u32) -> bool
    ensures { IsTrue result → translation_at world.now.hat.places 1 page ≡ None }
{
    world.hat.find(1, page).is_none()
}

/// Makes a page of zeros for a place of the object.
fn try_zero(world: &mut World<MemDisk>, place: u32) -> Told
    requires fits { IsTrialIn object_spaces (world_seen world.old) }
    ensures fits { IsTrialIn object_spaces (world_seen world.new) }
{
    if !world.maps.is_there(2) || !world.store.available() {
        return Told::No;
    }
    if place >= world.maps.pages(2) {
        return Told::No;
    }
    match world.maps.get(2, place) {
        Some(_) => Told::No,
        None => Told::Slot(make_zero(world, 2, place)),
    }
}

fn try_drop(world: &mut World<MemDisk>) -> Told
    requires fits { IsTrialIn object_spaces (world_seen world.old) }
    ensures fits { IsTrialIn object_spaces (world_seen world.new) }
{
    let first = is_unloaded(world, 5);
    let second = is_unloaded(world, 6);
    let third = is_unloaded(world, 7);
    if !first || !second || !third {
        return Told::No;
    }
    if !world.maps.is_there(2) {
        return Told::No;
    }
    drop_object(world, 2);
    Told::Yes
}

fn has_room(world: &World<MemDisk>) -> Told {
    if world.store.available() {
        return Told::Yes;
    }
    Told::No
}

fn make_of_object(world: &mut World<MemDisk>, act: ObjectAct) -> Told
    requires fits { IsTrialIn object_spaces (world_seen world.old) }
    ensures fits { IsTrialIn object_spaces (world_seen world.new) }
{
    match act {
        ObjectAct::Zero(place) => try_zero(world, place),
        ObjectAct::Drop => try_drop(world),
        ObjectAct::Count(slot) => count(world, slot),
        ObjectAct::Home(slot) => is_home(world, slot),
        ObjectAct::Room => has_room(world),
    }
}

/// Makes the acts of the object. It fails at the first of which something else is told.
fn make_all_of_object(world: &mut World<MemDisk>, acts: &[(ObjectAct, Told)]) -> Result<(), Fail>
    requires fits { IsTrialIn object_spaces (world_seen world.old) }
{
    for (place, &(act, told)) in acts.iter().enumerate() {
        let made = make_of_object(world, act);
        if made != told {
            return Err(Fail::new(format_args!("act {place} is told something else")));
        }
    }
    Ok(())
}

/// A page that two places hold is left by one of them, and dropped by the other.
const LEFT: [(Act, Told); 10] = [
    (Act::Count(0), Told::Count(2)),
    (Act::Home(0), Told::No),
    (Act::Empty(1, 0), Told::Yes),
    (Act::Count(0), Told::Count(1)),
    (Act::Empty(1, 0), Told::No),
    (Act::Read(0), Told::Yes),
    (Act::Home(0), Told::Yes),
    (Act::Empty(0, 0), Told::Yes),
    (Act::Count(0), Told::Count(0)),
    (Act::Home(0), Told::No),
];

/// The page is copied for one of them. Then each is dropped, and nothing is home.
const COPIED: [(Act, Told); 17] = [
    (Act::Copy(1), Told::No),
    (Act::Read(0), Told::Yes),
    (Act::Copy(1), Told::Slot(1)),
    (Act::Count(0), Told::Count(1)),
    (Act::Count(1), Told::Count(1)),
    (Act::Home(0), Told::Yes),
    (Act::Home(1), Told::Yes),
    (Act::Copy(1), Told::No),
    (Act::Copy(0), Told::No),
    (Act::Clear(1), Told::Yes),
    (Act::Count(1), Told::Count(0)),
    (Act::Home(1), Told::No),
    (Act::Home(0), Told::Yes),
    (Act::Clear(1), Told::Yes),
    (Act::Clear(0), Told::Yes),
    (Act::Count(0), Told::Count(0)),
    (Act::Home(0), Told::No),
];

/// Two places of the object have slots, whose pages take both frames, and one never had a slot. The object is dropped.
const DROPPED: [(ObjectAct, Told); 11] = [
    (ObjectAct::Zero(0), Told::Slot(1)),
    (ObjectAct::Zero(2), Told::Slot(2)),
    (ObjectAct::Count(1), Told::Count(1)),
    (ObjectAct::Home(2), Told::Yes),
    (ObjectAct::Room, Told::No),
    (ObjectAct::Drop, Told::Yes),
    (ObjectAct::Count(1), Told::Count(0)),
    (ObjectAct::Count(2), Told::Count(0)),
    (ObjectAct::Home(2), Told::No),
    (ObjectAct::Room, Told::Yes),
    (ObjectAct::Count(0), Told::Count(2)),
];

// The only owner of a world with two mappings: each further owner would be as long to prove.
fn make_in_new_world(alloc: Global, acts: &[(Act, Told)]) -> Result<(), Fail> {
    let mut world = new_world(alloc)?;
    make_all(&mut world, acts)
}

#[test]
fn places_are_emptied(rt: HostRuntime) -> Result<(), Fail> {
    make_in_new_world(rt.alloc(), &LEFT)
}

#[test]
fn pages_are_copied(rt: HostRuntime) -> Result<(), Fail> {
    make_in_new_world(rt.alloc(), &COPIED)
}

#[test]
fn an_object_is_dropped(rt: HostRuntime) -> Result<(), Fail> {
    let mut world = object_world(rt.alloc())?;
    make_all_of_object(&mut world, &DROPPED)
}
