//! The steps over a disk in memory that fails twice: two frames, and a file of three pages, of which the first two are blank.
ghost use Rattle.std.specs.Prelude.{◌≡◌, ◌<◌, ℕ, length, IfOk, IsTrue, IsSome};
ghost use Rattle.block_device.specs.MemDiskLook.{look};
ghost use Rattle.block_device.specs.MemSeen.{disk_of};
ghost use Rattle.core_arena.specs.Bytes.{bytes_at};
ghost use Rattle.seg_ops.specs.page_store.Seen.{residence};
ghost use Rattle.seg_ops.specs.vm_world.World.{world_seen, file_name};
ghost use Rattle.test_steps.specs.PageTrials.{IsTrial, IsTrialFile, IsTrialOut, IsTrialPage};

use anon_map::AnonMaps;
use anon_slots::AnonSlots;
use block_device::{Block, MemDisk};
use hat_layer::Hat;
use seg_ops::{
    Flight, PageName, Plan, Residence, Store, Wants, World, ZeroObjects, ask, begin_push,
    begin_read, end_flight, fetch, fill, frame_for, make_room, pages_in, read, show, sync, write,
};
use std::alloc::{AllocError, Global};
use std::test::Fail;
use vnode_files::{Extent, Extents, FileInfo, FileName, Files};

#[derive(Clone, Copy)]
pub(crate) enum Act {
    /// Takes a frame for this page of the file.
    Fill(u32),
    /// Loads the translation of this page of the file.
    Show(u32),
    /// Reads the word at this address of the process.
    Get(u32),
    /// Puts this word at this address of the process.
    Put(u32, u32),
    /// Makes room, while this page of the file is home.
    Room(u32),
    /// Asks what this page of the file needs, while the other one is home.
    Fetch(u32, u32),
    /// Reads this page of the file in.
    Read(u32),
    /// Pushes this page of the file, where it is modified.
    Push(u32),
}

#[derive(Clone, Copy, PartialEq, Eq)]
pub(crate) enum Told {
    Yes,
    /// The act can't be done now.
    No,
    /// The disk failed.
    Failed,
    Word(u32),
    /// This page has to be pushed first.
    Dirty(PageName),
    Wants(Wants),
}

const FIRST: PageName = PageName { object: 0, page: 0 };

const MIDDLE: PageName = PageName { object: 0, page: 1 };

pub(crate) const LAST: PageName = PageName { object: 0, page: 2 };

pub(crate) fn page_of_file(page: u32) -> PageName
    ensures { result ≡ record { object = 0; page = page } }
{
    PageName { object: 0, page }
}

/// A disk of four blocks, whose calls 2 and 5 fail.
fn new_disk(alloc: Global) -> Result<MemDisk, AllocError>
    ensures size { IfOk result (λ disk. (disk_of (look disk)).size ≡ 4) }
    ensures faults { IfOk result (λ disk. (disk_of (look disk)).faults ≡ 0) }
{
    let blocks = [
        Block::new([0x10; 4096]),
        Block::new([0x11; 4096]),
        Block::new([0x12; 4096]),
        Block::new([0x13; 4096]),
    ];
    Ok(MemDisk::from_blocks(blocks.to_vec(alloc)?, [2u64, 5].to_vec(alloc)?))
}

fn new_info(alloc: Global) -> Result<FileInfo, AllocError>
    ensures { IfOk result IsTrialFile }
{
    Ok(FileInfo {
        name: FileName::new(b"log"),
        disk: 0,
        extents: Extents::new(alloc, &[Extent { start: 1, pages: 3 }])?,
        length: 12288,
        writable: true,
    })
}

/// A world that fits with process 1, which shows the file from its page 1 on.
pub(crate) fn new_world(alloc: Global) -> Result<World<MemDisk>, AllocError>
    ensures { IfOk result (λ world. IsTrial (world_seen world)) }
{
    let mut files = Files::new(alloc);
    files.set_disk(0, 4)?;
    let _ = files.add(new_info(alloc)?)?;
    files.set_blank(0, 0, true);
    files.set_blank(0, 1, true);
    let _ = files.info(0);
    let mut disks = Vec::with_capacity(alloc, 1)?;
    disks.push_reserved((0, new_disk(alloc)?));
    let anon = AnonSlots::new(alloc, 0)?;
    let hat = Hat::new(alloc, 2, 2)?;
    let Ok(store) = Store::new(alloc, 2, disks, None) else {
        return Err(AllocError);
    };
    Ok(World {
        store,
        anon,
        maps: AnonMaps::new(alloc),
        hat,
        files,
        zeros: ZeroObjects::new(alloc),
        pending: 0,
    })
}

/// Whether the file has this page.
pub(crate) fn has_page(world: &World<MemDisk>, page: u32) -> bool
    ensures { IsTrue result → IsTrialPage world.now.files world.now.anon page }
{
    world.files.count() > 0
        && page < world.files.kept(0)
        && page < pages_in(world.files.info(0).length)
}

/// Whether this page of the file is home.
pub(crate) fn is_home(world: &World<MemDisk>, page: u32) -> bool
    ensures { IsTrue result → (frame : ℕ) × IsSome (bytes_at world.now.store.frames frame) }
{
    match world.store.resident(page_of_file(page)) {
        Residence::Home(_) => true,
        Residence::Absent => false,
        Residence::Moving(_) => false,
    }
}

fn try_fill(world: &mut World<MemDisk>, page: u32) -> Told
    requires fits { IsTrial (world_seen world.old) }
    ensures fits { IsTrial (world_seen world.new) }
{
    if !has_page(world, page) || !world.files.blank(0, page) || !world.store.available() {
        return Told::No;
    }
    match world.store.resident(page_of_file(page)) {
        Residence::Absent => {
            fill(world, 0, page);
            Told::Yes
        }
        Residence::Home(_) => Told::No,
        Residence::Moving(_) => Told::No,
    }
}

fn try_show(world: &mut World<MemDisk>, page: u32) -> Told
    requires fits { IsTrial (world_seen world.old) }
    ensures fits { IsTrial (world_seen world.new) }
{
    let name = page_of_file(page);
    match world.store.resident(name) {
        Residence::Home(frame) => {
            if page >= 3 {
                return Told::No;
            }
            show(world, 1, page + 1, name, frame, true);
            Told::Yes
        }
        Residence::Absent => Told::No,
        Residence::Moving(_) => Told::No,
    }
}

fn try_get(world: &mut World<MemDisk>, addr: u32) -> Told
    requires fits { IsTrial (world_seen world.old) }
    ensures fits { IsTrial (world_seen world.new) }
{
    if addr % 4 != 0 {
        return Told::No;
    }
    match frame_for(world, 1, addr / 4096, false) {
        Some(frame) => Told::Word(read(world, frame, addr, 4)),
        None => Told::No,
    }
}

fn try_put(world: &mut World<MemDisk>, addr: u32, value: u32) -> Told
    requires fits { IsTrial (world_seen world.old) }
    ensures fits { IsTrial (world_seen world.new) }
{
    if addr % 4 != 0 {
        return Told::No;
    }
    match frame_for(world, 1, addr / 4096, true) {
        Some(frame) => {
            write(world, frame, addr, 4, value);
            Told::Yes
        }
        None => Told::No,
    }
}

fn try_room(world: &mut World<MemDisk>, home: u32) -> Told
    requires fits { IsTrial (world_seen world.old) }
    ensures fits { IsTrial (world_seen world.new) }
{
    if !is_home(world, home) {
        return Told::No;
    }
    match make_room(world) {
        None => Told::Yes,
        Some(page) => Told::Dirty(page),
    }
}

fn try_fetch(world: &mut World<MemDisk>, page: u32, home: u32) -> Told
    requires fits { IsTrial (world_seen world.old) }
    ensures fits { IsTrial (world_seen world.new) }
{
    let name = page_of_file(page);
    if !has_page(world, page) || world.files.blank(0, page) || !is_home(world, home) {
        return Told::No;
    }
    match world.store.resident(name) {
        Residence::Absent => Told::Wants(fetch(world, name)),
        Residence::Home(_) => Told::No,
        Residence::Moving(_) => Told::No,
    }
}

/// Makes a transfer, for seat 1, and ends it.
fn fly(world: &mut World<MemDisk>, mut flight: Flight<MemDisk>) -> Told
    requires out { IsTrialOut (world_seen world.old) flight }
    ensures fits { IsTrial (world_seen world.new) }
{
    let result = flight.perform();
    end_flight(world, flight);
    match result {
        Ok(()) => Told::Yes,
        Err(_) => Told::Failed,
    }
}

fn try_read(world: &mut World<MemDisk>, page: u32) -> Told
    requires fits { IsTrial (world_seen world.old) }
    ensures fits { IsTrial (world_seen world.new) }
{
    let name = page_of_file(page);
    if !has_page(world, page) || world.files.blank(0, page) || !world.store.available() {
        return Told::No;
    }
    match world.store.resident(name) {
        Residence::Absent => match ask(world, Plan::Read(name)) {
            Wants::Transfer(_) => {
                let flight = begin_read(world, 1, name);
                fly(world, flight)
            }
            Wants::Seat(_) => Told::No,
        },
        Residence::Home(_) => Told::No,
        Residence::Moving(_) => Told::No,
    }
}

/// Pushes a page in this frame, whose bits are gathered.
fn push_gathered(world: &mut World<MemDisk>, page: u32, frame: u32) -> Told
    requires home { residence world.old.store (file_name 0 page) ≡ Residence.Home frame }
    requires frame { frame < length world.old.store.frames }
    requires fits { IsTrial (world_seen world.old) }
    ensures fits { IsTrial (world_seen world.new) }
{
    let name = page_of_file(page);
    if !has_page(world, page) || !world.store.bits(frame).1 {
        return Told::No;
    }
    match ask(world, Plan::Push(name)) {
        Wants::Transfer(_) => {
            let flight = begin_push(world, 1, name);
            fly(world, flight)
        }
        Wants::Seat(_) => Told::No,
    }
}

fn try_push(world: &mut World<MemDisk>, page: u32) -> Told
    requires fits { IsTrial (world_seen world.old) }
    ensures fits { IsTrial (world_seen world.new) }
{
    match world.store.resident(page_of_file(page)) {
        Residence::Home(frame) => {
            if world.store.listed(frame) {
                return Told::No;
            }
            sync(world, frame);
            push_gathered(world, page, frame)
        }
        Residence::Absent => Told::No,
        Residence::Moving(_) => Told::No,
    }
}

pub(crate) fn make(world: &mut World<MemDisk>, act: Act) -> Told
    requires fits { IsTrial (world_seen world.old) }
    ensures fits { IsTrial (world_seen world.new) }
{
    match act {
        Act::Fill(page) => try_fill(world, page),
        Act::Show(page) => try_show(world, page),
        Act::Get(addr) => try_get(world, addr),
        Act::Put(addr, value) => try_put(world, addr, value),
        Act::Room(home) => try_room(world, home),
        Act::Fetch(page, home) => try_fetch(world, page, home),
        Act::Read(page) => try_read(world, page),
        Act::Push(page) => try_push(world, page),
    }
}

/// Makes the acts. It fails at the first of which something else is told.
fn make_all(world: &mut World<MemDisk>, acts: &[(Act, Told)]) -> Result<(), Fail>
    requires fits { IsTrial (world_seen world.old) }
{
    for (place, &(act, told)) in acts.iter().enumerate() {
        let made = make(world, act);
        if made != told {
            return Err(Fail::new(format_args!("act {place} is told something else")));
        }
    }
    Ok(())
}

/// The acts in order, and what is told of each. Page 0 of the file is the process's from 0x1000 on.
const ACTS: [(Act, Told); 48] = [
    (Act::Fill(0), Told::Yes),
    (Act::Fill(0), Told::No),
    (Act::Fill(2), Told::No),
    (Act::Get(0x1000), Told::No),
    (Act::Show(0), Told::Yes),
    (Act::Get(0x1000), Told::Word(0)),
    (
        Act::Fetch(2, 0),
        Told::Wants(Wants::Transfer(Plan::Read(LAST))),
    ),
    (Act::Put(0x1004, 5), Told::Yes),
    // A frame is free: the page is pushed from a snapshot, and stays home with its translation.
    (Act::Push(0), Told::Yes),
    (Act::Get(0x1004), Told::Word(5)),
    (Act::Push(0), Told::No),
    (Act::Fill(1), Told::Yes),
    (Act::Show(1), Told::Yes),
    (Act::Put(0x2008, 0x0102_0304), Told::Yes),
    (Act::Get(0x2008), Told::Word(0x0102_0304)),
    // No frame is free. Both pages were used: neither counts as used from now on, and the first behind the hand, which is at frame
    // 0, is page 1.
    (Act::Room(0), Told::Dirty(MIDDLE)),
    (
        Act::Fetch(2, 0),
        Told::Wants(Wants::Transfer(Plan::Push(MIDDLE))),
    ),
    // Its own frame goes out, without its translation; after the failure it is modified again.
    (Act::Push(1), Told::Failed),
    (Act::Get(0x2008), Told::No),
    // The search for a victim goes on behind the page that couldn't be written: page 0, which isn't modified, loses its frame and
    // its translation.
    (Act::Room(0), Told::Yes),
    (Act::Get(0x1000), Told::No),
    (
        Act::Fetch(2, 0),
        Told::Wants(Wants::Transfer(Plan::Read(LAST))),
    ),
    // It is taken off the cache list.
    (Act::Show(0), Told::Yes),
    (Act::Get(0x1004), Told::Word(5)),
    (Act::Put(0x1ffc, 7), Told::Yes),
    // The hand is at page 0, which gave way last; page 1 is chosen, whether it was used or not.
    (Act::Room(0), Told::Dirty(MIDDLE)),
    (Act::Show(1), Told::Yes),
    (Act::Get(0x2008), Told::Word(0x0102_0304)),
    (Act::Room(0), Told::Dirty(MIDDLE)),
    (Act::Push(1), Told::Yes),
    (Act::Push(1), Told::No),
    // The page that went out gives way.
    (Act::Room(0), Told::Yes),
    (Act::Show(1), Told::Yes),
    (Act::Push(0), Told::Yes),
    (Act::Room(0), Told::Yes),
    // The frame of page 0 is taken, and is free after the failure.
    (Act::Read(2), Told::Failed),
    (Act::Show(0), Told::No),
    (Act::Read(2), Told::Yes),
    (Act::Show(2), Told::Yes),
    (Act::Get(0x3000), Told::Word(0x1313_1313)),
    // Page 1 was pushed, and gives way.
    (
        Act::Fetch(0, 2),
        Told::Wants(Wants::Transfer(Plan::Read(FIRST))),
    ),
    (Act::Read(0), Told::Yes),
    (Act::Show(1), Told::No),
    // Page 0 has what was put before it was pushed.
    (Act::Show(0), Told::Yes),
    (Act::Get(0x1004), Told::Word(5)),
    (Act::Get(0x1ffc), Told::Word(7)),
    (Act::Put(0x3000, 9), Told::Yes),
    (
        Act::Fetch(1, 0),
        Told::Wants(Wants::Transfer(Plan::Push(LAST))),
    ),
];

#[test]
fn pages_of_a_file_come_and_go(rt: HostRuntime) -> Result<(), Fail> {
    let mut world = new_world(rt.alloc())?;
    make_all(&mut world, &ACTS)
}
