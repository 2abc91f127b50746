//! A file that changes, in the world of the pages' steps: bytes that are put, a page that is given up, and Truncates to nearer and farther ends.
ghost use Rattle.std.specs.Prelude.{IsTrue, ◌≡◌, None};
ghost use Rattle.seg_ops.specs.vm_world.FileCalls.{room_refusal};
ghost use Rattle.seg_ops.specs.vm_world.World.{world_seen};
ghost use Rattle.test_steps.specs.PageTrials.{IsTrial};

use crate::page_tests;
use crate::page_tests::{LAST, has_page, is_home, new_world, page_of_file};
use block_device::MemDisk;
use seg_map::{put, truncate, void_page};
use seg_ops::{Plan, Residence, Wants, World, pages_in};
use std::test::Fail;

#[derive(Clone, Copy)]
enum Act {
    /// A step of a page.
    Step(page_tests::Act),
    /// Puts this byte at this offset of the file, where its page is home on no list.
    Put(u32, u8),
    /// The byte at this offset of the file, where its page is home.
    Look(u32),
    /// Gives this page of the file up.
    Void(u32),
    /// Gives the file this length, while this page of it is home.
    Truncate(u32, u32),
    /// How long the file is.
    Length,
}

#[derive(Clone, Copy, PartialEq, Eq)]
enum Told {
    /// What is told of the step.
    Step(page_tests::Told),
    Yes,
    /// The act can't be done now.
    No,
    Byte(u8),
    Bytes(u32),
    /// This must come first.
    Wants(Wants),
}

const YES: Told = Told::Step(page_tests::Told::Yes);

const NO: Told = Told::Step(page_tests::Told::No);

fn try_put(world: &mut World<MemDisk>, offset: u32, byte: u8) -> Told
    requires fits { IsTrial (world_seen world.old) }
    ensures fits { IsTrial (world_seen world.new) }
{
    if world.files.count() == 0 {
        return Told::No;
    }
    let page = offset / 4096;
    match world.store.resident(page_of_file(page)) {
        Residence::Home(frame) => {
            if world.store.listed(frame) {
                return Told::No;
            }
            put(world, 0, page, frame, offset % 4096, &[byte]);
            Told::Yes
        }
        Residence::Absent => Told::No,
        Residence::Moving(_) => Told::No,
    }
}

fn look(world: &World<MemDisk>, offset: u32) -> Told {
    let name = page_of_file(offset / 4096);
    match world.store.resident(name) {
        Residence::Home(_) => Told::Byte(world.store.bytes(name)[(offset % 4096) as usize]),
        Residence::Absent => Told::No,
        Residence::Moving(_) => Told::No,
    }
}

fn try_void(world: &mut World<MemDisk>, page: u32) -> Told
    requires fits { IsTrial (world_seen world.old) }
    ensures fits { IsTrial (world_seen world.new) }
{
    if !has_page(world, page) {
        return Told::No;
    }
    void_page(world, 0, page);
    Told::Yes
}

/// Whether the file may have this length.
fn has_room(world: &mut World<MemDisk>, end: u32) -> bool
    ensures room { IsTrue result → room_refusal world.old.files 0 end ≡ None }
    ensures same { world.new ≡ world.old }
{
    if world.files.count() == 0 {
        return false;
    }
    world.files.info(0).writable && world.files.can_grow(0, pages_in(end))
}

fn try_truncate(world: &mut World<MemDisk>, end: u32, home: u32) -> Told
    requires fits { IsTrial (world_seen world.old) }
    ensures fits { IsTrial (world_seen world.new) }
{
    if !is_home(world, home) {
        return Told::No;
    }
    if !has_room(world, end) {
        return Told::No;
    }
    match truncate(world, 0, end) {
        Ok(()) => Told::Yes,
        Err(want) => Told::Wants(want),
    }
}

fn length(world: &World<MemDisk>) -> Told {
    if world.files.count() == 0 {
        return Told::No;
    }
    Told::Bytes(world.files.info(0).length)
}

fn make(world: &mut World<MemDisk>, act: Act) -> Told
    requires fits { IsTrial (world_seen world.old) }
    ensures fits { IsTrial (world_seen world.new) }
{
    match act {
        Act::Step(step) => Told::Step(page_tests::make(world, step)),
        Act::Put(offset, byte) => try_put(world, offset, byte),
        Act::Look(offset) => look(world, offset),
        Act::Void(page) => try_void(world, page),
        Act::Truncate(end, home) => try_truncate(world, end, home),
        Act::Length => length(world),
    }
}

/// Makes the acts. It fails at the first of which something else is told.
fn make_all(world: &mut World<MemDisk>, acts: &[(Act, Told)]) -> Result<(), Fail>
    requires fits { IsTrial (world_seen world.old) }
{
    for (place, &(act, told)) in acts.iter().enumerate() {
        let made = make(world, act);
        if made != told {
            return Err(Fail::new(format_args!("act {place} is told something else")));
        }
    }
    Ok(())
}

/// The acts in order, and what is told of each. The file has 12288 bytes, and its disk no free block; page 0 of it is the process's from
/// 0x1000 on. Pages 0 and 1 are blank, and the block of page 2 has 0x13 in each byte. The second call of the disk fails.
const ACTS: [(Act, Told); 48] = [
    (Act::Length, Told::Bytes(12288)),
    (Act::Look(5), Told::No),
    (Act::Put(5, 0x61), Told::No),
    (Act::Step(page_tests::Act::Fill(0)), YES),
    (Act::Put(5, 0x61), Told::Yes),
    (Act::Look(5), Told::Byte(0x61)),
    // The mapping shows it.
    (Act::Step(page_tests::Act::Show(0)), YES),
    (
        Act::Step(page_tests::Act::Get(0x1004)),
        Told::Step(page_tests::Told::Word(0x0061_0000)),
    ),
    // What stands behind the new end is zeros, and the other pages are gone.
    (Act::Put(6, 0x62), Told::Yes),
    (Act::Truncate(6, 0), Told::Yes),
    (Act::Length, Told::Bytes(6)),
    (Act::Look(5), Told::Byte(0x61)),
    (Act::Look(6), Told::Byte(0)),
    (Act::Step(page_tests::Act::Fill(1)), NO),
    // The tail may be stored into. As the file gets longer it is zeros, and its pages are blank, whatever their blocks have.
    (Act::Put(7, 0x63), Told::Yes),
    (Act::Truncate(12288, 0), Told::Yes),
    (Act::Length, Told::Bytes(12288)),
    (Act::Look(5), Told::Byte(0x61)),
    (Act::Look(7), Told::Byte(0)),
    (Act::Step(page_tests::Act::Fill(2)), YES),
    (Act::Look(8192), Told::Byte(0)),
    // A page that is given up is nowhere, has no translation, and is zeros.
    (Act::Void(0), Told::Yes),
    (Act::Look(5), Told::No),
    (Act::Step(page_tests::Act::Get(0x1004)), NO),
    (Act::Step(page_tests::Act::Fill(0)), YES),
    (Act::Look(5), Told::Byte(0)),
    // Page 2 has a tail from now on, is pushed, and loses its frame, since page 0 was used.
    (Act::Truncate(8202, 0), Told::Yes),
    (Act::Put(8200, 0x64), Told::Yes),
    (Act::Step(page_tests::Act::Push(2)), YES),
    (Act::Step(page_tests::Act::Show(0)), YES),
    (
        Act::Step(page_tests::Act::Get(0x1004)),
        Told::Step(page_tests::Told::Word(0)),
    ),
    (Act::Step(page_tests::Act::Room(0)), YES),
    (Act::Step(page_tests::Act::Fill(1)), YES),
    (Act::Look(8200), Told::No),
    // The old last page must be read in first, and nothing changes until then.
    (
        Act::Truncate(8210, 0),
        Told::Wants(Wants::Transfer(Plan::Read(LAST))),
    ),
    (Act::Length, Told::Bytes(8202)),
    (
        Act::Step(page_tests::Act::Read(2)),
        Told::Step(page_tests::Told::Failed),
    ),
    (Act::Step(page_tests::Act::Read(2)), YES),
    (Act::Look(8200), Told::Byte(0x64)),
    (Act::Put(8202, 0x65), Told::Yes),
    (Act::Truncate(8210, 1), Told::Yes),
    (Act::Length, Told::Bytes(8210)),
    (Act::Look(8202), Told::Byte(0)),
    // No block is free for a fourth page.
    (Act::Truncate(12289, 1), Told::No),
    (Act::Length, Told::Bytes(8210)),
    (Act::Truncate(0, 1), Told::Yes),
    (Act::Length, Told::Bytes(0)),
    (Act::Look(8200), Told::No),
];

#[test]
fn a_file_gets_shorter_and_longer(rt: HostRuntime) -> Result<(), Fail> {
    let mut world = new_world(rt.alloc())?;
    make_all(&mut world, &ACTS)
}
