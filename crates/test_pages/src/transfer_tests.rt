//! Transfers over two disks in memory: reads, pushes, failures, pages that are given up, and a flight on a thread.
ghost use Rattle.std.specs.Prelude.{◌≡◌, ◌≢◌, ◌<◌, ◌≤◌, None, IfOk, IfSome, IsTrue};
ghost use Rattle.block_device.specs.MemDiskLook.{look};
ghost use Rattle.block_device.specs.MemSeen.{disk_of};
ghost use Rattle.page_store.specs.Bays.{bay_at};
ghost use Rattle.page_store.specs.Flight.{fresh};
ghost use Rattle.page_store.specs.Seen.{StoreSeen};
ghost use Rattle.page_store.specs.Out.{IsFlightOf};
ghost use Rattle.page_store.specs.Transfers.{CanBegin};
ghost use Rattle.test_pages.specs.Trips.{AreReady, HasDisk};
ghost use Rattle.page_store.specs.Waits.{Waits};

use crate::trips::{Fault, Meanwhile, load_byte, push_out, transfer_while};
use block_device::{Block, Disk, MemDisk};
use page_store::{Flight, PAGE_BYTES, PageName, Place, Plan, Residence, Store};
use std::alloc::{AllocError, Global};
use std::test::Fail;
use std::thread::{self, Threads};

/// A store over disks 0 and 1, of four blocks each. The page of a name is in the block of its number, on the disk of its
/// object's number; page 3 of each has 100 valid bytes.
#[derive(Drop)]
struct Machine {
    store: Store<MemDisk>,
    ghost ready: { AreReady store.bays },
}

#[derive(Clone, Copy)]
enum Act {
    Load(PageName, u32),
    Push(PageName),
    Poke(PageName, u8),
    Dirty(PageName),
    While(Plan, Meanwhile),
}

/// A page's first byte, and whether it is modified; None where the page isn't home.
type Seen = Option<(u8, bool)>;

#[derive(Clone, Copy, PartialEq, Eq)]
enum Told {
    Byte(u8),
    Yes,
    No,
    Failed(Fault),
}

/// A disk of four blocks that are filled with these bytes, whose calls of these numbers fail.
fn filled_disk(alloc: Global, bytes: [u8; 4], fail_at: &[u64]) -> Result<MemDisk, AllocError>
    ensures { IfOk result (λ disk. (disk_of (look disk)).size ≡ 4) }
{
    let blocks = [
        Block::new([bytes[0]; 4096]),
        Block::new([bytes[1]; 4096]),
        Block::new([bytes[2]; 4096]),
        Block::new([bytes[3]; 4096]),
    ];
    let blocks = blocks.to_vec(alloc)?;
    let fail_at = fail_at.to_vec(alloc)?;
    Ok(MemDisk::from_blocks(blocks, fail_at))
}

/// A machine each of whose disks fails at its calls of these numbers; None for want of memory.
fn new_machine(alloc: Global, frames: u32, fail_at: &[u64]) -> Option<Machine>
    requires { 2 ≤ frames }
{
    let Ok(first) = filled_disk(alloc, [0x10, 0x11, 0x12, 0x13], fail_at) else {
        return None;
    };
    let Ok(second) = filled_disk(alloc, [0x20, 0x21, 0x22, 0x23], fail_at) else {
        return None;
    };
    let Ok(mut disks) = Vec::with_capacity(alloc, 2) else {
        return None;
    };
    disks.push_reserved((0, first));
    disks.push_reserved((1, second));
    match Store::new(alloc, frames, disks, None) {
        Ok(store) => Some(Machine { store }),
        Err(_given) => None,
    }
}

/// Where a page lives.
fn known(name: PageName) -> Option<Place>
    ensures { IfSome result (λ place. (place.disk < 2) × (place.block < 4) × (place.valid ≤ 4096)) }
{
    if 2 <= name.object || 4 <= name.page {
        return None;
    }
    Some(Place {
        disk: name.object,
        block: name.page,
        valid: if name.page == 3 { 100 } else { PAGE_BYTES },
        blank: false,
    })
}

/// Whether a transfer can begin now.
fn can_begin(store: &Store<MemDisk>, plan: Plan) -> bool
    ensures { IsTrue result → CanBegin plan store.now }
{
    match plan {
        Plan::Read(name) => match store.resident(name) {
            Residence::Absent => store.available(),
            Residence::Home(_) => false,
            Residence::Moving(_) => false,
        },
        Plan::Push(name) => match store.resident(name) {
            Residence::Home(frame) => !store.listed(frame),
            Residence::Moving(_) => false,
            Residence::Absent => false,
        },
    }
}

impl Machine {
    fn load(&mut self, name: PageName, at: u32) -> Told {
        let Some(place) = known(name) else {
            return Told::No;
        };
        if at >= PAGE_BYTES {
            return Told::No;
        }
        match load_byte(&mut self.store, 1, name, place, at) {
            Ok(Some(byte)) => Told::Byte(byte),
            Ok(None) => Told::No,
            Err(fault) => Told::Failed(fault),
        }
    }

    fn push(&mut self, name: PageName) -> Told {
        let Some(place) = known(name) else {
            return Told::No;
        };
        let plan = Plan::Push(name);
        if !can_begin(&self.store, plan) || self.store.ready(&plan, place.disk).is_some() {
            return Told::No;
        }
        match push_out(&mut self.store, 1, name, place) {
            Ok(()) => Told::Yes,
            Err(fault) => Told::Failed(fault),
        }
    }

    fn transfer_while(&mut self, plan: Plan, meanwhile: Meanwhile) -> Told {
        let (Plan::Read(name) | Plan::Push(name)) = plan;
        let Some(place) = known(name) else {
            return Told::No;
        };
        if !can_begin(&self.store, plan) || self.store.ready(&plan, place.disk).is_some() {
            return Told::No;
        }
        if transfer_while(&mut self.store, 1, plan, place, meanwhile) {
            Told::Yes
        } else {
            Told::No
        }
    }

    /// Writes the first byte of a page that is home.
    fn poke(&mut self, name: PageName, byte: u8) -> Told {
        if !can_begin(&self.store, Plan::Push(name)) {
            return Told::No;
        }
        self.store.poke(name, 0, &[byte], true);
        Told::Yes
    }

    fn dirty(&self, name: PageName) -> Told {
        match self.store.resident(name) {
            Residence::Home(frame) => {
                if self.store.bits(frame).1 {
                    Told::Yes
                } else {
                    Told::No
                }
            }
            Residence::Moving(_) => Told::No,
            Residence::Absent => Told::No,
        }
    }

    /// A page's first byte, and whether it is modified; None where it isn't home.
    fn seen(&self, name: PageName) -> Seen {
        match self.store.resident(name) {
            Residence::Home(frame) => {
                let modified = self.store.bits(frame).1;
                Some((self.store.bytes(name)[0], modified))
            }
            Residence::Moving(_) => None,
            Residence::Absent => None,
        }
    }

    fn all_seen(&self) -> [Seen; 5] {
        [
            self.seen(A),
            self.seen(B),
            self.seen(C),
            self.seen(D),
            self.seen(E),
        ]
    }

    fn make(&mut self, act: Act) -> Told {
        match act {
            Act::Load(name, at) => self.load(name, at),
            Act::Push(name) => self.push(name),
            Act::Poke(name, byte) => self.poke(name, byte),
            Act::Dirty(name) => self.dirty(name),
            Act::While(plan, meanwhile) => self.transfer_while(plan, meanwhile),
        }
    }
}

const A: PageName = PageName { object: 0, page: 0 };

const B: PageName = PageName { object: 0, page: 1 };

const C: PageName = PageName { object: 1, page: 3 };

const D: PageName = PageName { object: 1, page: 0 };

const E: PageName = PageName { object: 1, page: 1 };

/// The acts in order over four frames, what is told of each, and every page after it. Call 2 of each disk fails.
const ACTS: [(Act, Told, [Seen; 5]); 28] = [
    (
        Act::Load(A, 0),
        Told::Byte(0x10),
        [Some((0x10, false)), None, None, None, None],
    ),
    (
        Act::Load(B, 5),
        Told::Failed(Fault {
            disk: 0,
            before: 0,
            after: 1,
        }),
        [Some((0x10, false)), None, None, None, None],
    ),
    (
        Act::Push(B),
        Told::No,
        [Some((0x10, false)), None, None, None, None],
    ),
    (
        Act::Load(B, 5),
        Told::Byte(0x11),
        [Some((0x10, false)), Some((0x11, false)), None, None, None],
    ),
    (
        Act::Load(C, 99),
        Told::Byte(0x23),
        [
            Some((0x10, false)),
            Some((0x11, false)),
            Some((0x23, false)),
            None,
            None,
        ],
    ),
    (
        Act::Load(C, 100),
        Told::Byte(0),
        [
            Some((0x10, false)),
            Some((0x11, false)),
            Some((0x23, false)),
            None,
            None,
        ],
    ),
    (
        Act::Dirty(C),
        Told::No,
        [
            Some((0x10, false)),
            Some((0x11, false)),
            Some((0x23, false)),
            None,
            None,
        ],
    ),
    (
        Act::Push(C),
        Told::Failed(Fault {
            disk: 1,
            before: 0,
            after: 1,
        }),
        [
            Some((0x10, false)),
            Some((0x11, false)),
            Some((0x23, true)),
            None,
            None,
        ],
    ),
    (
        Act::Dirty(C),
        Told::Yes,
        [
            Some((0x10, false)),
            Some((0x11, false)),
            Some((0x23, true)),
            None,
            None,
        ],
    ),
    (
        Act::Poke(C, 7),
        Told::Yes,
        [
            Some((0x10, false)),
            Some((0x11, false)),
            Some((7, true)),
            None,
            None,
        ],
    ),
    (
        Act::Push(C),
        Told::Yes,
        [
            Some((0x10, false)),
            Some((0x11, false)),
            Some((7, false)),
            None,
            None,
        ],
    ),
    (
        Act::Dirty(C),
        Told::No,
        [
            Some((0x10, false)),
            Some((0x11, false)),
            Some((7, false)),
            None,
            None,
        ],
    ),
    (
        Act::Load(C, 0),
        Told::Byte(7),
        [
            Some((0x10, false)),
            Some((0x11, false)),
            Some((7, false)),
            None,
            None,
        ],
    ),
    // The page is written while its name is given up and taken anew: the new page stays.
    (
        Act::Poke(A, 9),
        Told::Yes,
        [
            Some((9, true)),
            Some((0x11, false)),
            Some((7, false)),
            None,
            None,
        ],
    ),
    (
        Act::While(Plan::Push(A), Meanwhile::GivenUp),
        Told::Yes,
        [
            Some((0, false)),
            Some((0x11, false)),
            Some((7, false)),
            None,
            None,
        ],
    ),
    (
        Act::Load(A, 0),
        Told::Byte(0),
        [
            Some((0, false)),
            Some((0x11, false)),
            Some((7, false)),
            None,
            None,
        ],
    ),
    // Its snapshot's frame came free with the flight.
    (
        Act::Load(D, 0),
        Told::Byte(0x20),
        [
            Some((0, false)),
            Some((0x11, false)),
            Some((7, false)),
            Some((0x20, false)),
            None,
        ],
    ),
    (
        Act::Load(E, 0),
        Told::No,
        [
            Some((0, false)),
            Some((0x11, false)),
            Some((7, false)),
            Some((0x20, false)),
            None,
        ],
    ),
    // No frame can be taken meanwhile: the page's own frame goes out, and the page is in none afterwards.
    (
        Act::While(Plan::Push(D), Meanwhile::GivenUp),
        Told::No,
        [
            Some((0, false)),
            Some((0x11, false)),
            Some((7, false)),
            None,
            None,
        ],
    ),
    (
        Act::Load(D, 1),
        Told::Byte(0x20),
        [
            Some((0, false)),
            Some((0x11, false)),
            Some((7, false)),
            Some((0x20, false)),
            None,
        ],
    ),
    (
        Act::While(Plan::Read(E), Meanwhile::GivenUp),
        Told::No,
        [
            Some((0, false)),
            Some((0x11, false)),
            Some((7, false)),
            Some((0x20, false)),
            None,
        ],
    ),
    (
        Act::While(Plan::Push(B), Meanwhile::Written(1)),
        Told::No,
        [
            Some((0, false)),
            Some((0x11, false)),
            Some((7, false)),
            Some((0x20, false)),
            None,
        ],
    ),
    (
        Act::While(Plan::Push(B), Meanwhile::GivenUp),
        Told::No,
        [
            Some((0, false)),
            None,
            Some((7, false)),
            Some((0x20, false)),
            None,
        ],
    ),
    (
        Act::While(Plan::Read(E), Meanwhile::GivenUp),
        Told::No,
        [
            Some((0, false)),
            None,
            Some((7, false)),
            Some((0x20, false)),
            None,
        ],
    ),
    // A page that is written while its snapshot goes out stays modified.
    (
        Act::Poke(D, 5),
        Told::Yes,
        [
            Some((0, false)),
            None,
            Some((7, false)),
            Some((5, true)),
            None,
        ],
    ),
    (
        Act::While(Plan::Push(D), Meanwhile::Written(6)),
        Told::Yes,
        [
            Some((0, false)),
            None,
            Some((7, false)),
            Some((6, true)),
            None,
        ],
    ),
    (
        Act::Push(D),
        Told::Yes,
        [
            Some((0, false)),
            None,
            Some((7, false)),
            Some((6, false)),
            None,
        ],
    ),
    (
        Act::Load(E, 0),
        Told::Byte(0x21),
        [
            Some((0, false)),
            None,
            Some((7, false)),
            Some((6, false)),
            Some((0x21, false)),
        ],
    ),
];

/// The byte at this place of a block.
fn byte_of(disk: &MemDisk, block: usize, at: usize) -> Option<u8> {
    let block = disk.content().get(block)?;
    block.bytes.get(at).copied()
}

/// Makes the acts. It fails at the first after which something else is so.
fn make_all(machine: &mut Machine, acts: &[(Act, Told, [Seen; 5])]) -> Result<(), Fail> {
    for (place, &(act, told, want)) in acts.iter().enumerate() {
        let made = machine.make(act);
        let seen = machine.all_seen();
        if made != told || seen.as_slice() != want.as_slice() {
            return Err(Fail::new(format_args!(
                "act {place} is told something else, or leaves {seen:?}"
            )));
        }
    }
    Ok(())
}

/// A disk's number, and the faults, reads and writes that it counted.
type Counts = (u32, u64, u64, u64);

fn counts(disks: &[(u32, MemDisk)]) -> [Option<Counts>; 3] {
    let of = |disk: &(u32, MemDisk)| (disk.0, disk.1.faults(), disk.1.reads(), disk.1.writes());
    [
        disks.get(0).map(of),
        disks.get(1).map(of),
        disks.get(2).map(of),
    ]
}

/// Compares what the disks counted, and bytes of their blocks: the disk, the block, the place and the byte.
fn are_left(
    disks: &[(u32, MemDisk)],
    counted: [Option<Counts>; 3],
    bytes: &[(usize, usize, usize, u8)],
) -> Result<(), Fail> {
    let found = counts(disks);
    if found.as_slice() != counted.as_slice() {
        return Err(Fail::new(format_args!("the disks counted {found:?}")));
    }
    for &(disk, block, at, byte) in bytes {
        let found = disks.get(disk).and_then(|disk| byte_of(&disk.1, block, at));
        if found != Some(byte) {
            return Err(Fail::new(format_args!("disk {disk}, block {block}, byte {at}: {found:?}")));
        }
    }
    Ok(())
}

/// Makes the acts on a machine of four frames each of whose disks fails at its calls of these numbers, and compares what
/// is left on the disks.
fn make_in_new_machine(
    alloc: Global,
    fail_at: &[u64],
    acts: &[(Act, Told, [Seen; 5])],
    counted: [Option<Counts>; 3],
    bytes: &[(usize, usize, usize, u8)],
) -> Result<(), Fail> {
    let Some(mut machine) = new_machine(alloc, 4, fail_at) else {
        return Err(Fail::new("want of memory"));
    };
    make_all(&mut machine, acts)?;
    let Machine { store } = machine;
    let (disks, _) = store.into_disks();
    are_left(disks.as_slice(), counted, bytes)
}

// The page that was given up was written; another has its valid bytes, and zeros after them; the last was written twice.
#[test]
fn pages_come_and_go_as_their_disks_allow(rt: HostRuntime) -> Result<(), Fail> {
    make_in_new_machine(
        rt.alloc(),
        &[2],
        &ACTS,
        [Some((0, 1, 3, 3)), Some((1, 1, 5, 5)), None],
        &[
            (0, 0, 0, 9),
            (1, 3, 0, 7),
            (1, 3, 99, 0x23),
            (1, 3, 100, 0),
            (1, 0, 0, 6),
        ],
    )
}

fn fly(mut flight: Flight<MemDisk>) -> (Flight<MemDisk>, bool)
    requires { flight.outcome ≡ fresh }
    ensures store { (s : StoreSeen) → IsFlightOf s flight → IsFlightOf s result.0 }
    ensures flown { result.0.outcome ≢ fresh }
{
    let result = flight.perform();
    (flight, result.is_ok())
}

fn read_on_a_thread(
    rt: &impl Threads,
    store: &mut Store<MemDisk>,
    name: PageName,
    place: Place,
) -> bool
    requires ready { Waits store.old name place.disk None }
    requires there { HasDisk (bay_at store.old.bays place.disk) place.block }
    requires valid { place.valid ≤ 4096 }
    requires can { CanBegin (Plan.Read name) store.old }
{
    let flight = store.begin(3, Plan::Read(name), place.disk, place.block, place.valid);
    let perform = move ||
        requires { flight.outcome ≡ fresh }
        ensures store { (s : StoreSeen) → IsFlightOf s flight → IsFlightOf s result.0 }
        ensures flown { result.0.outcome ≢ fresh }
    { fly(flight) };
    let ((flight, done), _) = thread::join(rt, perform, || ());
    store.end(flight);
    done
}

/// Reads page E on a thread. It fails where that doesn't bring it home.
fn reads_on_a_thread(rt: &impl Threads, store: &mut Store<MemDisk>) -> Result<(), Fail>
    requires { AreReady store.old.bays }
{
    let Some(place) = known(E) else {
        return Err(Fail::new("the page has a place"));
    };
    let plan = Plan::Read(E);
    if !can_begin(store, plan) || store.ready(&plan, place.disk).is_some() {
        return Err(Fail::new("the read can begin"));
    }
    if !read_on_a_thread(rt, store, E, place) {
        return Err(Fail::new("the read is done"));
    }
    has_bytes(store)
}

/// Page E is home, and full of its byte.
fn has_bytes(store: &Store<MemDisk>) -> Result<(), Fail> {
    let Residence::Home(_) = store.resident(E) else {
        return Err(Fail::new("the page is home"));
    };
    if store.bytes(E) != [0x21; 4096].as_slice() {
        return Err(Fail::new("the page has its block's bytes"));
    }
    Ok(())
}

#[test]
fn a_flight_is_performed_on_a_thread(rt: HostRuntime) -> Result<(), Fail> {
    let Some(machine) = new_machine(rt.alloc(), 2, &[]) else {
        return Err(Fail::new("want of memory"));
    };
    let Machine { mut store } = machine;
    reads_on_a_thread(&rt, &mut store)
}
