//! A store of three frames through every call on pages at home.
ghost use Rattle.std.specs.Prelude.{◌≡◌, IsTrue};
ghost use Rattle.page_store.specs.Seen.{residence};

use block_device::{Disk, MemDisk};
use page_store::{PageName, Residence, SWAP_OBJECT, Store};
use std::alloc::Global;
use std::test::Fail;

/// A page's first and last byte, and whether all others are zeros; None where the page isn't home.
type Seen = Option<(u8, u8, bool)>;

#[derive(Clone, Copy)]
enum Call {
    Zero(PageName),
    Poke(PageName, u32, u8),
    Copy(PageName, PageName),
    Release(PageName),
    Reclaim(PageName),
    Abort(PageName),
}

const FIRST: PageName = PageName { object: 0, page: 0 };

const SECOND: PageName = PageName { object: 0, page: 1 };

const SLOT: PageName = PageName {
    object: 64,
    page: 0,
};

const OTHER_SLOT: PageName = PageName {
    object: 64,
    page: 1,
};

const LAST_SLOT: PageName = PageName {
    object: 64,
    page: 2,
};

const ZEROS: Seen = Some((0, 0, true));

const FIVE: Seen = Some((5, 0, true));

const SEVEN: Seen = Some((7, 0, true));

const BOTH: Seen = Some((7, 9, true));

fn seen(store: &Store<MemDisk>, name: PageName) -> Seen {
    match store.resident(name) {
        Residence::Home(_) => {
            let bytes = store.bytes(name);
            let between = bytes[1..4095].iter().all(|b| *b == 0);
            Some((bytes[0], bytes[4095], between))
        }
        Residence::Moving(_) => None,
        Residence::Absent => None,
    }
}

fn poke(store: &mut Store<MemDisk>, name: PageName, at: u32, byte: u8) -> bool {
    let Residence::Home(frame) = store.resident(name) else {
        return false;
    };
    if store.listed(frame) || at >= 4096 {
        return false;
    }
    store.poke(name, at, &[byte], true);
    true
}

fn zero(store: &mut Store<MemDisk>, name: PageName) -> bool {
    match store.resident(name) {
        Residence::Absent => {
            if !store.available() {
                return false;
            }
            store.fill_zero(name);
            true
        }
        Residence::Home(_) => false,
        Residence::Moving(_) => false,
    }
}

fn absent(store: &Store<MemDisk>, name: PageName) -> bool
    ensures { IsTrue result → residence store.now name ≡ Residence.Absent }
{
    match store.resident(name) {
        Residence::Absent => true,
        Residence::Home(_) => false,
        Residence::Moving(_) => false,
    }
}

fn copy(store: &mut Store<MemDisk>, from: PageName, to: PageName) -> bool {
    let Residence::Home(source) = store.resident(from) else {
        return false;
    };
    if store.listed(source)
        || !store.available()
        || !absent(store, to)
        || to.object != SWAP_OBJECT
    {
        return false;
    }
    store.copy(from, to);
    true
}

/// Releases the next victim, where it is this page.
fn release(store: &mut Store<MemDisk>, name: PageName) -> bool {
    let Some(frame) = store.victim() else {
        return false;
    };
    if store.name_of(frame) != Some(name) || store.bits(frame).1 || store.has_snapshot(frame) {
        return false;
    }
    store.release(frame);
    true
}

fn make(store: &mut Store<MemDisk>, call: Call) -> bool {
    match call {
        Call::Zero(name) => zero(store, name),
        Call::Poke(name, at, byte) => poke(store, name, at, byte),
        Call::Copy(from, to) => copy(store, from, to),
        Call::Release(name) => release(store, name),
        Call::Reclaim(name) => store.reclaim(name),
        Call::Abort(name) => {
            store.abort(name);
            true
        }
    }
}

fn all_seen(store: &Store<MemDisk>) -> [Seen; 5] {
    [
        seen(store, FIRST),
        seen(store, SECOND),
        seen(store, SLOT),
        seen(store, OTHER_SLOT),
        seen(store, LAST_SLOT),
    ]
}

/// Each call, whether it was made, and each page's value after it. Pages take the frames in turn.
const CALLS: [(Call, bool, [Seen; 5]); 18] = [
    (Call::Zero(SECOND), true, [None, ZEROS, None, None, None]),
    (Call::Zero(FIRST), true, [ZEROS, ZEROS, None, None, None]),
    (
        Call::Poke(FIRST, 0, 7),
        true,
        [SEVEN, ZEROS, None, None, None],
    ),
    (
        Call::Copy(FIRST, SLOT),
        true,
        [SEVEN, ZEROS, SEVEN, None, None],
    ),
    (
        Call::Poke(SLOT, 4095, 9),
        true,
        [SEVEN, ZEROS, BOTH, None, None],
    ),
    (
        Call::Zero(OTHER_SLOT),
        false,
        [SEVEN, ZEROS, BOTH, None, None],
    ),
    (
        Call::Release(SECOND),
        true,
        [SEVEN, ZEROS, BOTH, None, None],
    ),
    (
        Call::Reclaim(SECOND),
        true,
        [SEVEN, ZEROS, BOTH, None, None],
    ),
    (
        Call::Zero(OTHER_SLOT),
        false,
        [SEVEN, ZEROS, BOTH, None, None],
    ),
    (
        Call::Release(SECOND),
        true,
        [SEVEN, ZEROS, BOTH, None, None],
    ),
    (
        Call::Poke(SECOND, 0, 1),
        false,
        [SEVEN, ZEROS, BOTH, None, None],
    ),
    (
        Call::Zero(OTHER_SLOT),
        true,
        [SEVEN, None, BOTH, ZEROS, None],
    ),
    (
        Call::Reclaim(SECOND),
        false,
        [SEVEN, None, BOTH, ZEROS, None],
    ),
    (
        Call::Poke(OTHER_SLOT, 0, 5),
        true,
        [SEVEN, None, BOTH, FIVE, None],
    ),
    (Call::Abort(FIRST), true, [None, None, BOTH, FIVE, None]),
    (
        Call::Copy(SLOT, LAST_SLOT),
        true,
        [None, None, BOTH, FIVE, BOTH],
    ),
    (Call::Abort(SECOND), true, [None, None, BOTH, FIVE, BOTH]),
    (Call::Abort(SLOT), true, [None, None, None, FIVE, BOTH]),
];

/// A store of three frames over disk 2.
fn new_store(alloc: Global) -> Result<Store<MemDisk>, Fail> {
    let mut disks = Vec::new(alloc);
    disks.push((2, MemDisk::new(alloc, 4, Vec::new(alloc))?))?;
    match Store::new(alloc, 3, disks, None) {
        Ok(store) => Ok(store),
        Err(_given) => Err(Fail::new("want of memory")),
    }
}

/// The first frame is the one that the next call takes, and it holds no page.
fn takes_the_first(store: &Store<MemDisk>) -> Result<(), Fail> {
    let next = (store.next_frame(), store.next_name());
    if next != (Some(0), None) {
        return Err(Fail::new(format_args!("{next:?} is taken first")));
    }
    Ok(())
}

/// Makes the calls. It fails at the first after which something else is so.
fn make_all(store: &mut Store<MemDisk>, calls: &[(Call, bool, [Seen; 5])]) -> Result<(), Fail> {
    for (place, &(call, done, want)) in calls.iter().enumerate() {
        let made = make(store, call);
        let seen = all_seen(store);
        if made != done || seen.as_slice() != want.as_slice() {
            return Err(Fail::new(format_args!("call {place} leaves {seen:?}")));
        }
    }
    Ok(())
}

/// Each search for a victim begins at the first frame.
fn move_hand_to_the_last(store: &mut Store<MemDisk>) {
    let frames = store.frame_count();
    if frames > 0 {
        store.move_hand(frames - 1);
    }
}

fn make_in_new_store(alloc: Global, calls: &[(Call, bool, [Seen; 5])]) -> Result<(), Fail> {
    let mut store = new_store(alloc)?;
    takes_the_first(&store)?;
    move_hand_to_the_last(&mut store);
    make_all(&mut store, calls)
}

#[test]
fn every_value_is_as_the_calls_left_it(rt: HostRuntime) -> Result<(), Fail> {
    make_in_new_store(rt.alloc(), &CALLS)
}

/// The number and size of each disk, in order.
fn sizes(disks: &[(u32, MemDisk)]) -> [Option<(u32, u32)>; 3] {
    [
        disks.get(0).map(|disk| (disk.0, disk.1.blocks())),
        disks.get(1).map(|disk| (disk.0, disk.1.blocks())),
        disks.get(2).map(|disk| (disk.0, disk.1.blocks())),
    ]
}

/// What comes back of two disks that were given out of order, and the size of the swap disk.
fn given_back(alloc: Global) -> Result<([Option<(u32, u32)>; 3], Option<u32>), Fail> {
    let mut disks = Vec::new(alloc);
    disks.push((5, MemDisk::new(alloc, 1, Vec::new(alloc))?))?;
    disks.push((2, MemDisk::new(alloc, 3, Vec::new(alloc))?))?;
    let swap = MemDisk::new(alloc, 4, Vec::new(alloc))?;
    match Store::new(alloc, 2, disks, Some(swap)) {
        Ok(store) => {
            let (disks, swap) = store.into_disks();
            Ok((sizes(disks.as_slice()), swap.map(|disk| disk.blocks())))
        }
        Err(_given) => Err(Fail::new("want of memory")),
    }
}

#[test]
fn disks_come_back_in_order(rt: HostRuntime) -> Result<(), Fail> {
    let due = ([Some((5, 1)), Some((2, 3)), None], Some(4));
    assert_eq!(rt; given_back(rt.alloc())?, due);
    Ok(())
}
