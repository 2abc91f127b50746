//! Each memory form through its calls, with listed failures: tables of acts, and what is told of each.
use block_device::{
    AttachFault, Block, Disk, MemDisk, MemRack, MemSink, MemSource, NumberedDisk, PathText, Rack,
    RackFault, ReadFault, Sink, Source, Spec, Unopened, Untold, read_to_limit, write_all,
};
use std::alloc::Global;
use std::test::Fail;
use std::thread;

/// What is done to a disk.
#[derive(Clone, Copy)]
enum Act {
    /// Writes a block full of this byte.
    Write(u32, u8),
    Read(u32),
}

#[derive(Clone, Copy, PartialEq, Eq)]
enum Told {
    Written,
    /// A block's first byte, the two in its middle, and its last.
    Bytes(u8, u8, u8, u8),
    /// It failed, and a read left the buffer as it was.
    Failed,
    /// The disk has no such block, or a read that failed changed the buffer.
    No,
}

fn write<D: Disk>(disk: &mut D, block: u32, byte: u8) -> Told {
    if disk.blocks() <= block {
        return Told::No;
    }
    match disk.write(block, &[byte; 4096]) {
        Ok(()) => Told::Written,
        Err(_) => Told::Failed,
    }
}

fn read<D: Disk>(disk: &mut D, block: u32) -> Told {
    if disk.blocks() <= block {
        return Told::No;
    }
    let mut page = [0x99u8; 4096];
    match disk.read(block, &mut page) {
        Ok(()) => Told::Bytes(page[0], page[2047], page[2048], page[4095]),
        Err(_) => {
            if page[0] == 0x99 {
                Told::Failed
            } else {
                Told::No
            }
        }
    }
}

/// Makes the acts. It fails at the first of which something else is told.
fn make_all<D: Disk>(disk: &mut D, acts: &[(Act, Told)]) -> Result<(), Fail> {
    for (place, &(act, told)) in acts.iter().enumerate() {
        let made = match act {
            Act::Write(block, byte) => write(disk, block, byte),
            Act::Read(block) => read(disk, block),
        };
        if made != told {
            return Err(Fail::new(format_args!("act {place} is told something else")));
        }
    }
    Ok(())
}

/// The disk's blocks and faults, and its calls, reads and writes.
fn has_counted(disk: &MemDisk, counted: (u32, u64, u64, u64, u64)) -> Result<(), Fail> {
    let found = (
        disk.blocks(),
        disk.faults(),
        disk.calls(),
        disk.reads(),
        disk.writes(),
    );
    if found != counted {
        return Err(Fail::new(format_args!("the disk counted {found:?}")));
    }
    Ok(())
}

fn make_on_new_disk(
    alloc: Global,
    fail_at: &[u64],
    acts: &[(Act, Told)],
    counted: (u32, u64, u64, u64, u64),
) -> Result<(), Fail> {
    let mut disk = MemDisk::new(alloc, 2, fail_at.to_vec(alloc)?)?;
    make_all(&mut disk, acts)?;
    has_counted(&disk, counted)
}

#[test]
fn a_memory_disk_reads_writes_and_fails_at_listed_calls(rt: HostRuntime) -> Result<(), Fail> {
    make_on_new_disk(
        rt.alloc(),
        &[2, 5],
        &[
            (Act::Write(1, 7), Told::Written),
            (Act::Read(1), Told::Failed),
            (Act::Read(1), Told::Bytes(7, 7, 7, 7)),
            (Act::Read(0), Told::Bytes(0, 0, 0, 0)),
            (Act::Write(1, 8), Told::Failed),
            // The write was torn.
            (Act::Read(1), Told::Bytes(8, 8, 7, 7)),
        ],
        (2, 2, 6, 4, 2),
    )
}

/// Of a numbered disk: a block's first and last byte where it was read, or the disk and the counts of a fault.
type Counted = Result<Option<(u8, u8)>, (u32, u64, u64)>;

fn make_numbered<D: Disk>(disk: &mut NumberedDisk<D>, act: Act) -> Option<Counted> {
    let (Act::Write(block, _) | Act::Read(block)) = act;
    if disk.disk.blocks() <= block {
        return None;
    }
    let mut page = [0u8; 4096];
    let made = match act {
        Act::Write(_, byte) => disk.write(block, &[byte; 4096]).map(|()| None),
        Act::Read(_) => disk.read(block, &mut page).map(|()| Some(())),
    };
    match made {
        Ok(read) => Some(Ok(read.map(|()| (page[0], page[4095])))),
        Err(fault) => Some(Err((fault.disk, fault.before, fault.after))),
    }
}

fn make_all_numbered<D: Disk>(
    disk: &mut NumberedDisk<D>,
    acts: &[(Act, Counted)],
) -> Result<(), Fail> {
    for (place, &(act, told)) in acts.iter().enumerate() {
        let made = make_numbered(disk, act);
        if made != Some(told) {
            return Err(Fail::new(format_args!("act {place} is told something else")));
        }
    }
    Ok(())
}

fn make_on_untold_disk(
    alloc: Global,
    fail_at: &[u64],
    acts: &[(Act, Counted)],
) -> Result<(u64, u64), Fail> {
    let mut disk = NumberedDisk {
        number: 7,
        disk: Untold {
            disk: MemDisk::new(alloc, 2, fail_at.to_vec(alloc)?)?,
        },
    };
    make_all_numbered(&mut disk, acts)?;
    Ok((disk.disk.calls(), disk.disk.disk.writes()))
}

#[test]
fn a_numbered_disk_tells_what_was_counted_and_an_untold_one_does_what_its_disk_does(
    rt: HostRuntime,
) -> Result<(), Fail> {
    let counted = make_on_untold_disk(
        rt.alloc(),
        &[2, 3],
        &[
            (Act::Write(1, 4), Ok(None)),
            (Act::Write(1, 9), Err((7, 0, 1))),
            (Act::Read(1), Err((7, 1, 2))),
            // The write that failed was torn.
            (Act::Read(1), Ok(Some((9, 4)))),
        ],
    )?;
    assert_eq!(rt; counted, (4, 2));
    Ok(())
}

fn written_on_a_thread(mut disk: MemDisk) -> MemDisk {
    if 2 < disk.blocks() {
        let _ = disk.write(2, &[6; 4096]);
    }
    disk
}

/// The first byte of each block.
fn firsts(blocks: &[Block]) -> [Option<u8>; 4] {
    let first = |block: usize| blocks.get(block).map(|block| block.bytes[0]);
    [first(0), first(1), first(2), first(3)]
}

#[test]
fn a_memory_disk_holds_the_blocks_given_and_moves_between_threads(
    rt: HostRuntime,
) -> Result<(), Fail> {
    let given = vec![in rt.alloc(); Block::new([5; 4096]); 3]?;
    let disk = MemDisk::from_blocks(given, Vec::new(rt.alloc()));
    let (disk, _) = thread::join(&rt, move || written_on_a_thread(disk), || ());
    assert_eq!(rt;
        (disk.calls(), disk.writes(), disk.content().len()),
        (1, 1, 3)
    );
    let blocks = disk.into_blocks();
    assert_eq!(rt;
        firsts(blocks.as_slice()),
        [Some(5), Some(5), Some(6), None]
    );
    Ok(())
}

/// A limit; the bytes that come, or None where the source fails; then its rest, its faults and its calls.
type Reading<'a> = (usize, Option<&'a [u8]>, &'a [u8], u64, u64);

fn reads(alloc: Global, source: &mut MemSource, reading: Reading<'_>) -> bool {
    let (limit, bytes, rest, faults, calls) = reading;
    let came = match read_to_limit(alloc, source, limit) {
        Ok(all) => bytes == Some(all.as_slice()),
        Err(fault) => fault == ReadFault::Failed && bytes.is_none(),
    };
    came && source.rest() == rest && source.faults() == faults && source.calls() == calls
}

fn reads_all(alloc: Global, source: &mut MemSource, rows: &[Reading<'_>]) -> Result<(), Fail> {
    for (place, row) in rows.iter().enumerate() {
        if !reads(alloc, source, *row) {
            return Err(Fail::new(format_args!("reading {place} went otherwise")));
        }
    }
    Ok(())
}

#[test]
fn a_source_is_read_to_its_end_or_to_a_limit(rt: HostRuntime) -> Result<(), Fail> {
    let text = b"page cache".to_vec(rt.alloc())?;
    let mut source = MemSource::new(text, 3, [4].to_vec(rt.alloc())?);
    reads_all(
        rt.alloc(),
        &mut source,
        &[
            (5, Some(b"page "), b"cache", 0, 2),
            // Call 3 took three bytes, and call 4 is listed.
            (100, None, b"he", 1, 4),
            (100, Some(b"he"), b"", 1, 6),
        ],
    )
}

/// A text; whether it is written; all that is written then, and the sink's faults.
type Writing<'a> = (&'a [u8], bool, &'a [u8], u64);

fn writes(sink: &mut MemSink, writing: Writing<'_>) -> bool {
    let (text, whole, written, faults) = writing;
    let done = write_all(sink, text).is_ok();
    done == whole && sink.written() == written && sink.faults() == faults
}

fn writes_each(sink: &mut MemSink, rows: &[Writing<'_>]) -> Result<(), Fail> {
    for (place, row) in rows.iter().enumerate() {
        if !writes(sink, *row) {
            return Err(Fail::new(format_args!("writing {place} went otherwise")));
        }
    }
    Ok(())
}

#[test]
fn a_text_is_written_to_a_sink_piece_by_piece(rt: HostRuntime) -> Result<(), Fail> {
    let mut sink = MemSink::new(rt.alloc(), 8, 3, [3].to_vec(rt.alloc())?)?;
    writes_each(
        &mut sink,
        &[
            // Call 3 is listed.
            (b"pageout", false, b"pageou", 1),
            (b"t", true, b"pageout", 1),
            // One byte of room is left.
            (b"xyz", false, b"pageoutx", 2),
        ],
    )?;
    assert_eq!(rt; sink.calls(), 6);
    assert_eq!(rt; sink.into_written().as_slice(), b"pageoutx".as_slice());
    Ok(())
}

/// The disk and the counts of the fault of an attaching that fails.
fn refused(rack: &mut MemRack, spec: &Spec) -> Option<(u32, Option<(u64, u64)>)> {
    match Unopened::attach(rack, spec).err() {
        Some(AttachFault::Failed(fault)) => Some((fault.disk(), fault.counts())),
        _ => None,
    }
}

/// Writes a block and reads it: whether it was written, and the disk and counts of the fault of the read.
fn write_and_read(
    disk: &mut Unopened<MemDisk>,
    block: u32,
) -> (bool, Option<(u32, Option<(u64, u64)>)>) {
    if disk.blocks() <= block {
        return (false, None);
    }
    let written = disk.write(block, &[1; 4096]).is_ok();
    let mut page = [0u8; 4096];
    match disk.read(block, &mut page) {
        Ok(()) => (written, None),
        Err(fault) => (written, Some((fault.disk(), fault.counts()))),
    }
}

fn is_opened(rack: &mut MemRack, spec: &Spec) -> Result<(), Fail> {
    let mut disk = Unopened::attach(rack, spec)?;
    let number = (disk.number(), disk.blocks());
    let found = write_and_read(&mut disk, 3);
    if number != (0, 4) || found != (true, Some((0, Some((0, 1))))) {
        return Err(Fail::new(format_args!("disk {number:?} tells {found:?}")));
    }
    has_counted(&disk.into_disk(), (4, 1, 2, 1, 1))
}

/// Call 1 of the rack is listed, and of its disk call 2.
fn opens_at_the_second_call(rack: &mut MemRack) -> Result<(), Fail> {
    let blank = Spec::Blank {
        number: 0,
        blocks: 4,
    };
    if refused(rack, &blank) != Some((0, None)) {
        return Err(Fail::new("the first attaching fails"));
    }
    is_opened(rack, &blank)
}

#[test]
fn an_unopened_disk_comes_from_a_rack_and_its_faults_have_counts(
    rt: HostRuntime,
) -> Result<(), Fail> {
    let mut disks_fail_at = Vec::new(rt.alloc());
    disks_fail_at.push([2].to_vec(rt.alloc())?)?;
    let mut rack = MemRack::new(rt.alloc(), [1].to_vec(rt.alloc())?, disks_fail_at);
    opens_at_the_second_call(&mut rack)
}

#[test]
fn a_path_text_gives_its_bytes_back(rt: HostRuntime) -> Result<(), Fail> {
    let path = PathText::new(rt.alloc(), b"volume")?;
    assert_eq!(rt; path.bytes(), b"volume".as_slice());
    let kept = PathText::from_vec(b"v".to_vec(rt.alloc())?).into_vec();
    assert_eq!(rt; kept.as_slice(), b"v".as_slice());
    Ok(())
}

/// A rack that keeps a disk of three blocks under a path.
fn new_rack(alloc: Global) -> Result<MemRack, Fail> {
    let mut rack = MemRack::new(alloc, Vec::new(alloc), Vec::new(alloc));
    let path = PathText::new(alloc, b"volume")?;
    rack.keep(path, vec![in alloc; Block::new([5; 4096]); 3]?)?;
    Ok(rack)
}

fn by_path(alloc: Global, name: &[u8]) -> Result<Spec, Fail> {
    let path = PathText::new(alloc, name)?;
    Ok(Spec::Path { number: 3, path })
}

/// Attaches the disk under a path, and writes its block 1: the number of the spec, how many blocks the disk has, and the
/// last byte of the block before; None where the rack has no such disk.
fn attached(
    alloc: Global,
    rack: &mut MemRack,
    name: &[u8],
) -> Result<Option<(u32, usize, Option<u8>)>, Fail> {
    let spec = by_path(alloc, name)?;
    match rack.attach(&spec) {
        Ok(mut disk) => {
            let last = disk.content().get(1).map(|block| block.bytes[4095]);
            let _ = write(&mut disk, 1, 6);
            Ok(Some((spec.number(), disk.content().len(), last)))
        }
        Err(RackFault::Failed) => Ok(None),
        Err(RackFault::Memory) => Err(Fail::new("want of memory")),
    }
}

fn attaches_all(
    alloc: Global,
    rack: &mut MemRack,
    rows: &[(&[u8], Option<(u32, usize, Option<u8>)>)],
) -> Result<(), Fail> {
    for (place, &(name, told)) in rows.iter().enumerate() {
        let found = attached(alloc, rack, name)?;
        if found != told {
            return Err(Fail::new(format_args!("attaching {place} gives {found:?}")));
        }
    }
    Ok(())
}

#[test]
fn a_memory_rack_gives_the_disk_that_it_keeps_under_a_path(rt: HostRuntime) -> Result<(), Fail> {
    let mut rack = new_rack(rt.alloc())?;
    attaches_all(
        rt.alloc(),
        &mut rack,
        &[
            (b"volumes", None),
            (b"volume\0", None),
            (b"Volume?", None),
            (b"volume", Some((3, 3, Some(5)))),
            // The rack's own blocks stay.
            (b"volume", Some((3, 3, Some(5)))),
        ],
    )?;
    assert_eq!(rt; (rack.faults(), rack.calls()), (3, 5));
    Ok(())
}
