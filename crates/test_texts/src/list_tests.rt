//! Lists of entries: what is kept short and what is kept whole comes out as it went in.
use entry_list::{Entries, Recording};
use std::alloc::{AllocError, Global};
use std::test::Fail;
use vm_types::{Call, Entry, Line, Reply};

fn load(cleared: u64) -> Entry {
    Entry {
        process: 3,
        call: Call::Load {
            addr: 0x2001,
            size: 2,
        },
        reply: Reply::Word(0x6565),
        cleared,
    }
}

fn store(cleared: u64) -> Entry {
    Entry {
        process: 2,
        call: Call::Store {
            addr: 0x3000,
            size: 4,
            value: 7,
        },
        reply: Reply::Done,
        cleared,
    }
}

// A part of a read that asks for 70 bytes from an offset on.
fn read(offset: u32, bytes: Line, cleared: u64) -> Entry {
    Entry {
        process: 1,
        call: Call::Read {
            file: 4,
            offset,
            length: 70,
        },
        reply: Reply::Bytes(bytes),
        cleared,
    }
}

fn read_begin(cleared: u64) -> Entry {
    read(59, Line::new(b"hello"), cleared)
}

fn read_end(cleared: u64) -> Entry {
    read(64, Line::new(b"\0X"), cleared)
}

// The entries of a recording with room for eight.
fn recording(alloc: Global) -> Result<Entries, AllocError> {
    let mut recorded = Recording::with_room(alloc, 8)?;
    recorded.push_load(3, 0x2001, 2, 0x6565, 0);
    recorded.push_store(2, 0x3000, 4, 7, 1);
    recorded.push(1, &read_begin(0).call, &read_begin(0).reply, 0);
    recorded.push_load(3, 0x2001, 2, 0x6565, 2);
    recorded.push(1, &read_begin(16).call, &read_begin(16).reply, 16);
    recorded.push_store(2, 0x3000, 4, 7, 0);
    recorded.push(1, &read_end(0).call, &read_end(0).reply, 0);
    recorded.push(3, &load(0).call, &load(0).reply, 0);
    Ok(recorded.into_entries())
}

#[test]
fn a_recording_gives_its_entries(rt: HostRuntime) -> Result<(), Fail> {
    // Of the reads the first and the last had no tail that became zeros.
    let wanted = [
        load(0),
        store(1),
        read_begin(0),
        load(2),
        read_begin(16),
        store(0),
        read_end(0),
        load(0),
    ];
    let mut recorded = Vec::new(rt.alloc());
    recording(rt.alloc())?.push_to(&mut recorded)?;
    if recorded.as_slice() != wanted.as_slice() {
        return Err(Fail::new("the recording has other entries"));
    }
    let mut listed = Vec::new(rt.alloc());
    Entries::from_slice(rt.alloc(), &wanted)?.push_to(&mut listed)?;
    if listed.as_slice() != wanted.as_slice() {
        return Err(Fail::new("the list has other entries"));
    }
    Ok(())
}
