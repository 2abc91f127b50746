//! The worked scripts' histories, by hand, give their reports letter by letter.
use std::alloc::{AllocError, Global};
use std::test::Fail;
use vm_report::{
    Entries, are_well_formed, disk_fault, file_heading, file_lines, process_section,
    process_sections, rack_fault, script_fault, setup_fault, summary, trace_entries, trace_file,
    trace_opening, volume_fault,
};
use vm_script::{ScriptFault, ScriptKind, parse};
use vm_types::{Call, Entry, Errno, Kind, Line, Object, Place, Prot, Reply, Signal};

fn entry(process: u32, call: Call, reply: Reply) -> Entry {
    Entry {
        process,
        call,
        reply,
        cleared: 0,
    }
}

fn store(process: u32, value: u32) -> Entry {
    entry(
        process,
        Call::Store {
            addr: 0x2000,
            size: 1,
            value,
        },
        Reply::Done,
    )
}

fn load(process: u32, addr: u32, reply: Reply) -> Entry {
    entry(process, Call::Load { addr, size: 1 }, reply)
}

fn word(size: u32, value: u32) -> Entry {
    entry(1, Call::Load { addr: 0x2000, size }, Reply::Word(value))
}

fn map(place: Place, length: u32, reply: Reply) -> Entry {
    let (prot, kind, object) = (Prot::READ, Kind::Private, Object::NewZero);
    entry(
        1,
        Call::Map {
            place,
            length,
            prot,
            kind,
            object,
            offset: 0,
        },
        reply,
    )
}

fn map_at(addr: u32, length: u32, reply: Reply) -> Entry {
    map(Place::At(addr), length, reply)
}

fn fork(child: u32, reply: Reply) -> Entry {
    entry(1, Call::Fork { child }, reply)
}

fn read(file: u32, offset: u32, length: u32, reply: Reply) -> Entry {
    entry(
        1,
        Call::Read {
            file,
            offset,
            length,
        },
        reply,
    )
}

fn write(offset: u32, bytes: Line, rest: u32, reply: Reply) -> Entry {
    entry(
        1,
        Call::Write {
            file: 0,
            offset,
            bytes,
            rest,
        },
        reply,
    )
}

fn exit(process: u32) -> Entry {
    entry(process, Call::Exit, Reply::Done)
}

// Writes the sections of a script's processes, over this history.
fn put_report(
    alloc: Global,
    script: &str,
    history: &[Entry],
    out: &mut Vec<u8>,
) -> Result<(), AllocError> {
    let history = Entries::from_slice(alloc, history)?;
    if !are_well_formed(&history) || history.len() > 1_048_576 {
        return Ok(());
    }
    if let Ok(plan) = parse(alloc, script.as_bytes())? {
        if plan.parents().len() < 1000 {
            process_sections(&plan, &history, out)?;
        }
    }
    Ok(())
}

// The report of a script over this history is this text.
fn is_reported(alloc: Global, script: &str, history: &[Entry], text: &str) -> Result<(), Fail> {
    let mut out = Vec::new(alloc);
    put_report(alloc, script, history, &mut out)?;
    is_text(&out, text)
}

fn is_text(out: &[u8], text: &str) -> Result<(), Fail> {
    if out != text.as_bytes() {
        return Err(Fail::new("the text is another"));
    }
    Ok(())
}

#[test]
fn copy_on_write_on_both_sides(rt: HostRuntime) -> Result<(), Fail> {
    let script = "\
process
map 0x2000 4096 rw private zero 0
store 0x2000 1 0x11
fork
store 0x2000 1 0x22
load 0x2000 1
end
store 0x2000 1 0x33
load 0x2000 1
end
";
    let history = [
        map_at(0x2000, 4096, Reply::Mapped(0x2000)),
        store(1, 0x11),
        fork(2, Reply::Done),
        store(2, 0x22),
        store(1, 0x33),
        load(1, 0x2000, Reply::Word(0x33)),
        load(2, 0x2000, Reply::Word(0x22)),
        exit(2),
        exit(1),
    ];
    let text = "\
process 1
2 map 0x00002000
3 store ok
4 fork 2
8 store ok
9 load 0x33
10 exit ok
process 2
5 store ok
6 load 0x22
7 exit ok
";
    is_reported(rt.alloc(), script, &history, text)
}

#[test]
fn reserved_and_not_used(rt: HostRuntime) -> Result<(), Fail> {
    let script = "\
swap 6
process
map 0x2000 16384 rw private zero 0
fork
end
unmap 0x5000 4096
fork
end
end
";
    let history = [
        map_at(0x2000, 16384, Reply::Mapped(0x2000)),
        fork(2, Reply::Refused(Errno::NoSwap)),
        entry(
            1,
            Call::Unmap {
                addr: 0x5000,
                length: 4096,
            },
            Reply::Done,
        ),
        fork(3, Reply::Done),
        exit(3),
        exit(1),
    ];
    let text = "\
process 1
3 map 0x00002000
4 fork error 3 NoSwap
6 unmap ok
7 fork 3
9 exit ok
process 2 not born
process 3
8 exit ok
";
    is_reported(rt.alloc(), script, &history, text)
}

#[test]
fn growth(rt: HostRuntime) -> Result<(), Fail> {
    let script = "\
process
load 0x3000 1
write a 4096 5a
load 0x3000 1
read b 0 16
wait
write a 4090 03030303030303
read a 60 8
end";
    let history = [
        load(1, 0x3000, Reply::Signal(Signal::Past)),
        write(4096, Line::new(&[0x5a]), 0, Reply::Done),
        load(1, 0x3000, Reply::Word(0x5a)),
        read(1, 0, 16, Reply::Bytes(Line::new(b"hello\0\0\0X"))),
        write(4090, Line::new(&[3, 3, 3, 3, 3, 3]), 1, Reply::Done),
        write(4096, Line::new(&[3]), 0, Reply::Refused(Errno::TooBig)),
        read(0, 60, 8, Reply::Bytes(Line::new(b"abcd"))),
        read(
            0,
            64,
            4,
            Reply::Io {
                disk: 0,
                before: 0,
                after: 1,
            },
        ),
        exit(1),
    ];
    let text = "\
process 1
2 load BUS past
3 write 1
4 load 0x5a
5 read 9 68656c6c6f00000058
7 write 6 error 8 TooBig
8 read 4 61626364 error io 0 0 1
9 exit ok
";
    is_reported(rt.alloc(), script, &history, text)
}

// Writes a file of 4097 bytes, of which two aren't zeros.
fn put_file(alloc: Global, out: &mut Vec<u8>) -> Result<(), AllocError> {
    let mut bytes = vec![in alloc; 0; 4097]?;
    bytes[4] = b'o';
    bytes[4096] = 0x5a;
    file_heading(b"a", 4097, out)?;
    file_lines(0, &bytes, out)
}

#[test]
fn a_file_with_its_lines(rt: HostRuntime) -> Result<(), Fail> {
    let mut out = Vec::new(rt.alloc());
    put_file(rt.alloc(), &mut out)?;
    let text = "\
file a 4097
00000000 000000006f000000000000000000000000000000000000000000000000000000
00001000 5a
";
    is_text(&out, text)
}

#[test]
fn refusals(rt: HostRuntime) -> Result<(), Fail> {
    let script = "\
process
map 0x1000 0x10001000 r shared a 0
map 0x1000 4096 r shared a 0
map any 1 r shared a 0
write a 0 58
map 0x2000 4096 rw shared a 0
read q 0 4
unmap 0x2001 4096
sync 0x9000 4096
end";
    let history = [
        map_at(0x1000, 0x10001000, Reply::Refused(Errno::TooLarge)),
        map_at(0x1000, 4096, Reply::Mapped(0x1000)),
        map(Place::Any, 1, Reply::Refused(Errno::NoRoom)),
        write(0, Line::new(b"X"), 0, Reply::Refused(Errno::ReadOnly)),
        map_at(0x2000, 4096, Reply::Refused(Errno::Access)),
        read(9, 0, 4, Reply::Refused(Errno::NoObject)),
        entry(
            1,
            Call::Unmap {
                addr: 0x2001,
                length: 4096,
            },
            Reply::Refused(Errno::Invalid),
        ),
        entry(
            1,
            Call::Sync {
                addr: 0x9000,
                length: 4096,
            },
            Reply::Refused(Errno::NotMapped),
        ),
        exit(1),
    ];
    let text = "\
process 1
2 map error 5 TooLarge
3 map 0x00001000
4 map error 4 NoRoom
5 write 0 error 7 ReadOnly
6 map error 2 Access
7 read 0 error 9 NoObject
8 unmap error 1 Invalid
9 sync error 6 NotMapped
10 exit ok
";
    is_reported(rt.alloc(), script, &history, text)
}

#[test]
fn words_of_each_size(rt: HostRuntime) -> Result<(), Fail> {
    let script = "\
process
load 0x2000 1
load 0x2000 2
load 0x2000 4
store 0x2000 1 7
load 0x5000 1
end";
    let history = [
        word(1, 0x68),
        word(2, 0x6865),
        word(4, 0x6865_6c0a),
        entry(
            1,
            Call::Store {
                addr: 0x2000,
                size: 1,
                value: 7,
            },
            Reply::Signal(Signal::Prot),
        ),
        load(1, 0x5000, Reply::Signal(Signal::NoMap)),
        exit(1),
    ];
    let text = "\
process 1
2 load 0x68
3 load 0x6865
4 load 0x68656c0a
5 store SEGV prot
6 load SEGV nomap
7 exit ok
";
    is_reported(rt.alloc(), script, &history, text)
}

// Writes a trace with its opening, and a summary.
fn put_trace(history: &[Entry], out: &mut Vec<u8>) -> Result<(), AllocError> {
    trace_opening(64, &[(0, 8)], &[0, 1], out)?;
    trace_file(0, b"a", true, 0, 5, &[(1, 2), (5, 1)], out)?;
    file_lines(0, b"hello", out)?;
    let history = Entries::from_slice(*out.allocator(), history)?;
    if are_well_formed(&history) {
        trace_entries(&history, out)?;
    }
    summary(3, &history, out)
}

#[test]
fn a_trace_and_a_summary(rt: HostRuntime) -> Result<(), Fail> {
    let mut out = Vec::new(rt.alloc());
    let history = [load(1, 0x2001, Reply::Word(0x65)), store(1, 0x4a), exit(1)];
    put_trace(&history, &mut out)?;
    let text = "\
trace swap 64
disk 0 8
root 1
file 0 a rw 0 5 1+2,5+1
00000000 68656c6c6f
entries 3
1 0000000000000000 load 0x00002001 1 = 0x65
1 0000000000000000 store 0x00002000 1 0x4a = ok
1 0000000000000000 exit = ok
make 3 entries 3 signals 0 refusals 0 sum 101
";
    is_text(&out, text)
}

// Writes a line for each kind of fault.
fn put_faults(out: &mut Vec<u8>) -> Result<(), AllocError> {
    let fault = ScriptFault {
        line: 7,
        kind: ScriptKind::Word,
    };
    script_fault(&fault, out)?;
    setup_fault(1, out)?;
    volume_fault(0, 8, out)?;
    disk_fault(0, 0, 1, out)?;
    rack_fault(2, out)
}

#[test]
fn faults(rt: HostRuntime) -> Result<(), Fail> {
    let mut out = Vec::new(rt.alloc());
    put_faults(&mut out)?;
    let text = "\
script: line 7: word
setup: rule 1
setup: rule 9 disk 0 volume 8
fault: disk 0 0 1
fault: rack 2
";
    is_text(&out, text)
}

// Writes the section of process 2 alone.
fn put_section(alloc: Global, out: &mut Vec<u8>) -> Result<(), AllocError> {
    let history = Entries::from_slice(alloc, &[exit(2), exit(1)])?;
    if let Ok(plan) = parse(alloc, b"process\nend\nprocess\nend")? {
        if are_well_formed(&history) {
            process_section(&plan, 2, &history, out)?;
        }
    }
    Ok(())
}

#[test]
fn one_section(rt: HostRuntime) -> Result<(), Fail> {
    let mut out = Vec::new(rt.alloc());
    put_section(rt.alloc(), &mut out)?;
    is_text(&out, "process 2\n4 exit ok\n")
}
