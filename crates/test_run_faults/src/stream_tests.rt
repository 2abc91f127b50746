//! The first path over streams that tell: an input and an output that fail at each of their calls in turn, that move few bytes at a time, or that are full.
use block_device::MemRack;
use host_streams::{InputSource, MemInput, MemOutput, OutputSink, StreamFlaw};
use std::alloc::{AllocError, Global};
use std::sync::Wait;
use std::test::Fail;
use std::thread::Threads;
use test_run::{FIRST, REPORT};
use vm_run::run;

type Flawed = Vec<Option<StreamFlaw>>;

// The status, and what was written.
fn run_over_streams(
    rt: &(impl Threads + Wait + Sync),
    alloc: Global,
    room: usize,
    input: Flawed,
    output: Flawed,
) -> Result<(u8, Vec<u8>), AllocError> {
    let words = Vec::new(alloc);
    let mut source = InputSource::new(MemInput::new(Vec::from_slice(alloc, FIRST)?, input));
    let mut out = OutputSink::new(MemOutput::new(alloc, room, output)?);
    let mut rack = MemRack::new(alloc, Vec::new(alloc), Vec::new(alloc));
    let outcome = run(rt, alloc, &words, &mut source, &mut out, &mut rack);
    let output = out.into_output();
    Ok((outcome.status, Vec::from_slice(alloc, output.written())?))
}

// The call of this number, from 0 on, fails.
fn fails_at(alloc: Global, call: usize) -> Result<Flawed, AllocError> {
    let mut flaws = vec![in alloc; None; call]?;
    flaws.push(Some(StreamFlaw::Fails))?;
    Ok(flaws)
}

#[test]
fn streams_that_move_few_bytes_carry_all_of_them(rt: HostRuntime) -> Result<(), Fail> {
    let alloc = rt.alloc();
    for most in [1, 7, 4096] {
        let few = vec![in alloc; Some(StreamFlaw::Short(most)); 300]?;
        let also_few = vec![in alloc; Some(StreamFlaw::Short(most)); 300]?;
        let (status, text) = run_over_streams(&rt, alloc, 4096, few, also_few)?;
        assert_eq!(rt; status, 0, "{most} bytes");
        assert_eq!(rt; text.as_slice(), REPORT, "{most} bytes");
    }
    Ok(())
}

#[test]
fn a_stream_that_fails_or_is_full_ends_the_run(rt: HostRuntime) -> Result<(), Fail> {
    let alloc = rt.alloc();
    // The second read asks for the end of the script.
    for call in 0..2 {
        let fails = fails_at(alloc, call)?;
        let (status, text) = run_over_streams(&rt, alloc, 4096, fails, Vec::new(alloc))?;
        assert_eq!(rt; status, 5, "read {call}");
        assert_eq!(rt;
            text.as_slice(),
            b"script: read fault\n".as_slice(),
            "read {call}"
        );
    }
    let fails = fails_at(alloc, 2)?;
    let (status, _) = run_over_streams(&rt, alloc, 4096, fails, Vec::new(alloc))?;
    assert_eq!(rt; status, 0, "there is no third read");
    let fails = fails_at(alloc, 0)?;
    let (status, text) = run_over_streams(&rt, alloc, 4096, Vec::new(alloc), fails)?;
    assert_eq!(rt; (status, text.len()), (6, 0));
    for room in [0, 1, 33, 88] {
        let (status, text) = run_over_streams(&rt, alloc, room, Vec::new(alloc), Vec::new(alloc))?;
        assert_eq!(rt; (status, text.len()), (6, room));
        assert!(rt;
            REPORT.starts_with(text.as_slice()),
            "room for {room} bytes"
        );
    }
    Ok(())
}
