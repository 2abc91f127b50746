//! One run of a script over memory forms, and what it left.
ghost use Rattle.std.specs.Prelude.{◌≤◌};

use block_device::{
    Block, MemDisk, MemRack, MemSink, MemSource, PathText, Rack, RackFault, Spec, Untold,
};
use std::alloc::{AllocError, Global};
use std::sync::Wait;
use std::thread::Threads;
use vm_run::{Outcome, RunFault, run, run_alone};
use vm_types::Entry;

/// The call of each outside that fails; 0 stands for none.
#[derive(Clone, Copy)]
pub struct Fails {
    pub source: u64,
    pub sink: u64,
    pub rack: u64,
    pub disk_0: u64,
    pub disk_1: u64,
    pub swap: u64,
}

pub const NEVER: Fails = Fails {
    source: 0,
    sink: 0,
    rack: 0,
    disk_0: 0,
    disk_1: 0,
    swap: 0,
};

/// What a run left: its status, the step of its fault, its text, its history, the blocks of the disks that came back, and how many
/// transfers the first, the second and the swap disk were asked for, reads and writes.
#[derive(Drop)]
pub struct Left {
    pub status: u8,
    pub fault: &'static str,
    pub text: Vec<u8>,
    pub entries: Vec<Entry>,
    pub disks: Vec<Vec<Block>>,
    pub first: (u64, u64),
    pub second: (u64, u64),
    pub swap: (u64, u64),
}

/// The words of a command, which stand one a line.
pub fn words_of(alloc: Global, lines: &str) -> Result<Vec<String>, AllocError> {
    let mut words = Vec::new(alloc);
    for word in lines.lines() {
        words.push(String::from_str(alloc, word)?)?;
    }
    Ok(words)
}

/// No word.
pub const NO_WORDS: &str = "";

fn step_of(fault: &Option<RunFault>) -> &'static str {
    match fault {
        None => "none",
        Some(RunFault::Opening(_)) => "opening",
        Some(RunFault::Closing(_)) => "closing",
        Some(RunFault::Showing(_)) => "showing",
    }
}

// Of each disk by number the call that fails; those of files have numbers from 0, and the swap disk has 8.
fn calls_of(alloc: Global, fails: &Fails) -> Result<Vec<Vec<u64>>, AllocError> {
    let calls = [fails.disk_0, fails.disk_1, 0, 0, 0, 0, 0, 0, fails.swap];
    let mut disks = Vec::new(alloc);
    for call in calls {
        disks.push([call].to_vec(alloc)?)?;
    }
    Ok(disks)
}

fn transfers(disk: Option<&MemDisk>) -> (u64, u64) {
    match disk {
        Some(disk) => (disk.reads(), disk.writes()),
        None => (0, 0),
    }
}

fn blocks_of(alloc: Global, disks: &[MemDisk]) -> Result<Vec<Vec<Block>>, AllocError> {
    let mut blocks = Vec::new(alloc);
    for disk in disks {
        blocks.push(Vec::from_slice(alloc, disk.content())?)?;
    }
    Ok(blocks)
}

fn left_of(alloc: Global, outcome: Outcome<MemDisk>, text: Vec<u8>) -> Result<Left, AllocError> {
    let mut entries = Vec::new(alloc);
    outcome.history.entries().push_to(&mut entries)?;
    Ok(Left {
        status: outcome.status,
        fault: step_of(&outcome.fault),
        text,
        entries,
        disks: blocks_of(alloc, &outcome.disks)?,
        first: transfers(outcome.disks.first()),
        second: transfers(outcome.disks.get(1)),
        swap: transfers(outcome.swap.as_ref()),
    })
}

/// The outcome of a run over this rack, and what it prints. The source gives 7 bytes a call, and the sink takes 5.
pub fn run_over<R: Rack>(
    rt: &(impl Threads + Wait + Sync),
    alloc: Global,
    words: &str,
    script: &[u8],
    fails: &Fails,
    rack: &mut R,
) -> Result<(Outcome<R::D>, Vec<u8>), AllocError> {
    let words = words_of(alloc, words)?;
    let bytes = Vec::from_slice(alloc, script)?;
    let mut source = MemSource::new(bytes, 7, [fails.source].to_vec(alloc)?);
    let mut out = MemSink::new(alloc, 262_144, 5, [fails.sink].to_vec(alloc)?)?;
    let outcome = run(rt, alloc, &words, &mut source, &mut out, rack);
    Ok((outcome, out.into_written()))
}

/// What a run without threads tells over memory forms: its status and its text; None where the script needs threads.
pub fn run_threadless(
    alloc: Global,
    words: &str,
    script: &[u8],
) -> Result<Option<(u8, Vec<u8>)>, AllocError> {
    let words = words_of(alloc, words)?;
    let mut source = MemSource::new(Vec::from_slice(alloc, script)?, 7, Vec::new(alloc));
    let mut out = MemSink::new(alloc, 262_144, 5, Vec::new(alloc))?;
    let mut rack = MemRack::new(alloc, Vec::new(alloc), Vec::new(alloc));
    match run_alone(alloc, &words, &mut source, &mut out, &mut rack) {
        Ok(outcome) => Ok(Some((outcome.status, out.into_written()))),
        Err(_) => Ok(None),
    }
}

/// Runs a script over memory forms, for these words.
pub fn run_trial(
    rt: &(impl Threads + Wait + Sync),
    alloc: Global,
    words: &str,
    script: &[u8],
    fails: &Fails,
) -> Result<Left, AllocError> {
    let mut rack = MemRack::new(alloc, [fails.rack].to_vec(alloc)?, calls_of(alloc, fails)?);
    let (outcome, text) = run_over(rt, alloc, words, script, fails, &mut rack)?;
    left_of(alloc, outcome, text)
}

/// Runs a script over memory forms, for these words, with a disk of these blocks under the path v.
pub fn run_kept(
    rt: &(impl Threads + Wait + Sync),
    alloc: Global,
    words: &str,
    script: &[u8],
    fails: &Fails,
    blocks: &[Block],
) -> Result<Left, AllocError> {
    let mut rack = MemRack::new(alloc, [fails.rack].to_vec(alloc)?, calls_of(alloc, fails)?);
    if !blocks.is_empty() && blocks.len() <= 16_384 {
        rack.keep(PathText::new(alloc, b"v")?, Vec::from_slice(alloc, blocks)?)?;
    }
    let (outcome, text) = run_over(rt, alloc, words, script, fails, &mut rack)?;
    left_of(alloc, outcome, text)
}

// The calls of a disk that fails from this one on; none where it is 0.
fn calls_from(alloc: Global, first: u64) -> Result<Vec<u64>, AllocError>
    requires { first ≤ 1000 }
{
    let mut calls = Vec::new(alloc);
    if 0 < first {
        for call in first..first + 100 {
            calls.push(call)?;
        }
    }
    Ok(calls)
}

/// Runs a script over memory forms, with a disk of these blocks under the path v where there are any. The disks 0 and 1 fail at
/// these calls and at each later one; 0 stands for none.
pub fn run_failing(
    rt: &(impl Threads + Wait + Sync),
    alloc: Global,
    script: &[u8],
    blocks: &[Block],
    disk_0: u64,
    disk_1: u64,
) -> Result<Left, AllocError>
    requires { (disk_0 ≤ 1000) × (disk_1 ≤ 1000) }
{
    let mut calls = Vec::new(alloc);
    calls.push(calls_from(alloc, disk_0)?)?;
    calls.push(calls_from(alloc, disk_1)?)?;
    let mut rack = MemRack::new(alloc, Vec::new(alloc), calls);
    if !blocks.is_empty() && blocks.len() <= 16_384 {
        rack.keep(PathText::new(alloc, b"v")?, Vec::from_slice(alloc, blocks)?)?;
    }
    let (outcome, text) = run_over(rt, alloc, NO_WORDS, script, &NEVER, &mut rack)?;
    left_of(alloc, outcome, text)
}

// A rack whose disks don't tell what they hold.
#[derive(Drop)]
struct UntoldRack<R: Rack + Drop> {
    rack: R,
}

impl<R: Rack + Drop> Rack for UntoldRack<R> {
    ghost use Rattle.std.specs.Prelude.{None};

    type D = Untold<R::D>;

    ghost seen = { λ rack. record (R.seen rack.rack) { holds = λ spec. None } };

    fn faults(&self) -> u64 {
        self.rack.faults()
    }

    fn attach(&mut self, spec: &Spec) -> Result<Untold<R::D>, RackFault> {
        match self.rack.attach(spec) {
            Ok(disk) => Ok(Untold { disk }),
            Err(fault) => Err(fault),
        }
    }
}

/// Runs a script over memory forms that tell nothing: its status, and what it prints.
pub fn run_untold(
    rt: &(impl Threads + Wait + Sync),
    alloc: Global,
    script: &[u8],
) -> Result<(u8, Vec<u8>), AllocError> {
    let mut rack = UntoldRack {
        rack: MemRack::new(alloc, Vec::new(alloc), Vec::new(alloc)),
    };
    let (outcome, text) = run_over(rt, alloc, NO_WORDS, script, &NEVER, &mut rack)?;
    Ok((outcome.status, text))
}
