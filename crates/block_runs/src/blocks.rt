//! The blocks of a plan run on threads, each fork by a join.
ghost use Rattle.std.specs.Prelude.{◌≡◌, true, [], ◌∷◌, OnOk, OnErr};
ghost use denote.Param.Send.{IsSync, IsSend};
ghost use Rattle.block_runs.specs.Callers.{IsCaller, SeesMore};
ghost use Rattle.block_runs.specs.Conditions.{MayMakeLine};
ghost use Rattle.block_runs.specs.Lines.{IsCallLine, LineTakesMemory, NamesFile};
ghost use Rattle.block_runs.specs.Rows.{IsBlockReady, IsOnWay, IsChildBorn, IsStretch, BothEnd, BlockEnds, MakesLine};

use crate::calls::Calls;
use crate::lines::{Step, ends_in, first_process, is_done, parted, step_of};
use crate::parts::{cut_write, make_parts};
use std::alloc::AllocError;
use std::sync::Wait;
use std::sync::atomic::AtomicBool;
use std::sync::atomic::Ordering::SeqCst;
use std::thread::{Threads, join_mut};
use vm_core::Disk;
use vm_kernel::caller::Caller;
use vm_script::{Call, PlanAct, PlanLine};

/// Where a stretch of a block's lines ended: how many lines it passed, the number of the next block that may begin, and whether it
/// went on to a wait or to the block's end.
#[derive(Clone, Copy)]
pub struct Stretch {
    pub passed: usize,
    pub next: u32,
    pub whole: bool,
}

pub fn both(one: bool, two: bool) -> bool
    ensures one { result ≡ true → one ≡ true }
    ensures two { result ≡ true → two ≡ true }
{
    one && two
}

/// Runs a block to its end, or until it is stopped: then the answer is false. The row has its caller, and behind it those of its
/// descendants in the order of their numbers.
#[cycle(blocks)]
pub fn run_block<R: Threads + Wait + Sync, D: Disk + Send, K: Calls<D> + Sync>(
    rt: &R,
    kernel: &K,
    stop: &AtomicBool,
    lines: &[PlanLine],
    row: &mut [Caller<D>],
) -> bool
    requires { IsBlockReady (K.kernel kernel.now) lines.now row.old }
    ensures { BlockEnds (K.kernel kernel.now) result lines.now row.old row.new }
{
    let Some((caller, rest)) = row.split_first_mut() else {
        unreachable!()
    };
    let first = first_process(lines) + 1;
    let mut next = first;
    let mut left = lines;
    while !left.is_empty() {
        let (_, later) = rest.split_at_mut((next - first) as usize);
        let stretch = run_stretch(rt, kernel, stop, left, caller, later, next);
        if !stretch.whole {
            return false;
        }
        next = stretch.next;
        let (_, behind) = left.split_at(stretch.passed);
        left = match behind.split_first() {
            None => behind,
            Some((_wait, behind)) => behind,
        };
    }
    true
}

/// Runs a block's lines up to its next wait or its end.
#[cycle(blocks)]
fn run_stretch<R: Threads + Wait + Sync, D: Disk + Send, K: Calls<D> + Sync>(
    rt: &R,
    kernel: &K,
    stop: &AtomicBool,
    lines: &[PlanLine],
    caller: &mut Caller<D>,
    rest: &mut [Caller<D>],
    next: u32,
) -> Stretch
    requires { IsOnWay (K.kernel kernel.now) lines.now caller.old rest.old next }
    ensures { IsStretch (K.kernel kernel.now) result caller.old caller.new lines.now rest.old
        rest.new next }
{
    let first = next;
    let mut next = next;
    let mut left = lines;
    while let Some((line, behind)) = left.split_first() {
        if stop.load(SeqCst) {
            return Stretch {
                passed: lines.len() - left.len(),
                next,
                whole: false,
            };
        }
        match step_of(&line.act) {
            Step::Wait => return Stretch {
                passed: lines.len() - left.len(),
                next,
                whole: true,
            },
            Step::Fork => {
                let (inside, others) = parted(behind, line.process);
                let after = next + ends_in(inside);
                let (_, later) = rest.split_at_mut((next - first) as usize);
                match kernel.fork(rt, caller, &mut later[0]) {
                    Err(_) => {
                        stop.store(true, SeqCst);
                        return Stretch {
                            passed: lines.len() - left.len(),
                            next,
                            whole: false,
                        };
                    }
                    Ok(reply) => {
                        if is_done(&reply) {
                            let on = run_both(
                                rt, kernel, stop, inside, others, caller, later, next, after,
                            );
                            return Stretch {
                                passed: lines.len() - others.len() + on.passed,
                                next: on.next,
                                whole: on.whole,
                            };
                        }
                        next = after;
                        left = others;
                    }
                }
            }
            Step::Line => match make_line(rt, kernel, caller, line) {
                Err(_) => {
                    stop.store(true, SeqCst);
                    return Stretch {
                        passed: lines.len() - left.len(),
                        next,
                        whole: false,
                    };
                }
                Ok(()) => left = behind,
            },
        }
    }
    Stretch {
        passed: lines.len() - left.len(),
        next,
        whole: true,
    }
}

/// Runs a child that was born beside its parent's lines up to the next wait or the end, and meets it.
#[cycle(blocks)]
fn run_both<R: Threads + Wait + Sync, D: Disk + Send, K: Calls<D> + Sync>(
    rt: &R,
    kernel: &K,
    stop: &AtomicBool,
    inside: &[PlanLine],
    others: &[PlanLine],
    caller: &mut Caller<D>,
    rest: &mut [Caller<D>],
    next: u32,
    after: u32,
) -> Stretch
    requires { IsChildBorn (K.kernel kernel.now) inside.now others.now caller.old rest.old next
        after }
    ensures { BothEnd (K.kernel kernel.now) result caller.old caller.new inside.now others.now
        rest.old rest.new next }
{
    let (child, later) = rest.split_at_mut((after - next) as usize);
    let (ended, stretch) = join_mut(
        rt,
        &mut || -> bool
            requires { IsSync R.row × IsSend D.row × IsSync K.row
                × IsBlockReady (K.kernel kernel.now) inside.now child.now }
            ensures { BlockEnds (K.kernel kernel.entry.now) result inside.entry.now child.entry.now
                child.exit.now }
        { run_block(rt, kernel, stop, inside, child) },
        &mut || -> Stretch
            requires { IsSync R.row × IsSend D.row × IsSync K.row
                × IsOnWay (K.kernel kernel.now) others.now caller.now later.now after }
            ensures { IsStretch (K.kernel kernel.entry.now) result caller.entry.now caller.exit.now
                others.entry.now later.entry.now later.exit.now after }
        { run_stretch(rt, kernel, stop, others, caller, later, after) },
    );
    kernel.wait_for(&mut child[0], caller);
    Stretch {
        passed: stretch.passed,
        next: stretch.next,
        whole: both(ended, stretch.whole),
    }
}

/// Makes a line that is neither a wait nor a fork. The error is want of memory, at a line of a call that takes some.
#[inline(always)]
fn make_line<R: Wait, D: Disk, K: Calls<D>>(
    rt: &R,
    kernel: &K,
    caller: &mut Caller<D>,
    line: &PlanLine,
) -> Result<(), AllocError>
    requires caller { IsCaller (K.kernel kernel.now) caller.old }
    requires line { IsCallLine line.now.act }
    requires may { MayMakeLine (K.kernel kernel.now) caller.old line.now }
    // It is between its calls again, and made just the line's entries.
    ensures caller { IsCaller (K.kernel kernel.now) caller.new }
    ensures made { OnOk result (MakesLine caller.old caller.new line.now) }
    // Or memory is wanting, and it made none.
    ensures takes { OnErr result (LineTakesMemory line.now.act) }
    ensures err { OnErr result (SeesMore caller.old caller.new []) }
{
    match &line.act {
        PlanAct::Call(call) => {
            kernel.call(rt, caller, &call.call())?;
            Ok(())
        }
        _ => make_named(rt, kernel, caller, line),
    }
}

// Makes a line that names a file. Not inline, so that another line has no room for the parts of a write.
#[inline(never)]
fn make_named<R: Wait, D: Disk, K: Calls<D>>(
    rt: &R,
    kernel: &K,
    caller: &mut Caller<D>,
    line: &PlanLine,
) -> Result<(), AllocError>
    requires caller { IsCaller (K.kernel kernel.now) caller.old }
    requires line { IsCallLine line.now.act }
    requires named { NamesFile line.now.act }
    requires may { MayMakeLine (K.kernel kernel.now) caller.old line.now }
    // It is between its calls again, and made just the line's entries.
    ensures caller { IsCaller (K.kernel kernel.now) caller.new }
    ensures made { OnOk result (MakesLine caller.old caller.new line.now) }
    // Or memory is wanting, and it made none.
    ensures takes { OnErr result (LineTakesMemory line.now.act) }
    ensures err { OnErr result (SeesMore caller.old caller.new []) }
{
    match &line.act {
        PlanAct::Named { call, .. } => make_parts(rt, kernel, caller, &call.call(), &[]),
        PlanAct::Write {
            file,
            offset,
            bytes,
            ..
        } => {
            let (first, behind) = cut_write(*file, *offset, bytes.bytes());
            make_parts(rt, kernel, caller, &first, behind)
        }
        PlanAct::Call(_) | PlanAct::Wait => unreachable!(),
    }
}
