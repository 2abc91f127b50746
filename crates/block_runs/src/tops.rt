//! All blocks of a plan, with the pageout daemon beside them.
ghost use denote.Param.Send.{IsSync, IsSend};
ghost use Rattle.block_runs.specs.Callers.{IsClock, TurnsClock};
ghost use Rattle.block_runs.specs.Rows.{AreBlocksReady, AllEnd, IsBlockReady, BlockEnds};

use crate::blocks::{both, run_block};
use crate::calls::Calls;
use crate::lines::{ended, ends_in};
use std::sync::Wait;
use std::sync::atomic::AtomicBool;
use std::thread::{Threads, join_mut};
use vm_core::Disk;
use vm_kernel::caller::Caller;
use vm_script::PlanLine;

/// Runs all top blocks from the block `next` on, each on a thread, to their ends or until they are stopped: then the answer is false.
pub fn run_tops<R: Threads + Wait + Sync, D: Disk + Send, K: Calls<D> + Sync>(
    rt: &R,
    kernel: &K,
    stop: &AtomicBool,
    lines: &[PlanLine],
    row: &mut [Caller<D>],
    next: u32,
) -> bool
    requires { AreBlocksReady (K.kernel kernel.now) lines.now row.old next }
    ensures { AllEnd (K.kernel kernel.now) result lines.now row.old row.new }
{
    if lines.is_empty() {
        return true;
    }
    let (first, others) = ended(lines, next);
    if others.is_empty() {
        return run_block(rt, kernel, stop, first, row);
    }
    let after = next + ends_in(first);
    let (own, later) = row.split_at_mut((after - next) as usize);
    let (one, two) = join_mut(
        rt,
        &mut || -> bool
            requires { IsSync R.row × IsSend D.row × IsSync K.row
                × IsBlockReady (K.kernel kernel.now) first.now own.now }
            ensures { BlockEnds (K.kernel kernel.entry.now) result first.entry.now own.entry.now
                own.exit.now }
        { run_block(rt, kernel, stop, first, own) },
        &mut || -> bool
            requires { IsSync R.row × IsSend D.row × IsSync K.row
                × AreBlocksReady (K.kernel kernel.now) others.now later.now after }
            ensures { AllEnd (K.kernel kernel.entry.now) result others.entry.now later.entry.now
                later.exit.now }
        { run_tops(rt, kernel, stop, others, later, after) },
    );
    both(one, two)
}

/// Runs all blocks, and beside them so many turns of the pageout daemon, which waits for none of them. False where memory
/// lacked: then each block was stopped before its next line. One block by itself, without turns, is run on this very thread.
pub fn run_all<R: Threads + Wait + Sync, D: Disk + Send, K: Calls<D> + Sync>(
    rt: &R,
    kernel: &K,
    lines: &[PlanLine],
    row: &mut [Caller<D>],
    daemon: &mut Caller<D>,
    turns: u32,
) -> bool
    requires blocks { AreBlocksReady (K.kernel kernel.now) lines.now row.old 1 }
    requires daemon { IsClock (K.kernel kernel.now) daemon.old }
    ensures blocks { AllEnd (K.kernel kernel.now) result lines.now row.old row.new }
    ensures daemon { TurnsClock (K.kernel kernel.now) daemon.old turns daemon.new }
{
    let stop = AtomicBool::new(false);
    let stop = &stop;
    if turns == 0 {
        return run_tops(rt, kernel, stop, lines, row, 1);
    }
    let (whole, ()) = join_mut(
        rt,
        &mut || -> bool
            requires { IsSync R.row × IsSend D.row × IsSync K.row
                × AreBlocksReady (K.kernel kernel.now) lines.now row.now 1 }
            ensures { AllEnd (K.kernel kernel.entry.now) result lines.entry.now row.entry.now
                row.exit.now }
        { run_tops(rt, kernel, stop, lines, row, 1) },
        &mut || -> ()
            requires { IsSend D.row × IsSync K.row × IsSync R.row
                × IsClock (K.kernel kernel.now) daemon.now }
            ensures { TurnsClock (K.kernel kernel.entry.now) daemon.entry.now turns
                daemon.exit.now }
        { kernel.pageout(rt, daemon, turns) },
    );
    whole
}
