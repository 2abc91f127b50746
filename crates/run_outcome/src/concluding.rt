//! A run's last line is printed, and what it leaves is handed back.
ghost use Rattle.std.specs.Prelude.{◌≡◌};
ghost use Rattle.run_input.specs.Asked.{Given};
ghost use Rattle.run_outcome.specs.Stopped.{HasStopped, with_sink};
ghost use Rattle.run_outcome.specs.Ended.{end_of};
ghost use Rattle.run_outcome.specs.Run.{Outside, RunEnds};

use crate::outcome::Outcome;
use crate::stop::Stop;
use run_endings::tell_ending;
use std::alloc::Global;
use volume_files::{Disk, Sink};

/// Prints the last line of a run that stopped, as far as the sink takes it, and hands back its history and its disks.
///
/// Takes memory for the line, and none where there is no line. Time: that of the line.
pub fn conclude<D: Disk, K: Sink>(alloc: Global, stop: Stop<D>, out: &mut K) -> Outcome<D>
    // Of whatever was given, and whatever the outside has seen.
    ensures ends { (g : Given) (o : Outside)
        → HasStopped g (with_sink o (K.seen out.old)) D.seen stop
        → RunEnds g (with_sink o (K.seen out.new)) (end_of D.seen result) }
    // What is handed back.
    ensures disks { result.disks ≡ stop.disks }
    ensures swap { result.swap ≡ stop.swap }
{
    let Stop {
        ending,
        history,
        disks,
        swap,
    } = stop;
    let ending = tell_ending(alloc, ending, out);
    Outcome {
        status: ending.status(),
        fault: ending.into_fault(),
        history,
        disks,
        swap,
    }
}
