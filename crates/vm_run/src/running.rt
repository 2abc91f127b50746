//! The top call.
ghost use Rattle.std.specs.Prelude.{◌≡◌, Ok, map, string_bytes};
ghost use Rattle.volume_files.specs.block_device.StreamSeen.{SourceSeen};
ghost use Rattle.volume_files.specs.joined_disk.JoinedSeen.{joined_seen};
ghost use Rattle.volume_files.specs.volume_disks.Singles.{single_seen};
ghost use Rattle.run_input.specs.Asked.{Given, WasAsked, given_of};
ghost use Rattle.run_outcome.specs.Stopped.{HasStopped};
ghost use Rattle.run_input.specs.Reading.{MayBeRun};
ghost use Rattle.run_outcome.specs.Ended.{end_of};
ghost use Rattle.run_outcome.specs.Members.{WasRun};
ghost use Rattle.run_outcome.specs.Run.{outside_of};

use crate::beginning::{Begun, begin_plan, finish_run};
use crate::threadless::{ReadScript, run_alone};
use command_line::Options;
use plan_runs::play_blocks;
use run_endings::Ending;
use run_outcome::{Outcome, Stop, bare_stop, conclude, hand_members, take_rooms};
use std::alloc::Global;
use std::sync::Wait;
use std::thread::Threads;
use trace_check::one_answer_law;
use volume_files::{JoinedDisk, Plan, Rack, Single, Sink, Source};

/// Runs a script: its disks are attached, its files placed, its processes run, its files closed, and its report written.
pub fn run<T: Threads + Wait + Sync, S: Source, K: Sink, R: Rack>(
    rt: &T,
    alloc: Global,
    words: &[String],
    script: &mut S,
    out: &mut K,
    rack: &mut R,
) -> Outcome<R::D>
    // THE HEADLINE.
    ensures { WasRun
        (given_of (map string_bytes words.now) (S.seen script.old) (R.seen rack.old))
        (outside_of (S.seen script.old) (S.seen script.new)
        (R.seen rack.old) (R.seen rack.new) (K.seen out.old) (K.seen out.new))
        (end_of R.D.seen result) }
{
    match run_alone(alloc, words, script, out, rack) {
        Ok(outcome) => outcome,
        Err(read) => run_on_threads(rt, alloc, read, out, rack),
    }
}

/// Runs a script that was read, each block on a thread of its own, and beside them so many turns of the pageout daemon as were
/// asked for.
pub fn run_on_threads<T: Threads + Wait + Sync, K: Sink, R: Rack>(
    rt: &T,
    alloc: Global,
    read: ReadScript,
    out: &mut K,
    rack: &mut R,
) -> Outcome<R::D>
    // Of whatever words and source it came, where the source counted no fault.
    ensures { (g : Given) (before after : SourceSeen) → g.holds ≡ (R.seen rack.old).holds
        → WasAsked g (Ok read) → after.faults ≡ before.faults
        → WasRun g (outside_of before after
        (R.seen rack.old) (R.seen rack.new) (K.seen out.old) (K.seen out.new))
        (end_of R.D.seen result) }
{
    one_answer_law();
    let ReadScript { options, plan } = read;
    match take_rooms(alloc, &plan) {
        Ok(rooms) => {
            let stop = run_blocks(rt, alloc, options, plan, out, rack);
            hand_members(conclude(alloc, stop, out), rooms)
        }
        Err(_) => conclude(alloc, bare_stop(alloc, Ending::Memory), out),
    }
}

// Runs the blocks of a plan on threads, up to the run's last line.
fn run_blocks<T: Threads + Wait + Sync, K: Sink, R: Rack>(
    rt: &T,
    alloc: Global,
    options: Options,
    plan: Plan,
    out: &mut K,
    rack: &mut R,
) -> Stop<JoinedDisk<Single<R::D>>>
    requires may { MayBeRun (record { options = options; plan = plan }) }
    ensures { (g : Given) (before after : SourceSeen) → g.holds ≡ (R.seen rack.old).holds
        → WasAsked g (Ok (record { options = options; plan = plan }))
        → after.faults ≡ before.faults
        → HasStopped g (outside_of before after
        (R.seen rack.old) (R.seen rack.new) (K.seen out.old) (K.seen out.new))
        (joined_seen (single_seen R.D.seen)) result }
{
    match begin_plan(alloc, options, plan, out, rack) {
        Ok(
            Begun {
                options,
                plan,
                state,
                rooms,
                back,
            },
        ) => {
            let turns = options.pageout;
            let (state, is_whole) = play_blocks(rt, alloc, state, &rooms, &plan, turns);
            finish_run(alloc, &options, &plan, state, is_whole, back, out)
        }
        Err(stop) => stop,
    }
}
