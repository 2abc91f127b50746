//! A run without threads.
ghost use Rattle.std.specs.Prelude.{◌≡◌, IfErr, IfOk, Ok, false, true, map, string_bytes};
ghost use Rattle.volume_files.specs.block_device.StreamSeen.{SourceSeen};
ghost use Rattle.volume_files.specs.joined_disk.JoinedSeen.{joined_seen};
ghost use Rattle.volume_files.specs.volume_disks.Singles.{single_seen};
ghost use Rattle.run_input.specs.Alone as alone;
ghost use Rattle.run_input.specs.Asked.{Given, WasAsked, given_of};
ghost use Rattle.run_outcome.specs.Stopped.{HasStopped};
ghost use Rattle.run_input.specs.Reading.{MayBeRun};
ghost use Rattle.run_outcome.specs.Ended.{end_of};
ghost use Rattle.run_outcome.specs.Members.{WasRun};
ghost use Rattle.run_outcome.specs.Run.{outside_of};

use crate::beginning::{Begun, begin_plan, finish_run};
use command_line::Options;
use plan_runs::play_alone;
use run_endings::Ending;
use run_input::{Request, ask, needs_no_thread, tell_answer, tell_inquiry};
use run_outcome::{Outcome, Stop, bare_stop, conclude, hand_members, take_rooms};
use std::alloc::Global;
use std::marker::Model;
use trace_check::one_answer_law;
use volume_files::{JoinedDisk, Plan, Rack, Single, Sink, Source};

/// A script that was read, with what the words say. Contracts see what was asked.
#[derive(Drop)]
pub struct ReadScript {
    pub(crate) options: Options,
    pub(crate) plan: Plan,
}

impl Model for ReadScript {
    ghost use Rattle.run_input.specs.Asked.{Asked};
    ghost use Rattle.run_input.specs.Reading.{MayBeRun};

    ghost Value = { Asked };

    ghost view = { λ r. record { options = r.options; plan = r.plan } };

    ghost invariant = { λ r. MayBeRun (record { options = r.options; plan = r.plan }) };
}

// Runs a plan of one block in the thread that calls, up to the run's last line.
fn run_block<K: Sink, R: Rack>(
    alloc: Global,
    options: Options,
    plan: Plan,
    out: &mut K,
    rack: &mut R,
) -> Stop<JoinedDisk<Single<R::D>>>
    requires may { MayBeRun (record { options = options; plan = plan }) }
    requires alone { alone.is_alone plan ≡ true }
    ensures { (g : Given) (before after : SourceSeen) → g.holds ≡ (R.seen rack.old).holds
        → WasAsked g (Ok (record { options = options; plan = plan }))
        → after.faults ≡ before.faults
        → HasStopped g (outside_of before after
        (R.seen rack.old) (R.seen rack.new) (K.seen out.old) (K.seen out.new))
        (joined_seen (single_seen R.D.seen)) result }
{
    match begin_plan(alloc, options, plan, out, rack) {
        Ok(
            Begun {
                options,
                plan,
                state,
                rooms: _,
                back,
            },
        ) => {
            let (state, is_whole) = play_alone(state, &plan);
            finish_run(alloc, &options, &plan, state, is_whole, back, out)
        }
        Err(stop) => stop,
    }
}

// Runs a plan of one block, and hands back the disks.
fn run_whole<K: Sink, R: Rack>(
    alloc: Global,
    options: Options,
    plan: Plan,
    out: &mut K,
    rack: &mut R,
) -> Outcome<R::D>
    requires may { MayBeRun (record { options = options; plan = plan }) }
    requires alone { alone.is_alone plan ≡ true }
    ensures { (g : Given) (before after : SourceSeen) → g.holds ≡ (R.seen rack.old).holds
        → WasAsked g (Ok (record { options = options; plan = plan }))
        → after.faults ≡ before.faults
        → WasRun g (outside_of before after
        (R.seen rack.old) (R.seen rack.new) (K.seen out.old) (K.seen out.new))
        (end_of R.D.seen result) }
{
    one_answer_law();
    match take_rooms(alloc, &plan) {
        Ok(rooms) => {
            let stop = run_block(alloc, options, plan, out, rack);
            hand_members(conclude(alloc, stop, out), rooms)
        }
        Err(_) => conclude(alloc, bare_stop(alloc, Ending::Memory), out),
    }
}

/// Runs a script without threads: all of a run, as `run` makes it, where it needs none. It waits for nobody, and ends.
///
/// A script needs no thread where it has one block at most, which neither forks nor waits, and no turn of the pageout daemon is
/// asked for; and where nothing is run, as the words or the script are refused, a trace is checked, or the program tells of itself. Any
/// other script is handed back once it was read, for `run_on_threads`.
pub fn run_alone<S: Source, K: Sink, R: Rack>(
    alloc: Global,
    words: &[String],
    script: &mut S,
    out: &mut K,
    rack: &mut R,
) -> Result<Outcome<R::D>, ReadScript>
    // The run, of which the same is said as of `run`.
    ensures ends { IfOk result (λ outcome. WasRun
        (given_of (map string_bytes words.now) (S.seen script.old) (R.seen rack.old))
        (outside_of (S.seen script.old) (S.seen script.new)
        (R.seen rack.old) (R.seen rack.new) (K.seen out.old) (K.seen out.new))
        (end_of R.D.seen outcome)) }

    // A script that was asked for and needs threads. It was read, and nothing else was done.
    ensures asked { IfErr result (λ read. WasAsked
        (given_of (map string_bytes words.now) (S.seen script.old) (R.seen rack.old))
        (Ok read)) }
    ensures threads { IfErr result (λ read. alone.needs_no_thread read ≡ false) }
    ensures source { IfErr result (λ _.
        (S.seen script.new).faults ≡ (S.seen script.old).faults) }
    ensures sink { IfErr result (λ _. K.seen out.new ≡ K.seen out.old) }
    ensures rack { IfErr result (λ _. R.seen rack.new ≡ R.seen rack.old) }
{
    one_answer_law();
    match ask(alloc, words, script) {
        Ok(Request::Run(options, plan)) => {
            if needs_no_thread(&options, &plan) {
                Ok(run_whole(alloc, options, plan, out, rack))
            } else {
                Err(ReadScript { options, plan })
            }
        }
        Ok(Request::Check(answer)) => {
            let ending = tell_answer(alloc, answer, out);
            Ok(conclude(alloc, bare_stop(alloc, ending), out))
        }
        Ok(Request::Ask(inquiry)) => {
            let ending = tell_inquiry(inquiry, out);
            Ok(conclude(alloc, bare_stop(alloc, ending), out))
        }
        Err(ending) => Ok(conclude(alloc, bare_stop(alloc, ending), out)),
    }
}
