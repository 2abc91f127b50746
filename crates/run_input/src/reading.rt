//! What is asked is read.
ghost use Rattle.std.specs.Prelude.{List, Option, ℕ, None, ◌≡◌, ◌≤◌, IfErr, IfOk, IfSome, Ok, map, string_bytes};
ghost use Rattle.std.specs.List.{list_all};
ghost use Rattle.volume_files.specs.block_device.declared.rack.Spec.{Spec};
ghost use Rattle.volume_files.specs.vm_script.Plans.{plan_of};
ghost use Rattle.run_input.specs.Reading.{AskEnds, IsAnswer, IsSpelled, SaysScript, ScriptStops, SourceStops, TakesPlan, TextStops, UnlessUnread};
ghost use Rattle.run_input.specs.Alone as alone;

use crate::checking::check_source;
use command_line::{Inquiry, Options, Saying, read_words};
use run_endings::{Ending, TraceAnswer};
use std::alloc::Global;
use volume_files::{
    Call, MOST_BYTES, Plan, PlanAct, PlanLine, ReadFault, Refusal, Source, broken_rule, generate,
    parse, read_to_limit, sound_law,
};

/// What the words ask for, once the source was read: a run, or the answer to a trace; or what is asked about the program itself.
#[derive(Drop)]
pub enum Request {
    Run(Options, Plan),
    Check(TraceAnswer),
    Ask(Inquiry),
}

fn is_plain_act(act: &PlanAct) -> bool
    ensures { result ≡ alone.is_plain_act act.now }
{
    match act {
        PlanAct::Call(call) => !matches!(call.call(), Call::Fork { .. }),
        PlanAct::Wait => false,
        _ => true,
    }
}

fn are_plain(lines: &[PlanLine]) -> bool
    ensures { result ≡ list_all (λ l. alone.is_plain_act l.act) lines.now }
{
    lines.iter().all(|l| is_plain_act(&l.act))
}

// Whether the plan has one block at most, which neither forks nor waits. The time is that of the lines.
fn is_alone(plan: &Plan) -> bool
    ensures { result ≡ alone.is_alone plan.now }
{
    plan.parents().len() <= 1 && are_plain(plan.lines())
}

/// Whether a plan that was asked for needs no thread: it has one block at most, which neither forks nor waits, and no turn of the
/// pageout daemon is asked for. The time is that of the lines.
pub fn needs_no_thread(options: &Options, plan: &Plan) -> bool
    ensures { result ≡ alone.needs_no_thread
        (record { options = options.now; plan = plan.now }) }
{
    options.pageout == 0 && is_alone(plan)
}

// The bytes of the source, or a front of them that is too long for a script.
fn read_source<S: Source>(alloc: Global, script: &mut S) -> Result<Vec<u8>, Ending>
    ensures text { IfOk result (λ text. IfSome (S.seen script.old).rest
        (λ bytes. plan_of bytes ≡ plan_of text.items)) }
    ensures stops { IfErr result
        (SourceStops (S.seen script.old).faults (S.seen script.new).faults) }
    ensures later { (S.seen script.old).faults ≤ (S.seen script.new).faults }
    ensures steady { UnlessUnread result
        ((S.seen script.new).faults ≡ (S.seen script.old).faults) }
{
    match read_to_limit(alloc, script, MOST_BYTES + 1) {
        Ok(text) => Ok(text),
        Err(ReadFault::Failed) => Err(Ending::NotRead),
        Err(ReadFault::Memory) => Err(Ending::Memory),
    }
}

// The plan that a text spells.
fn spelled_plan(alloc: Global, text: &[u8]) -> Result<Plan, Ending>
    ensures plan { IfOk result (λ plan. plan_of text.now ≡ Ok plan) }
    ensures stops { IfErr result (TextStops text.now) }
{
    match parse(alloc, text) {
        Ok(Ok(plan)) => Ok(plan),
        Ok(Err(fault)) => Err(Ending::NoScript(fault)),
        Err(_) => Err(Ending::Memory),
    }
}

// The plan of the source.
fn source_plan<S: Source>(alloc: Global, script: &mut S) -> Result<Plan, Ending>
    ensures plan { IfOk result (λ plan. SaysScript None (S.seen script.old).rest (Ok plan)) }
    ensures spelled { IfOk result IsSpelled }
    ensures stops { IfErr result (ScriptStops None (S.seen script.old).rest
        (S.seen script.old).faults (S.seen script.new).faults) }
    ensures later { (S.seen script.old).faults ≤ (S.seen script.new).faults }
    ensures steady { UnlessUnread result
        ((S.seen script.new).faults ≡ (S.seen script.old).faults) }
{
    match read_source(alloc, script) {
        Ok(text) => spelled_plan(alloc, text.as_slice()),
        Err(how) => Err(how),
    }
}

// The plan of the generated script of a number, or of the source.
fn read_plan<S: Source>(alloc: Global, make: Option<u32>, script: &mut S) -> Result<Plan, Ending>
    ensures plan { IfOk result (λ plan. SaysScript make (S.seen script.old).rest (Ok plan)) }
    ensures spelled { IfOk result IsSpelled }
    ensures stops { IfErr result (ScriptStops make (S.seen script.old).rest
        (S.seen script.old).faults (S.seen script.new).faults) }
    ensures later { (S.seen script.old).faults ≤ (S.seen script.new).faults }
    ensures steady { UnlessUnread result
        ((S.seen script.new).faults ≡ (S.seen script.old).faults) }
{
    match make {
        Some(number) => match generate(alloc, number) {
            Ok(plan) => Ok(plan),
            Err(_) => Err(Ending::Memory),
        },
        None => source_plan(alloc, script),
    }
}

// A plan that can be run, as far as it alone tells.
fn take_plan(options: Options, plan: Plan) -> Result<Request, Ending>
    requires { IsSpelled plan }
    ensures { TakesPlan options plan result }
{
    match broken_rule(&plan) {
        Some(rule) => Err(Ending::Refused(Refusal::Rule(rule))),
        None => {
            sound_law();
            Ok(Request::Run(options, plan))
        }
    }
}

// The answer to the trace of the source.
fn ask_check<S: Source>(alloc: Global, script: &mut S) -> Result<Request, Ending>
    ensures answer { IfOk result (λ r. IsAnswer (S.seen script.old).rest r) }
    ensures stops { IfErr result
        (SourceStops (S.seen script.old).faults (S.seen script.new).faults) }
    ensures later { (S.seen script.old).faults ≤ (S.seen script.new).faults }
    ensures steady { UnlessUnread result
        ((S.seen script.new).faults ≡ (S.seen script.old).faults) }
{
    match check_source(alloc, script) {
        Ok(answer) => Ok(Request::Check(answer)),
        Err(how) => Err(how),
    }
}

/// Reads the words; and the trace where they ask for a check, which is answered; else the script, where they name no generated
/// one and ask nothing about the program itself. A plan that is read keeps the set-up rules that look at it alone.
///
/// Takes memory for the parse of the words, for the source's bytes, at most 1,048,577 of a script and 16,777,217 of a trace, and
/// for the plan or the check. Time: that of the words and of the source's bytes.
pub fn ask<S: Source>(alloc: Global, words: &[String], script: &mut S) -> Result<Request, Ending>
    ensures asks { (holds : Spec → Option (List (List ℕ))) → AskEnds
        (record { words = map string_bytes words.now; rest = (S.seen script.old).rest; holds = holds })
        (S.seen script.old).faults (S.seen script.new).faults result }
    ensures later { (S.seen script.old).faults ≤ (S.seen script.new).faults }
    ensures steady { UnlessUnread result
        ((S.seen script.new).faults ≡ (S.seen script.old).faults) }
{
    let options = match read_words(alloc, words) {
        Ok(Some(Saying::Options(options))) => options,
        Ok(Some(Saying::Inquiry(inquiry))) => return Ok(Request::Ask(inquiry)),
        Ok(None) => return Err(Ending::Usage),
        Err(_) => return Err(Ending::Memory),
    };
    if options.check {
        return ask_check(alloc, script);
    }
    match read_plan(alloc, options.make, script) {
        Ok(plan) => take_plan(options, plan),
        Err(how) => Err(how),
    }
}
