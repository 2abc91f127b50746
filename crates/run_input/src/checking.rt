//! A trace is read and checked in place of a script, and its verdict is told.
ghost use Rattle.std.specs.Prelude.{List, ℕ, ◌≡◌, ◌≤◌, IfErr, IfOk, string_bytes};
ghost use Rattle.run_endings.specs.Ending.{answer_text};
ghost use Rattle.run_input.specs.Reading.{SourceStops, UnlessUnread, untold_end};
ghost use Rattle.run_input.specs.TraceChecks.{AnswersSource, AnswersText, KeepsAnswers, TellsAnswer};
ghost use Rattle.run_endings.specs.declared.ending.Ending.TheVariants.{Memory};

use run_endings::{Ending, TraceAnswer, TraceEnd};
use std::alloc::{AllocError, Global};
use trace_check::{MOST_TRACE_BYTES, Verdict, check};
use volume_files::{ReadFault, Sink, Source, read_to_limit, write_all};

// What the text is, as a trace.
fn answer_to(alloc: Global, text: &[u8]) -> Result<TraceAnswer, AllocError>
    ensures { IfOk result (AnswersText text.now) }
{
    if text.len() > MOST_TRACE_BYTES {
        return Ok(TraceAnswer::Long);
    }
    match check(alloc, text)? {
        Ok(verdict) => Ok(TraceAnswer::Verdict(verdict)),
        Err(fault) => Ok(TraceAnswer::Fault(fault)),
    }
}

// The bytes of the source, or a front of them that is too long for a trace.
fn read_trace<S: Source>(alloc: Global, source: &mut S) -> Result<Vec<u8>, Ending>
    ensures text { IfOk result (λ text. KeepsAnswers (S.seen source.old).rest text.items) }
    ensures stops { IfErr result
        (SourceStops (S.seen source.old).faults (S.seen source.new).faults) }
    ensures later { (S.seen source.old).faults ≤ (S.seen source.new).faults }
    ensures steady { UnlessUnread result
        ((S.seen source.new).faults ≡ (S.seen source.old).faults) }
{
    match read_to_limit(alloc, source, MOST_TRACE_BYTES + 1) {
        Ok(text) => Ok(text),
        Err(ReadFault::Failed) => Err(Ending::NotRead),
        Err(ReadFault::Memory) => Err(Ending::Memory),
    }
}

/// What the source's bytes are, as a trace.
///
/// Takes memory for at most 16,777,217 bytes, and for the check. Time: that of the check.
pub fn check_source<S: Source>(alloc: Global, source: &mut S) -> Result<TraceAnswer, Ending>
    ensures answer { IfOk result (AnswersSource (S.seen source.old).rest) }
    ensures stops { IfErr result
        (SourceStops (S.seen source.old).faults (S.seen source.new).faults) }
    ensures later { (S.seen source.old).faults ≤ (S.seen source.new).faults }
    ensures steady { UnlessUnread result
        ((S.seen source.new).faults ≡ (S.seen source.old).faults) }
{
    let text = match read_trace(alloc, source) {
        Ok(text) => text,
        Err(how) => return Err(how),
    };
    match answer_to(alloc, text.as_slice()) {
        Ok(answer) => Ok(answer),
        Err(_) => Err(Ending::Memory),
    }
}

// The line of an answer.
fn answer_line(alloc: Global, answer: TraceAnswer) -> Result<String, AllocError>
    ensures { IfOk result (λ line. string_bytes line ≡ answer_text answer) }
{
    match answer {
        TraceAnswer::Verdict(Verdict::Legal(count)) => format!(in alloc; "trace: legal {count}\n"),
        TraceAnswer::Verdict(Verdict::First(at)) => format!(in alloc; "trace: entry {at}\n"),
        TraceAnswer::Fault(fault) => {
            let line = fault.line;
            format!(in alloc; "trace: line {line}\n")
        }
        TraceAnswer::Long => String::from_str(alloc, "trace: long\n"),
    }
}

// How a check ends whose line the sink didn't take whole.
fn untold_end(answer: TraceAnswer) -> TraceEnd
    ensures { result ≡ untold_end answer }
{
    match answer {
        TraceAnswer::Verdict(_) => TraceEnd::Sink,
        TraceAnswer::Fault(_) | TraceAnswer::Long => TraceEnd::Told(answer),
    }
}

/// Tells an answer. Where the sink fails in a verdict, that is how the run ends; the line of a fault is written as far as the
/// sink takes it.
///
/// Takes memory for the line.
pub fn tell_answer<K: Sink>(alloc: Global, answer: TraceAnswer, out: &mut K) -> Ending
    ensures told { TellsAnswer answer (K.seen out.old) (K.seen out.new) result }
    ensures lacks { result ≡ Memory → (K.seen out.new).faults ≡ (K.seen out.old).faults }
    ensures later { (K.seen out.old).faults ≤ (K.seen out.new).faults }
{
    let Ok(line) = answer_line(alloc, answer) else {
        return Ending::Memory;
    };
    match write_all(out, line.as_bytes()) {
        Ok(()) => Ending::Checked(TraceEnd::Told(answer)),
        Err(_) => Ending::Checked(untold_end(answer)),
    }
}
