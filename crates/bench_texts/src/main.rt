//! Times what is read and written as text: scripts, reports and traces; and the steps of flat
//! memory by which traces are checked. The instructions or the time of a run tell what they cost.
//!
//! Arguments: measures, at most three, each by its name and behind it its words.
//! - `flat`, how many stores and loads, half of them each, and how many pages the file has: steps
//!   flat memory over them. Prints whether the mapping is a step, and how many of them are: all.
//! - `scripts`: reads the script on standard input, and prints the report of a history that answers
//!   each of its lines at once. With `read` behind it, it prints the number of the plan's lines
//!   alone, and with `answer` the number of the history's entries.
//! - `traces`: checks the trace on standard input, and prints what it is. With `read` behind it, it
//!   reads the lines alone, and with `step` it makes each entry a step of flat memory too; then it
//!   prints how many entries there are.
#![tactic(auto)]

mod flat;
mod numbers;
mod scripts;
mod traces;

use flat::step_each;
use scripts::{history_of, report_of};
use std::io::{Read, Write};
use std::{env, io};
use trace_check::{MOST_TRACE_BYTES, Verdict, check};
use traces::entries_of;
use vm_report::parse;

/// The most measures of one run.
const MOST_MEASURES: u32 = 3;

fn is_word(word: &Option<String>, text: &str) -> bool {
    match word {
        Some(word) => word.as_str() == text,
        None => false,
    }
}

fn input(rt: &HostRuntime) -> io::Result<Vec<u8>> {
    let mut text = Vec::new(rt.alloc());
    rt.reader().read_to_end(&mut text)?;
    Ok(text)
}

fn take_script(rt: &HostRuntime, word: &Option<String>) -> io::Result<()> {
    let text = input(rt)?;
    let plan = match parse(rt.alloc(), &text)? {
        Ok(plan) => plan,
        Err(fault) => return println!(rt; "script: line {}", fault.line),
    };
    if is_word(word, "read") {
        return println!(rt; "{}", plan.lines().len());
    }
    let history = history_of(rt.alloc(), &plan)?;
    if is_word(word, "answer") {
        return println!(rt; "{}", history.len());
    }
    let out = report_of(rt.alloc(), &plan, &history)?;
    io::writer(rt).write_all(&out)
}

fn take_trace(rt: &HostRuntime, word: &Option<String>) -> io::Result<()> {
    let text = input(rt)?;
    if text.len() > MOST_TRACE_BYTES {
        return println!(rt; "trace: long");
    }
    let steps = is_word(word, "step");
    if steps || is_word(word, "read") {
        return println!(rt; "{}", entries_of(rt.alloc(), &text, steps)?);
    }
    match check(rt.alloc(), &text)? {
        Ok(Verdict::Legal(count)) => println!(rt; "trace: legal {count}"),
        Ok(Verdict::First(at)) => println!(rt; "trace: entry {at}"),
        Err(fault) => println!(rt; "trace: line {}", fault.line),
    }
}

fn main(rt: HostRuntime) -> io::Result<()> {
    let mut words = env::args(&rt)?;
    words.next();
    for _ in 0..MOST_MEASURES {
        let Some(word) = words.next() else {
            return Ok(());
        };
        match word.as_str() {
            "flat" => {
                let (mapped, steps) = step_each(rt.alloc(), &mut words)?;
                println!(rt; "{mapped} {steps}")?;
            }
            "scripts" => take_script(&rt, &words.next())?,
            "traces" => take_trace(&rt, &words.next())?,
            _ => return println!(rt; "there is no such measure"),
        }
    }
    Ok(())
}
