//! The summary of a generated script's history.
ghost use Rattle.std.specs.Prelude.{◌≡◌, ◌++◌, ◌<◌, ◌^◌, ◌+◌, ◌%◌, codes, decimal, count_by, sum_by, OnOk};
ghost use Rattle.entry_list.specs.Rows.{entry_seen};
ghost use Rattle.vm_report.specs.Summary as summaries;

use crate::text::{end_line, push_decimal, push_number, push_text};
use entry_list::{Entries, EntryAt};
use std::alloc::AllocError;
use vm_script::Reply;

fn is_signal(reply: &Reply) -> bool
    ensures { result ≡ summaries.is_signal reply.now }
{
    matches!(reply, Reply::Signal(_) | Reply::Io { .. })
}

fn is_refusal(reply: &Reply) -> bool
    ensures { result ≡ summaries.is_refusal reply.now }
{
    matches!(reply, Reply::Refused(_))
}

fn word_of(reply: &Reply) -> u32
    ensures { result ≡ summaries.word_of reply.now }
{
    match reply {
        Reply::Word(word) => *word,
        _ => 0,
    }
}

fn is_signal_at(entry: EntryAt<'_>) -> bool
    ensures { result ≡ summaries.is_signal (entry_seen entry.entry).reply }
{
    match entry {
        EntryAt::Whole(entry) => is_signal(&entry.reply),
        EntryAt::Load { .. } | EntryAt::Store { .. } | EntryAt::Read { .. } => false,
    }
}

fn is_refusal_at(entry: EntryAt<'_>) -> bool
    ensures { result ≡ summaries.is_refusal (entry_seen entry.entry).reply }
{
    match entry {
        EntryAt::Whole(entry) => is_refusal(&entry.reply),
        EntryAt::Load { .. } | EntryAt::Store { .. } | EntryAt::Read { .. } => false,
    }
}

fn word_at(entry: EntryAt<'_>) -> u32
    ensures { result ≡ summaries.word_of (entry_seen entry.entry).reply }
{
    match entry {
        EntryAt::Load { word, .. } => word,
        EntryAt::Store { .. } | EntryAt::Read { .. } => 0,
        EntryAt::Whole(entry) => word_of(&entry.reply),
    }
}

fn signals(history: &Entries) -> usize
    ensures { result ≡ count_by (λ e. summaries.is_signal e.reply) history.now }
{
    let mut count = 0;
    for place in 0..history.len() {
        if is_signal_at(history.at(place)) {
            count += 1;
        }
    }
    count
}

fn refusals(history: &Entries) -> usize
    ensures { result ≡ count_by (λ e. summaries.is_refusal e.reply) history.now }
{
    let mut count = 0;
    for place in 0..history.len() {
        if is_refusal_at(history.at(place)) {
            count += 1;
        }
    }
    count
}

// The sum of all words, modulo 2^32.
fn sum_of_words(history: &Entries) -> u32
    ensures { result ≡ sum_by (λ e. summaries.word_of e.reply) history.now % 2 ^ 32 }
{
    let mut sum = 0u32;
    let mut left = history.all();
    while let Some((entry, rest)) = left.split_first() {
        sum = sum.wrapping_add(word_at(entry));
        left = rest;
    }
    sum
}

// Adds how many signals and refusals there are.
fn push_counts(out: &mut Vec<u8>, history: &Entries) -> Result<(), AllocError>
    ensures { OnOk result (out.new.items ≡ out.old.items
        ++ codes " signals " ++ decimal (count_by (λ e. summaries.is_signal e.reply) history.now)
        ++ codes " refusals "
        ++ decimal (count_by (λ e. summaries.is_refusal e.reply) history.now)) }
{
    push_text(out, b" signals ")?;
    push_decimal(out, signals(history) as u64)?;
    push_text(out, b" refusals ")?;
    push_decimal(out, refusals(history) as u64)
}

/// Adds the summary of the history of the generated script of this number.
pub fn summary(number: u32, history: &Entries, out: &mut Vec<u8>) -> Result<(), AllocError>
    ensures new { OnOk result
        (out.new.items ≡ out.old.items ++ summaries.summary number history.now) }
{
    push_text(out, b"make ")?;
    push_number(out, number)?;
    push_text(out, b" entries ")?;
    push_decimal(out, history.len() as u64)?;
    push_counts(out, history)?;
    push_text(out, b" sum ")?;
    push_number(out, sum_of_words(history))?;
    end_line(out)
}
