//! The numbers of a history that no flat memory knows are numbers of their types.
ghost use Rattle.std.specs.Prelude.{All};
ghost use Rattle.volume_files.specs.vm_types.WellFormed.{IsNumber};
ghost use Rattle.entry_list.specs.Rows.{entry_seen};
ghost use Rattle.trace_text.specs.EntryForm.{IsLongNumber};
ghost use Rattle.printed_traces.specs.Printed.{HasToldCounts};

use entry_list::EntryAt;
use volume_files::{Entries, Reply};

// A `u32` is below 2^32, and a `u64` below 2^64. What is behind a reference shows this only as it is read.
fn number_law(_number: u32)
    ensures { IsNumber _number }
{}

fn long_number_law(_number: u64)
    ensures { IsLongNumber _number }
{}

fn reply_law(reply: &Reply)
    ensures { HasToldCounts reply.now }
{
    match reply {
        Reply::Synced(from) => long_number_law(*from),
        Reply::Io {
            disk,
            before,
            after,
        } => {
            number_law(*disk);
            long_number_law(*before);
            long_number_law(*after);
        }
        _ => {}
    }
}

fn entry_law(entry: EntryAt<'_>)
    ensures { HasToldCounts (entry_seen entry.entry).reply }
{
    match entry {
        EntryAt::Load { .. } | EntryAt::Store { .. } | EntryAt::Read { .. } => {}
        EntryAt::Whole(entry) => reply_law(&entry.reply),
    }
}

/// Where the Syncs of a history began, and what its device errors name, are numbers of their types. It does nothing.
pub fn counts_law(history: &Entries)
    ensures { All (λ e. HasToldCounts e.reply) history.now }
{
    let mut left = history.all();
    while let Some((entry, rest)) = left.split_first() {
        entry_law(entry);
        left = rest;
    }
}
