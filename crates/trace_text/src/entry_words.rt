//! The entry that a line's words tell.
ghost use Rattle.std.specs.Prelude.{◌≡◌, map as over, option_map};
ghost use Rattle.trace_text.specs.EntryReading as reading;

use crate::call_words::call_in;
use crate::numbers::{mask_in, number_in};
use crate::reply_words::reply_behind;
use vm_report::Entry;

/// The entry, read loosely.
#[tactic(auto, unfolding(crate::specs::EntryReading::entry_in))]
pub fn entry_in<'a>(words: &'a [&'a [u8]]) -> Option<Entry>
    ensures { result ≡ reading.entry_in (over (λ w. w.now) words.now) }
{
    let [process, mask, word, after @ ..] = words else {
        return None;
    };
    let process = number_in(process)?;
    let cleared = mask_in(mask)?;
    let Some((call, behind)) = call_in(word, after) else {
        return None;
    };
    let reply = reply_behind(&call, behind)?;
    Some(Entry {
        process,
        call,
        reply,
        cleared,
    })
}
