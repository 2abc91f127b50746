//! Replies by their words.
ghost use Rattle.std.specs.Prelude.{◌≡◌, map as over, option_map};
ghost use Rattle.trace_text.specs.EntryReading as reading;

use crate::numbers::{bytes_in, long_number_in, number_in, word_in};
use vm_report::{Call, Errno, Line, Reply, Signal};

// The word of a load, or the address of a mapping.
#[tactic(auto, unfolding(crate::specs::EntryReading::value_of_word))]
fn value_of_word(call: &Call, word: &[u8]) -> Option<Reply>
    ensures { result ≡ reading.value_of_word call.now word.now }
{
    let value = word_in(word)?;
    match call {
        Call::Load { .. } => Some(Reply::Word(value)),
        _ => Some(Reply::Mapped(value)),
    }
}

#[tactic(auto, unfolding(crate::specs::EntryReading::one_word_reply))]
fn one_word_reply(call: &Call, word: &[u8]) -> Option<Reply>
    ensures { result ≡ reading.one_word_reply call.now word.now }
{
    if word == b"ok".as_slice() {
        return Some(Reply::Done);
    }
    value_of_word(call, word)
}

#[tactic(auto, unfolding(crate::specs::EntryReading::signal_of_word))]
fn signal_of_word(word: &[u8]) -> Option<Reply>
    ensures { result ≡ reading.signal_of_word word.now }
{
    if word == b"nomap".as_slice() {
        return Some(Reply::Signal(Signal::NoMap));
    }
    if word == b"prot".as_slice() {
        return Some(Reply::Signal(Signal::Prot));
    }
    if word == b"align".as_slice() {
        return Some(Reply::Signal(Signal::Align));
    }
    if word == b"past".as_slice() {
        return Some(Reply::Signal(Signal::Past));
    }
    None
}

#[tactic(auto, unfolding(crate::specs::EntryReading::two_word_reply))]
fn two_word_reply(word: &[u8], next: &[u8]) -> Option<Reply>
    ensures { result ≡ reading.two_word_reply word.now next.now }
{
    if word == b"ok".as_slice() {
        let from = long_number_in(next)?;
        return Some(Reply::Synced(from));
    }
    if word == b"bytes".as_slice() {
        return Some(Reply::Bytes(Line::new(&[])));
    }
    signal_of_word(next)
}

#[tactic(auto, unfolding(crate::specs::EntryReading::errno_in))]
fn errno_in(word: &[u8]) -> Option<Errno>
    ensures { result ≡ reading.errno_in word.now }
{
    if word == b"Invalid".as_slice() {
        return Some(Errno::Invalid);
    }
    if word == b"Access".as_slice() {
        return Some(Errno::Access);
    }
    if word == b"NoSwap".as_slice() {
        return Some(Errno::NoSwap);
    }
    if word == b"NoRoom".as_slice() {
        return Some(Errno::NoRoom);
    }
    if word == b"TooLarge".as_slice() {
        return Some(Errno::TooLarge);
    }
    if word == b"NotMapped".as_slice() {
        return Some(Errno::NotMapped);
    }
    if word == b"ReadOnly".as_slice() {
        return Some(Errno::ReadOnly);
    }
    if word == b"TooBig".as_slice() {
        return Some(Errno::TooBig);
    }
    if word == b"NoObject".as_slice() {
        return Some(Errno::NoObject);
    }
    None
}

#[tactic(auto, unfolding(crate::specs::EntryReading::three_word_reply))]
fn three_word_reply(word: &[u8], last: &[u8]) -> Option<Reply>
    ensures { result ≡ reading.three_word_reply word.now last.now }
{
    if word == b"bytes".as_slice() {
        let bytes = bytes_in(last)?;
        return Some(Reply::Bytes(bytes));
    }
    let errno = errno_in(last)?;
    Some(Reply::Refused(errno))
}

#[tactic(auto, unfolding(crate::specs::EntryReading::io_in))]
fn io_in(disk: &[u8], before: &[u8], after: &[u8]) -> Option<Reply>
    ensures { result ≡ reading.io_in disk.now before.now after.now }
{
    let disk = number_in(disk)?;
    let before = long_number_in(before)?;
    let after = long_number_in(after)?;
    Some(Reply::Io {
        disk,
        before,
        after,
    })
}

#[tactic(auto, unfolding(crate::specs::EntryReading::reply_in))]
fn reply_in(call: &Call, words: &[&[u8]]) -> Option<Reply>
    ensures { result ≡ reading.reply_in call.now (over (λ w. w.now) words.now) }
{
    match words {
        [word] => one_word_reply(call, word),
        [word, next] => two_word_reply(word, next),
        [word, _, last] => three_word_reply(word, last),
        [_, _, disk, before, after] => io_in(disk, before, after),
        _ => None,
    }
}

/// The reply to a call, behind a sign of equality.
#[tactic(auto, unfolding(crate::specs::EntryReading::reply_behind))]
pub fn reply_behind(call: &Call, words: &[&[u8]]) -> Option<Reply>
    ensures { result ≡ reading.reply_behind call.now (over (λ w. w.now) words.now) }
{
    let [_, rest @ ..] = words else {
        return None;
    };
    reply_in(call, rest)
}
