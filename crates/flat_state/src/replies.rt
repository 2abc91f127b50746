//! Which reply is due.
ghost use Rattle.std.specs.Prelude.{◌≡◌, ◌≤◌, ◌*◌, ◌↔◌, IsTrue, length};
ghost use Rattle.flat_model.specs.vm_types.declared.call.Reply.TheVariants as answer;
ghost use Rattle.flat_model.specs.vm_types.Words.{IsWordSize, word_value};
ghost use Rattle.flat_model.specs.Words.{word_at};
ghost use Rattle.flat_state.specs.FlatState.{IsDueReply};

use flat_model::{Errno, Line, Reply, Signal};

// The value of at most 4 bytes, the highest first.
fn word_value(bytes: &[u8]) -> u32
    requires { length bytes.now ≤ 4 }
    ensures { result ≡ word_value bytes.now }
{
    match *bytes {
        [] => 0,
        [a] => a as u32,
        [a, b] => u32::from_be_bytes([0, 0, a, b]),
        [a, b, c] => u32::from_be_bytes([0, a, b, c]),
        [a, b, c, d] => u32::from_be_bytes([a, b, c, d]),
        // There are at most 4 bytes.
        _ => unreachable!(),
    }
}

/// The word of 1, 2 or 4 bytes at an address, of the bytes that there are.
pub(crate) fn word_at(page: &[u8], addr: u32, size: u32) -> u32
    requires { IsWordSize size }
    ensures { result ≡ word_at page.now addr size }
{
    let at = ((addr % 4096) as usize).min(page.len());
    let rest = &page[at..];
    word_value(&rest[..(size as usize).min(rest.len())])
}

fn is_done(reply: &Reply) -> bool
    ensures { IsTrue result ↔ (reply.now ≡ answer.Done) }
{
    match *reply {
        Reply::Done => true,
        Reply::Word(_)
        | Reply::Mapped(_)
        | Reply::Bytes(_)
        | Reply::Synced(_)
        | Reply::Signal(_)
        | Reply::Refused(_)
        | Reply::Io { .. } => false,
    }
}

fn is_word(reply: &Reply, word: u32) -> bool
    ensures { IsTrue result ↔ (reply.now ≡ answer.Word word) }
{
    match *reply {
        Reply::Word(other) => other == word,
        Reply::Done
        | Reply::Mapped(_)
        | Reply::Bytes(_)
        | Reply::Synced(_)
        | Reply::Signal(_)
        | Reply::Refused(_)
        | Reply::Io { .. } => false,
    }
}

fn is_mapped(reply: &Reply, addr: u32) -> bool
    ensures { IsTrue result ↔ (reply.now ≡ answer.Mapped addr) }
{
    match *reply {
        Reply::Mapped(other) => other == addr,
        Reply::Done
        | Reply::Word(_)
        | Reply::Bytes(_)
        | Reply::Synced(_)
        | Reply::Signal(_)
        | Reply::Refused(_)
        | Reply::Io { .. } => false,
    }
}

fn is_bytes(reply: &Reply, line: &Line) -> bool
    ensures { IsTrue result ↔ (reply.now ≡ answer.Bytes line.now) }
{
    match reply {
        Reply::Bytes(other) => other.bytes() == line.bytes(),
        Reply::Done
        | Reply::Word(_)
        | Reply::Mapped(_)
        | Reply::Synced(_)
        | Reply::Signal(_)
        | Reply::Refused(_)
        | Reply::Io { .. } => false,
    }
}

fn is_synced(reply: &Reply) -> bool
    ensures { IsTrue result ↔ (reply.now ≡ answer.Synced 0) }
{
    match *reply {
        Reply::Synced(from) => from == 0,
        Reply::Done
        | Reply::Word(_)
        | Reply::Mapped(_)
        | Reply::Bytes(_)
        | Reply::Signal(_)
        | Reply::Refused(_)
        | Reply::Io { .. } => false,
    }
}

fn is_signal(reply: &Reply, signal: Signal) -> bool
    ensures { IsTrue result ↔ (reply.now ≡ answer.Signal signal) }
{
    match *reply {
        Reply::Signal(other) => other == signal,
        Reply::Done
        | Reply::Word(_)
        | Reply::Mapped(_)
        | Reply::Bytes(_)
        | Reply::Synced(_)
        | Reply::Refused(_)
        | Reply::Io { .. } => false,
    }
}

fn is_refused(reply: &Reply, errno: Errno) -> bool
    ensures { IsTrue result ↔ (reply.now ≡ answer.Refused errno) }
{
    match *reply {
        Reply::Refused(other) => other == errno,
        Reply::Done
        | Reply::Word(_)
        | Reply::Mapped(_)
        | Reply::Bytes(_)
        | Reply::Synced(_)
        | Reply::Signal(_)
        | Reply::Io { .. } => false,
    }
}

/// Whether a reply is the one that is due, or says that a transfer failed where one may have.
pub(crate) fn is_due(reply: &Reply, may_fail: bool, due: &Reply) -> bool
    ensures { IsTrue result ↔ IsDueReply reply.now (IsTrue may_fail) due.now }
{
    match reply {
        Reply::Io { .. } => may_fail,
        Reply::Done => is_done(due),
        Reply::Word(word) => is_word(due, *word),
        Reply::Mapped(addr) => is_mapped(due, *addr),
        Reply::Bytes(line) => is_bytes(due, line),
        Reply::Synced(_) => is_synced(due),
        Reply::Signal(signal) => is_signal(due, *signal),
        Reply::Refused(errno) => is_refused(due, *errno),
    }
}

/// Whether a reply is the one that is due to a Map whose mapping begins at this page.
pub(crate) fn is_due_mapping(reply: &Reply, first: u32) -> bool
    ensures { IsTrue result ↔ IsDueReply reply.now ⊥ (answer.Mapped (4096 * first)) }
{
    match *reply {
        Reply::Mapped(addr) => addr as u64 == 4096 * first as u64,
        Reply::Done
        | Reply::Word(_)
        | Reply::Bytes(_)
        | Reply::Synced(_)
        | Reply::Signal(_)
        | Reply::Refused(_)
        | Reply::Io { .. } => false,
    }
}
