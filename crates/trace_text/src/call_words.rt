//! Calls by their words, each with the words that follow its own.
ghost use Rattle.std.specs.Prelude.{◌≡◌, map as over};
ghost use Rattle.trace_text.specs.EntryReading as reading;
ghost use Rattle.trace_text.specs.WordsBehind.{words_behind};

use crate::argument_words::{kind_in, object_in, place_in, prot_in};
use crate::numbers::{bytes_in, number_in, word_in};
use vm_report::Call;

#[tactic(auto, unfolding(crate::specs::EntryReading::load_in))]
fn load_in<'a>(words: &'a [&'a [u8]]) -> Option<(Call, &'a [&'a [u8]])>
    ensures { words_behind result ≡ reading.load_in (over (λ w. w.now) words.now) }
{
    let [addr, size, after @ ..] = words else {
        return None;
    };
    let addr = word_in(addr)?;
    let size = number_in(size)?;
    Some((Call::Load { addr, size }, after))
}

#[tactic(auto, unfolding(crate::specs::EntryReading::store_in))]
fn store_in<'a>(words: &'a [&'a [u8]]) -> Option<(Call, &'a [&'a [u8]])>
    ensures { words_behind result ≡ reading.store_in (over (λ w. w.now) words.now) }
{
    let [addr, size, value, after @ ..] = words else {
        return None;
    };
    let addr = word_in(addr)?;
    let size = number_in(size)?;
    let value = word_in(value)?;
    Some((Call::Store { addr, size, value }, after))
}

#[tactic(auto, unfolding(crate::specs::EntryReading::unmap_in))]
fn unmap_in<'a>(words: &'a [&'a [u8]]) -> Option<(Call, &'a [&'a [u8]])>
    ensures { words_behind result ≡ reading.unmap_in (over (λ w. w.now) words.now) }
{
    let [addr, length, after @ ..] = words else {
        return None;
    };
    let addr = word_in(addr)?;
    let length = number_in(length)?;
    Some((Call::Unmap { addr, length }, after))
}

#[tactic(auto, unfolding(crate::specs::EntryReading::sync_in))]
fn sync_in<'a>(words: &'a [&'a [u8]]) -> Option<(Call, &'a [&'a [u8]])>
    ensures { words_behind result ≡ reading.sync_in (over (λ w. w.now) words.now) }
{
    let [addr, length, after @ ..] = words else {
        return None;
    };
    let addr = word_in(addr)?;
    let length = number_in(length)?;
    Some((Call::Sync { addr, length }, after))
}

#[tactic(auto, unfolding(crate::specs::EntryReading::protect_in))]
fn protect_in<'a>(words: &'a [&'a [u8]]) -> Option<(Call, &'a [&'a [u8]])>
    ensures { words_behind result ≡ reading.protect_in (over (λ w. w.now) words.now) }
{
    let [addr, length, prot, after @ ..] = words else {
        return None;
    };
    let addr = word_in(addr)?;
    let length = number_in(length)?;
    let prot = prot_in(prot)?;
    Some((Call::Protect { addr, length, prot }, after))
}

#[tactic(auto, unfolding(crate::specs::EntryReading::read_in))]
fn read_in<'a>(words: &'a [&'a [u8]]) -> Option<(Call, &'a [&'a [u8]])>
    ensures { words_behind result ≡ reading.read_in (over (λ w. w.now) words.now) }
{
    let [file, offset, length, after @ ..] = words else {
        return None;
    };
    let file = number_in(file)?;
    let offset = number_in(offset)?;
    let length = number_in(length)?;
    let call = Call::Read {
        file,
        offset,
        length,
    };
    Some((call, after))
}

#[tactic(auto, unfolding(crate::specs::EntryReading::write_in))]
fn write_in<'a>(words: &'a [&'a [u8]]) -> Option<(Call, &'a [&'a [u8]])>
    ensures { words_behind result ≡ reading.write_in (over (λ w. w.now) words.now) }
{
    let [file, offset, bytes, w_rest, after @ ..] = words else {
        return None;
    };
    let file = number_in(file)?;
    let offset = number_in(offset)?;
    let bytes = bytes_in(bytes)?;
    let rest = number_in(w_rest)?;
    let call = Call::Write {
        file,
        offset,
        bytes,
        rest,
    };
    Some((call, after))
}

#[tactic(auto, unfolding(crate::specs::EntryReading::truncate_in))]
fn truncate_in<'a>(words: &'a [&'a [u8]]) -> Option<(Call, &'a [&'a [u8]])>
    ensures { words_behind result ≡ reading.truncate_in (over (λ w. w.now) words.now) }
{
    let [file, length, after @ ..] = words else {
        return None;
    };
    let file = number_in(file)?;
    let length = number_in(length)?;
    Some((Call::Truncate { file, length }, after))
}

#[tactic(auto, unfolding(crate::specs::EntryReading::fork_in))]
fn fork_in<'a>(words: &'a [&'a [u8]]) -> Option<(Call, &'a [&'a [u8]])>
    ensures { words_behind result ≡ reading.fork_in (over (λ w. w.now) words.now) }
{
    let [child, after @ ..] = words else {
        return None;
    };
    let child = number_in(child)?;
    Some((Call::Fork { child }, after))
}

#[tactic(auto, unfolding(crate::specs::EntryReading::map_in))]
fn map_in<'a>(words: &'a [&'a [u8]]) -> Option<(Call, &'a [&'a [u8]])>
    ensures { words_behind result ≡ reading.map_in (over (λ w. w.now) words.now) }
{
    let [place, length, prot, kind, object @ ..] = words else {
        return None;
    };
    let place = place_in(place)?;
    let length = number_in(length)?;
    let prot = prot_in(prot)?;
    let kind = kind_in(kind)?;
    let (object, offset, after) = object_in(object)?;
    let call = Call::Map {
        place,
        length,
        prot,
        kind,
        object,
        offset,
    };
    Some((call, after))
}

#[tactic(auto, unfolding(crate::specs::EntryReading::later_call_in))]
fn later_call_in<'a>(word: &[u8], words: &'a [&'a [u8]]) -> Option<(Call, &'a [&'a [u8]])>
    ensures { words_behind result ≡ reading.later_call_in word.now (over (λ w. w.now) words.now) }
{
    if word == b"protect".as_slice() {
        return protect_in(words);
    }
    if word == b"sync".as_slice() {
        return sync_in(words);
    }
    if word == b"truncate".as_slice() {
        return truncate_in(words);
    }
    if word == b"fork".as_slice() {
        return fork_in(words);
    }
    if word == b"exit".as_slice() {
        return Some((Call::Exit, words));
    }
    None
}

/// The call of this word and the words behind it, and what follows its own.
#[tactic(auto, unfolding(crate::specs::EntryReading::call_in))]
pub fn call_in<'a>(word: &[u8], words: &'a [&'a [u8]]) -> Option<(Call, &'a [&'a [u8]])>
    ensures { words_behind result ≡ reading.call_in word.now (over (λ w. w.now) words.now) }
{
    if word == b"load".as_slice() {
        return load_in(words);
    }
    if word == b"store".as_slice() {
        return store_in(words);
    }
    if word == b"map".as_slice() {
        return map_in(words);
    }
    if word == b"unmap".as_slice() {
        return unmap_in(words);
    }
    if word == b"read".as_slice() {
        return read_in(words);
    }
    if word == b"write".as_slice() {
        return write_in(words);
    }
    later_call_in(word, words)
}
