//! The arguments of calls that are not numbers.
ghost use Rattle.std.specs.Prelude.{◌≡◌, map as over};
ghost use Rattle.trace_text.specs.EntryReading as reading;
ghost use Rattle.trace_text.specs.WordsBehind.{object_behind};

use crate::numbers::{number_in, word_in};
use bitflags::Flags;
use vm_report::{Kind, Object, Place, Prot};

#[tactic(auto, unfolding(crate::specs::EntryReading::prot_in))]
pub fn prot_in(word: &[u8]) -> Option<Prot>
    ensures { result ≡ reading.prot_in word.now }
{
    if word == b"none".as_slice() {
        return Some(Prot::empty());
    }
    if word == b"r".as_slice() {
        return Some(Prot::READ);
    }
    if word == b"w".as_slice() {
        return Some(Prot::WRITE);
    }
    if word == b"rw".as_slice() {
        return Some(Prot::from_bits_retain(3));
    }
    None
}

#[tactic(auto, unfolding(crate::specs::EntryReading::kind_in))]
pub fn kind_in(word: &[u8]) -> Option<Kind>
    ensures { result ≡ reading.kind_in word.now }
{
    if word == b"shared".as_slice() {
        return Some(Kind::Shared);
    }
    if word == b"private".as_slice() {
        return Some(Kind::Private);
    }
    None
}

#[tactic(auto, unfolding(crate::specs::EntryReading::place_in))]
pub fn place_in(word: &[u8]) -> Option<Place>
    ensures { result ≡ reading.place_in word.now }
{
    if word == b"any".as_slice() {
        return Some(Place::Any);
    }
    Some(Place::At(word_in(word)?))
}

// An object with its number, an offset, and the words behind them.
#[tactic(auto, unfolding(crate::specs::EntryReading::numbered_object))]
fn numbered_object<'a>(
    word: &[u8],
    number: &[u8],
    words: &'a [&'a [u8]],
) -> Option<(Object, u32, &'a [&'a [u8]])>
    ensures { object_behind result
        ≡ reading.numbered_object word.now number.now (over (λ w. w.now) words.now) }
{
    let [offset, rest @ ..] = words else {
        return None;
    };
    let n = number_in(number)?;
    let offset = number_in(offset)?;
    if word == b"file".as_slice() {
        return Some((Object::File(n), offset, rest));
    }
    Some((Object::Zero(n), offset, rest))
}

/// An object and an offset, and the words behind them.
#[tactic(auto, unfolding(crate::specs::EntryReading::object_in))]
pub fn object_in<'a>(words: &'a [&'a [u8]]) -> Option<(Object, u32, &'a [&'a [u8]])>
    ensures { object_behind result
        ≡ reading.object_in (over (λ w. w.now) words.now) }
{
    let [word, next, rest @ ..] = words else {
        return None;
    };
    if *word == b"newzero".as_slice() {
        let offset = number_in(next)?;
        return Some((Object::NewZero, offset, rest));
    }
    numbered_object(word, next, rest)
}
