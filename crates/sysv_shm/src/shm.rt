//! Segments under keys, by a maker.
ghost use Rattle.std.specs.Prelude.{◌≡◌, ◌≢◌, ◌<◌, ◌≤◌, ◌++◌, ◌∷◌, ℕ, [], IfOk, IfErr, IsSome, OnOk, OnErr, Some, None, length, option_map, vec_len, vec_capacity};
ghost use Rattle.std.specs.Result.{MatchResult};
ghost use Rattle.shm_model.specs.flat_model.Told.{entries_of};
ghost use Rattle.shm_model.specs.flat_model.Flat.{Flat};
ghost use Rattle.shm_model.specs.flat_model.vm_types.Prot.{IsProt};
ghost use Rattle.shm_model.specs.flat_model.vm_types.WellFormed.{IsPlace};
ghost use Rattle.shm_model.specs.Keys.{found, refused_new, keys_after, IsShmLegal};
ghost use Rattle.shm_model.specs.Tied.{AreTied};
ghost use Rattle.shm_model.specs.declared.acts.ShmAct.TheVariants as act;
ghost use Rattle.shm_model.specs.declared.acts.ShmAnswer.TheVariants as answer;
ghost use Rattle.sysv_shm.specs.Makers.{IsSameMaker, segment_of, SeesOthers};
ghost use Rattle.sysv_shm.specs.Slots.{key_slot, kept_at};
ghost use Rattle.sysv_shm.specs.Shm.{IsUnasked, Gets, Removes, AttachesKey, found_answer, removed_answer, AddsAnswer, AnswersGet, AnswersAttachment, KeepsShm, spent_by, line_room, questions_left};

use crate::history::ShmHistory;
use crate::maker::{Made, ShmMaker};
use crate::slots::Slots;
use kernel_lock::guarded::Guarded;
use shm_model::{How, Place, Prot, Reply, ShmAct, ShmAnswer, ShmEntry, ShmFault, attached, note};
use std::alloc::{AllocError, Global};
use std::marker::Model;
use std::sync::Wait;

/// Segments under keys, which a maker's keeper maps, and the questions that were answered. It
/// stands behind a lock.
///
/// Contracts see it as the record `ShmSeen`.
pub struct Shm<M: ShmMaker> {
    maker: M,
    slots: Slots,
    entries: Vec<ShmEntry>,
    lines: Vec<u32>,
}

impl<M: ShmMaker> Model for Shm<M> {
    ghost use Rattle.sysv_shm.specs.Shm.{ShmSeen, IsShm};

    ghost Value = { ShmSeen M };

    ghost view = { λ s. record {
      maker = s.maker;
      slots = s.slots;
      entries = s.entries.items;
      lines = s.lines.items;
    } };

    ghost invariant = { λ s. IsShm M.look M.starts s.maker s.slots s.entries.items
        s.lines.items };
}

impl<M: ShmMaker> Guarded for Shm<M> {
    ghost use Rattle.std.specs.Prelude.{None};
    ghost use Rattle.sysv_shm.specs.Shm.{shm_seat, FitsShm, MovesShm};
    ghost use Rattle.sysv_shm.specs.ShmLaws.{shm_keeps, shm_grows};

    type Entry = ShmEntry;

    type Note = ();

    type Held = ();

    ghost seat_of = { shm_seat };

    ghost history = { λ s. s.entries };

    ghost note_of = { λ held. None };

    ghost fits = { FitsShm M.look M.starts M.is_on M.may_attach };

    ghost moves = { MovesShm M.look M.starts M.is_on M.may_attach };

    fn length(&self) -> u64 {
        self.entries.len() as u64
    }

    ghost keeps = { shm_keeps M.look M.starts M.is_on M.may_attach };

    ghost grows = { shm_grows M.look M.starts M.is_on M.may_attach };
}

/// The segment of a key, for who asks for it.
#[derive(Clone, Copy)]
pub struct FoundSegment {
    pub object: u32,
    pub length: u32,
}

/// What a Get answers by what was found.
fn get_answer(got: &Result<FoundSegment, ShmFault>) -> ShmAnswer
    ensures { result ≡ found_answer got.now }
{
    match *got {
        Ok(found) => ShmAnswer::Segment {
            object: found.object,
            length: found.length,
        },
        Err(fault) => ShmAnswer::Refused(fault),
    }
}

/// The segment that the key has, where it serves.
fn serve(made: &Made, length: u32, how: How) -> Result<FoundSegment, ShmFault>
    ensures { found_answer result ≡ found (segment_of made.now) length how }
{
    match how {
        How::New => Err(ShmFault::Exists),
        How::Find | How::Create => {
            if made.length < length {
                Err(ShmFault::BadLength)
            } else {
                Ok(FoundSegment {
                    object: made.object,
                    length: made.length,
                })
            }
        }
    }
}

/// Why no new segment is asked for; none where one is.
fn refused_new(length: u32, how: How) -> Option<ShmFault>
    ensures { result ≡ refused_new length how }
{
    match how {
        How::Find => Some(ShmFault::NoKey),
        How::Create | How::New => {
            if length == 0 || 0x1000_0000 < length {
                Some(ShmFault::BadLength)
            } else {
                None
            }
        }
    }
}

/// Asks for the segment of a key that has a slot. The error is want of memory: the keeper made no
/// entry then.
fn ask_get<R: Wait, M: ShmMaker>(
    rt: &R,
    kernel: &M::Kernel,
    maker: &mut M,
    slots: &mut Slots,
    key: u32,
    length: u32,
    how: How,
) -> Result<Result<FoundSegment, ShmFault>, AllocError>
    requires slot { IsSome (key_slot slots.old key) }
    requires kernel { M.is_on maker.old kernel.now }
    requires room { 1 ≤ (M.look maker.old).room }
    ensures same { IsSameMaker M.look M.starts M.is_on M.may_attach maker.old maker.new }
    ensures gets { IfOk result (λ got. Gets M.look M.starts maker.old maker.new slots.old
        slots.new key length how (found_answer got)) }
    ensures err { OnErr result (SeesOthers (M.look maker.old) (M.look maker.new)) }
    ensures kept { OnErr result (slots.new ≡ slots.old) }
{
    if let Some(made) = slots.made_at(key) {
        return Ok(serve(&made, length, how));
    }
    if let Some(fault) = refused_new(length, how) {
        return Ok(Err(fault));
    }
    let made = match maker.make(rt, kernel, length)? {
        Err(errno) => return Ok(Err(ShmFault::Kernel(errno))),
        Ok(made) => made,
    };
    slots.keep(key, Some(made));
    Ok(Ok(FoundSegment {
        object: made.object,
        length: made.length,
    }))
}

impl<M: ShmMaker> Shm<M> {
    /// No key has a segment. At place p - 1 of `lines` stand the most Gets and Removes that process
    /// p may ask. The error is want of memory, and hands the maker back.
    pub fn new(alloc: Global, maker: M, lines: &[u32]) -> Result<Shm<M>, M>
        requires unused { entries_of (M.look maker).seen (M.look maker).keeper ≡ [] }
        requires room { questions_left lines.now [] ≤ (M.look maker).room }
        requires apart { length lines.now < (M.look maker).keeper }
        ensures ok { IfOk result (IsUnasked maker lines.now) }
        ensures err { IfErr result (λ m. m ≡ maker) }
    {
        match Vec::from_slice(alloc, lines) {
            Err(_) => Err(maker),
            Ok(lines) => Ok(Shm {
                maker,
                slots: Slots::none(alloc),
                entries: Vec::new(alloc),
                lines,
            }),
        }
    }

    /// Asks for the segment of a key, which isn't 0, and answers its length. One entry is added, or
    /// none for want of memory. Time: the logarithm of the keys that were ever asked for; of a new
    /// segment the keeper's call, too.
    pub fn get<R: Wait>(
        &mut self,
        rt: &R,
        kernel: &M::Kernel,
        process: u32,
        key: u32,
        length: u32,
        how: How,
    ) -> Result<Result<u32, ShmFault>, AllocError>
        requires kernel { M.is_on self.old.maker kernel.now }
        requires key { key ≢ 0 }
        requires may { spent_by process self.old.entries < line_room self.old.lines process }
        ensures keeps { KeepsShm M.look M.starts M.is_on M.may_attach self.old self.new }
        ensures asks { IfOk result (AnswersGet self.old self.new process key length how) }
        ensures err { OnErr result (self.new.entries ≡ self.old.entries) }
    {
        self.entries.reserve(1)?;
        self.slots.prepare(key)?;
        let got = ask_get(
            rt,
            kernel,
            &mut self.maker,
            &mut self.slots,
            key,
            length,
            how,
        )?;
        let act = ShmAct::Get { key, length, how };
        note(&mut self.entries, process, &act, &get_answer(&got));
        match got {
            Ok(found) => Ok(Ok(found.length)),
            Err(fault) => Ok(Err(fault)),
        }
    }

    /// Takes the key's segment away from the key; it lives on while it is mapped. One entry is
    /// added, or none for want of memory. Time: as of `get`.
    pub fn remove<R: Wait>(
        &mut self,
        rt: &R,
        kernel: &M::Kernel,
        process: u32,
        key: u32,
    ) -> Result<Result<(), ShmFault>, AllocError>
        requires kernel { M.is_on self.old.maker kernel.now }
        requires key { key ≢ 0 }
        requires may { spent_by process self.old.entries < line_room self.old.lines process }
        ensures keeps { KeepsShm M.look M.starts M.is_on M.may_attach self.old self.new }
        ensures asks { IfOk result (λ r. AddsAnswer self.old self.new process (act.Remove key)
            (removed_answer r)) }
        ensures err { OnErr result (self.new.entries ≡ self.old.entries) }
    {
        self.entries.reserve(1)?;
        let act = ShmAct::Remove { key };
        let Some(made) = self.slots.made_at(key) else {
            note(
                &mut self.entries,
                process,
                &act,
                &ShmAnswer::Refused(ShmFault::NoKey),
            );
            return Ok(Err(ShmFault::NoKey));
        };
        self.maker.unmake(rt, kernel, &made)?;
        self.slots.keep(key, None);
        note(&mut self.entries, process, &act, &ShmAnswer::Removed);
        Ok(Ok(()))
    }

    /// The user maps all of the key's segment. One entry is added, or none for want of memory.
    /// Time: as of `get`, and the user's call.
    pub fn attach<R: Wait>(
        &mut self,
        rt: &R,
        kernel: &M::Kernel,
        process: u32,
        user: &mut M::User,
        key: u32,
        place: Place,
        prot: Prot,
    ) -> Result<Result<Reply, ShmFault>, AllocError>
        requires kernel { M.is_on self.old.maker kernel.now }
        requires key { key ≢ 0 }
        requires formed { IsPlace place × IsProt prot }
        requires of { (M.user_of user.old).process ≡ process }
        requires room { 1 ≤ (M.user_of user.old).room }
        requires may { M.may_attach self.old.maker user.old }
        ensures keeps { KeepsShm M.look M.starts M.is_on M.may_attach self.old self.new }
        ensures user { M.stays_user user.old user.new }
        ensures asks { IfOk result (AnswersAttachment self.old self.new (M.user_of user.old)
            (M.user_of user.new) process key place prot) }
        ensures err { OnErr result (self.new.entries ≡ self.old.entries) }
        ensures still { OnErr result (M.user_of user.new ≡ M.user_of user.old) }
    {
        self.entries.reserve(1)?;
        let act = ShmAct::Attach { key, place, prot };
        let Some(made) = self.slots.made_at(key) else {
            note(
                &mut self.entries,
                process,
                &act,
                &ShmAnswer::Refused(ShmFault::NoKey),
            );
            return Ok(Err(ShmFault::NoKey));
        };
        let reply = self.maker.attach(rt, kernel, user, &made, place, prot)?;
        note(
            &mut self.entries,
            process,
            &act,
            &attached(made.object, &reply),
        );
        Ok(Ok(reply))
    }

    /// The length of the key's segment, if it has one. Time: as of `get`.
    pub fn length_of(&self, key: u32) -> Option<u32>
        ensures { result ≡ option_map (λ s. s.len) (keys_after self.now.entries key) }
    {
        match self.slots.made_at(key) {
            Some(made) => Some(made.length),
            None => None,
        }
    }

    /// The maker, and the questions with their answers. These are the ones that were due, and tied
    /// to the history that the maker has seen.
    pub fn finish(self) -> (M, ShmHistory)
        ensures maker { result.0 ≡ self.maker }
        ensures entries { result.1 ≡ self.entries }
        ensures legal { IsShmLegal self.entries }
        ensures tied { (F : Flat) → M.starts self.maker F
            → AreTied (M.look self.maker).keeper F self.entries (M.look self.maker).seen }
    {
        let Shm {
            maker,
            slots: _,
            entries,
            lines: _,
        } = self;
        (maker, ShmHistory::of(entries))
    }
}
