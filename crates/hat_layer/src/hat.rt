//! The translations of all spaces: a map that only forgets.
ghost use Rattle.std.specs.Prelude.{◌≡◌, ◌≢◌, ◌↔◌, ℕ, ◌+◌, ◌<◌, ◌≤◌, ◌==◌, ◌&&◌, ◌^◌, [], ◌∷◌, ◌++◌, length, replicate, true, false, Option, Some, None, IfOk, IsTrue, IsSomeAnd, IfSome, IfNone, slice_set, slice_index_or, if◌then◌else◌, option_map, vec_len, vec_capacity};
ghost use Rattle.hat_layer.specs.Pool.{HatSeen, IsSingleValued, IsNoted, SomeHas, is_of, holds, frame_of, frame_for, translation_at, told_of, fresh_translation, lets_access, after_access, without_write, with_clear_bits, change_page, drop_page, change_lead, drop_lead, change_at, drop_at, change_frame, drop_frame, bits_of, dropped_by_load, hand_after};
ghost use Rattle.hat_layer.specs.Free.{IsSoundHat, TakesPlace, countdown};

use crate::table::TranslationTable;
use crate::translation::{Dropped, Translation};
use std::alloc::{AllocError, Global};
use std::marker::Model;

/// Translations from (space, page) to a frame and its rights, in a pool of a fixed size.
///
/// An entry that isn't told as dropped, unloaded or protected stays, and no bit is lost that isn't
/// told. It is seen as the places of the pool, the place that is stolen next, and the number of
/// frames. No call but `new` takes memory.
#[derive(Drop)]
pub struct Hat {
    table: TranslationTable,
    free: Vec<u32>,
    hand: u32,
    pool: u32,
}

impl Model for Hat {
    ghost use Rattle.std.specs.Prelude.{◌≡◌, length, vec_capacity};
    ghost use Rattle.hat_layer.specs.Pool.{HatSeen};
    ghost use Rattle.hat_layer.specs.Free.{IsSoundHat};

    ghost Value = { HatSeen };

    ghost view = { λ h. record { places = h.table.places; hand = h.hand; frames = h.table.frames } };

    ghost invariant = { λ h. IsSoundHat h.table.places h.free.items (vec_capacity h.free) h.hand
        × (h.pool ≡ length h.table.places) };
}

// The place that a load takes: that of the same page, else a free one, else the one at the hand,
// which moves on.
fn choose(
    table: &TranslationTable,
    free: &mut Vec<u32>,
    hand: &mut u32,
    pool: u32,
    space: u32,
    page: u32,
) -> u32
    requires fits { IsSoundHat table.now.places free.old.items (vec_capacity free.old) hand.old }
    requires pool { pool ≡ length table.now.places }
    ensures { TakesPlace
        (record { places = table.now.places; hand = hand.old; frames = table.now.frames })
        free.new.items (vec_capacity free.new) hand.new space page result }
{
    if let Some((place, _held)) = table.held(space, page) {
        return place;
    }
    if let Some(place) = free.pop() {
        return place;
    }
    turn(hand, pool)
}

// The place at the hand, which moves on by one, from the last place to place 0.
fn turn(hand: &mut u32, pool: u32) -> u32
    requires { hand.old < pool }
    ensures place { result ≡ hand.old }
    ensures moves { hand.new ≡ (if hand.old + 1 == pool then 0 else hand.old + 1) }
{
    let place = *hand;
    if place + 1 == pool {
        *hand = 0;
    } else {
        *hand = place + 1;
    }
    place
}

// Puts a translation into a place, whatever the place has, and answers what it had.
fn replace(table: &mut TranslationTable, place: u32, new: Translation) -> Option<Translation>
    requires place { place < length table.old.places }
    requires frame { new.frame < table.old.frames }
    requires apart { (k : ℕ) → k ≢ place
        → holds new.space new.page (slice_index_or table.old.places k None) ≡ false }
    ensures old { result ≡ slice_index_or table.old.places place None }
    // What it leaves.
    ensures places { table.new.places ≡ slice_set table.old.places place (Some new) }
    ensures frames { table.new.frames ≡ table.old.frames }
    ensures distinct { IsSingleValued table.new.places }
{
    match table.get(place) {
        None => {
            table.put(place, new);
            None
        }
        Some(old) => {
            table.take(place, old);
            table.put(place, new);
            Some(old)
        }
    }
}

// Takes the translation out of a place, which is free then.
fn release(
    table: &mut TranslationTable,
    free: &mut Vec<u32>,
    hand: u32,
    place: u32,
    old: Translation,
)
    requires fits { IsSoundHat table.old.places free.old.items (vec_capacity free.old) hand }
    requires old { slice_index_or table.old.places place None ≡ Some old }
    // What it leaves.
    ensures fits { IsSoundHat table.new.places free.new.items (vec_capacity free.new) hand }
    ensures places { table.new.places ≡ slice_set table.old.places place None }
    ensures frames { table.new.frames ≡ table.old.frames }
    ensures distinct { IsSingleValued table.new.places }
{
    table.take(place, old);
    free.push_reserved(place);
}

// All places of an empty pool, so that place 0 is taken first.
fn all_free(alloc: Global, pool: u32) -> Result<Vec<u32>, AllocError>
    ensures all { IfOk result (λ v. v.items ≡ countdown pool) }
    ensures room { IfOk result (λ v. pool ≤ vec_capacity v) }
{
    let mut free = Vec::with_capacity(alloc, pool as usize)?;
    for place in (0..pool).rev() {
        free.push(place)?;
    }
    Ok(free)
}

fn told_of(old: Translation) -> Dropped
    ensures { result ≡ told_of old }
{
    Dropped {
        space: old.space,
        page: old.page,
        frame: old.frame,
        referenced: old.referenced,
        modified: old.modified,
    }
}

// Whether a translation lets a load, or a store.
fn lets_access(held: Translation, write: bool) -> bool
    ensures { result ≡ lets_access write held }
{
    held.writable || !write
}

fn without_write(old: Translation) -> Translation
    ensures { result ≡ without_write old }
{
    Translation {
        writable: false,
        ..old
    }
}

impl Hat {
    /// An empty pool of that many places, for frames below this number.
    pub fn new(alloc: Global, pool: u32, frames: u32) -> Result<Hat, AllocError>
        requires { 0 < pool }
        ensures places { IfOk result (λ h. h.places ≡ replicate pool None) }
        ensures hand { IfOk result (λ h. h.hand ≡ 0) }
        ensures frames { IfOk result (λ h. h.frames ≡ frames) }
        ensures distinct { IfOk result (λ h. IsSingleValued h.places) }
    {
        let table = TranslationTable::new(alloc, pool, frames)?;
        let free = all_free(alloc, pool)?;
        Ok(Hat {
            table,
            free,
            hand: 0,
            pool,
        })
    }

    /// The frame that a page leads to, and whether it is writable. Constant expected time.
    pub fn find(&self, space: u32, page: u32) -> Option<(u32, bool)>
        ensures found { result
            ≡ option_map (λ t. (t.frame, t.writable)) (translation_at self.now.places space page) }
        ensures distinct { IsSingleValued self.now.places }
    {
        let (_place, held) = self.table.held(space, page)?;
        Some((held.frame, held.writable))
    }

    /// Loads a translation with clear bits. What had to give way is told: the translation of the
    /// same page, else in a full pool the one at the hand, which goes round from place 0.
    pub fn load(&mut self, space: u32, page: u32, frame: u32, writable: bool) -> Option<Dropped>
        requires { frame < self.old.frames }
        ensures stolen { result ≡ option_map told_of (dropped_by_load self.old space page) }
        ensures places { (place : ℕ) × (place < length self.old.places)
            × (slice_index_or self.old.places place None ≡ dropped_by_load self.old space page)
            × (self.new.places ≡ slice_set self.old.places place
            (Some (fresh_translation space page frame writable))) }
        ensures hand { self.new.hand ≡ hand_after self.old space page }
        // The map from (space, page).
        ensures loaded { translation_at self.new.places space page
            ≡ Some (fresh_translation space page frame writable) }
        ensures gone { (s p : ℕ) → is_of s p (fresh_translation space page frame writable) ≡ false
            → holds s p (dropped_by_load self.old space page) ≡ true
            → translation_at self.new.places s p ≡ None }
        ensures kept { (s p : ℕ) → is_of s p (fresh_translation space page frame writable) ≡ false
            → holds s p (dropped_by_load self.old space page) ≡ false
            → translation_at self.new.places s p ≡ translation_at self.old.places s p }
        // What stays.
        ensures frames { self.new.frames ≡ self.old.frames }
        ensures distinct { IsSingleValued self.new.places }
    {
        let place = choose(
            &self.table,
            &mut self.free,
            &mut self.hand,
            self.pool,
            space,
            page,
        );
        let new = Translation {
            space,
            page,
            frame,
            writable,
            referenced: false,
            modified: false,
        };
        match replace(&mut self.table, place, new) {
            None => None,
            Some(old) => Some(told_of(old)),
        }
    }

    /// Notes an access, and answers the frame that it goes to: where the page has a translation that
    /// lets it, for a store a writable one. None exactly otherwise. Constant expected time: one look.
    #[inline(always)]
    pub fn frame_for(&mut self, space: u32, page: u32, write: bool) -> Option<u32>
        ensures frame { result ≡ frame_for self.old.places space page write }
        // It is noted, ..
        ensures places { IfSome result (λ _frame. self.new.places
            ≡ change_at space page (after_access write) self.old.places) }
        ensures map { IfSome result (λ _frame. (s p : ℕ) → translation_at self.new.places s p
            ≡ change_page space page (after_access write) (translation_at self.old.places s p)) }
        ensures noted { IfSome result (λ frame. IsNoted self.new.places space page frame write) }
        // .. or nothing changes.
        ensures none { IfNone result (self.new ≡ self.old) }
        // What stays.
        ensures hand { self.new.hand ≡ self.old.hand }
        ensures frames { self.new.frames ≡ self.old.frames }
        ensures distinct { IsSingleValued self.new.places }
    {
        let (place, old) = self.table.held(space, page)?;
        if !lets_access(old, write) {
            return None;
        }
        self.table.note(place, old, write);
        Some(old.frame)
    }

    /// Notes an access: referenced, and modified where it writes.
    pub fn touch(&mut self, space: u32, page: u32, write: bool)
        requires { IsSomeAnd (translation_at self.old.places space page)
            (λ t. IsTrue write → IsTrue t.writable) }
        ensures places { self.new.places
            ≡ change_at space page (after_access write) self.old.places }
        ensures map { (s p : ℕ) → translation_at self.new.places s p
            ≡ change_page space page (after_access write) (translation_at self.old.places s p) }
        // What stays.
        ensures hand { self.new.hand ≡ self.old.hand }
        ensures frames { self.new.frames ≡ self.old.frames }
        ensures distinct { IsSingleValued self.new.places }
    {
        let _frame = self.frame_for(space, page, write);
    }

    /// Drops a page's translation, and tells it. None exactly where it isn't loaded.
    pub fn unload(&mut self, space: u32, page: u32) -> Option<Dropped>
        ensures told { result ≡ option_map told_of (translation_at self.old.places space page) }
        ensures places { self.new.places ≡ drop_at space page self.old.places }
        ensures map { (s p : ℕ) → translation_at self.new.places s p
            ≡ drop_page space page (translation_at self.old.places s p) }
        // What stays.
        ensures hand { self.new.hand ≡ self.old.hand }
        ensures frames { self.new.frames ≡ self.old.frames }
        ensures distinct { IsSingleValued self.new.places }
    {
        let (place, old) = self.table.held(space, page)?;
        release(&mut self.table, &mut self.free, self.hand, place, old);
        Some(told_of(old))
    }

    /// Takes the right to write from a page's translation, where it is loaded.
    pub fn protect(&mut self, space: u32, page: u32)
        ensures places { self.new.places ≡ change_at space page without_write self.old.places }
        ensures map { (s p : ℕ) → translation_at self.new.places s p
            ≡ change_page space page without_write (translation_at self.old.places s p) }
        // What stays.
        ensures hand { self.new.hand ≡ self.old.hand }
        ensures frames { self.new.frames ≡ self.old.frames }
        ensures distinct { IsSingleValued self.new.places }
    {
        if let Some((place, old)) = self.table.held(space, page) {
            self.table.change(place, old, without_write(old));
        }
    }

    /// Drops all translations of a frame, and answers whether one was referenced, modified.
    /// Time: the frame's translations.
    pub fn page_unload(&mut self, frame: u32) -> (bool, bool)
        requires { frame < self.old.frames }
        ensures bits { result ≡ bits_of frame self.old.places }
        ensures referenced { IsTrue result.0
            ↔ SomeHas (λ t. t.referenced) self.old.places frame }
        ensures modified { IsTrue result.1
            ↔ SomeHas (λ t. t.modified) self.old.places frame }
        ensures places { self.new.places ≡ drop_frame frame self.old.places }
        ensures map { (s p : ℕ) → translation_at self.new.places s p
            ≡ drop_lead frame (translation_at self.old.places s p) }
        // What stays.
        ensures hand { self.new.hand ≡ self.old.hand }
        ensures frames { self.new.frames ≡ self.old.frames }
        ensures distinct { IsSingleValued self.new.places }
    {
        unload_all(&mut self.table, &mut self.free, self.hand, frame)
    }

    /// Clears the bits of all translations of a frame, and answers whether one was referenced,
    /// modified. The translations stay. Time: the frame's translations.
    pub fn page_sync(&mut self, frame: u32) -> (bool, bool)
        requires { frame < self.old.frames }
        ensures bits { result ≡ bits_of frame self.old.places }
        ensures referenced { IsTrue result.0
            ↔ SomeHas (λ t. t.referenced) self.old.places frame }
        ensures modified { IsTrue result.1
            ↔ SomeHas (λ t. t.modified) self.old.places frame }
        ensures places { self.new.places ≡ change_frame frame with_clear_bits self.old.places }
        ensures map { (s p : ℕ) → translation_at self.new.places s p
            ≡ change_lead frame with_clear_bits (translation_at self.old.places s p) }
        // What stays.
        ensures hand { self.new.hand ≡ self.old.hand }
        ensures frames { self.new.frames ≡ self.old.frames }
        ensures distinct { IsSingleValued self.new.places }
    {
        self.table.clear_bits(frame)
    }
}

// Drops the translations of a frame one by one.
fn unload_all(
    table: &mut TranslationTable,
    free: &mut Vec<u32>,
    hand: u32,
    frame: u32,
) -> (bool, bool)
    requires fits { IsSoundHat table.old.places free.old.items (vec_capacity free.old) hand }
    requires frame { frame < table.old.frames }
    ensures fits { IsSoundHat table.new.places free.new.items (vec_capacity free.new) hand }
    // What it leaves.
    ensures length { length table.new.places ≡ length table.old.places }
    ensures bits { result ≡ bits_of frame table.old.places }
    ensures places { table.new.places ≡ drop_frame frame table.old.places }
    ensures frames { table.new.frames ≡ table.old.frames }
    ensures was { IsSingleValued table.old.places }
    ensures distinct { IsSingleValued table.new.places }
{
    let mut referenced = false;
    let mut modified = false;
    let mut at = table.first(frame);
    while let Some((place, old)) = at {
        referenced |= old.referenced;
        modified |= old.modified;
        release(table, free, hand, place, old);
        at = table.first(frame);
    }
    (referenced, modified)
}
