//! A pool of translations that are found by page and by frame.
ghost use Rattle.std.specs.Prelude.{◌≡◌, ℕ, ◌<◌, ◌≤◌, length, replicate, true, false, Option, Some, None, IfOk, slice_set, slice_index_or, option_map, map, is_some};
ghost use Rattle.hat_layer.specs.Pool.{holds, frame_of, IsSingleValued, bits_of, change_frame, with_clear_bits, after_access};
ghost use Rattle.hash_chains.specs.Order.{HaveOwners};
ghost use Rattle.hat_layer.specs.Table.{FindsPlace, FindsHeld, SameName, LeadsToFrame};

use crate::translation::Translation;
use filled::filled;
use hash_chains::{Chains, slot_of_pair};
use std::alloc::{AllocError, Global};
use std::marker::Model;

/// Places with translations, each on the chain of its page's slot and on that of its frame.
#[derive(Drop)]
pub struct TranslationTable {
    cells: Vec<Option<Translation>>,
    by_page: Chains,
    by_frame: Chains,
    slots: u32,
}

impl Model for TranslationTable {
    ghost use Rattle.std.specs.Prelude.{length};
    ghost use Rattle.hat_layer.specs.Table.{Rows, IsSoundTable};

    ghost Value = { Rows };

    ghost view = { λ t. record { places = t.cells.items; frames = length t.by_frame.order } };

    ghost invariant = { λ t. IsSoundTable t.cells.items t.slots t.by_page t.by_frame };
}

// A translation with clear bits.
fn with_clear_bits(old: Translation) -> Translation
    ensures { result ≡ with_clear_bits old }
{
    let (referenced, modified) = (false, false);
    Translation {
        referenced,
        modified,
        ..old
    }
}

fn holds(cell: Option<Translation>, space: u32, page: u32) -> bool
    ensures { result ≡ holds space page cell }
{
    match cell {
        Some(held) => held.space == space && held.page == page,
        None => false,
    }
}

// Notes an access in the translation of a cell.
#[inline(always)]
fn note_in(cell: &mut Option<Translation>, write: bool)
    ensures { cell.new ≡ option_map (after_access write) cell.old }
{
    if let Some(held) = cell {
        held.referenced = true;
        if write {
            held.modified = true;
        }
    }
}

impl TranslationTable {
    /// That many empty places, for translations to frames below this number.
    pub fn new(alloc: Global, places: u32, frames: u32) -> Result<TranslationTable, AllocError>
        requires { 0 < places }
        ensures places { IfOk result (λ t. t.places ≡ replicate places None) }
        ensures frames { IfOk result (λ t. t.frames ≡ frames) }
    {
        Ok(TranslationTable {
            cells: filled(alloc, None, places as usize)?,
            by_page: Chains::new(alloc, places, places)?,
            by_frame: Chains::new(alloc, frames, places)?,
            slots: places,
        })
    }

    // The place of a page's translation, in constant expected time.
    #[inline(always)]
    fn place_of(&self, space: u32, page: u32) -> Option<u32>
        ensures found { FindsPlace self.now.places space page result }
        ensures distinct { IsSingleValued self.now.places }
    {
        let slot = slot_of_pair(space, page, self.slots);
        let mut at = self.by_page.first(slot);
        while let Some(place) = at {
            if holds(self.cells[place as usize], space, page) {
                return Some(place);
            }
            at = self.by_page.after(place);
        }
        None
    }

    /// The translation at a place.
    pub fn get(&self, place: u32) -> Option<Translation>
        requires { place < length self.now.places }
        ensures { result ≡ slice_index_or self.now.places place None }
    {
        self.cells[place as usize]
    }

    /// A page's translation and its place, in constant expected time.
    #[inline(always)]
    pub fn held(&self, space: u32, page: u32) -> Option<(u32, Translation)>
        ensures found { FindsHeld self.now.places space page result }
        ensures distinct { IsSingleValued self.now.places }
    {
        let place = self.place_of(space, page)?;
        self.entry(place)
    }

    // The translation at a place, with the place.
    fn entry(&self, place: u32) -> Option<(u32, Translation)>
        requires { place < length self.now.places }
        ensures { result
            ≡ option_map (λ t. (place, t)) (slice_index_or self.now.places place None) }
    {
        match self.get(place) {
            Some(held) => Some((place, held)),
            None => None,
        }
    }

    /// The place that came last of those that lead to a frame, with its translation.
    pub fn first(&self, frame: u32) -> Option<(u32, Translation)>
        requires { frame < self.now.frames }
        ensures leads { LeadsToFrame self.now.places frame result }
        ensures distinct { IsSingleValued self.now.places }
    {
        let place = self.by_frame.first(frame)?;
        self.entry(place)
    }

    /// Puts a translation into an empty place.
    pub fn put(&mut self, place: u32, new: Translation)
        requires place { place < length self.old.places }
        requires frame { new.frame < self.old.frames }
        requires empty { slice_index_or self.old.places place None ≡ None }
        requires absent { (k : ℕ) → holds new.space new.page
            (slice_index_or self.old.places k None) ≡ false }
        // What it leaves.
        ensures places { self.new.places ≡ slice_set self.old.places place (Some new) }
        ensures frames { self.new.frames ≡ self.old.frames }
        ensures distinct { IsSingleValued self.new.places }
    {
        self.cells[place as usize] = Some(new);
        self.by_page
            .link(place, slot_of_pair(new.space, new.page, self.slots));
        self.by_frame.link(place, new.frame);
    }

    /// Takes the translation out of a place.
    pub fn take(&mut self, place: u32, old: Translation)
        requires { slice_index_or self.old.places place None ≡ Some old }
        ensures places { self.new.places ≡ slice_set self.old.places place None }
        ensures frames { self.new.frames ≡ self.old.frames }
        ensures distinct { IsSingleValued self.new.places }
    {
        self.cells[place as usize] = None;
        self.by_page
            .unlink(place, slot_of_pair(old.space, old.page, self.slots));
        self.by_frame.unlink(place, old.frame);
    }

    /// Changes the rights and the bits of the translation at a place.
    pub fn change(&mut self, place: u32, old: Translation, new: Translation)
        requires old { slice_index_or self.old.places place None ≡ Some old }
        requires same { SameName old new }
        // What it leaves.
        ensures places { self.new.places ≡ slice_set self.old.places place (Some new) }
        ensures frames { self.new.frames ≡ self.old.frames }
        ensures distinct { IsSingleValued self.new.places }
    {
        self.cells[place as usize] = Some(new);
    }

    /// Notes an access in the translation at a place, where it stands: no translation is moved.
    #[inline(always)]
    pub fn note(&mut self, place: u32, old: Translation, write: bool)
        requires { slice_index_or self.old.places place None ≡ Some old }
        // What it leaves.
        ensures places { self.new.places
            ≡ slice_set self.old.places place (Some (after_access write old)) }
        ensures frames { self.new.frames ≡ self.old.frames }
        ensures distinct { IsSingleValued self.new.places }
    {
        note_in(&mut self.cells[place as usize], write);
        let _ = old;
    }

    /// Clears the bits of all translations of a frame, and answers whether one was referenced,
    /// modified. Time: the frame's translations.
    pub fn clear_bits(&mut self, frame: u32) -> (bool, bool)
        requires { frame < self.old.frames }
        ensures bits { result ≡ bits_of frame self.old.places }
        ensures places { self.new.places ≡ change_frame frame with_clear_bits self.old.places }
        // What it leaves.
        ensures frames { self.new.frames ≡ self.old.frames }
        ensures was { IsSingleValued self.old.places }
        ensures distinct { IsSingleValued self.new.places }
    {
        clear_all(&mut self.cells, &self.by_frame, frame)
    }
}

// The translation at a place that has one.
fn held_at(cells: &[Option<Translation>], place: u32) -> Translation
    requires within { place < length cells.now }
    requires held { is_some (slice_index_or cells.now place None) ≡ true }
    ensures { slice_index_or cells.now place None ≡ Some result }
{
    match cells[place as usize] {
        Some(held) => held,
        None => unreachable!(),
    }
}

// Clears the bits of the translations of a frame one by one.
fn clear_all(cells: &mut Vec<Option<Translation>>, by_frame: &Chains, frame: u32) -> (bool, bool)
    requires owners { HaveOwners by_frame.now.order (map frame_of cells.old.items) }
    requires frame { frame < length by_frame.now.order }
    ensures bits { result ≡ bits_of frame cells.old.items }
    ensures places { cells.new.items ≡ change_frame frame with_clear_bits cells.old.items }
{
    let mut referenced = false;
    let mut modified = false;
    let mut at = by_frame.first(frame);
    while let Some(place) = at {
        let old = held_at(cells, place);
        referenced |= old.referenced;
        modified |= old.modified;
        cells[place as usize] = Some(with_clear_bits(old));
        at = by_frame.after(place);
    }
    (referenced, modified)
}
