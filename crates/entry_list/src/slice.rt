//! Entries of a list that stand one behind another.
ghost use Rattle.std.specs.Prelude.{◌≡◌, ◌==◌, ◌<◌, ◌≤◌, ◌+◌, ◌∷◌, [], Some, length, take, drop, slice_get, MatchOption};
ghost use Rattle.entry_list.specs.Slices.{IsSliceOf};
ghost use Rattle.entry_list.specs.Rows.{entry_seen};

use crate::entries::Entries;
use crate::row::EntryAt;
use std::marker::Model;

/// Entries of a list that stand one behind another.
///
/// They are seen as a list.
#[derive(Drop)]
pub struct EntrySlice<'a> {
    entries: &'a Entries,
    first: usize,
    count: usize,
}

impl<'a> Model for EntrySlice<'a> {
    ghost use Rattle.std.specs.Prelude.{List, length, take, drop};
    ghost use Rattle.entry_list.specs.vm_types.declared.call.Entry.{Entry};
    ghost use Rattle.entry_list.specs.Slices.{IsSliceOf};

    ghost Value = { List Entry };

    ghost view = { λ s. take s.count (drop s.first s.entries.now) };

    ghost invariant = { λ s. IsSliceOf (length s.entries.now) s.first s.count };
}

impl<'a> EntrySlice<'a> {
    // So many entries of a list from a place on.
    #[inline(always)]
    pub(crate) fn of(entries: &'a Entries, first: usize, count: usize) -> EntrySlice<'a>
        requires { IsSliceOf (length entries.now) first count }
        ensures { result ≡ take count (drop first entries.now) }
    {
        EntrySlice {
            entries,
            first,
            count,
        }
    }

    /// The same entries.
    #[inline(always)]
    pub fn again(&self) -> EntrySlice<'a>
        ensures { result ≡ self.now }
    {
        EntrySlice {
            entries: self.entries,
            first: self.first,
            count: self.count,
        }
    }

    /// How many there are.
    #[inline(always)]
    pub fn len(&self) -> usize
        ensures { result ≡ length self.now }
    {
        self.count
    }

    #[inline(always)]
    pub fn is_empty(&self) -> bool
        ensures { result ≡ (length self.now == 0) }
    {
        self.count == 0
    }

    /// The entry at a place.
    #[inline(always)]
    pub fn at(&self, place: usize) -> EntryAt<'a>
        requires { place < length self.now }
        ensures { slice_get self.now place ≡ Some (entry_seen result) }
    {
        self.entries.at(self.first + place)
    }

    /// The first entry, and those behind it; None where there is none.
    #[inline(always)]
    pub fn split_first(&self) -> Option<(EntryAt<'a>, EntrySlice<'a>)>
        ensures { MatchOption result (self.now ≡ []) (λ r. self.now ≡ entry_seen r.0 ∷ r.1) }
    {
        if self.count == 0 {
            return None;
        }
        let first = self.entries.at(self.first);
        let rest = EntrySlice {
            entries: self.entries,
            first: self.first + 1,
            count: self.count - 1,
        };
        Some((first, rest))
    }

    /// The first so many entries, and those behind them.
    #[inline(always)]
    pub fn split_at(&self, count: usize) -> (EntrySlice<'a>, EntrySlice<'a>)
        requires { count ≤ length self.now }
        ensures front { result.0 ≡ take count self.now }
        ensures back { result.1 ≡ drop count self.now }
    {
        let front = EntrySlice {
            entries: self.entries,
            first: self.first,
            count,
        };
        let back = EntrySlice {
            entries: self.entries,
            first: self.first + count,
            count: self.count - count,
        };
        (front, back)
    }
}
