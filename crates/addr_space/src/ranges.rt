//! Pieces by page, in two vectors of one length: where each piece lies, and the piece.
ghost use Rattle.std.specs.Prelude.{◌≡◌, ℕ, ◌+◌, ◌-◌, ◌<◌, ◌≤◌, ◌^◌, ◌&&◌, nat_le, if◌then◌else◌, [], length, Option, Some, None, MatchOption, IfSome, IsSome, IsSomeAnd, OnOk, option_map, slice_get, insert, remove, vec_len, vec_capacity};
ghost use Rattle.std.specs.Borrow.{sem};
ghost use Rattle.addr_space.specs.Space.{part, has, piece_at, part_at, begins, next_first, with_new_part, cut_at, without_part, upper_part, IsInOrder, FindsGap, FindsNext, FindsLast, with_new_piece, page_total};
ghost use Rattle.addr_space.specs.Inside.{covers, count_below, SpansRise, FindsHolder, FindsFirst, gap_in_spans};

use std::alloc::{AllocError, Global};
use std::marker::Model;

/// The page behind the last one of a space: a piece's pages are from 1 to 0x7ffff.
const END: u32 = 0x80000;

/// Where a piece lies, in pages.
#[derive(Clone, Copy, Drop)]
struct Span {
    first: u32,
    pages: u32,
}

/// Pieces of pages of an address space, each with its first page and its number of pages.
///
/// It is seen as its parts by rising page, and `spare`, how many more pieces may go in without
/// memory. No two pieces share a page.
#[derive(Drop)]
pub struct Ranges<T> {
    spans: Vec<Span>,
    pieces: Vec<T>,
    total: u32,
}

impl<T> Model for Ranges<T> {
    ghost use Rattle.std.specs.Prelude.{◌-◌, min, vec_len, vec_capacity};
    ghost use Rattle.addr_space.specs.Space.{RangesSeen, space_code};

    ghost Value = { RangesSeen T };

    ghost coded = { space_code T.code };

    ghost use Rattle.addr_space.specs.Inside.{span_parts, IsCountedRanges};

    ghost view = { λ r. record {
      parts = span_parts r.spans.items r.pieces.items;
      spare = min (vec_capacity r.spans - vec_len r.spans) (vec_capacity r.pieces - vec_len r.pieces);
    } };

    ghost invariant = { λ r. IsCountedRanges r.spans.items r.pieces.items r.total };
}

// How many spans at the front begin below the bound.
#[inline(always)]
fn count_below(spans: &Vec<Span>, bound: u64) -> usize
    requires { SpansRise 1 spans.now.items }
    ensures { result ≡ count_below bound spans.now.items }
{
    spans.partition_point(|span| u64::from(span.first) < bound)
}

// The place of the span that has the page.
#[inline(always)]
fn place_of(spans: &Vec<Span>, page: u32) -> Option<usize>
    requires { SpansRise 1 spans.now.items }
    ensures { FindsHolder spans.now.items page result }
{
    let place = count_below(spans, u64::from(page) + 1).checked_sub(1)?;
    let span = spans[place];
    if page - span.first < span.pages {
        Some(place)
    } else {
        None
    }
}

fn has_page(span: Span, page: u32) -> bool
    ensures { result ≡ covers span page }
{
    span.first <= page && page - span.first < span.pages
}

// The place of the span that has the page. The span at the place `near`, if there is one, is looked at
// before the others.
fn place_near(spans: &Vec<Span>, near: usize, page: u32) -> Option<usize>
    requires { SpansRise 1 spans.now.items }
    ensures { FindsHolder spans.now.items page result }
{
    if near < spans.len() && has_page(spans[near], page) {
        return Some(near);
    }
    place_of(spans, page)
}

// The place of the span that begins with the page.
fn place_from(spans: &Vec<Span>, page: u32) -> Option<usize>
    requires { SpansRise 1 spans.now.items }
    ensures { FindsFirst spans.now.items page result }
{
    let place = count_below(spans, u64::from(page));
    if place < spans.len() && spans[place].first == page {
        Some(place)
    } else {
        None
    }
}

// The room for so many pages behind the last piece, which ends before `low`.
fn gap_in_spans(low: u32, pages: u32) -> Option<u32>
    requires { low ≤ 0x80000 }
    ensures { result ≡ gap_in_spans low pages [] }
{
    if low < END && pages <= END - low {
        Some(low)
    } else {
        None
    }
}

// Puts an item into a vector that has room for it.
fn insert_within<X>(items: &mut Vec<X>, at: usize, item: X)
    requires within { at ≤ vec_len items.old }
    requires room { vec_len items.old < vec_capacity items.old }
    ensures items { items.new.items ≡ insert items.old.items at item }
    ensures len { vec_len items.new ≡ vec_len items.old + 1 }
    ensures capacity { vec_capacity items.new ≡ vec_capacity items.old }
{
    match items.insert(at, item) {
        Ok(()) => {}
        Err(_) => unreachable!(),
    }
}

impl<T> Ranges<T> {
    ghost use Rattle.addr_space.specs.Lends.{lends_piece};

    /// A space with no piece and no spare room. It takes no memory.
    pub fn new(alloc: Global) -> Ranges<T>
        ensures empty { result.parts ≡ [] }
        ensures spare { result.spare ≡ 0 }
    {
        Ranges {
            spans: Vec::new(alloc),
            pieces: Vec::new(alloc),
            total: 0,
        }
    }

    /// Takes room for `n` more pieces. The only error is want of memory, and the pieces stay.
    pub fn reserve(&mut self, n: u32) -> Result<(), AllocError>
        ensures room { OnOk result (n ≤ self.new.spare) }
        ensures kept { self.old.spare ≤ self.new.spare }
        ensures parts { self.new.parts ≡ self.old.parts }
    {
        self.spans.reserve(n as usize)?;
        self.pieces.reserve(n as usize)
    }

    /// The first page of the piece that has this page, its number of pages, and the piece.
    ///
    /// Time: the logarithm of the number of pieces.
    #[inline(always)]
    pub fn find(&self, page: u32) -> Option<(u32, u32, &T)>
        ensures found { MatchOption result (part_at self.now.parts page ≡ None)
            (λ r. part_at self.now.parts page ≡ Some (part r.0 r.1 r.2.now)) }
        ensures ordered { IsInOrder 1 self.now.parts }
    {
        let place = place_of(&self.spans, page)?;
        let span = self.spans[place];
        Some((span.first, span.pages, &self.pieces[place]))
    }

    /// As `find`, with the place of the piece among the pieces before the rest. `near` may be any number: a
    /// caller that goes from piece to piece gives the place behind the last one.
    ///
    /// Time: constant where the piece at `near` has the page, else as `find`.
    pub fn find_near(&self, near: usize, page: u32) -> Option<(usize, u32, u32, &T)>
        ensures found { MatchOption result (part_at self.now.parts page ≡ None)
            (λ r. part_at self.now.parts page ≡ Some (part r.1 r.2 r.3.now)) }
        ensures place { IfSome result (λ r.
            slice_get self.now.parts r.0 ≡ part_at self.now.parts page) }
        ensures ordered { IsInOrder 1 self.now.parts }
        ensures small { IfSome result (λ r. r.0 < 2 ^ 63) }
    {
        let place = place_near(&self.spans, near, page)?;
        let span = self.spans[place];
        Some((place, span.first, span.pages, &self.pieces[place]))
    }

    /// The piece that has this page, to write to. What is written changes that piece alone.
    ///
    /// Time: the logarithm of the number of pieces.
    pub fn find_mut(&mut self, page: u32) -> Option<&mut T>
        ensures* writes_back { sem 𝓛 (lends_piece T.row self.entry page result) }
        ensures found { MatchOption result (part_at self.old.parts page ≡ None)
            (λ r. option_map (λ p. p.piece) (part_at self.old.parts page) ≡ Some r.now) }
        ensures pages { IfSome (part_at self.old.parts page) (λ p. (w : T) (q : ℕ) →
            piece_at (with_new_piece page w self.old.parts) q
            ≡ (if has p q then Some (w, q - p.first) else piece_at self.old.parts q)) }
        ensures ordered { (w : T) → IsInOrder 1 (with_new_piece page w self.old.parts) }
    {
        self.find_mut_near(usize::MAX, page)
    }

    /// As `find_mut`. The piece at the place `near`, which may be any number, is looked at before the others.
    ///
    /// Time: constant where the piece at `near` has the page, else as `find_mut`.
    pub fn find_mut_near(&mut self, near: usize, page: u32) -> Option<&mut T>
        ensures* writes_back { sem 𝓛 (lends_piece T.row self.entry page result) }
        ensures found { MatchOption result (part_at self.old.parts page ≡ None)
            (λ r. option_map (λ p. p.piece) (part_at self.old.parts page) ≡ Some r.now) }
        ensures pages { IfSome (part_at self.old.parts page) (λ p. (w : T) (q : ℕ) →
            piece_at (with_new_piece page w self.old.parts) q
            ≡ (if has p q then Some (w, q - p.first) else piece_at self.old.parts q)) }
        ensures ordered { (w : T) → IsInOrder 1 (with_new_piece page w self.old.parts) }
    {
        let place = place_near(&self.spans, near, page)?;
        self.pieces.get_mut(place)
    }

    /// The least first page of a piece that isn't below this page.
    ///
    /// Time: the logarithm of the number of pieces.
    pub fn next(&self, page: u32) -> Option<u32>
        ensures first { result ≡ next_first self.now.parts page }
        ensures least { FindsNext self.now.parts page result }
    {
        let place = count_below(&self.spans, u64::from(page));
        if place < self.spans.len() {
            Some(self.spans[place].first)
        } else {
            None
        }
    }

    /// The greatest first page of a piece that is below this page. A caller that takes out all pieces,
    /// or those of a range, takes them from the back: then nothing of what goes is moved.
    ///
    /// Time: the logarithm of the number of pieces.
    pub fn last(&self, page: u32) -> Option<u32>
        ensures { FindsLast self.now.parts page result }
    {
        let place = count_below(&self.spans, u64::from(page)).checked_sub(1)?;
        Some(self.spans[place].first)
    }

    /// Puts a piece of free pages in. It takes no memory: `spare` falls by one.
    ///
    /// Time: the number of pieces after it.
    pub fn insert(&mut self, page: u32, pages: u32, piece: T)
        requires some { 0 < pages }
        requires low { 1 ≤ page }
        requires high { page + pages ≤ 0x80000 }
        requires absent { (q : ℕ) → page ≤ q → q < page + pages → part_at self.old.parts q ≡ None }
        requires room { 0 < self.old.spare }
        // What it leaves.
        ensures parts { self.new.parts ≡ with_new_part (part page pages piece) self.old.parts }
        ensures pages { (q : ℕ) → piece_at self.new.parts q
            ≡ (if has (part page pages piece) q then Some (piece, q - page) else piece_at self.old.parts q) }
        ensures ordered { IsInOrder 1 self.new.parts }
        ensures spare { self.new.spare + 1 ≡ self.old.spare }
    {
        let place = count_below(&self.spans, u64::from(page));
        insert_within(&mut self.spans, place, Span { first: page, pages });
        insert_within(&mut self.pieces, place, piece);
        self.total += pages;
    }

    /// Cuts the piece that has this page in two before it: the piece keeps its pages below, and
    /// `upper` has the others, from place 0 on. It takes no memory: `spare` falls by one.
    ///
    /// Time: the number of pieces after it.
    pub fn split_at(&mut self, page: u32, upper: T)
        requires across { IsSomeAnd (part_at self.old.parts page) (λ p. p.first < page) }
        requires room { 0 < self.old.spare }
        // What it leaves.
        ensures parts { self.new.parts ≡ cut_at page upper self.old.parts }
        ensures pages { IfSome (part_at self.old.parts page) (λ p. (q : ℕ)
            → piece_at self.new.parts q
            ≡ (if has (upper_part page upper p) q then Some (upper, q - page)
            else piece_at self.old.parts q)) }
        ensures ordered { IsInOrder 1 self.new.parts }
        ensures spare { self.new.spare + 1 ≡ self.old.spare }
    {
        let Some(place) = place_of(&self.spans, page) else {
            unreachable!();
        };
        let Span { first, pages } = self.spans[place];
        let below = page - first;
        self.spans[place] = Span {
            first,
            pages: below,
        };
        insert_within(
            &mut self.spans,
            place + 1,
            Span {
                first: page,
                pages: pages - below,
            },
        );
        insert_within(&mut self.pieces, place + 1, upper);
    }

    /// Takes out the piece that begins with this page.
    ///
    /// Time: the number of pieces after it.
    pub fn remove(&mut self, page: u32) -> Option<T>
        ensures taken { result ≡ option_map (λ p. p.piece) (begins self.old.parts page) }
        ensures parts { self.new.parts ≡ without_part page self.old.parts }
        ensures pages { MatchOption (begins self.old.parts page) (self.new.parts ≡ self.old.parts)
            (λ p. (q : ℕ) → piece_at self.new.parts q
            ≡ (if has p q then None else piece_at self.old.parts q)) }
        ensures ordered { IsInOrder 1 self.new.parts }
        ensures spare { self.old.spare ≤ self.new.spare }
    {
        let place = place_from(&self.spans, page)?;
        let span = self.spans.remove(place);
        let piece = self.pieces.remove(place);
        self.total -= span.pages;
        Some(piece)
    }

    /// How many pages the pieces have. Constant time.
    pub fn pages(&self) -> u32
        ensures total { result ≡ page_total self.now.parts }
        ensures ordered { IsInOrder 1 self.now.parts }
    {
        self.total
    }

    /// The least page from 1 on from which so many pages are free and lie below page 0x80000.
    ///
    /// Time: the number of pieces.
    pub fn gap(&self, pages: u32) -> Option<u32>
        ensures { FindsGap self.now.parts pages result }
    {
        let mut low = 1;
        for span in &self.spans {
            if pages <= span.first - low {
                return Some(low);
            }
            low = span.first + span.pages;
        }
        gap_in_spans(low, pages)
    }
}
