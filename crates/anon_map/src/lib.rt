//! Anon maps: numbered arrays of optional slots, each with a count of holders.
#![tactic(auto)]

ghost use Rattle.std.specs.Prelude.{◌≡◌, ℕ, ◌+◌, ◌-◌, ◌^◌, ◌<◌, ◌≤◌, ◌↔◌, ◌++◌, List, [], length, vec_capacity, take, drop, Option, Some, None, IsTrue, IfOk, OnErr, slice_set, slice_index_or, slice_range, replicate};
ghost use Rattle.std.specs.Bool.{OnTrue, OnFalse};
ghost use Rattle.anon_map.specs.Maps.{Map, anon_map_at, places_of, holders_of, IsMapThere, IsUnused, AllThere, AreEmpty, fresh_map, with_map, with_places, with_holders, free_numbers};

mod map;

use map::AnonMap;
use std::alloc::{AllocError, Global};
use std::marker::Model;

/// The anon maps, seen as a list by number: the map of that number, or none where it is gone.
#[derive(Drop)]
pub struct AnonMaps {
    alloc: Global,
    maps: Vec<Option<AnonMap>>,
    // The numbers of the maps that are gone, with room for the numbers of all.
    gone: Vec<u32>,
}

impl Model for AnonMaps {
    ghost use Rattle.std.specs.Prelude.{List, Option, vec_capacity};
    ghost use Rattle.anon_map.specs.Maps.{Map, IsSoundAnonMaps};

    ghost Value = { List (Option Map) };

    ghost view = { λ s. s.maps.items };

    ghost invariant = { λ s. IsSoundAnonMaps s.maps.items s.gone.items (vec_capacity s.gone) };
}

impl AnonMaps {
    /// No maps. It takes no memory, and keeps the allocator for later calls.
    pub fn new(alloc: Global) -> AnonMaps
        ensures { result ≡ [] }
    {
        AnonMaps {
            alloc,
            maps: Vec::new(alloc),
            gone: Vec::new(alloc),
        }
    }

    /// A map of `pages` places without a slot, with one holder, under a number that no map has. Time
    /// and memory grow with `pages`. A number is new only where no map is gone. The error also comes
    /// where all numbers are taken.
    pub fn make(&mut self, pages: u32) -> Result<u32, AllocError>
        ensures unused { IfOk result (λ number. IsUnused self.old number) }
        ensures again { IfOk result (λ number. number ≡ length self.old → AllThere self.old) }
        ensures made { IfOk result (λ number. self.new
            ≡ with_map self.old number (fresh_map (replicate pages None))) }
        ensures err { OnErr result (self.new ≡ self.old) }
    {
        let places = vec![in self.alloc; None; pages as usize]?;
        self.add(AnonMap::new(places))
    }

    /// One holder more.
    pub fn hold(&mut self, map: u32)
        requires there { IsMapThere self.old map }
        requires fits { holders_of self.old map < 2 ^ 32 - 1 }
        ensures { self.new ≡ with_holders self.old map (holders_of self.old map + 1) }
    {
        let holders = self.holders(map);
        self.set_holders(map, holders + 1);
    }

    /// One holder less, and answers whether it was the last: then the map is gone, and its number is
    /// used again.
    pub fn release(&mut self, map: u32) -> bool
        requires there { IsMapThere self.old map }
        requires empty { holders_of self.old map ≡ 1 → AreEmpty (places_of self.old map) }
        ensures last { IsTrue result ↔ (holders_of self.old map ≡ 1) }
        ensures gone { OnTrue result (self.new ≡ slice_set self.old map None) }
        ensures kept { OnFalse result
            (self.new ≡ with_holders self.old map (holders_of self.old map - 1)) }
    {
        let holders = self.holders(map);
        if holders > 1 {
            self.set_holders(map, holders - 1);
            return false;
        }
        self.maps[map as usize] = None;
        self.gone.push_reserved(map);
        true
    }

    /// Whether a number names a map that is there.
    pub fn is_there(&self, map: u32) -> bool
        ensures { IsTrue result ↔ IsMapThere self.now map }
    {
        matches!(self.maps.get(map as usize), Some(Some(_)))
    }

    /// How many places a map has.
    pub fn pages(&self, map: u32) -> u32
        requires { IsMapThere self.now map }
        ensures { result ≡ length (places_of self.now map) }
    {
        self.map(map).pages()
    }

    /// How many holders a map has: one at least.
    pub fn holders(&self, map: u32) -> u32
        requires { IsMapThere self.now map }
        ensures value { result ≡ holders_of self.now map }
        ensures some { 0 < result }
    {
        self.map(map).holders()
    }

    /// The slot at a place of a map, if there is one, in constant time.
    pub fn get(&self, map: u32, i: u32) -> Option<u32>
        requires there { IsMapThere self.now map }
        requires within { i < length (places_of self.now map) }
        ensures { result ≡ slice_index_or (places_of self.now map) i None }
    {
        self.map(map).places()[i as usize]
    }

    /// Writes a place of a map.
    pub fn set(&mut self, map: u32, i: u32, slot: Option<u32>)
        requires there { IsMapThere self.old map }
        requires within { i < length (places_of self.old map) }
        ensures { self.new ≡ with_places self.old map (slice_set (places_of self.old map) i slot) }
    {
        match &mut self.maps[map as usize] {
            Some(held) => held.set(i, slot),
            None => unreachable!(),
        }
    }

    /// A new map with the slots of `pages` places from `from` on, and one holder. The caller counts
    /// each of these slots once more. The number is as in `make`.
    pub fn copy_range(&mut self, map: u32, from: u32, pages: u32) -> Result<u32, AllocError>
        requires there { IsMapThere self.old map }
        requires within { from + pages ≤ length (places_of self.old map) }
        // The new map.
        ensures unused { IfOk result (λ number. IsUnused self.old number) }
        ensures again { IfOk result (λ number. number ≡ length self.old → AllThere self.old) }
        ensures copied { IfOk result (λ number. self.new ≡ with_map self.old number
            (fresh_map (slice_range (places_of self.old map) from (from + pages)))) }
        ensures err { OnErr result (self.new ≡ self.old) }
    {
        let range = &self.map(map).places()[from as usize..from as usize + pages as usize];
        let places = Vec::from_slice(self.alloc, range)?;
        self.add(AnonMap::new(places))
    }

    /// Cuts a map in two: it keeps its first `at` places, and a new map with one holder has the
    /// others. The number is as in `make`.
    pub fn cut(&mut self, map: u32, at: u32) -> Result<u32, AllocError>
        requires there { IsMapThere self.old map }
        requires alone { holders_of self.old map ≡ 1 }
        requires within { at ≤ length (places_of self.old map) }
        // The two maps.
        ensures unused { IfOk result (λ number. IsUnused self.old number) }
        ensures again { IfOk result (λ number. number ≡ length self.old → AllThere self.old) }
        ensures parted { IfOk result (λ number. self.new
            ≡ with_places (with_map self.old number (fresh_map (drop at (places_of self.old map))))
            map (take at (places_of self.old map))) }
        ensures err { OnErr result (self.new ≡ self.old) }
    {
        let pages = self.pages(map);
        let number = self.copy_range(map, at, pages - at)?;
        match &mut self.maps[map as usize] {
            Some(held) => held.truncate(at),
            None => unreachable!(),
        }
        Ok(number)
    }

    /// Room for so many places, for `cut_into`. The only error is want of memory. Constant time.
    pub fn room(&self, places: u32) -> Result<Vec<Option<u32>>, AllocError>
        ensures empty { IfOk result (λ room. room.items ≡ []) }
        ensures roomy { IfOk result (λ room. places ≤ vec_capacity room) }
    {
        Vec::with_capacity(self.alloc, places as usize)
    }

    /// So many places that hold no slot, for `put`. The only error is want of memory. Time and memory:
    /// the places.
    pub fn no_slots(&self, places: u32) -> Result<Vec<Option<u32>>, AllocError>
        ensures { IfOk result (λ none. none.items ≡ replicate places None) }
    {
        vec![in self.alloc; None; places as usize]
    }

    /// Sees to it that so many numbers are free for `put` and `cut_into`. The only error is want of
    /// memory, or of numbers; then nothing changed. Constant time where they are free, else amortized
    /// the numbers.
    pub fn reserve(&mut self, numbers: u32) -> Result<(), AllocError>
        ensures free { IfOk result (λ _. numbers ≤ free_numbers self.new) }
        ensures new { IfOk result (λ _. self.new
            ≡ self.old ++ replicate (numbers - free_numbers self.old) None) }
        ensures err { OnErr result (self.new ≡ self.old) }
    {
        let free = self.gone.len();
        if free >= numbers as usize {
            return Ok(());
        }
        let more = numbers as usize - free;
        let last = self.maps.len() + more;
        if last > u32::MAX as usize + 1 {
            return Err(AllocError);
        }
        self.gone.reserve(last)?;
        self.maps.reserve(more)?;
        for number in self.maps.len()..last {
            self.maps.push_reserved(None);
            self.gone.push_reserved(number as u32);
        }
        Ok(())
    }

    /// A map with these places and one holder, under a number that was free. Takes no memory. Constant
    /// time.
    pub fn put(&mut self, places: Vec<Option<u32>>) -> u32
        requires some { 0 < free_numbers self.old }
        requires few { length places.items < 2 ^ 32 }
        ensures unused { IsUnused self.old result }
        ensures new { self.new ≡ with_map self.old result (fresh_map places.items) }
        ensures free { free_numbers self.new + 1 ≡ free_numbers self.old }
    {
        let Some(number) = self.gone.pop() else {
            unreachable!();
        };
        self.maps[number as usize] = Some(AnonMap::new(places));
        number
    }

    /// As `cut`, with room for the later places that was taken before: takes no memory. Time: the
    /// places that go over.
    pub fn cut_into(&mut self, map: u32, at: u32, room: Vec<Option<u32>>) -> u32
        requires there { IsMapThere self.old map }
        requires alone { holders_of self.old map ≡ 1 }
        requires within { at ≤ length (places_of self.old map) }
        requires some { 0 < free_numbers self.old }
        requires empty { room.items ≡ [] }
        requires roomy { length (places_of self.old map) - at ≤ vec_capacity room }
        // The two maps.
        ensures unused { IsUnused self.old result }
        ensures parted { self.new
            ≡ with_places (with_map self.old result (fresh_map (drop at (places_of self.old map))))
            map (take at (places_of self.old map)) }
        ensures free { free_numbers self.new + 1 ≡ free_numbers self.old }
    {
        let mut later = room;
        for place in at..self.pages(map) {
            later.push_reserved(self.get(map, place));
        }
        let number = self.put(later);
        match &mut self.maps[map as usize] {
            Some(held) => held.truncate(at),
            None => unreachable!(),
        }
        number
    }

    // The map of a number.
    fn map(&self, map: u32) -> &AnonMap
        requires { IsMapThere self.now map }
        ensures { anon_map_at self.now map ≡ Some result.now }
    {
        match &self.maps[map as usize] {
            Some(held) => held,
            None => unreachable!(),
        }
    }

    // Writes how many hold the map of a number.
    fn set_holders(&mut self, map: u32, holders: u32)
        requires there { IsMapThere self.old map }
        requires some { 0 < holders }
        ensures { self.new ≡ with_holders self.old map holders }
    {
        match &mut self.maps[map as usize] {
            Some(held) => held.set_holders(holders),
            None => unreachable!(),
        }
    }

    // Puts a map under the number that was given up last, or under a new one where none was.
    fn add(&mut self, map: AnonMap) -> Result<u32, AllocError>
        ensures unused { IfOk result (λ number. IsUnused self.old number) }
        ensures again { IfOk result (λ number. number ≡ length self.old → AllThere self.old) }
        ensures added { IfOk result (λ number. self.new ≡ with_map self.old number map) }
        ensures err { OnErr result (self.new ≡ self.old) }
    {
        if let Some(number) = self.gone.pop() {
            self.maps[number as usize] = Some(map);
            return Ok(number);
        }
        let number = self.maps.len();
        if number > u32::MAX as usize {
            return Err(AllocError);
        }
        self.gone.reserve(number + 1)?;
        self.maps.push(Some(map))?;
        Ok(number as u32)
    }
}
