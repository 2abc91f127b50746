//! One anon map.
ghost use Rattle.std.specs.Prelude.{◌≡◌, ◌+◌, ◌^◌, ◌<◌, ◌≤◌, length, take, slice_set, vec_len};
ghost use Rattle.anon_map.specs.Maps.{Map, fresh_map};

use std::marker::Model;

/// An array of optional slots with at least one holder.
#[derive(Drop)]
pub struct AnonMap {
    places: Vec<Option<u32>>,
    holders: u32,
}

impl Model for AnonMap {
    ghost use Rattle.std.specs.Prelude.{◌<◌, ◌^◌, length};
    ghost use Rattle.anon_map.specs.Maps.{Map};

    ghost Value = { Map };

    ghost view = { λ m. record {
      places = m.places.items;
      holders = m.holders;
    } };

    ghost invariant = { λ m. (0 < m.holders) × (length m.places.items < 2 ^ 32) };
}

impl AnonMap {
    /// A map of these places, with one holder.
    pub fn new(places: Vec<Option<u32>>) -> AnonMap
        requires { length places.items < 2 ^ 32 }
        ensures { result ≡ fresh_map places.items }
    {
        AnonMap { places, holders: 1 }
    }

    /// How many places it has.
    pub fn pages(&self) -> u32
        ensures { result ≡ length self.now.places }
    {
        self.places.len() as u32
    }

    /// How many holders it has.
    pub fn holders(&self) -> u32
        ensures value { result ≡ self.now.holders }
        ensures some { 0 < result }
    {
        self.holders
    }

    /// Writes the number of holders.
    pub fn set_holders(&mut self, holders: u32)
        requires { 0 < holders }
        ensures { self.new ≡ record self.old { holders = holders } }
    {
        self.holders = holders;
    }

    /// The places.
    pub fn places(&self) -> &[Option<u32>]
        ensures value { result.now ≡ self.now.places }
        ensures fits { length result.now < 2 ^ 32 }
    {
        self.places.as_slice()
    }

    /// Writes a place.
    pub fn set(&mut self, i: u32, slot: Option<u32>)
        requires { i < length self.old.places }
        ensures { self.new ≡ record self.old { places = slice_set self.old.places i slot } }
    {
        self.places[i as usize] = slot;
    }

    /// Keeps the first `at` places.
    pub fn truncate(&mut self, at: u32)
        ensures { self.new ≡ record self.old { places = take at self.old.places } }
    {
        self.places.truncate(at as usize);
    }
}
