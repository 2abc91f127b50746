//! A space as a finite map.
ghost use Rattle.std.specs.Prelude.{◌≡◌, ℕ};
ghost use Rattle.std.specs.FinMap as map;
ghost use Rattle.addr_space.specs.Space as space;
ghost use Rattle.addr_space.specs.Pages.{pages_of_parts};

use crate::ranges::Ranges;

/// The finite map of a space has at each page what its parts show there, and as many keys as the parts have pages.
pub fn pages_law(ranges: &Ranges<u32>)
    ensures shows { (q : ℕ) → map.get (pages_of_parts ranges.now.parts) q
        ≡ space.piece_at ranges.now.parts q }
    ensures count { space.IsInOrder 1 ranges.now.parts
        → map.len (pages_of_parts ranges.now.parts) ≡ space.page_total ranges.now.parts }
{}
