//! The slot of a pair of numbers.

ghost use Rattle.std.specs.Prelude.{◌≡◌, ℕ, ◌<◌};
ghost use Rattle.hash_chains.specs.Slots.{pair_slot};

/// The fraction of the golden ratio in 64 bits: its multiples by consecutive numbers lie far apart.
const GOLDEN_FRACTION: u64 = 0x9E37_79B9_7F4A_7C15;

/// The slot of a pair: consecutive lower numbers lie far apart, and so do equal ones under several
/// upper numbers.
#[inline]
pub fn slot_of_pair(upper: u32, lower: u32, slots: u32) -> u32
    requires { 0 < slots }
    ensures slot { result ≡ pair_slot slots upper lower }
    ensures within { result < slots }
{
    let number = upper as u64 * 0x1_0000_0000 + lower as u64;
    let mixed = number.wrapping_mul(GOLDEN_FRACTION) >> 32;
    ((mixed * slots as u64) >> 32) as u32
}
