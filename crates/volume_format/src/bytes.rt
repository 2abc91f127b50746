//! Fields of a block.
ghost use Rattle.std.specs.Prelude.{◌≡◌, ◌≤◌, ◌+◌, ◌++◌, length, take, drop};
ghost use Rattle.volume_format.specs.Layout.{number_at, are_zeros, are_same};

// The number in the four bytes from a place on.
#[tactic(auto, unfolding(crate::specs::Layout::number_at))]
pub(crate) fn number_at(block: &[u8], at: usize) -> u32
    requires { at + 4 ≤ length block.now }
    ensures { result ≡ number_at block.now at }
{
    let bytes = &block[at..at + 4];
    u32::from_be_bytes([bytes[0], bytes[1], bytes[2], bytes[3]])
}

// Whether all bytes are zeros.
#[tactic(auto, unfolding(crate::specs::Layout::are_zeros))]
pub(crate) fn are_zeros(bytes: &[u8]) -> bool
    ensures { result ≡ are_zeros bytes.now }
{
    bytes.iter().all(|b| *b == 0)
}

// Whether two texts are the same.
#[tactic(auto, unfolding(crate::specs::Layout::are_same))]
pub(crate) fn are_same(xs: &[u8], ys: &[u8]) -> bool
    ensures { result ≡ are_same xs.now ys.now }
{
    xs == ys
}
