//! Frames that lie in a row.
ghost use Rattle.std.specs.Prelude.{◌≡◌, ◌^◌, ◌<◌, length};
ghost use denote.RawPtr.{InBlock};
ghost use Rattle.core_arena.specs.Rows.{InRow, row_bytes};

use crate::region::Stretch;
use std::slice;

/// The bytes of all these frames, which lie in a row from an address on.
pub(crate) fn whole(_pages: &[Option<Stretch>], at: *const u8, size: usize) -> &[u8]
    requires { InRow at _pages.now × InBlock at × (length (row_bytes _pages.now) ≡ size)
        × (size < 2 ^ 63) }
    ensures { result.now ≡ row_bytes _pages.now }
{
    unsafe { slice::from_raw_parts(at, size) }
}
