//! Vectors that are filled with one item.
#![tactic(auto)]

ghost use Rattle.std.specs.Prelude.{◌≡◌, replicate, IfOk};

use std::alloc::{AllocError, Global};

// The items that are written at once: of the tables that are made so, 2 KiB at most. The C library writes so many bytes by vectors; more of
// them it writes by an instruction that takes long to begin, and that is counted once a byte.
const PIECE: usize = 64;

/// A vector of so many equal items. Time: their bytes.
pub fn filled<T: Copy>(alloc: Global, item: T, count: usize) -> Result<Vec<T>, AllocError>
    ensures { IfOk result (λ made. made.items ≡ replicate count item) }
{
    let mut made = Vec::with_capacity(alloc, count)?;
    while made.len() < count {
        let more = usize::min(count - made.len(), PIECE);
        made.resize(made.len() + more, item)?;
    }
    Ok(made)
}
