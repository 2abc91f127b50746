//! Bytes of a script.
ghost use Rattle.std.specs.Prelude.{◌≡◌, IfOk};

use std::alloc::{AllocError, Global};
use std::marker::Model;

/// A name, a path, or the bytes of a file or a write. It is seen as the list of its bytes.
#[derive(Drop)]
pub struct ByteText {
    bytes: Vec<u8>,
}

impl Model for ByteText {
    ghost use Rattle.std.specs.Prelude.{ℕ, List};
    ghost use Rattle.std.specs.Coded.{coded_ℕ, coded_list};

    ghost Value = { List ℕ };

    ghost coded = { coded_list coded_ℕ };

    ghost view = { λ t. t.bytes.items };
}

impl ByteText {
    /// The text of these bytes.
    pub fn new(alloc: Global, from: &[u8]) -> Result<ByteText, AllocError>
        ensures { IfOk result (λ text. text ≡ from.now) }
    {
        Ok(ByteText {
            bytes: Vec::from_slice(alloc, from)?,
        })
    }

    // The text of bytes that stand in memory of their own. It takes none.
    pub(crate) fn from_vec(bytes: Vec<u8>) -> ByteText
        ensures { result ≡ bytes.items }
    {
        ByteText { bytes }
    }

    /// The bytes.
    pub fn bytes(&self) -> &[u8]
        ensures { result.now ≡ self.now }
    {
        &self.bytes
    }
}
