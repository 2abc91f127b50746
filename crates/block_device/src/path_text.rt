//! The path of a disk's file.
ghost use Rattle.std.specs.Prelude.{◌≡◌, IfOk};

use std::alloc::{AllocError, Global};
use std::marker::Model;

/// The bytes of a path. Contracts see it as the list of its bytes.
#[derive(Debug, Drop)]
pub struct PathText {
    text: Vec<u8>,
}

impl Model for PathText {
    ghost use Rattle.std.specs.Prelude.{List, ℕ};

    ghost Value = { List ℕ };

    ghost view = { λ path. path.text.items };
}

impl PathText {
    /// A path with a copy of these bytes.
    pub fn new(alloc: Global, from: &[u8]) -> Result<PathText, AllocError>
        ensures { IfOk result (λ path. path ≡ from.now) }
    {
        Ok(PathText {
            text: Vec::from_slice(alloc, from)?,
        })
    }

    /// A path of these bytes. Takes no memory.
    pub fn from_vec(text: Vec<u8>) -> PathText
        ensures { result ≡ text.items }
    {
        PathText { text }
    }

    /// The bytes of the path.
    pub fn bytes(&self) -> &[u8]
        ensures { result.now ≡ self.now }
    {
        self.text.as_slice()
    }

    /// The bytes of the path. Takes no memory.
    pub fn into_vec(self) -> Vec<u8>
        ensures { result.items ≡ self }
    {
        self.text
    }
}
