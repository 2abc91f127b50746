//! The name of a file.
ghost use Rattle.std.specs.Prelude.{◌≡◌, ◌≤◌, length};

use std::marker::Model;

/// The name of a file: 1 to 16 bytes, seen as their list.
#[derive(Clone, Copy, PartialEq, Eq, Debug)]
pub struct FileName {
    len: u8,
    bytes: [u8; 16],
}

impl Model for FileName {
    ghost use Rattle.std.specs.Prelude.{ℕ, List};
    ghost use Rattle.std.specs.Coded.{coded_ℕ, coded_list};

    ghost Value = { List ℕ };

    ghost coded = { coded_list coded_ℕ };

    ghost use Rattle.vnode_files.specs.FileName.{name_bytes, IsName, name_fields, name_fields-name_bytes};

    ghost view = { name_bytes };

    ghost invariant = { IsName };

    ghost inverse = { name_fields };

    ghost inverse_ok = { name_fields-name_bytes };
}

impl FileName {
    /// A name of 1 to 16 bytes.
    pub fn new(from: &[u8]) -> FileName
        requires some { 1 ≤ length from.now }
        requires short { length from.now ≤ 16 }
        ensures { result ≡ from.now }
    {
        let mut bytes = [0; 16];
        bytes[..from.len()].copy_from_slice(from);
        FileName {
            len: from.len() as u8,
            bytes,
        }
    }

    /// The bytes of the name.
    pub fn bytes(&self) -> &[u8]
        ensures bytes { result.now ≡ self.now }
        ensures some { 1 ≤ length self.now }
        ensures short { length self.now ≤ 16 }
    {
        &self.bytes[..self.len as usize]
    }
}
