//! Blocks of 4096 bytes.
ghost use Rattle.std.specs.Prelude.{◌≡◌, length, replicate};
ghost use Rattle.block_device.specs.DiskSeen.{IsBlock};
ghost use Rattle.block_device.specs.MemSeen.{torn_block};

/// The 4096 bytes of a block.
#[derive(Clone, Copy)]
pub struct Block {
    pub bytes: [u8; 4096],
    ghost full: { IsBlock bytes },
}

impl Block {
    /// A block of these bytes.
    pub fn new(bytes: [u8; 4096]) -> Block
        ensures { result.bytes ≡ bytes }
    {
        Block { bytes }
    }

    /// A block of zeros.
    pub fn zeros() -> Block
        ensures { result.bytes ≡ replicate 4096 0 }
    {
        Block::new([0; 4096])
    }

    // Replaces the bytes.
    pub(crate) fn write(&mut self, from: &[u8])
        requires { length from.now ≡ 4096 }
        ensures { self.new.bytes ≡ from.now }
    {
        self.bytes.copy_from_slice(from);
    }

    // Replaces the first half of the bytes.
    pub(crate) fn write_half(&mut self, from: &[u8])
        requires { length from.now ≡ 4096 }
        ensures { self.new.bytes ≡ torn_block self.old.bytes from.now }
    {
        let mut bytes = self.bytes;
        bytes[..2048].copy_from_slice(&from[..2048]);
        self.bytes = bytes;
    }
}
