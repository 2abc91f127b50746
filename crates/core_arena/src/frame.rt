ghost use Rattle.std.specs.Prelude.{◌≡◌, length};
ghost use Rattle.std.specs.Borrow.{sem};
ghost use Rattle.core_arena.specs.FrameLends.{lends_frame};

use crate::region::{Region, Stretch};
use std::marker::Model;

/// A frame that was taken out of its core. Whoever has it owns its bytes, on any thread. There is no
/// second one of the same number; dropped, it never comes home, and its core's region is kept for good.
#[derive(Drop)]
pub struct Frame {
    pub(crate) region: Region,
    pub(crate) number: u32,
    pub(crate) page: Stretch,
}

impl Model for Frame {
    ghost use Rattle.core_arena.specs.Seen.{FrameSeen};
    ghost use Rattle.core_arena.specs.Origin.{origin_of};
    ghost use Rattle.core_arena.specs.Pages.{IsSoundFrame};

    ghost Value = { FrameSeen };

    ghost view = { λ f. record {
      origin = origin_of f.region.base f.region.frames;
      number = f.number;
      bytes = f.page.bytes;
    } };

    ghost invariant = { λ f. IsSoundFrame f.region.base f.region.frames f.number f.page };
}

impl Frame {
    /// The frame's number in its core.
    pub fn number(&self) -> u32
        ensures { result ≡ self.now.number }
    {
        self.number
    }

    /// The frame's 4096 bytes.
    pub fn bytes(&self) -> &[u8]
        ensures value { result.now ≡ self.now.bytes }
        ensures size { length result.now ≡ 4096 }
    {
        self.page.bytes(self.region.at(self.number).cast_const())
    }

    /// The frame's 4096 bytes, to be written.
    pub fn bytes_mut(&mut self) -> &mut [u8]
        ensures* writes_back { sem 𝓛 (lends_frame self.entry result) }
        ensures value { result.now ≡ self.old.bytes }
        ensures size { length result.now ≡ 4096 }
    {
        let at = self.region.at(self.number);
        self.page.bytes_mut(at)
    }
}
