ghost use Rattle.std.specs.Prelude.{◌≡◌, ◌+◌, ◌*◌, ◌<◌, ◌≤◌, length, replicate, Some, None, IsSome, IfOk, IfSome, is_some, unwrap_or, slice_set, []};
ghost use Rattle.std.specs.Borrow.{sem};
ghost use Rattle.std.specs.Option.{option_copied};
ghost use denote.RawPtr.{◌+ₚ◌};
ghost use Rattle.core_arena.specs.Bytes.{bytes_at, bytes_with_piece, zeros, all_bytes};
ghost use Rattle.core_arena.specs.CoreLends.{lends_home};
ghost use Rattle.core_arena.specs.Pages.{pages_seen};
ghost use Rattle.core_arena.specs.Rows.{AreInPlace};

use crate::region::{Region, Shell, Stretch, attach, detach};
use crate::rows::whole;
use crate::{FRAME_BYTES, Frame, OutOfMemory};
use std::alloc::Global;
use std::marker::Model;
use std::mem::ManuallyDrop;

/// Core memory: a region of so many frames, numbered from 0, each home or away. Dropped with all of
/// them home it frees the region, and otherwise keeps it for good.
pub struct Core {
    region: Region,
    pages: Vec<Option<Stretch>>,
    shell: Option<Shell<Global>>,
}

impl Model for Core {
    ghost use Rattle.core_arena.specs.Seen.{CoreSeen};
    ghost use Rattle.core_arena.specs.Origin.{origin_of};
    ghost use Rattle.core_arena.specs.Pages.{pages_seen, IsSoundCore};

    ghost Value = { CoreSeen };

    ghost view = { λ c. record {
      origin = origin_of c.region.base c.region.frames;
      frames = pages_seen c.pages.items;
    } };

    ghost invariant = { λ c. IsSoundCore c.region.base c.region.frames c.pages.items c.shell };
}

impl Core {
    /// A core of so many frames, all home, whose bytes are zeros. The time grows with their number.
    pub fn new(alloc: Global, frames: u32) -> Result<Core, OutOfMemory>
        ensures { IfOk result (λ core. core.frames ≡ replicate frames (Some zeros)) }
    {
        let mut pages = Vec::with_capacity(alloc, frames as usize)?;
        let mut bytes = zero_bytes(alloc, frames as usize * FRAME_BYTES)?;
        let base = bytes.as_mut_ptr();
        let region = Region { base, frames };
        if frames == 0 {
            return Ok(Core {
                region,
                pages,
                shell: None,
            });
        }
        let (mut rest, shell) = detach(bytes);
        for _made in 0..frames {
            let (page, behind) = rest.cut(FRAME_BYTES);
            pages.push_reserved(Some(page));
            rest = behind;
        }
        Ok(Core {
            region,
            pages,
            shell: Some(shell),
        })
    }

    /// Whether a frame is home.
    pub fn is_home(&self, i: u32) -> bool
        requires { i < length self.now.frames }
        ensures { result ≡ is_some (bytes_at self.now.frames i) }
    {
        self.pages[i as usize].is_some()
    }

    /// The 4096 bytes of a frame that is home.
    pub fn bytes(&self, i: u32) -> &[u8]
        requires { IsSome (bytes_at self.now.frames i) }
        ensures value { bytes_at self.now.frames i ≡ Some result.now }
        ensures size { length result.now ≡ 4096 }
    {
        match &self.pages[i as usize] {
            Some(page) => page.bytes(self.region.at(i).cast_const()),
            None => unreachable!(),
        }
    }

    /// The 4096 bytes of a frame that is home, to be written.
    pub fn bytes_mut(&mut self, i: u32) -> &mut [u8]
        requires { IsSome (bytes_at self.old.frames i) }
        ensures* writes_back { sem 𝓛 (lends_home self.entry i result) }
        ensures value { bytes_at self.old.frames i ≡ Some result.now }
        ensures size { length result.now ≡ 4096 }
    {
        let at = self.region.at(i);
        match self.pages[i as usize].as_mut() {
            Some(page) => page.bytes_mut(at),
            None => unreachable!(),
        }
    }

    /// The bytes of all frames in rising order; None exactly where a frame is away. The time grows
    /// with the number of frames, and no byte is read.
    pub fn all(&self) -> Option<&[u8]>
        ensures bytes { option_copied result ≡ all_bytes self.now.frames }
        ensures size { IfSome result (λ all. length all.now ≡ length self.now.frames * 4096) }
    {
        if !are_home(&self.pages) {
            return None;
        }
        if self.region.frames == 0 {
            return Some(&[]);
        }
        let size = self.region.frames as usize * FRAME_BYTES;
        Some(whole(&self.pages, self.region.base.cast_const(), size))
    }

    /// Writes a piece over the bytes of a frame that is home, from byte `at` of the frame on.
    pub fn write(&mut self, i: u32, at: u32, from: &[u8])
        requires home { IsSome (bytes_at self.old.frames i) }
        requires within { at + length from.now ≤ 4096 }
        ensures { self.new ≡ record self.old {
          frames = slice_set self.old.frames i
              (Some (bytes_with_piece (unwrap_or (bytes_at self.old.frames i) []) at from.now));
        } }
    {
        let at = at as usize;
        self.bytes_mut(i)[at..at + from.len()].copy_from_slice(from);
    }

    /// Takes a frame out, with its bytes. They aren't copied.
    pub fn take(&mut self, i: u32) -> Frame
        requires { IsSome (bytes_at self.old.frames i) }
        ensures origin { result.origin ≡ self.old.origin }
        ensures number { result.number ≡ i }
        ensures bytes { bytes_at self.old.frames i ≡ Some result.bytes }
        ensures new { self.new ≡ record self.old { frames = slice_set self.old.frames i None } }
    {
        match self.pages[i as usize].take() {
            Some(page) => Frame {
                region: self.region,
                number: i,
                page,
            },
            None => unreachable!(),
        }
    }

    /// Puts a frame back, with its bytes. They aren't copied.
    pub fn put(&mut self, f: Frame)
        requires { f.origin ≡ self.old.origin }
        ensures within { f.number < length self.old.frames }
        ensures size { length f.bytes ≡ 4096 }
        ensures new { self.new ≡ record self.old {
          frames = slice_set self.old.frames f.number (Some f.bytes);
        } }
    {
        let Frame {
            region: _,
            number,
            page,
        } = f;
        self.pages[number as usize] = Some(page);
    }
}

impl Drop for Core {
    fn drop(self) {
        let Core {
            region,
            pages,
            shell,
        } = self;
        if let Some(shell) = shell {
            match joined(region, pages) {
                Some(bytes) => drop(attach(bytes, shell)),
                None => {
                    let _kept = unsafe { ManuallyDrop::new_unchecked(shell) };
                }
            }
        }
    }
}

// The bytes that are made zeros at once. The C library writes so many by vectors; more of them it writes by an instruction that takes
// long to begin, and that is counted once a byte.
const PIECE_BYTES: usize = 2048;

fn zero_bytes(alloc: Global, size: usize) -> Result<Vec<u8>, OutOfMemory>
    ensures { IfOk result (λ bytes. bytes.items ≡ replicate size 0) }
{
    let mut bytes = Vec::with_capacity(alloc, size)?;
    while bytes.len() < size {
        let more = usize::min(size - bytes.len(), PIECE_BYTES);
        bytes.resize(bytes.len() + more, 0)?;
    }
    Ok(bytes)
}

/// Whether all pages are home.
fn are_home(pages: &[Option<Stretch>]) -> bool
    ensures { result ≡ is_some (all_bytes (pages_seen pages.now)) }
{
    for page in pages {
        if page.is_none() {
            return false;
        }
    }
    true
}

/// The whole region, if all its pages are home.
fn joined(region: Region, mut pages: Vec<Option<Stretch>>) -> Option<Stretch>
    requires { AreInPlace region.base pages.items }
    ensures { IfSome result (λ whole. (whole.at ≡ region.base)
        × (length whole.bytes ≡ length pages.items * 4096)) }
{
    let mut whole = pages.pop()??;
    while let Some(page) = pages.pop() {
        whole = page?.join(whole);
    }
    Some(whole)
}
