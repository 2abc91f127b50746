//! The memory of a core: one region, cut into stretches that have one owner each.
//!
//! A `Stretch` takes no memory: its owner has the address.
ghost use Rattle.std.specs.Prelude.{◌≡◌, ℕ, ◌+◌, ◌*◌, ◌^◌, ◌<◌, ◌≤◌, List, ◌++◌, length, take, drop};
ghost use Rattle.std.specs.Borrow.{sem};
ghost use Rattle.std.specs.Vec.{with_items};
ghost use base.Fml.{ftrue, fex, fall, fwand, fsep, feq};
ghost use denote.RawPtr.{Ptr, InBlock, ◌+ₚ◌};
ghost use Rattle.core_arena.specs.Ownership.{VecBytes, vec_bytes_code, stretch_owns, stretch_lent, vec_owns_bytes};

use crate::FRAME_BYTES;
use std::alloc::Allocator;
use std::marker::{Model, Move, Owns};
use std::slice;

/// Where a core's frames lie, and how many there are. It owns nothing.
#[derive(Clone, Copy)]
pub struct Region {
    pub(crate) base: *mut u8,
    pub(crate) frames: u32,
}

unsafe impl Send for Region {}

unsafe impl Sync for Region {}

impl Region {
    /// Where a frame begins.
    pub(crate) fn at(self, i: u32) -> *mut u8
        requires { InBlock self.base }
        ensures { result ≡ self.base +ₚ i * 4096 }
    {
        unsafe { self.base.byte_add(i as usize * FRAME_BYTES) }
    }
}

/// Bytes in a row, which nobody else reaches. Dropped, they are kept for good.
#[derive(Drop)]
pub struct Stretch {
    ghost at: { Ptr },
    ghost bytes: { List ℕ },
}

impl Model for Stretch {
    ghost also_owns = { λ s. stretch_owns s.at s.bytes };

    ghost also_shares = { λ s _ κ. stretch_lent s.at s.bytes κ };
}

unsafe impl Send for Stretch {}

unsafe impl Sync for Stretch {}

/// The vector that a region came from, without its bytes.
pub struct Shell<A: Allocator> {
    vec: Vec<u8, A>,
}

impl<A: Allocator> Owns for Shell<A> {
    ghost Value = { VecBytes };

    ghost coded = { vec_bytes_code };

    ghost shr_at = { λ _ _ _. ftrue };
}

impl<A: Allocator> Move for Shell<A> {
    ghost own_val = { λ e vs. fex Inside (λ v. fsep (feq ℕ v.vec.len e.len)
        (fall (List ℕ) (λ xs. fwand (fsep (feq ℕ (length xs) e.len) (vec_owns_bytes e.at xs))
        (Fields.own_val (record { vec = with_items v.vec xs }) vs)))) };
}

unsafe impl<A: Allocator + Send> Send for Shell<A> {}

unsafe impl<A: Allocator> Sync for Shell<A> {}

/// Takes the bytes out of a vector.
pub(crate) fn detach<A: Allocator>(vec: Vec<u8, A>) -> (Stretch, Shell<A>)
    requires { 0 < vec.len }
    ensures { (result.0.at ≡ vec.ptr) × (result.0.bytes ≡ vec.items)
        × (result.1.at ≡ vec.ptr) × (result.1.len ≡ vec.len) × InBlock vec.ptr }
{
    (Stretch {}, Shell { vec })
}

/// Puts all the bytes back.
pub(crate) fn attach<A: Allocator>(stretch: Stretch, shell: Shell<A>) -> Vec<u8, A>
    requires { (stretch.at ≡ shell.at) × (length stretch.bytes ≡ shell.len) }
    ensures { result.items ≡ stretch.bytes }
{
    let Stretch {} = stretch;
    let Shell { vec } = shell;
    vec
}

impl Stretch {
    ghost use Rattle.core_arena.specs.StretchLends.{lends_stretch};

    /// Its first bytes, and the others.
    pub(crate) fn cut(self, mid: usize) -> (Stretch, Stretch)
        requires { mid ≤ length self.bytes }
        ensures { (result.0.at ≡ self.at) × (result.0.bytes ≡ take mid self.bytes)
            × (result.1.at ≡ self.at +ₚ mid) × (result.1.bytes ≡ drop mid self.bytes) }
    {
        let Stretch {} = self;
        (Stretch {}, Stretch {})
    }

    /// The stretch with the one behind it.
    pub(crate) fn join(self, next: Stretch) -> Stretch
        requires { next.at ≡ self.at +ₚ length self.bytes }
        ensures { (result.at ≡ self.at) × (result.bytes ≡ self.bytes ++ next.bytes) }
    {
        let Stretch {} = self;
        let Stretch {} = next;
        Stretch {}
    }

    /// A frame's bytes, to be written.
    pub(crate) fn bytes_mut(&mut self, at: *mut u8) -> &mut [u8]
        requires { (at ≡ self.old.at) × InBlock at × (length self.old.bytes ≡ 4096) }
        ensures* writes_back { sem 𝓛 (lends_stretch self.entry result) }
        ensures value { result.now ≡ self.old.bytes }
    {
        unsafe { slice::from_raw_parts_mut(at, FRAME_BYTES) }
    }

    /// A frame's bytes.
    pub(crate) fn bytes(&self, at: *const u8) -> &[u8]
        requires { (at ≡ self.now.at) × InBlock at × (length self.now.bytes ≡ 4096) }
        ensures { result.now ≡ self.now.bytes }
    {
        unsafe { slice::from_raw_parts(at, FRAME_BYTES) }
    }
}
