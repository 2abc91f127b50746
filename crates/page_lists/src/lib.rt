//! The free list and the cache list of a machine's frames.
//!
//! A frame on the free list holds nothing. A frame on the cache list still holds a page and can be reclaimed by it. A frame that
//! is in use is on neither. Each call but `new` takes constant time and no memory.
#![tactic(auto)]

mod queue;

ghost use Rattle.std.specs.Prelude.{◌≡◌, ◌≢◌, ℕ, ◌<◌, ◌⊎◌, ◌↔◌, ◌++◌, ◌∷◌, [], List, Option, IsTrue, IsNone, IfOk, Contains};
ghost use Rattle.std.specs.List.{range_with_len};
ghost use Rattle.page_lists.specs.ListsSeen.{ListsSeen, IsListed, AreApart, first_listed, without_frame};
ghost use Rattle.page_lists.specs.Takes.{TakesFirst};

use queue::FrameQueue;
use std::alloc::{AllocError, Global};
use std::marker::Model;

/// A frame that was taken, and whether it came from the cache list, where it still holds a page.
#[derive(Clone, Copy, PartialEq, Eq, Debug)]
pub struct Taken {
    pub frame: u32,
    pub cached: bool,
}

/// Two lists of frames, without a common frame.
#[derive(Drop)]
pub struct PageLists {
    free: FrameQueue,
    cached: FrameQueue,
}

impl Model for PageLists {
    ghost use Rattle.std.specs.Prelude.{◌≡◌};
    ghost use Rattle.page_lists.specs.ListsSeen.{ListsSeen};

    ghost Value = { ListsSeen };

    ghost use Rattle.page_lists.specs.Lists.{lists_of, AreSoundLists};

    ghost view = { λ l. lists_of l.free l.cached };

    ghost invariant = { λ l. AreSoundLists l.free l.cached };
}

impl PageLists {
    /// All of so many frames free, in rising order. The time is proportional to the count of frames.
    pub fn new(alloc: Global, frames: u32) -> Result<PageLists, AllocError>
        ensures all_free { IfOk result (λ lists. lists ≡ record {
          frames = frames;
          free = range_with_len 0 frames;
          cached = [];
        }) }
        ensures apart { IfOk result AreApart }
    {
        let mut free = FrameQueue::new(alloc, frames)?;
        let cached = FrameQueue::new(alloc, frames)?;
        for frame in 0..frames {
            free.push_back(frame);
        }
        Ok(PageLists { free, cached })
    }

    /// Whether a frame is on one of the lists.
    pub fn listed(&self, frame: u32) -> bool
        requires { frame < self.now.frames }
        ensures listed { IsTrue result ↔ IsListed self.now frame }
        ensures apart { AreApart self.now }
    {
        self.free.contains(frame) || self.cached.contains(frame)
    }

    /// Whether a frame can be taken.
    pub fn is_available(&self) -> bool
        ensures available { IsTrue result ↔ ((self.now.free ≢ []) ⊎ (self.now.cached ≢ [])) }
        ensures apart { AreApart self.now }
    {
        !self.free.is_empty() || !self.cached.is_empty()
    }

    /// The frame that is taken next: the first free one, or where none is free the first cached one.
    pub fn first_listed(&self) -> Option<u32>
        ensures next { result ≡ first_listed self.now.free self.now.cached }
        ensures apart { AreApart self.now }
    {
        match self.free.first() {
            Some(frame) => Some(frame),
            None => self.cached.first(),
        }
    }

    /// Puts a frame at the end of the free list.
    pub fn free(&mut self, frame: u32)
        requires within { frame < self.old.frames }
        requires unlisted { ¬ IsListed self.old frame }
        ensures new { self.new ≡ record self.old { free = self.old.free ++ frame ∷ [] } }
        ensures apart { AreApart self.new }
    {
        self.free.push_back(frame);
    }

    /// Puts a frame at the end of the cache list.
    pub fn cache(&mut self, frame: u32)
        requires within { frame < self.old.frames }
        requires unlisted { ¬ IsListed self.old frame }
        ensures new { self.new ≡ record self.old { cached = self.old.cached ++ frame ∷ [] } }
        ensures apart { AreApart self.new }
    {
        self.cached.push_back(frame);
    }

    /// Takes a frame off the cache list, for the page that it holds; false where it isn't there.
    pub fn reclaim(&mut self, frame: u32) -> bool
        requires { frame < self.old.frames }
        ensures cached { IsTrue result ↔ Contains self.old.cached frame }
        ensures new { self.new ≡ record self.old { cached = without_frame self.old.cached frame } }
        ensures otherwise_same { ¬ Contains self.old.cached frame → self.new ≡ self.old }
        ensures apart { AreApart self.new }
    {
        self.cached.remove(frame)
    }

    /// Takes the first free frame, or where none is free the first cached one.
    pub fn take(&mut self) -> Option<Taken>
        ensures first { TakesFirst self.old self.new result }
        ensures none { IsNone result ↔ ((self.old.free ≡ []) × (self.old.cached ≡ [])) }
        ensures frames { self.new.frames ≡ self.old.frames }
        ensures apart { AreApart self.new }
    {
        if let Some(frame) = self.free.pop_front() {
            return Some(Taken {
                frame,
                cached: false,
            });
        }
        let frame = self.cached.pop_front()?;
        Some(Taken {
            frame,
            cached: true,
        })
    }
}
