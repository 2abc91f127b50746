//! A queue of frames, from which any frame is taken at once: a doubly linked list by number of frame.

ghost use Rattle.std.specs.Prelude.{◌≡◌, ◌≢◌, ℕ, ◌<◌, ◌↔◌, ◌++◌, ◌∷◌, [], List, length, Option, Some, None, IsTrue, IfOk, Contains};
ghost use Rattle.std.specs.Option.{ForSome};
ghost use Rattle.page_lists.specs.ListsSeen.{first_listed, without_frame};
ghost use Rattle.page_lists.specs.Ring.{QueueSeen, IsQueue, follow};

use filled::filled;
use std::alloc::{AllocError, Global};
use std::marker::Model;

/// Frames in order, none twice.
#[derive(Drop)]
pub struct FrameQueue {
    first: Option<u32>,
    last: Option<u32>,
    next: Vec<Option<u32>>,
    previous: Vec<Option<u32>>,
    listed: Vec<bool>,
}

impl Model for FrameQueue {
    ghost use Rattle.page_lists.specs.Ring.{QueueSeen, IsSoundQueue, queue_of};

    ghost Value = { QueueSeen };

    ghost view = { λ q. queue_of q.first q.next.items };

    ghost invariant = { λ q. IsSoundQueue q.first q.last q.next.items q.previous.items q.listed.items
        (queue_of q.first q.next.items).order };
}

/// Leads the link at a place elsewhere: that of a frame, or where the place is none, the end of the queue.
fn set_link(end: &mut Option<u32>, links: &mut Vec<Option<u32>>, at: Option<u32>, to: Option<u32>)
    requires { ForSome at (λ frame. frame < length links.old.items) }
    ensures there { follow end.new links.new.items at ≡ to }
    ensures elsewhere { (other : Option ℕ) → other ≢ at
        → follow end.new links.new.items other ≡ follow end.old links.old.items other }
    ensures lengths { length links.new.items ≡ length links.old.items }
{
    match at {
        None => *end = to,
        Some(frame) => links[frame as usize] = to,
    }
}

impl FrameQueue {
    /// An empty queue for so many frames.
    pub fn new(alloc: Global, frames: u32) -> Result<FrameQueue, AllocError>
        ensures { IfOk result (λ queue. queue ≡ record { frames = frames; order = [] }) }
    {
        let count = frames as usize;
        Ok(FrameQueue {
            first: None,
            last: None,
            next: filled(alloc, None, count)?,
            previous: filled(alloc, None, count)?,
            listed: filled(alloc, false, count)?,
        })
    }

    /// Whether a frame is on the queue.
    pub fn contains(&self, frame: u32) -> bool
        requires { frame < self.now.frames }
        ensures { IsTrue result ↔ Contains self.now.order frame }
    {
        self.listed[frame as usize]
    }

    /// Whether no frame is on the queue.
    pub fn is_empty(&self) -> bool
        ensures { IsTrue result ↔ (self.now.order ≡ []) }
    {
        self.first.is_none()
    }

    /// The first frame; None where there is none.
    pub fn first(&self) -> Option<u32>
        ensures { result ≡ first_listed self.now.order [] }
    {
        self.first
    }

    /// Puts a frame that isn't on the queue at its end.
    pub fn push_back(&mut self, frame: u32)
        requires within { frame < self.old.frames }
        requires absent { ¬ Contains self.old.order frame }
        ensures new { self.new ≡ record self.old { order = self.old.order ++ frame ∷ [] } }
        ensures queue { IsQueue self.new }
    {
        let before = self.last;
        set_link(&mut self.first, &mut self.next, before, Some(frame));
        self.next[frame as usize] = None;
        self.previous[frame as usize] = before;
        self.last = Some(frame);
        self.listed[frame as usize] = true;
    }

    /// Takes a frame off the queue, wherever it is; false where it isn't there.
    pub fn remove(&mut self, frame: u32) -> bool
        requires { frame < self.old.frames }
        ensures removed { IsTrue result ↔ Contains self.old.order frame }
        ensures new { self.new ≡ record self.old { order = without_frame self.old.order frame } }
        ensures queue { IsQueue self.new }
    {
        if !self.listed[frame as usize] {
            return false;
        }
        let before = self.previous[frame as usize];
        let after = self.next[frame as usize];
        set_link(&mut self.first, &mut self.next, before, after);
        set_link(&mut self.last, &mut self.previous, after, before);
        self.listed[frame as usize] = false;
        true
    }

    /// Takes the first frame off the queue.
    pub fn pop_front(&mut self) -> Option<u32>
        ensures none { result ≡ None → (self.old.order ≡ []) × (self.new ≡ self.old) }
        ensures first { ForSome result (λ frame. self.old
            ≡ record self.new { order = frame ∷ self.new.order }) }
        ensures queue { IsQueue self.new }
    {
        let frame = self.first?;
        self.remove(frame);
        Some(frame)
    }
}
