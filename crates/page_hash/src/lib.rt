//! Names of pages in memory: which frame holds a page, and which page a frame holds.
//!
//! A page is named by its object, a file or swap, and its number there. No two frames hold one
//! name. Each call but `new` takes constant expected time and no memory.
#![tactic(auto)]

ghost use Rattle.std.specs.Prelude.{◌≡◌, ◌≢◌, ℕ, ◌+◌, ◌<◌, ◌≤◌, ◌↔◌, List, length, replicate, Option, Some, None, IfOk, IfSome, slice_set};
ghost use Rattle.page_hash.specs.Names.{name_at, is_name, find, without_name, AreDistinct};
ghost use Rattle.page_hash.specs.Index.{Finds};

use filled::filled;
use hash_chains::{Chains, slot_of_pair};
use std::alloc::{AllocError, Global};
use std::marker::Model;

/// A page by its object and its number there.
///
/// Objects 0 to 63 are files, whose pages are counted from the file's first byte. Object 64 is
/// swap, with the slot as page; slot s is block s of the swap disk.
#[derive(Clone, Copy, PartialEq, Eq, Debug)]
pub struct PageName {
    pub object: u32,
    pub page: u32,
}

/// The names that frames hold, by frame.
#[derive(Drop)]
pub struct PageHash {
    names: Vec<Option<PageName>>,
    chains: Chains,
    slots: u32,
}

impl Model for PageHash {
    ghost use Rattle.std.specs.Prelude.{List, Option};
    ghost use Rattle.page_hash.specs.declared.PageName.{PageName};

    ghost Value = { List (Option PageName) };

    ghost use Rattle.page_hash.specs.Index.{IsSoundPageHash};

    ghost view = { λ h. h.names.items };

    ghost invariant = { λ h. IsSoundPageHash h.names.items h.slots h.chains };
}

fn is_name(held: Option<PageName>, name: PageName) -> bool
    ensures { result ≡ is_name held name }
{
    match held {
        Some(held) => held.object == name.object && held.page == name.page,
        None => false,
    }
}

impl PageHash {
    /// So many frames, none with a name. The time is proportional to the count of frames.
    pub fn new(alloc: Global, frames: u32) -> Result<PageHash, AllocError>
        ensures empty { IfOk result (λ hash. hash ≡ replicate frames None) }
        ensures one_to_one { IfOk result AreDistinct }
    {
        let slots = if frames == 0 { 1 } else { frames };
        Ok(PageHash {
            names: filled(alloc, None, frames as usize)?,
            chains: Chains::new(alloc, slots, frames)?,
            slots,
        })
    }

    /// The frame that holds a name, if one does.
    pub fn find(&self, name: PageName) -> Option<u32>
        ensures first { result ≡ find self.now name }
        ensures holds { (frame : ℕ) → (result ≡ Some frame) ↔ (name_at self.now frame ≡ Some name) }
        ensures one_to_one { AreDistinct self.now }
    {
        self.holder(name)
    }

    // The frame that holds a name, in constant expected time.
    fn holder(&self, name: PageName) -> Option<u32>
        ensures found { Finds self.now name result }
        ensures one_to_one { AreDistinct self.now }
    {
        let slot = slot_of_pair(name.object, name.page, self.slots);
        let mut at = self.chains.first(slot);
        while let Some(frame) = at {
            if is_name(self.names[frame as usize], name) {
                return Some(frame);
            }
            at = self.chains.after(frame);
        }
        None
    }

    /// The name that a frame holds, if it holds one.
    pub fn name_of(&self, frame: u32) -> Option<PageName>
        requires { frame < length self.now }
        ensures held { result ≡ name_at self.now frame }
        ensures leads_here { IfSome result (λ name. find self.now name ≡ Some frame) }
        ensures one_to_one { AreDistinct self.now }
    {
        let place = frame as usize;
        self.names[place]
    }

    /// Gives a name that no frame holds to a frame that holds none.
    pub fn enter(&mut self, name: PageName, frame: u32)
        requires within { frame < length self.old }
        requires absent { find self.old name ≡ None }
        requires empty { name_at self.old frame ≡ None }
        ensures new { self.new ≡ slice_set self.old frame (Some name) }
        ensures found { find self.new name ≡ Some frame }
        // What stays.
        ensures others { (other : PageName) → other ≢ name → find self.new other
            ≡ find self.old other }
        ensures one_to_one { AreDistinct self.new }
    {
        self.names[frame as usize] = Some(name);
        self.chains
            .link(frame, slot_of_pair(name.object, name.page, self.slots));
    }

    /// Takes a name from the frame that holds it, and gives that frame.
    pub fn remove(&mut self, name: PageName) -> Option<u32>
        ensures frame { result ≡ find self.old name }
        ensures new { self.new ≡ without_name self.old result }
        ensures gone { find self.new name ≡ None }
        ensures others { (other : PageName) → other ≢ name → find self.new other
            ≡ find self.old other }
        ensures one_to_one { AreDistinct self.new }
    {
        let frame = self.holder(name)?;
        self.names[frame as usize] = None;
        self.chains
            .unlink(frame, slot_of_pair(name.object, name.page, self.slots));
        Some(frame)
    }

    /// Takes from a frame the name that it holds, if it holds one. The frame needs no look for its name.
    pub fn forget(&mut self, frame: u32)
        requires { frame < length self.old }
        ensures new { self.new ≡ slice_set self.old frame None }
        ensures one_to_one { AreDistinct self.new }
    {
        let Some(name) = self.name_of(frame) else {
            return;
        };
        let at = frame as usize;
        self.names[at] = None;
        self.chains
            .unlink(frame, slot_of_pair(name.object, name.page, self.slots));
    }
}
