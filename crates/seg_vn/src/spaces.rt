//! The spaces of the processes that are alive.
ghost use Rattle.std.specs.Prelude.{◌≡◌, ◌≤◌, None, IfOk, option_map};
ghost use Rattle.std.specs.Borrow.{sem};
ghost use Rattle.std.specs.FinMap as finite;

use crate::segment::VnSeg;
use seg_ops::Ranges;
use std::alloc::{AllocError, Global};
use std::marker::Model;

/// The address space of each process that is alive, by the process's number: from 1 to a most one.
///
/// It is seen as the finite map from these numbers to the parts of their spaces, and the most number.
#[derive(Drop)]
pub struct Spaces {
    // The space of each process at its number; no process has the number 0.
    list: Vec<Option<Ranges<VnSeg>>>,
}

impl Model for Spaces {
    ghost use Rattle.std.specs.Prelude.{◌-◌, length};
    ghost use Rattle.seg_vn.specs.Spaces.{SpacesSeen, spaces_code, spaces_from};

    ghost Value = { SpacesSeen };

    ghost coded = { spaces_code };

    ghost view = { λ s. record {
      spaces = spaces_from 0 s.list.items;
      processes = length s.list.items - 1;
    } };
}

impl Spaces {
    ghost use Rattle.seg_vn.specs.Lends.{lends_space};

    /// No process is alive. Takes the room for as many as there are: the only error is want of memory.
    pub fn new(alloc: Global, processes: u32) -> Result<Spaces, AllocError>
        ensures empty { IfOk result (λ spaces. spaces.spaces ≡ finite.empty) }
        ensures processes { IfOk result (λ spaces. spaces.processes ≡ processes) }
    {
        let places = processes as usize + 1;
        let mut list = Vec::with_capacity(alloc, places)?;
        for _place in 0..places {
            list.push_reserved(None);
        }
        Ok(Spaces { list })
    }

    /// The space of a process; None where it isn't alive. Constant time.
    pub fn get(&self, process: u32) -> Option<&Ranges<VnSeg>>
        ensures { option_map (λ space. space.now.parts) result
            ≡ finite.get self.now.spaces process }
    {
        self.list.get(process as usize)?.as_ref()
    }

    /// The space of a process, to write to; None where it isn't alive. What is written changes that space alone.
    /// Constant time.
    pub fn get_mut(&mut self, process: u32) -> Option<&mut Ranges<VnSeg>>
        ensures* writes_back { sem 𝓛 (lends_space self.entry process result) }
        ensures found { option_map (λ space. space.now.parts) result
            ≡ finite.get self.old.spaces process }
    {
        self.list.get_mut(process as usize)?.as_mut()
    }

    /// A process is alive from now on, with this space. Takes no memory. Constant time.
    pub fn insert(&mut self, process: u32, space: Ranges<VnSeg>)
        requires first { 1 ≤ process }
        requires last { process ≤ self.old.processes }
        requires absent { finite.get self.old.spaces process ≡ None }
        ensures spaces { self.new.spaces ≡ finite.insert self.old.spaces process space.parts }
        ensures processes { self.new.processes ≡ self.old.processes }
    {
        self.list[process as usize] = Some(space);
    }

    /// Takes the space of a process out; None where it isn't alive. Constant time.
    pub fn remove(&mut self, process: u32) -> Option<Ranges<VnSeg>>
        ensures taken { option_map (λ space. space.parts) result
            ≡ finite.get self.old.spaces process }
        ensures spaces { self.new.spaces ≡ finite.remove self.old.spaces process }
        ensures processes { self.new.processes ≡ self.old.processes }
    {
        self.list.get_mut(process as usize)?.take()
    }
}
