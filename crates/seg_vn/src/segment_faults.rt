//! Faults of segments of any mapping.
ghost use Rattle.std.specs.Prelude.{◌≡◌, ◌≤◌, ◌<◌, ◌-◌, None, Some};
ghost use Rattle.seg_ops.specs.vm_world.Segments.{own_slot};
ghost use Rattle.seg_ops.specs.vm_world.Words.{IsKnown, TwoAreHome, SameFiles};
ghost use Rattle.seg_ops.specs.Faults.{FaultServedAt, IsAllowed, IsFitAt};
ghost use Rattle.seg_vn.specs.FaultPlaces.{IsFaultAt, ServesAt, faulted_spot, IsZerosAt, ServesZeros};

use crate::copy_faults::{OwnPlace, fault_copy, own_zeros};
use crate::faults::{fault_page, fault_zeros};
use crate::segment::VnSeg;
use crate::shown::Shown;
use seg_ops::{Disk, Fault, Kind, PageName, SWAP_OBJECT, Wants, World};

/// A fault at a page of a process, which is this place of its segment; and whether it is a store's.
#[derive(Clone, Copy)]
pub(crate) struct PageFault {
    pub(crate) process: u32,
    pub(crate) page: u32,
    pub(crate) place: u32,
    pub(crate) write: bool,
}

impl VnSeg {
    /// A fault at a place that has a slot of its own.
    fn fault_slot<D: Disk>(
        &self,
        world: &mut World<D>,
        fault: PageFault,
        slot: u32,
    ) -> Result<Fault, Wants>
        requires allowed { IsAllowed fault.write self.now.prot }
        requires own { own_slot world.old.maps (faulted_spot self.now fault) ≡ Some slot }
        requires home { TwoAreHome world.old.store }
        requires fits { IsFaultAt world.old self.now fault }
        requires noted { IsKnown world.old }
        ensures serves { ServesAt world.old world.new self.now fault result }
        // What stays.
        ensures rest { SameFiles world.old world.new }
    {
        let object = SWAP_OBJECT;
        let name = PageName { object, page: slot };
        let Some(map) = self.own() else {
            unreachable!();
        };
        if world.anon.count(slot) == 1 {
            return fault_page(
                world,
                fault.process,
                fault.page,
                name,
                self.prot().can_write(),
            );
        }
        if !fault.write {
            return fault_page(world, fault.process, fault.page, name, false);
        }
        let own = OwnPlace {
            map,
            place: fault.place,
            slot: Some(slot),
        };
        fault_copy(world, fault.process, fault.page, name, own)
    }

    /// A fault at a place that shows zeros, for which this place of this map is.
    fn fault_empty<D: Disk>(
        &self,
        world: &mut World<D>,
        fault: PageFault,
        map: u32,
        place: u32,
    ) -> Result<Fault, Wants>
        requires allowed { IsAllowed fault.write self.now.prot }
        requires bare { own_slot world.old.maps (faulted_spot self.now fault) ≡ None }
        requires home { TwoAreHome world.old.store }
        requires fits { IsZerosAt world.old self.now fault map place }
        requires noted { IsKnown world.old }
        ensures serves { ServesZeros world.old world.new self.now fault map place result }
        // What stays.
        ensures rest { SameFiles world.old world.new }
    {
        let writable = self.prot().can_write();
        let Some(own) = self.own() else {
            return fault_zeros(world, fault.process, fault.page, map, place, writable);
        };
        let Some(_shown) = self.shown() else {
            return fault_zeros(world, fault.process, fault.page, map, place, writable);
        };
        if !fault.write {
            return fault_zeros(world, fault.process, fault.page, map, place, false);
        }
        own_zeros(
            world,
            fault.process,
            fault.page,
            OwnPlace {
                map: own,
                place: fault.place,
                slot: None,
            },
        )
    }

    /// A fault at a place that has no slot of its own.
    fn fault_object<D: Disk>(&self, world: &mut World<D>, fault: PageFault) -> Result<Fault, Wants>
        requires allowed { IsAllowed fault.write self.now.prot }
        requires bare { own_slot world.old.maps (faulted_spot self.now fault) ≡ None }
        requires home { TwoAreHome world.old.store }
        requires fits { IsFaultAt world.old self.now fault }
        requires noted { IsKnown world.old }
        ensures serves { ServesAt world.old world.new self.now fault result }
        // What stays.
        ensures rest { SameFiles world.old world.new }
    {
        let writable = self.prot().can_write();
        match self.object_page(world, fault.place) {
            Shown::Past => Ok(Fault::Past),
            Shown::Page(name) => match self.own() {
                None => fault_page(world, fault.process, fault.page, name, writable),
                Some(map) => {
                    if !fault.write {
                        return fault_page(world, fault.process, fault.page, name, false);
                    }
                    fault_copy(
                        world,
                        fault.process,
                        fault.page,
                        name,
                        OwnPlace {
                            map,
                            place: fault.place,
                            slot: None,
                        },
                    )
                }
            },
            Shown::Zeros(map, place) => self.fault_empty(world, fault, map, place),
        }
    }

    /// Loads the translation of a page of any mapping, or says what that needs: a page that is shown is brought home, one
    /// of zeros is made, and a store to a private page gives that a page of its own. `first` is the segment's first page
    /// in the space. Takes no memory and makes no disk call. Time: what `make_room` takes, and one page.
    #[inline(always)]
    pub fn fault<D: Disk>(
        &self,
        world: &mut World<D>,
        space: u32,
        first: u32,
        page: u32,
        write: bool,
    ) -> Result<Fault, Wants>
        requires low { first ≤ page }
        requires allowed { IsAllowed write self.now.prot }
        requires home { TwoAreHome world.old.store }
        requires fits { IsFitAt world.old space page (self.now, page - first) }
        requires noted { IsKnown world.old }
        ensures serves { FaultServedAt world.old world.new space page (self.now, page - first)
            write result }
        // What stays.
        ensures rest { SameFiles world.old world.new }
    {
        let at = page - first;
        let fault = PageFault {
            process: space,
            page,
            place: at,
            write,
        };
        match self.own_slot(world, at) {
            Some(slot) => self.fault_slot(world, fault, slot),
            None => self.fault_object(world, fault),
        }
    }
}
