//! Segments.
ghost use Rattle.std.specs.Prelude.{◌≡◌, ℕ, ◌+◌, ◌-◌, ◌<◌, ◌^◌};
ghost use Rattle.seg_ops.specs.page_hash.declared.PageName.{PageName};
ghost use Rattle.seg_ops.specs.page_store.Seen.{residence};
ghost use Rattle.seg_ops.specs.vm_types.Prot.{is_within};
ghost use Rattle.seg_ops.specs.vm_world.Serving.{ModifiesNone};
ghost use Rattle.seg_ops.specs.vm_world.Words.{IsFit, OnlyStoreAndHat};
ghost use Rattle.seg_ops.specs.vm_world.World.{world_seen};
ghost use Rattle.seg_ops.specs.Steps.{IsLoaded, KeepsWhereShown};

use seg_ops::{Disk, Kind, Object, PageName, Prot, Residence, Segment, World, pages_in, show};
use std::marker::Model;

/// A mapping of pages of a file or of zero memory.
#[derive(Drop)]
pub struct VnSeg {
    pub(crate) segment: Segment,
}

impl Model for VnSeg {
    ghost use Rattle.seg_ops.specs.vm_world.declared.segment.Segment.{Segment};
    ghost use Rattle.seg_vn.specs.Segments.{IsSoundSegment, segment_code};

    ghost Value = { Segment };

    ghost coded = { segment_code };

    ghost view = { λ s. s.segment };

    ghost invariant = { λ s. IsSoundSegment s.segment };
}

/// Loads the translation of a page that is home in this frame.
pub(crate) fn load_frame<D: Disk>(
    world: &mut World<D>,
    space: u32,
    page: u32,
    name: PageName,
    frame: u32,
    writable: bool,
)
    requires home { residence world.old.store name ≡ Residence.Home frame }
    requires fits { IsFit world.old }
    ensures loaded { IsLoaded world.new space page frame writable }
    ensures keeps { KeepsWhereShown world.old world.new space page name writable }
    // What stays.
    ensures names { world.new.store.names ≡ world.old.store.names }
    ensures modified { ModifiesNone (world_seen world.old) (world_seen world.new) }
    ensures rest { OnlyStoreAndHat world.old world.new }
{
    show(world, space, page, name, frame, writable);
}

/// The same, once its frame is found.
pub(crate) fn load_page<D: Disk>(
    world: &mut World<D>,
    space: u32,
    page: u32,
    name: PageName,
    writable: bool,
)
    requires home { (frame : ℕ) × (residence world.old.store name ≡ Residence.Home frame) }
    requires fits { IsFit world.old }
    ensures loaded { (frame : ℕ) × IsLoaded world.new space page frame writable }
    ensures keeps { KeepsWhereShown world.old world.new space page name writable }
    // What stays.
    ensures names { world.new.store.names ≡ world.old.store.names }
    ensures modified { ModifiesNone (world_seen world.old) (world_seen world.new) }
    ensures rest { OnlyStoreAndHat world.old world.new }
{
    let Residence::Home(frame) = world.store.resident(name) else {
        unreachable!();
    };
    load_frame(world, space, page, name, frame, writable);
}

impl VnSeg {
    /// A segment, which has a page at least.
    pub fn new(segment: Segment) -> VnSeg
        requires some { 0 < segment.pages }
        requires end { segment.index + segment.pages < 2 ^ 32 }
        ensures { result ≡ segment }
    {
        VnSeg { segment }
    }

    /// What may be done there.
    pub fn prot(&self) -> Prot
        ensures { result ≡ self.now.prot }
    {
        self.segment.prot
    }

    /// Whether Protect may allow this there.
    pub fn check_prot(&self, prot: Prot) -> bool
        ensures { result ≡ is_within prot self.now.max }
    {
        prot.is_within(self.segment.max)
    }

    /// The anon map of its private pages; None where it is shared.
    pub fn own(&self) -> Option<u32>
        ensures { result ≡ self.now.own }
    {
        self.segment.own
    }

    /// The anon map of the zero object that it shows; None where there is none.
    pub fn shown(&self) -> Option<u32>
        ensures { result ≡ self.now.shown }
    {
        self.segment.shown
    }

    /// How many pages it has.
    pub fn pages(&self) -> u32
        ensures pages { result ≡ self.now.pages }
        ensures some { 0 < result }
    {
        self.segment.pages
    }

    /// The object of a place, and the page of it that the place shows.
    pub fn object(&self, at: u32) -> (Object, u32)
        requires { at < self.now.pages }
        ensures object { result.0 ≡ self.now.object }
        ensures index { result.1 ≡ self.now.index + at }
    {
        (self.segment.object, self.segment.index + at)
    }
}
