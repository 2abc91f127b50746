//! What an access reaches.
ghost use Rattle.std.specs.Prelude.{◌≡◌, ◌≤◌, ◌-◌, ◌%◌, ◌↔◌, ℕ, true, Some, IfSome, IfNone, IsTrue};
ghost use Rattle.std.specs.FinMap as finite;
ghost use Rattle.seg_vn.specs.hat_layer.Pool.{IsNoted, after_access, change_page, translation_at};
ghost use Rattle.seg_vn.specs.flat_model.Words as words;
ghost use Rattle.seg_vn.specs.page_store.Seen.{residence};
ghost use Rattle.seg_vn.specs.vm_types.Words.{IsWordSize};
ghost use Rattle.seg_vn.specs.vm_world.Segments.{Spaces, spot_at};
ghost use Rattle.seg_vn.specs.vm_world.Serving.{ModifiesOnly};
ghost use Rattle.seg_vn.specs.vm_world.Words.{memory, Fits, IsKnown, TwoAreHome, KeepsEveryPage, OnlyHat, SameFiles};
ghost use Rattle.seg_vn.specs.vm_world.World.{world_seen};
ghost use Rattle.seg_vn.specs.seg_ops.Faults.{IsFitAt, LetsAccess};
ghost use Rattle.fault_entry.specs.Reaching.{AccessServed, ServesAccess, may_access, step_wanting};
ghost use Rattle.fault_entry.specs.Accesses.{IsFitFor};
ghost use Rattle.fault_entry.specs.declared.access.AccessStep.TheVariants.{Reached};

use seg_vn::{
    Disk, Fault, Hold, Plan, Prot, Ranges, Residence, Signal, VnSeg, Wants, World, frame_for,
};

/// What an access comes to before its word is moved. It is flat, since a `Wants` or a `Result` in it would be cleared at each hit.
#[derive(Clone, Copy, PartialEq, Eq, Debug)]
pub(crate) enum AccessStep {
    /// It goes to this frame: the page has a translation that lets it, in which it was noted.
    Reached(u32),
    /// This signal is due.
    Refused(Signal),
    /// This transfer is needed first, and can begin.
    Need(Plan),
    /// It has to wait for this.
    Busy(Hold),
}

impl AccessStep {
    /// What must come first, as what an access comes to.
    fn wanting(wants: Wants) -> AccessStep
        ensures { result ≡ step_wanting wants }
    {
        match wants {
            Wants::Transfer(plan) => AccessStep::Need(plan),
            Wants::Seat(hold) => AccessStep::Busy(hold),
        }
    }
}

/// Whether a protection lets a load, or a store.
fn may_access(prot: Prot, write: bool) -> bool
    ensures { result ≡ may_access write prot }
{
    if write {
        prot.can_write()
    } else {
        prot.can_read()
    }
}

/// Notes an access that the page's translation lets, and answers the frame that it goes to.
fn noted<D: Disk>(world: &mut World<D>, space: u32, page: u32, write: bool) -> u32
    requires lets { LetsAccess (world_seen world.old) space page write }
    ensures noted { IsNoted world.new.hat.places space page result write }
    ensures translation { translation_at world.new.hat.places space page
        ≡ change_page space page (after_access write)
        (translation_at world.old.hat.places space page) }
    // Of a store, the page in that frame may be modified then.
    ensures modified { ModifiesOnly
        (λ name. (write ≡ true) × (residence world.old.store name ≡ Residence.Home result))
        (world_seen world.old) (world_seen world.new) }
    // What stays.
    ensures rest { OnlyHat world.old world.new }
    ensures keeps { KeepsEveryPage world.old world.new }
{
    match frame_for(world, space, page, write) {
        Some(frame) => frame,
        None => unreachable!(),
    }
}

/// An access whose page has no translation that lets it: the fault of its segment, whose first page is `first`, and then the
/// access is noted. Out of line, so that a hit keeps no room for what a fault answers.
#[inline(never)]
fn fault_in<D: Disk>(
    world: &mut World<D>,
    segment: &VnSeg,
    process: u32,
    first: u32,
    addr: u32,
    write: bool,
) -> AccessStep
    requires low { first ≤ words.page addr }
    requires allowed { may_access write segment.now.prot ≡ true }
    requires missed { ¬ LetsAccess (world_seen world.old) process (words.page addr) write }
    requires home { TwoAreHome world.old.store }
    requires fits { IsFitAt world.old process (words.page addr)
        (segment.now, words.page addr - first) }
    requires noted { IsKnown world.old }
    ensures serves { (spaces : Spaces) (n : ℕ) → Fits world.old spaces
        → spot_at spaces process (words.page addr) ≡ Some (segment.now, words.page addr - first)
        → addr % n ≡ 0
        → ServesAccess (memory world.old spaces) (memory world.new spaces) world.old.pending
        world.new.pending process addr n write result }
    // What stays.
    ensures rest { SameFiles world.old world.new }
{
    let page = addr / 4096;
    match segment.fault(world, process, first, page, write) {
        Ok(Fault::Loaded) => AccessStep::Reached(noted(world, process, page, write)),
        Ok(Fault::Past) => AccessStep::Refused(Signal::Past),
        Err(wants) => AccessStep::wanting(wants),
    }
}

/// Sees that the page of an address has a translation that lets the access, which is noted, or says what is due. A hit is
/// one look for the segment and one for the translation.
#[inline(always)]
pub(crate) fn reach<D: Disk>(
    world: &mut World<D>,
    space: &Ranges<VnSeg>,
    process: u32,
    addr: u32,
    size: u32,
    write: bool,
) -> AccessStep
    requires size { IsWordSize size }
    requires home { TwoAreHome world.old.store }
    requires fits { IsFitFor world.old process space.now.parts }
    requires noted { IsKnown world.old }
    ensures serves { AccessServed world.old world.new process space.now.parts addr size write
        result }
    // What stays.
    ensures rest { SameFiles world.old world.new }
{
    if addr % size != 0 {
        return AccessStep::Refused(Signal::Align);
    }
    let page = addr / 4096;
    let Some((first, _pages, segment)) = space.find(page) else {
        return AccessStep::Refused(Signal::NoMap);
    };
    if !may_access(segment.prot(), write) {
        return AccessStep::Refused(Signal::Prot);
    }
    if let Some(frame) = frame_for(world, process, page, write) {
        return AccessStep::Reached(frame);
    }
    fault_in(world, segment, process, first, addr, write)
}

/// Whether an address is a multiple of a word's size. The sizes are told apart, so that nothing is divided by one that isn't known.
#[inline(always)]
fn is_aligned(addr: u32, size: u32) -> bool
    requires { IsWordSize size }
    ensures { IsTrue result ↔ (addr % size ≡ 0) }
{
    if size > 2 {
        addr % 4 == 0
    } else if size > 1 {
        addr % 2 == 0
    } else {
        true
    }
}

/// The frame that an access goes to whose page has a translation that lets it: a hit, which is noted. None where it is no hit, or where a
/// signal is due, and then nothing changes.
#[inline(always)]
pub(crate) fn reach_hit<D: Disk>(
    world: &mut World<D>,
    space: &Ranges<VnSeg>,
    process: u32,
    addr: u32,
    size: u32,
    write: bool,
) -> Option<u32>
    requires size { IsWordSize size }
    requires fits { IsFitFor world.old process space.now.parts }
    ensures serves { IfSome result (λ frame. AccessServed world.old world.new process
        space.now.parts addr size write (Reached frame)) }
    ensures none { IfNone result (world.new ≡ world.old) }
    // What stays.
    ensures rest { SameFiles world.old world.new }
{
    if !is_aligned(addr, size) {
        return None;
    }
    let page = addr / 4096;
    let Some((_first, _pages, segment)) = space.find(page) else {
        return None;
    };
    let allowed = may_access(segment.prot(), write);
    if !allowed {
        return None;
    }
    match frame_for(world, process, page, write) {
        Some(frame) => Some(frame),
        None => None,
    }
}
