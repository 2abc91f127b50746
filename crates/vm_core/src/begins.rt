//! Transfers that begin.
ghost use Rattle.std.specs.Prelude.{◌≡◌, Some, None, length};
ghost use Rattle.fault_entry.specs.page_hash.Names.{is_name};
ghost use Rattle.fault_entry.specs.page_store.Flight.{note_of};
ghost use Rattle.fault_entry.specs.page_store.Notes.{Notes};
ghost use Rattle.fault_entry.specs.page_store.Steps.{next_name};
ghost use Rattle.fault_entry.specs.page_store.Transfers.{BeginsTransfer};
ghost use Rattle.fault_entry.specs.page_store.Waits.{Waits, plan_page};
ghost use Rattle.fault_entry.specs.seg_ops.Flights.{BeginsFor};
ghost use Rattle.fault_entry.specs.vm_world.Events.{IsEvent};
ghost use Rattle.fault_entry.specs.vm_world.NotesFit.{NotesFit};
ghost use Rattle.fault_entry.specs.vm_world.Segments.{Spaces};
ghost use Rattle.fault_entry.specs.vm_world.State.{KeptPlan};
ghost use Rattle.fault_entry.specs.vm_world.StateSteps.{PendsTails, after_step};
ghost use Rattle.fault_entry.specs.vm_world.Words.{Fits, IsFit};
ghost use Rattle.fault_entry.specs.vm_world.World.{world_seen, world_table};
ghost use Rattle.fault_entry.specs.vm_world.WorldSteps.{WorldStep, leaves};
ghost use Rattle.vm_core.specs.Fits.{FitsAt};
ghost use Rattle.vm_core.specs.Flights.{CanLeave, IsKeptFor, KeepsButPushed, places_begun, sent_with, store_ready};
ghost use Rattle.vm_core.specs.Marks.{marks_departed};

use crate::state::VmState;
use fault_entry::{Disk, Flight, Plan, World, begin_push, begin_read};

/// Begins the transfer of a plan that can run.
#[inline(always)]
fn leave<D: Disk>(world: &mut World<D>, seat: u32, plan: Plan) -> Flight<D>
    requires can { CanLeave (world_seen world.old) plan }
    requires ready { Waits world.old.store (plan_page plan)
        (world_table (world_seen world.old) (plan_page plan)).disk None }
    requires fits { IsFit world.old }
    // The flight, the tails that it makes pending, and the translations.
    ensures flight { BeginsFor (world_seen world.old) seat plan result }
    ensures pends { PendsTails (world_seen world.old) (is_name (next_name world.old.store))
        world.old.pending world.new.pending }
    ensures places { world.new.hat.places ≡ places_begun (world_seen world.old) plan }
    // What the store does.
    ensures begins { BeginsTransfer (store_ready (world_seen world.old) plan) world.new.store
        plan (plan_page plan) result }
    // What stays.
    ensures tables { KeepsButPushed (world_seen world.old) (world_seen world.new) plan }
    ensures zeros { world.new.zeros ≡ world.old.zeros }
    ensures step { (spaces : Spaces) (notes : Notes) → Fits world.old spaces
        → NotesFit (world_seen world.old) notes
        → WorldStep (world_seen world.old) (world_seen world.new) spaces
        (leaves seat (note_of result)) (is_name (next_name world.old.store)) }
{
    match plan {
        Plan::Read(name) => begin_read(world, seat, name),
        Plan::Push(name) => begin_push(world, seat, name),
    }
}

impl<D: Disk> VmState<D> {
    /// Begins the transfer of the kept plan: the frame and the disk leave with the flight.
    ///
    /// Takes no memory, and makes no disk call. Time: one page, and the page's translations. Inline, so that the flight is moved
    /// less.
    #[inline(always)]
    pub fn begin(&mut self, seat: u32, plan: Plan) -> Flight<D>
        requires fits { FitsAt self.old seat None }
        requires kept { (kept : KeptPlan) × IsKeptFor self.old seat plan kept }
        // The flight is the plan's, and what the seat has outside then is for the process and call of the plan.
        ensures flight { BeginsFor self.old.memory.world seat plan result }
        ensures event { (kept : KeptPlan) → IsKeptFor self.old seat plan kept
            → IsEvent seat self.old None self.new (Some (sent_with kept result)) }
        // The tail is pending that the name loses which the taken frame held.
        ensures pends { PendsTails self.old.memory.world
            (is_name (next_name self.old.memory.world.store)) self.old.pending self.new.pending }
        // No translation goes but those of a page that is pushed.
        ensures places { self.new.memory.world.hat.places
            ≡ places_begun self.old.memory.world plan }
        // What the store does: no other disk moves, and where each page is then.
        ensures begins { BeginsTransfer (store_ready self.old.memory.world plan)
            self.new.memory.world.store plan (plan_page plan) result }
        // The maps, the files and the slots stay, but that a page which is pushed counts so.
        ensures tables { KeepsButPushed self.old.memory.world self.new.memory.world plan }
        // The push of a file's page is kept for the seat, with how many entries there are.
        ensures marks { self.new.marks
            ≡ marks_departed self.old.marks seat result (length self.old.history) }
        // What stays: all but the world and the marks. No plan is kept.
        ensures rest { self.new ≡ record (after_step self.old self.new.memory.world
            self.new.pending) { marks = self.new.marks } }
    {
        let flight = self.depart(seat, plan);
        self.keep_push(seat, &flight);
        flight
    }

    // The transfer of the kept plan leaves; no mark changes.
    #[inline(always)]
    fn depart(&mut self, seat: u32, plan: Plan) -> Flight<D>
        requires fits { FitsAt self.old seat None }
        requires kept { (kept : KeptPlan) × IsKeptFor self.old seat plan kept }
        // The flight is the plan's, and what the world does as it leaves.
        ensures flight { BeginsFor self.old.memory.world seat plan result }
        ensures step { WorldStep self.old.memory.world self.new.memory.world self.old.memory.spaces
            (leaves seat (note_of result)) (is_name (next_name self.old.memory.world.store)) }
        ensures pends { PendsTails self.old.memory.world
            (is_name (next_name self.old.memory.world.store)) self.old.pending self.new.pending }
        ensures places { self.new.memory.world.hat.places
            ≡ places_begun self.old.memory.world plan }
        // What the store does, and what stays.
        ensures begins { BeginsTransfer (store_ready self.old.memory.world plan)
            self.new.memory.world.store plan (plan_page plan) result }
        ensures tables { KeepsButPushed self.old.memory.world self.new.memory.world plan }
        ensures rest { self.new ≡ after_step self.old self.new.memory.world self.new.pending }
    {
        self.plan = None;
        leave(&mut self.world, seat, plan)
    }
}
