//! Transfers that come back.
ghost use Rattle.std.specs.Prelude.{◌≡◌, ◌≢◌, Some, false};
ghost use Rattle.page_store.specs.Bays.{bay_at, home};
ghost use Rattle.page_store.specs.Flight.{IsPerformed, fresh};
ghost use Rattle.page_store.specs.Notes.{Note, Notes};
ghost use Rattle.page_store.specs.Out.{IsFlightOf};
ghost use Rattle.page_store.specs.Steps.{after_end};
ghost use Rattle.page_store.specs.Transfers.{EndsTransfer};
ghost use Rattle.vm_world.specs.NotesFit.{NotesFit};
ghost use Rattle.vm_world.specs.Segments.{Spaces};
ghost use Rattle.vm_world.specs.Words.{Fits, OnlyStore};
ghost use Rattle.vm_world.specs.World.{world_seen};
ghost use Rattle.vm_world.specs.WorldSteps.{WorldStep, returns};

use page_store::{Disk, Flight};
use vm_world::World;

/// Ends a transfer that was performed: its frame and its disk come back. A page that isn't gone is home then, but for one
/// that was to be read and that failed; it is modified where a write failed, and where it was written since its snapshot
/// went out. Time: constant expected; one page is moved, none is copied.
#[inline(always)]
pub fn end_flight<D: Disk>(world: &mut World<D>, flight: Flight<D>)
    requires out { IsFlightOf world.old.store flight }
    requires performed { flight.outcome ≢ fresh }
    // The disk is home with what it counted, and the page where the transfer leaves it.
    ensures disk { bay_at world.new.store.bays flight.number ≡ home flight.disk }
    ensures store { world.new.store ≡ after_end world.old.store flight }
    ensures ends { EndsTransfer world.old.store world.new.store flight }
    // What stays.
    ensures rest { OnlyStore world.old world.new }
    // For the seat's own note: no page changes, and the seat has nothing outside then.
    ensures step { (spaces : Spaces) (notes : Notes) (note : Note) → Fits world.old spaces
        → NotesFit (world_seen world.old) notes → notes flight.seat ≡ Some note
        → IsPerformed note flight
        → WorldStep (world_seen world.old) (world_seen world.new) spaces
        (returns flight.seat note) (λ name. false) }
{
    world.store.end(flight);
}
