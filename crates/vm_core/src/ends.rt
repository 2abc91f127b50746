//! Transfers that end.
ghost use Rattle.std.specs.Prelude.{◌≡◌, ◌≢◌, ◌≤◌, ℕ, Some, None, false, length, option_map};
ghost use Rattle.fault_entry.specs.page_store.Bays.{bay_at, home};
ghost use Rattle.fault_entry.specs.page_store.Flight.{IsPerformed, fresh};
ghost use Rattle.fault_entry.specs.page_store.Notes.{Note, Notes};
ghost use Rattle.fault_entry.specs.page_store.Out.{IsFlightOf};
ghost use Rattle.fault_entry.specs.page_store.Transfers.{EndsTransfer};
ghost use Rattle.fault_entry.specs.vm_world.Events.{IsEvent};
ghost use Rattle.fault_entry.specs.vm_world.MemoryFits.{MemoryFits};
ghost use Rattle.fault_entry.specs.vm_world.NotesFit.{NotesFit};
ghost use Rattle.fault_entry.specs.vm_world.State.{Sent};
ghost use Rattle.fault_entry.specs.vm_world.StateSteps.{after_step};
ghost use Rattle.fault_entry.specs.vm_world.WorldSteps.{WorldStep, returns};
ghost use Rattle.vm_core.specs.Fits.{FitsAt};
ghost use Rattle.vm_core.specs.Flights.{IsBack, answer_at_end, EndsWith};
ghost use Rattle.vm_core.specs.Marks.{marks_landed};

use crate::kept::forget;
use crate::state::VmState;
use fault_entry::{Call, Disk, Flight, Reply, end_flight};
use kernel_close::within_counts;

impl<D: Disk> VmState<D> {
    /// Ends a transfer: its frame and its disk come back. `call` is the process and call that it was for. Some, with the device
    /// error, exactly where the transfer failed and a call is given; that is then the reply to the call.
    ///
    /// Takes no memory, and makes no disk call. Constant expected time.
    #[inline(always)]
    pub fn end(&mut self, seat: u32, flight: Flight<D>, call: Option<(u32, &Call)>) -> Option<Reply>
        requires back { (sent : Sent) × FitsAt self.old seat (Some sent)
            × IsBack sent flight (option_map (λ (c : ℕ × _). (c.0, c.1.now)) call) }
        // The answer is the error with the flight's own counts, and the entry that it adds is the only one.
        ensures answer { result
            ≡ answer_at_end flight (option_map (λ (c : ℕ × _). (c.0, c.1.now)) call.entry) }
        ensures entry { EndsWith self.old self.new
            (option_map (λ (c : ℕ × _). (c.0, c.1.now)) call.entry) result }
        ensures event { (sent : Sent)
            → IsBack sent flight (option_map (λ (c : ℕ × _). (c.0, c.1.now)) call.entry)
            → IsEvent seat self.old (Some sent) self.new None }
        // The disk is home again, and the page where the transfer leaves it.
        ensures disk { bay_at self.new.memory.world.store.bays flight.number ≡ home flight.disk }
        ensures ends { EndsTransfer self.old.memory.world.store self.new.memory.world.store flight }
        // What stays.
        ensures tables { self.new.memory.world
            ≡ record self.old.memory.world { store = self.new.memory.world.store } }
        ensures spaces { self.new.memory.spaces ≡ self.old.memory.spaces }
        ensures plan { self.new.plan ≡ None }
        // Its block's mark is as the push of a file's page left it, and none is kept for the seat then.
        ensures marks { self.new.marks
            ≡ marks_landed self.old.marks seat flight (length self.old.history) }
    {
        self.mark_end(seat, &flight);
        if !flight.has_failed() {
            let (_, _, faults) = flight.counts();
            within_counts(faults);
            self.land(flight);
            return None;
        }
        let (disk, before, after) = flight.counts();
        within_counts(after);
        self.land(flight);
        match call {
            Some((process, call)) => {
                let reply = Reply::Io {
                    disk,
                    before,
                    after,
                };
                self.release_file(seat, call);
                self.add(process, call, &reply);
                Some(reply)
            }
            None => None,
        }
    }

    // The flight's frame and disk come back, and no plan is kept.
    #[inline(always)]
    fn land(&mut self, flight: Flight<D>)
        requires out { IsFlightOf self.old.memory.world.store flight }
        requires performed { flight.outcome ≢ fresh }
        // The disk is home again, and the page where the transfer leaves it.
        ensures disk { bay_at self.new.memory.world.store.bays flight.number ≡ home flight.disk }
        ensures ends { EndsTransfer self.old.memory.world.store self.new.memory.world.store flight }
        ensures step { (notes : Notes) (note : Note)
            → MemoryFits self.old.memory
            → NotesFit self.old.memory.world notes → notes flight.seat ≡ Some note
            → IsPerformed note flight
            → WorldStep self.old.memory.world self.new.memory.world self.old.memory.spaces
            (returns flight.seat note) (λ name. false) }
        // What stays.
        ensures new { self.new
            ≡ after_step self.old self.new.memory.world self.old.pending }
        ensures tables { self.new.memory.world
            ≡ record self.old.memory.world { store = self.new.memory.world.store } }
    {
        end_flight(&mut self.world, flight);
        forget(&mut self.plan);
    }
}
