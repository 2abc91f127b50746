//! The state that stands behind the lock, in a box, since the lock moves what it keeps several times a visit.
ghost use Rattle.std.specs.Prelude.{◌≡◌, ◌<◌, ℕ, Some, None, IfSome, IfNone, length, option_map};
ghost use Rattle.vm_core.specs.Fits.{FitsAt};
ghost use Rattle.vm_core.specs.vm_types.WellFormed.{IsWellFormed};
ghost use Rattle.vm_core.specs.vm_world.Events.{IsEvent, CanTry};
ghost use Rattle.vm_core.specs.flat_model.Flat.{Flat, cell_at};
ghost use Rattle.vm_core.specs.page_store.Notes.{Notes};
ghost use Rattle.vm_core.specs.vm_world.FlatMemory.{flat_memory};
ghost use Rattle.vm_core.specs.vm_world.State.{Seats, Sent};
ghost use Rattle.vm_core.specs.vm_world.StateFits.{StateFits};
ghost use Rattle.vm_kernel.specs.Objects.{object_told};
ghost use Rattle.vm_kernel.specs.Notes.{note_of_held, AreUnperformed, InHand, IsSentFor};
ghost use Rattle.vm_core.specs.fault_entry.Accesses.{IsAccess};
ghost use Rattle.vm_kernel.specs.Steps.{TriesAccess, TriesCall, EndsFlight, MovesHand, IsForNone};

use crate::sent::{SeatNote, SentFlight};
use crate::steps::{self, Tried};
use kernel_lock::guarded::Guarded;
use std::alloc::AllocError;
use std::marker::Model;
use vm_core::{Answer, Call, Disk, Entry, Reply, VmState};
use vm_types::Object;

/// The state in a box. Contracts see it as the state.
#[derive(Drop)]
pub(crate) struct BoxedState<D: Disk> {
    pub(crate) state: Box<VmState<D>>,
}

impl<D: Disk> Model for BoxedState<D> {
    ghost use Rattle.vm_core.specs.vm_world.State.{KernelState};
    ghost use Rattle.vm_core.specs.StateCode.{state_code};

    ghost Value = { KernelState };

    ghost coded = { state_code };

    ghost view = { λ b. b.state.value };
}

impl<D: Disk> Guarded for BoxedState<D> {
    ghost use Rattle.vm_kernel.specs.Since.{seat_of_entry, history_of, IsSinceOpening, Moves};
    ghost use Rattle.vm_kernel.specs.Notes.{note_of_held};
    ghost use Rattle.vm_kernel.specs.SinceLaws.{state_keeps, state_grows};

    type Entry = Entry;

    type Note = SeatNote;

    type Held = Option<SentFlight<D>>;

    ghost seat_of = { seat_of_entry };

    ghost history = { history_of };

    ghost note_of = { note_of_held };

    ghost fits = { IsSinceOpening };

    ghost moves = { Moves };

    fn length(&self) -> u64 {
        self.state.length()
    }

    ghost keeps = { state_keeps };

    ghost grows = { state_grows };
}

impl<D: Disk> BoxedState<D> {
    /// Tries a call, and begins the transfer that it needs.
    pub(crate) fn try_and_begin(
        &mut self,
        seat: u32,
        process: u32,
        call: &Call,
        sent: &mut Option<SentFlight<D>>,
    ) -> Result<Tried, AllocError>
        requires fits { FitsAt self.old seat None }
        requires formed { IsWellFormed call.now }
        requires may { CanTry self.old seat process call.now }
        requires none { sent.old ≡ None }
        // One event: what the try leaves, and the flight that is out then, which waits for its transfer.
        ensures event { IsEvent seat self.old None self.new (note_of_held sent.new) }
        ensures tries { TriesCall self.old self.new seat process call.now
            (note_of_held sent.new) result }
        ensures ready { AreUnperformed sent.new }
    {
        steps::try_and_begin(&mut self.state, seat, process, call, sent)
    }

    /// Tries a load or a store that is a hit; none where it is no hit, and nothing has changed then.
    #[inline(always)]
    pub(crate) fn try_hit(&mut self, seat: u32, process: u32, call: &Call) -> Option<Answer>
        requires access { IsAccess call.now }
        requires fits { FitsAt self.old seat None }
        requires may { CanTry self.old seat process call.now }
        // One event, as of any call that is tried.
        ensures event { IfSome result (λ _answer. IsEvent seat self.old None self.new None) }
        ensures tries { IfSome result (TriesAccess self.old self.new seat process call.now None) }
        // No hit.
        ensures none { IfNone result (self.new ≡ self.old) }
    {
        self.state.try_hit(seat, process, call)
    }

    /// Tries a load or a store, and begins the transfer that it needs.
    #[inline(always)]
    pub(crate) fn access_and_begin(
        &mut self,
        seat: u32,
        process: u32,
        call: &Call,
        sent: &mut Option<SentFlight<D>>,
    ) -> Answer
        requires access { IsAccess call.now }
        requires fits { FitsAt self.old seat None }
        requires may { CanTry self.old seat process call.now }
        requires none { sent.old ≡ None }
        // One event, as of any call that is tried.
        ensures event { IsEvent seat self.old None self.new (note_of_held sent.new) }
        ensures tries { TriesAccess self.old self.new seat process call.now
            (note_of_held sent.new) result }
        ensures ready { AreUnperformed sent.new }
    {
        steps::access_and_begin(&mut self.state, seat, process, call, sent)
    }

    /// The flight of a seat, which is for this process and call, ends.
    #[inline(always)]
    pub(crate) fn end_flight(
        &mut self,
        seat: u32,
        sent: SentFlight<D>,
        call: Option<(u32, &Call)>,
    ) -> Option<Reply>
        requires back { (note : Sent) × FitsAt self.old seat (Some note)
            × InHand (Some sent) (Some note) }
        requires of { IsSentFor sent (option_map (λ (c : ℕ × _). (c.0, c.1.now)) call) }
        ensures ends { (note : Sent) → InHand (Some sent) (Some note)
            → IsEvent seat self.old (Some note) self.new None
            × EndsFlight self.old self.new seat note result }
    {
        steps::end_flight(&mut self.state, seat, sent, call)
    }

    /// One move of a hand of the clock, and the begin of the push that it answers, which is in hand then.
    pub(crate) fn move_hand(&mut self, seat: u32, sent: &mut Option<SentFlight<D>>)
        requires fits { FitsAt self.old seat None }
        requires seat { seat < length self.old.syncs }
        requires none { sent.old ≡ None }
        // One event, and nothing but the move and its push; a push that is out then is for no call.
        ensures event { IsEvent seat self.old None self.new (note_of_held sent.new) }
        ensures ready { AreUnperformed sent.new }
        ensures of { IsForNone (note_of_held sent.new) }
        ensures hand { MovesHand self.old self.new seat (note_of_held sent.new) }
    {
        steps::move_hand(&mut self.state, seat, sent);
    }

    /// The object of a process's cell at a page, and the page of it that the cell stands for; None
    /// exactly where there is no cell.
    pub(crate) fn object(&self, process: u32, page: u32) -> Option<(Object, u32)>
        requires fits { (F : Flat) × (seats : Seats) × StateFits F self.now seats }
        ensures told { (notes : Notes) → result
            ≡ object_told (cell_at (flat_memory self.now.memory self.now.born notes)
            process page) }
    {
        self.state.object(process, page)
    }

    /// The state.
    pub(crate) fn into_state(self) -> VmState<D>
        ensures { result ≡ self }
    {
        let Self { state } = self;
        Box::into_inner(state)
    }
}
