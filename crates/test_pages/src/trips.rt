//! Whole transfers, made by callers that know the public words alone.
ghost use Rattle.std.specs.Prelude.{◌≡◌, ◌⊎◌, ℕ, ◌<◌, ◌≤◌, Some, None, Ok, false, List, IfOk, IfErr, IfSome, OnOk, IsTrue, is_err, slice_index};
ghost use Rattle.block_device.specs.Counts.{HasRisen};
ghost use Rattle.block_device.specs.DiskSeen.{DiskSeen};
ghost use Rattle.page_store.specs.page_hash.Names.{is_name};
ghost use Rattle.page_store.specs.page_lock.Rows.{row_at};
ghost use Rattle.page_store.specs.Bays.{bay_at, home};
ghost use Rattle.page_store.specs.StoreFits.{StoreFits};
ghost use Rattle.page_store.specs.Flight.{FlightSeen};
ghost use Rattle.page_store.specs.Moves.{KeepsButTails, TakesFrame};
ghost use Rattle.page_store.specs.Notes.{Notes};
ghost use Rattle.page_store.specs.Seen.{residence};
ghost use Rattle.page_store.specs.Steps.{next_frame, next_name};
ghost use Rattle.page_store.specs.Table.{PlaceTable};
ghost use Rattle.page_store.specs.Out.{IsFlightOf};
ghost use Rattle.page_store.specs.Transfers.{CanBegin, LivesAt};
ghost use Rattle.test_pages.specs.Trips.{HasDisk, StayThere};
ghost use Rattle.page_store.specs.Value.{tells, value};
ghost use Rattle.page_store.specs.Waits.{Waits, plan_page};
ghost use Rattle.page_store.specs.declared.plan.Hold.{Hold};
ghost use Rattle.page_store.specs.declared.plan.Plan.{Plan};
ghost use Rattle.page_store.specs.declared.residence.Residence.{Residence};

use block_device::Disk;
use page_store::{PageName, Place, Plan, Residence, Store};

/// A transfer failed: the disk, and its count of faults before and after.
#[derive(Clone, Copy, PartialEq, Eq, Drop)]
pub(crate) struct Fault {
    pub(crate) disk: u32,
    pub(crate) before: u64,
    pub(crate) after: u64,
}

/// Reads a page in, or is told that its disk failed.
fn read_in<D: Disk>(
    store: &mut Store<D>,
    seat: u32,
    name: PageName,
    place: Place,
) -> Result<(), Fault>
    requires ready { Waits store.old name place.disk None }
    requires there { HasDisk (bay_at store.old.bays place.disk) place.block }
    requires valid { place.valid ≤ 4096 }
    requires can { CanBegin (Plan.Read name) store.old }
    // The page is home, or the disk's count of faults rose.
    ensures home { OnOk result ((frame : ℕ) × (residence store.new name ≡ Residence.Home frame)) }
    ensures takes { (notes : Notes) (table : PlaceTable) → StoreFits store.old notes table
        → notes seat ≡ None → LivesAt (Plan.Read name) table place.disk place.block place.valid
        → TakesFrame store.old notes store.new notes table }
    ensures other { is_name (next_name store.old) name ≡ false }
    ensures fault { IfErr result (λ fault. HasRisen fault.before fault.after) }
    ensures there { StayThere store.old.bays store.new.bays }
{
    let mut flight = store.begin(seat, Plan::Read(name), place.disk, place.block, place.valid);
    let result = flight.perform();
    let (disk, before, after) = flight.counts();
    store.end(flight);
    match result {
        Ok(()) => Ok(()),
        Err(_) => Err(Fault {
            disk,
            before,
            after,
        }),
    }
}

/// Pushes a page to its disk, or is told that the disk failed, and the page is modified then.
pub(crate) fn push_out<D: Disk>(
    store: &mut Store<D>,
    seat: u32,
    name: PageName,
    place: Place,
) -> Result<(), Fault>
    requires ready { Waits store.old name place.disk None }
    requires there { HasDisk (bay_at store.old.bays place.disk) place.block }
    requires valid { place.valid ≤ 4096 }
    requires can { CanBegin (Plan.Push name) store.old }
    // The page is home, and modified where the disk failed.
    ensures page { (frame : ℕ) × (residence store.new name ≡ Residence.Home frame)
        × ((row_at store.new.rows frame).modified ≡ is_err result) }
    ensures takes { (notes : Notes) (table : PlaceTable) → StoreFits store.old notes table
        → notes seat ≡ None → LivesAt (Plan.Push name) table place.disk place.block place.valid
        → TakesFrame store.old notes store.new notes table }
    ensures fault { IfErr result (λ fault. HasRisen fault.before fault.after) }
    ensures there { StayThere store.old.bays store.new.bays }
{
    let mut flight = store.begin(seat, Plan::Push(name), place.disk, place.block, place.valid);
    let result = flight.perform();
    let (disk, before, after) = flight.counts();
    store.end(flight);
    match result {
        Ok(()) => Ok(()),
        Err(_) => Err(Fault {
            disk,
            before,
            after,
        }),
    }
}

/// What is done to a page while its transfer is under way.
#[derive(Clone, Copy)]
pub(crate) enum Meanwhile {
    /// Its name is given up, and taken anew where a frame can be taken.
    GivenUp,
    /// Its first byte is written, where it is home.
    Written(u8),
}

/// Begins a transfer, does this to its page meanwhile, and ends the transfer. Answers whether it could be done.
pub(crate) fn transfer_while<D: Disk>(
    store: &mut Store<D>,
    seat: u32,
    plan: Plan,
    place: Place,
    meanwhile: Meanwhile,
) -> bool
    requires ready { Waits store.old (plan_page plan) place.disk None }
    requires there { HasDisk (bay_at store.old.bays place.disk) place.block }
    requires valid { place.valid ≤ 4096 }
    requires can { CanBegin plan store.old }
    ensures there { StayThere store.old.bays store.new.bays }
{
    let (Plan::Read(name) | Plan::Push(name)) = plan;
    let mut flight = store.begin(seat, plan, place.disk, place.block, place.valid);
    let done = interfere(store, name, meanwhile);
    let _ = flight.perform();
    store.end(flight);
    done
}

fn interfere<D: Disk>(store: &mut Store<D>, name: PageName, meanwhile: Meanwhile) -> bool
    ensures flights { (f : FlightSeen) → IsFlightOf store.old f → IsFlightOf store.new f }
    ensures bays { store.new.bays ≡ store.old.bays }
{
    match meanwhile {
        Meanwhile::GivenUp => give_up(store, name),
        Meanwhile::Written(byte) => write_first(store, name, byte),
    }
}

fn give_up<D: Disk>(store: &mut Store<D>, name: PageName) -> bool
    ensures flights { (f : FlightSeen) → IsFlightOf store.old f → IsFlightOf store.new f }
    ensures bays { store.new.bays ≡ store.old.bays }
{
    store.abort(name);
    take_anew(store, name)
}

fn take_anew<D: Disk>(store: &mut Store<D>, name: PageName) -> bool
    requires { residence store.old name ≡ Residence.Absent }
    ensures flights { (f : FlightSeen) → IsFlightOf store.old f → IsFlightOf store.new f }
    ensures bays { store.new.bays ≡ store.old.bays }
{
    let anew = store.available();
    if anew {
        store.fill_zero(name);
    }
    anew
}

fn write_first<D: Disk>(store: &mut Store<D>, name: PageName, byte: u8) -> bool
    ensures flights { (f : FlightSeen) → IsFlightOf store.old f → IsFlightOf store.new f }
    ensures bays { store.new.bays ≡ store.old.bays }
{
    match store.resident(name) {
        Residence::Home(frame) => {
            if store.listed(frame) {
                return false;
            }
            store.poke(name, 0, &[byte], true);
            true
        }
        Residence::Moving(_) => false,
        Residence::Absent => false,
    }
}

/// One byte of a page, which is read in where it is in no frame. None where the page is moving, its disk is out, or no frame
/// can be taken.
pub(crate) fn load_byte<D: Disk>(
    store: &mut Store<D>,
    seat: u32,
    name: PageName,
    place: Place,
    at: u32,
) -> Result<Option<u8>, Fault>
    requires there { HasDisk (bay_at store.old.bays place.disk) place.block }
    requires valid { place.valid ≤ 4096 }
    requires at { at < 4096 }
    // The byte is the value's, where one is told.
    ensures value { IfOk result (λ found. IfSome found (λ byte. (notes : Notes) (table : PlaceTable)
        → StoreFits store.old notes table → notes seat ≡ None
        → LivesAt (Plan.Read name) table place.disk place.block place.valid
        → IsTrue (tells store.old notes place.disk)
        → byte ≡ slice_index (value store.old notes table name) at)) }
    ensures none { result ≡ Ok None
        → ((t : ℕ) × (residence store.old name ≡ Residence.Moving t))
        ⊎ ((next_frame store.old ≡ None) ⊎ ((h : Hold)
        × Waits store.old name place.disk (Some h))) }
    ensures keeps { (notes : Notes) (table : PlaceTable) → StoreFits store.old notes table
        → notes seat ≡ None → LivesAt (Plan.Read name) table place.disk place.block place.valid
        → KeepsButTails store.old notes store.new notes table }
    ensures fault { IfErr result (λ fault. HasRisen fault.before fault.after) }
    ensures there { StayThere store.old.bays store.new.bays }
{
    match store.resident(name) {
        Residence::Home(_) => Ok(Some(store.bytes(name)[at as usize])),
        Residence::Moving(_) => Ok(None),
        Residence::Absent => {
            if !store.available() {
                return Ok(None);
            }
            if store.ready(&Plan::Read(name), place.disk).is_some() {
                return Ok(None);
            }
            match read_in(store, seat, name, place) {
                Ok(()) => Ok(Some(store.bytes(name)[at as usize])),
                Err(fault) => Err(fault),
            }
        }
    }
}
