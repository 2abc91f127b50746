//! The history, which has room for all entries that the processes may make.
ghost use Rattle.std.specs.Prelude.{◌≡◌, suc, ◌+◌, ◌<◌, ◌≤◌, ◌++◌, ◌∷◌, ◌^◌, [], length, sum_by, vec_len, vec_capacity, IfOk};
ghost use Rattle.fault_entry.specs.flat_model.Told.{entries_of};
ghost use Rattle.fault_entry.specs.vm_types.declared.call.Call.TheVariants.{Load, Store};
ghost use Rattle.fault_entry.specs.vm_types.declared.call.Reply.TheVariants as reply;
ghost use Rattle.fault_entry.specs.vm_world.State.{room_of};

use entry_list::{Entries, Recording};
use fault_entry::{Call, Reply};
use std::alloc::{AllocError, Global};
use std::marker::Model;

/// The history, and of each process from 1 on the most entries that it may make.
#[derive(Drop)]
pub struct Ledger {
    history: Recording,
    entries: Vec<u32>,
    // How many entries are left to each process.
    left: Vec<u32>,
}

impl Model for Ledger {
    ghost use Rattle.vm_core.specs.Ledger.{LedgerSeen, IsSoundLedger};

    ghost Value = { LedgerSeen };

    ghost view = { λ l. record { history = l.history.entries; entries = l.entries.items } };

    ghost invariant = { λ l. IsSoundLedger l.history.entries l.history.room l.entries.items l.left.items };
}

// How many entries all processes may make.
fn total(entries: &[u32]) -> usize
    requires { length entries.now < 2 ^ 32 }
    ensures { result ≡ sum_by (λ n. n) entries.now }
{
    let mut sum = 0usize;
    for most in entries {
        sum += *most as usize;
    }
    sum
}

impl Ledger {
    /// No entries yet, and the room for all. The only error is want of memory, or of numbers for 2^32 entries.
    pub fn new(alloc: Global, entries: &[u32]) -> Result<Ledger, AllocError>
        requires { length entries.now < 2 ^ 32 }
        ensures history { IfOk result (λ ledger. ledger.history ≡ []) }
        ensures entries { IfOk result (λ ledger. ledger.entries ≡ entries.now) }
    {
        let total = total(entries);
        if total > u32::MAX as usize {
            return Err(AllocError);
        }
        Ok(Ledger {
            history: Recording::with_room(alloc, total as u32)?,
            entries: entries.to_vec(alloc)?,
            left: entries.to_vec(alloc)?,
        })
    }

    /// How many entries a process may still make; 0 for one that is none. Constant time.
    pub fn room(&self, process: u32) -> u32
        ensures { length (entries_of self.now.history process) + result
            ≡ room_of self.now.entries process }
    {
        match process.checked_sub(1) {
            Some(place) if (place as usize) < self.left.len() => self.left[place as usize],
            _ => 0,
        }
    }

    /// How many entries there are. Constant time.
    pub fn length(&self) -> u32
        ensures { result ≡ length self.now.history }
    {
        self.history.len() as u32
    }

    /// How many entries there are once a process has made one that may make one more. Constant time.
    pub fn next(&self, process: u32) -> u32
        requires { length (entries_of self.now.history process)
            < room_of self.now.entries process }
        ensures { result ≡ suc (length self.now.history) }
    {
        let _room = self.room(process);
        self.history.len() as u32 + 1
    }

    /// Adds an entry of a process that may make one more. Takes no memory.
    #[inline(always)]
    pub fn push(&mut self, process: u32, call: &Call, reply: &Reply, cleared: u64)
        requires { length (entries_of self.old.history process)
            < room_of self.old.entries process }
        ensures history { self.new.history ≡ self.old.history ++ record {
          process = process;
          call = call.now;
          reply = reply.now;
          cleared = cleared;
        } ∷ [] }
        ensures entries { self.new.entries ≡ self.old.entries }
    {
        self.left[process as usize - 1] -= 1;
        self.history.push(process, call, reply, cleared);
    }

    /// Adds the entry of a load of a process that may make one more. It is made in the history at once: no call and no reply is moved. Takes
    /// no memory.
    #[inline(always)]
    pub fn push_load(&mut self, process: u32, addr: u32, size: u32, word: u32, cleared: u64)
        requires { length (entries_of self.old.history process)
            < room_of self.old.entries process }
        ensures history { self.new.history ≡ self.old.history ++ record {
          process = process;
          call = Load addr size;
          reply = reply.Word word;
          cleared = cleared;
        } ∷ [] }
        ensures entries { self.new.entries ≡ self.old.entries }
    {
        self.left[process as usize - 1] -= 1;
        self.history.push_load(process, addr, size, word, cleared);
    }

    /// The same of a store.
    #[inline(always)]
    pub fn push_store(&mut self, process: u32, addr: u32, size: u32, value: u32, cleared: u64)
        requires { length (entries_of self.old.history process)
            < room_of self.old.entries process }
        ensures history { self.new.history ≡ self.old.history ++ record {
          process = process;
          call = Store addr size value;
          reply = reply.Done;
          cleared = cleared;
        } ∷ [] }
        ensures entries { self.new.entries ≡ self.old.entries }
    {
        self.left[process as usize - 1] -= 1;
        self.history.push_store(process, addr, size, value, cleared);
    }

    /// Hands the entries out.
    pub fn into_history(self) -> Entries
        ensures { result ≡ self.history }
    {
        self.history.into_entries()
    }
}
