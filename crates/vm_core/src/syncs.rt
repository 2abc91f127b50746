//! Where Syncs began, and where they look next.
ghost use Rattle.std.specs.Prelude.{◌≡◌, ◌<◌, length, None, IfOk, replicate, slice_index_or, slice_set};

use std::alloc::{AllocError, Global};
use std::marker::Model;
use vm_world::SyncStart;

/// Of each seat where its Sync began, with its range, and the page of its process at which the Sync looks next. Contracts see where
/// Syncs began alone: nothing but time depends on the page.
#[derive(Drop)]
pub(crate) struct Syncs {
    starts: Vec<Option<SyncStart>>,
    cursors: Vec<u32>,
}

impl Model for Syncs {
    ghost use Rattle.std.specs.Prelude.{◌≡◌, ℕ, List, Option, length};
    ghost use Rattle.std.specs.Coded.{coded_list, coded_option};
    ghost use Rattle.fault_entry.specs.vm_world.contracts.sync_start.SyncStart as start;
    ghost use Rattle.fault_entry.specs.vm_world.declared.sync_start.SyncStart.{SyncStart};

    ghost Value = { List (Option SyncStart) };

    ghost coded = { coded_list (coded_option start.the_row.coded) };

    ghost view = { λ s. s.starts.items };

    ghost invariant = { λ s. length s.cursors.items ≡ length s.starts.items };
}

impl Syncs {
    /// None began. The only error is want of memory.
    pub fn new(alloc: Global, seats: u32) -> Result<Syncs, AllocError>
        ensures { IfOk result (λ syncs. syncs ≡ replicate seats None) }
    {
        Ok(Syncs {
            starts: vec![in alloc; None; seats as usize]?,
            cursors: vec![in alloc; 0; seats as usize]?,
        })
    }

    /// How many seats there are.
    pub fn seats(&self) -> usize
        ensures { result ≡ length self.now }
    {
        self.starts.len()
    }

    /// Where the Sync of a seat began; None where none has.
    pub fn start(&self, seat: u32) -> Option<SyncStart>
        requires { seat < length self.now }
        ensures { result ≡ slice_index_or self.now seat None }
    {
        self.starts[seat as usize]
    }

    /// Keeps where the Sync of a seat began, or that none has.
    pub fn set(&mut self, seat: u32, start: Option<SyncStart>)
        requires { seat < length self.old }
        ensures { self.new ≡ slice_set self.old seat start }
    {
        self.starts[seat as usize] = start;
    }

    /// The page at which the Sync of a seat looks next.
    pub fn cursor(&self, seat: u32) -> u32
        requires { seat < length self.now }
    {
        self.cursors[seat as usize]
    }

    /// The Sync of a seat looks at this page next.
    pub fn look_next(&mut self, seat: u32, page: u32)
        requires { seat < length self.old }
        ensures { self.new ≡ self.old }
    {
        self.cursors[seat as usize] = page;
    }
}
