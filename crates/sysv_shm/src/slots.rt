//! What is kept for each key. A slot stays with its key for good.
ghost use Rattle.std.specs.Prelude.{◌≡◌, ℕ, [], IsSome, OnOk};
ghost use Rattle.sysv_shm.specs.Slots.{key_slot, kept_at, with_slot};

use crate::maker::Made;
use std::alloc::{AllocError, Global};
use std::collections::BTreeMap;
use std::marker::Model;

/// Where each key's segment is mapped, if it has one.
///
/// Contracts see it as `SlotsSeen`: the slots of keys, in the order of the keys.
#[derive(Drop)]
pub(crate) struct Slots {
    tree: BTreeMap<u32, Option<Made>>,
}

impl Model for Slots {
    ghost use Rattle.sysv_shm.specs.Slots.{SlotsSeen};

    ghost Value = { SlotsSeen };

    ghost view = { λ s. s.tree.entries };
}

impl Slots {
    /// No key has a slot. It takes no memory.
    pub(crate) fn none(alloc: Global) -> Slots
        ensures { result ≡ [] }
    {
        Slots {
            tree: BTreeMap::new(alloc),
        }
    }

    /// Where the key's segment is mapped. Time: the logarithm of the slots.
    pub(crate) fn made_at(&self, key: u32) -> Option<Made>
        ensures { result ≡ kept_at self.now key }
    {
        match self.tree.get(&key) {
            Some(made) => *made,
            None => None,
        }
    }

    /// Gives the key a slot, if it has none. What is kept for each key stays. The error is want of
    /// memory. Time: as of `made_at`.
    pub(crate) fn prepare(&mut self, key: u32) -> Result<(), AllocError>
        ensures slot { OnOk result (IsSome (key_slot self.new key)) }
        ensures same { (k : ℕ) → kept_at self.new k ≡ kept_at self.old k }
    {
        if !self.tree.contains_key(&key) {
            self.tree.insert(key, None)?;
        }
        Ok(())
    }

    /// Keeps something else for a key that has a slot. It takes no memory. Time: as of `made_at`.
    pub(crate) fn keep(&mut self, key: u32, made: Option<Made>)
        requires { IsSome (key_slot self.old key) }
        ensures { (k : ℕ) → kept_at self.new k ≡ with_slot self.old key made k }
    {
        let Ok(_) = self.tree.insert(key, made) else {
            unreachable!()
        };
    }
}
