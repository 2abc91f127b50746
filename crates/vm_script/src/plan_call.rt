//! The call of a line.
ghost use Rattle.std.specs.Prelude.{◌≡◌};

use flat_model::{Call, Kind, Object, Place, Prot};
use std::marker::Model;

/// A call that is no part of a write.
#[derive(Clone, Copy)]
pub enum KeptCall {
    Load {
        addr: u32,
        size: u32,
    },
    Store {
        addr: u32,
        size: u32,
        value: u32,
    },
    Map {
        place: Place,
        length: u32,
        prot: Prot,
        kind: Kind,
        object: Object,
        offset: u32,
    },
    Unmap {
        addr: u32,
        length: u32,
    },
    Protect {
        addr: u32,
        length: u32,
        prot: Prot,
    },
    Sync {
        addr: u32,
        length: u32,
    },
    Read {
        file: u32,
        offset: u32,
        length: u32,
    },
    Truncate {
        file: u32,
        length: u32,
    },
    Fork {
        child: u32,
    },
    Exit,
}

/// The call of a line, which is no part of a write: a line gives a write with all its bytes. It takes 32 bytes where a `Call` takes 84, since that may
/// hold the bytes of a part.
///
/// It is seen as the call.
#[derive(Drop)]
pub struct PlanCall {
    pub(crate) kept: KeptCall,
}

impl Model for PlanCall {
    ghost use Rattle.flat_model.specs.vm_types.declared.call.Call.{Call as CallSeen};
    ghost use Rattle.vm_script.specs.PlanCalls.{call_kept};

    ghost Value = { CallSeen };

    ghost view = { λ c. call_kept c.kept };
}

impl PlanCall {
    /// The call itself.
    #[inline(always)]
    pub fn call(&self) -> Call
        ensures { result ≡ self.now }
    {
        match self.kept {
            KeptCall::Load { addr, size } => Call::Load { addr, size },
            KeptCall::Store { addr, size, value } => Call::Store { addr, size, value },
            KeptCall::Map {
                place,
                length,
                prot,
                kind,
                object,
                offset,
            } => Call::Map {
                place,
                length,
                prot,
                kind,
                object,
                offset,
            },
            KeptCall::Unmap { addr, length } => Call::Unmap { addr, length },
            KeptCall::Protect { addr, length, prot } => Call::Protect { addr, length, prot },
            KeptCall::Sync { addr, length } => Call::Sync { addr, length },
            KeptCall::Read {
                file,
                offset,
                length,
            } => Call::Read {
                file,
                offset,
                length,
            },
            KeptCall::Truncate { file, length } => Call::Truncate { file, length },
            KeptCall::Fork { child } => Call::Fork { child },
            KeptCall::Exit => Call::Exit,
        }
    }
}
