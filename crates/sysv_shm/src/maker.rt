//! Who maps the segments.
ghost use Rattle.std.specs.Prelude.{◌≡◌, ◌≢◌, ◌≤◌, ◌<◌, ◌^◌, ℕ, List, IfOk, OnErr};
ghost use Rattle.shm_model.specs.flat_model.Flat.{Flat};
ghost use Rattle.shm_model.specs.flat_model.vm_types.Prot.{IsProt};
ghost use Rattle.shm_model.specs.flat_model.vm_types.WellFormed.{IsPlace};
ghost use Rattle.sysv_shm.specs.Makers.{IsSameMaker, MakerSeen, UserSeen, SeesOthers, MakesSegment, UnmakesSegment, AttachesSegment};

use shm_model::{Errno, Place, Prot, Reply};
use std::alloc::AllocError;
use std::sync::Wait;

/// Where the keeper maps a segment: its first address, its bytes, a multiple of 4096, and its zero
/// object.
#[derive(Clone, Copy)]
pub struct Made {
    pub addr: u32,
    pub length: u32,
    pub object: u32,
}

/// Makes the keeper's calls, and those by which users attach segments.
pub trait ShmMaker {
    /// What the calls are made on. It is lent to each, since no thread may be lent a table that
    /// borrows it.
    type Kernel;

    /// Who attaches segments.
    type User;

    ghost look: { Self → MakerSeen };

    /// The flat memory from which the history seen began.
    ghost starts: { Self → Flat → Type 0 };

    ghost user_of: { Self.User → UserSeen };

    /// What a call of the maker keeps of a user, whatever comes of it.
    ghost stays_user: { Self.User → Self.User → Type 0 };

    /// The maker's calls are made on this one.
    ghost is_on: { Self → Self.Kernel → Type 0 };

    /// The user belongs to this maker, is alive, and is between calls with nothing in hand.
    ghost may_attach: { Self → Self.User → Type 0 };

    /// The keeper maps new zeros of this length, at the lowest gap, which it can't touch.
    fn make<R: Wait>(
        &mut self,
        rt: &R,
        kernel: &Self::Kernel,
        length: u32,
    ) -> Result<Result<Made, Errno>, AllocError>
        requires kernel { is_on self.old kernel.now }
        requires room { 1 ≤ (look self.old).room }
        ensures same { IsSameMaker look starts is_on may_attach self.old self.new }
        ensures makes { IfOk result (MakesSegment (starts self.old) (look self.old) (look self.new)
            length) }
        ensures err { OnErr result (SeesOthers (look self.old) (look self.new)) };

    /// The keeper unmaps it.
    fn unmake<R: Wait>(
        &mut self,
        rt: &R,
        kernel: &Self::Kernel,
        made: &Made,
    ) -> Result<(), AllocError>
        requires kernel { is_on self.old kernel.now }
        requires room { 1 ≤ (look self.old).room }
        ensures same { IsSameMaker look starts is_on may_attach self.old self.new }
        ensures unmakes { IfOk result (λ _. UnmakesSegment (look self.old) (look self.new)
            made.now) }
        ensures err { OnErr result (SeesOthers (look self.old) (look self.new)) };

    /// The user maps all of it.
    fn attach<R: Wait>(
        &mut self,
        rt: &R,
        kernel: &Self::Kernel,
        user: &mut Self::User,
        made: &Made,
        place: Place,
        prot: Prot,
    ) -> Result<Reply, AllocError>
        requires kernel { is_on self.old kernel.now }
        requires formed { IsPlace place × IsProt prot }
        requires room { 1 ≤ (Self.user_of user.old).room }
        requires may { may_attach self.old user.old }
        ensures same { IsSameMaker look starts is_on may_attach self.old self.new }
        ensures user { stays_user user.old user.new }
        ensures attaches { IfOk result (AttachesSegment (look self.old) (look self.new)
            (Self.user_of user.old) (Self.user_of user.new) made.now place prot) }
        ensures err { OnErr result (SeesOthers (look self.old) (look self.new)) }
        ensures still { OnErr result (Self.user_of user.new ≡ Self.user_of user.old) };

    ghost apart: { (m : Self) (u : Self.User) → may_attach m u
        → (user_of u).process ≢ (look m).keeper };

    ghost stays: { (m : Self) (u : Self.User) → may_attach m u → stays_user u u };
}
