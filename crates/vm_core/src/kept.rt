//! The last plan that an event answered.
ghost use Rattle.std.specs.Prelude.{◌≡◌, None};

use fault_entry::{Call, Plan};

/// A plan that an event answered: the seat that may begin it, and the process and call that it is for; none where it is the
/// clock's.
#[derive(Clone, Copy, PartialEq, Eq, Debug)]
pub struct Kept {
    pub seat: u32,
    pub plan: Plan,
    pub of: Option<(u32, Call)>,
}

/// No plan is kept. Where none was, nothing is written: each hit comes here, and a plan has room for a whole call.
pub(crate) fn forget(plan: &mut Option<Kept>)
    ensures { plan.new ≡ None }
{
    if plan.is_some() {
        *plan = None;
    }
}
