//! The two hands of the clock.
ghost use Rattle.std.specs.Prelude.{◌≡◌, ◌<◌, None, length, option_map};
ghost use Rattle.fault_entry.specs.vm_world.Events.{IsEvent};
ghost use Rattle.clock_hands.specs.Clock.{ClockMoves, after_hand, kept_of_clock};
ghost use Rattle.vm_core.specs.State.{kept_seen};
ghost use Rattle.vm_core.specs.Fits.{FitsAt};

use crate::kept::{Kept, forget};
use crate::state::VmState;
use clock_hands::turn_hand;
use fault_entry::{Disk, Plan};

/// The plan is kept for the clock, where there is one.
fn keep(kept: &mut Option<Kept>, seat: u32, plan: Option<Plan>)
    ensures { option_map kept_seen kept.new ≡ option_map (kept_of_clock seat) plan }
{
    match plan {
        Some(plan) => {
            *kept = Some(Kept {
                seat,
                plan,
                of: None,
            });
        }
        None => forget(kept),
    }
}

impl<D: Disk> VmState<D> {
    /// One move of a hand: the front hand clears the reference bits of its page, and the back hand lets go of a page that wasn't
    /// referenced since. Some, a push, where that page has to be written first; `begin` then begins it.
    ///
    /// Takes no memory, and makes no disk call. Time: the page's translations.
    pub fn clock(&mut self, seat: u32) -> Option<Plan>
        requires fits { FitsAt self.old seat None }
        requires seat { seat < length self.old.syncs }
        ensures moves { ClockMoves self.old.memory.world self.new.memory.world result }
        ensures event { IsEvent seat self.old None self.new None }
        // What stays: all but the world and the plan that is kept.
        ensures rest { self.new ≡ after_hand self.old self.new.memory.world
            (option_map (kept_of_clock seat) result) }
    {
        let plan = turn_hand(&mut self.world);
        keep(&mut self.plan, seat, plan);
        plan
    }
}
