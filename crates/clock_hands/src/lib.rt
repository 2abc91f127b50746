//! The two hands of the clock over a world: what was said of a page's use is cleared, and a page that wasn't used since is let go of, or is to be pushed.
#![tactic(auto)]

mod clock;

pub use clock::turn_hand;
