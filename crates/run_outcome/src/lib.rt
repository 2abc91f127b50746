//! How a run ended, case by case, and what is handed back.
#![tactic(auto)]

mod block_laws;
mod concluding;
mod members;
mod numbers;
mod outcome;
mod run_laws;
mod stop;

pub use block_laws::synced_block_law;
pub use concluding::conclude;
pub use members::{hand_members, take_rooms};
pub use numbers::without_numbers;
pub use outcome::Outcome;
pub use run_laws::{
    as_asked_law, disks_back_law, errors_counted_law, errors_rise_law, kept_files_law,
    ran_fronts_law, status_law,
};
pub use stop::{Stop, bare_stop, stop_unopened};
