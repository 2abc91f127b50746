//! Pages that exist come home.
#![tactic(auto)]

mod brought;

pub use brought::{bring_page, is_unpushed};
