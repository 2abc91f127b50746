//! Acts on the core's state, for tables of them: a state with what its seats have outside, what a seat does with it, and what is told of each act.
#![tactic(auto)]

mod entries;
mod tables;
mod trial;

pub use entries::acts;
pub use tables::{
    ACCESS, ALIGN, Act, FAILS_AGAIN, INVALID, NO_MAP, NO_OBJECT, NO_SWAP, NOT_MAPPED, PAST, PROT,
    READ_FAILS, STORED, TOO_LARGE, What, call_of, make, make_all, make_any,
};
pub use trial::{Told, Trial};
