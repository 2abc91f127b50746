//! Core memory as frames of 4096 bytes, which are home in their core or owned by whoever took them.
#![tactic(auto)]

mod arena;
mod frame;
mod region;
mod rows;

pub use crate::arena::Core;
pub use crate::frame::Frame;
use std::alloc::AllocError;

/// Want of memory.
pub type OutOfMemory = AllocError;

/// The bytes of a frame.
pub const FRAME_BYTES: usize = 4096;
