//! What a line of a script says, and where it stands.
use crate::plan::{PlanAct, SetupAct};

/// Where a line stands: inside a block, before the first block, and behind a line `frames`, `swap`
/// or `translations`.
#[derive(Clone, Copy)]
pub struct LineSpot {
    pub inside: bool,
    pub opening: bool,
    pub frames: bool,
    pub swap: bool,
    pub translations: bool,
}

/// What a line says.
#[derive(Drop)]
pub enum Statement {
    Nothing,
    Setup(SetupAct),
    Process,
    Fork,
    End,
    Own(PlanAct),
}
