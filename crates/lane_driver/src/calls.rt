//! Which calls a lane may have.
ghost use Rattle.std.specs.Prelude.{◌≡◌, ◌↔◌, IsTrue, true};
ghost use Rattle.fault_entry.specs.vm_types.Pages.{line_rest};
ghost use Rattle.fault_entry.specs.vm_types.declared.call.Call.TheVariants.{Exit};
ghost use Rattle.lane_driver.specs.Lanes.{AreLaneCalls, IsLaneCall};

use fault_entry::Call;

// How many bytes there are from an offset to the end of its line.
fn line_rest(offset: u32) -> u32
    ensures { result ≡ line_rest offset }
{
    64 - offset % 64
}

/// Whether a lane may have this call.
fn is_lane_call(call: &Call) -> bool
    ensures { IsTrue result ↔ IsLaneCall call.now }
{
    let whole = match *call {
        Call::Read { offset, length, .. } => length <= line_rest(offset),
        Call::Write { rest, .. } => rest == 0,
        Call::Fork { .. } => false,
        _ => true,
    };
    whole && call.is_well_formed()
}

// Whether a lane may have this call, last or not.
fn is_lane_call_at(call: &Call, is_last: bool) -> bool
    ensures { IsTrue result ↔ (IsLaneCall call.now × (call.now ≡ Exit → is_last ≡ true)) }
{
    is_lane_call(call) && (is_last || *call != Call::Exit)
}

/// Whether these calls may be a lane's: each is well formed, none is a Fork, an Exit is the last, and a part of a read or a write lies
/// inside one line with nothing of its call to follow. Time: their number.
pub fn are_lane_calls(calls: &[Call]) -> bool
    ensures { IsTrue result ↔ AreLaneCalls calls.now }
{
    for place in 0..calls.len() {
        if !is_lane_call_at(&calls[place], place + 1 == calls.len()) {
            return false;
        }
    }
    true
}
