// Start and reconnect with the handle list by value: they serve nothing.
#![tactic(auto)]

ghost use Rattle.std.specs.Prelude.{◌≤◌, OnOk};
ghost use Rattle.rules.specs.State.{handle_slots};
ghost use Rattle.handle.specs.Words.{records_in};
ghost use Rattle.start.specs.Promise.{StartsWith, ReconnectsWith};

use control::stations::Station;
use handle::Handles;
use table::slices::whole;

mod initial;
mod refusal;
mod station;

pub use refusal::CallRefusal;

// Where it is not refused, all 32 handles become free slots.
pub fn start(
    tokens: &mut [u64],
    dacls: &mut [u8],
    count: usize,
    control: &mut [u64],
    pending: &mut [u8],
) -> Result<(), CallRefusal>
    ensures started { StartsWith count tokens.old dacls.old control.old pending.old tokens.new dacls.new control.new pending.new result }
    ensures inside { OnOk result (handle_slots ≤ count) }
{
    let t = tokens.len();
    let d = dacls.len();
    let c = control.len();
    let p = pending.len();
    if valid::is_sized(t, d, count, c, p) {
        initial::write(tokens, dacls, control, pending);
        Ok(())
    } else {
        Err(CallRefusal::InvalidMemory)
    }
}

pub fn reconnect(
    station: u32,
    tokens: &[u64],
    dacls: &[u8],
    count: usize,
    handles: Handles,
    control: &mut [u64],
    pending: &mut [u8],
) -> Result<(), CallRefusal>
    ensures { ReconnectsWith station count (records_in handles.words) tokens.now dacls.now control.old pending.old control.new pending.new result }
{
    let Some(there) = Station::new(station) else {
        return Err(CallRefusal::NoStation);
    };
    if !valid::valid(tokens, dacls, count, &handles.words, control, pending) {
        return Err(CallRefusal::InvalidMemory);
    }
    station::drop_stream(there, whole(control), whole(pending));
    Ok(())
}
