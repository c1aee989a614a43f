// What the control words refer to: a token lives while a station or a linked pair refers to it, or a handle.
ghost use Rattle.control.specs.References.{Refer};

use crate::layout::CONTROL_WORDS;
use crate::{pairs, stations};

pub fn refer(token: u64, control: &[u64; CONTROL_WORDS]) -> bool
    ensures { Refer token control.now result }
{
    let by_station = stations::refers(token, control);
    let by_pair = pairs::refer(token, control);
    by_station | by_pair
}
