// A station's stream in lent memory: two of the control words, and its row of pending bytes.
ghost use Rattle.start.specs.Streams.{StreamDropped};

use control::layout::CONTROL_WORDS;
use control::stations::{Station, set_stream};
use stream::PENDING_BYTES;
use valid::layout::PENDING;

// The part request and the break are dropped, nothing else.
pub fn drop_stream(
    station: Station,
    control: &mut [u64; CONTROL_WORDS],
    pending: &mut [u8; PENDING],
)
    ensures { StreamDropped station.number control.old pending.old control.new pending.new }
{
    set_stream(station, 0, false, control);
    let at = station.number as usize * PENDING_BYTES;
    let end = at + PENDING_BYTES;
    stream::clear(&mut pending[at..end], PENDING_BYTES);
}
