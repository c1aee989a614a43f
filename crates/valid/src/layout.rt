// The sizes of the lent memory's parts beside the control words.
use control::layout::STATIONS;
use stream::PENDING_BYTES;
pub use token::layout::{DACLS, TOKENS};

pub const PENDING: usize = STATIONS * PENDING_BYTES;
