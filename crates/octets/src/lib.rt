// Bytes in slices: big-endian numbers, writing over the start of a buffer, zeroing, and a comparison with no early exit.
#![tactic(auto)]

mod buffers;
mod bytes;
mod numbers;

pub use buffers::{NoRoom, copy_at, copy_over, same_octets, zero_first};
pub use bytes::bytes_are_octets;
pub use numbers::{Number, array_at};
