// The padding that ESP-SCSI puts after data before they are encrypted, and takes off again.
#![tactic(auto)]

mod padding;

pub use padding::{data_length, pad_length, write_trailer};
