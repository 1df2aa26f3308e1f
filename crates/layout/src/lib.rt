// The layout of an ESP-SCSI descriptor: its two forms, and where its parts are in a list.
#![tactic(auto)]

mod fault;
mod form;
mod frame;

pub use fault::Fault;
pub use form::{Form, Span};
pub use frame::{Frame, Parts, read_frame};
