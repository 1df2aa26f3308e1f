// What the programs that show descriptors share: a lesson told step by step, in words beside its bytes.
#![tactic(auto)]

mod bytes;
mod fields;
mod lesson;

pub use bytes::tell_bytes;
pub use lesson::Lesson;
