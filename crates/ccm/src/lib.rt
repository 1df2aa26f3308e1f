// CCM (SP 800-38C, RFC 3610) over any block cipher.
#![tactic(auto)]

mod blocks;
mod chain;
mod fault;
mod lengths;
mod masking;
mod opening;
mod packet;
mod sealing;

pub use fault::Fault;
pub use opening::open;
pub use sealing::seal;
