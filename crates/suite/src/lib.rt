// What a protection suite is: which triples it serves, with which sizes, and what sealing and opening mean.
#![tactic(auto)]

mod cipher;
mod fault;
mod fitting;
mod inputs;
mod integrity;
mod sizes;
mod suite;
mod triple;
mod work;

pub use cipher::{Cipher, CipherSizes};
pub use fault::Fault;
pub use fitting::Fitting;
pub use inputs::Inputs;
pub use integrity::{Integrity, IntegritySizes};
pub use sizes::{HEAD, Sizes, WORK};
pub use suite::Suite;
pub use triple::Triple;
pub use work::WorkGuard;
