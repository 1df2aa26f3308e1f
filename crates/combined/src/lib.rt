// Suites whose one algorithm both encrypts the text and computes the check value.
#![tactic(auto)]

mod ccm_suite;
mod faults;
mod keyed;
mod nonce;

pub use ccm_suite::Ccm;
