// Cipher block chaining (SP 800-38A, section 6.2) over any block cipher, in place.
#![tactic(auto)]

mod deciphering;
mod enciphering;
mod turning;

pub use deciphering::decipher;
pub use enciphering::encipher;
pub use turning::NotWholeBlocks;
