// The three terms that name a protection.

// An encryption algorithm code, an integrity algorithm code, and the length of the encryption key in bytes.
// Stays: a code is any 32 bits that arrive, so no enum has them all; what kind of code it is says the enum `codes::Sort`.
#[derive(Clone, Copy, PartialEq, Eq, Debug)]
pub struct Triple {
    pub encryption: u32,
    pub integrity: u32,
    pub key: usize,
}
