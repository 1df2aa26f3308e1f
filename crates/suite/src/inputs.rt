// What sealing and opening take besides the text.

// Stays: keys are compared with no early exit and never printed, so `==` and `Debug` are not derived.
#[derive(Clone, Copy)]
pub struct Inputs<'a> {
    // the encryption key
    pub key: &'a [u8],
    pub salt: &'a [u8],
    // the integrity key
    pub integrity: &'a [u8],
    // SAI, then SQN
    pub head: &'a [u8],
    pub vector: &'a [u8],
}
