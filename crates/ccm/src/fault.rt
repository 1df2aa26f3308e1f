// Why a call was refused.

#[derive(Clone, Copy, PartialEq, Eq, Debug)]
pub enum Fault {
    // nonce, check value, text or output have lengths that do not go together
    Size,
    // no text seals to these bytes
    Mismatch,
}
