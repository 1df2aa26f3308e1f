// What a hash is given.
ghost use Rattle.std.specs.Prelude.{◌≡◌, ℕ, List};
ghost use Rattle.octets.specs.Octets.{over};
ghost use Rattle.hmac.specs.Hmac.{hmac};
ghost use Rattle.published.specs.Inputs.{repeated};

use hmac::{Hash, Hmac};

// What a hash is given, and what it makes of it.
pub trait Input {
    // what comes of it under a hash with this digest and blocks of so many bytes
    ghost answered: { (List ℕ → List ℕ) → ℕ → Self → List ℕ };

    // Writes what comes of it over the start of `out`, as far as `out` reaches.
    fn answer<H: Hash>(&self, out: &mut [u8])
        ensures answer_over_the_start { out.new ≡ over (answered H.digest H.block self.now) out.old };
}

// A message: so many times the same part. Its digest comes of it.
#[derive(Clone, Copy)]
pub struct Message {
    pub part: &'static [u8],
    pub times: usize,
}

impl Input for Message {
    ghost answered = { λ digest block message. digest (repeated message.times message.part.now) };

    fn answer<H: Hash>(&self, out: &mut [u8]) {
        let mut hash = H::new();
        for _ in 0..self.times {
            hash.absorb(self.part);
        }
        hash.finish(out);
    }
}

// A message under a key. Its check value by HMAC comes of it.
#[derive(Clone, Copy)]
pub struct Keyed {
    pub key: &'static [u8],
    pub message: &'static [u8],
}

impl Input for Keyed {
    ghost answered = { λ digest block keyed. hmac digest block keyed.key.now keyed.message.now };

    fn answer<H: Hash>(&self, out: &mut [u8]) {
        let mut mac = Hmac::<H>::new(self.key);
        mac.absorb(self.message);
        mac.finish(out);
    }
}
