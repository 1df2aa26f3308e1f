// HMAC (RFC 2104), over any hash.
ghost use Rattle.std.specs.Prelude.{◌≡◌, ℕ, List, [], ◌++◌, length};
ghost use Rattle.octets.specs.Octets.{over, zeros};
ghost use Rattle.hmac.specs.Hmac.{ipad, opad, padded, key_block, hmac, mac_after};

use crate::hash::Hash;

// The longest block, and so the longest digest, of a hash.
const LONGEST_BLOCK: usize = 128;

// ipad and opad of RFC 2104.
const INNER_PAD: u8 = 0x36;

const OUTER_PAD: u8 = 0x5c;

// A check value under way: two hashes that have absorbed the padded key, the inner one the message so far too.
#[derive(Drop)]
pub struct Hmac<H> {
    inner: H,
    outer: H,
}

impl<H: Hash> Hmac<H> {
    // Begins a check value under `key`, of any length.
    pub fn new(key: &[u8]) -> Self
        ensures keyed { (x : List ℕ) → mac_after H.after H.size result x ≡ hmac H.digest H.block key.now x }
    {
        // Stays: a fixed room and a length beside it, since an array's length cannot be a member of the hash, and there is no heap.
        let mut room = [0; LONGEST_BLOCK];
        let n = H::block_size();
        begun_in(key, &mut room[..n])
    }

    // Absorbs `part` of the message after what came before.
    pub fn absorb(&mut self, part: &[u8])
        ensures absorbed { (x : List ℕ) → mac_after H.after H.size self.new x ≡ mac_after H.after H.size self.old (part.now ++ x) }
    {
        self.inner.absorb(part);
    }

    // Writes the check value over the start of `out`, as far as `out` reaches.
    pub fn finish(self, out: &mut [u8])
        ensures check_value_over_the_start { out.new ≡ over (mac_after H.after H.size self []) out.old }
    {
        let Hmac { inner, mut outer } = self;
        // Stays: a fixed room and a length beside it, as in `new`.
        let mut room = [0; LONGEST_BLOCK];
        let n = H::digest_size();
        pass_on(inner, &mut outer, &mut room[..n]);
        outer.finish(out);
    }
}

// The two hashes, each begun with the key block under its pad. The block is made in `room`, and wiped there.
fn begun_in<H: Hash>(key: &[u8], room: &mut [u8]) -> Hmac<H>
    requires a_block { length room.old ≡ H.block }
    ensures inner_begun { (x : List ℕ) → H.after result.inner x ≡ H.digest (padded ipad (key_block H.digest H.block key.now) ++ x) }
    ensures outer_begun { (x : List ℕ) → H.after result.outer x ≡ H.digest (padded opad (key_block H.digest H.block key.now) ++ x) }
    ensures key_wiped { room.new ≡ zeros H.block }
{
    store_key::<H>(key, room);
    let inner = begun(room, INNER_PAD);
    let outer = begun(room, OUTER_PAD);
    room.fill(0);
    Hmac { inner, outer }
}

// Makes the key block in `room`: the key, or its digest where it is longer than a block, and zeros.
fn store_key<H: Hash>(key: &[u8], room: &mut [u8])
    requires a_block { length room.old ≡ H.block }
    ensures the_key_block { room.new ≡ key_block H.digest H.block key.now }
{
    room.fill(0);
    if key.len() <= room.len() {
        room[..key.len()].copy_from_slice(key);
    } else {
        digest_over::<H>(key, room);
    }
}

// Writes the digest of `message` over the start of `out`, as far as `out` reaches.
pub fn digest_over<H: Hash>(message: &[u8], out: &mut [u8])
    ensures digest_over_the_start { out.new ≡ over (H.digest message.now) out.old }
{
    let mut hash = H::new();
    hash.absorb(message);
    hash.finish(out);
}

// A hash that has absorbed `room` with `pad` on each byte; `room` is left as it was.
fn begun<H: Hash>(room: &mut [u8], pad: u8) -> H
    ensures padded_absorbed { (x : List ℕ) → H.after result x ≡ H.digest (padded pad room.old ++ x) }
    ensures room_kept { room.new ≡ room.old }
{
    let mut hash = H::new();
    pad_each(room, pad);
    hash.absorb(room);
    pad_each(room, pad);
    hash
}

// Exclusive or of each byte with `pad`.
fn pad_each(bytes: &mut [u8], pad: u8)
    ensures all_padded { bytes.new ≡ padded pad bytes.old }
{
    for b in bytes.iter_mut() {
        *b ^= pad;
    }
}

// Lets `outer` absorb the digest of `inner`, which goes through `room`; that holds no bytes of before.
fn pass_on<H: Hash>(inner: H, outer: &mut H, room: &mut [u8])
    requires a_digest { length room.old ≡ H.size }
    ensures digest_absorbed { (x : List ℕ) → H.after outer.new x ≡ H.after outer.old (over (H.after inner []) (zeros H.size) ++ x) }
{
    room.fill(0);
    inner.finish(room);
    outer.absorb(room);
}
