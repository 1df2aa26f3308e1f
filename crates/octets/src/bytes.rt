// What the type of a slice says of its values.
ghost use Rattle.octets.specs.Octets.{Octets};

// Says that every value of a slice of bytes is a byte, for the laws that ask it. It computes nothing.
pub fn bytes_are_octets(bytes: &[u8])
    ensures every_value_is_a_byte { Octets bytes.now }
{
    let _read = bytes;
}
