// Bytes as a person reads them.
use std::{fmt, io};

// Two hexadecimal digits a byte, with spaces between.
#[derive(Clone, Copy)]
pub(crate) struct Hex<'a>(pub &'a [u8]);

impl fmt::Display for Hex<'_> {
    fn fmt<W: fmt::Write>(&self, f: &mut fmt::Formatter<W>) -> fmt::Result {
        let Some((first, rest)) = self.0.split_first() else {
            return f.write_str("(none)");
        };
        write!(f, "{first:02X}")?;
        for byte in rest {
            write!(f, " {byte:02X}")?;
        }
        Ok(())
    }
}

// The characters of the bytes, with a dot for what has none.
#[derive(Clone, Copy)]
struct Text<'a>(&'a [u8]);

impl fmt::Display for Text<'_> {
    fn fmt<W: fmt::Write>(&self, f: &mut fmt::Formatter<W>) -> fmt::Result {
        for byte in self.0 {
            let shown = match byte {
                b' '..=b'~' => char::from(*byte),
                _ => '.',
            };
            write!(f, "{shown}")?;
        }
        Ok(())
    }
}

// Bytes, and their characters beside them.
pub fn tell_bytes(rt: &impl Print, name: &str, bytes: &[u8]) -> io::Result<()> {
    println!(rt; "     {name:<12}  {}   \"{}\"", Hex(bytes), Text(bytes))
}
