// A lesson: one descriptor made, opened, damaged and opened again.
use crate::bytes::tell_bytes;
use crate::fields::tell_fields;
use descriptor::{Label, Protection, make, open};
use layout::Form;
use std::io;
use suite::{Sizes, Suite, WORK};

// What the buffers hold before a call, so that a reader sees which bytes a call leaves alone.
const OLD: u8 = 0xee;

// The longest descriptor that a lesson may have.
const LONGEST: usize = 96;

// One descriptor to make: its form, its protection, its vector and its data.
#[derive(Clone, Copy)]
pub struct Lesson {
    pub title: &'static str,
    pub form: Form,
    pub protection: Protection<'static>,
    pub vector: &'static [u8],
    pub plain: &'static [u8],
}

impl Lesson {
    // Tells the lesson from making on, with a `remark` on the check value, and opens into a data buffer of `room` bytes, at most 96.
    pub fn tell<S: Suite>(
        self,
        rt: &impl Print,
        suite: &S,
        sizes: Sizes,
        remark: &str,
        room: usize,
    ) -> io::Result<()> {
        let label = Label {
            form: self.form,
            sai: 0x1234,
            sqn: 8,
        };
        // Stays: rooms of the longest length, since telling takes no allocator and cannot run out of memory.
        let mut list = [OLD; LONGEST];
        let mut work = [OLD; WORK];
        let made = make(
            suite,
            self.protection,
            label,
            self.vector,
            self.plain,
            &mut list,
            &mut work,
        );
        match made {
            Ok(length) => {
                let descriptor = first(&mut list, length);
                println!(rt; "2. Made: a descriptor of {length} bytes. {remark}")?;
                tell_fields(rt, self.form, sizes, descriptor)?;
                rt.println("3. Opened.")?;
                self.tell_opened(rt, suite, descriptor, room, &mut work)?;
                tell_damage(rt, sizes, descriptor)?;
                rt.println("5. Opened again.")?;
                self.tell_opened(rt, suite, descriptor, room, &mut work)
            }
            Err(fault) => println!(rt; "   Not made: {fault}."),
        }
    }

    // What opening says, and what it leaves in the data buffer.
    fn tell_opened<S: Suite>(
        self,
        rt: &impl Print,
        suite: &S,
        descriptor: &[u8],
        room: usize,
        work: &mut [u8],
    ) -> io::Result<()> {
        let span = self.form.span(descriptor.len());
        let mut buffer = [OLD; LONGEST];
        let data = first(&mut buffer, room);
        match open(suite, self.protection, descriptor, 0, span, data, work) {
            Ok(opened) => println!(rt;
                "     Taken: SAI {:08X}h, SQN {}, {} bytes of data.",
                opened.sai, opened.sqn, opened.length
            )?,
            Err(fault) => println!(rt; "     Refused: {fault}.")?,
        }
        tell_bytes(rt, "Data buffer:", data)
    }
}

// The first `n` bytes, or all where they are fewer.
fn first(bytes: &mut [u8], n: usize) -> &mut [u8] {
    let n = n.min(bytes.len());
    &mut bytes[..n]
}

// Turns one bit in the last byte of the protected part.
fn tell_damage(rt: &impl Print, sizes: Sizes, descriptor: &mut [u8]) -> io::Result<()> {
    let at = descriptor
        .len()
        .saturating_sub(sizes.check)
        .saturating_sub(1);
    let Some(byte) = descriptor.get_mut(at) else {
        return rt.println("   The descriptor is empty.");
    };
    let before = *byte;
    let after = before ^ 1;
    *byte = after;
    println!(rt; "4. One bit turned on the way: byte {at} was {before:02X} and is {after:02X}.")
}
