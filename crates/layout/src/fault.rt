// Why a descriptor is refused.
ghost use Rattle.std.specs.Prelude.{codes, Some};
ghost use Rattle.layout.specs.declared.fault.Fault.TheVariants.{Cut, Length, Parts};

use std::error::Error;
use std::fmt;

#[derive(Clone, Copy, PartialEq, Eq, Drop, Debug)]
pub enum Fault {
    // Its place is past the list's end, or fewer bytes are left from there on than reach to the end of its SQN.
    Cut,
    // By its length it ends before its SQN does, or after the list does.
    Length,
    // What follows its SQN has no room for vector and check value, or what is left between them cannot be a protected part.
    Parts,
}

impl Error for Fault {}

// The fault in words.
impl fmt::Display for Fault {
    ghost output = { elim [
      | Cut ↦ Some (codes "the list ends before the descriptor's SQN does")
      | Length ↦ Some (codes "by its length the descriptor ends before its SQN does, or after the list does")
      | Parts ↦ Some (codes "vector, protected part and check value do not fit the descriptor")
    ] };

    fn fmt<W: fmt::Write>(&self, f: &mut fmt::Formatter<W>) -> fmt::Result {
        f.write_str(match self {
            Fault::Cut => "the list ends before the descriptor's SQN does",
            Fault::Length =>
                "by its length the descriptor ends before its SQN does, or after the list does",
            Fault::Parts => "vector, protected part and check value do not fit the descriptor",
        })
    }
}
