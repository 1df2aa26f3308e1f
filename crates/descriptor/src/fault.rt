// Why a descriptor is not made, or not opened.
ghost use Rattle.std.specs.Prelude.{◌≡◌, codes, Some};
ghost use Rattle.descriptor.specs.declared.fault.Fault.TheVariants.{Layout, Suite, Padding, Vector, TooLong, Output};

use std::error::Error;
use std::fmt;

#[derive(Clone, Copy, PartialEq, Eq, Debug)]
pub enum Fault {
    // the descriptor does not lie in its list as its form and length say
    Layout(layout::Fault),
    // the suite turned it down
    Suite(suite::Fault),
    // the padding, its length or the last zero byte is wrong or missing
    Padding,
    // the vector has not the size that the suite tells
    Vector,
    // the descriptor would have more than 65,535 bytes
    TooLong,
    // the output is shorter than the descriptor
    Output,
}

impl From<layout::Fault> for Fault {
    ghost from_gives = { λ e r. r ≡ Layout e };

    fn from(fault: layout::Fault) -> Fault {
        Fault::Layout(fault)
    }
}

impl From<suite::Fault> for Fault {
    ghost from_gives = { λ e r. r ≡ Suite e };

    fn from(fault: suite::Fault) -> Fault {
        Fault::Suite(fault)
    }
}

impl Error for Fault {}

// The fault in words; layout's and suite's keep their own.
impl fmt::Display for Fault {
    ghost output = { elim [
      | Layout fault ↦ ⟦<layout::Fault as fmt::Display>⟧.output fault
      | Suite fault ↦ ⟦<suite::Fault as fmt::Display>⟧.output fault
      | Padding ↦ Some (codes "the padding or the last zero byte is wrong or missing")
      | Vector ↦ Some (codes "the vector has not the size that the suite tells")
      | TooLong ↦ Some (codes "the descriptor would have more than 65,535 bytes")
      | Output ↦ Some (codes "the output is shorter than the descriptor")
    ] };

    fn fmt<W: fmt::Write>(&self, f: &mut fmt::Formatter<W>) -> fmt::Result {
        match self {
            Fault::Layout(fault) => fault.fmt(f),
            Fault::Suite(fault) => fault.fmt(f),
            Fault::Padding => f.write_str("the padding or the last zero byte is wrong or missing"),
            Fault::Vector => f.write_str("the vector has not the size that the suite tells"),
            Fault::TooLong => f.write_str("the descriptor would have more than 65,535 bytes"),
            Fault::Output => f.write_str("the output is shorter than the descriptor"),
        }
    }
}
