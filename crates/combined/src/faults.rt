// The faults of CCM as those of a suite.
ghost use Rattle.std.specs.Prelude.{◌≡◌, Err};
ghost use Rattle.combined.specs.CcmSuite.{told};

use suite::Fault;

// The fault of a suite where CCM tells `fault`.
// Stays: no `From`, since both types are of other crates, which Rattle refuses as Rust does.
pub(crate) fn suite_fault(fault: ccm::Fault) -> Fault
    ensures as_told { Err result ≡ told (Err fault) }
{
    match fault {
        ccm::Fault::Size => Fault::Size,
        ccm::Fault::Mismatch => Fault::Mismatch,
    }
}
