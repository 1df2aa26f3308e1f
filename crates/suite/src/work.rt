// The guard over the work bytes.
ghost use Rattle.std.specs.Prelude.{◌≡◌};
ghost use Rattle.octets.specs.Octets.{wiped};

use crate::sizes::WORK;
use octets::zero_first;

// Holds the work area during a call; whichever way the call ends, the work bytes at its start are zero then.
pub struct WorkGuard<'a> {
    pub area: &'a mut [u8],
}

impl Drop for WorkGuard<'_> {
    fn drop(self)
        ensures work_bytes_zero { self.exit.0.now ≡ wiped 240 self.entry.area.now }
    {
        zero_first(WORK, self.area);
        let WorkGuard { area: _ } = self;
    }
}
