// One ESP-SCSI descriptor made and opened, over any suite.
#![tactic(auto)]

mod fault;
mod making;
mod opening;
mod protection;
mod served;

pub use fault::Fault;
pub use making::{LONGEST, Label, make};
pub use opening::{Opened, open, open_frame};
pub use protection::Protection;
