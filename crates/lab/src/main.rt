// The program: makes five bytes into a descriptor, opens it, damages it, and tells each step in words beside its bytes.
#![tactic(auto)]

mod job;

use job::{LESSONS, tell_form};
use suites::null_hmac_sha2_256_128;

// The job in both forms.
fn tell_job(rt: &HostRuntime) -> anyhow::Result<()> {
    rt.println("One ESP-SCSI descriptor under ENCR_NULL with AUTH_HMAC_SHA2_256_128.")?;
    rt.println(
        "Buffers are filled with EE first, so that every byte that a call leaves alone shows.",
    )?;
    let suite = null_hmac_sha2_256_128();
    for lesson in LESSONS {
        tell_form(rt, &suite, lesson)?;
    }
    Ok(())
}

fn main(rt: HostRuntime) -> anyhow::Result<()> {
    tell_job(&rt)
}
