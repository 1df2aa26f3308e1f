// The program: under each suite of the standard bank, makes data into a descriptor, opens it, damages it, and tells each
// step in words beside its bytes.
#![tactic(auto)]

mod job;
mod lessons;

use job::tell_lesson;
use lessons::LESSONS;
use suites::standard_bank;

fn tell_job(rt: &HostRuntime) -> anyhow::Result<()> {
    rt.println("ESP-SCSI descriptors under each suite of the standard bank.")?;
    rt.println(
        "Buffers are filled with EE first, so that every byte that a call leaves alone shows.",
    )?;
    let bank = standard_bank();
    for lesson in LESSONS {
        tell_lesson(rt, &bank, lesson)?;
    }
    Ok(())
}

fn main(rt: HostRuntime) -> anyhow::Result<()> {
    tell_job(&rt)
}
