// Published vectors of SHA-256 and HMAC-SHA-256, run: a line for each, and then how many passed and failed.
#![tactic(auto)]

mod sha_vectors;

use published::{HMAC_SHA_256, Tally};
use sha::Sha256;

fn run(rt: &impl Print) -> anyhow::Result<()> {
    let mut tally = Tally::default();
    sha_vectors::run(rt, &mut tally)?;
    published::run::<Sha256, _>(rt, &mut tally, &HMAC_SHA_256)?;
    println!(rt; "{tally}")?;
    tally.verdict()?;
    Ok(())
}

fn main(rt: HostRuntime) -> anyhow::Result<()> {
    run(&rt)
}
