// Published vectors of FIPS, NIST and RFC, run: a line for each, and then how many passed and failed.
#![tactic(auto)]

mod aes_vectors;
mod both_ways;
mod cbc_vectors;
mod ccm_vectors;
mod hmac_vectors;
mod sha_vectors;

use aes::Aes;
use aes_vectors::AES;
use both_ways::Vector;
use cbc_vectors::CBC;
use ccm_vectors::{CCM, Counter, LONG};
use published::Tally;

fn run(rt: &HostRuntime) -> anyhow::Result<()> {
    let mut tally = Tally::default();
    sha_vectors::run(rt, &mut tally)?;
    hmac_vectors::run(rt, &mut tally)?;
    both_ways::run::<Aes, _>(rt, &mut tally, &AES)?;
    both_ways::run::<Aes, _>(rt, &mut tally, &CBC)?;
    both_ways::run::<Aes, _>(rt, &mut tally, &CCM)?;
    run_long(rt, &mut tally)?;
    println!(rt; "{tally}")?;
    tally.verdict()?;
    Ok(())
}

// Runs the vector whose associated data are too long for a table.
fn run_long(rt: &HostRuntime, tally: &mut Tally) -> anyhow::Result<()> {
    let mut aad = vec![in rt.alloc(); 0; 65536]?;
    for (place, byte) in aad.iter_mut().enumerate() {
        *byte = (place & 0xff) as u8;
    }
    let mode = Counter {
        aad: &aad,
        ..LONG.mode
    };
    both_ways::run::<Aes, _>(rt, tally, &[Vector { mode, ..LONG }])?;
    Ok(())
}

fn main(rt: HostRuntime) -> anyhow::Result<()> {
    run(&rt)
}
