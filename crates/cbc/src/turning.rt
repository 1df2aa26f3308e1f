// Turning the blocks of a text in place, each chained to the one before it.
ghost use Rattle.std.specs.Prelude.{◌≡◌, ◌/◌, length, if◌then◌else◌};
ghost use Rattle.std.specs.Result.{is_ok};
ghost use Rattle.cbc.specs.Cbc.{whole_blocks};
ghost use Rattle.cbc.specs.Turning.{Turn, TurnsAs, turned, last_chain};

use block::BLOCK;

// A text that has no whole number of blocks, which is left as it was.
#[derive(Clone, Copy, PartialEq, Eq, Debug)]
pub struct NotWholeBlocks;

// Turns each block of `text` by `turn`, which is given the chain and the block and leaves in their places the chain for the
// next block and what the block becomes.
pub(crate) fn turn_blocks<F: Fn(&mut [u8; 16], &mut [u8; 16])>(
    chain: &mut [u8; 16],
    text: &mut [u8],
    turn: F,
) -> Result<(), NotWholeBlocks>
    requires takes_every_block { F.IsAlwaysCallable turn }
    ensures whether_in_whole_blocks { is_ok result ≡ whole_blocks text.old }
    ensures each_block_turned { (out next : Turn) → TurnsAs F.Fn turn out next → text.new ≡ (if whole_blocks text.old then turned out next (length text.old / 16) chain.old text.old else text.old) }
    ensures chain_of_the_last { (out next : Turn) → TurnsAs F.Fn turn out next → chain.new ≡ (if whole_blocks text.old then last_chain next (length text.old / 16) chain.old text.old else chain.old) }
{
    if !text.len().is_multiple_of(BLOCK) {
        return Err(NotWholeBlocks);
    }
    // Stays: after a loop by `chunks_exact_mut` or `split_first_chunk_mut` a proof knows no more of `text` than its length.
    for i in 0..text.len() / BLOCK {
        turn_part(chain, &mut text[BLOCK * i..BLOCK * (i + 1)], &turn);
    }
    Ok(())
}

// Turns a part of a text that is one block.
fn turn_part<F: Fn(&mut [u8; 16], &mut [u8; 16])>(chain: &mut [u8; 16], part: &mut [u8], turn: &F)
    requires takes_every_block { F.IsAlwaysCallable turn.now }
    requires one_block { length part.old ≡ 16 }
    ensures block_turned { (out next : Turn) → TurnsAs F.Fn turn.now out next → part.new ≡ out chain.old part.old }
    ensures next_chain { (out next : Turn) → TurnsAs F.Fn turn.now out next → chain.new ≡ next chain.old part.old }
{
    if let Some(block) = part.as_mut_array() {
        turn(chain, block);
    }
}
