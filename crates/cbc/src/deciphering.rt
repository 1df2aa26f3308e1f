// Deciphering in cipher block chaining.
ghost use Rattle.std.specs.Prelude.{◌≡◌, if◌then◌else◌};
ghost use Rattle.std.specs.Result.{is_ok};
ghost use Rattle.block.specs.Xor.{xored};
ghost use Rattle.cbc.specs.Cbc.{whole_blocks, cbc_deciphered, last_block};

use crate::turning::{NotWholeBlocks, turn_blocks};
use block::{BlockCipher, xor_over};

// Deciphers `text` in place, or leaves it where it has no whole number of blocks. `chain` is the initialization vector, and
// afterwards the last block of ciphertext, to which the next part of a text is chained.
pub fn decipher<B: BlockCipher>(
    schedule: &[u8],
    chain: &mut [u8; 16],
    text: &mut [u8],
) -> Result<(), NotWholeBlocks>
    ensures whether_in_whole_blocks { is_ok result ≡ whole_blocks text.old }
    ensures deciphered { text.new ≡ (if whole_blocks text.old then cbc_deciphered (B.inverse schedule.now) chain.old text.old else text.old) }
    ensures last_block_of_ciphertext { chain.new ≡ (if whole_blocks text.old then last_block chain.old text.old else chain.old) }
{
    turn_blocks(chain, text, |chain: &mut [u8; 16], block: &mut [u8; 16]| {
        decipher_next::<B>(schedule, chain, block)
    })
}

// Deciphers a block, chained to the block of ciphertext before it; what came in is the chain for the next.
fn decipher_next<B: BlockCipher>(schedule: &[u8], chain: &mut [u8; 16], block: &mut [u8; 16])
    ensures deciphered { block.new ≡ xored (B.inverse schedule.now block.old) chain.old }
    ensures chain_for_the_next { chain.new ≡ block.old }
{
    let ciphertext = *block;
    B::decipher_block(schedule, block);
    xor_over(chain, block);
    *chain = ciphertext;
}
