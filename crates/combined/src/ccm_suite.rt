// CCM over any block cipher as a suite.
ghost use Rattle.std.specs.Prelude.{◌≡◌};
ghost use Rattle.combined.specs.CcmSuite.{ccm_suite};
ghost use Rattle.combined.specs.CcmLaws as ccm;

use crate::keyed::{CHECK, Keyed};
use crate::nonce::{SALT, VECTOR};
use block::{BLOCK, BlockCipher};
use std::marker::PhantomData;
use suite::{Fault, Fitting, Inputs, Sizes, Triple};

// CCM over the block cipher `B`, which serves under one encryption code and one integrity code.
#[derive_where(Clone, Copy)]
pub struct Ccm<B> {
    pub encryption: u32,
    pub integrity: u32,
    pub cipher: PhantomData<B>,
}

impl<B: BlockCipher> Ccm<B> {
    // Serves under an encryption code and an integrity code.
    pub fn new(encryption: u32, integrity: u32) -> Ccm<B>
        ensures its_encryption_code { result.encryption ≡ encryption }
        ensures its_integrity_code { result.integrity ≡ integrity }
    {
        Ccm {
            encryption,
            integrity,
            cipher: PhantomData,
        }
    }
}

impl<B: BlockCipher> Fitting for Ccm<B> {
    ghost meaning = { λ s. ccm_suite B.scheduled B.expanded B.forward s.encryption s.integrity };

    ghost sizes_are_bounded = { λ s.
        ccm.sizes_are_bounded B.scheduled B.expanded B.forward s.encryption s.integrity
        B.keys_are_short };

    ghost sealing_adds_the_check_value = { λ s.
        ccm.sealing_adds_the_check_value B.scheduled B.expanded B.forward s.encryption
        s.integrity
        B.forward_keeps_length };

    ghost sealing_gives_bytes = { λ s.
        ccm.sealing-gives-bytes B.scheduled B.expanded B.forward s.encryption s.integrity
        B.forward_keeps_length
        B.expanding_gives_bytes
        B.forward_gives_bytes };

    ghost opening_undoes_sealing = { λ s.
        ccm.opening-undoes-sealing B.scheduled B.expanded B.forward s.encryption s.integrity
        B.forward_keeps_length };

    ghost what_opens_was_sealed = { λ s.
        ccm.what_opens_was_sealed B.scheduled B.expanded B.forward s.encryption s.integrity
        B.forward_keeps_length
        B.expanding_gives_bytes
        B.forward_gives_bytes };

    fn sizes_served(&self, triple: Triple) -> Option<Sizes> {
        if triple.encryption != self.encryption || triple.integrity != self.integrity {
            return None;
        }
        B::schedule_length(triple.key)?;
        Some(Sizes {
            integrity: 0,
            salt: SALT,
            vector: VECTOR,
            check: CHECK,
            unit: BLOCK,
            encrypts: true,
        })
    }

    fn seal_fitting(
        &self,
        _triple: Triple,
        _sizes: Sizes,
        inputs: Inputs<'_>,
        text: usize,
        out: &mut [u8],
        work: &mut [u8],
    ) -> Result<usize, Fault> {
        Keyed::<B>::new(inputs, work)?.seal(text, out)
    }

    fn open_fitting(
        &self,
        _triple: Triple,
        _sizes: Sizes,
        inputs: Inputs<'_>,
        sealed: &[u8],
        out: &mut [u8],
        work: &mut [u8],
    ) -> Result<usize, Fault> {
        Keyed::<B>::new(inputs, work)?.open(sealed, out)
    }
}
