ghost use Rattle.std.specs.Prelude.{◌≡◌, ℕ, ◌+◌, ◌⊎◌, List, ◌++◌, length, IsTrue};
ghost use Rattle.srtp_core.specs.declared.aead_aes_128_gcm.TheConstants.{KEY_LEN as KEY_128_LEN, TAG_LEN};
ghost use Rattle.srtp_core.specs.declared.aead_aes_256_gcm.TheConstants.{KEY_LEN as KEY_256_LEN};

use crate::cipher::SrtpCipher;
use crate::{Block, aead_aes_128_gcm, aead_aes_256_gcm};
use std::marker::Model;

#[derive(Drop)]
enum ByLength<C: SrtpCipher> {
    Short(C::Key128),
    Long(C::Key256),
}

/// A key of 16 or 32 bytes. Contracts see its bytes.
#[derive(Drop)]
pub(crate) struct CipherKey<C: SrtpCipher> {
    key: ByLength<C>,
}

impl<C: SrtpCipher> Model for CipherKey<C> {
    ghost use Rattle.std.specs.Prelude.{ℕ, List};

    ghost Value = { List ℕ };

    ghost use Rattle.srtp_core.specs.CipherKeys.{key_bytes};

    ghost view = { λ k. key_bytes C.bytes_128 C.bytes_256 k.key };
}

impl<C: SrtpCipher> CipherKey<C> {
    pub(crate) fn new(cipher: C, bytes: &[u8]) -> Self
        requires { (length bytes.now ≡ KEY_128_LEN) ⊎ (length bytes.now ≡ KEY_256_LEN) }
        ensures { result ≡ bytes.now }
    {
        if bytes.len() == aead_aes_128_gcm::KEY_LEN {
            let mut short = [0; aead_aes_128_gcm::KEY_LEN];
            short.copy_from_slice(bytes);
            CipherKey {
                key: ByLength::Short(cipher.key_128(&short)),
            }
        } else {
            let mut long = [0; aead_aes_256_gcm::KEY_LEN];
            long.copy_from_slice(bytes);
            CipherKey {
                key: ByLength::Long(cipher.key_256(&long)),
            }
        }
    }

    pub(crate) fn block(&self, cipher: C, input: &Block) -> Block
        ensures { result ≡ C.meaning.block self.now input.now }
    {
        match &self.key {
            ByLength::Short(key) => cipher.block_128(key, input),
            ByLength::Long(key) => cipher.block_256(key, input),
        }
    }

    #[inline(always)]
    pub(crate) fn seal(
        &self,
        cipher: C,
        iv: &aead_aes_128_gcm::RtpIv,
        aad1: &[u8],
        aad2: &[u8],
        input: &[u8],
        output: &mut [u8],
    )
        requires { length output.old ≡ length input.now + TAG_LEN }
        ensures { output.new ≡ C.meaning.aead self.now iv.now (aad1.now ++ aad2.now) input.now }
    {
        match &self.key {
            ByLength::Short(key) => cipher.seal_128(key, iv, aad1, aad2, input, output),
            ByLength::Long(key) => cipher.seal_256(key, iv, aad1, aad2, input, output),
        }
    }

    #[inline(always)]
    pub(crate) fn open(
        &self,
        cipher: C,
        iv: &aead_aes_128_gcm::RtpIv,
        aad1: &[u8],
        aad2: &[u8],
        input: &[u8],
        output: &mut [u8],
    ) -> bool
        requires { length input.now ≡ length output.old + TAG_LEN }
        ensures opens { IsTrue result
            → C.meaning.aead self.now iv.now (aad1.now ++ aad2.now) output.new ≡ input.now }
        ensures only { (plain : List ℕ)
            → C.meaning.aead self.now iv.now (aad1.now ++ aad2.now) plain ≡ input.now
            → IsTrue result }
    {
        match &self.key {
            ByLength::Short(key) => cipher.open_128(key, iv, aad1, aad2, input, output),
            ByLength::Long(key) => cipher.open_256(key, iv, aad1, aad2, input, output),
        }
    }
}
