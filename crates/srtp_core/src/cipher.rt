ghost use Rattle.std.specs.Prelude.{◌≡◌, ℕ, ◌+◌, List, ◌++◌, length, IsTrue};
ghost use Rattle.srtp_core.specs.Cipher.{CipherMeaning};
ghost use Rattle.srtp_core.specs.Streams.{streamed, counter_mode};
ghost use Rattle.srtp_core.specs.declared.aead_aes_128_gcm.TheConstants.{TAG_LEN};

use crate::{Block, aead_aes_128_gcm, aead_aes_256_gcm};

/// What SRTP needs of a cipher: its blocks and its counter mode (RFC 3711 section 4.1.1), and its
/// authenticated encryption with a tag of 16 bytes and a nonce of 12 (RFC 7714 section 2), for
/// keys of 16 and of 32 bytes. Whoever brings a real AES writes an impl of this trait.
///
/// No call takes memory. The lengths of the outputs are conditions.
pub trait SrtpCipher: Copy {
    /// A key of 16 bytes.
    type Key128: Drop;

    /// A key of 32 bytes.
    type Key256: Drop;

    /// The bytes of a key of 16 bytes.
    ghost bytes_128: { Self.Key128 → List ℕ };

    /// The bytes of a key of 32 bytes.
    ghost bytes_256: { Self.Key256 → List ℕ };

    /// What the cipher means: its blocks, its key stream and its authenticated encryption.
    ghost meaning: { CipherMeaning };

    /// The key of these bytes.
    fn key_128(&self, key: &aead_aes_128_gcm::AeadKey) -> Self::Key128
        ensures { bytes_128 result ≡ key.now };

    /// The key of these bytes.
    fn key_256(&self, key: &aead_aes_256_gcm::AeadKey) -> Self::Key256
        ensures { bytes_256 result ≡ key.now };

    /// One block enciphered.
    fn block_128(&self, key: &Self::Key128, input: &Block) -> Block
        ensures { result ≡ meaning.block (bytes_128 key.now) input.now };

    /// One block enciphered.
    fn block_256(&self, key: &Self::Key256, input: &Block) -> Block
        ensures { result ≡ meaning.block (bytes_256 key.now) input.now };

    /// The input XOR the key stream, which enciphers and deciphers.
    fn ctr(&self, key: &Self::Key128, iv: &Block, input: &[u8], output: &mut [u8])
        requires { length output.old ≡ length input.now }
        ensures { output.new ≡ streamed (meaning.keystream (bytes_128 key.now) iv.now) input.now };

    /// Seals the input; `aad1` and `aad2`, one after the other, are the associated data.
    fn seal_128(
        &self,
        key: &Self::Key128,
        iv: &aead_aes_128_gcm::RtpIv,
        aad1: &[u8],
        aad2: &[u8],
        input: &[u8],
        output: &mut [u8],
    )
        requires { length output.old ≡ length input.now + TAG_LEN }
        ensures { output.new ≡ meaning.aead (bytes_128 key.now) iv.now (aad1.now ++ aad2.now) input.now };

    /// Opens the input, and tells whether it is a sealed text. After `false` what stands in
    /// `output` is not said.
    fn open_128(
        &self,
        key: &Self::Key128,
        iv: &aead_aes_128_gcm::RtpIv,
        aad1: &[u8],
        aad2: &[u8],
        input: &[u8],
        output: &mut [u8],
    ) -> bool
        requires { length input.now ≡ length output.old + TAG_LEN }
        ensures opens { IsTrue result
            → meaning.aead (bytes_128 key.now) iv.now (aad1.now ++ aad2.now) output.new
            ≡ input.now }
        ensures only { (plain : List ℕ)
            → meaning.aead (bytes_128 key.now) iv.now (aad1.now ++ aad2.now) plain ≡ input.now
            → IsTrue result };

    /// Seals the input; `aad1` and `aad2`, one after the other, are the associated data.
    fn seal_256(
        &self,
        key: &Self::Key256,
        iv: &aead_aes_256_gcm::RtpIv,
        aad1: &[u8],
        aad2: &[u8],
        input: &[u8],
        output: &mut [u8],
    )
        requires { length output.old ≡ length input.now + TAG_LEN }
        ensures { output.new ≡ meaning.aead (bytes_256 key.now) iv.now (aad1.now ++ aad2.now) input.now };

    /// Opens the input, and tells whether it is a sealed text. After `false` what stands in
    /// `output` is not said.
    fn open_256(
        &self,
        key: &Self::Key256,
        iv: &aead_aes_256_gcm::RtpIv,
        aad1: &[u8],
        aad2: &[u8],
        input: &[u8],
        output: &mut [u8],
    ) -> bool
        requires { length input.now ≡ length output.old + TAG_LEN }
        ensures opens { IsTrue result
            → meaning.aead (bytes_256 key.now) iv.now (aad1.now ++ aad2.now) output.new
            ≡ input.now }
        ensures only { (plain : List ℕ)
            → meaning.aead (bytes_256 key.now) iv.now (aad1.now ++ aad2.now) plain ≡ input.now
            → IsTrue result };

    /// The laws of every cipher; the call computes nothing. A sealed text is 16 bytes longer, and
    /// no two plain texts are sealed alike.
    fn laws()
        ensures longer { (key iv aad plain : List ℕ) → length (meaning.aead key iv aad plain)
            ≡ length plain + TAG_LEN }
        ensures apart { (key iv aad p q : List ℕ) → meaning.aead key iv aad p ≡ meaning.aead key iv aad q
            → p ≡ q };

    /// The key stream is the counter mode of the blocks.
    ghost counts: { (key iv : List ℕ) (i : ℕ) → meaning.keystream key iv i
        ≡ counter_mode (meaning.block key) iv i };
}
