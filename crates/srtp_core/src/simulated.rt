ghost use Rattle.std.specs.Prelude.{◌≡◌, ℕ, ◌+◌, ◌⊎◌, List, ◌++◌, length, IsTrue, refl};
ghost use Rattle.srtp_core.specs.Streams.{streamed};
ghost use Rattle.srtp_core.specs.Simulated.{nonce_stream, sealed_text, simulated};
ghost use Rattle.srtp_core.specs.declared.aead_aes_128_gcm.TheConstants.{KEY_LEN as KEY_128_LEN, TAG_LEN};
ghost use Rattle.srtp_core.specs.declared.aead_aes_256_gcm.TheConstants.{KEY_LEN as KEY_256_LEN};

use crate::cipher::SrtpCipher;
use crate::key_stream::{Counter, xor_stream};
use crate::{Block, aead_aes_128_gcm, aead_aes_256_gcm};

/// A block function, over the bytes of a key of 16 or 32 bytes. No call takes memory.
pub trait BlockCipher: Copy {
    /// The bytes of a key, and a block: the block enciphered.
    ghost block_of: { List ℕ → List ℕ → List ℕ };

    /// One block enciphered.
    fn block(&self, key: &[u8], input: &Block) -> Block
        requires { (length key.now ≡ KEY_128_LEN) ⊎ (length key.now ≡ KEY_256_LEN) }
        ensures { result ≡ block_of key.now input.now };
}

/// A block function with a stream and a tag: what a simulated cipher is made of. No call takes
/// memory.
pub trait Simulated: BlockCipher {
    /// The bytes of a key, the nonce, the associated data and the plain text: the tag.
    ghost tag_of: { List ℕ → List ℕ → List ℕ → List ℕ → List ℕ };

    /// The text XOR the stream of the nonce.
    fn xor_text(&self, key: &[u8], iv: &aead_aes_128_gcm::RtpIv, input: &[u8], output: &mut [u8])
        requires key { (length key.now ≡ KEY_128_LEN) ⊎ (length key.now ≡ KEY_256_LEN) }
        requires output { length output.old ≡ length input.now }
        ensures { output.new ≡ streamed (nonce_stream Self.block_of key.now iv.now) input.now };

    /// The tag of a text; `aad1` and `aad2`, one after the other, are the associated data.
    fn tag(
        &self,
        key: &[u8],
        iv: &aead_aes_128_gcm::RtpIv,
        aad1: &[u8],
        aad2: &[u8],
        text: &[u8],
    ) -> Block
        requires { (length key.now ≡ KEY_128_LEN) ⊎ (length key.now ≡ KEY_256_LEN) }
        ensures { result ≡ tag_of key.now iv.now (aad1.now ++ aad2.now) text.now };

    /// A tag has 16 bytes.
    ghost tag_len: { (key iv aad text : List ℕ) → length (tag_of key iv aad text) ≡ TAG_LEN };
}

/// A key of a simulated cipher: its bytes.
#[derive(Drop)]
pub struct SimulatedKey<const N: usize> {
    bytes: [u8; N],
}

#[inline(always)]
#[tactic(auto, unfolding(crate::specs::Simulated::sealed_text))]
fn seal<S: Simulated>(
    cipher: S,
    key: &[u8],
    iv: &aead_aes_128_gcm::RtpIv,
    aad1: &[u8],
    aad2: &[u8],
    input: &[u8],
    output: &mut [u8],
)
    requires key { (length key.now ≡ KEY_128_LEN) ⊎ (length key.now ≡ KEY_256_LEN) }
    requires output { length output.old ≡ length input.now + TAG_LEN }
    ensures { output.new ≡ sealed_text S.block_of S.tag_of key.now iv.now (aad1.now ++ aad2.now) input.now }
{
    let (text, end) = output.split_at_mut(input.len());
    cipher.xor_text(key, iv, input, text);
    end.copy_from_slice(&cipher.tag(key, iv, aad1, aad2, input));
}

#[inline(always)]
fn open<S: Simulated>(
    cipher: S,
    key: &[u8],
    iv: &aead_aes_128_gcm::RtpIv,
    aad1: &[u8],
    aad2: &[u8],
    input: &[u8],
    output: &mut [u8],
) -> bool
    requires key { (length key.now ≡ KEY_128_LEN) ⊎ (length key.now ≡ KEY_256_LEN) }
    requires input { length input.now ≡ length output.old + TAG_LEN }
    ensures opens { IsTrue result
        → sealed_text S.block_of S.tag_of key.now iv.now (aad1.now ++ aad2.now) output.new
        ≡ input.now }
    ensures only { (plain : List ℕ)
        → sealed_text S.block_of S.tag_of key.now iv.now (aad1.now ++ aad2.now) plain ≡ input.now
        → IsTrue result }
{
    let (text, end) = input.split_at(output.len());
    cipher.xor_text(key, iv, text, output);
    let tag = cipher.tag(key, iv, aad1, aad2, output);
    end == tag.as_slice()
}

impl<S: Simulated> SrtpCipher for S {
    type Key128 = SimulatedKey<{ aead_aes_128_gcm::KEY_LEN }>;

    type Key256 = SimulatedKey<{ aead_aes_256_gcm::KEY_LEN }>;

    ghost bytes_128 = { λ k. k.bytes };

    ghost bytes_256 = { λ k. k.bytes };

    ghost meaning = { simulated S.block_of S.tag_of };

    fn key_128(
        &self,
        key: &aead_aes_128_gcm::AeadKey,
    ) -> SimulatedKey<{ aead_aes_128_gcm::KEY_LEN }> {
        SimulatedKey { bytes: *key }
    }

    fn key_256(
        &self,
        key: &aead_aes_256_gcm::AeadKey,
    ) -> SimulatedKey<{ aead_aes_256_gcm::KEY_LEN }> {
        SimulatedKey { bytes: *key }
    }

    fn block_128(&self, key: &SimulatedKey<{ aead_aes_128_gcm::KEY_LEN }>, input: &Block) -> Block {
        self.block(&key.bytes, input)
    }

    fn block_256(&self, key: &SimulatedKey<{ aead_aes_256_gcm::KEY_LEN }>, input: &Block) -> Block {
        self.block(&key.bytes, input)
    }

    fn ctr(
        &self,
        key: &SimulatedKey<{ aead_aes_128_gcm::KEY_LEN }>,
        iv: &Block,
        input: &[u8],
        output: &mut [u8],
    ) {
        let counter = Counter::Number(u128::from_be_bytes(*iv));
        xor_stream(*self, &key.bytes, &counter, input, output)
    }

    #[inline(always)]
    fn seal_128(
        &self,
        key: &SimulatedKey<{ aead_aes_128_gcm::KEY_LEN }>,
        iv: &aead_aes_128_gcm::RtpIv,
        aad1: &[u8],
        aad2: &[u8],
        input: &[u8],
        output: &mut [u8],
    ) {
        seal(*self, &key.bytes, iv, aad1, aad2, input, output)
    }

    #[inline(always)]
    fn open_128(
        &self,
        key: &SimulatedKey<{ aead_aes_128_gcm::KEY_LEN }>,
        iv: &aead_aes_128_gcm::RtpIv,
        aad1: &[u8],
        aad2: &[u8],
        input: &[u8],
        output: &mut [u8],
    ) -> bool {
        open(*self, &key.bytes, iv, aad1, aad2, input, output)
    }

    #[inline(always)]
    fn seal_256(
        &self,
        key: &SimulatedKey<{ aead_aes_256_gcm::KEY_LEN }>,
        iv: &aead_aes_256_gcm::RtpIv,
        aad1: &[u8],
        aad2: &[u8],
        input: &[u8],
        output: &mut [u8],
    ) {
        seal(*self, &key.bytes, iv, aad1, aad2, input, output)
    }

    #[inline(always)]
    fn open_256(
        &self,
        key: &SimulatedKey<{ aead_aes_256_gcm::KEY_LEN }>,
        iv: &aead_aes_256_gcm::RtpIv,
        aad1: &[u8],
        aad2: &[u8],
        input: &[u8],
        output: &mut [u8],
    ) -> bool {
        open(*self, &key.bytes, iv, aad1, aad2, input, output)
    }

    #[inline(always)]
    fn laws() {}

    ghost counts = { λ key iv i. refl };
}
