ghost use Rattle.std.specs.Prelude.{◌≡◌, ℕ, ◌+◌, List, ◌++◌, length, take, refl};
ghost use Rattle.srtp_core.specs.Sha.{sha_block, sha_tag};
ghost use Rattle.sha1.specs.Sha1.{sha1, digest_bytes};

use crate::aead_aes_128_gcm::RtpIv;
use crate::key_stream::{Counter, xor_stream};
use crate::simulated::{BlockCipher, Simulated};
use crate::{Block, SRTP_BLOCK_SIZE};
use sha1::{DIGEST_LEN, Sha1};

/// **Not secure.** A cipher whose blocks and tags are fronts of SHA-1 digests, so that each byte of
/// key, nonce and text tells in what comes out.
#[derive(Clone, Copy, Debug)]
pub struct ShaCipher;

fn front(digest: &[u8; DIGEST_LEN]) -> Block
    ensures { result ≡ take SRTP_BLOCK_SIZE digest.now }
{
    let (first, _) = digest.split_at(SRTP_BLOCK_SIZE);
    let mut bytes = [0; SRTP_BLOCK_SIZE];
    bytes.copy_from_slice(first);
    bytes
}

impl BlockCipher for ShaCipher {
    ghost block_of = { sha_block };

    #[tactic(auto, unfolding(crate::specs::Sha::sha_block))]
    fn block(&self, key: &[u8], input: &Block) -> Block {
        let mut hasher = Sha1::new();
        hasher.update(key);
        hasher.update(input);
        front(&hasher.finalize())
    }
}

impl Simulated for ShaCipher {
    ghost tag_of = { sha_tag };

    fn xor_text(&self, key: &[u8], iv: &RtpIv, input: &[u8], output: &mut [u8]) {
        xor_stream(*self, key, &Counter::Word(*iv), input, output)
    }

    #[tactic(auto, unfolding(crate::specs::Sha::sha_tag), using(std::proofs::Common::append_assoc))]
    fn tag(&self, key: &[u8], iv: &RtpIv, aad1: &[u8], aad2: &[u8], text: &[u8]) -> Block {
        let len = aad1.len() as u64 + aad2.len() as u64;
        let mut hasher = Sha1::new();
        hasher.update(key);
        hasher.update(iv);
        hasher.update(&len.to_be_bytes());
        hasher.update(aad1);
        hasher.update(aad2);
        hasher.update(text);
        front(&hasher.finalize())
    }

    ghost tag_len = { λ k iv aad p. unfold sha_tag in
        (unfold sha1 in (unfold digest_bytes in refl)) };
}
