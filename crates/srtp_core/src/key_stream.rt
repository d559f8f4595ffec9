ghost use Rattle.std.specs.Prelude.{◌≡◌, ℕ, ◌+◌, ◌-◌, ◌*◌, ◌^◌, ◌<◌, ◌≤◌, ◌⊎◌, List, ◌++◌, length, slice_index, bit_xor};
ghost use Rattle.std.specs.Int.{w32, to_be_bytes};
ghost use Rattle.srtp_core.specs.Streams.{streamed, blocks_at, counter_input};
ghost use Rattle.srtp_core.specs.declared.aead_aes_128_gcm.TheConstants.{KEY_LEN as KEY_128_LEN};
ghost use Rattle.srtp_core.specs.declared.aead_aes_256_gcm.TheConstants.{KEY_LEN as KEY_256_LEN};

use crate::aead_aes_128_gcm::{IV_LEN, RtpIv};
use crate::simulated::BlockCipher;
use crate::{Block, SRTP_BLOCK_SIZE};
use std::simd::prelude::*;

/// What is enciphered for the blocks of a stream.
#[derive(Clone, Copy)]
pub(crate) enum Counter {
    /// A number of 16 bytes, counted up from this one.
    Number(u128),
    /// A nonce, and a word of 4 bytes that is counted up from 2.
    Word(RtpIv),
}

pub(crate) fn nonce_and_word(iv: &RtpIv, word: u32) -> Block
    ensures { result ≡ iv.now ++ to_be_bytes w32 word }
{
    let mut input = [0; SRTP_BLOCK_SIZE];
    let (front, back) = input.split_at_mut(IV_LEN);
    front.copy_from_slice(iv);
    back.copy_from_slice(&word.to_be_bytes());
    input
}

fn input_block(counter: &Counter, n: usize) -> Block
    ensures { result ≡ counter_input counter.now n }
{
    match counter {
        Counter::Number(first) => first.wrapping_add(n as u128).to_be_bytes(),
        Counter::Word(iv) => {
            nonce_and_word(iv, ((n % 4_294_967_296 + 2) % 4_294_967_296) as u32)
        }
    }
}

/// XORs a block into the 16 bytes from a place on.
#[inline(always)]
pub(crate) fn xor_whole(input: &[u8], at: usize, block: &Block, output: &mut [u8])
    requires output { length output.old ≡ length input.now }
    requires at { at + SRTP_BLOCK_SIZE ≤ length input.now }
    ensures len { length output.new ≡ length output.old }
    ensures before { (k : ℕ) → k < at → slice_index output.new k ≡ slice_index output.old k }
    ensures here { (k : ℕ) → k < SRTP_BLOCK_SIZE → slice_index output.new (at + k)
        ≡ bit_xor (slice_index input.now (at + k)) (slice_index block.now k) }
{
    let lanes = u8x16::from_slice(&input[at..]) ^ u8x16::from_array(*block);
    lanes.copy_to_slice(&mut output[at..]);
}

/// XORs a block into the bytes from a place on, as far as they go.
pub(crate) fn xor_block(input: &[u8], at: usize, block: &Block, output: &mut [u8])
    requires output { length output.old ≡ length input.now }
    requires at { at ≤ length input.now }
    ensures len { length output.new ≡ length output.old }
    ensures before { (k : ℕ) → k < at → slice_index output.new k ≡ slice_index output.old k }
    ensures here { (k : ℕ) → k < SRTP_BLOCK_SIZE → at + k < length input.now
        → slice_index output.new (at + k)
        ≡ bit_xor (slice_index input.now (at + k)) (slice_index block.now k) }
{
    if input.len() - at < SRTP_BLOCK_SIZE {
        for i in at..input.len() {
            output[i] = input[i] ^ block[i - at];
        }
    } else {
        xor_whole(input, at, block, output);
    }
}

/// Writes the input XOR the stream of the blocks.
pub(crate) fn xor_stream<S: BlockCipher>(
    cipher: S,
    key: &[u8],
    counter: &Counter,
    input: &[u8],
    output: &mut [u8],
)
    requires key { (length key.now ≡ KEY_128_LEN) ⊎ (length key.now ≡ KEY_256_LEN) }
    requires output { length output.old ≡ length input.now }
    ensures { output.new ≡ streamed (blocks_at (λ n. S.block_of key.now (counter_input counter.now n))) input.now }
{
    for n in 0..input.len().div_ceil(SRTP_BLOCK_SIZE) {
        let block = cipher.block(key, &input_block(counter, n));
        xor_block(input, SRTP_BLOCK_SIZE * n, &block, output);
    }
}
