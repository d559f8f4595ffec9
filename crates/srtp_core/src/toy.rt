ghost use Rattle.std.specs.Prelude.{◌≡◌, ℕ, ◌+◌, ◌%◌, ◌<◌, ◌≤◌, List, ◌++◌, length, slice_index, bit_xor, refl};
ghost use Rattle.std.specs.Int.{w128, to_be_bytes};
ghost use Rattle.std.specs.Simd.Lanes.{zip2, chunk, put_chunk};
ghost use Rattle.srtp_core.specs.Streams.{streamed, blocks_at};
ghost use Rattle.srtp_core.specs.Toy.{toy_block, column, toy_tag, word_block};

use crate::aead_aes_128_gcm::RtpIv;
use crate::key_stream::{nonce_and_word, xor_block, xor_whole};
use crate::simulated::{BlockCipher, Simulated};
use crate::{Block, SRTP_BLOCK_SIZE};
use std::simd::prelude::*;

/// **Not secure.** A cipher whose blocks are their input XOR the key, so that test data can be
/// worked out by hand.
#[derive(Clone, Copy, Debug)]
pub struct ToyCipher;

/// XORs the 4 bytes from a place on into the columns from `at` on.
#[inline(always)]
fn mix_four(tag: &mut [u8], at: usize, bytes: &[u8], from: usize)
    requires columns { at + 4 ≤ length tag.old }
    requires bytes { from + 4 ≤ length bytes.now }
    ensures { tag.new ≡ put_chunk at tag.old (zip2 bit_xor (chunk at 4 tag.old) (chunk from 4 bytes.now)) }
{
    let lanes = u8x4::from_slice(&tag[at..]) ^ u8x4::from_slice(&bytes[from..]);
    lanes.copy_to_slice(&mut tag[at..]);
}

/// XORs bytes into their columns by fours, the first one into column `at`.
#[inline(always)]
fn mix_fours(tag: &mut Block, at: usize, bytes: &[u8])
    requires whole { length bytes.now % 4 ≡ 0 }
    requires room { at + length bytes.now ≤ SRTP_BLOCK_SIZE }
    ensures long { length tag.new ≡ SRTP_BLOCK_SIZE }
    ensures columns { (j : ℕ) → j < SRTP_BLOCK_SIZE → slice_index tag.new j
        ≡ bit_xor (slice_index tag.old j) (column j at bytes.now) }
{
    for n in 0..bytes.len() / 4 {
        mix_four(tag, at + 4 * n, bytes, 4 * n);
    }
}

/// XORs each byte into its column, the first one into column `at` and none past the last column.
#[inline(always)]
fn mix_each(tag: &mut Block, at: usize, bytes: &[u8])
    requires { at + length bytes.now ≤ SRTP_BLOCK_SIZE }
    ensures long { length tag.new ≡ SRTP_BLOCK_SIZE }
    ensures columns { (j : ℕ) → j < SRTP_BLOCK_SIZE → slice_index tag.new j
        ≡ bit_xor (slice_index tag.old j) (column j at bytes.now) }
{
    for (i, byte) in bytes.iter().enumerate() {
        tag[at + i] ^= *byte;
    }
}

/// Like `mix_each`, by fours as far as they go.
#[inline(always)]
fn mix_bytes(tag: &mut Block, at: usize, bytes: &[u8])
    requires { at + length bytes.now ≤ SRTP_BLOCK_SIZE }
    ensures long { length tag.new ≡ SRTP_BLOCK_SIZE }
    ensures columns { (j : ℕ) → j < SRTP_BLOCK_SIZE → slice_index tag.new j
        ≡ bit_xor (slice_index tag.old j) (column j at bytes.now) }
{
    let (fours, last) = bytes.split_at(bytes.len() / 4 * 4);
    mix_fours(tag, at, fours);
    mix_each(tag, at + fours.len(), last);
}

/// XORs whole blocks of 16 bytes into the columns.
fn mix_blocks(tag: &mut Block, blocks: &[u8])
    requires { length blocks.now % SRTP_BLOCK_SIZE ≡ 0 }
    ensures long { length tag.new ≡ SRTP_BLOCK_SIZE }
    ensures columns { (j : ℕ) → j < SRTP_BLOCK_SIZE → slice_index tag.new j
        ≡ bit_xor (slice_index tag.old j) (column j 0 blocks.now) }
{
    let mut lanes = u8x16::from_array(*tag);
    for n in 0..blocks.len() / SRTP_BLOCK_SIZE {
        lanes ^= u8x16::from_slice(&blocks[SRTP_BLOCK_SIZE * n..]);
    }
    *tag = lanes.to_array();
}

/// Like `mix_bytes`, of bytes that may go past the last column: by blocks where a block begins in
/// column 0.
fn mix_long(tag: &mut Block, at: usize, bytes: &[u8])
    requires { at < SRTP_BLOCK_SIZE }
    ensures long { length tag.new ≡ SRTP_BLOCK_SIZE }
    ensures columns { (j : ℕ) → j < SRTP_BLOCK_SIZE → slice_index tag.new j
        ≡ bit_xor (slice_index tag.old j) (column j at bytes.now) }
{
    let (first, rest) = bytes.split_at(bytes.len().min((SRTP_BLOCK_SIZE - at) % SRTP_BLOCK_SIZE));
    let (blocks, last) = rest.split_at(rest.len() / SRTP_BLOCK_SIZE * SRTP_BLOCK_SIZE);
    mix_bytes(tag, at, first);
    mix_blocks(tag, blocks);
    mix_bytes(tag, 0, last);
}

/// XORs each byte into its column, the first one into column `at`, and after the last column into
/// the first one again.
#[inline(always)]
fn mix(tag: &mut Block, at: usize, bytes: &[u8])
    requires { at < SRTP_BLOCK_SIZE }
    ensures long { length tag.new ≡ SRTP_BLOCK_SIZE }
    ensures columns { (j : ℕ) → j < SRTP_BLOCK_SIZE → slice_index tag.new j
        ≡ bit_xor (slice_index tag.old j) (column j at bytes.now) }
{
    if bytes.len() <= SRTP_BLOCK_SIZE - at {
        mix_bytes(tag, at, bytes);
    } else {
        mix_long(tag, at, bytes);
    }
}

/// A word as the last 4 of 16 bytes.
#[inline(always)]
fn wide_word(word: u32) -> Block
    ensures { result ≡ to_be_bytes w128 word }
{
    u32x4::from_array([0, 0, 0, word.swap_bytes()])
        .to_le_bytes()
        .to_array()
}

/// Block n of the stream, of the block of the nonce and the word 0.
#[inline(always)]
fn stream_block(first: &Block, n: usize) -> Block
    ensures { result ≡ word_block first.now n }
{
    let word = (n % 4_294_967_296 + 2) % 4_294_967_296;
    let lanes = u8x16::from_array(*first) ^ u8x16::from_array(wide_word(word as u32));
    lanes.to_array()
}

/// Writes the input XOR the stream, of the block of the nonce and the word 0.
fn xor_words(first: &Block, input: &[u8], output: &mut [u8])
    requires { length output.old ≡ length input.now }
    ensures { output.new ≡ streamed (blocks_at (word_block first.now)) input.now }
{
    let blocks = input.len() / SRTP_BLOCK_SIZE;
    for n in 0..blocks {
        xor_whole(input, SRTP_BLOCK_SIZE * n, &stream_block(first, n), output);
    }
    let last = stream_block(first, blocks);
    xor_block(input, SRTP_BLOCK_SIZE * blocks, &last, output);
}

impl BlockCipher for ToyCipher {
    ghost block_of = { toy_block };

    fn block(&self, key: &[u8], input: &Block) -> Block {
        let lanes = u8x16::from_array(*input) ^ u8x16::from_slice(key);
        if key.len() > SRTP_BLOCK_SIZE {
            (lanes ^ u8x16::from_slice(&key[SRTP_BLOCK_SIZE..])).to_array()
        } else {
            lanes.to_array()
        }
    }
}

impl Simulated for ToyCipher {
    ghost tag_of = { toy_tag };

    #[inline(always)]
    fn xor_text(&self, key: &[u8], iv: &RtpIv, input: &[u8], output: &mut [u8]) {
        let first = self.block(key, &nonce_and_word(iv, 0));
        xor_words(&first, input, output)
    }

    #[inline(always)]
    fn tag(&self, key: &[u8], iv: &RtpIv, aad1: &[u8], aad2: &[u8], text: &[u8]) -> Block {
        let second = aad1.len() % SRTP_BLOCK_SIZE;
        let third = (second + aad2.len() % SRTP_BLOCK_SIZE) % SRTP_BLOCK_SIZE;
        let mut tag = self.block(key, &nonce_and_word(iv, 1));
        mix(&mut tag, 0, aad1);
        mix(&mut tag, second, aad2);
        mix(&mut tag, third, text);
        tag
    }

    ghost tag_len = { λ k iv aad p. unfold toy_tag in refl };
}
