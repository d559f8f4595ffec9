ghost use Rattle.std.specs.Prelude.{◌≡◌, ℕ, ◌+◌, ◌*◌, ◌≤◌, ◌⊎◌, length, if◌then◌else◌, IfOk};
ghost use Rattle.srtp_core.specs.Keys.{master_key, master_salt, derivation_input, derived};
ghost use Rattle.srtp_core.specs.declared.aead_aes_128_gcm.TheConstants.{KEY_LEN as KEY_128_LEN};
ghost use Rattle.srtp_core.specs.declared.aead_aes_256_gcm.TheConstants.{KEY_LEN as KEY_256_LEN};

use crate::aes_128_cm_sha1_80::SALT_LEN;
use crate::cipher::SrtpCipher;
use crate::cipher_key::CipherKey;
use crate::{Block, SRTP_BLOCK_SIZE};
use std::alloc::{AllocError, Global};
use std::marker::Model;

/// The label of the key of RTP (RFC 3711 section 4.3.1).
pub const LABEL_RTP_AES: u8 = 0;
/// The label of the authentication key of RTP (RFC 3711 section 4.3.1).
pub const LABEL_RTP_AUTHENTICATION_KEY: u8 = 1;
/// The label of the salt of RTP (RFC 3711 section 4.3.1).
pub const LABEL_RTP_SALT: u8 = 2;
/// The label of the key of RTCP (RFC 3711 section 4.3.2).
pub const LABEL_RTCP_AES: u8 = 3;
/// The label of the authentication key of RTCP (RFC 3711 section 4.3.2).
pub const LABEL_RTCP_AUTHENTICATION_KEY: u8 = 4;
/// The label of the salt of RTCP (RFC 3711 section 4.3.2).
pub const LABEL_RTCP_SALT: u8 = 5;

/// The most bytes that a label gives: 2^23 bits (RFC 3711 section 4.3.3).
pub const MAX_DERIVED_LEN: usize = 1_048_576;

/// Keying material as DTLS exports it (RFC 5764 section 4.2): the left key, the right key, the left
/// salt, the right salt. Contracts see the bytes.
#[derive(Drop)]
pub struct KeyingMaterial {
    bytes: Vec<u8>,
}

impl Model for KeyingMaterial {
    ghost use Rattle.std.specs.Prelude.{ℕ, List};

    ghost Value = { List ℕ };

    ghost view = { λ m. m.bytes.items };
}

impl KeyingMaterial {
    /// A copy of the bytes, of any length.
    pub fn new(alloc: Global, bytes: &[u8]) -> Result<Self, AllocError>
        ensures { IfOk result (λ m. m ≡ bytes.now) }
    {
        let bytes = bytes.to_vec(alloc)?;
        Ok(KeyingMaterial { bytes })
    }

    /// The bytes.
    pub fn as_slice(&self) -> &[u8]
        ensures { result.now ≡ self.now }
    {
        self.bytes.as_slice()
    }
}

/// A master key of `ML` bytes with its salt of `SL` bytes.
#[derive(Drop)]
pub struct SrtpKey<const ML: usize, const SL: usize> {
    /// The master key.
    pub master: [u8; ML],
    /// The master salt.
    pub salt: [u8; SL],
}

impl<const ML: usize, const SL: usize> SrtpKey<ML, SL> {
    /// The left or the right key of keying material, with its salt.
    pub fn new(material: &KeyingMaterial, left: bool) -> Self
        requires { length material.now ≡ 2 * ML + 2 * SL }
        ensures master { result.master ≡ master_key ML material.now left }
        ensures salt { result.salt ≡ master_salt ML SL material.now left }
    {
        let (keys, salts) = material.as_slice().split_at(2 * ML);
        let (left_key, right_key) = keys.split_at(ML);
        let (left_salt, right_salt) = salts.split_at(SL);
        let mut master = [0; ML];
        let mut salt = [0; SL];
        if left {
            master.copy_from_slice(left_key);
            salt.copy_from_slice(left_salt);
        } else {
            master.copy_from_slice(right_key);
            salt.copy_from_slice(right_salt);
        }
        SrtpKey { master, salt }
    }

    /// Fills `output` with the string that a label gives (RFC 3711 section 4.3, key derivation
    /// rate 0).
    pub fn derive<C: SrtpCipher>(&self, cipher: C, label: u8, output: &mut [u8])
        requires key { (ML ≡ KEY_128_LEN) ⊎ (ML ≡ KEY_256_LEN) }
        requires salt { SL ≤ SALT_LEN }
        requires output { length output.old ≤ MAX_DERIVED_LEN }
        ensures { output.new ≡ derived (C.meaning.block self.now.master) self.now.salt label (length output.old) }
    {
        let key = CipherKey::new(cipher, &self.master);
        let mut block = [0; SRTP_BLOCK_SIZE];
        for i in 0..output.len() {
            if i % SRTP_BLOCK_SIZE == 0 {
                let round = (i / SRTP_BLOCK_SIZE) as u16;
                block = key.block(cipher, &input_block(&self.salt, label, round));
            }
            output[i] = block[i % SRTP_BLOCK_SIZE];
        }
    }
}

/// The block that is enciphered in a round.
fn input_block(salt: &[u8], label: u8, round: u16) -> Block
    requires { length salt.now ≤ SALT_LEN }
    ensures { result ≡ derivation_input salt.now label round }
{
    let mut input = [0; SRTP_BLOCK_SIZE];
    let (front, end) = input.split_at_mut(SALT_LEN);
    let (start, _) = front.split_at_mut(salt.len());
    start.copy_from_slice(salt);
    front[7] ^= label;
    end.copy_from_slice(&round.to_be_bytes());
    input
}
