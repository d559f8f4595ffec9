//! Rounds on the toy cipher, under AEAD_AES_128_GCM.
use crate::memory::answer;
use rtp_wire::{ExtensionMap, RtpHeader};
use srtp_core::{KeyingMaterial, SrtpContext, SrtpProfile, ToyCipher};
use std::alloc::{AllocError, Global};

/// What is done with a datagram whose payload has so many bytes.
#[derive(Clone, Copy)]
pub enum CipherWork {
    /// It is sealed.
    Seal(usize),
    /// It is opened.
    Open(usize),
}

// A header without extension, of number 1 and source 42 (RFC 3550 section 5.1).
static HEADER: [u8; 12] = [0x80, 0x60, 0, 1, 0, 0, 0, 0, 0, 0, 0, 0x2a];

// What keys are made of.
fn material(alloc: Global) -> Result<KeyingMaterial, AllocError> {
    KeyingMaterial::new(alloc, &[7; 56])
}

// A context of one direction.
fn context(alloc: Global) -> Result<SrtpContext<ToyCipher>, AllocError> {
    let material = material(alloc)?;
    let profile = SrtpProfile::AeadAes128Gcm;
    answer(SrtpContext::new(alloc, ToyCipher, profile, &material, true))
}

// Puts a datagram with a payload of so many bytes behind other bytes.
fn put_datagram(bytes: &mut Vec<u8>, size: usize) -> Result<(), AllocError> {
    bytes.extend_from_slice(&HEADER)?;
    for i in 0..size {
        bytes.push((i % 256) as u8)?;
    }
    Ok(())
}

// A datagram with a payload of so many bytes.
fn datagram(alloc: Global, size: usize) -> Result<Vec<u8>, AllocError> {
    let mut bytes = Vec::new(alloc);
    put_datagram(&mut bytes, size)?;
    Ok(bytes)
}

// The datagram sealed under its number.
fn seal_one(
    alloc: Global,
    context: &mut SrtpContext<ToyCipher>,
    plain: &[u8],
    header: &RtpHeader,
) -> Result<Vec<u8>, AllocError> {
    if header.header_len > plain.len() {
        return Ok(Vec::new(alloc));
    }
    context.protect_rtp(plain, header, u64::from(header.sequence_number))
}

// Seals the datagram; tells the last byte of the seal.
fn seal_next(
    alloc: Global,
    context: &mut SrtpContext<ToyCipher>,
    plain: &[u8],
    header: &RtpHeader,
) -> Result<u64, AllocError> {
    let sealed = seal_one(alloc, context, plain, header)?;
    Ok(u64::from(sealed.last().copied().unwrap_or(0)))
}

// Seals the datagram so often; tells the sum of a byte of each seal.
fn seal_all(
    alloc: Global,
    context: &mut SrtpContext<ToyCipher>,
    plain: &[u8],
    header: &RtpHeader,
    count: u64,
) -> Result<u64, AllocError> {
    let mut sum: u64 = 0;
    for _i in 0..count {
        sum = sum.wrapping_add(seal_next(alloc, context, plain, header)?);
    }
    Ok(sum)
}

fn seal(alloc: Global, plain: &[u8], header: &RtpHeader, count: u64) -> Result<u64, AllocError> {
    let mut context = context(alloc)?;
    seal_all(alloc, &mut context, plain, header, count)
}

// Opens the datagram; tells how many bytes that gave.
fn open_one(context: &mut SrtpContext<ToyCipher>, sealed: &[u8], header: &RtpHeader) -> u64 {
    match context.unprotect_rtp(sealed, header, u64::from(header.sequence_number)) {
        Some(plain) => plain.len() as u64,
        None => 0,
    }
}

// Opens the datagram so often; tells how many bytes that gave.
fn open_all(
    context: &mut SrtpContext<ToyCipher>,
    sealed: &[u8],
    header: &RtpHeader,
    count: u64,
) -> u64 {
    let mut sum: u64 = 0;
    for _i in 0..count {
        sum = sum.wrapping_add(open_one(context, sealed, header));
    }
    sum
}

fn open(alloc: Global, sealed: &[u8], header: &RtpHeader, count: u64) -> Result<u64, AllocError> {
    let mut context = context(alloc)?;
    Ok(open_all(&mut context, sealed, header, count))
}

// The datagram sealed by a context of its own.
fn sealed(alloc: Global, plain: &[u8], header: &RtpHeader) -> Result<Vec<u8>, AllocError> {
    let mut context = context(alloc)?;
    seal_one(alloc, &mut context, plain, header)
}

// Seals the datagram, and opens it so often.
fn seal_and_open(
    alloc: Global,
    plain: &[u8],
    header: &RtpHeader,
    count: u64,
) -> Result<u64, AllocError> {
    let sealed = sealed(alloc, plain, header)?;
    open(alloc, &sealed, header, count)
}

// Does it so often with a datagram.
fn play_on(alloc: Global, work: CipherWork, plain: &[u8], count: u64) -> Result<u64, AllocError> {
    let Some(header) = RtpHeader::parse(plain, &ExtensionMap::empty()) else {
        return Ok(0);
    };
    match work {
        CipherWork::Seal(_) => seal(alloc, plain, &header, count),
        CipherWork::Open(_) => seal_and_open(alloc, plain, &header, count),
    }
}

impl CipherWork {
    // The bytes of a payload.
    fn size(self) -> usize {
        match self {
            CipherWork::Seal(size) | CipherWork::Open(size) => size,
        }
    }

    /// Does it so often.
    pub fn play(self, alloc: Global, count: u64) -> Result<u64, AllocError> {
        let plain = datagram(alloc, self.size())?;
        play_on(alloc, self, &plain, count)
    }
}
