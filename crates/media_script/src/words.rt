// What the words of a line say.
ghost use Rattle.std.specs.Prelude.{◌≡◌, ◌^◌, IsTrue, IfOk, IfErr, codes};
ghost use Rattle.std.specs.Option.{ForSome, option_copied};
ghost use Rattle.std.specs.Char.{is_ascii_alphanumeric};
ghost use Rattle.std.specs.List.{list_all};
ghost use Rattle.media_script.specs.Words.{plain_front, number_of, narrow_of, millis_of, time_of, side_of, flag_of, hex_of, app_data_of, at_most, key_of, rate_of, is_name, name_of, numbers_of, sources_of, type_behind, optional, one_of, in_table, kinds, keyframes, ciphers, profiles, codecs, media_kinds, extensions};
ghost use Rattle.media_script.specs.Names.{kind_text, keyframe_text, cipher_text, profile_text, codec_text, media_kind_text, extension_text};
ghost use Rattle.media_script.specs.Gives.{Gives};
ghost use Rattle.media_script.specs.declared.error.LineError.TheVariants.{Outside};

use crate::error::LineError;
use hex::FromHexError;
use media_base::Bytes;
use media_model::{
    ApplicationData, CipherName, Codec, FirstNumber, Key, Kind, MediaKind, Side, SrtcpIndex,
};
use rtp_base::{KeyframeRequestKind, MAX_NAME_LEN, NUMBER_LIMIT, wire};
use rtp_wire::{Extension, Mid, Pt, Rid};
use srtp_core::{SRTCP_INDEX_LIMIT, SrtpProfile};
use std::alloc::Global;

fn has_plain_front(word: &[u8]) -> bool
    ensures { result ≡ plain_front word.now }
{
    match word {
        [] => false,
        [b'0', _, ..] => false,
        _ => true,
    }
}

// Digits with no needless zero in front, below 2^64.
#[tactic(auto, unfolding(crate::specs::Words::number_of))]
pub fn number(word: &[u8]) -> Result<u64, LineError>
    ensures value { Gives (λ n. n) result (number_of word.now) }
    ensures outside { IfErr result (λ e. e ≡ Outside) }
{
    if !has_plain_front(word) {
        return Err(LineError::Outside);
    }
    let mut value = 0u64;
    for b in word {
        if !b.is_ascii_digit() {
            return Err(LineError::Outside);
        }
        value = match value.checked_mul(10) {
            Some(tens) => match tens.checked_add(u64::from(*b - b'0')) {
                Some(value) => value,
                None => return Err(LineError::Outside),
            },
            None => return Err(LineError::Outside),
        };
    }
    Ok(value)
}

#[tactic(auto, unfolding(crate::specs::Words::narrow_of))]
pub fn number_32(word: &[u8]) -> Result<u32, LineError>
    ensures value { Gives (λ n. n) result (narrow_of (2 ^ 32) word.now) }
    ensures outside { IfErr result (λ e. e ≡ Outside) }
{
    let n = number(word)?;
    if n > 0xffff_ffff {
        return Err(LineError::Outside);
    }
    Ok(n as u32)
}

#[tactic(auto, unfolding(crate::specs::Words::narrow_of))]
pub fn number_8(word: &[u8]) -> Result<u8, LineError>
    ensures value { Gives (λ n. n) result (narrow_of (2 ^ 8) word.now) }
    ensures outside { IfErr result (λ e. e ≡ Outside) }
{
    let n = number(word)?;
    if n > 255 {
        return Err(LineError::Outside);
    }
    Ok(n as u8)
}

// Milliseconds, as nanoseconds below 2^64.
#[tactic(auto, unfolding(crate::specs::Words::millis_of))]
pub fn millis(word: &[u8]) -> Result<u64, LineError>
    ensures value { Gives (λ n. n) result (millis_of word.now) }
    ensures outside { IfErr result (λ e. e ≡ Outside) }
{
    let n = number(word)?;
    match n.checked_mul(1_000_000) {
        Some(nanos) => Ok(nanos),
        None => Err(LineError::Outside),
    }
}

// Nanoseconds, or milliseconds with ms behind them.
#[tactic(auto, unfolding(crate::specs::Words::time_of))]
pub fn time(word: &[u8]) -> Result<u64, LineError>
    ensures value { Gives (λ n. n) result (time_of word.now) }
    ensures outside { IfErr result (λ e. e ≡ Outside) }
{
    match word.strip_suffix(b"ms".as_slice()) {
        Some(digits) => millis(digits),
        None => number(word),
    }
}

#[tactic(auto, unfolding(crate::specs::Words::side_of))]
pub fn side(word: &[u8]) -> Result<Side, LineError>
    ensures value { Gives (λ s. s) result (side_of word.now) }
    ensures outside { IfErr result (λ e. e ≡ Outside) }
{
    if word == b"A".as_slice() {
        Ok(Side::A)
    } else if word == b"B".as_slice() {
        Ok(Side::B)
    } else {
        Err(LineError::Outside)
    }
}

#[tactic(auto, unfolding(crate::specs::Words::flag_of))]
pub fn flag(word: &[u8]) -> Result<bool, LineError>
    ensures value { Gives (λ b. b) result (flag_of word.now) }
    ensures outside { IfErr result (λ e. e ≡ Outside) }
{
    if word == b"0".as_slice() {
        Ok(false)
    } else if word == b"1".as_slice() {
        Ok(true)
    } else {
        Err(LineError::Outside)
    }
}

#[tactic(auto, unfolding(crate::specs::Words::hex_of))]
pub fn hex(alloc: Global, word: &[u8]) -> Result<Vec<u8>, LineError>
    ensures { Gives (λ v. v.items) result (hex_of word.now) }
{
    if word == b"-".as_slice() {
        return Ok(Vec::new(alloc));
    }
    if word.is_empty() {
        return Err(LineError::Outside);
    }
    match hex::decode(alloc, word) {
        Ok(bytes) => Ok(bytes),
        Err(FromHexError::OutOfMemory) => Err(LineError::Memory),
        Err(_) => Err(LineError::Outside),
    }
}

// What an application sends as feedback, in hex.
#[tactic(auto, unfolding(crate::specs::Words::app_data_of))]
pub fn application_data(alloc: Global, word: &[u8]) -> Result<ApplicationData, LineError>
    ensures { Gives (λ d. d) result (app_data_of word.now) }
{
    let bytes = hex(alloc, word)?;
    match ApplicationData::new(Bytes::from_vec(bytes)) {
        Some(payload) => Ok(payload),
        None => Err(LineError::Outside),
    }
}

// An index of SRTCP, at most 2^31.
#[tactic(auto, unfolding(crate::specs::Words::at_most))]
pub fn srtcp_index(word: &[u8]) -> Result<SrtcpIndex, LineError>
    ensures value { Gives (λ i. i) result (at_most SRTCP_INDEX_LIMIT word.now) }
    ensures outside { IfErr result (λ e. e ≡ Outside) }
{
    match SrtcpIndex::new(number(word)?) {
        Some(index) => Ok(index),
        None => Err(LineError::Outside),
    }
}

// The number of a first packet, at most 2^48.
#[tactic(auto, unfolding(crate::specs::Words::at_most))]
pub fn first_number(word: &[u8]) -> Result<FirstNumber, LineError>
    ensures value { Gives (λ n. n) result (at_most NUMBER_LIMIT word.now) }
    ensures outside { IfErr result (λ e. e ≡ Outside) }
{
    match FirstNumber::new(number(word)?) {
        Some(number) => Ok(number),
        None => Err(LineError::Outside),
    }
}

// The value of the word in a table.
fn one_of<T: Copy>(word: &[u8], table: &[(&str, T)]) -> Result<T, LineError>
    ensures value { Gives (λ x. x) result (in_table (λ s. s.now) table.now word.now) }
    ensures outside { IfErr result (λ e. e ≡ Outside) }
{
    for (text, value) in table {
        if word == text.as_bytes() {
            return Ok(*value);
        }
    }
    Err(LineError::Outside)
}

#[tactic(auto, unfolding(crate::specs::Words::one_of))]
pub fn kind(word: &[u8]) -> Result<Kind, LineError>
    ensures value { Gives (λ k. k) result (one_of kind_text kinds word.now) }
    ensures outside { IfErr result (λ e. e ≡ Outside) }
{
    one_of(word, &[("rtp", Kind::Rtp), ("rtcp", Kind::Rtcp)])
}

#[tactic(auto, unfolding(crate::specs::Words::one_of))]
pub fn keyframe(word: &[u8]) -> Result<KeyframeRequestKind, LineError>
    ensures value { Gives (λ k. k) result (one_of keyframe_text keyframes word.now) }
    ensures outside { IfErr result (λ e. e ≡ Outside) }
{
    one_of(
        word,
        &[
            ("pli", KeyframeRequestKind::Pli),
            ("fir", KeyframeRequestKind::Fir),
        ],
    )
}

#[tactic(auto, unfolding(crate::specs::Words::one_of))]
pub fn cipher(word: &[u8]) -> Result<CipherName, LineError>
    ensures value { Gives (λ c. c) result (one_of cipher_text ciphers word.now) }
    ensures outside { IfErr result (λ e. e ≡ Outside) }
{
    one_of(word, &[("toy", CipherName::Toy), ("sha", CipherName::Sha)])
}

#[tactic(auto, unfolding(crate::specs::Words::one_of))]
pub fn profile(word: &[u8]) -> Result<SrtpProfile, LineError>
    ensures value { Gives (λ p. p) result (one_of profile_text profiles word.now) }
    ensures outside { IfErr result (λ e. e ≡ Outside) }
{
    one_of(
        word,
        &[
            ("cm", SrtpProfile::Aes128CmSha1_80),
            ("gcm128", SrtpProfile::AeadAes128Gcm),
            ("gcm256", SrtpProfile::AeadAes256Gcm),
        ],
    )
}

#[tactic(auto, unfolding(crate::specs::Words::key_of))]
pub fn key(alloc: Global, word: &[u8]) -> Result<Key, LineError>
    ensures { Gives (λ k. k) result (key_of word.now) }
{
    if word == b"zero".as_slice() {
        return Ok(Key::Zero);
    }
    let bytes = hex(alloc, word)?;
    Ok(Key::Given(Bytes::from_vec(bytes)))
}

#[tactic(auto, unfolding(crate::specs::Words::one_of))]
pub fn codec(word: &[u8]) -> Result<Codec, LineError>
    ensures value { Gives (λ c. c) result (one_of codec_text codecs word.now) }
    ensures outside { IfErr result (λ e. e ≡ Outside) }
{
    one_of(
        word,
        &[
            ("opus", Codec::Opus),
            ("pcmu", Codec::Pcmu),
            ("pcma", Codec::Pcma),
            ("telephone", Codec::Telephone),
            ("vp8", Codec::Vp8),
            ("vp9", Codec::Vp9),
            ("h264", Codec::H264),
            ("h265", Codec::H265),
            ("h266", Codec::H266),
            ("av1", Codec::Av1),
        ],
    )
}

#[tactic(auto, unfolding(crate::specs::Words::one_of))]
pub fn media_kind(word: &[u8]) -> Result<MediaKind, LineError>
    ensures value { Gives (λ k. k) result (one_of media_kind_text media_kinds word.now) }
    ensures outside { IfErr result (λ e. e ≡ Outside) }
{
    one_of(
        word,
        &[("audio", MediaKind::Audio), ("video", MediaKind::Video)],
    )
}

#[tactic(auto, unfolding(crate::specs::Words::one_of))]
pub fn extension(word: &[u8]) -> Result<Extension, LineError>
    ensures value { Gives (λ e. e) result (one_of extension_text extensions word.now) }
    ensures outside { IfErr result (λ e. e ≡ Outside) }
{
    one_of(
        word,
        &[
            ("level", Extension::AudioLevel),
            ("abs", Extension::AbsoluteSendTime),
            ("twcc", Extension::TransportSequenceNumber),
            ("mid", Extension::RtpMid),
            ("rid", Extension::RtpStreamId),
            ("rrid", Extension::RepairedRtpStreamId),
            ("orient", Extension::VideoOrientation),
            ("capture", Extension::AbsoluteCaptureTime),
            ("delay", Extension::PlayoutDelay),
        ],
    )
}

/// The most bytes of contributing sources: 15 of 32 bits (RFC 3550 section 5.1).
pub const MOST_SOURCE_BYTES: usize = 60;

#[tactic(auto, unfolding(crate::specs::Words::numbers_of))]
fn numbers(alloc: Global, bytes: &[u8]) -> Result<Vec<u32>, LineError>
    ensures { Gives (λ v. v.items) result (numbers_of bytes.now) }
{
    if bytes.len() % 4 != 0 || bytes.len() > MOST_SOURCE_BYTES {
        return Err(LineError::Outside);
    }
    let mut numbers = Vec::new(alloc);
    let mut rest = bytes;
    while let [_, _, _, _, after @ ..] = rest {
        numbers.push(wire::word(rest, 0))?;
        rest = after;
    }
    Ok(numbers)
}

// Contributing sources, in hex behind c=.
#[tactic(auto, unfolding(crate::specs::Words::sources_of))]
pub fn sources(alloc: Global, word: &[u8]) -> Result<Vec<u32>, LineError>
    ensures { Gives (λ v. v.items) result (sources_of word.now) }
{
    match word.strip_prefix(b"c=".as_slice()) {
        Some(digits) => {
            let bytes = hex(alloc, digits)?;
            numbers(alloc, bytes.as_slice())
        }
        None => Err(LineError::Outside),
    }
}

// The payload type behind a name, where the word has that.
#[tactic(auto, unfolding(crate::specs::Words::type_behind))]
pub fn type_behind(name: &[u8], word: &[u8]) -> Result<Option<Pt>, LineError>
    ensures value { Gives (λ pt. pt) result (type_behind name.now word.now) }
    ensures outside { IfErr result (λ e. e ≡ Outside) }
{
    match word.strip_prefix(name) {
        Some(digits) => Ok(Some(Pt::from(number_8(digits)?))),
        None => Ok(None),
    }
}

// Units of RTP time in a second.
#[tactic(auto, unfolding(crate::specs::Words::rate_of))]
pub fn rate(word: &[u8]) -> Result<u32, LineError>
    ensures value { Gives (λ n. n) result (rate_of word.now) }
    ensures outside { IfErr result (λ e. e ≡ Outside) }
{
    let n = number_32(word)?;
    if n == 0 {
        return Err(LineError::Outside);
    }
    Ok(n)
}

// 1 to so many ASCII letters and digits.
fn is_name(word: &[u8], most: usize) -> bool
    ensures { result ≡ is_name most word.now }
{
    !word.is_empty() && word.len() <= most && is_plain(word)
}

fn is_plain(word: &[u8]) -> bool
    ensures { result ≡ list_all is_ascii_alphanumeric word.now }
{
    word.iter().all(|b| b.is_ascii_alphanumeric())
}

// The word, if it is a name of 1 to so many ASCII letters and digits.
#[tactic(auto, unfolding(crate::specs::Words::name_of))]
pub fn name(word: &[u8], most: usize) -> Result<&[u8], LineError>
    ensures value { Gives (λ n. n.now) result (name_of most word.now) }
    ensures name { IfOk result (λ n. IsTrue (is_name most n.now)) }
    ensures outside { IfErr result (λ e. e ≡ Outside) }
{
    if !is_name(word, most) {
        return Err(LineError::Outside);
    }
    Ok(word)
}

#[tactic(auto, using(crate::proofs::Names::is_wire_name))]
pub fn mid(name: &[u8]) -> Mid
    requires { IsTrue (is_name MAX_NAME_LEN name.now) }
    ensures { result ≡ name.now }
{
    match Mid::from_slice(name) {
        Some(mid) => mid,
        None => unreachable!(),
    }
}

#[tactic(auto, using(crate::proofs::Names::is_wire_name))]
pub fn rid(name: Option<&[u8]>) -> Option<Rid>
    requires { ForSome name (λ n. IsTrue (is_name MAX_NAME_LEN n.now)) }
    ensures { result ≡ option_copied name.entry }
{
    match name {
        Some(name) => Rid::from_slice(name),
        None => None,
    }
}

// A number of 32 bits, or the word for none.
#[tactic(auto, unfolding(crate::specs::Words::optional))]
pub fn optional_32(word: &[u8], none: &[u8]) -> Result<Option<u32>, LineError>
    ensures value { Gives (λ n. n) result (optional none.now (narrow_of (2 ^ 32)) word.now) }
    ensures outside { IfErr result (λ e. e ≡ Outside) }
{
    if word == none {
        return Ok(None);
    }
    Ok(Some(number_32(word)?))
}

// A name of 1 to 16 ASCII letters and digits, or - for none.
#[tactic(auto, unfolding(crate::specs::Words::optional))]
pub fn optional_name(word: &[u8]) -> Result<Option<&[u8]>, LineError>
    ensures value { Gives (λ n. option_copied n) result (optional (codes "-") (name_of MAX_NAME_LEN) word.now) }
    ensures name { IfOk result (λ n. ForSome n (λ n. IsTrue (is_name MAX_NAME_LEN n.now))) }
    ensures outside { IfErr result (λ e. e ≡ Outside) }
{
    if word == b"-".as_slice() {
        return Ok(None);
    }
    Ok(Some(name(word, MAX_NAME_LEN)?))
}
