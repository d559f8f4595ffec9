// The words of a setup line.
ghost use Rattle.std.specs.Prelude.{◌≡◌, false, IfErr};
ghost use Rattle.media_script.specs.Gives.{Gives};
ghost use Rattle.media_script.specs.declared.error.LineError.TheVariants.{Memory};
ghost use Rattle.media_script.specs.Grammar.{texts, cipher_line, profile_line, key_line, unix_line, mtu_line, pause_line, reports_line, rtcp_line, local_line, ext_line, done, named_type, is_flagged, behind, type_line, media_line, stream_line, start_line, cache_line, side_line_of, named_line_of, number_line_of, setup_line_of, is_long, in_few};
ghost use Rattle.media_script.specs.Spelling.{words_of};

use crate::error::LineError;
use crate::lines::{is_long, words};
use crate::setup_line::SetupLine;
use crate::words::{
    cipher as cipher_word, codec, extension, first_number, key as key_word, media_kind, mid,
    millis, name, number, number_8, number_32, optional_32, optional_name, profile as profile_word,
    rate, rid, side, srtcp_index, type_behind,
};
use media_base::Bytes;
use media_model::{
    Cache, Mtu, NamedCache, NamedExtension, NamedStart, PayloadType, ReportTimes, Stream,
};
use media_units::{Beginning, Duration};
use rtp_base::MAX_NAME_LEN;
use rtp_wire::{Pt, Ssrc};
use std::alloc::Global;

fn cipher(words: &[&[u8]]) -> Result<SetupLine, LineError>
    ensures { Gives (λ l. l) result (cipher_line (texts words.now)) }
{
    match words {
        [cipher] => Ok(SetupLine::Cipher(cipher_word(cipher)?)),
        _ => Err(LineError::Outside),
    }
}

fn profile(words: &[&[u8]]) -> Result<SetupLine, LineError>
    ensures { Gives (λ l. l) result (profile_line (texts words.now)) }
{
    match words {
        [profile] => Ok(SetupLine::Profile(profile_word(profile)?)),
        _ => Err(LineError::Outside),
    }
}

fn key(alloc: Global, words: &[&[u8]]) -> Result<SetupLine, LineError>
    ensures { Gives (λ l. l) result (key_line (texts words.now)) }
{
    match words {
        [key] => Ok(SetupLine::Key(key_word(alloc, key)?)),
        _ => Err(LineError::Outside),
    }
}

fn unix(words: &[&[u8]]) -> Result<SetupLine, LineError>
    ensures { Gives (λ l. l) result (unix_line (texts words.now)) }
{
    match words {
        [secs] => Ok(SetupLine::Unix(Beginning {
            unix_secs: number(secs)?,
        })),
        _ => Err(LineError::Outside),
    }
}

fn mtu(words: &[&[u8]]) -> Result<SetupLine, LineError>
    ensures { Gives (λ l. l) result (mtu_line (texts words.now)) }
{
    match words {
        [target, warn] => Ok(SetupLine::Mtu(Mtu {
            target: number(target)?,
            warn: number(warn)?,
        })),
        _ => Err(LineError::Outside),
    }
}

fn pause(words: &[&[u8]]) -> Result<SetupLine, LineError>
    ensures { Gives (λ l. l) result (pause_line (texts words.now)) }
{
    match words {
        [threshold] => Ok(SetupLine::Pause(Duration::from_nanos(millis(threshold)?))),
        _ => Err(LineError::Outside),
    }
}

fn reports(words: &[&[u8]]) -> Result<SetupLine, LineError>
    ensures { Gives (λ l. l) result (reports_line (texts words.now)) }
{
    match words {
        [audio, video] => Ok(SetupLine::Reports(ReportTimes {
            audio: Duration::from_nanos(millis(audio)?),
            video: Duration::from_nanos(millis(video)?),
        })),
        _ => Err(LineError::Outside),
    }
}

fn rtcp(words: &[&[u8]]) -> Result<SetupLine, LineError>
    ensures { Gives (λ l. l) result (rtcp_line (texts words.now)) }
{
    match words {
        [of, index] => Ok(SetupLine::Rtcp(side(of)?, srtcp_index(index)?)),
        _ => Err(LineError::Outside),
    }
}

fn local(words: &[&[u8]]) -> Result<SetupLine, LineError>
    ensures { Gives (λ l. l) result (local_line (texts words.now)) }
{
    match words {
        [of, ssrc] => Ok(SetupLine::Local(side(of)?, Ssrc::from(number_32(ssrc)?))),
        _ => Err(LineError::Outside),
    }
}

fn ext(words: &[&[u8]]) -> Result<SetupLine, LineError>
    ensures { Gives (λ l. l) result (ext_line (texts words.now)) }
{
    match words {
        [id, of] => Ok(SetupLine::Ext(NamedExtension {
            id: number_8(id)?,
            extension: extension(of)?,
        })),
        _ => Err(LineError::Outside),
    }
}

// The payload type behind a name, where the first of these words has that.
fn named_type(name: &[u8], words: &[&[u8]]) -> Result<Option<Pt>, LineError>
    ensures { Gives (λ pt. pt) result (named_type name.now (texts words.now)) }
{
    match words {
        [word, ..] => type_behind(name, word),
        [] => Ok(None),
    }
}

// Whether the first of these words is this.
fn is_flagged(name: &[u8], words: &[&[u8]]) -> bool
    ensures { result ≡ is_flagged name.now (texts words.now) }
{
    match words {
        [word, ..] => *word == name,
        [] => false,
    }
}

// These words, without the first one where that was read.
fn behind<'a, 'w>(was_read: bool, words: &'w [&'a [u8]]) -> &'w [&'a [u8]]
    ensures { texts result.now ≡ behind was_read (texts words.now) }
{
    match words {
        [_, rest @ ..] if was_read => rest,
        _ => words,
    }
}

// A line behind which no words are left.
fn alone(line: SetupLine, words: &[&[u8]]) -> Result<SetupLine, LineError>
    ensures { Gives (λ l. l) result (done line (texts words.now)) }
{
    match words {
        [] => Ok(line),
        _ => Err(LineError::Outside),
    }
}

fn payload_type(words: &[&[u8]]) -> Result<SetupLine, LineError>
    ensures { Gives (λ l. l) result (type_line (texts words.now)) }
{
    match words {
        [pt, name, per_second, options @ ..] => {
            let pt = Pt::from(number_8(pt)?);
            let codec = codec(name)?;
            let rate = rate(per_second)?;
            let rtx = named_type(b"rtx=".as_slice(), options)?;
            let options = behind(rtx.is_some(), options);
            let red = named_type(b"red=".as_slice(), options)?;
            let options = behind(red.is_some(), options);
            let pli = is_flagged(b"pli".as_slice(), options);
            let options = behind(pli, options);
            let fir = is_flagged(b"fir".as_slice(), options);
            let line = SetupLine::Type(PayloadType {
                pt,
                codec,
                rate,
                rtx,
                red,
                pli,
                fir,
            });
            alone(line, behind(fir, options))
        }
        _ => Err(LineError::Outside),
    }
}

fn media(alloc: Global, words: &[&[u8]]) -> Result<SetupLine, LineError>
    ensures { Gives (λ l. l) result (media_line (texts words.now)) }
{
    match words {
        [of, kind, cname] => Ok(SetupLine::Media {
            mid: mid(name(of, MAX_NAME_LEN)?),
            kind: media_kind(kind)?,
            cname: Bytes::from_slice(alloc, name(cname, 255)?)?,
        }),
        _ => Err(LineError::Outside),
    }
}

fn stream(words: &[&[u8]]) -> Result<SetupLine, LineError>
    ensures { Gives (λ l. l) result (stream_line (texts words.now)) }
{
    match words {
        [from, of, ssrc, rtx, layer] => {
            let side = side(from)?;
            let mid = mid(name(of, MAX_NAME_LEN)?);
            Ok(SetupLine::Stream {
                mid,
                stream: Stream {
                    side,
                    ssrc: Ssrc::from(number_32(ssrc)?),
                    rtx: optional_32(rtx, b"-")?.map(Ssrc::from),
                    rid: rid(optional_name(layer)?),
                },
            })
        }
        _ => Err(LineError::Outside),
    }
}

fn start(words: &[&[u8]]) -> Result<SetupLine, LineError>
    ensures { Gives (λ l. l) result (start_line (texts words.now)) }
{
    match words {
        [of, first] => Ok(SetupLine::Start(NamedStart {
            ssrc: Ssrc::from(number_32(of)?),
            number: first_number(first)?,
        })),
        _ => Err(LineError::Outside),
    }
}

fn cache(words: &[&[u8]]) -> Result<SetupLine, LineError>
    ensures { Gives (λ l. l) result (cache_line (texts words.now)) }
{
    match words {
        [of, packets, age, cap] => Ok(SetupLine::Cache(NamedCache {
            ssrc: Ssrc::from(number_32(of)?),
            cache: Cache {
                packets: number(packets)?,
                age: Duration::from_nanos(millis(age)?),
                cap: optional_32(cap, b"none")?,
            },
        })),
        _ => Err(LineError::Outside),
    }
}

#[tactic(auto, unfolding(crate::specs::Grammar::side_line_of))]
fn side_line(words: &[&[u8]]) -> Result<SetupLine, LineError>
    ensures { Gives (λ l. l) result (side_line_of (texts words.now)) }
{
    match words {
        [] => Err(LineError::Outside),
        [kind, rest @ ..] => {
            if *kind == b"rtcp".as_slice() {
                rtcp(rest)
            } else if *kind == b"local".as_slice() {
                local(rest)
            } else {
                Err(LineError::Outside)
            }
        }
    }
}

#[tactic(auto, unfolding(crate::specs::Grammar::named_line_of))]
fn named_line(alloc: Global, words: &[&[u8]]) -> Result<SetupLine, LineError>
    ensures { Gives (λ l. l) result (named_line_of (texts words.now)) }
{
    match words {
        [] => Err(LineError::Outside),
        [kind, rest @ ..] => {
            if *kind == b"media".as_slice() {
                media(alloc, rest)
            } else if *kind == b"stream".as_slice() {
                stream(rest)
            } else if *kind == b"start".as_slice() {
                start(rest)
            } else if *kind == b"cache".as_slice() {
                cache(rest)
            } else {
                side_line(words)
            }
        }
    }
}

#[tactic(auto, unfolding(crate::specs::Grammar::number_line_of))]
fn number_line(alloc: Global, words: &[&[u8]]) -> Result<SetupLine, LineError>
    ensures { Gives (λ l. l) result (number_line_of (texts words.now)) }
{
    match words {
        [] => Err(LineError::Outside),
        [kind, rest @ ..] => {
            if *kind == b"unix".as_slice() {
                unix(rest)
            } else if *kind == b"mtu".as_slice() {
                mtu(rest)
            } else if *kind == b"pause".as_slice() {
                pause(rest)
            } else if *kind == b"reports".as_slice() {
                reports(rest)
            } else {
                named_line(alloc, words)
            }
        }
    }
}

#[tactic(auto, unfolding(crate::specs::Grammar::setup_line_of))]
fn setup_line_in(alloc: Global, words: &[&[u8]]) -> Result<SetupLine, LineError>
    ensures { Gives (λ l. l) result (setup_line_of (texts words.now)) }
{
    match words {
        [] => Err(LineError::Outside),
        [kind, rest @ ..] => {
            if *kind == b"cipher".as_slice() {
                cipher(rest)
            } else if *kind == b"profile".as_slice() {
                profile(rest)
            } else if *kind == b"key".as_slice() {
                key(alloc, rest)
            } else if *kind == b"ext".as_slice() {
                ext(rest)
            } else if *kind == b"type".as_slice() {
                payload_type(rest)
            } else {
                number_line(alloc, words)
            }
        }
    }
}

// What a setup line says.
pub fn setup_line(alloc: Global, line: &[u8]) -> Result<SetupLine, LineError>
    ensures given { Gives (λ l. l) result (in_few setup_line_of (words_of line.now)) }
    ensures memory { IfErr result (λ e. e ≡ Memory → is_long (words_of line.now) ≡ false) }
{
    if is_long(line) {
        return Err(LineError::Outside);
    }
    let words = words(alloc, line)?;
    setup_line_in(alloc, words.as_slice())
}
