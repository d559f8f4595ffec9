// The words of a step.
ghost use Rattle.std.specs.Prelude.{◌≡◌, ◌∷◌, false, IfErr};
ghost use Rattle.media_script.specs.Gives.{Gives};
ghost use Rattle.media_script.specs.declared.error.LineError.TheVariants.{Memory};
ghost use Rattle.media_script.specs.Grammar.{texts, sources_in, write_act, tick_act, deliver_act, foreign_act, app_act, ask_act, remb_act, act_of, step_of, is_long, in_few};
ghost use Rattle.media_script.specs.Spelling.{words_of};

use crate::error::LineError;
use crate::lines::{is_long, words};
use crate::words::{
    application_data, flag, hex, keyframe, kind as kind_word, number, number_8, number_32, side,
    sources as sources_word, time,
};
use media_base::Bytes;
use media_model::{Act, Sources, Step, Write};
use media_units::{Bitrate, Instant};
use rtp_wire::{Pt, SeqNo, Ssrc};
use std::alloc::Global;

// The contributing sources of a packet, which the words behind its payload say.
fn sources(alloc: Global, words: &[&[u8]]) -> Result<Sources, LineError>
    ensures { Gives (λ l. l) result (sources_in (texts words.now)) }
{
    match words {
        [] => Ok(Sources::none()),
        [word] => Ok(Sources::from_vec(alloc, sources_word(alloc, word)?)?),
        _ => Err(LineError::Outside),
    }
}

#[tactic(auto, unfolding(crate::specs::Grammar::write_act))]
fn write(alloc: Global, words: &[&[u8]]) -> Result<Act, LineError>
    ensures { Gives (λ a. a) result (write_act (texts words.now)) }
{
    match words {
        [
            ssrc,
            sequence,
            pt,
            rtp_time,
            marker,
            nackable,
            payload,
            rest @ ..,
        ] => Ok(Act::Write(Write {
            ssrc: Ssrc::from(number_32(ssrc)?),
            number: SeqNo::from(number(sequence)?),
            pt: Pt::from(number_8(pt)?),
            rtp_time: number_32(rtp_time)?,
            marker: flag(marker)?,
            nackable: flag(nackable)?,
            payload: Bytes::from_vec(hex(alloc, payload)?),
            csrc: sources(alloc, rest)?,
        })),
        _ => Err(LineError::Outside),
    }
}

fn tick(words: &[&[u8]]) -> Result<Act, LineError>
    ensures { Gives (λ a. a) result (tick_act (texts words.now)) }
{
    match words {
        [] => Ok(Act::Tick),
        _ => Err(LineError::Outside),
    }
}

fn deliver(words: &[&[u8]]) -> Result<Act, LineError>
    ensures { Gives (λ a. a) result (deliver_act (texts words.now)) }
{
    match words {
        [datagram] => Ok(Act::Deliver {
            datagram: number(datagram)?,
        }),
        _ => Err(LineError::Outside),
    }
}

fn foreign(alloc: Global, words: &[&[u8]]) -> Result<Act, LineError>
    ensures { Gives (λ a. a) result (foreign_act (texts words.now)) }
{
    match words {
        [kind, bytes] => Ok(Act::Foreign {
            kind: kind_word(kind)?,
            bytes: Bytes::from_vec(hex(alloc, bytes)?),
        }),
        _ => Err(LineError::Outside),
    }
}

fn app(alloc: Global, words: &[&[u8]]) -> Result<Act, LineError>
    ensures { Gives (λ a. a) result (app_act (texts words.now)) }
{
    match words {
        [sender, media, payload] => Ok(Act::Feedback {
            sender: Ssrc::from(number_32(sender)?),
            media: Ssrc::from(number_32(media)?),
            payload: application_data(alloc, payload)?,
        }),
        _ => Err(LineError::Outside),
    }
}

fn ask(words: &[&[u8]]) -> Result<Act, LineError>
    ensures { Gives (λ a. a) result (ask_act (texts words.now)) }
{
    match words {
        [ssrc, kind] => Ok(Act::Ask {
            ssrc: Ssrc::from(number_32(ssrc)?),
            kind: keyframe(kind)?,
        }),
        _ => Err(LineError::Outside),
    }
}

fn remb(words: &[&[u8]]) -> Result<Act, LineError>
    ensures { Gives (λ a. a) result (remb_act (texts words.now)) }
{
    match words {
        [ssrc, rate] => Ok(Act::Rate {
            ssrc: Ssrc::from(number_32(ssrc)?),
            rate: Bitrate::bps(number(rate)?),
        }),
        _ => Err(LineError::Outside),
    }
}

// The act of a first word and of the words behind the time.
#[tactic(auto, unfolding(crate::specs::Grammar::act_of))]
fn act(alloc: Global, kind: &[u8], words: &[&[u8]]) -> Result<Act, LineError>
    ensures { Gives (λ a. a) result (act_of (kind.now ∷ texts words.now)) }
{
    if kind == b"write".as_slice() {
        write(alloc, words)
    } else if kind == b"tick".as_slice() {
        tick(words)
    } else if kind == b"deliver".as_slice() {
        deliver(words)
    } else if kind == b"foreign".as_slice() {
        foreign(alloc, words)
    } else if kind == b"app".as_slice() {
        app(alloc, words)
    } else if kind == b"ask".as_slice() {
        ask(words)
    } else if kind == b"remb".as_slice() {
        remb(words)
    } else {
        Err(LineError::Outside)
    }
}

#[tactic(auto, unfolding(crate::specs::Grammar::step_of))]
fn step_in(alloc: Global, words: &[&[u8]]) -> Result<Step, LineError>
    ensures { Gives (λ s. s) result (step_of (texts words.now)) }
{
    match words {
        [kind, by, at, rest @ ..] => Ok(Step {
            side: side(by)?,
            time: Instant::from_nanos(time(at)?),
            act: act(alloc, kind, rest)?,
        }),
        _ => Err(LineError::Outside),
    }
}

// The step of a line.
pub fn step(alloc: Global, line: &[u8]) -> Result<Step, LineError>
    ensures given { Gives (λ s. s) result (in_few step_of (words_of line.now)) }
    ensures memory { IfErr result (λ e. e ≡ Memory → is_long (words_of line.now) ≡ false) }
{
    if is_long(line) {
        return Err(LineError::Outside);
    }
    let words = words(alloc, line)?;
    step_in(alloc, words.as_slice())
}
