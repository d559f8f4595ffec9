// The text of a transcript.
ghost use Rattle.std.specs.Prelude.{◌≡◌, ◌++◌, IfOk, OnOk, string_bytes};
ghost use Rattle.media_script.specs.Names.{side_text, kind_text, call_text, flag_text};
ghost use Rattle.media_script.specs.Text.{hex_text, answer_text, wrote_text, ticked_text, called_text, got_text, sealed_text, opened_text, yielded_text, line_text, entries_text, end_text, text_of};

use media_model::{Call, Entry, Got, Kind, Opened, Packet, Sealed, Side, Transcript};
use media_units::Instant;
use std::alloc::{AllocError, Global};
use std::fmt::Write;

// The word for a side.
fn side_word(side: Side) -> &'static str
    ensures { result.now ≡ side_text side }
{
    match side {
        Side::A => "A",
        Side::B => "B",
    }
}

// The word for what a datagram carries.
fn kind_word(kind: Kind) -> &'static str
    ensures { result.now ≡ kind_text kind }
{
    match kind {
        Kind::Rtp => "rtp",
        Kind::Rtcp => "rtcp",
    }
}

// The word for what an application asks of its session.
fn call_word(call: Call) -> &'static str
    ensures { result.now ≡ call_text call }
{
    match call {
        Call::Application => "app",
        Call::Ask => "ask",
        Call::Remb => "remb",
    }
}

// 0 or 1.
fn flag_word(flag: bool) -> &'static str
    ensures { result.now ≡ flag_text flag }
{
    if flag { "1" } else { "0" }
}

// yes or no.
fn answer_word(answer: bool) -> &'static str
    ensures { result.now ≡ answer_text answer }
{
    if answer { "yes" } else { "no" }
}

// Adds bytes in lower-case hex, and - for none.
#[tactic(auto, using(crate::proofs::HexLaws::hex_text_is))]
fn put_hex(text: &mut String, bytes: &[u8]) -> Result<(), AllocError>
    ensures { OnOk result (string_bytes text.new ≡ string_bytes text.old ++ hex_text bytes.now) }
{
    if bytes.is_empty() {
        return text.push('-');
    }
    let digits = hex::encode(*text.allocator(), bytes)?;
    text.push_str(digits.as_str())
}

fn put_got(text: &mut String, got: &Got) -> Result<(), AllocError>
    ensures { OnOk result (string_bytes text.new ≡ string_bytes text.old ++ got_text got.now) }
{
    let side = side_word(got.side);
    let kind = kind_word(got.kind);
    let length = got.bytes.len();
    write!(text, "got {side} {kind} {length}")
}

fn put_sealed(text: &mut String, sealed: &Sealed) -> Result<(), AllocError>
    ensures { OnOk result (string_bytes text.new ≡ string_bytes text.old ++ sealed_text sealed.now) }
{
    let side = side_word(sealed.side);
    let kind = kind_word(sealed.kind);
    let ssrc = sealed.ssrc;
    let index = sealed.index;
    write!(text, "sealed {side} {kind} {ssrc} {index} ")?;
    put_hex(text, sealed.bytes.as_slice())
}

fn put_opened(text: &mut String, opened: &Opened) -> Result<(), AllocError>
    ensures { OnOk result (string_bytes text.new ≡ string_bytes text.old ++ opened_text opened.now) }
{
    let side = side_word(opened.side);
    let kind = kind_word(opened.kind);
    let ssrc = opened.ssrc;
    let index = opened.index;
    write!(text, "opened {side} {kind} {ssrc} {index}")
}

fn put_yielded(text: &mut String, side: Side, packet: &Packet) -> Result<(), AllocError>
    ensures { OnOk result (string_bytes text.new ≡ string_bytes text.old ++ yielded_text side packet.now) }
{
    let side = side_word(side);
    let ssrc = packet.ssrc;
    let number = packet.number;
    let pt = packet.pt;
    let marker = flag_word(packet.marker);
    let rtp_time = packet.rtp_time;
    write!(
        text,
        "yielded {side} {ssrc} {number} {pt} {marker} {rtp_time} "
    )?;
    put_hex(text, packet.payload.as_slice())
}

fn put_wrote(text: &mut String, side: Side, write: &media_model::Write) -> Result<(), AllocError>
    ensures { OnOk result (string_bytes text.new ≡ string_bytes text.old ++ wrote_text side write.now) }
{
    let side = side_word(side);
    let ssrc = write.ssrc;
    let number = write.number;
    write!(text, "wrote {side} {ssrc} {number}")
}

fn put_ticked(text: &mut String, side: Side, time: Instant) -> Result<(), AllocError>
    ensures { OnOk result (string_bytes text.new ≡ string_bytes text.old ++ ticked_text side time) }
{
    let side = side_word(side);
    let time = time.as_nanos();
    write!(text, "ticked {side} {time}")
}

fn put_called(text: &mut String, side: Side, call: Call) -> Result<(), AllocError>
    ensures { OnOk result (string_bytes text.new ≡ string_bytes text.old ++ called_text side call) }
{
    let side = side_word(side);
    let call = call_word(call);
    write!(text, "called {side} {call}")
}

pub fn put_entry(text: &mut String, entry: &Entry) -> Result<(), AllocError>
    ensures { OnOk result (string_bytes text.new ≡ string_bytes text.old ++ line_text entry.now) }
{
    match entry {
        Entry::Wrote(side, _, write) => put_wrote(text, *side, write),
        Entry::Ticked(side, time) => put_ticked(text, *side, *time),
        Entry::Called(side, _, call) => put_called(text, *side, *call),
        Entry::Got(got) => put_got(text, got),
        Entry::Sealed(sealed) => put_sealed(text, sealed),
        Entry::Opened(opened) => put_opened(text, opened),
        Entry::Yielded(side, packet) => put_yielded(text, *side, packet),
    }
}

/// The lines of entries, without a last line.
pub fn entries_text(alloc: Global, entries: &[Entry]) -> Result<String, AllocError>
    ensures { IfOk result (λ text. string_bytes text ≡ entries_text entries.now) }
{
    let mut text = String::new(alloc);
    for entry in entries {
        put_entry(&mut text, entry)?;
        text.push('\n')?;
    }
    Ok(text)
}

// Adds the last line.
pub fn put_end(text: &mut String, genuine: bool, repairs: bool) -> Result<(), AllocError>
    ensures { OnOk result (string_bytes text.new ≡ string_bytes text.old ++ end_text genuine repairs) }
{
    let genuine = answer_word(genuine);
    let repairs = answer_word(repairs);
    writeln!(text, "end genuine={genuine} repairs={repairs}")
}

/// The text of a run that was played to its end, of which the caller says whether its repairs
/// widen.
pub fn write_transcript(
    alloc: Global,
    repairs: bool,
    transcript: &Transcript,
) -> Result<String, AllocError>
    ensures { IfOk result (λ text. string_bytes text ≡ text_of repairs transcript.now) }
{
    let genuine = transcript.genuine(alloc)?;
    let mut text = entries_text(alloc, transcript.entries())?;
    put_end(&mut text, genuine, repairs)?;
    Ok(text)
}
