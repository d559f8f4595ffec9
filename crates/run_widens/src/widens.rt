ghost use Rattle.std.specs.Prelude.{◌≡◌, ◌≤◌, ◌↔◌, ℕ, List, IfOk, IsTrue};
ghost use Rattle.std.specs.List.{filter_map};
ghost use Rattle.media_model.specs.Sides.{peer_of};
ghost use Rattle.run_model.specs.Runs.{Happening};
ghost use Rattle.run_model.specs.Transcripts.{outgoing_in, outgoing_of};
ghost use Rattle.run_model.specs.Widening.{RunWidens};
ghost use Rattle.run_widens.specs.Lines.{happening_in};
ghost use Rattle.run_widens.specs.Sent.{Holds};
ghost use Rattle.run_widens.specs.Widens.{AfterRepair, IsCarried, Told, taken_on};
ghost use Rattle.run_widens.specs.Widens.{LineWidens, AllWiden};

use crate::line::Line;
use crate::packet::{Packet, read};
use crate::sent::{Carried, Sent, was_sent};
use crate::taken::Taken;
use media_model::{Entry, Kind, Setup, Side, Stream};
use rtp_wire::{ExtensionMap, MAX_SOURCES, widen16};
use std::alloc::{AllocError, Global};

/// Whether the repairs of a run widen: each that was opened on a stream and restores a number
/// carries a write of the stream that the other side had sealed before under that number. An `Err`
/// says that memory ran out. The entries are gone through once for each stream of the setup, and
/// writes are looked up by hash.
pub fn repairs_widen(alloc: Global, setup: &Setup, entries: &[Entry]) -> Result<bool, AllocError>
    ensures { IfOk result (λ b. IsTrue b ↔ RunWidens setup.now entries.now) }
{
    let exts = setup.extension_map();
    if !side_widens(alloc, setup, &exts, Side::A, entries)? {
        return Ok(false);
    }
    side_widens(alloc, setup, &exts, Side::B, entries)
}

// Whether the repairs that a side opened widen.
fn side_widens(
    alloc: Global,
    setup: &Setup,
    exts: &ExtensionMap,
    side: Side,
    entries: &[Entry],
) -> Result<bool, AllocError>
    ensures { IfOk result (λ b. IsTrue b ↔ AllWiden setup.now exts.now side
        (outgoing_of (peer_of side) setup.now) entries.now) }
{
    for media in setup.media.as_slice() {
        if !streams_widen(alloc, setup, exts, side, media.streams.as_slice(), entries)? {
            return Ok(false);
        }
    }
    Ok(true)
}

// The same of some streams.
fn streams_widen(
    alloc: Global,
    setup: &Setup,
    exts: &ExtensionMap,
    side: Side,
    streams: &[Stream],
    entries: &[Entry],
) -> Result<bool, AllocError>
    ensures { IfOk result (λ b. IsTrue b ↔ AllWiden setup.now exts.now side
        (filter_map (outgoing_in setup.now (peer_of side)) streams.now) entries.now) }
{
    for stream in streams {
        if stream.side == side.peer() {
            let line = Line {
                setup,
                exts,
                side,
                ssrc: stream.ssrc,
                rtx: stream.rtx,
            };
            if !line_widens(alloc, &line, entries)? {
                return Ok(false);
            }
        }
    }
    Ok(true)
}

// Whether the repairs of a stream widen.
fn line_widens(alloc: Global, line: &Line<'_>, entries: &[Entry]) -> Result<bool, AllocError>
    ensures { IfOk result (λ b. IsTrue b ↔ LineWidens line.now entries.now) }
{
    let mut taken = Taken::nothing();
    let mut sent = Sent::new(alloc);
    for (i, entry) in entries.iter().enumerate() {
        let Some(next) = after(line, taken, &sent, entry) else {
            return Ok(false);
        };
        taken = next;
        sent.add(line, i, entry)?;
    }
    Ok(true)
}

// What is kept of the numbers taken after an entry. None where it does not widen.
fn after(line: &Line<'_>, taken: Taken, sent: &Sent<'_>, entry: &Entry) -> Option<Taken>
    ensures { (past : List Happening) (at : ℕ) → taken ≡ taken_on line.now past
        → Holds line.now sent.now at past
        → Told line.now past (happening_in line.now entry.now) result }
{
    let Entry::Opened(opened) = entry else {
        return Some(taken);
    };
    if opened.side != line.side || opened.kind != Kind::Rtp || !line.concerns(opened.ssrc) {
        return Some(taken);
    }
    let packet = read(line.exts, opened.plain.as_slice());
    let number = u64::from(opened.index);
    if !line.is_repair(opened.ssrc, packet.pt) {
        return Some(taken.first(number));
    }
    after_repair(taken.tried(opened.ssrc == line.ssrc, number), sent, &packet)
}

// The same after a repair of which the own number is taken into account.
fn after_repair(taken: Taken, sent: &Sent<'_>, packet: &Packet<'_>) -> Option<Taken>
    requires { packet.now.csrc_count ≤ MAX_SOURCES }
    ensures { AfterRepair taken sent.now packet.now result }
{
    let Some((low, payload)) = packet.original() else {
        return Some(taken);
    };
    let number = widen16(taken.greatest, low);
    let key = key_in(packet, number, payload);
    if was_sent(sent, &key) {
        Some(taken.restored(number))
    } else {
        None
    }
}

// What a repair carries, with the number that it restores and what stands behind its low 16 bits.
fn key_in<'x>(packet: &'x Packet<'x>, number: u64, payload: &'x [u8]) -> Carried<'x>
    requires { packet.now.csrc_count ≤ MAX_SOURCES }
    ensures number { result.number ≡ number }
    ensures carried { IsCarried result packet.now payload.now }
{
    Carried {
        number,
        pt: u8::from(packet.pt),
        marker: packet.marker,
        time: packet.time,
        csrc: &packet.csrc[..packet.csrc_count],
        payload,
    }
}
