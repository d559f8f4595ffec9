// What an end of a run does at a step: its act, and what it brings.
ghost use Rattle.std.specs.Prelude.{◌≡◌, ◌≢◌, ◌∷◌, ◌++◌, ◌-◌, ◌≤◌, ℕ, slice_get, Some, None, OnOk, IfErr, MatchResult};
ghost use Rattle.rtp_wire.specs.BytesLaws.{AreWords};
ghost use Rattle.media_model.specs.declared.entry.Entry.TheVariants.{Ticked};
ghost use Rattle.media_model.specs.declared.step.Act.{Act as Deed};
ghost use Rattle.media_model.specs.declared.step.Act.TheVariants as deed;
ghost use Rattle.media_model.specs.Entries.{datagrams};
ghost use Rattle.media_model.specs.Sides.{peer_of};
ghost use Rattle.media_laws.specs.Listing.{OnlyAdds};
ghost use Rattle.media_laws.specs.Opening.{got_as};
ghost use Rattle.media_laws.specs.Play.{Brings};
ghost use Rattle.media_laws.specs.Rules.{act_fault, deliver_fault};
ghost use Rattle.media_play.specs.Acting.{Acts, RefusesAct};
ghost use Rattle.media_play.specs.Packets.{seals_from};
ghost use Rattle.media_play.specs.Requests.{act_for, requested};
ghost use Rattle.session_turns.specs.Laws.{requesting};
ghost use Rattle.stream_core.specs.Pauses.{on_view};
ghost use Rattle.stream_core.specs.Tables.{place_of, change_place};
ghost use Rattle.media_play.specs.Sessions.{received_entries};
ghost use Rattle.media_model.specs.declared.setup.Setup.{Setup as Given};

use crate::end::{End, Received, log_all};
use crate::fault::StepError;
use crate::log::Log;
use crate::request::Request;
use media_base::Bytes;
use media_laws::StepFault;
use media_model::{Act, ApplicationData, Call, Entry, Got, Kind, Opened, Sealed, Side, Write};
use media_units::Instant;
use rtcp_wire::AppSpecificFeedback;
use rtp_wire::Ssrc;
use session_core::Datagram;
use srtp_core::SrtpCipher;
use std::alloc::{AllocError, Global};

/// Has the end of a side act at a time above 0, and adds what that brings to the log.
///
/// # Errors
/// `Rule`, exactly with the first rule that the act breaks, and then nothing changes;
/// `KeyExhausted`, where it breaks none and the side was to seal a datagram behind the last number
/// of a key; `Memory`.
pub fn act<C: SrtpCipher>(
    alloc: Global,
    end: &mut End<C>,
    log: &mut Log,
    side: Side,
    time: Instant,
    act: &Act,
) -> Result<(), StepError>
    requires { time ≢ 0 }
    ensures acts { OnOk result
        (Acts C.meaning end.old end.new log.old log.new side time act.now) }
    ensures refused { IfErr result
        (RefusesAct C.meaning end.old end.new log.old log.new side time act.now) }
    ensures longer { OnlyAdds log.old log.new }
{
    match act {
        Act::Write(packet) => write(alloc, end, log, side, time, packet),
        Act::Tick => tick(alloc, end, log, side, time),
        Act::Deliver { datagram } => deliver(alloc, end, log, side, time, *datagram),
        Act::Foreign { kind, bytes } => foreign(alloc, end, log, side, time, *kind, bytes),
        Act::Feedback {
            sender,
            media,
            payload,
        } => feedback(alloc, end, log, side, time, *sender, *media, payload),
        Act::Ask { ssrc, kind } => request(end, log, side, time, *ssrc, Request::Keyframe(*kind)),
        Act::Rate { ssrc, rate } => request(end, log, side, time, *ssrc, Request::Rate(*rate)),
    }
}

/// Each of these numbers has 32 bits, as its type says.
fn are_words(words: &[u32])
    ensures { AreWords words.now }
{
    let _count = words.len();
}

fn write<C: SrtpCipher>(
    alloc: Global,
    end: &mut End<C>,
    log: &mut Log,
    side: Side,
    time: Instant,
    write: &Write,
) -> Result<(), StepError>
    ensures acts { OnOk result
        (Acts C.meaning end.old end.new log.old log.new side time (deed.Write write.now)) }
    ensures refused { IfErr result
        (RefusesAct C.meaning end.old end.new log.old log.new side time (deed.Write write.now)) }
    ensures longer { OnlyAdds log.old log.new }
{
    let _ssrc = u32::from(write.ssrc);
    let _rtp_time = write.rtp_time;
    are_words(write.csrc.as_slice());
    let place = end.check_write(write)?;
    end.put(alloc, place, time, write)?;
    log.push(Entry::Wrote(side, time, write.clone(alloc)?))?;
    Ok(())
}

fn tick<C: SrtpCipher>(
    alloc: Global,
    end: &mut End<C>,
    log: &mut Log,
    side: Side,
    time: Instant,
) -> Result<(), StepError>
    requires { time ≢ 0 }
    ensures acts { OnOk result
        (Acts C.meaning end.old end.new log.old log.new side time deed.Tick) }
    ensures refused { IfErr result
        (RefusesAct C.meaning end.old end.new log.old log.new side time deed.Tick) }
    ensures longer { OnlyAdds log.old log.new }
{
    match end.tick(alloc, side, time) {
        Ok(datagrams) => {
            log_tick(log, side, time, datagrams)?;
            Ok(())
        }
        Err(fault) => {
            log_tick(log, side, time, fault.sealed)?;
            Err(fault.cause)
        }
    }
}

/// A tick, and what it sealed.
fn log_tick(
    log: &mut Log,
    side: Side,
    time: Instant,
    datagrams: Vec<Datagram>,
) -> Result<(), AllocError>
    ensures done { OnOk result (log.new ≡ log.old ++ Ticked side time
        ∷ seals_from side datagrams.items) }
    ensures longer { OnlyAdds log.old log.new }
{
    log.push(Entry::Ticked(side, time))?;
    log_all(side, datagrams, log)
}

/// The datagram that the other side sealed as its `number`-th, counted from 1.
fn datagram_for(log: &Log, side: Side, number: u64) -> Result<&Sealed, StepFault>
    ensures { MatchResult result
        (λ sealed. (deliver_fault log.now side number ≡ None) × (1 ≤ number)
        × (slice_get (datagrams (peer_of side) log.now) (number - 1) ≡ Some sealed.now))
        (λ fault. deliver_fault log.now side number ≡ Some fault) }
{
    if number == 0 {
        return Err(StepFault::UnknownDatagram);
    }
    let Ok(place) = usize::try_from(number - 1) else {
        return Err(StepFault::UnknownDatagram);
    };
    match log.datagram(side.peer(), place) {
        Some(sealed) => Ok(sealed),
        None => Err(StepFault::UnknownDatagram),
    }
}

fn deliver<C: SrtpCipher>(
    alloc: Global,
    end: &mut End<C>,
    log: &mut Log,
    side: Side,
    time: Instant,
    datagram: u64,
) -> Result<(), StepError>
    ensures acts { OnOk result
        (Acts C.meaning end.old end.new log.old log.new side time (deed.Deliver datagram)) }
    ensures refused { IfErr result
        (RefusesAct C.meaning end.old end.new log.old log.new side time (deed.Deliver datagram)) }
    ensures longer { OnlyAdds log.old log.new }
{
    let sealed = datagram_for(log, side, datagram)?;
    let kind = sealed.kind;
    let bytes = Bytes::from_slice(alloc, sealed.bytes.as_slice())?;
    receive(alloc, end, log, side, time, kind, bytes)?;
    Ok(())
}

fn foreign<C: SrtpCipher>(
    alloc: Global,
    end: &mut End<C>,
    log: &mut Log,
    side: Side,
    time: Instant,
    kind: Kind,
    bytes: &Bytes,
) -> Result<(), StepError>
    ensures acts { OnOk result
        (Acts C.meaning end.old end.new log.old log.new side time (deed.Foreign kind bytes.now)) }
    ensures refused { IfErr result
        (RefusesAct C.meaning end.old end.new log.old log.new side time
        (deed.Foreign kind bytes.now)) }
    ensures longer { OnlyAdds log.old log.new }
{
    let bytes = Bytes::from_slice(alloc, bytes.as_slice())?;
    receive(alloc, end, log, side, time, kind, bytes)?;
    Ok(())
}

fn feedback<C: SrtpCipher>(
    alloc: Global,
    end: &mut End<C>,
    log: &mut Log,
    side: Side,
    time: Instant,
    sender: Ssrc,
    media: Ssrc,
    payload: &ApplicationData,
) -> Result<(), StepError>
    requires { time ≢ 0 }
    ensures acts { OnOk result (Acts C.meaning end.old end.new log.old log.new side time
        (deed.Feedback sender media payload.now)) }
    ensures refused { IfErr result (RefusesAct C.meaning end.old end.new log.old log.new side time
        (deed.Feedback sender media payload.now)) }
    ensures longer { OnlyAdds log.old log.new }
{
    let feedback = AppSpecificFeedback {
        sender_ssrc: sender,
        media_ssrc: media,
        payload: Bytes::from_slice(alloc, payload.as_slice())?,
    };
    log.push(Entry::Called(side, time, Call::Application))?;
    let datagram = end.send_application(side, time, feedback)?;
    log.push_sealed(Sealed {
        side,
        kind: datagram.kind,
        ssrc: datagram.ssrc,
        index: datagram.index,
        plain: datagram.plain,
        bytes: datagram.bytes,
    })?;
    Ok(())
}

/// A request of an application to the sender of the stream of this SSRC, which leaves in a later
/// tick.
fn request<C: SrtpCipher>(
    end: &mut End<C>,
    log: &mut Log,
    side: Side,
    time: Instant,
    ssrc: Ssrc,
    request: Request,
) -> Result<(), StepError>
    ensures acts { OnOk result
        (Acts C.meaning end.old end.new log.old log.new side time (act_for ssrc request)) }
    ensures refused { IfErr result
        (RefusesAct C.meaning end.old end.new log.old log.new side time (act_for ssrc request)) }
    ensures asks { OnOk result ((place : ℕ) → place_of ssrc end.old.session.rx ≡ Some place
        → end.new.session ≡ record end.old.session {
          rx = change_place (on_view (requesting (requested request))) end.old.session.rx place;
        }) }
    ensures longer { OnlyAdds log.old log.new }
{
    let place = end.check_request(ssrc)?;
    let call = request.call();
    end.request(place, request);
    log.push(Entry::Called(side, time, call))?;
    Ok(())
}

/// Takes in bytes that an act brings.
fn receive<C: SrtpCipher>(
    alloc: Global,
    end: &mut End<C>,
    log: &mut Log,
    side: Side,
    time: Instant,
    kind: Kind,
    bytes: Bytes,
) -> Result<(), AllocError>
    ensures acts { OnOk result ((deed : Deed)
        → ((setup : Given) → act_fault setup log.old side deed ≡ None)
        → Brings log.old (got_as side time kind bytes) deed
        → Acts C.meaning end.old end.new log.old log.new side time deed) }
    ensures longer { OnlyAdds log.old log.new }
{
    let received = end.receive(alloc, time, kind, bytes.as_slice())?;
    log.push(Entry::Got(Got {
        side,
        time,
        kind,
        bytes,
    }))?;
    push_received(alloc, log, side, received)?;
    Ok(())
}

fn push_received(
    alloc: Global,
    log: &mut Log,
    side: Side,
    received: Option<Received>,
) -> Result<(), AllocError>
    ensures done { OnOk result (log.new ≡ log.old ++ received_entries side received) }
    ensures longer { OnlyAdds log.old log.new }
{
    let Some(received) = received else {
        return Ok(());
    };
    let Received {
        kind,
        ssrc,
        number,
        plain,
        packet,
    } = received;
    log.push(Entry::Opened(Opened {
        side,
        kind,
        ssrc,
        index: number,
        plain: Bytes::from_slice(alloc, plain.as_slice())?,
    }))?;
    match packet {
        Some(packet) => log.push(Entry::Yielded(side, packet)),
        None => Ok(()),
    }
}
