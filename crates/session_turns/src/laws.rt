ghost use Rattle.session_turns.specs.Laws.{MapsNothing, TicksCut, TicksTurn, OpensTurn, CallsTurn, HearsTurn, RequestsTurn, WritesTurn};
ghost use Rattle.session_turns.specs.Packets.{PacketsCut, PacketsDrain};
ghost use Rattle.session_turns.specs.Rights.{CallsAreRight, OpeningsAreRight, RtcpOpeningsAreRight, SealsAreRight};

use repair_core::rounds_name_the_due;
use rtcp_wire::{frames_read_back, items_fit_by_lengths, items_read_back};
use rtp_wire::{header_reads_own_bytes, written_header_is_read_again};
use session_core::{header_numbers_fit, tick_items_fit};

/// Of RTP that comes to a session that mirrors a plain one nothing is mapped to a stream: its media
/// sections expect no stream but those that are declared, and the SSRC of each is in a table.
pub fn maps_nothing()
    ensures { MapsNothing }
{}

/// A tick with all that leaves after it is a turn: a round asks on each stream for what is due, its
/// NACKs leave first, and then of each stream what was asked for and what waits.
pub fn ticks_turn()
    ensures { TicksTurn }
{
    packets_drain();
    rounds_name_the_due();
    items_read_back();
    items_fit_by_lengths();
}

/// A tick that an error ends: what leaves until then is what leaves of the plain session until its
/// tick is cut off; and where a key is used up, no number is left for what is due.
pub fn ticks_cut()
    ensures { TicksCut }
{
    packets_cut();
    items_read_back();
    items_fit_by_lengths();
}

/// A session on which nothing but packets waits, all of which may leave, is drained as its plain
/// streams are: each datagram is the first sending or the repair that a poll of the plain stream
/// gives, and what is left mirrors what is left of these.
fn packets_drain()
    ensures { PacketsDrain }
{
    written_header_is_read_again();
}

/// Where an error ends the drain of a session on which nothing but packets waits, the packets
/// before it are the first sendings and repairs that polls of the plain streams give.
fn packets_cut()
    ensures { PacketsCut }
{
    written_header_is_read_again();
}

/// An RTP datagram that comes is a turn: it opens on the stream of its SSRC, as a first sending or
/// as a repair, or on none.
pub fn opens_turn()
    ensures { OpensTurn }
{
    header_reads_own_bytes();
    header_numbers_fit();
    maps_nothing();
}

/// A write whose number was not used is a turn.
pub fn writes_turn()
    ensures { WritesTurn }
{}

/// An RTCP datagram that comes is a turn: what it asks for is asked for, and the round trip that it
/// tells is known.
pub fn hears_turn()
    ensures { HearsTurn }
{}

/// Feedback of the application, which leaves at once and names no missing packet, is a turn.
pub fn calls_turn()
    ensures { CallsTurn }
{
    frames_read_back();
}

/// A request to the sender of a stream, which leaves in a later tick, is a turn.
pub fn requests_turn()
    ensures { RequestsTurn }
{}

/// All that leaves at a tick, also before an error ends it, is right: RTP of the session's own
/// streams, whose plain reads with the SSRC and the low 16 bits of the number under which it is
/// sealed, and encrypted RTCP.
pub fn seals_are_right()
    ensures { SealsAreRight }
{
    tick_items_fit();
    written_header_is_read_again();
}

/// What an application's call sends is the encrypted seal of its item, under the next index.
pub fn calls_are_right()
    ensures { CallsAreRight }
{}

/// An RTP datagram that opens is the seal of the plain that is told, which reads with the SSRC that
/// is told, and with the low 16 bits of the number.
pub fn openings_are_right()
    ensures { OpeningsAreRight }
{
    header_reads_own_bytes();
    header_numbers_fit();
    maps_nothing();
}

/// An RTCP datagram that opens is the seal of the plain that is told, under the index that it
/// states.
pub fn rtcp_openings_are_right()
    ensures { RtcpOpeningsAreRight }
{}
