//! A datagram that comes to a session that mirrors a plain one.
ghost use Rattle.std.specs.Prelude.{IfOk};
ghost use Rattle.media_model.specs.declared.entry.Side.{Side};
ghost use Rattle.run_model.specs.Whole.{Config, Session as Plain};
ghost use Rattle.session_core.specs.Receiving.{Takes};
ghost use Rattle.session_core.specs.SessionRecord.{SessionRecord, StandsFor};
ghost use Rattle.session_turns.specs.Mirrors.{Mirrors};

use media_units::Instant;
use repair_core::GapWindow;
use resend_core::ResendStore;
use session_core::{Opened, RtcError, Session};
use session_turns::maps_nothing;
use srtp_core::SrtpCipher;
use stream_core::Sent;

/// Takes what came into a session. Where the session mirrors a plain one, nothing is mapped to a
/// stream: what it makes of the bytes is one of three cases, of a packet, of a repair, or of none.
pub fn take_as_plain<C: SrtpCipher, W: GapWindow, S: ResendStore<Sent>>(
    session: &mut Session<C, W, S>,
    now: Instant,
    bytes: &[u8],
) -> Result<Option<Opened>, RtcError>
    ensures { IfOk result (λ opened. (config : Config) (side : Side) (r : SessionRecord) (a : Plain)
        → StandsFor W.remembers S.stands_for session.old r → Mirrors C.meaning config side r a
        → (after : SessionRecord) × Takes C.meaning r bytes.now now after opened
        × StandsFor W.remembers S.stands_for session.new after) }
{
    maps_nothing();
    session.handle_rtp_receive(now, bytes)
}
