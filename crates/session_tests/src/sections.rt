//! Calls of a session, its media sections and its streams that take no memory, each once.
use crate::calls::streams;
use crate::ends::{End, mid, ssrc};
use media_units::Duration;
use rtp_base::Mid;
use session_core::AppError;

// The mid of the data channel.
fn data() -> Mid {
    match Mid::from_slice(b"d") {
        Some(mid) => mid,
        None => unreachable!(),
    }
}

// The same again is set, another place or another mid is not.
fn sets_app(end: &mut End) -> bool {
    let answers = [
        end.set_app(data(), 1),
        end.set_app(data(), 1),
        end.set_app(data(), 2),
        end.set_app(mid(), 2),
    ];
    let wanted = [
        Ok(()),
        Ok(()),
        Err(AppError::IndexChanged),
        Err(AppError::MidChanged),
    ];
    answers == wanted && end.app() == Some((data(), 1))
}

// The one stream that is received has heard of no sender, and is taken out.
fn loses_stream_rx(end: &mut End) -> bool {
    let streams = streams(end);
    if streams.rx_len() == 0 {
        return false;
    }
    let stream = streams.rx_at(0);
    stream.set_pause_threshold(Duration::from_nanos(1));
    let unheard = stream.last_sender_report().is_none();
    unheard && streams.remove_stream_rx(ssrc(42)) && streams.rx_len() == 0
}

// A media section is found by its mid, until it is taken out.
fn loses_section(end: &mut End) -> bool {
    let found = end.media_by_mid(mid()).is_some();
    let changed = end.media_by_mid_mut(mid()).is_some();
    end.remove_media(mid());
    found && changed && end.media_by_mid(mid()).is_none()
}

/// Whether two ends with keys answer so, of which one sends and the other receives.
pub fn are_taken_out(a: &mut End, b: &mut End) -> bool {
    a.clear_feedback();
    let lost = a.is_connected() && streams(a).remove_stream_tx(ssrc(42)) && loses_stream_rx(b);
    lost && sets_app(a) && loses_section(a)
}
