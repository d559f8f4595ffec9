//! When the reports of a stream are due.
ghost use Rattle.std.specs.Prelude.{◌≡◌, nat_le, None, Some};
ghost use Rattle.report_core.specs.Due.{interval_of, receiver_due, sender_due, is_sender_due};

use media_units::{Duration, Instant, already_happened, not_happening};

/// How long after a report of a stream the next one is due. The session sets it; RFC 3550 section
/// 6.2 says how it is chosen.
#[derive(Clone, Copy, Debug, PartialEq, Eq)]
pub struct ReportIntervals {
    /// For a stream of sound.
    pub audio: Duration,
    /// For a stream of pictures.
    pub video: Duration,
}

impl ReportIntervals {
    /// The interval of a stream of sound, or of one of pictures.
    pub fn for_audio(&self, is_audio: bool) -> Duration
        ensures { result ≡ interval_of self.now is_audio }
    {
        if is_audio { self.audio } else { self.video }
    }
}

/// When the receiver reports of an incoming stream are due. A stream without an RTX SSRC counts as
/// sound, whatever its media. The first report is due an interval after the beginning. Each call
/// takes constant time.
#[derive(Clone, Copy, Debug, PartialEq, Eq)]
pub struct ReceiverClock {
    /// When the last report was made; the beginning where none was.
    pub last: Instant,
}

impl ReceiverClock {
    /// No report was made.
    pub fn new() -> Self
        ensures { result ≡ record { last = 0 } }
    {
        ReceiverClock {
            last: already_happened(),
        }
    }

    /// When the next report is due, at the latest at the last moment, 2^64 - 1 ns.
    pub fn due_at(&self, intervals: &ReportIntervals, has_rtx: bool) -> Instant
        ensures { result ≡ receiver_due intervals.now has_rtx self.now.last }
    {
        self.last.saturating_add(intervals.for_audio(!has_rtx))
    }

    /// Whether a report is due at a moment.
    pub fn is_due(&self, intervals: &ReportIntervals, has_rtx: bool, now: Instant) -> bool
        ensures { result ≡ nat_le (receiver_due intervals.now has_rtx self.now.last) now }
    {
        self.due_at(intervals, has_rtx) <= now
    }

    /// A report was made at a moment.
    pub fn report(&mut self, now: Instant)
        ensures { self.new ≡ record { last = now } }
    {
        self.last = now;
    }
}

/// When the sender reports of an outgoing stream are due: not before its kind was told, and then
/// like a receiver's, by the interval of its kind. Each call takes constant time.
#[derive(Clone, Copy, Debug, PartialEq, Eq)]
pub struct SenderClock {
    /// When the last report was made; the beginning where none was.
    pub last: Instant,
    /// Whether the stream is one of sound, None where that was not told.
    pub is_audio: Option<bool>,
}

impl SenderClock {
    /// No report was made, and nothing was told of the stream.
    pub fn new() -> Self
        ensures { result ≡ record { last = 0; is_audio = None } }
    {
        SenderClock {
            last: already_happened(),
            is_audio: None,
        }
    }

    /// Tells whether the stream is one of sound or of pictures, from now on.
    pub fn tell(&mut self, is_audio: bool)
        ensures { self.new ≡ record self.old { is_audio = Some is_audio } }
    {
        self.is_audio = Some(is_audio);
    }

    /// When the next report is due, at the latest at the last moment, 2^64 - 1 ns. Before the kind
    /// of the stream is told it is a moment that never comes.
    pub fn due_at(&self, intervals: &ReportIntervals) -> Instant
        ensures { result ≡ sender_due intervals.now self.now.last self.now.is_audio }
    {
        match self.is_audio {
            Some(is_audio) => self.last.saturating_add(intervals.for_audio(is_audio)),
            None => not_happening(),
        }
    }

    /// Whether a report is due at a moment: never before the kind of the stream is told.
    pub fn is_due(&self, intervals: &ReportIntervals, now: Instant) -> bool
        ensures { result ≡ is_sender_due intervals.now self.now.last self.now.is_audio now }
    {
        self.is_audio.is_some() && self.due_at(intervals) <= now
    }

    /// A report was made at a moment.
    pub fn report(&mut self, now: Instant)
        ensures { self.new ≡ record self.old { last = now } }
    {
        self.last = now;
    }
}
