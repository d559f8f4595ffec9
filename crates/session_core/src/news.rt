//! What the peer asks and tells of streams, as it waits to be told to the application.
ghost use Rattle.std.specs.Prelude.{◌≡◌, ◌==◌, ◌+◌, ◌<◌, ◌∷◌, ◌++◌, ℕ, [], length, position, take, IfSome, OnOk, OnErr};
ghost use Rattle.std.specs.Option.{option_map};
ghost use Rattle.stream_core.specs.StreamsRecord.{StreamsRecord, StandsFor};
ghost use Rattle.stream_core.specs.Tables.{value_under};
ghost use Rattle.session_core.specs.News.{NewsRecord, no_news, put, with_keyframe, with_sender, with_rate, news_heard_by, news_heard, news_without, news_told, news_count, next_news, after_news};

use crate::datagram::Event;
use media_units::{Bitrate, Instant};
use repair_core::GapWindow;
use resend_core::ResendStore;
use rtcp_wire::{RtcpFb, SenderInfo};
use rtp_base::{KeyframeRequestKind, Mid, Rid, Ssrc};
use std::alloc::{AllocError, Global};
use std::collections::VecDeque;
use std::marker::Model;
use stream_core::{Sent, Streams};

/// The peer asks for a key frame of an outgoing stream (RFC 4585 section 6.3.1, RFC 5104 section
/// 4.3.1).
#[derive(Clone, Copy, Debug, PartialEq, Eq)]
pub struct KeyframeRequest {
    /// The media section of the stream.
    pub mid: Mid,
    /// Which stream of its media section it is, if that has several.
    pub rid: Option<Rid>,
    /// How it is asked for.
    pub kind: KeyframeRequestKind,
}

/// The sender of an incoming stream reported (RFC 3550 section 6.4.1).
#[derive(Clone, Copy, Debug, PartialEq, Eq)]
pub struct SenderFeedback {
    /// The media section of the stream.
    pub mid: Mid,
    /// Which stream of its media section it is, if that has several.
    pub rid: Option<Rid>,
    /// When the report came.
    pub received_at: Instant,
    /// What it says.
    pub sender_info: SenderInfo,
}

/// The peer tells the greatest rate at which an outgoing stream is to come
/// (draft-alvestrand-rmcat-remb).
#[derive(Clone, Copy, Debug, PartialEq, Eq)]
pub struct RembRequest {
    /// The media section of the stream.
    pub mid: Mid,
    /// The rate.
    pub bitrate: Bitrate,
}

/// What the peer asked and told of streams and was not told to the application: of each stream the
/// last request for a key frame, the last report of its sender and the last rate, in the order in
/// which the streams came. Contracts see the lists of them.
#[derive(Drop)]
pub struct News {
    keyframes: VecDeque<(Ssrc, KeyframeRequest)>,
    senders: VecDeque<(Ssrc, SenderFeedback)>,
    rates: VecDeque<(Ssrc, RembRequest)>,
}

impl Model for News {
    ghost use Rattle.session_core.specs.News.{NewsRecord};

    ghost Value = { NewsRecord };

    ghost view = { λ n. record { keyframes = n.keyframes.items; senders = n.senders.items; rates = n.rates.items } };
}

/// The place of what waits of an SSRC.
fn place_of<E: Copy>(waiting: &VecDeque<(Ssrc, E)>, ssrc: Ssrc) -> Option<usize>
    ensures place { result ≡ position (λ one. one.0 == ssrc) waiting.now.items }
    ensures within { IfSome result (λ i. i < length waiting.now.items) }
{
    waiting.iter().position(|one| one.0 == ssrc)
}

/// Puts what came of an SSRC in place of what waits of it, or behind the others.
fn put<E: Copy>(waiting: &mut VecDeque<(Ssrc, E)>, ssrc: Ssrc, news: E) -> Result<(), AllocError>
    ensures ok { OnOk result (waiting.new.items ≡ put ssrc news waiting.old.items) }
    ensures err { OnErr result (waiting.new.items ≡ waiting.old.items) }
{
    match place_of(waiting, ssrc) {
        Some(place) => {
            waiting[place] = (ssrc, news);
            Ok(())
        }
        None => {
            waiting.push_back((ssrc, news))?;
            Ok(())
        }
    }
}

impl News {
    /// Nothing. It grows as items come.
    pub fn new(alloc: Global) -> Self
        ensures { result ≡ no_news }
    {
        News {
            keyframes: VecDeque::new(alloc),
            senders: VecDeque::new(alloc),
            rates: VecDeque::new(alloc),
        }
    }

    /// Whether nothing waits.
    pub fn is_empty(&self) -> bool
        ensures { result ≡ (news_count self.now == 0) }
    {
        self.keyframes.is_empty() && self.senders.is_empty() && self.rates.is_empty()
    }

    /// Takes what is told next.
    pub fn next(&mut self) -> Option<Event>
        ensures event { result ≡ next_news self.old }
        ensures after { self.new ≡ after_news self.old }
    {
        if let Some((_, request)) = self.keyframes.pop_front() {
            return Some(Event::KeyframeRequest(request));
        }
        if let Some((_, report)) = self.senders.pop_front() {
            return Some(Event::SenderFeedback(report));
        }
        let (_, rate) = self.rates.pop_front()?;
        Some(Event::Remb(rate))
    }

    /// Takes out what waits of the streams of a media section. The time grows with the streams of
    /// which something waits.
    pub fn remove_section(&mut self, mid: Mid)
        ensures { self.new ≡ news_without mid self.old }
    {
        self.keyframes.retain(|one| one.1.mid != mid);
        self.senders.retain(|one| one.1.mid != mid);
        self.rates.retain(|one| one.1.mid != mid);
    }

    /// The peer asks for a key frame of the outgoing stream of an SSRC, if there is one.
    fn ask_keyframe<W: GapWindow, S: ResendStore<Sent>>(
        &mut self,
        streams: &Streams<W, S>,
        ssrc: Ssrc,
        kind: KeyframeRequestKind,
    ) -> Result<(), AllocError>
        ensures ok { OnOk result (self.new ≡ with_keyframe ssrc (value_under ssrc streams.now.tx) kind self.old) }
        ensures err { OnErr result (self.new ≡ self.old) }
    {
        let Some(place) = streams.tx_place(ssrc) else {
            return Ok(());
        };
        let stream = streams.tx(place);
        let request = KeyframeRequest {
            mid: stream.mid(),
            rid: stream.rid(),
            kind,
        };
        put(&mut self.keyframes, ssrc, request)
    }

    /// The sender of an incoming stream reported at a moment, if there is the stream.
    fn hear_report<W: GapWindow, S: ResendStore<Sent>>(
        &mut self,
        streams: &Streams<W, S>,
        info: &SenderInfo,
        now: Instant,
    ) -> Result<(), AllocError>
        ensures ok { OnOk result ((r : StreamsRecord) → StandsFor W.remembers S.stands_for streams.now r
            → self.new ≡ with_sender (value_under info.now.ssrc r.rx) info.now now self.old) }
        ensures err { OnErr result (self.new ≡ self.old) }
    {
        let Some(place) = streams.rx_place(info.ssrc) else {
            return Ok(());
        };
        let stream = streams.rx(place);
        let report = SenderFeedback {
            mid: stream.mid(),
            rid: stream.rid(),
            received_at: now,
            sender_info: *info,
        };
        put(&mut self.senders, info.ssrc, report)
    }

    /// The peer tells the greatest rate of the outgoing stream of an SSRC, if there is one.
    fn tell_rate<W: GapWindow, S: ResendStore<Sent>>(
        &mut self,
        streams: &Streams<W, S>,
        ssrc: Ssrc,
        bitrate: Bitrate,
    ) -> Result<(), AllocError>
        ensures ok { OnOk result (self.new ≡ with_rate ssrc (value_under ssrc streams.now.tx) bitrate self.old) }
        ensures err { OnErr result (self.new ≡ self.old) }
    {
        let Some(place) = streams.tx_place(ssrc) else {
            return Ok(());
        };
        let request = RembRequest {
            mid: streams.tx(place).mid(),
            bitrate,
        };
        put(&mut self.rates, ssrc, request)
    }

    /// Takes in what an item of feedback asks or tells of a stream at a moment.
    fn hear_item<W: GapWindow, S: ResendStore<Sent>>(
        &mut self,
        streams: &Streams<W, S>,
        item: &RtcpFb,
        now: Instant,
    ) -> Result<(), AllocError>
        ensures ok { OnOk result ((r : StreamsRecord) → StandsFor W.remembers S.stands_for streams.now r
            → self.new ≡ news_heard_by now r.tx r.rx item.now self.old) }
        ensures err { OnErr result (self.new ≡ self.old) }
    {
        match item {
            RtcpFb::Pli(pli) => self.ask_keyframe(streams, pli.ssrc, KeyframeRequestKind::Pli),
            RtcpFb::Fir(entry) => self.ask_keyframe(streams, entry.ssrc, KeyframeRequestKind::Fir),
            RtcpFb::SenderInfo(info) => self.hear_report(streams, info, now),
            RtcpFb::Remb(ssrc, rate) => self.tell_rate(streams, *ssrc, *rate),
            _ => Ok(()),
        }
    }

    /// Takes in what feedback asks and tells of streams at a moment, in order. Without memory some
    /// items in front are taken in. The time grows with the items, and with the streams of which
    /// something waits.
    pub fn hear<W: GapWindow, S: ResendStore<Sent>>(
        &mut self,
        streams: &Streams<W, S>,
        feedback: &[RtcpFb],
        now: Instant,
    ) -> Result<(), AllocError>
        ensures ok { OnOk result ((r : StreamsRecord) → StandsFor W.remembers S.stands_for streams.now r
            → self.new ≡ news_heard now r.tx r.rx feedback.now self.old) }
        ensures err { OnErr result ((r : StreamsRecord) → StandsFor W.remembers S.stands_for streams.now r
            → (count : ℕ) × (self.new ≡ news_heard now r.tx r.rx (take count feedback.now) self.old)) }
    {
        for item in feedback {
            self.hear_item(streams, item, now)?;
        }
        Ok(())
    }
}
