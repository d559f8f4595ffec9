ghost use Rattle.std.specs.Prelude.{◌≡◌, ◌<◌, ◌≤◌, ◌%◌, ◌+◌, ◌++◌, ◌∷◌, ◌⊎◌, ℕ, List, [], None, Some, true, if◌then◌else◌, length, take, slice_get, IfOk, IfSome, IfNone, OnOk, OnErr, IsErrOf, is_some};
ghost use Rattle.std.specs.Map.{keys_of, values_of};
ghost use Rattle.std.specs.Option.{ForSome, option_map, option_copied};
ghost use Rattle.mapping_core.specs.Mapped.{mapped};
ghost use Rattle.stream_core.specs.Missing.{any_enabled};
ghost use Rattle.stream_core.specs.Pauses.{checked, on_view, on_record, first_where, view_untold, next_pause, after_pause, untold_in, first_pause, with_trip};
ghost use Rattle.stream_core.specs.RxRecord.{RxRecord, StandsFor as RxStandsFor, opened_as};
ghost use Rattle.rtx_core.specs.Resends.{recached};
ghost use Rattle.rtp_wire.specs.HeaderLaws.{IsReadAgain};
ghost use Rattle.stream_core.specs.Repairing.{RepairsRecord};
ghost use Rattle.stream_core.specs.Sealing.{after_packet};
ghost use Rattle.stream_core.specs.StreamsRecord.{StreamsRecord, StandsFor, no_streams, accepted, with_stream_rx, without_stream_rx, with_main_rx, with_repairs_rx, taken_up, with_stream_tx, is_asked, is_ready, Asked, PollsAt, StaysAt, IsUsedUpAt, all_waiting, all_asked};
ghost use Rattle.stream_core.specs.Tables.{Along, place_of, value_under, with_new, without_key, each, change_at};
ghost use Rattle.stream_core.specs.TxRecord.{TxRecord, declared, after_timeout, any_waits, IsSealable};

mod feedback;
mod in_use;
mod incoming_repairs;
mod removing;
mod resetting;
mod times;

use crate::known_streams::KnownStreams;
use crate::payload_types::PayloadTypes;
use crate::repairing::{Sent, poll_alone, poll_both};
use crate::reports::Arrival;
use crate::ssrc_table::SsrcTable;
use crate::stream_paused::StreamPaused;
use crate::stream_rx::StreamRx;
use crate::stream_tx::{PacketReceipt, StreamTx};
use crate::transport::Transport;
pub use feedback::is_among;
use mapping_core::{IncomingStream, MainChange, Mapping, RepairsChange, Rids, TypeClaim};
use media_units::{Duration, Instant, earlier};
use repair_core::GapWindow;
use resend_core::ResendStore;
use rtp_base::{MidRid, NUMBER_LIMIT, NackEntry, SeqNo, Ssrc};
use rtp_wire::RtpHeader;
use rtx_core::{ResendError, ResendQueue};
use std::alloc::{AllocError, Global};
use std::marker::Model;

/// The streams that a session sends and receives, each under its SSRC, in order of declaration.
#[derive(Drop)]
pub struct Streams<W: GapWindow, S: ResendStore<Sent>> {
    alloc: Global,
    pause_threshold: Duration,
    rx: SsrcTable<StreamRx<W>>,
    // What tells of which of them a datagram is whose SSRC is none of these.
    known: KnownStreams,
    tx: SsrcTable<StreamTx>,
    // What the streams that have repairs send again, under the SSRC of their packets.
    repairs: SsrcTable<ResendQueue<Sent, S>>,
    // Where polling stands: of no incoming stream before this place anything is to be told.
    next_untold: usize,
}

impl<W: GapWindow, S: ResendStore<Sent>> Model for Streams<W, S> {
    ghost use Rattle.stream_core.specs.StreamsRecord.{StreamsView};
    ghost use Rattle.stream_core.specs.Pauses.{IsToldTo};

    ghost Value = { StreamsView W S };

    ghost view = { λ s. record { threshold = s.pause_threshold; rx = s.rx; known = s.known; tx = s.tx; repairs = s.repairs } };

    ghost invariant = { λ s. IsToldTo s.next_untold s.rx };
}

/// A tick of each stream.
fn tick_all(streams: &mut SsrcTable<StreamTx>, now: Instant)
    ensures { streams.new ≡ each (after_timeout now) streams.old }
{
    for place in 0..streams.len() {
        streams.at_mut(place).handle_timeout(now);
    }
}

/// A tick of each incoming stream.
fn check_all<W: GapWindow>(streams: &mut SsrcTable<StreamRx<W>>, now: Instant)
    ensures { streams.new ≡ each (on_view (checked now)) streams.old }
{
    for place in 0..streams.len() {
        streams.at_mut(place).handle_timeout(now);
    }
}

/// Sets the round trip of each incoming stream.
fn set_trips<W: GapWindow>(streams: &mut SsrcTable<StreamRx<W>>, trip: &Option<Duration>)
    ensures { streams.new ≡ each (on_view (with_trip trip.now)) streams.old }
{
    for place in 0..streams.len() {
        streams.at_mut(place).set_trip(*trip);
    }
}

/// The place of the first stream of which something is to be told, where nothing is of those before
/// `from`. The time grows with the number of streams from there to it.
fn first_untold<W: GapWindow>(streams: &SsrcTable<StreamRx<W>>, from: usize) -> Option<usize>
    requires { first_where view_untold (take from streams.now) ≡ None }
    ensures place { result ≡ first_where view_untold streams.now }
    ensures within { IfSome result (λ i. i < length streams.now) }
    ensures before { IfSome result (λ i. first_where view_untold (take i streams.now) ≡ None) }
{
    for place in from..streams.len() {
        if streams.at(place).is_untold() {
            return Some(place);
        }
    }
    None
}

/// The SSRC of a stream's repairs, and where what it sends again stands, if it has repairs.
fn find_repairs<S: ResendStore<Sent>>(
    stream: &StreamTx,
    repairs: &SsrcTable<ResendQueue<Sent, S>>,
) -> Option<(Ssrc, usize)>
    ensures found { IfSome result (λ f. (stream.now.rtx ≡ Some f.0) × (place_of stream.now.ssrc repairs.now ≡ Some f.1)) }
    ensures within { IfSome result (λ f. f.1 < length repairs.now) }
    ensures none { IfNone result ((rtx i : ℕ) → stream.now.rtx ≡ Some rtx → place_of stream.now.ssrc repairs.now ≡ Some i → ⊥) }
{
    let rtx = stream.rtx()?;
    let place = repairs.place(stream.ssrc())?;
    Some((rtx, place))
}

/// Puts a value behind the others of a table, under a key that none has, and another one behind
/// those of a second table, where none has its key. Without memory nothing changes.
fn add_both<A: Drop, B: Drop>(
    one: &mut SsrcTable<A>,
    other: &mut SsrcTable<B>,
    key: Ssrc,
    value: A,
    other_key: Ssrc,
    other_value: B,
) -> Result<(), AllocError>
    requires { place_of key one.old ≡ None }
    ensures one { OnOk result (one.new ≡ one.old ++ (key, value) ∷ []) }
    ensures other { OnOk result (other.new ≡ with_new other_key other_value other.old) }
    ensures err { OnErr result ((one.new ≡ one.old) × (other.new ≡ other.old)) }
{
    let len = one.len();
    one.add(key, value)?;
    if other.place(other_key).is_some() {
        return Ok(());
    }
    match other.add(other_key, other_value) {
        Ok(()) => Ok(()),
        Err(error) => {
            one.truncate(len);
            Err(error)
        }
    }
}

impl<W: GapWindow, S: ResendStore<Sent>> Streams<W, S> {
    /// No streams. Incoming ones are paused where nothing came for `pause_threshold`.
    pub fn new(alloc: Global, pause_threshold: Duration) -> Self
        ensures { StandsFor W.remembers S.stands_for result (no_streams pause_threshold) }
    {
        Streams {
            alloc,
            pause_threshold,
            rx: SsrcTable::new(alloc),
            known: KnownStreams::new(alloc),
            tx: SsrcTable::new(alloc),
            repairs: SsrcTable::new(alloc),
            next_untold: 0,
        }
    }

    /// Has datagrams of an SSRC be those of a stream of a media section, behind the other streams.
    /// With `rtx` datagrams of that SSRC are its repairs (RFC 4588), unless they are another
    /// stream's. With `suppress_nack` it asks for nothing that is missing. A stream of that SSRC
    /// stays as it is. Without memory nothing changes. The time grows with the number of streams.
    pub fn expect_stream_rx(
        &mut self,
        ssrc: Ssrc,
        rtx: Option<Ssrc>,
        mid_rid: MidRid,
        suppress_nack: bool,
    ) -> Result<(), AllocError>
        ensures ok { OnOk result ((r : StreamsRecord) → StandsFor W.remembers S.stands_for self.old r
            → StandsFor W.remembers S.stands_for self.new (with_stream_rx ssrc rtx mid_rid.0 mid_rid.1 suppress_nack r)) }
        ensures tx { self.new.tx ≡ self.old.tx }
        ensures repairs { self.new.repairs ≡ self.old.repairs }
        ensures threshold { self.new.threshold ≡ self.old.threshold }
        ensures err { OnErr result (self.new ≡ self.old) }
        ensures cause { OnErr result (place_of ssrc self.old.rx ≡ None) }
    {
        if self.rx.place(ssrc).is_some() {
            return Ok(());
        }
        let known = IncomingStream {
            ssrc,
            rtx,
            mid: mid_rid.0,
            rid: mid_rid.1,
            previous: None,
            suppress_nack,
        };
        let threshold = self.pause_threshold;
        self.next_untold = 0;
        let len = self.rx.len();
        let names = MidRid(known.mid, known.rid);
        let stream = StreamRx::new(self.alloc, ssrc, known.rtx, names, suppress_nack, threshold);
        self.rx.add(ssrc, stream)?;
        match self.known.expect(&known) {
            Ok(()) => Ok(()),
            Err(error) => {
                self.rx.truncate(len);
                Err(error)
            }
        }
    }

    /// Takes out the stream that receives datagrams of an SSRC, with its SSRC of repairs, and tells
    /// whether there was one. The time grows with the number of streams.
    pub fn remove_stream_rx(&mut self, ssrc: Ssrc) -> bool
        ensures removed { (r : StreamsRecord) → StandsFor W.remembers S.stands_for self.old r
            → StandsFor W.remembers S.stands_for self.new (without_stream_rx ssrc r) }
        ensures found { result ≡ is_some (place_of ssrc self.old.rx) }
    {
        self.next_untold = 0;
        self.known.remove(ssrc);
        self.rx.remove(ssrc)
    }

    /// Of which stream a datagram with this header is that comes under an SSRC of no table, where
    /// the media section of its mid expects `rids`; None where no section has its mid. The time
    /// grows with the number of streams, of types and of rids.
    pub fn map(&self, rids: Option<&Rids>, types: &[TypeClaim], header: &RtpHeader) -> Mapping
        ensures { result ≡ mapped (option_copied rids.entry) types.now self.now.known.streams header.now }
    {
        self.known.map(rids, types, header)
    }

    /// The packets of a stream come under another SSRC. Where there is no such stream, or another
    /// one has that SSRC, nothing changes.
    fn change_main(&mut self, change: &MainChange) -> Result<(), AllocError>
        ensures ok { OnOk result ((r : StreamsRecord) → StandsFor W.remembers S.stands_for self.old r
            → StandsFor W.remembers S.stands_for self.new (with_main_rx change.now r)) }
        ensures tx { self.new.tx ≡ self.old.tx }
        ensures repairs { self.new.repairs ≡ self.old.repairs }
        ensures threshold { self.new.threshold ≡ self.old.threshold }
        ensures err { OnErr result (self.new ≡ self.old) }
    {
        if self.rx.place(change.to).is_some() {
            return Ok(());
        }
        let Some(place) = self.rx.place(change.from) else {
            return Ok(());
        };
        self.next_untold = 0;
        self.rx.rename(place, change.to)?;
        self.rx.at_mut(place).change_ssrc(change.to);
        self.known.change_main(change);
        Ok(())
    }

    /// The repairs of a stream come under another SSRC, or for the first time under one.
    fn change_repairs(&mut self, change: &RepairsChange) -> Result<(), AllocError>
        ensures ok { OnOk result ((r : StreamsRecord) → StandsFor W.remembers S.stands_for self.old r
            → StandsFor W.remembers S.stands_for self.new (with_repairs_rx change.now r)) }
        ensures tx { self.new.tx ≡ self.old.tx }
        ensures repairs { self.new.repairs ≡ self.old.repairs }
        ensures threshold { self.new.threshold ≡ self.old.threshold }
        ensures err { OnErr result (self.new ≡ self.old) }
    {
        self.known.change_repairs(change)?;
        self.next_untold = 0;
        let Some(place) = self.rx.place(change.main) else {
            return Ok(());
        };
        self.rx.at_mut(place).change_rtx(change.rtx);
        Ok(())
    }

    /// Takes up of which stream a datagram of an SSRC is, once it opened: a stream that it declares
    /// stands behind the others, and one whose SSRC changes stays in its place. Without memory
    /// nothing changes. The time grows with the number of streams.
    pub fn take_up(&mut self, ssrc: Ssrc, mapping: &Mapping) -> Result<(), AllocError>
        ensures ok { OnOk result ((r : StreamsRecord) → StandsFor W.remembers S.stands_for self.old r
            → StandsFor W.remembers S.stands_for self.new (taken_up ssrc mapping.now r)) }
        ensures tx { self.new.tx ≡ self.old.tx }
        ensures repairs { self.new.repairs ≡ self.old.repairs }
        ensures threshold { self.new.threshold ≡ self.old.threshold }
        ensures err { OnErr result (self.new ≡ self.old) }
    {
        match mapping {
            Mapping::Main(_) | Mapping::Nowhere(_) => Ok(()),
            Mapping::Repairs(main) => self.known.take_repairs(ssrc, *main),
            Mapping::NewStream(stream) => {
                let mid_rid = MidRid(stream.mid, stream.rid);
                self.expect_stream_rx(stream.ssrc, stream.rtx, mid_rid, stream.suppress_nack)
            }
            Mapping::NewMain(change) => self.change_main(change),
            Mapping::NewRepairs(change) => self.change_repairs(change),
        }
    }

    /// Declares a stream of a media section that sends under an SSRC, behind the other streams.
    /// With `rtx` it keeps packets to send them again, as repairs under that SSRC and numbers from
    /// that one on (RFC 4588 section 4); at 2^48 there is none. A stream of that SSRC stays as it
    /// is. Without memory nothing changes.
    pub fn declare_stream_tx(
        &mut self,
        ssrc: Ssrc,
        rtx: Option<(Ssrc, SeqNo)>,
        mid_rid: MidRid,
    ) -> Result<(), AllocError>
        requires { ForSome rtx (λ x. x.1 ≤ NUMBER_LIMIT) }
        ensures ok { OnOk result ((r : StreamsRecord) → StandsFor W.remembers S.stands_for self.old r
            → StandsFor W.remembers S.stands_for self.new (with_stream_tx ssrc rtx mid_rid.0 mid_rid.1 r)) }
        ensures tx { OnOk result (self.new.tx ≡ with_new ssrc (declared ssrc (option_map (λ x. x.0) rtx) mid_rid.0 mid_rid.1) self.old.tx) }
        ensures plain { OnOk result (rtx ≡ None → self.new.repairs ≡ self.old.repairs) }
        ensures rx { self.new.rx ≡ self.old.rx }
        ensures threshold { self.new.threshold ≡ self.old.threshold }
        ensures known { self.new.known ≡ self.old.known }
        ensures err { OnErr result (self.new ≡ self.old) }
        ensures cause { OnErr result (place_of ssrc self.old.tx ≡ None) }
    {
        if self.tx.place(ssrc).is_some() {
            return Ok(());
        }
        match rtx {
            Some(start) => {
                let repairs = ResendQueue::new(self.alloc, start.1)?;
                let stream = StreamTx::new(self.alloc, ssrc, Some(start.0), mid_rid);
                add_both(&mut self.tx, &mut self.repairs, ssrc, stream, ssrc, repairs)?;
            }
            None => {
                let stream = StreamTx::new(self.alloc, ssrc, None, mid_rid);
                self.tx.add(ssrc, stream)?;
            }
        }
        Ok(())
    }

    /// Takes out the stream that sends under an SSRC, with the packets that wait on it and those
    /// that it keeps, and tells whether there was one. The time grows with the number of streams
    /// declared after it.
    pub fn remove_stream_tx(&mut self, ssrc: Ssrc) -> bool
        ensures removed { self.new ≡ record self.old { tx = without_key ssrc self.old.tx; repairs = without_key ssrc self.old.repairs } }
        ensures found { result ≡ is_some (place_of ssrc self.old.tx) }
    {
        self.repairs.remove(ssrc);
        self.tx.remove(ssrc)
    }

    /// How many streams send.
    pub fn tx_len(&self) -> usize
        ensures { result ≡ length self.now.tx }
    {
        self.tx.len()
    }

    /// Where the stream stands that sends under an SSRC: one look-up in a hash table.
    pub fn tx_place(&self, ssrc: Ssrc) -> Option<usize>
        ensures place { result ≡ place_of ssrc self.now.tx }
        ensures within { IfSome result (λ i. i < length self.now.tx) }
    {
        self.tx.place(ssrc)
    }

    /// The stream at a place among those that send.
    pub fn tx(&self, place: usize) -> &StreamTx
        requires { place < length self.now.tx }
        ensures { slice_get (values_of self.now.tx) place ≡ Some result.now }
    {
        self.tx.at(place)
    }

    /// As `poll_packet`, but for the transport's count.
    fn poll_stream(
        &mut self,
        place: usize,
        now: Instant,
        transport: &Transport,
        types: &PayloadTypes,
    ) -> Result<Option<PacketReceipt>, ResendError>
        requires { place < length self.old.tx }
        ensures polled { IfOk result (λ o. (r : StreamsRecord) → StandsFor W.remembers S.stands_for self.old r
            → (after : StreamsRecord) × PollsAt types.now transport.now now place r after o × StandsFor W.remembers S.stands_for self.new after) }
        ensures small { IfOk result (λ o. IfSome o IsSealable) }
        ensures reads { IfOk result (λ o. IfSome o (λ p. IsReadAgain transport.now.exts p.header)) }
        ensures fewer { OnOk result (option_map (is_ready self.old.repairs) (slice_get (values_of self.old.tx) place) ≡ Some true
            → all_waiting self.new.tx + all_asked self.new.repairs < all_waiting self.old.tx + all_asked self.old.repairs) }
        ensures before { take place self.new.tx ≡ take place self.old.tx }
        ensures asked { (x : TxRecord) → is_asked self.new.repairs x ≡ true → is_asked self.old.repairs x ≡ true }
        ensures exhausted { IsErrOf result ResendError.Exhausted → (self.new ≡ self.old)
            × ((r : StreamsRecord) → StandsFor W.remembers S.stands_for self.old r → (ssrc : ℕ) × IsUsedUpAt now place ssrc r) }
        ensures failed { OnErr result ((r : StreamsRecord) → StandsFor W.remembers S.stands_for self.old r
            → (after : StreamsRecord) × StaysAt now place r after × StandsFor W.remembers S.stands_for self.new after) }
        ensures cause { OnErr result (option_map (is_ready self.old.repairs) (slice_get (values_of self.old.tx) place) ≡ Some true) }
        ensures rx { self.new.rx ≡ self.old.rx }
        ensures threshold { self.new.threshold ≡ self.old.threshold }
        ensures known { self.new.known ≡ self.old.known }
    {
        let stream = self.tx.at_mut(place);
        match find_repairs(stream, &self.repairs) {
            Some((rtx, at)) => {
                let repairs = self.repairs.at_mut(at);
                poll_both(self.alloc, stream, rtx, repairs, now, transport, types)
            }
            None => poll_alone(self.alloc, stream, now, transport),
        }
    }

    /// Whether some packet of the stream at a place is asked for.
    pub fn is_asked(&self, place: usize) -> bool
        requires { place < length self.now.tx }
        ensures { Some result ≡ option_map (is_asked self.now.repairs) (slice_get (values_of self.now.tx) place) }
    {
        match find_repairs(self.tx.at(place), &self.repairs) {
            Some((_, at)) => !self.repairs.at(at).is_empty(),
            None => false,
        }
    }

    /// Makes anew what the stream of an SSRC keeps to send again, if it has repairs: for so many
    /// packets, each for an age, none where one of the two is 0; and sets how many hundredths of
    /// what it sends may be repairs, any number where that is None. Without memory nothing changes.
    pub fn set_rtx_cache(
        &mut self,
        ssrc: Ssrc,
        max_packets: usize,
        max_age: Duration,
        cap: Option<u32>,
    ) -> Result<(), AllocError>
        ensures ok { OnOk result ((r : StreamsRecord) → StandsFor W.remembers S.stands_for self.old r
            → StandsFor W.remembers S.stands_for self.new (record r { repairs = change_at ssrc (recached max_packets max_age cap) r.repairs })) }
        ensures tx { self.new.tx ≡ self.old.tx }
        ensures rx { self.new.rx ≡ self.old.rx }
        ensures threshold { self.new.threshold ≡ self.old.threshold }
        ensures known { self.new.known ≡ self.old.known }
        ensures err { OnErr result (self.new ≡ self.old) }
        ensures cause { OnErr result (is_some (place_of ssrc self.old.repairs) ≡ true) }
    {
        match self.repairs.place(ssrc) {
            Some(at) => self
                .repairs
                .at_mut(at)
                .set_rtx_cache(max_packets, max_age, cap)?,
            None => {}
        }
        Ok(())
    }

    /// A NACK (RFC 4585 section 6.2.1) for packets of an SSRC: those that the stream keeps are
    /// asked for, in order, and sent again after the next tick. A stream without repairs hears
    /// nothing of it. Without memory nothing changes. The time grows with the numbers that are
    /// named.
    pub fn handle_nack(
        &mut self,
        ssrc: Ssrc,
        entries: &[NackEntry],
        now: Instant,
    ) -> Result<(), AllocError>
        ensures ok { OnOk result ((r : StreamsRecord) → StandsFor W.remembers S.stands_for self.old r
            → (after : List (ℕ × RepairsRecord)) × Asked now ssrc entries.now r.repairs after
            × StandsFor W.remembers S.stands_for self.new (record r { repairs = after })) }
        ensures tx { self.new.tx ≡ self.old.tx }
        ensures rx { self.new.rx ≡ self.old.rx }
        ensures threshold { self.new.threshold ≡ self.old.threshold }
        ensures known { self.new.known ≡ self.old.known }
        ensures err { OnErr result (self.new ≡ self.old) }
        ensures cause { OnErr result (is_some (place_of ssrc self.old.repairs) ≡ true) }
    {
        match self.repairs.place(ssrc) {
            Some(at) => self.repairs.at_mut(at).handle_nack(entries, now)?,
            None => {}
        }
        Ok(())
    }

    /// What the stream at a place gives to be sealed at a moment: first what is to be sent again,
    /// then the packet at the front of those that wait, if there was a tick since it was written.
    /// Its header is made for this moment. It is taken out, kept to be sent again where it may be,
    /// and the transport counts it.
    ///
    /// # Errors
    /// `Exhausted` where something is to be sent again and the 2^48 numbers of its repairs were
    /// used, and nothing changes then; `Memory`, and then nothing changes but that nothing may be
    /// asked for any more.
    pub fn poll_packet(
        &mut self,
        place: usize,
        now: Instant,
        transport: &mut Transport,
        types: &PayloadTypes,
    ) -> Result<Option<PacketReceipt>, ResendError>
        requires { place < length self.old.tx }
        ensures polled { IfOk result (λ o. (r : StreamsRecord) → StandsFor W.remembers S.stands_for self.old r
            → (after : StreamsRecord) × PollsAt types.now transport.old now place r after o × StandsFor W.remembers S.stands_for self.new after) }
        ensures counted { IfOk result (λ o. transport.new ≡ (if is_some o then after_packet transport.old else transport.old)) }
        ensures small { IfOk result (λ o. IfSome o IsSealable) }
        ensures reads { IfOk result (λ o. IfSome o (λ p. IsReadAgain transport.old.exts p.header)) }
        ensures fewer { OnOk result (option_map (is_ready self.old.repairs) (slice_get (values_of self.old.tx) place) ≡ Some true
            → all_waiting self.new.tx + all_asked self.new.repairs < all_waiting self.old.tx + all_asked self.old.repairs) }
        ensures before { take place self.new.tx ≡ take place self.old.tx }
        ensures asked { (x : TxRecord) → is_asked self.new.repairs x ≡ true → is_asked self.old.repairs x ≡ true }
        ensures exhausted { IsErrOf result ResendError.Exhausted → (self.new ≡ self.old)
            × ((r : StreamsRecord) → StandsFor W.remembers S.stands_for self.old r → (ssrc : ℕ) × IsUsedUpAt now place ssrc r) }
        ensures failed { OnErr result ((r : StreamsRecord) → StandsFor W.remembers S.stands_for self.old r
            → (after : StreamsRecord) × StaysAt now place r after × StandsFor W.remembers S.stands_for self.new after) }
        ensures uncounted { OnErr result (transport.new ≡ transport.old) }
        ensures cause { OnErr result (option_map (is_ready self.old.repairs) (slice_get (values_of self.old.tx) place) ≡ Some true) }
        ensures rx { self.new.rx ≡ self.old.rx }
        ensures threshold { self.new.threshold ≡ self.old.threshold }
        ensures known { self.new.known ≡ self.old.known }
    {
        let polled = self.poll_stream(place, now, transport, types)?;
        if polled.is_some() {
            transport.count();
        }
        Ok(polled)
    }

    /// How many streams receive.
    pub fn rx_len(&self) -> usize
        ensures { result ≡ length self.now.rx }
    {
        self.rx.len()
    }

    /// The stream at a place among those that receive.
    pub fn rx(&self, place: usize) -> &StreamRx<W>
        requires { place < length self.now.rx }
        ensures { slice_get (values_of self.now.rx) place ≡ Some result.now }
    {
        self.rx.at(place)
    }

    /// Where the stream stands that receives datagrams of an SSRC: one look-up in a hash table.
    pub fn rx_place(&self, ssrc: Ssrc) -> Option<usize>
        ensures place { result ≡ place_of ssrc self.now.rx }
        ensures stands { (r : StreamsRecord) → StandsFor W.remembers S.stands_for self.now r → result ≡ place_of ssrc r.rx }
        ensures within { IfSome result (λ i. i < length self.now.rx) }
    {
        self.rx.place(ssrc)
    }

    /// The SSRC of the stream whose repairs come under an SSRC: one look-up in a hash table.
    pub fn original(&self, ssrc: Ssrc) -> Option<Ssrc>
        ensures { result ≡ value_under ssrc self.now.known.originals }
    {
        self.known.original(ssrc)
    }

    /// A tick of each stream: those are paused on which nothing came for their threshold.
    pub fn handle_timeout(&mut self, now: Instant)
        ensures streams { (r : StreamsRecord) → StandsFor W.remembers S.stands_for self.old r → StandsFor W.remembers S.stands_for self.new
            (record r { rx = each (on_record (checked now)) r.rx; tx = each (after_timeout now) r.tx }) }
        ensures tx { self.new.tx ≡ each (after_timeout now) self.old.tx }
        ensures repairs { self.new.repairs ≡ self.old.repairs }
        ensures rx { self.new.rx ≡ each (on_view (checked now)) self.old.rx }
        ensures threshold { self.new.threshold ≡ self.old.threshold }
        ensures known { self.new.known ≡ self.old.known }
    {
        self.next_untold = 0;
        check_all(&mut self.rx, now);
        tick_all(&mut self.tx, now);
    }

    /// Whether some stream asks for what is missing. The time grows with the number of streams.
    pub fn any_nack_enabled(&self) -> bool
        ensures { (r : StreamsRecord) → StandsFor W.remembers S.stands_for self.now r → result ≡ any_enabled r.rx }
    {
        for place in 0..self.rx.len() {
            if self.rx.at(place).nack_enabled() {
                return true;
            }
        }
        false
    }

    /// Sets the round trip of each stream. The time grows with the number of streams.
    pub fn set_trip(&mut self, trip: Option<Duration>)
        ensures streams { (r : StreamsRecord) → StandsFor W.remembers S.stands_for self.old r → StandsFor W.remembers S.stands_for self.new
            (record r { rx = each (on_record (with_trip trip)) r.rx }) }
        ensures tx { self.new.tx ≡ self.old.tx }
        ensures repairs { self.new.repairs ≡ self.old.repairs }
        ensures threshold { self.new.threshold ≡ self.old.threshold }
        ensures known { self.new.known ≡ self.old.known }
    {
        self.next_untold = 0;
        set_trips(&mut self.rx, &trip);
    }

    /// Tells of the first stream, in order, that was paused or unpaused since that was told. A call
    /// looks at the streams behind those of which the last call found nothing to tell.
    pub fn poll_stream_paused(&mut self) -> Option<StreamPaused>
        ensures event { (r : StreamsRecord) → StandsFor W.remembers S.stands_for self.old r → result ≡ next_pause r.rx }
        ensures after { (r : StreamsRecord) → StandsFor W.remembers S.stands_for self.old r
            → StandsFor W.remembers S.stands_for self.new (record r { rx = after_pause r.rx }) }
        ensures tx { self.new.tx ≡ self.old.tx }
        ensures repairs { self.new.repairs ≡ self.old.repairs }
        ensures threshold { self.new.threshold ≡ self.old.threshold }
        ensures known { self.new.known ≡ self.old.known }
        ensures fewer { IfSome result (λ p. untold_in self.new.rx < untold_in self.old.rx) }
        ensures none { IfNone result (self.new ≡ self.old) }
    {
        let Some(place) = first_untold(&self.rx, self.next_untold) else {
            self.next_untold = self.rx.len();
            return None;
        };
        self.next_untold = place;
        self.rx.at_mut(place).poll_paused()
    }

    /// Whether some packet was written since the last tick. The time grows with the number of
    /// streams.
    pub fn needs_timeout(&self) -> bool
        ensures { result ≡ any_waits self.now.tx }
    {
        for place in 0..self.tx.len() {
            if self.tx.at(place).need_timeout() {
                return true;
            }
        }
        false
    }

    /// The first moment at which some stream is paused unless something comes, None where all are.
    /// The time grows with the number of streams.
    pub fn paused_at(&self) -> Option<Instant>
        ensures { (r : StreamsRecord) → StandsFor W.remembers S.stands_for self.now r → result ≡ first_pause r.rx }
    {
        let mut first = None;
        for place in 0..self.rx.len() {
            first = earlier(first, self.rx.at(place).paused_at());
        }
        first
    }

    /// Where the stream of an SSRC stands, and the number under which a datagram with these low 16
    /// bits may open, where a greatest number may be remembered of the SSRC.
    pub fn accepts(&self, ssrc: Ssrc, low: u16, remembered: Option<SeqNo>) -> Option<(usize, SeqNo)>
        requires { ForSome remembered (λ n. n < NUMBER_LIMIT) }
        ensures number { (r : StreamsRecord) → StandsFor W.remembers S.stands_for self.now r → option_map (λ f. f.1) result ≡ accepted remembered r.rx ssrc low }
        ensures place { IfSome result (λ f. place_of ssrc self.now.rx ≡ Some f.0) }
        ensures within { IfSome result (λ f. f.0 < length self.now.rx) }
        ensures small { IfSome result (λ f. f.1 < NUMBER_LIMIT) }
        ensures low { IfSome result (λ f. f.1 % 65536 ≡ low) }
    {
        let Some(place) = self.rx.place(ssrc) else {
            return None;
        };
        match self.rx.at(place).accepts(low, remembered) {
            Some(number) => Some((place, number)),
            None => None,
        }
    }

    /// Has the stream at a place take a number under which a datagram opened. Without memory
    /// nothing changes.
    #[tactic(auto, using(crate::proofs::Alongside::set_same))]
    pub fn take_at(
        &mut self,
        place: usize,
        arrival: &Arrival,
        number: SeqNo,
        remembered: Option<SeqNo>,
    ) -> Result<(), AllocError>
        requires place { place < length self.old.rx }
        requires number { number < NUMBER_LIMIT }
        requires remembered { ForSome remembered (λ n. n < NUMBER_LIMIT) }
        ensures ok { OnOk result ((r : StreamsRecord) (ssrc : ℕ) → StandsFor W.remembers S.stands_for self.old r → place_of ssrc self.old.rx ≡ Some place
            → StandsFor W.remembers S.stands_for self.new (record r { rx = change_at ssrc (opened_as remembered arrival.entry.now number) r.rx })) }
        ensures tx { self.new.tx ≡ self.old.tx }
        ensures repairs { self.new.repairs ≡ self.old.repairs }
        ensures threshold { self.new.threshold ≡ self.old.threshold }
        ensures known { self.new.known ≡ self.old.known }
        ensures err { OnErr result (self.new ≡ self.old) }
    {
        self.rx.at_mut(place).take(arrival, number, remembered)?;
        if self.rx.at(place).is_untold() {
            self.next_untold = self.next_untold.min(place);
        }
        Ok(())
    }
}

impl<W: GapWindow, S: ResendStore<Sent>> Streams<W, S> {
    ghost use Rattle.std.specs.Borrow.{sem};
    ghost use Rattle.stream_core.specs.LendingStreams.{LendsTx, LendsRx};

    /// The stream at a place among those that send, to be changed there.
    pub fn tx_at(&mut self, place: usize) -> &mut StreamTx
        requires { place < length self.old.tx }
        ensures* writes_back { sem 𝓛 (LendsTx W.row S.row W.GapWindow S.ResendStore self.entry place result) }
        ensures value { slice_get (values_of self.old.tx) place ≡ Some result.now }
    {
        self.tx.at_mut(place)
    }

    /// The stream at a place among those that receive, to be changed there.
    pub fn rx_at(&mut self, place: usize) -> &mut StreamRx<W>
        requires { place < length self.old.rx }
        ensures* writes_back { sem 𝓛 (LendsRx W.row S.row W.GapWindow S.ResendStore self.entry place result) }
        ensures value { slice_get (values_of self.old.rx) place ≡ Some result.now }
    {
        self.next_untold = 0;
        self.rx.at_mut(place)
    }
}
