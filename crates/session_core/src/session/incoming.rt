//! What comes to a session: the datagrams of RTP and of RTCP.
ghost use Rattle.std.specs.Prelude.{◌≡◌, ◌==◌, ◌<◌, ◌↔◌, ◌||◌, ℕ, List, Some, None, true, false, length, drop, is_none, is_some, IfSome, OnOk, is_err, IsTrue, IfOk, IfErr, IfNone, OnErr, IsErrOf};
ghost use Rattle.rtp_wire.specs.Header.{header_of};
ghost use Rattle.session_core.specs.Hearing.{ReceivesRtcp, HearsFront, AsksFront, MomentsFront, NewsFront};
ghost use Rattle.std.specs.Map.{keys_of};
ghost use Rattle.std.specs.Option.{ForSome};
ghost use Rattle.stream_core.specs.Seen.{seen_of};
ghost use Rattle.stream_core.specs.Repairing.{RepairsRecord, RepairsStandFor};
ghost use Rattle.stream_core.specs.Tables.{Along, place_of};
ghost use Rattle.session_core.specs.Mapping.{is_standing, mapped_in, is_nowhere};
ghost use Rattle.session_core.specs.Receiving.{Takes, Receives, is_claimed, cut, after_opened, after_repair, after_original, after_restoring, after_repaired};
ghost use Rattle.session_core.specs.Repairs.{repaired_by};
ghost use Rattle.rtp_wire.specs.Repairs.{original_number};
ghost use Rattle.session_core.specs.Draining.{stopped_from};
ghost use Rattle.session_core.specs.SessionRecord.{SessionRecord, StandsFor};
ghost use Rattle.session_core.specs.declared.error.RtcError.TheVariants.{Stopped, Memory};

use super::Session;
use crate::datagram::Opened;
use crate::error::RtcError;
use crate::feedback::sender;
use crate::hearing::{
    RtcpOpening, ask_all, feedback_in, hear, last_delay, measure, open_rtcp, tell_all,
};
use crate::mapping::{first_opening, is_nowhere, is_standing, rids_for, unseen_number};
use crate::receiving::{Opening, accepts, arrival, is_claimed, open, put_packet, take, taken_time};
use crate::reporting::take_moments;
use crate::restoring::{accepts_repair, put_restored, repaired_by, restored_arrival};
use mapping_core::{Mapping, is_early_padding};
use media_units::{Instant, InstantExt};
use repair_core::GapWindow;
use resend_core::ResendStore;
use rtp_base::{Kind, NUMBER_LIMIT, SeqNo, Ssrc};
use rtp_wire::{ORIGINAL_NUMBER_LEN, RtpHeader};
use srtp_core::SrtpCipher;
use srtp_core::laws::rtp_opens_once;
use std::alloc::AllocError;
use stream_core::{Payload, Sent};

impl<C: SrtpCipher, W: GapWindow, S: ResendStore<Sent>> Session<C, W, S> {
    /// Takes in an RTP datagram that came, and tells what it opened to; its packet is told by
    /// `poll_event`, but for SSRC 0. A repair (RFC 4588), which comes under the SSRC of a stream's
    /// repairs, or under the stream's own with a type of repairs, tells the packet that it
    /// restores, where that did not come before. An SSRC that no incoming stream has, for its
    /// packets or its repairs, maps to a stream by what the header carries (RFC 8843 section 9.2,
    /// RFC 8852, RFC 4588 section 8), which is taken up once the datagram opened: a stream is
    /// declared, or has another SSRC from then on. One that stays unknown opens as padding of a
    /// stream to come, where nothing else is in it. None where it does not open, and then nothing
    /// changes: where it has no header, or more than 2,000 bytes; where its SSRC is no incoming
    /// stream's or its repairs', nor 0, and maps to none, or its payload type is not known; where
    /// its number was taken, or is too old; where its tag does not hold, there are no keys, or it
    /// does not end in the padding that its header tells of. The time of a datagram whose SSRC is
    /// unknown grows with the number of media sections, of their rids, of types and of streams.
    ///
    /// # Errors
    /// `Stopped` where an earlier call stopped the session; `Memory`.
    pub fn handle_rtp_receive(
        &mut self,
        now: Instant,
        bytes: &[u8],
    ) -> Result<Option<Opened>, RtcError>
        ensures stopped { IsErrOf result Stopped ↔ IsTrue self.old.state.stopped }
        ensures received { IfOk result (λ opened. (r : SessionRecord) → StandsFor W.remembers S.stands_for self.old r
            → (after : SessionRecord) × Receives C.meaning r bytes.now now after opened × StandsFor W.remembers S.stands_for self.new after) }
        ensures unopened { IfOk result (λ opened. IfNone opened (self.new ≡ self.old)) }
        ensures latch { self.new.state.stopped ≡ self.old.state.stopped || is_err result }
        ensures unchanged { IsErrOf result Stopped → self.new ≡ self.old }
        ensures memory { self.old.state.stopped ≡ false → IfErr result (λ e. e ≡ Memory) }
        ensures failed { IsErrOf result Memory → self.new ≡ record self.old { state = stopped_from self.old.state; rx = self.new.rx; known = self.new.known; probes = self.new.probes; seen = self.new.seen } }
        ensures stands { IsErrOf result Memory → (r : SessionRecord) → StandsFor W.remembers S.stands_for self.old r
            → (after : SessionRecord) × StandsFor W.remembers S.stands_for self.new after }
    {
        if self.stopped {
            return Err(RtcError::Stopped);
        }
        match self.receive(now, bytes) {
            Ok(opened) => Ok(opened),
            Err(_) => {
                self.stopped = true;
                Err(RtcError::Memory)
            }
        }
    }

    fn receive(&mut self, now: Instant, bytes: &[u8]) -> Result<Option<Opened>, AllocError>
        ensures received { IfOk result (λ opened. (r : SessionRecord) → StandsFor W.remembers S.stands_for self.old r
            → (after : SessionRecord) × Receives C.meaning r bytes.now now after opened × StandsFor W.remembers S.stands_for self.new after) }
        ensures unopened { IfOk result (λ opened. IfNone opened (self.new ≡ self.old)) }
        ensures runs { self.new.state.stopped ≡ self.old.state.stopped }
        ensures err { OnErr result (self.new ≡ record self.old { rx = self.new.rx; known = self.new.known; probes = self.new.probes; seen = self.new.seen }) }
        ensures stands { OnErr result ((r : SessionRecord) → StandsFor W.remembers S.stands_for self.old r
            → (after : SessionRecord) × StandsFor W.remembers S.stands_for self.new after) }
    {
        let read = RtpHeader::parse(bytes, &self.transport.exts);
        let Some(header) = &read else {
            return Ok(None);
        };
        if is_standing(header.ssrc, &self.streams) {
            return self.receive_standing(now, bytes, header);
        }
        let mapping = self.map(header);
        if is_nowhere(&mapping) {
            return self.receive_padding(bytes, header);
        }
        self.receive_mapped(now, bytes, header, &mapping)
    }

    /// Of which stream a datagram with this header is that comes under an SSRC of no table.
    fn map(&self, header: &RtpHeader) -> Mapping
        ensures { (r : SessionRecord) → StandsFor W.remembers S.stands_for self.now r → result ≡ mapped_in header.now r }
    {
        let rids = rids_for(self.medias.as_slice(), header);
        self.streams.map(rids, self.types.claims(), header)
    }

    /// Takes in a datagram that begins with this header, of an SSRC that maps to a stream: where it
    /// opens as one of that stream, that is taken up.
    fn receive_mapped(
        &mut self,
        now: Instant,
        bytes: &[u8],
        header: &RtpHeader,
        mapping: &Mapping,
    ) -> Result<Option<Opened>, AllocError>
        ensures received { IfOk result (λ opened. (r : SessionRecord) → StandsFor W.remembers S.stands_for self.old r
            → header_of r.state.transport.exts bytes.now ≡ Some header.now → is_standing header.now.ssrc r.rx r.known.originals ≡ false
            → mapping.now ≡ mapped_in header.now r → is_nowhere mapping.now ≡ false
            → (after : SessionRecord) × Receives C.meaning r bytes.now now after opened × StandsFor W.remembers S.stands_for self.new after) }
        ensures unopened { IfOk result (λ opened. IfNone opened (self.new ≡ self.old)) }
        ensures runs { self.new.state.stopped ≡ self.old.state.stopped }
        ensures err { OnErr result (self.new ≡ record self.old { rx = self.new.rx; known = self.new.known; probes = self.new.probes; seen = self.new.seen }) }
        ensures stands { OnErr result ((r : SessionRecord) → StandsFor W.remembers S.stands_for self.old r
            → is_standing header.now.ssrc r.rx r.known.originals ≡ false → mapping.now ≡ mapped_in header.now r
            → (after : SessionRecord) × StandsFor W.remembers S.stands_for self.new after) }
    {
        let Some(found) = first_opening(&self.types, &self.streams, &self.seen, header, mapping)
        else {
            return Ok(None);
        };
        let number = found.0;
        let Some(opening) = open(
            self.alloc,
            &mut self.opening,
            bytes,
            header,
            number,
            found.1,
        )?
        else {
            return Ok(None);
        };
        self.streams.take_up(header.ssrc, mapping)?;
        let Opening {
            plain,
            original: low,
            payload,
        } = opening;
        self.take_in(now, header, number, low, payload)?;
        Ok(Some(Opened {
            kind: Kind::Rtp,
            ssrc: header.ssrc,
            index: number,
            plain,
        }))
    }

    /// A datagram opened under a number, as a packet of the stream of its SSRC or as a repair.
    fn take_in(
        &mut self,
        now: Instant,
        header: &RtpHeader,
        number: SeqNo,
        low: Option<u16>,
        payload: Payload,
    ) -> Result<(), AllocError>
        requires { number < NUMBER_LIMIT }
        ensures packet { OnOk result ((r : SessionRecord) (p : List ℕ) → StandsFor W.remembers S.stands_for self.old r
            → repaired_by r.state.types r.rx r.known.originals header.now ≡ None → (header.now.ssrc == 0) ≡ false → is_some (place_of header.now.ssrc r.rx) ≡ true
            → payload ≡ cut header.now p → StandsFor W.remembers S.stands_for self.new (after_opened now header.now number p r)) }
        ensures repair { OnOk result ((r : SessionRecord) (p : List ℕ) (original : ℕ) → StandsFor W.remembers S.stands_for self.old r
            → repaired_by r.state.types r.rx r.known.originals header.now ≡ Some original → low ≡ original_number (cut header.now p) → payload ≡ drop ORIGINAL_NUMBER_LEN (cut header.now p)
            → StandsFor W.remembers S.stands_for self.new (after_repaired now header.now original number p r)) }
        ensures runs { self.new.state.stopped ≡ self.old.state.stopped }
        ensures err { OnErr result (self.new ≡ record self.old { rx = self.new.rx; probes = self.new.probes; seen = self.new.seen }) }
        ensures stands { OnErr result ((r : SessionRecord) → StandsFor W.remembers S.stands_for self.old r → (header.now.ssrc == 0) ≡ false
            → (repaired_by r.state.types r.rx r.known.originals header.now ≡ None → is_some (place_of header.now.ssrc r.rx) ≡ true)
            → (after : SessionRecord) × StandsFor W.remembers S.stands_for self.new after) }
    {
        match repaired_by(&self.types, &self.streams, header) {
            Some(found) => {
                self.take_repair(now, header, found.1, number)?;
                self.restore_packet(now, header, found.0, found.1, low, payload)
            }
            None => {
                let place = self.streams.rx_place(header.ssrc);
                let remembered = self.seen.get(header.ssrc);
                self.take_packet(now, header, place, number, &remembered, payload)
            }
        }
    }

    /// Takes in a datagram that begins with this header, of an SSRC that stays unknown: it opens as
    /// padding of a stream that is not known yet, or not at all.
    fn receive_padding(
        &mut self,
        bytes: &[u8],
        header: &RtpHeader,
    ) -> Result<Option<Opened>, AllocError>
        ensures received { IfOk result (λ opened. (r : SessionRecord) (now : ℕ) → StandsFor W.remembers S.stands_for self.old r
            → header_of r.state.transport.exts bytes.now ≡ Some header.now → is_standing header.now.ssrc r.rx r.known.originals ≡ false
            → is_nowhere (mapped_in header.now r) ≡ true
            → (after : SessionRecord) × Receives C.meaning r bytes.now now after opened × StandsFor W.remembers S.stands_for self.new after) }
        ensures unopened { IfOk result (λ opened. IfNone opened (self.new ≡ self.old)) }
        ensures runs { self.new.state.stopped ≡ self.old.state.stopped }
        ensures err { OnErr result (self.new ≡ self.old) }
    {
        rtp_opens_once::<C>();
        let rids = rids_for(self.medias.as_slice(), header);
        if !is_early_padding(rids, self.types.claims(), header) {
            return Ok(None);
        }
        let Some(number) = unseen_number(header, &self.seen) else {
            return Ok(None);
        };
        let repair = false;
        let Some(opening) = open(self.alloc, &mut self.opening, bytes, header, number, repair)?
        else {
            return Ok(None);
        };
        let Opening { plain, payload, .. } = opening;
        if !payload.is_empty() {
            return Ok(None);
        }
        self.seen.put(header.ssrc, number)?;
        Ok(Some(Opened {
            kind: Kind::Rtp,
            ssrc: header.ssrc,
            index: number,
            plain,
        }))
    }

    /// Takes in a datagram that begins with this header, of an SSRC that some table has.
    fn receive_standing(
        &mut self,
        now: Instant,
        bytes: &[u8],
        header: &RtpHeader,
    ) -> Result<Option<Opened>, AllocError>
        ensures received { IfOk result (λ opened. (r : SessionRecord) → StandsFor W.remembers S.stands_for self.old r
            → header_of r.state.transport.exts bytes.now ≡ Some header.now
            → (after : SessionRecord) × Takes C.meaning r bytes.now now after opened × StandsFor W.remembers S.stands_for self.new after) }
        ensures unopened { IfOk result (λ opened. IfNone opened (self.new ≡ self.old)) }
        ensures runs { self.new.state.stopped ≡ self.old.state.stopped }
        ensures err { OnErr result (self.new ≡ record self.old { rx = self.new.rx; probes = self.new.probes; seen = self.new.seen }) }
        ensures stands { OnErr result ((r : SessionRecord) → StandsFor W.remembers S.stands_for self.old r
            → (after : SessionRecord) × StandsFor W.remembers S.stands_for self.new after) }
    {
        if let Some(found) = repaired_by(&self.types, &self.streams, header) {
            return self.receive_repair(now, bytes, header, found.0, found.1);
        }
        if !is_claimed(&self.types, header) {
            return Ok(None);
        }
        self.receive_under(now, bytes, header)
    }

    /// A packet that opened under a number comes on the stream at a place, or with none on that of
    /// SSRC 0.
    fn take_packet(
        &mut self,
        now: Instant,
        header: &RtpHeader,
        place: Option<usize>,
        number: SeqNo,
        remembered: &Option<SeqNo>,
        payload: Payload,
    ) -> Result<(), AllocError>
        requires place { IfSome place (λ i. i < length self.old.rx) }
        requires number { number < NUMBER_LIMIT }
        requires remembered { ForSome remembered.now (λ n. n < NUMBER_LIMIT) }
        ensures ok { OnOk result ((r : SessionRecord) (p : List ℕ) → StandsFor W.remembers S.stands_for self.old r → remembered.now ≡ seen_of header.now.ssrc r.seen
            → is_none place ≡ (header.now.ssrc == 0) → IfSome place (λ i. place_of header.now.ssrc self.old.rx ≡ Some i) → payload ≡ cut header.now p
            → StandsFor W.remembers S.stands_for self.new (after_opened now header.now number p r)) }
        ensures runs { self.new.state.stopped ≡ self.old.state.stopped }
        ensures err { OnErr result (self.new ≡ record self.old { rx = self.new.rx; probes = self.new.probes; seen = self.new.seen }) }
        ensures stands { OnErr result ((r : SessionRecord) → StandsFor W.remembers S.stands_for self.old r → is_none place ≡ (header.now.ssrc == 0)
            → IfSome place (λ i. place_of header.now.ssrc self.old.rx ≡ Some i)
            → (after : SessionRecord) × StandsFor W.remembers S.stands_for self.new after) }
    {
        let came = arrival(&self.types, now, header, payload.len());
        let time = taken_time(place, &came, &self.streams);
        take(
            place,
            &came,
            number,
            remembered,
            &mut self.streams,
            &mut self.probes,
        )?;
        self.seen.put(header.ssrc, number)?;
        put_packet(time, now, header, number, payload, &mut self.packet);
        Ok(())
    }

    /// A repair of the stream at a place opened under its own number.
    fn take_repair(
        &mut self,
        now: Instant,
        header: &RtpHeader,
        place: usize,
        number: SeqNo,
    ) -> Result<(), AllocError>
        requires place { place < length self.old.rx }
        requires number { number < NUMBER_LIMIT }
        ensures ok { OnOk result ((r : SessionRecord) (original : ℕ) → StandsFor W.remembers S.stands_for self.old r → place_of original self.old.rx ≡ Some place
            → StandsFor W.remembers S.stands_for self.new (after_repair now header.now original number r)) }
        ensures places { OnOk result (keys_of self.new.rx ≡ keys_of self.old.rx) }
        ensures runs { self.new.state.stopped ≡ self.old.state.stopped }
        ensures others { self.new ≡ record self.old { rx = self.new.rx; probes = self.new.probes; seen = self.new.seen } }
        ensures err { OnErr result (self.new ≡ self.old) }
    {
        let under = header.ssrc;
        let greatest = self.seen.get(under);
        self.seen.put(under, number)?;
        self.streams.take_repair_at(place, now, number, greatest);
        Ok(())
    }

    /// A repair of the stream at a place restores the packet whose number has these low 16 bits,
    /// with what it carries.
    fn restore(
        &mut self,
        now: Instant,
        header: &RtpHeader,
        original: Ssrc,
        place: usize,
        low: u16,
        payload: Payload,
    ) -> Result<(), AllocError>
        requires { place < length self.old.rx }
        ensures ok { OnOk result ((r : SessionRecord) → StandsFor W.remembers S.stands_for self.old r → place_of original self.old.rx ≡ Some place
            → StandsFor W.remembers S.stands_for self.new (after_original now header.now original low payload r)) }
        ensures runs { self.new.state.stopped ≡ self.old.state.stopped }
        ensures err { OnErr result (self.new ≡ record self.old { rx = self.new.rx; probes = self.new.probes; seen = self.new.seen }) }
        ensures stands { OnErr result ((r : SessionRecord) → StandsFor W.remembers S.stands_for self.old r → place_of original self.old.rx ≡ Some place
            → (after : SessionRecord) × StandsFor W.remembers S.stands_for self.new after) }
    {
        let greatest = self.seen.get(original);
        let number = self.streams.restored_number_at(place, low, &greatest);
        let came = restored_arrival(&self.types, now, header, payload.len());
        let time = self.streams.restored_time_at(place, &came);
        let fresh = self.streams.restore_at(place, low, &came, greatest)?;
        self.seen.put(original, number)?;
        put_restored(
            time,
            now,
            &self.types,
            header,
            original,
            fresh,
            payload,
            &mut self.packet,
        );
        Ok(())
    }

    /// A repair of the stream at a place restores a packet with what it carries, where the low 16
    /// bits of the packet's number stand in front of that.
    fn restore_packet(
        &mut self,
        now: Instant,
        header: &RtpHeader,
        original: Ssrc,
        place: usize,
        low: Option<u16>,
        payload: Payload,
    ) -> Result<(), AllocError>
        requires { place < length self.old.rx }
        ensures ok { OnOk result ((r : SessionRecord) → StandsFor W.remembers S.stands_for self.old r → place_of original self.old.rx ≡ Some place
            → StandsFor W.remembers S.stands_for self.new (after_restoring now header.now original low payload r)) }
        ensures runs { self.new.state.stopped ≡ self.old.state.stopped }
        ensures err { OnErr result (self.new ≡ record self.old { rx = self.new.rx; probes = self.new.probes; seen = self.new.seen }) }
        ensures stands { OnErr result ((r : SessionRecord) → StandsFor W.remembers S.stands_for self.old r → place_of original self.old.rx ≡ Some place
            → (after : SessionRecord) × StandsFor W.remembers S.stands_for self.new after) }
    {
        let Some(low) = low else {
            return Ok(());
        };
        self.restore(now, header, original, place, low, payload)
    }

    /// Takes in a datagram that begins with this header, and is a repair of the stream at a place.
    fn receive_repair(
        &mut self,
        now: Instant,
        bytes: &[u8],
        header: &RtpHeader,
        original: Ssrc,
        place: usize,
    ) -> Result<Option<Opened>, AllocError>
        requires { place < length self.old.rx }
        ensures received { IfOk result (λ opened. (r : SessionRecord) → StandsFor W.remembers S.stands_for self.old r
            → header_of r.state.transport.exts bytes.now ≡ Some header.now → repaired_by r.state.types r.rx r.known.originals header.now ≡ Some original
            → place_of original self.old.rx ≡ Some place
            → (after : SessionRecord) × Takes C.meaning r bytes.now now after opened × StandsFor W.remembers S.stands_for self.new after) }
        ensures unopened { IfOk result (λ opened. IfNone opened (self.new ≡ self.old)) }
        ensures runs { self.new.state.stopped ≡ self.old.state.stopped }
        ensures err { OnErr result (self.new ≡ record self.old { rx = self.new.rx; probes = self.new.probes; seen = self.new.seen }) }
        ensures stands { OnErr result ((r : SessionRecord) → StandsFor W.remembers S.stands_for self.old r → place_of original self.old.rx ≡ Some place
            → (after : SessionRecord) × StandsFor W.remembers S.stands_for self.new after) }
    {
        let Some(number) = accepts_repair(header, place, &self.seen, &self.streams) else {
            return Ok(None);
        };
        let Some(opening) = open(self.alloc, &mut self.opening, bytes, header, number, true)? else {
            return Ok(None);
        };
        let Opening {
            plain,
            original: low,
            payload,
        } = opening;
        self.take_repair(now, header, place, number)?;
        self.restore_packet(now, header, original, place, low, payload)?;
        Ok(Some(Opened {
            kind: Kind::Rtp,
            ssrc: header.ssrc,
            index: number,
            plain,
        }))
    }

    /// Takes in a datagram that begins with this header, of a type that is taken, and is no repair.
    fn receive_under(
        &mut self,
        now: Instant,
        bytes: &[u8],
        header: &RtpHeader,
    ) -> Result<Option<Opened>, AllocError>
        ensures received { IfOk result (λ opened. (r : SessionRecord) → StandsFor W.remembers S.stands_for self.old r
            → header_of r.state.transport.exts bytes.now ≡ Some header.now → repaired_by r.state.types r.rx r.known.originals header.now ≡ None
            → is_claimed r.state.types header.now ≡ true
            → (after : SessionRecord) × Takes C.meaning r bytes.now now after opened × StandsFor W.remembers S.stands_for self.new after) }
        ensures unopened { IfOk result (λ opened. IfNone opened (self.new ≡ self.old)) }
        ensures runs { self.new.state.stopped ≡ self.old.state.stopped }
        ensures err { OnErr result (self.new ≡ record self.old { rx = self.new.rx; probes = self.new.probes; seen = self.new.seen }) }
        ensures stands { OnErr result ((r : SessionRecord) → StandsFor W.remembers S.stands_for self.old r
            → (after : SessionRecord) × StandsFor W.remembers S.stands_for self.new after) }
    {
        let remembered = self.seen.get(header.ssrc);
        let Some(found) = accepts(
            header.ssrc,
            header.sequence_number,
            &remembered,
            &self.streams,
            &self.probes,
        ) else {
            return Ok(None);
        };
        let number = found.1;
        let Some(opening) = open(self.alloc, &mut self.opening, bytes, header, number, false)?
        else {
            return Ok(None);
        };
        let Opening { plain, payload, .. } = opening;
        self.take_packet(now, header, found.0, number, &remembered, payload)?;
        Ok(Some(Opened {
            kind: Kind::Rtp,
            ssrc: header.ssrc,
            index: number,
            plain,
        }))
    }

    /// Takes in an RTCP datagram that came, and tells what it opened to: its NACKs ask for packets
    /// that were sent, which may leave again after the next tick, its reception blocks acknowledge
    /// streams without repairs and tell what was lost to those that keep that, its sender reports
    /// are kept for the reports of their streams and its descriptions of sources as their names,
    /// its moments of receivers wait for an answer, its last item that tells how long ago a moment
    /// of this session came in gives the round trip of the incoming streams, its last feedback of
    /// an application, its requests for key frames, its sender reports and its greatest rates are
    /// told by `poll_event`. None where it does not open, and then nothing changes: where it is
    /// shorter than a packet of 8 bytes and what seals it, where its tag does not hold, and without
    /// keys. One that comes again opens again. The time grows with its items and the numbers that
    /// they name, with the number of incoming streams where one gives the round trip, and with the
    /// blocks since losses were last looked at where a stream keeps them.
    ///
    /// # Errors
    /// `Stopped` where an earlier call stopped the session; `Memory`, and then streams that send
    /// were asked for nothing and told nothing, or by the items in front; nor is more to be told of
    /// streams, nor do other moments wait for an answer, than by those.
    pub fn handle_rtcp_receive(
        &mut self,
        now: Instant,
        bytes: &[u8],
    ) -> Result<Option<Opened>, RtcError>
        ensures stopped { IsErrOf result Stopped ↔ IsTrue self.old.state.stopped }
        ensures received { IfOk result (λ opened. (r : SessionRecord) → StandsFor W.remembers S.stands_for self.old r
            → (after : SessionRecord) × ReceivesRtcp C.meaning r bytes.now now after opened × StandsFor W.remembers S.stands_for self.new after) }
        ensures unopened { IfOk result (λ opened. IfNone opened (self.new ≡ self.old)) }
        ensures latch { self.new.state.stopped ≡ self.old.state.stopped || is_err result }
        ensures unchanged { IsErrOf result Stopped → self.new ≡ self.old }
        ensures memory { self.old.state.stopped ≡ false → IfErr result (λ e. e ≡ Memory) }
        ensures failed { IsErrOf result Memory → self.new ≡ record self.old {
          state = record (stopped_from self.old.state) { tx = self.new.state.tx; moments = self.new.state.moments; news = self.new.state.news };
          repairs = self.new.repairs;
        } }
        ensures heard { IsErrOf result Memory → HearsFront C.meaning self.old.state.opening bytes.now self.old.state.tx self.new.state.tx }
        ensures asked { IsErrOf result Memory → (r : SessionRecord) → StandsFor W.remembers S.stands_for self.old r
            → (after : List (ℕ × RepairsRecord)) × AsksFront C.meaning r.state.opening bytes.now now r.repairs after
            × Along (RepairsStandFor S.stands_for) self.new.repairs after }
        ensures waiting { IsErrOf result Memory → MomentsFront C.meaning self.old.state.opening bytes.now now self.old.state.moments self.new.state.moments }
        ensures told { IsErrOf result Memory → (r : SessionRecord) → StandsFor W.remembers S.stands_for self.old r
            → NewsFront C.meaning r.state.opening bytes.now now r.state.tx r.rx r.state.news self.new.state.news }
    {
        if self.stopped {
            return Err(RtcError::Stopped);
        }
        match self.receive_rtcp(now, bytes) {
            Ok(opened) => Ok(opened),
            Err(_) => {
                self.stopped = true;
                Err(RtcError::Memory)
            }
        }
    }

    fn receive_rtcp(&mut self, now: Instant, bytes: &[u8]) -> Result<Option<Opened>, AllocError>
        ensures received { IfOk result (λ opened. (r : SessionRecord) → StandsFor W.remembers S.stands_for self.old r
            → (after : SessionRecord) × ReceivesRtcp C.meaning r bytes.now now after opened × StandsFor W.remembers S.stands_for self.new after) }
        ensures unopened { IfOk result (λ opened. IfNone opened (self.new ≡ self.old)) }
        ensures runs { self.new.state.stopped ≡ self.old.state.stopped }
        ensures err { OnErr result (self.new ≡ record self.old {
          state = record self.old.state { tx = self.new.state.tx; moments = self.new.state.moments; news = self.new.state.news };
          repairs = self.new.repairs;
        }) }
        ensures heard { OnErr result (HearsFront C.meaning self.old.state.opening bytes.now self.old.state.tx self.new.state.tx) }
        ensures asked { OnErr result ((r : SessionRecord) → StandsFor W.remembers S.stands_for self.old r
            → (after : List (ℕ × RepairsRecord)) × AsksFront C.meaning r.state.opening bytes.now now r.repairs after
            × Along (RepairsStandFor S.stands_for) self.new.repairs after) }
        ensures waiting { OnErr result (MomentsFront C.meaning self.old.state.opening bytes.now now self.old.state.moments self.new.state.moments) }
        ensures told { OnErr result ((r : SessionRecord) → StandsFor W.remembers S.stands_for self.old r
            → NewsFront C.meaning r.state.opening bytes.now now r.state.tx r.rx r.state.news self.new.state.news) }
    {
        let Some(RtcpOpening { plain, index }) = open_rtcp(&mut self.opening, bytes)? else {
            return Ok(None);
        };
        let feedback = feedback_in(self.alloc, plain.as_slice())?;
        let delay = last_delay(self.local_ssrc, &self.streams, feedback.as_slice());
        self.next_stream = 0;
        ask_all(feedback.as_slice(), &mut self.streams, now)?;
        take_moments(feedback.as_slice(), now, &mut self.moments)?;
        self.news.hear(&self.streams, feedback.as_slice(), now)?;
        tell_all(feedback.as_slice(), &mut self.streams)?;
        let ntp = now.to_ntp_duration(&self.transport.beginning);
        measure(ntp, &delay, &mut self.streams);
        hear(feedback, now, &mut self.streams, &mut self.application);
        Ok(Some(Opened {
            kind: Kind::Rtcp,
            ssrc: sender(plain.as_slice()),
            index: SeqNo::from(u64::from(index)),
            plain,
        }))
    }
}
