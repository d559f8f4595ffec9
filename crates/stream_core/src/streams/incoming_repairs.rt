//! The repairs that come for the streams of a session (RFC 4588): under which number one may open,
//! and the packet that it restores.
ghost use Rattle.std.specs.Prelude.{◌≡◌, ◌<◌, ◌%◌, ℕ, Some, length, IfOk, IfSome, OnOk, OnErr};
ghost use Rattle.std.specs.Map.{keys_of};
ghost use Rattle.std.specs.Option.{ForSome};
ghost use Rattle.stream_core.specs.RxRepairs.{repair_came, after_restored};
ghost use Rattle.stream_core.specs.StreamsRecord.{StreamsRecord, StandsFor, accepted_repair, restored_on, own_number_on, restored_number_on};
ghost use Rattle.stream_core.specs.Tables.{place_of, change_at};

use super::Streams;
use crate::repairing::Sent;
use crate::reports::Arrival;
use media_units::Instant;
use repair_core::GapWindow;
use resend_core::ResendStore;
use rtp_base::{NUMBER_LIMIT, SeqNo};
use std::alloc::AllocError;

impl<W: GapWindow, S: ResendStore<Sent>> Streams<W, S> {
    /// The own number under which a repair of the stream at a place may open, where `seen` is the
    /// greatest number that was seen on the SSRC of its datagram.
    pub fn accepts_repair(&self, place: usize, low: u16, seen: Option<SeqNo>) -> Option<SeqNo>
        requires place { place < length self.now.rx }
        requires seen { ForSome seen (λ n. n < NUMBER_LIMIT) }
        ensures number { (r : StreamsRecord) (ssrc : ℕ) → StandsFor W.remembers S.stands_for self.now r → place_of ssrc self.now.rx ≡ Some place
            → result ≡ accepted_repair seen r.rx ssrc low }
        ensures small { IfSome result (λ n. n < NUMBER_LIMIT) }
        ensures low { IfSome result (λ n. n % 65536 ≡ low) }
    {
        self.rx.at(place).accepts_repair(low, seen)
    }

    /// The own number of a repair of the stream at a place with these low 16 bits, fresh or not.
    pub fn repair_number_at(&self, place: usize, low: u16, seen: Option<SeqNo>) -> SeqNo
        requires place { place < length self.now.rx }
        requires seen { ForSome seen (λ n. n < NUMBER_LIMIT) }
        ensures number { (r : StreamsRecord) (ssrc : ℕ) → StandsFor W.remembers S.stands_for self.now r → place_of ssrc self.now.rx ≡ Some place
            → Some result ≡ own_number_on seen r.rx ssrc low }
        ensures small { result < NUMBER_LIMIT }
        ensures low { result % 65536 ≡ low }
    {
        self.rx.at(place).repair_number(low, seen)
    }

    /// The number of the packet that a repair of the stream at a place restores, whose low 16 bits
    /// begin the payload of the repair, fresh or not.
    pub fn restored_number_at(&self, place: usize, low: u16, remembered: &Option<SeqNo>) -> SeqNo
        requires place { place < length self.now.rx }
        requires remembered { ForSome remembered.now (λ n. n < NUMBER_LIMIT) }
        ensures number { (r : StreamsRecord) (ssrc : ℕ) → StandsFor W.remembers S.stands_for self.now r → place_of ssrc self.now.rx ≡ Some place
            → Some result ≡ restored_number_on remembered.now r.rx ssrc low }
        ensures small { result < NUMBER_LIMIT }
    {
        self.rx.at(place).restored_number(low, remembered)
    }

    /// Has the stream at a place take the own number of a repair that opened at a moment.
    #[tactic(auto, using(crate::proofs::Alongside::set_same))]
    pub fn take_repair_at(&mut self, place: usize, now: Instant, number: SeqNo, seen: Option<SeqNo>)
        requires place { place < length self.old.rx }
        requires number { number < NUMBER_LIMIT }
        requires seen { ForSome seen (λ n. n < NUMBER_LIMIT) }
        ensures taken { (r : StreamsRecord) (ssrc : ℕ) → StandsFor W.remembers S.stands_for self.old r → place_of ssrc self.old.rx ≡ Some place
            → StandsFor W.remembers S.stands_for self.new (record r { rx = change_at ssrc (repair_came seen now number) r.rx }) }
        ensures places { keys_of self.new.rx ≡ keys_of self.old.rx }
        ensures tx { self.new.tx ≡ self.old.tx }
        ensures repairs { self.new.repairs ≡ self.old.repairs }
        ensures threshold { self.new.threshold ≡ self.old.threshold }
        ensures known { self.new.known ≡ self.old.known }
    {
        self.rx.at_mut(place).take_repair(now, number, seen);
        if self.rx.at(place).is_untold() {
            self.next_untold = self.next_untold.min(place);
        }
    }

    /// Has the stream at a place take the number of the packet that a repair repairs, whose low 16
    /// bits begin the payload of the repair, and gives it. None where it is not fresh: the packet
    /// then enters the jitter alone. Without memory nothing changes.
    #[tactic(auto, using(crate::proofs::Alongside::set_same))]
    pub fn restore_at(
        &mut self,
        place: usize,
        low: u16,
        arrival: &Arrival,
        remembered: Option<SeqNo>,
    ) -> Result<Option<SeqNo>, AllocError>
        requires place { place < length self.old.rx }
        requires remembered { ForSome remembered (λ n. n < NUMBER_LIMIT) }
        ensures restored { IfOk result (λ o. (r : StreamsRecord) (ssrc : ℕ) → StandsFor W.remembers S.stands_for self.old r → place_of ssrc self.old.rx ≡ Some place
            → o ≡ restored_on remembered r.rx ssrc low) }
        ensures after { OnOk result ((r : StreamsRecord) (ssrc : ℕ) → StandsFor W.remembers S.stands_for self.old r → place_of ssrc self.old.rx ≡ Some place
            → StandsFor W.remembers S.stands_for self.new (record r { rx = change_at ssrc (after_restored remembered arrival.entry.now low) r.rx })) }
        ensures small { IfOk result (λ o. IfSome o (λ n. n < NUMBER_LIMIT)) }
        ensures low { IfOk result (λ o. IfSome o (λ n. n % 65536 ≡ low)) }
        ensures places { keys_of self.new.rx ≡ keys_of self.old.rx }
        ensures tx { self.new.tx ≡ self.old.tx }
        ensures repairs { self.new.repairs ≡ self.old.repairs }
        ensures threshold { self.new.threshold ≡ self.old.threshold }
        ensures known { self.new.known ≡ self.old.known }
        ensures err { OnErr result (self.new ≡ self.old) }
    {
        let number = self.rx.at_mut(place).restore(low, arrival, remembered)?;
        Ok(number)
    }
}
