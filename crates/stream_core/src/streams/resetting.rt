//! Streams that begin anew under another SSRC.
ghost use Rattle.std.specs.Prelude.{◌≡◌, ◌<◌, ◌≤◌, ℕ, List, true, None, Some, length, is_some, IfOk, OnOk, OnErr};
ghost use Rattle.std.specs.Option.{ForSome};
ghost use Rattle.stream_core.specs.Repairing.{RepairsRecord, RepairsStandFor};
ghost use Rattle.stream_core.specs.StreamsRecord.{StreamsRecord, StandsFor, anew_from, has_cap, with_reset_tx};
ghost use Rattle.stream_core.specs.Tables.{Along, place_of, value_under, with_value, renamed};

use super::Streams;
use crate::repairing::Sent;
use crate::ssrc_table::SsrcTable;
use repair_core::GapWindow;
use resend_core::ResendStore;
use rtp_base::{NUMBER_LIMIT, SeqNo, Ssrc};
use rtx_core::ResendQueue;
use std::alloc::{AllocError, Global};

/// What the stream of an SSRC sends again once it begins anew with a first number of repairs: with
/// the limits that it had, if it sent repairs.
fn repairs_from<S: ResendStore<Sent>>(
    alloc: Global,
    repairs: &SsrcTable<ResendQueue<Sent, S>>,
    ssrc: Ssrc,
    first: SeqNo,
) -> Result<ResendQueue<Sent, S>, AllocError>
    requires { first ≤ NUMBER_LIMIT }
    ensures { IfOk result (λ q. (rs : List (ℕ × RepairsRecord)) → Along (RepairsStandFor S.stands_for) repairs.now rs → RepairsStandFor S.stands_for q (anew_from first (value_under ssrc rs))) }
{
    match repairs.place(ssrc) {
        Some(at) => repairs.at(at).anew(first),
        None => ResendQueue::new(alloc, first),
    }
}

/// Whether there is a cap of how much of what the stream of an SSRC sends may be repairs; one
/// without repairs has that of the beginning.
fn has_cap<S: ResendStore<Sent>>(repairs: &SsrcTable<ResendQueue<Sent, S>>, ssrc: Ssrc) -> bool
    ensures { (rs : List (ℕ × RepairsRecord)) → Along (RepairsStandFor S.stands_for) repairs.now rs → result ≡ has_cap (value_under ssrc rs) }
{
    match repairs.place(ssrc) {
        Some(at) => repairs.at(at).has_cap(),
        None => true,
    }
}

/// Has the value at a place of a table stand under another key, which none has, and puts another
/// value under that key of a second table, in the place of the one that it has or behind the
/// others. Without memory nothing changes.
fn rename_with<A: Drop, B: Drop>(
    one: &mut SsrcTable<A>,
    other: &mut SsrcTable<B>,
    place: usize,
    key: Ssrc,
    value: B,
) -> Result<(), AllocError>
    requires place { place < length one.old }
    requires key { place_of key one.old ≡ None }
    ensures one { OnOk result (one.new ≡ renamed key one.old place) }
    ensures len { OnOk result (length one.new ≡ length one.old) }
    ensures other { OnOk result (other.new ≡ with_value key value other.old) }
    ensures err { OnErr result ((one.new ≡ one.old) × (other.new ≡ other.old)) }
{
    if let Some(at) = other.place(key) {
        one.rename(place, key)?;
        *other.at_mut(at) = value;
        return Ok(());
    }
    let len = other.len();
    other.add(key, value)?;
    match one.rename(place, key) {
        Ok(()) => Ok(()),
        Err(error) => {
            other.truncate(len);
            Err(error)
        }
    }
}

impl<W: GapWindow, S: ResendStore<Sent>> Streams<W, S> {
    /// As `reset_ssrc`, of the stream at a place.
    fn reset_at(
        &mut self,
        place: usize,
        ssrc: Ssrc,
        new_ssrc: Ssrc,
        rtx: Option<(Ssrc, SeqNo)>,
    ) -> Result<(), AllocError>
        requires here { place_of ssrc self.old.tx ≡ Some place }
        requires within { place < length self.old.tx }
        requires unused { place_of new_ssrc self.old.tx ≡ None }
        requires first { ForSome rtx (λ x. x.1 ≤ NUMBER_LIMIT) }
        ensures ok { OnOk result ((r : StreamsRecord) → StandsFor W.remembers S.stands_for self.old r
            → StandsFor W.remembers S.stands_for self.new (with_reset_tx ssrc new_ssrc rtx r)) }
        ensures rx { self.new.rx ≡ self.old.rx }
        ensures threshold { self.new.threshold ≡ self.old.threshold }
        ensures known { self.new.known ≡ self.old.known }
        ensures err { OnErr result (self.new ≡ self.old) }
    {
        let alloc = self.alloc;
        let capped = has_cap(&self.repairs, ssrc);
        match rtx {
            Some(start) => {
                let repairs = repairs_from(self.alloc, &self.repairs, ssrc, start.1)?;
                rename_with(&mut self.tx, &mut self.repairs, place, new_ssrc, repairs)?;
                let stream = self.tx.at_mut(place);
                stream.reset_ssrc(alloc, new_ssrc, Some(start.0), capped);
                self.repairs.remove(ssrc);
                Ok(())
            }
            None => {
                self.tx.rename(place, new_ssrc)?;
                let alone = self.tx.at_mut(place);
                alone.reset_ssrc(alloc, new_ssrc, None, capped);
                self.repairs.remove(ssrc);
                Ok(())
            }
        }
    }

    /// Has the stream that sends under an SSRC begin anew under another one, in its place among the
    /// streams: its reports begin anew, the peer has not acknowledged it, and what waits, what is
    /// kept and what is asked for is dropped. With `rtx` its repairs come under that SSRC with
    /// numbers from that one on; at 2^48 there is none. Its media section and rid, its kind and the
    /// limits of what it keeps stay. What its receivers report as lost is kept anew exactly where
    /// there is a cap of how much of what it sends may be repairs; one without repairs has that of
    /// the beginning. Where no stream sends under the SSRC nothing changes; without memory neither.
    /// The time grows with the number of streams declared after it.
    ///
    /// The caller sees to it that neither of the new SSRCs was used under the present key: else two
    /// packets may have one nonce (RFC 3711 section 9.1).
    pub fn reset_ssrc(
        &mut self,
        ssrc: Ssrc,
        new_ssrc: Ssrc,
        rtx: Option<(Ssrc, SeqNo)>,
    ) -> Result<(), AllocError>
        requires unused { place_of new_ssrc self.old.tx ≡ None }
        requires first { ForSome rtx (λ x. x.1 ≤ NUMBER_LIMIT) }
        ensures ok { OnOk result ((r : StreamsRecord) → StandsFor W.remembers S.stands_for self.old r
            → StandsFor W.remembers S.stands_for self.new (with_reset_tx ssrc new_ssrc rtx r)) }
        ensures rx { self.new.rx ≡ self.old.rx }
        ensures threshold { self.new.threshold ≡ self.old.threshold }
        ensures known { self.new.known ≡ self.old.known }
        ensures err { OnErr result (self.new ≡ self.old) }
        ensures cause { OnErr result (is_some (place_of ssrc self.old.tx) ≡ true) }
    {
        let Some(place) = self.tx_place(ssrc) else {
            return Ok(());
        };
        self.reset_at(place, ssrc, new_ssrc, rtx)
    }
}
