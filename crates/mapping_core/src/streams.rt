ghost use Rattle.std.specs.Prelude.{◌≡◌, ◌==◌, ◌↔◌, IsTrue, ◌<◌, [], length, position, false, true, IfSome, OnOk, OnErr, Some};
ghost use Rattle.std.specs.Option.{option_copied};
ghost use Rattle.std.specs.Slice.Iter.{iter_rest};
ghost use Rattle.std.specs.Iterator.Adapters.{IterYieldsInOrder};
ghost use Rattle.mapping_core.specs.declared.stream.IncomingStream.{IncomingStream as Stream};
ghost use Rattle.mapping_core.specs.Streams.{has_main, is_known, with_stream, with_main, with_repairs, committed, without, without_section};
ghost use Rattle.mapping_core.specs.Mapped.{is_new, mapped, mapping_rules, first_that_applies};
ghost use Rattle.mapping_core.specs.Maps.{MapsAnew};
ghost use Rattle.mapping_core.specs.GoingOn.{GoOn};

use crate::claim::TypeClaim;
use crate::draw::UsedSsrcs;
use crate::mapping::{MainChange, Mapping, RepairsChange};
use crate::rids::Rids;
use crate::rules;
use crate::stream::{IncomingStream, is_ssrc};
use rtp_base::{Mid, Ssrc};
use rtp_wire::RtpHeader;
use std::alloc::{AllocError, Global};
use std::marker::Model;
use std::slice;

/// The streams that are received, in order of declaration. Contracts see the list of them.
#[derive(Debug, Drop)]
pub struct MappedStreams {
    all: Vec<IncomingStream>,
}

impl Model for MappedStreams {
    ghost use Rattle.std.specs.Prelude.{List};
    ghost use Rattle.mapping_core.specs.declared.stream.IncomingStream.{IncomingStream};

    ghost Value = { List IncomingStream };

    ghost view = { λ s. s.all.items };
}

impl MappedStreams {
    /// No streams.
    pub fn new(alloc: Global) -> Self
        ensures { result ≡ [] }
    {
        MappedStreams {
            all: Vec::new(alloc),
        }
    }

    /// How many there are.
    pub fn len(&self) -> usize
        ensures { result ≡ length self.now }
    {
        self.all.len()
    }

    /// Whether there are none.
    pub fn is_empty(&self) -> bool
        ensures { result ≡ (length self.now == 0) }
    {
        self.all.is_empty()
    }

    /// The streams, one after another.
    pub fn iter(&self) -> slice::Iter<'_, IncomingStream>
        ensures rest { iter_rest result ≡ self.now }
        ensures runs { IterYieldsInOrder Stream }
    {
        self.all.iter()
    }

    /// The streams, in order of declaration.
    pub fn as_slice(&self) -> &[IncomingStream]
        ensures { result.now ≡ self.now }
    {
        self.all.as_slice()
    }

    /// Where the first stream stands whose packets come under an SSRC. The time grows with the
    /// number of streams.
    fn place(&self, ssrc: Ssrc) -> Option<usize>
        ensures place { result ≡ position (has_main ssrc) self.now }
        ensures within { IfSome result (λ i. i < length self.now) }
    {
        self.all.iter().position(|stream| stream.ssrc == ssrc)
    }

    /// Expects a stream, behind the others; its packets had no other SSRC before. One whose packets
    /// come under the same SSRC stays as it is. Without memory nothing changes. The time grows with
    /// the number of streams.
    #[tactic(auto, using(crate::proofs::GoingOn::go_on_with_stream, crate::proofs::GoingOn::go_on_same))]
    pub fn expect(&mut self, stream: &IncomingStream) -> Result<(), AllocError>
        ensures ok { OnOk result (self.new ≡ with_stream stream.now self.old) }
        ensures go_on { GoOn self.old self.new }
        ensures err { OnErr result (self.new ≡ self.old) }
    {
        if self.place(stream.ssrc).is_none() {
            self.all.push(IncomingStream {
                ssrc: stream.ssrc,
                rtx: stream.rtx,
                mid: stream.mid,
                rid: stream.rid,
                previous: None,
                suppress_nack: stream.suppress_nack,
            })?;
        }
        Ok(())
    }

    /// Takes out the stream whose packets come under an SSRC. The time grows with the number of
    /// streams.
    pub fn remove(&mut self, ssrc: Ssrc)
        ensures { self.new ≡ without ssrc self.old }
    {
        self.all.retain(|stream| stream.ssrc != ssrc);
    }

    /// Takes out the streams of a media section. The time grows with the number of streams.
    pub fn remove_section(&mut self, mid: Mid)
        ensures { self.new ≡ without_section mid self.old }
    {
        self.all.retain(|stream| stream.mid != mid);
    }

    /// Of which stream a datagram with this header is, where the media section of its mid expects
    /// `rids`; None where no section has its mid. Nothing changes: what is mapped is taken up by
    /// `commit`. The time grows with the number of streams, of types and of rids.
    pub fn map(&self, rids: Option<&Rids>, types: &[TypeClaim], header: &RtpHeader) -> Mapping
        ensures value { result ≡ mapped (option_copied rids.entry) types.now self.now header.now }
        ensures applies { let rules = mapping_rules (option_copied rids.entry) types.now self.now header.now
            in first_that_applies rules ≡ Some result }
        ensures exactly { IsTrue (is_new result)
            ↔ (MapsAnew (option_copied rids.entry) types.now self.now header.now) }
    {
        rules::map(self.all.as_slice(), rids, types, header)
    }

    /// Has the packets of a stream come under another SSRC, unless that is the one that they had
    /// right before, or packets of some stream come under it. The time grows with the number of
    /// streams.
    #[tactic(auto, using(crate::proofs::GoingOn::go_on_with_main))]
    pub fn change_main(&mut self, change: MainChange)
        ensures changed { self.new ≡ with_main change self.old }
        ensures go_on { GoOn self.old self.new }
    {
        if self.place(change.to).is_some() {
            return;
        }
        if let Some(place) = self.place(change.from) {
            self.all[place] = self.all[place].moved(change.to);
        }
    }

    /// Has the repairs of a stream come under an SSRC. The time grows with the number of streams.
    #[tactic(auto, using(crate::proofs::GoingOn::go_on_with_repairs))]
    pub fn change_repairs(&mut self, change: RepairsChange)
        ensures changed { self.new ≡ with_repairs change self.old }
        ensures go_on { GoOn self.old self.new }
    {
        if let Some(place) = self.place(change.main) {
            self.all[place].rtx = Some(change.rtx);
        }
    }

    /// Takes up what the header of a datagram maps to, once it is known whether the datagram
    /// opened: where it did not, nothing changes. A stream goes on in its place, and its packets
    /// never come again under the SSRC that they had right before. Without memory nothing changes.
    /// The time grows with the number of streams.
    #[tactic(auto, using(crate::proofs::GoingOn::go_on_same))]
    pub fn commit(&mut self, mapping: &Mapping, opened: bool) -> Result<(), AllocError>
        ensures opened { OnOk result (opened ≡ true → self.new ≡ committed mapping.now self.old) }
        ensures go_on { GoOn self.old self.new }
        ensures closed { opened ≡ false → self.new ≡ self.old }
        ensures err { OnErr result (self.new ≡ self.old) }
    {
        if !opened {
            return Ok(());
        }
        match mapping {
            Mapping::NewStream(stream) => self.expect(stream)?,
            Mapping::NewMain(change) => self.change_main(*change),
            Mapping::NewRepairs(change) => self.change_repairs(*change),
            Mapping::Main(_) | Mapping::Repairs(_) | Mapping::Nowhere(_) => {}
        }
        Ok(())
    }
}

impl UsedSsrcs for MappedStreams {
    ghost uses = { is_known };

    fn is_used(&self, ssrc: Ssrc) -> bool {
        self.all
            .iter()
            .any(|stream| stream.ssrc == ssrc || is_ssrc(stream.rtx, ssrc))
    }
}
