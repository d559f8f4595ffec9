//! Of which incoming stream a datagram is, where the tables of streams do not tell it by its SSRC.
ghost use Rattle.std.specs.Prelude.{◌≡◌, OnOk, OnErr};
ghost use Rattle.std.specs.Option.{option_copied};
ghost use Rattle.mapping_core.specs.Mapped.{mapped};
ghost use Rattle.stream_core.specs.Known.{none_known, put_original, with_known, without_known, with_original_of, renamed_to, with_main, with_repairs};
ghost use Rattle.stream_core.specs.Removing.{known_without_section};
ghost use Rattle.stream_core.specs.Tables.{value_under, each};

use crate::ssrc_table::SsrcTable;
use mapping_core::{
    IncomingStream, MainChange, MappedStreams, Mapping, RepairsChange, Rids, TypeClaim,
};
use rtp_base::{Mid, Ssrc};
use rtp_wire::RtpHeader;
use std::alloc::{AllocError, Global};
use std::marker::Model;

/// What tells of which incoming stream a datagram is: the SSRCs of repairs, and the headers by
/// which an SSRC that no table has is a stream's (RFC 8843 section 9.2, RFC 8852, RFC 4588 section
/// 8).
#[derive(Drop)]
pub struct KnownStreams {
    // Under each SSRC of repairs that comes, the SSRC of the stream that is repaired.
    originals: SsrcTable<Ssrc>,
    streams: MappedStreams,
}

impl Model for KnownStreams {
    ghost use Rattle.stream_core.specs.Known.{KnownRecord};

    ghost Value = { KnownRecord };

    ghost view = { λ k. record { originals = k.originals; streams = k.streams } };
}

/// The SSRC that the stream of an SSRC has after a change.
fn renamed(change: &MainChange, ssrc: Ssrc) -> Ssrc
    ensures { result ≡ renamed_to change.now ssrc }
{
    if ssrc == change.from { change.to } else { ssrc }
}

/// Has the repairs of a stream that had one SSRC be those of the other one, under each SSRC of
/// repairs. The time grows with the number of these.
fn rename_all(originals: &mut SsrcTable<Ssrc>, change: &MainChange)
    ensures { originals.new ≡ each (renamed_to change.now) originals.old }
{
    for place in 0..originals.len() {
        let original = originals.at_mut(place);
        *original = renamed(change, *original);
    }
}

/// Puts the SSRC of a stream under that of its repairs, if it has one, behind the others; where
/// another stream has that one it stays with it.
fn put_original(
    originals: &mut SsrcTable<Ssrc>,
    ssrc: Ssrc,
    rtx: Option<Ssrc>,
) -> Result<(), AllocError>
    ensures ok { OnOk result (originals.new ≡ put_original ssrc rtx originals.old) }
    ensures err { OnErr result (originals.new ≡ originals.old) }
{
    match rtx {
        Some(rtx) => originals.add_new(rtx, ssrc),
        None => Ok(()),
    }
}

impl KnownStreams {
    /// No streams.
    pub fn new(alloc: Global) -> Self
        ensures { result ≡ none_known }
    {
        KnownStreams {
            originals: SsrcTable::new(alloc),
            streams: MappedStreams::new(alloc),
        }
    }

    /// The SSRC of the stream whose repairs come under an SSRC: one look-up in a hash table.
    pub fn original(&self, ssrc: Ssrc) -> Option<Ssrc>
        ensures { result ≡ value_under ssrc self.now.originals }
    {
        let place = self.originals.place(ssrc)?;
        Some(*self.originals.at(place))
    }

    /// Of which stream a datagram with this header is, where the media section of its mid expects
    /// `rids`; None where no section has its mid. The time grows with the number of streams, of
    /// types and of rids.
    pub fn map(&self, rids: Option<&Rids>, types: &[TypeClaim], header: &RtpHeader) -> Mapping
        ensures { result ≡ mapped (option_copied rids.entry) types.now self.now.streams header.now }
    {
        self.streams.map(rids, types, header)
    }

    /// One more stream, behind the others. Without memory nothing changes. The time grows with the
    /// number of streams.
    pub fn expect(&mut self, stream: &IncomingStream) -> Result<(), AllocError>
        ensures ok { OnOk result (self.new ≡ with_known stream.now self.old) }
        ensures err { OnErr result (self.new ≡ self.old) }
    {
        let len = self.originals.len();
        put_original(&mut self.originals, stream.ssrc, stream.rtx)?;
        match self.streams.expect(stream) {
            Ok(()) => Ok(()),
            Err(error) => {
                self.originals.truncate(len);
                Err(error)
            }
        }
    }

    /// The stream of an SSRC is known no more. The time grows with the number of streams.
    pub fn remove(&mut self, ssrc: Ssrc)
        ensures { self.new ≡ without_known ssrc self.old }
    {
        self.originals.remove_all(ssrc);
        self.streams.remove(ssrc);
    }

    /// The streams of a media section are known no more. The time grows with the square of the
    /// number of streams.
    pub fn remove_section(&mut self, mid: Mid)
        ensures { self.new ≡ known_without_section mid self.old }
    {
        self.originals.remove_received(&self.streams, mid);
        self.streams.remove_section(mid);
    }

    /// Repairs of the stream of an SSRC come under another one, where that is of no other stream's
    /// repairs. Without memory nothing changes.
    pub fn take_repairs(&mut self, rtx: Ssrc, main: Ssrc) -> Result<(), AllocError>
        ensures ok { OnOk result (self.new ≡ with_original_of rtx main self.old) }
        ensures err { OnErr result (self.new ≡ self.old) }
    {
        self.originals.add_new(rtx, main)
    }

    /// The packets of a stream come under another SSRC. The time grows with the number of streams.
    pub fn change_main(&mut self, change: &MainChange)
        ensures { self.new ≡ with_main change.now self.old }
    {
        rename_all(&mut self.originals, change);
        self.streams.change_main(*change);
    }

    /// The repairs of a stream come under another SSRC, or for the first time under one. Without
    /// memory nothing changes. The time grows with the number of streams.
    pub fn change_repairs(&mut self, change: &RepairsChange) -> Result<(), AllocError>
        ensures ok { OnOk result (self.new ≡ with_repairs change.now self.old) }
        ensures err { OnErr result (self.new ≡ self.old) }
    {
        self.originals.add_new(change.rtx, change.main)?;
        self.originals.keep_only(change);
        self.streams.change_repairs(*change);
        Ok(())
    }
}
