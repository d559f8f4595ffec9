ghost use Rattle.std.specs.Prelude.{◌≡◌, ◌==◌, length, OnOk, OnErr};
ghost use Rattle.std.specs.Option.{option_copied};
ghost use Rattle.mapping_core.specs.Expecting.{with_rid};
ghost use Rattle.mapping_core.specs.declared.rids.Rids.TheVariants.{Any};
ghost use Rattle.session_core.specs.Medias.{media_of, media_place, medias_without};

use mapping_core::Rids;
use media_base::{Bytes, Listed};
use payload_core::MediaKind;
use rtp_base::{Mid, Pt, Rid};
use std::alloc::{AllocError, Global};
use std::marker::Model;

/// A media section (RFC 8866 section 5.14). Contracts see the record of its mid, its kind, its
/// CNAME, the payload types of the peer, and which streams it expects by their rids.
#[derive(Debug, Drop)]
pub struct Media {
    mid: Mid,
    kind: MediaKind,
    cname: Bytes,
    remote_pts: Listed<Pt>,
    rids: Rids,
}

impl Model for Media {
    ghost use Rattle.session_core.specs.SessionRecord.{MediaRecord};

    ghost Value = { MediaRecord };

    ghost view = { λ m. record {
      mid = m.mid;
      kind = m.kind;
      cname = m.cname;
      remote_pts = m.remote_pts;
      rids = m.rids;
    } };
}

impl Media {
    /// A section of a mid, for sound or pictures, with the canonical name of its sources (RFC 3550
    /// section 6.5.1) and the payload types that the peer takes, in its order of preference (RFC
    /// 3264 section 6.1). It expects streams of any rid, or of none.
    pub fn new(mid: Mid, kind: MediaKind, cname: Bytes, remote_pts: Listed<Pt>) -> Self
        ensures { result ≡ record { mid = mid; kind = kind; cname = cname; remote_pts = remote_pts; rids = Any } }
    {
        Media {
            mid,
            kind,
            cname,
            remote_pts,
            rids: Rids::Any,
        }
    }

    /// Its identification (RFC 9143).
    pub fn mid(&self) -> Mid
        ensures { result ≡ self.now.mid }
    {
        self.mid
    }

    /// Whether it is of sound or of pictures.
    pub fn kind(&self) -> MediaKind
        ensures { result ≡ self.now.kind }
    {
        self.kind
    }

    /// The payload types that the peer takes, in its order of preference.
    pub fn remote_pts(&self) -> &[Pt]
        ensures { result.now ≡ self.now.remote_pts }
    {
        self.remote_pts.as_slice()
    }

    /// Whether nothing can be sent on it: the peer takes no payload type.
    pub fn disabled(&self) -> bool
        ensures { result ≡ (length self.now.remote_pts == 0) }
    {
        self.remote_pts.is_empty()
    }

    /// Which streams it expects, by their rids (RFC 8852).
    pub fn rids_rx(&self) -> &Rids
        ensures { result.now ≡ self.now.rids }
    {
        &self.rids
    }

    /// Sets which streams it expects, by their rids.
    pub fn set_rid_rx(&mut self, rids: Rids)
        ensures { self.new ≡ record self.old { rids = rids } }
    {
        self.rids = rids;
    }

    /// Expects one more rid, and from then on no stream without one. Without memory nothing
    /// changes. The time grows with the number of rids.
    pub fn expect_rid_rx(&mut self, alloc: Global, rid: Rid) -> Result<(), AllocError>
        ensures ok { OnOk result (self.new ≡ record self.old { rids = with_rid rid self.old.rids }) }
        ensures err { OnErr result (self.new ≡ self.old) }
    {
        self.rids.expect(alloc, rid)
    }

    /// The canonical name of its sources.
    pub fn cname(&self) -> &[u8]
        ensures { result.now ≡ self.now.cname }
    {
        self.cname.as_slice()
    }
}

/// The first media section of a mid. The time grows with the number of media sections.
pub fn media_of(medias: &[Media], mid: Mid) -> Option<&Media>
    ensures { option_copied result ≡ media_of mid medias.now }
{
    medias.iter().find(|media| media.mid() == mid)
}

/// Where that one stands. The time grows with the number of media sections.
pub fn media_place(medias: &[Media], mid: Mid) -> Option<usize>
    ensures { result ≡ media_place mid medias.now }
{
    medias.iter().position(|media| media.mid() == mid)
}

/// Takes out the media sections of a mid. The time grows with the number of media sections.
pub fn remove_section(medias: &mut Vec<Media>, mid: Mid)
    ensures { medias.new.items ≡ medias_without mid medias.old.items }
{
    medias.retain(|media| media.mid() != mid);
}
