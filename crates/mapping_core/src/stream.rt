ghost use Rattle.std.specs.Prelude.{◌≡◌};
ghost use Rattle.mapping_core.specs.Streams.{is_named, is_rid, moved};
ghost use Rattle.mapping_core.specs.Claims.{is_number};

use rtp_base::{Mid, Rid, Ssrc};

/// What is known of a stream that is received.
#[derive(Clone, Copy, Debug, PartialEq, Eq)]
pub struct IncomingStream {
    /// The SSRC of its packets.
    pub ssrc: Ssrc,
    /// The SSRC of its repairs (RFC 4588 section 4), where it is known.
    pub rtx: Option<Ssrc>,
    /// Its media section.
    pub mid: Mid,
    /// Its rid in that section (RFC 8852), where it has one.
    pub rid: Option<Rid>,
    /// The SSRC that its packets had before, to which it never changes back.
    pub previous: Option<Ssrc>,
    /// Whether nothing that is missing is asked for.
    pub suppress_nack: bool,
}

pub(crate) fn is_ssrc(one: Option<Ssrc>, ssrc: Ssrc) -> bool
    ensures { result ≡ is_number one ssrc }
{
    match one {
        Some(one) => one == ssrc,
        None => false,
    }
}

fn is_rid(one: Option<Rid>, rid: Rid) -> bool
    ensures { result ≡ is_rid one rid }
{
    match one {
        Some(one) => one == rid,
        None => false,
    }
}

impl IncomingStream {
    /// The stream once its packets come under another SSRC; they never come again under the one
    /// that they had before.
    pub fn moved(mut self, to: Ssrc) -> Self
        ensures { result ≡ moved to self }
    {
        if is_ssrc(self.previous, to) {
            return self;
        }
        self.previous = Some(self.ssrc);
        self.ssrc = to;
        self
    }

    /// Whether it is a stream of a media section, and of that rid where one is asked for.
    pub fn is_named(&self, mid: Mid, rid: Option<Rid>) -> bool
        ensures { result ≡ is_named mid rid self.now }
    {
        match rid {
            Some(rid) => self.mid == mid && is_rid(self.rid, rid),
            None => self.mid == mid,
        }
    }
}
