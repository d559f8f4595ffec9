ghost use Rattle.std.specs.Prelude.{◌≡◌, OnOk, OnErr};
ghost use Rattle.mapping_core.specs.Expecting.{is_among, expects, is_specific, with_rid};

use media_base::Listed;
use rtp_base::Rid;
use std::alloc::{AllocError, Global};

/// Which streams a media section expects, by their rids (RFC 8852).
#[derive(Debug, PartialEq, Eq, Drop)]
pub enum Rids {
    /// None that has a rid.
    None,
    /// Any, with a rid or without one.
    Any,
    /// Those of these rids, and none without one.
    Specific(Listed<Rid>),
}

fn is_among(rids: &[Rid], rid: Rid) -> bool
    ensures { result ≡ is_among rids.now rid }
{
    rids.iter().any(|expected| *expected == rid)
}

impl Rids {
    /// Whether a rid is expected. The time grows with the number of rids.
    pub fn contains(&self, rid: Rid) -> bool
        ensures { result ≡ expects self.now rid }
    {
        match self {
            Rids::None => false,
            Rids::Any => true,
            Rids::Specific(rids) => is_among(rids.as_slice(), rid),
        }
    }

    /// Whether streams without a rid are refused.
    pub fn is_specific(&self) -> bool
        ensures { result ≡ is_specific self.now }
    {
        matches!(self, Rids::Specific(_))
    }

    /// Expects one more rid, and from then on no stream without one. Without memory nothing
    /// changes. The time grows with the number of rids.
    pub fn expect(&mut self, alloc: Global, rid: Rid) -> Result<(), AllocError>
        ensures ok { OnOk result (self.new ≡ with_rid rid self.old) }
        ensures err { OnErr result (self.new ≡ self.old) }
    {
        if let Rids::Specific(rids) = self {
            if !is_among(rids.as_slice(), rid) {
                rids.push(rid)?;
            }
            return Ok(());
        }
        let mut rids = Listed::new(alloc);
        rids.push(rid)?;
        *self = Rids::Specific(rids);
        Ok(())
    }
}
