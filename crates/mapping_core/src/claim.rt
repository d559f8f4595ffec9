ghost use Rattle.std.specs.Prelude.{◌≡◌, find};
ghost use Rattle.std.specs.Option.{option_copied};
ghost use Rattle.mapping_core.specs.Claims.{claims, carries_media, is_number};

use rtp_base::Pt;

/// A payload type that both ends know, with the types that go with it.
#[derive(Clone, Copy, Debug, PartialEq, Eq)]
pub struct TypeClaim {
    /// Its number.
    pub pt: Pt,
    /// The type of repairs of its packets (RFC 4588 section 8.1), where there is one.
    pub rtx: Option<Pt>,
    /// The type under which it is sent with older frames (RED, RFC 2198), where there is one.
    pub red: Option<Pt>,
}

fn is_number(number: Option<Pt>, pt: Pt) -> bool
    ensures { result ≡ is_number number pt }
{
    match number {
        Some(number) => number == pt,
        None => false,
    }
}

impl TypeClaim {
    /// Whether a type is its own, that of its repairs or that of its RED.
    pub fn claims(&self, pt: Pt) -> bool
        ensures { result ≡ claims pt self.now }
    {
        self.pt == pt || is_number(self.rtx, pt) || is_number(self.red, pt)
    }

    /// Whether packets of a type carry media and no repairs: the type is its own, or that of its
    /// RED.
    pub fn carries_media(&self, pt: Pt) -> bool
        ensures { result ≡ carries_media pt self.now }
    {
        self.pt == pt || is_number(self.red, pt)
    }
}

/// The first row that claims a type.
pub(crate) fn claim_of(types: &[TypeClaim], pt: Pt) -> Option<&TypeClaim>
    ensures { option_copied result ≡ find (claims pt) types.now }
{
    types.iter().find(|claim| claim.claims(pt))
}
