ghost use Rattle.std.specs.Prelude.{◌≡◌, find};
ghost use Rattle.std.specs.Option.{option_copied};
ghost use Rattle.run_model.specs.Transcripts.{is_type, has_type, repairs_as};

use media_model::{PayloadType, Setup, Side};
use rtp_wire::{ExtensionMap, Pt, Ssrc};

// A stream that a side of a run receives.
#[derive(Clone, Copy)]
pub(crate) struct Line<'a> {
    pub(crate) setup: &'a Setup,
    pub(crate) exts: &'a ExtensionMap,
    pub(crate) side: Side,
    pub(crate) ssrc: Ssrc,
    pub(crate) rtx: Option<Ssrc>,
}

fn is_type(rtx: Option<Pt>, pt: Pt) -> bool
    ensures { result ≡ is_type pt rtx }
{
    match rtx {
        Some(rtx) => rtx == pt,
        None => false,
    }
}

impl Line<'_> {
    ghost use Rattle.std.specs.Prelude.{◌≡◌, ◌==◌, Some};
    ghost use Rattle.rtp_base.specs.Window.{is_just};
    ghost use Rattle.run_model.specs.Receiving.{concerns};
    ghost use Rattle.run_widens.specs.Lines.{incoming_in, types_in, is_repair_type};

    fn is_rtx_ssrc(&self, ssrc: Ssrc) -> bool
        ensures { result ≡ is_just ssrc self.now.rtx }
    {
        match self.rtx {
            Some(rtx) => rtx == ssrc,
            None => false,
        }
    }

    // Whether datagrams under an SSRC are of the stream.
    pub(crate) fn concerns(&self, ssrc: Ssrc) -> bool
        ensures { result ≡ concerns (incoming_in self.now) ssrc }
    {
        ssrc == self.ssrc || self.is_rtx_ssrc(ssrc)
    }

    fn is_rtx_type(&self, pt: Pt) -> bool
        ensures { result ≡ (types_in self.now).is_rtx pt }
    {
        match primary_in(self.setup.types.as_slice(), pt) {
            Some(_) => true,
            None => false,
        }
    }

    // Whether a datagram of the stream under an SSRC with a type is a repair.
    pub(crate) fn is_repair(&self, ssrc: Ssrc, pt: Pt) -> bool
        ensures { result ≡ is_repair_type self.now ssrc pt }
    {
        self.is_rtx_ssrc(ssrc) || (self.is_rtx_type(pt) && !self.ssrc.is_probe())
    }

    // The type of the repairs of a type.
    pub(crate) fn rtx_of(&self, pt: Pt) -> Option<Pt>
        ensures { result ≡ (types_in self.now).rtx_of pt }
    {
        match type_in(self.setup.types.as_slice(), pt) {
            Some(found) => found.rtx,
            None => None,
        }
    }
}

fn type_in(types: &[PayloadType], pt: Pt) -> Option<&PayloadType>
    ensures { option_copied result ≡ find (has_type pt) types.now }
{
    types.iter().find(|t| t.pt == pt)
}

fn primary_in(types: &[PayloadType], pt: Pt) -> Option<&PayloadType>
    ensures { option_copied result ≡ find (repairs_as pt) types.now }
{
    types.iter().find(|t| is_type(t.rtx, pt))
}
