//! What an incoming stream asks of its sender: a key frame (RFC 4585 section 6.3.1, RFC 5104
//! section 4.3.1), and to send no faster (draft-alvestrand-rmcat-remb). Each call takes constant
//! time.
ghost use Rattle.std.specs.Prelude.{◌≡◌, ◌<◌, ◌+◌, ◌++◌, OnOk, OnErr};
ghost use Rattle.std.specs.VecDeque.{deque_len};
ghost use Rattle.stream_core.specs.Requests.{
  no_requests,
  one_of,
  request_count,
  keyframe_items,
  bitrate_items,
  request_items,
  told_requests,
  is_request,
};

use media_base::Listed;
use media_units::Bitrate;
use rtcp_wire::{Fir, FirEntry, Pli, Remb, Rtcp};
use rtp_base::{KeyframeRequestKind, ReportList, Ssrc};
use std::alloc::{AllocError, Global};
use std::collections::VecDeque;

/// What an incoming stream asks of its sender at the next tick.
#[derive(Clone, Copy, Debug, PartialEq, Eq)]
pub struct RxRequests {
    /// How it asks for a key frame, None where it does not.
    pub keyframe: Option<KeyframeRequestKind>,
    /// The greatest rate at which it is to be sent, None where it tells none.
    pub bitrate: Option<Bitrate>,
    /// The number of its next full intra request: 0 follows on 255 (RFC 5104 section 4.3.1.1).
    pub fir_number: u8,
}

impl RxRequests {
    /// Nothing is asked, and no full intra request was made.
    pub fn new() -> Self
        ensures { result ≡ no_requests }
    {
        RxRequests {
            keyframe: None,
            bitrate: None,
            fir_number: 0,
        }
    }

    /// Whether something is asked.
    pub fn is_some(&self) -> bool
        ensures { result ≡ is_request self.now }
    {
        self.keyframe.is_some() || self.bitrate.is_some()
    }

    /// How many items ask for it.
    pub(crate) fn len(&self) -> usize
        ensures { result ≡ request_count self.now }
    {
        usize::from(self.keyframe.is_some()) + usize::from(self.bitrate.is_some())
    }

    /// All that is asked was told to the sender.
    pub(crate) fn told(&mut self)
        ensures { self.new ≡ told_requests self.old }
    {
        if self.keyframe == Some(KeyframeRequestKind::Fir) {
            self.fir_number = self.fir_number.wrapping_add(1);
        }
        self.keyframe = None;
        self.bitrate = None;
    }

    /// Puts the item that asks the source of an SSRC for a key frame behind the others, if one is
    /// asked for.
    fn push_keyframe(
        &self,
        sender_ssrc: Ssrc,
        ssrc: Ssrc,
        items: &mut VecDeque<Rtcp>,
    ) -> Result<(), AllocError>
        ensures items { OnOk result (items.new.items ≡ items.old.items ++ keyframe_items sender_ssrc ssrc self.now) }
        ensures len { OnOk result (deque_len items.new ≡ deque_len items.old + one_of self.now.keyframe) }
        ensures cause { OnErr result (0 < one_of self.now.keyframe) }
    {
        match self.keyframe {
            Some(KeyframeRequestKind::Pli) => {
                items.push_back(Rtcp::Pli(Pli { sender_ssrc, ssrc }))?;
            }
            Some(KeyframeRequestKind::Fir) => {
                let mut reports = ReportList::new();
                reports.push(FirEntry {
                    ssrc,
                    seq_no: self.fir_number,
                });
                items.push_back(Rtcp::Fir(Fir {
                    sender_ssrc,
                    reports,
                }))?;
            }
            None => {}
        }
        Ok(())
    }

    /// Puts the items that ask the source of an SSRC behind the others: for a key frame, then for a
    /// rate.
    pub(crate) fn push_items(
        &self,
        alloc: Global,
        sender_ssrc: Ssrc,
        ssrc: Ssrc,
        items: &mut VecDeque<Rtcp>,
    ) -> Result<(), AllocError>
        ensures items { OnOk result (items.new.items ≡ items.old.items ++ request_items sender_ssrc ssrc self.now) }
        ensures len { OnOk result (deque_len items.new ≡ deque_len items.old + request_count self.now) }
        ensures cause { OnErr result (0 < request_count self.now) }
    {
        self.push_keyframe(sender_ssrc, ssrc, items)?;
        let Some(bitrate) = self.bitrate else {
            return Ok(());
        };
        let mut ssrcs = Listed::new(alloc);
        ssrcs.push(ssrc)?;
        items.push_back(Rtcp::Remb(Remb {
            sender_ssrc,
            bitrate: Bitrate::bps(bitrate.as_u64()),
            ssrcs,
        }))?;
        Ok(())
    }
}
