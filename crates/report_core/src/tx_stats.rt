//! What is counted of an outgoing stream, and what its receivers report as lost.
ghost use Rattle.std.specs.Prelude.{◌≡◌, ◌*◌, ◌<◌, ◌≤◌, None, IsOk, OnOk, OnErr, IfSome};
ghost use Rattle.report_core.specs.Traffic.{more, with_packet};
ghost use Rattle.report_core.specs.Loss.{loss_told};
ghost use Rattle.report_core.specs.TxStats.{
  TxStats,
  begun,
  with_packet_sent,
  after_block,
  seen_of,
  after_seen,
};

use crate::{LossLog, StreamStats, Traffic};
use rtp_base::{ReceptionReport, SeqNo};
use std::alloc::{AllocError, Global};
use std::marker::Model;
use twcc_core::Share;

/// The statistics of an outgoing stream since it was made or they were started anew. Contracts see
/// a record of what was counted, of the repairs among it, and of the losses reported, where they
/// are kept.
#[derive(Drop)]
pub struct StreamTxStats {
    counted: StreamStats,
    resent: Traffic,
    losses: Option<LossLog>,
}

impl Model for StreamTxStats {
    ghost use Rattle.report_core.specs.TxStats.{TxStats};

    ghost Value = { TxStats };

    ghost view = { λ s. record { counted = s.counted; resent = s.resent; losses = s.losses } };
}

impl StreamTxStats {
    /// Nothing was counted. Losses are kept where statistics are enabled.
    pub fn new(alloc: Global, enable_stats: bool) -> Self
        ensures { result ≡ begun enable_stats }
    {
        StreamTxStats {
            counted: StreamStats::new(),
            resent: Traffic::new(),
            losses: if enable_stats {
                Some(LossLog::new(alloc))
            } else {
                None
            },
        }
    }

    /// What was counted. Constant time.
    pub fn counted(&self) -> StreamStats
        ensures { result ≡ self.now.counted }
    {
        self.counted
    }

    /// The repairs among what was counted. Constant time.
    pub fn resent(&self) -> Traffic
        ensures { result ≡ self.now.resent }
    {
        self.resent
    }

    /// Counts a packet with so many bytes of payload that was sent, a repair or not. Constant time.
    pub fn update_packet_counts(&mut self, bytes: usize, is_resend: bool)
        ensures { self.new ≡ with_packet_sent bytes is_resend self.old }
    {
        self.counted.update_packet_counts(bytes);
        if is_resend {
            self.resent.count(bytes);
        }
    }

    /// Counts a NACK item that came. Constant time.
    pub fn increase_nacks(&mut self)
        ensures { self.new ≡ record self.old {
          counted = record self.old.counted { nacks = more self.old.counted.nacks 1 };
        } }
    {
        self.counted.increase_nacks();
    }

    /// Counts a PLI item that came. Constant time.
    pub fn increase_plis(&mut self)
        ensures { self.new ≡ record self.old {
          counted = record self.old.counted { plis = more self.old.counted.plis 1 };
        } }
    {
        self.counted.increase_plis();
    }

    /// Counts a FIR entry that came. Constant time.
    pub fn increase_firs(&mut self)
        ensures { self.new ≡ record self.old {
          counted = record self.old.counted { firs = more self.old.counted.firs 1 };
        } }
    {
        self.counted.increase_firs();
    }

    /// Takes in the reception block of a receiver, where losses are kept. The number that it tells
    /// is widened by the last one sent. Without memory nothing changes. The time grows with the
    /// blocks since the last visit.
    pub fn update_with_rr(
        &mut self,
        last_sent: SeqNo,
        block: &ReceptionReport,
    ) -> Result<(), AllocError>
        ensures ok { OnOk result (self.new ≡ after_block (loss_told last_sent block.now) self.old) }
        ensures err { OnErr result (self.new ≡ self.old) }
        ensures unkept { self.old.losses ≡ None → IsOk result }
    {
        match &mut self.losses {
            Some(losses) => losses.update_with_rr(last_sent, block),
            None => Ok(()),
        }
    }

    /// The share lost since the last visit, as `LossLog::visit`. None also where losses are not
    /// kept, or no byte was sent; then nothing changes.
    pub fn visit_loss(&mut self) -> Option<Share>
        ensures share { result ≡ seen_of self.old }
        ensures within { IfSome result (λ s. (s.missing ≤ s.total) × (0 < s.total)) }
        ensures after { self.new ≡ after_seen self.old }
    {
        if self.counted.traffic.bytes == 0 {
            return None;
        }
        match &mut self.losses {
            Some(losses) => losses.visit(),
            None => None,
        }
    }
}
