//! What receivers report as lost of an outgoing stream, since it was last looked at.
ghost use Rattle.std.specs.Prelude.{◌≡◌, ◌*◌, ◌<◌, ◌≤◌, [], OnOk, OnErr, IfSome, position, nat_lt};
ghost use Rattle.report_core.specs.Loss.{
  loss_told,
  with_loss,
  begun_at,
  and_weighed,
  weighed_of,
  loss_of,
  last_of,
  share_of,
};

use rtp_base::{ReceptionReport, SeqNo, widen32};
use std::alloc::{AllocError, Global};
use std::marker::Model;
use twcc_core::Share;

/// What a receiver reported as lost.
#[derive(Clone, Copy, Debug, PartialEq, Eq)]
pub struct ReportedLoss {
    /// The greatest number that it had received.
    pub number: u64,
    /// The share that was lost since its report before, in 256ths.
    pub fraction_lost: u8,
}

/// Losses, each weighed with the numbers that it covers.
#[derive(Clone, Copy, Debug, PartialEq, Eq)]
struct Weighed {
    // The number up to which losses are weighed.
    number: u64,
    // The sum of the shares, each times the numbers that it covers, at most 2^64 - 1.
    lost: u64,
    // The sum of the numbers covered, at most 2^64 - 1.
    covered: u64,
}

impl Weighed {
    /// Nothing is weighed up to a number.
    fn new(number: u64) -> Self
        ensures { result ≡ begun_at number }
    {
        Weighed {
            number,
            lost: 0,
            covered: 0,
        }
    }

    /// And a loss, which covers the numbers since those that are weighed.
    fn and(self, report: &ReportedLoss) -> Self
        ensures weighed { result ≡ and_weighed self report.now }
        ensures bounded { self.lost ≤ 255 * self.covered → result.lost ≤ 255 * result.covered }
    {
        let covered = report.number.saturating_sub(self.number);
        let lost = covered.saturating_mul(u64::from(report.fraction_lost));
        Weighed {
            number: report.number,
            lost: self.lost.saturating_add(lost),
            covered: self.covered.saturating_add(covered),
        }
    }

    /// The share of the numbers covered that was lost, None where none was covered. A loss of 255
    /// is all.
    fn share(self) -> Option<Share>
        requires { self.lost ≤ 255 * self.covered }
        ensures share { result ≡ share_of self }
        ensures within { IfSome result (λ s. (s.missing ≤ s.total) × (0 < s.total)) }
    {
        if self.covered == 0 {
            return None;
        }
        Some(Share {
            missing: self.lost,
            total: self.covered.saturating_mul(255),
        })
    }
}

/// Weighs losses one after another, each with the numbers since the one before.
fn weigh(reports: &[ReportedLoss], number: u64) -> Weighed
    ensures weighed { result ≡ weighed_of number reports.now }
    ensures bounded { result.lost ≤ 255 * result.covered }
{
    let mut weighed = Weighed::new(number);
    for report in reports {
        weighed = weighed.and(report);
    }
    weighed
}

/// What receivers reported as lost of an outgoing stream, in order of the numbers that they had
/// received. Contracts see the list of it. It grows with each report, until it is visited.
#[derive(Debug, Drop)]
pub struct LossLog {
    reports: Vec<ReportedLoss>,
}

impl Model for LossLog {
    ghost use Rattle.std.specs.Prelude.{List};
    ghost use Rattle.report_core.specs.declared.loss.ReportedLoss.{ReportedLoss};

    ghost Value = { List ReportedLoss };

    ghost view = { λ l. l.reports.items };
}

impl LossLog {
    /// No reports.
    pub fn new(alloc: Global) -> Self
        ensures { result ≡ [] }
    {
        LossLog {
            reports: Vec::new(alloc),
        }
    }

    /// Takes in the reception block of a receiver (RFC 3550 section 6.4.1), in order of the
    /// numbers, of equal ones behind. The number is widened by the last one sent. Without memory
    /// nothing changes. The time grows with the reports since the last visit.
    pub fn update_with_rr(
        &mut self,
        last_sent: SeqNo,
        block: &ReceptionReport,
    ) -> Result<(), AllocError>
        ensures ok { OnOk result (self.new ≡ with_loss (loss_told last_sent block.now) self.old) }
        ensures err { OnErr result (self.new ≡ self.old) }
    {
        let report = ReportedLoss {
            number: widen32(Some(last_sent.into()), block.max_seq),
            fraction_lost: block.fraction_lost,
        };
        match self.place_of(report.number) {
            Some(place) => self.reports.insert(place, report)?,
            None => self.reports.push(report)?,
        }
        Ok(())
    }

    /// The place of the first report of a greater number.
    fn place_of(&self, number: u64) -> Option<usize>
        ensures { result ≡ position (λ r. nat_lt number r.number) self.now }
    {
        self.reports
            .iter()
            .position(|report| number < report.number)
    }

    /// The share that was lost since the last visit, each report weighed with the numbers from the
    /// one before, or None where they are of one number. The last report stays, so that the next
    /// one can be weighed. The time grows with the reports since the last visit.
    pub fn visit(&mut self) -> Option<Share>
        ensures share { result ≡ loss_of self.old }
        ensures within { IfSome result (λ s. (s.missing ≤ s.total) × (0 < s.total)) }
        ensures after { self.new ≡ last_of self.old }
    {
        let count = self.reports.len();
        if count == 0 {
            return None;
        }
        let share = weigh(self.reports.as_slice(), self.reports[0].number).share();
        self.reports[0] = self.reports[count - 1];
        self.reports.truncate(1);
        share
    }
}
