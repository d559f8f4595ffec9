//! Packets that are missing (RFC 4585 section 6.2.1).
ghost use Rattle.std.specs.Prelude.{◌≡◌};
ghost use Rattle.rtp_base.specs.Wire.{Puts};
ghost use Rattle.rtcp_wire.specs.Feedback.{nack_of, nack_body};

use crate::row::{Put, Row, read_rows, write_rows};
use rtp_base::wire::{half, put, word};
use rtp_base::{MAX_REPORTS, NackEntry, ReportList, Ssrc};

/// Packets of a source that are missing (RFC 4585 section 6.2.1).
#[derive(Debug, PartialEq, Eq, Drop)]
pub struct Nack {
    /// Who misses them.
    pub sender_ssrc: Ssrc,
    /// The source whose packets are missing.
    pub ssrc: Ssrc,
    /// Which are missing.
    pub reports: ReportList<NackEntry>,
}

impl Row for NackEntry {
    ghost use Rattle.rtcp_wire.specs.Rows.{nack_entry_at, nack_entry_text};

    ghost size = { 4 };

    ghost row_of = { nack_entry_at };

    fn size() -> usize {
        4
    }

    #[tactic(auto, unfolding(crate::specs::Rows::nack_entry_at))]
    fn read(bytes: &[u8]) -> Self {
        NackEntry {
            pid: half(bytes, 0),
            blp: half(bytes, 2),
        }
    }
}

impl Put for NackEntry {
    ghost use Rattle.rtcp_wire.specs.Rows.{nack_entry_at, nack_entry_text};

    ghost text_of = { nack_entry_text };

    #[tactic(auto, unfolding(crate::specs::Rows::nack_entry_text))]
    fn len(&self) -> usize {
        4
    }

    #[tactic(auto, unfolding(crate::specs::Rows::nack_entry_text))]
    fn write(&self, out: &mut [u8], at: usize) -> Option<usize> {
        let at = put(out, at, &self.pid.to_be_bytes())?;
        put(out, at, &self.blp.to_be_bytes())
    }
}

#[tactic(auto, unfolding(crate::specs::Feedback::nack_of))]
pub(crate) fn read_nack(body: &[u8]) -> Option<Nack>
    ensures { result ≡ nack_of body.now }
{
    if body.len() < 8 || body.len() % 4 != 0 {
        return None;
    }
    let (_, rows) = body.split_at(8);
    let count = (rows.len() / 4).min(MAX_REPORTS);
    Some(Nack {
        sender_ssrc: word(body, 0).into(),
        ssrc: word(body, 4).into(),
        reports: read_rows(rows, count),
    })
}

#[tactic(auto, unfolding(crate::specs::Feedback::nack_body))]
pub(crate) fn write_nack(nack: &Nack, out: &mut [u8]) -> Option<usize>
    ensures { Puts out.old 0 (nack_body nack.now) out.new result }
{
    let words: [u32; 2] = [nack.sender_ssrc.into(), nack.ssrc.into()];
    let at = write_rows(&words, out, 0)?;
    write_rows(nack.reports.as_slice(), out, at)
}
