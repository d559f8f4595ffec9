//! Requests for a picture that stands alone (RFC 4585 section 6.3.1, RFC 5104 section 4.3.1).
ghost use Rattle.std.specs.Prelude.{◌≡◌};
ghost use Rattle.rtp_base.specs.Wire.{Puts};
ghost use Rattle.rtcp_wire.specs.Feedback.{pli_of, pli_body, fir_of, fir_body};

use crate::row::{Put, Row, read_rows, write_rows};
use rtp_base::wire::{put, word};
use rtp_base::{MAX_REPORTS, ReportList, Ssrc};

/// A picture was lost (RFC 4585 section 6.3.1).
#[derive(Clone, Copy, Debug, PartialEq, Eq)]
pub struct Pli {
    /// Who lost it.
    pub sender_ssrc: Ssrc,
    /// The source of the picture.
    pub ssrc: Ssrc,
}

#[tactic(auto, unfolding(crate::specs::Feedback::pli_of))]
pub(crate) fn read_pli(body: &[u8]) -> Option<Pli>
    ensures { result ≡ pli_of body.now }
{
    if body.len() < 8 {
        return None;
    }
    Some(Pli {
        sender_ssrc: word(body, 0).into(),
        ssrc: word(body, 4).into(),
    })
}

#[tactic(auto, unfolding(crate::specs::Feedback::pli_body))]
pub(crate) fn write_pli(pli: &Pli, out: &mut [u8]) -> Option<usize>
    ensures { Puts out.old 0 (pli_body pli.now) out.new result }
{
    let words: [u32; 2] = [pli.sender_ssrc.into(), pli.ssrc.into()];
    write_rows(&words, out, 0)
}

/// Pictures that stand alone are asked for (RFC 5104 section 4.3.1).
#[derive(Debug, PartialEq, Eq, Drop)]
pub struct Fir {
    /// Who asks for them.
    pub sender_ssrc: Ssrc,
    /// The sources that are asked.
    pub reports: ReportList<FirEntry>,
}

/// A source that is asked for a picture.
#[derive(Clone, Copy, Debug, Default, PartialEq, Eq)]
pub struct FirEntry {
    /// The source of the picture.
    pub ssrc: Ssrc,
    /// The number of the request, modulo 256. A repeated request has the number of the first.
    pub seq_no: u8,
}

impl Row for FirEntry {
    ghost use Rattle.rtcp_wire.specs.Rows.{fir_entry_at, fir_entry_text};

    ghost size = { 8 };

    ghost row_of = { fir_entry_at };

    fn size() -> usize {
        8
    }

    #[tactic(auto, unfolding(crate::specs::Rows::fir_entry_at))]
    fn read(bytes: &[u8]) -> Self {
        FirEntry {
            ssrc: word(bytes, 0).into(),
            seq_no: bytes[4],
        }
    }
}

impl Put for FirEntry {
    ghost use Rattle.rtcp_wire.specs.Rows.{fir_entry_at, fir_entry_text};

    ghost text_of = { fir_entry_text };

    #[tactic(auto, unfolding(crate::specs::Rows::fir_entry_text))]
    fn len(&self) -> usize {
        8
    }

    #[tactic(auto, unfolding(crate::specs::Rows::fir_entry_text))]
    fn write(&self, out: &mut [u8], at: usize) -> Option<usize> {
        let at = put(out, at, &u32::from(self.ssrc).to_be_bytes())?;
        put(out, at, &[self.seq_no, 0, 0, 0])
    }
}

#[tactic(auto, unfolding(crate::specs::Feedback::fir_of))]
pub(crate) fn read_fir(body: &[u8]) -> Option<Fir>
    ensures { result ≡ fir_of body.now }
{
    if body.len() < 8 || body.len() % 8 != 0 {
        return None;
    }
    let (_, rows) = body.split_at(8);
    let count = (rows.len() / 8).min(MAX_REPORTS);
    Some(Fir {
        sender_ssrc: word(body, 0).into(),
        reports: read_rows(rows, count),
    })
}

#[tactic(auto, unfolding(crate::specs::Feedback::fir_body))]
pub(crate) fn write_fir(fir: &Fir, out: &mut [u8]) -> Option<usize>
    ensures { Puts out.old 0 (fir_body fir.now) out.new result }
{
    let words: [u32; 2] = [fir.sender_ssrc.into(), 0];
    let at = write_rows(&words, out, 0)?;
    write_rows(fir.reports.as_slice(), out, at)
}
