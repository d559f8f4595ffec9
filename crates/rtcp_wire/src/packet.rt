//! Datagrams of RTCP items (RFC 3550 section 6.1), also of reduced size (RFC 5506).
ghost use Rattle.std.specs.Prelude.{◌≡◌, ◌<◌, ◌≤◌, ◌++◌, ℕ, List, length, take, drop, IfOk, OnOk, OnErr};
ghost use Rattle.std.specs.Vec.{vec_len, vec_capacity};
ghost use Rattle.std.specs.Option.{option_map};
ghost use Rattle.std.specs.List.{flat_map, AllByRecursion};
ghost use Rattle.rtcp_wire.specs.Items.{item_or_short, goes_on, said};

use crate::extended::{read_extended_report, write_extended_report};
use crate::feedback::{AppSpecificFeedback, read_app_feedback, write_app_feedback};
use crate::frame::{Frame, first_frame};
use crate::kind::Kind;
use crate::nack::{Nack, read_nack, write_nack};
use crate::remb::{Remb, is_named_remb, read_remb, write_remb};
use crate::report::{
    SENDER_INFO_LEN, read_receiver_report, read_sender_report, write_receiver_report,
    write_sender_report,
};
use crate::request::{Fir, Pli, read_fir, read_pli, write_fir, write_pli};
use crate::row::rows_len;
use crate::source::{read_descriptions, read_goodbye, write_descriptions, write_goodbye};
use rtcp_items::{Descriptions, ExtendedReport, Goodbye, ReceiverReport, SenderReport};
use rtp_base::{MAX_REPORTS, RTP_VERSION};
use std::alloc::{AllocError, Global};
use std::collections::VecDeque;
use std::mem;
use twcc_core::{Twcc, read_twcc, twcc_len, write_twcc};

/// The packet type of a sender report (RFC 3550 section 6.4.1).
pub const SENDER_REPORT_TYPE: u8 = 200;

/// The packet type of a receiver report (RFC 3550 section 6.4.2).
pub const RECEIVER_REPORT_TYPE: u8 = 201;

/// The packet type of descriptions of sources (RFC 3550 section 6.5).
pub const SOURCE_DESCRIPTION_TYPE: u8 = 202;

/// The packet type of a goodbye (RFC 3550 section 6.6).
pub const GOODBYE_TYPE: u8 = 203;

/// The packet type of transport layer feedback (RFC 4585 section 6.1).
pub const TRANSPORT_FEEDBACK_TYPE: u8 = 205;

/// The packet type of payload-specific feedback (RFC 4585 section 6.1).
pub const PAYLOAD_FEEDBACK_TYPE: u8 = 206;

/// The packet type of an extended report (RFC 3611 section 2).
pub const EXTENDED_REPORT_TYPE: u8 = 207;

/// The format of transport layer feedback on packets that are missing (RFC 4585 section 6.2.1).
pub const NACK_FORMAT: u8 = 1;

/// The format of transport-wide feedback
/// (draft-holmer-rmcat-transport-wide-cc-extensions-01 section 3.1).
pub const TWCC_FORMAT: u8 = 15;

/// The format of payload-specific feedback on a picture that was lost (RFC 4585 section 6.3.1).
pub const PLI_FORMAT: u8 = 1;

/// The format of a request for a picture that stands alone (RFC 5104 section 4.3.1.1).
pub const FIR_FORMAT: u8 = 4;

/// The format of feedback of an application (RFC 4585 section 6.4).
pub const APPLICATION_FORMAT: u8 = 15;

/// An item of an RTCP datagram.
#[derive(Debug, PartialEq, Eq, Drop)]
pub enum Rtcp {
    SenderReport(SenderReport),
    ReceiverReport(ReceiverReport),
    SourceDescription(Descriptions),
    Goodbye(Goodbye),
    ExtendedReport(ExtendedReport),
    Nack(Nack),
    Pli(Pli),
    Fir(Fir),
    Twcc(Twcc),
    Remb(Remb),
    AppSpecificFeedback(AppSpecificFeedback),
}

// Makes room for one more item: in an empty list for three, since most datagrams have no more.
#[inline]
fn make_room(items: &mut Vec<Rtcp>) -> Result<(), AllocError>
    ensures items { items.new.items ≡ items.old.items }
    ensures room { OnOk result (vec_len items.new < vec_capacity items.new) }
{
    if items.is_empty() {
        items.reserve_exact(3)
    } else {
        items.reserve(1)
    }
}

// Adds an item, and says that reading goes on, unless its bytes were too short for its fields.
fn add<T: Kind>(items: &mut Vec<Rtcp>, item: Option<T>) -> Result<bool, AllocError>
    ensures on { IfOk result (λ on. on ≡ goes_on (item_or_short T.item_of item)) }
    ensures items { OnOk result (items.new.items ≡ items.old.items ++ said (item_or_short T.item_of item)) }
    ensures err { OnErr result (items.new.items ≡ items.old.items) }
{
    match item {
        Some(item) => {
            make_room(items)?;
            items.push_reserved(item.into_item());
            Ok(true)
        }
        None => Ok(false),
    }
}

impl Rtcp {
    ghost use Rattle.rtcp_wire.specs.Items.{goes_on, said, reading_of, transport_feedback_of, payload_feedback_of, application_of, item_at, added_of, rest_of, items_of, items_within};
    ghost use Rattle.rtcp_wire.specs.Texts.{IsWritable, CountFits, text_of, body_of, count_of, kind_of, fitting};
    ghost use Rattle.rtp_base.specs.Wire.{Puts};
    ghost use Rattle.rtcp_wire.specs.Wire.{LeavesRest};
    ghost use Rattle.rtcp_wire.specs.Remb.{is_remb};

    /// Reads the items of a datagram, in order, and adds them to a list. Reading stops at an item
    /// whose version is not 2, whose length runs past the end or that is too short for its fields;
    /// unknown types and formats are passed over. Without memory some items at the front were
    /// added.
    pub fn read_packet(
        alloc: Global,
        bytes: &[u8],
        items: &mut VecDeque<Rtcp>,
    ) -> Result<(), AllocError>
        ensures ok { OnOk result (items.new.items ≡ items.old.items ++ items_of bytes.now) }
        ensures err { OnErr result ((n : ℕ) × (items.new.items ≡ items.old.items ++ take n (items_of bytes.now))) }
    {
        let mut list = Vec::from(mem::replace(items, VecDeque::new(alloc)));
        let end = Rtcp::read_items(alloc, bytes, &mut list);
        *items = VecDeque::from(list);
        end
    }

    // Reads the items of a datagram, in order, and adds them to a list.
    fn read_items(alloc: Global, bytes: &[u8], items: &mut Vec<Rtcp>) -> Result<(), AllocError>
        ensures ok { OnOk result (items.new.items ≡ items.old.items ++ items_of bytes.now) }
        ensures err { OnErr result ((n : ℕ) × (items.new.items ≡ items.old.items ++ take n (items_of bytes.now))) }
    {
        let mut rest = bytes;
        for _ in 0..bytes.len() / 4 {
            match Rtcp::read_first(alloc, rest, items) {
                Ok(Some(after)) => rest = after,
                Ok(None) => return Ok(()),
                Err(error) => return Err(error),
            }
        }
        Ok(())
    }

    // Reads the item at the front, and gives what follows it, or None where reading stops.
    #[tactic(auto, unfolding(crate::specs::Items::item_at))]
    fn read_first<'a>(
        alloc: Global,
        bytes: &'a [u8],
        items: &mut Vec<Rtcp>,
    ) -> Result<Option<&'a [u8]>, AllocError>
        ensures rest { IfOk result (λ next. option_map (λ r. r.now) next ≡ rest_of (item_at bytes.now)) }
        ensures items { OnOk result (items.new.items ≡ items.old.items ++ added_of (item_at bytes.now)) }
        ensures err { OnErr result (items.new.items ≡ items.old.items) }
    {
        let Some(frame) = first_frame(bytes) else {
            return Ok(None);
        };
        if Rtcp::read_item(alloc, &frame, items)? {
            Ok(Some(frame.rest))
        } else {
            Ok(None)
        }
    }

    // Adds the item, if its type and format are known, and says whether its bytes are long enough
    // for it.
    #[tactic(auto, unfolding(crate::specs::Items::reading_of))]
    fn read_item(
        alloc: Global,
        frame: &Frame<'_>,
        items: &mut Vec<Rtcp>,
    ) -> Result<bool, AllocError>
        requires { frame.now.count ≤ MAX_REPORTS }
        ensures on { IfOk result (λ on. on ≡ goes_on (reading_of frame.now.kind frame.now.count frame.now.body.now)) }
        ensures items { OnOk result (items.new.items ≡ items.old.items ++ said (reading_of frame.now.kind frame.now.count frame.now.body.now)) }
        ensures err { OnErr result (items.new.items ≡ items.old.items) }
    {
        let (count, body) = (frame.count, frame.body);
        match frame.kind {
            SENDER_REPORT_TYPE => add(items, read_sender_report(alloc, count, body)?),
            RECEIVER_REPORT_TYPE => add(items, read_receiver_report(alloc, count, body)?),
            SOURCE_DESCRIPTION_TYPE => add(items, read_descriptions(alloc, count, body)?),
            GOODBYE_TYPE => add(items, read_goodbye(count, body)),
            TRANSPORT_FEEDBACK_TYPE => Rtcp::read_transport_feedback(alloc, count, body, items),
            PAYLOAD_FEEDBACK_TYPE => Rtcp::read_payload_feedback(alloc, count, body, items),
            EXTENDED_REPORT_TYPE => add(items, read_extended_report(alloc, body)?),
            _ => Ok(true),
        }
    }

    #[tactic(auto, unfolding(crate::specs::Items::transport_feedback_of))]
    fn read_transport_feedback(
        alloc: Global,
        format: u8,
        body: &[u8],
        items: &mut Vec<Rtcp>,
    ) -> Result<bool, AllocError>
        ensures on { IfOk result (λ on. on ≡ goes_on (transport_feedback_of format body.now)) }
        ensures items { OnOk result (items.new.items ≡ items.old.items ++ said (transport_feedback_of format body.now)) }
        ensures err { OnErr result (items.new.items ≡ items.old.items) }
    {
        match format {
            NACK_FORMAT => add(items, read_nack(body)),
            TWCC_FORMAT => add(items, read_twcc(alloc, body)?),
            _ => Ok(true),
        }
    }

    #[tactic(auto, unfolding(crate::specs::Items::payload_feedback_of))]
    fn read_payload_feedback(
        alloc: Global,
        format: u8,
        body: &[u8],
        items: &mut Vec<Rtcp>,
    ) -> Result<bool, AllocError>
        ensures on { IfOk result (λ on. on ≡ goes_on (payload_feedback_of format body.now)) }
        ensures items { OnOk result (items.new.items ≡ items.old.items ++ said (payload_feedback_of format body.now)) }
        ensures err { OnErr result (items.new.items ≡ items.old.items) }
    {
        match format {
            PLI_FORMAT => add(items, read_pli(body)),
            FIR_FORMAT => add(items, read_fir(body)),
            APPLICATION_FORMAT => Rtcp::read_application(alloc, body, items),
            _ => Ok(true),
        }
    }

    fn read_application(
        alloc: Global,
        body: &[u8],
        items: &mut Vec<Rtcp>,
    ) -> Result<bool, AllocError>
        ensures on { IfOk result (λ on. on ≡ goes_on (application_of (is_remb body.now) body.now)) }
        ensures items { OnOk result (items.new.items ≡ items.old.items ++ said (application_of (is_remb body.now) body.now)) }
        ensures err { OnErr result (items.new.items ≡ items.old.items) }
    {
        if is_named_remb(body) {
            add(items, read_remb(alloc, body)?)
        } else {
            add(items, read_app_feedback(alloc, body)?)
        }
    }

    /// Writes items, whole and in order, while they fit, and takes them off the list. The answer is
    /// how many bytes were written; what stands behind them stays. Counts and lengths fit their
    /// fields, so a source's texts have at most 255 bytes; none of its items has the type 0, which
    /// ends their list; and bodies have whole words.
    pub fn write_packet(items: &mut VecDeque<Rtcp>, out: &mut [u8]) -> usize
        requires { AllByRecursion IsWritable items.old.items }
        ensures count { result ≡ length (flat_map text_of (take (fitting (length out.old) items.old.items) items.old.items)) }
        ensures bytes { take result out.new ≡ flat_map text_of (take (fitting (length out.old) items.old.items) items.old.items) }
        ensures behind { drop result out.new ≡ drop result out.old }
        ensures within { result ≤ length out.old }
        ensures left { items.new.items ≡ drop (fitting (length out.old) items.old.items) items.old.items }
    {
        let mut at = 0;
        for _ in 0..items.len() {
            let Some(item) = items.front() else {
                return at;
            };
            match item.write(out, at) {
                Some(end) => at = end,
                None => return at,
            }
            items.pop_front();
        }
        at
    }

    // Writes the item at a place, and says where it ends, or None where there is no room for it.
    #[tactic(auto, unfolding(crate::specs::Texts::text_of))]
    fn write(&self, out: &mut [u8], at: usize) -> Option<usize>
        requires { IsWritable self.now }
        ensures text { Puts out.old at (text_of self.now) out.new result }
        ensures behind { LeavesRest out.old out.new result }
    {
        let len = 4 + self.body_len();
        if out.len() < at || out.len() - at < len {
            return None;
        }
        let end = at + len;
        self.fill(&mut out[at..end]);
        Some(end)
    }

    // Writes the item into room that has its length.
    #[tactic(auto, unfolding(crate::specs::Texts::text_of), using(crate::proofs::Writing::is_filled))]
    fn fill(&self, room: &mut [u8])
        requires writable { IsWritable self.now }
        requires len { length room.old ≡ length (text_of self.now) }
        ensures { room.new ≡ text_of self.now }
    {
        let (head, body) = room.split_at_mut(4);
        let words = ((body.len() / 4) as u16).to_be_bytes();
        head.copy_from_slice(&[
            64 * RTP_VERSION + self.count(),
            self.kind(),
            words[0],
            words[1],
        ]);
        let _end = self.write_body(body);
    }

    // How many bytes stand behind the header.
    #[tactic(auto, unfolding(crate::specs::Reports::sender_report_body, crate::specs::Reports::sender_info_text, crate::specs::Reports::receiver_report_body, crate::specs::Reports::goodbye_body, crate::specs::Descriptions::descriptions_body, crate::specs::Extended::extended_report_body, crate::specs::Feedback::nack_body, crate::specs::Feedback::pli_body, crate::specs::Feedback::fir_body, crate::specs::Feedback::app_feedback_body, crate::specs::Remb::remb_body))]
    fn body_len(&self) -> usize
        requires { IsWritable self.now }
        ensures { result ≡ length (body_of self.now) }
    {
        match self {
            Rtcp::SenderReport(report) => SENDER_INFO_LEN + rows_len(report.reports.as_slice()),
            Rtcp::ReceiverReport(report) => 4 + rows_len(report.reports.as_slice()),
            Rtcp::SourceDescription(described) => rows_len(described.reports.as_slice()),
            Rtcp::Goodbye(goodbye) => rows_len(goodbye.reports.as_slice()),
            Rtcp::ExtendedReport(report) => 4 + rows_len(report.blocks.as_slice()),
            Rtcp::Nack(nack) => 8 + rows_len(nack.reports.as_slice()),
            Rtcp::Pli(_) => 8,
            Rtcp::Fir(fir) => 8 + rows_len(fir.reports.as_slice()),
            Rtcp::Twcc(twcc) => twcc_len(twcc),
            Rtcp::Remb(remb) => 16 + rows_len(remb.ssrcs.as_slice()),
            Rtcp::AppSpecificFeedback(feedback) => 8 + feedback.payload.len(),
        }
    }

    fn write_body(&self, out: &mut [u8]) -> Option<usize>
        requires { CountFits self.now }
        ensures { Puts out.old 0 (body_of self.now) out.new result }
    {
        match self {
            Rtcp::SenderReport(report) => write_sender_report(report, out),
            Rtcp::ReceiverReport(report) => write_receiver_report(report, out),
            Rtcp::SourceDescription(described) => write_descriptions(described, out),
            Rtcp::Goodbye(goodbye) => write_goodbye(goodbye, out),
            Rtcp::ExtendedReport(report) => write_extended_report(report, out),
            Rtcp::Nack(nack) => write_nack(nack, out),
            Rtcp::Pli(pli) => write_pli(pli, out),
            Rtcp::Fir(fir) => write_fir(fir, out),
            Rtcp::Twcc(twcc) => write_twcc(twcc, out),
            Rtcp::Remb(remb) => write_remb(remb, out),
            Rtcp::AppSpecificFeedback(feedback) => write_app_feedback(feedback, out),
        }
    }

    fn kind(&self) -> u8
        ensures { result ≡ kind_of self.now }
    {
        match self {
            Rtcp::SenderReport(_) => SENDER_REPORT_TYPE,
            Rtcp::ReceiverReport(_) => RECEIVER_REPORT_TYPE,
            Rtcp::SourceDescription(_) => SOURCE_DESCRIPTION_TYPE,
            Rtcp::Goodbye(_) => GOODBYE_TYPE,
            Rtcp::ExtendedReport(_) => EXTENDED_REPORT_TYPE,
            Rtcp::Nack(_) | Rtcp::Twcc(_) => TRANSPORT_FEEDBACK_TYPE,
            Rtcp::Pli(_) | Rtcp::Fir(_) | Rtcp::Remb(_) => PAYLOAD_FEEDBACK_TYPE,
            Rtcp::AppSpecificFeedback(_) => PAYLOAD_FEEDBACK_TYPE,
        }
    }

    fn count(&self) -> u8
        requires { count_of self.now ≤ MAX_REPORTS }
        ensures { result ≡ count_of self.now }
    {
        match self {
            Rtcp::SenderReport(report) => report.reports.as_slice().len() as u8,
            Rtcp::ReceiverReport(report) => report.reports.as_slice().len() as u8,
            Rtcp::SourceDescription(described) => described.reports.as_slice().len() as u8,
            Rtcp::Goodbye(goodbye) => goodbye.reports.len() as u8,
            Rtcp::ExtendedReport(_) => 0,
            Rtcp::Nack(_) => NACK_FORMAT,
            Rtcp::Pli(_) => PLI_FORMAT,
            Rtcp::Fir(_) => FIR_FORMAT,
            Rtcp::Twcc(_) => TWCC_FORMAT,
            Rtcp::Remb(_) | Rtcp::AppSpecificFeedback(_) => APPLICATION_FORMAT,
        }
    }
}
