//! Laws of what is read and written.
ghost use Rattle.twcc_core.specs.Laws.{FeedbackReadsBack, FeedbackIsWhole};
ghost use Rattle.twcc_core.specs.Times.{ReportsTellArrivals, ReportsAreNone};
ghost use Rattle.twcc_core.specs.Sending.{RoundTripIsOfTheGreatest, ReportsComeBack};

use rtp_base::widens_to_itself;

/// Written feedback is read again as it was.
#[tactic(auto, using(crate::proofs::ReadBack::twcc_again))]
pub fn feedback_reads_back()
    ensures { FeedbackReadsBack }
{}

/// Written feedback has whole words, and fits an item of RTCP.
pub fn feedback_is_whole()
    ensures { FeedbackIsWhole }
{}

/// A report that was built, written and read again tells which numbers came, from the lowest
/// unreported on, and when, as the wire holds it.
pub fn reports_tell_arrivals()
    ensures { ReportsTellArrivals }
{}

/// There is no report exactly where nothing is unreported or fewer than 24 bytes are left.
pub fn reports_are_none()
    ensures { ReportsAreNone }
{}

/// There is no round trip exactly where none of the packets came; and one is that of a packet that
/// came, whose number is at least that of each other that came.
pub fn round_trip_is_of_the_greatest()
    ensures { RoundTripIsOfTheGreatest }
{}

/// A report that was built, written, read again and taken in tells, of the packets sent, which came
/// and when, as the wire holds it.
pub fn reports_come_back()
    ensures { ReportsComeBack }
{
    widens_to_itself();
}
