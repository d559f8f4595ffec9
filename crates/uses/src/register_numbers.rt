//! The numbers that came, and the request for those that are missing.
ghost use Rattle.std.specs.Prelude.{◌≡◌, ◌<◌, ◌≤◌, None, length};
ghost use Rattle.repair_core.specs.Entries.{packed};
ghost use Rattle.repair_core.specs.Rounds.{Heard, came, round, due, wait_of};

use media_units::Instant;
use repair_core::{GapWindow, MAX_ROUND_ENTRIES};
use rtp_base::{NUMBER_LIMIT, NackEntry, ReportList, SeqNo};

/// Takes a number that came, and asks for the missing ones that are due.
pub fn ask_for_missing<W: GapWindow>(
    window: &mut W,
    number: SeqNo,
    now: Instant,
) -> ReportList<NackEntry>
    requires { number < NUMBER_LIMIT }
    ensures entries { (past : Heard) → W.remembers window.old past
        → result ≡ packed None (due (came past number) now (wait_of None)) }
    ensures after { (past : Heard) → W.remembers window.old past
        → W.remembers window.new (round (came past number) now (wait_of None)) }
    ensures few { length result ≤ MAX_ROUND_ENTRIES }
{
    let mut reports = ReportList::new();
    window.update(number);
    window.nack_reports(now, None, &mut reports);
    reports
}
