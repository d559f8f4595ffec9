// The text of a run's log.
ghost use Rattle.std.specs.Prelude.{◌≡◌, ◌++◌, Some, IfOk, OnOk, string_bytes};
ghost use Rattle.pace_script.specs.Text.{wake_text, pad_text, entry_text, log_text, text_of};

use media_units::{DataSize, Instant};
use pace_core::{PaceEntry, PaceLog};
use rtp_base::Mid;
use std::alloc::{AllocError, Global};
use std::fmt;
use std::fmt::Write;

// A moment in nanoseconds, and - for none.
#[derive(Clone, Copy)]
struct Wake(Option<Instant>);

impl fmt::Display for Wake {
    ghost output = { λ w. Some (wake_text w.0) };

    fn fmt<W: fmt::Write>(&self, f: &mut fmt::Formatter<W>) -> fmt::Result {
        match self.0 {
            Some(moment) => {
                let nanos = moment.as_nanos();
                write!(f, "{nanos}")
            }
            None => write!(f, "-"),
        }
    }
}

fn put_padding(text: &mut String, asked: Option<(Mid, DataSize)>) -> Result<(), AllocError>
    ensures { OnOk result (string_bytes text.new ≡ string_bytes text.old ++ pad_text asked) }
{
    match asked {
        Some((mid, size)) => {
            let bytes = size.as_u64();
            writeln!(text, "pad {mid} {bytes}")
        }
        None => Ok(()),
    }
}

fn put_entry(text: &mut String, entry: &PaceEntry) -> Result<(), AllocError>
    ensures { OnOk result (string_bytes text.new ≡ string_bytes text.old ++ entry_text entry.now) }
{
    match entry {
        PaceEntry::Set => Ok(()),
        PaceEntry::Timed(asked) => put_padding(text, *asked),
        PaceEntry::Chose(mid) => writeln!(text, "chose {mid}"),
        PaceEntry::Idle(wake) => {
            let wake = Wake(*wake);
            writeln!(text, "none {wake}")
        }
        PaceEntry::Sent { bits, debt, rate } => {
            let debt = debt.as_billionths();
            let rate = rate.as_u64();
            writeln!(text, "sent {bits} debt={debt} rate={rate}")
        }
    }
}

/// The lines of a log, without a last line. Setting a rate, and a timeout that asks for no padding,
/// have none.
pub fn log_text(alloc: Global, log: &PaceLog) -> Result<String, AllocError>
    ensures { IfOk result (λ text. string_bytes text ≡ log_text log.now) }
{
    let mut text = String::new(alloc);
    for entry in log.as_slice() {
        put_entry(&mut text, entry)?;
    }
    Ok(text)
}

/// The text of a run that was played to its end.
pub fn write_pace_log(alloc: Global, log: &PaceLog) -> Result<String, AllocError>
    ensures { IfOk result (λ text. string_bytes text ≡ text_of log.now) }
{
    let mut text = log_text(alloc, log)?;
    text.push_str("end\n")?;
    Ok(text)
}
