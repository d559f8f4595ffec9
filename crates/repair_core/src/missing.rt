ghost use Rattle.std.specs.Prelude.{◌≡◌, ℕ, ◌+◌, ◌<◌, ◌≤◌, ◌++◌, ◌∷◌, [], List, Option, Some, length};
ghost use Rattle.std.specs.Option.{ForSome};
ghost use Rattle.repair_core.specs.Entries.{entry_of, alone, with_bit, packed, IsPacking};

use rtp_base::{MAX_REPORTS, NackEntry, ReportList};

/// An entry of a NACK that is begun (RFC 4585 section 6.2.1): a missing number, and which of the
/// next 16 are missing too.
#[derive(Clone, Copy, Debug)]
pub struct Missing {
    pub first: u64,
    pub bits: u16,
}

impl Missing {
    ghost use Rattle.repair_core.specs.Entries.{entry_of, with_bit};

    pub fn entry(self) -> NackEntry
        ensures { result ≡ entry_of self }
    {
        NackEntry {
            pid: (self.first % 65536) as u16,
            blp: self.bits,
        }
    }

    fn and(self, number: u64) -> Missing
        requires above { self.first < number }
        requires near { number ≤ self.first + 16 }
        ensures { result ≡ with_bit self number }
    {
        Missing {
            first: self.first,
            bits: self.bits | 2u16.pow((number - self.first - 1) as u32),
        }
    }
}

/// Puts a missing number into the entry that is begun, or into the next, which it begins.
pub fn pack(begun: Option<Missing>, number: u64, reports: &mut ReportList<NackEntry>) -> Missing
    requires room { length reports.old < MAX_REPORTS }
    requires above { ForSome begun (λ m. m.first < number) }
    ensures packed { (ks : List ℕ) → reports.new ++ packed (Some result) ks ≡ reports.old ++ packed begun (number ∷ ks) }
    ensures packing { (low before : ℕ) → low ≤ number → IsPacking low before number begun (length reports.old) → IsPacking low before (number + 1) (Some result) (length reports.new) }
{
    match begun {
        Some(missing) => {
            if number - missing.first <= 16 {
                missing.and(number)
            } else {
                reports.push(missing.entry());
                Missing {
                    first: number,
                    bits: 0,
                }
            }
        }
        None => Missing {
            first: number,
            bits: 0,
        },
    }
}
