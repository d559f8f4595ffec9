// Which setup lines may stand together, and in which order.
ghost use Rattle.std.specs.Prelude.{◌≡◌};
ghost use Rattle.std.specs.List.{list_any};
ghost use Rattle.media_script.specs.Order.{same_per, same_slot, is_free, same_name, is_met, same_sort, count, most, has_room};

use crate::setup_line::{Name, Per, Slot};

/// How many media lines a script may have: a choice.
pub const MOST_MEDIA: usize = 64;

/// How many stream lines a script may have: a choice.
pub const MOST_STREAMS: usize = 256;

fn is_same_per(a: &Per, b: &Per) -> bool
    ensures { result ≡ same_per a.now b.now }
{
    match (a, b) {
        (Per::Script, Per::Script) => true,
        (Per::Side(a), Per::Side(b)) => a == b,
        (Per::Ssrc(a), Per::Ssrc(b)) => a == b,
        _ => false,
    }
}

fn is_same_slot(a: &Slot, b: &Slot) -> bool
    ensures { result ≡ same_slot a.now b.now }
{
    a.word == b.word && is_same_per(&a.per, &b.per)
}

fn is_taken(taken: &[Slot], slot: &Slot) -> bool
    ensures { result ≡ list_any (same_slot slot.now) taken.now }
{
    taken.iter().any(|s| is_same_slot(slot, s))
}

/// Whether the slot is not among those that are taken.
pub fn is_free(taken: &[Slot], slot: Option<Slot>) -> bool
    ensures { result ≡ is_free taken.now slot }
{
    match slot {
        Some(slot) => !is_taken(taken, &slot),
        None => true,
    }
}

fn is_same_name(a: &Name, b: &Name) -> bool
    ensures { result ≡ same_name a.now b.now }
{
    match (a, b) {
        (Name::Media(a), Name::Media(b)) => a == b,
        (Name::Stream(a), Name::Stream(b)) => a == b,
        _ => false,
    }
}

fn is_known(known: &[Name], name: &Name) -> bool
    ensures { result ≡ list_any (same_name name.now) known.now }
{
    known.iter().any(|n| is_same_name(name, n))
}

/// Whether what is needed is known.
pub fn is_met(known: &[Name], need: Option<Name>) -> bool
    ensures { result ≡ is_met known.now need }
{
    match need {
        Some(name) => is_known(known, &name),
        None => true,
    }
}

fn is_same_sort(a: &Name, b: &Name) -> bool
    ensures { result ≡ same_sort a.now b.now }
{
    matches!(
        (a, b),
        (Name::Media(_), Name::Media(_)) | (Name::Stream(_), Name::Stream(_))
    )
}

fn count(known: &[Name], name: &Name) -> usize
    ensures { result ≡ count known.now name.now }
{
    known.iter().filter(|n| is_same_sort(name, n)).count()
}

// How many of its sort a script may have.
fn most(name: &Name) -> usize
    ensures { result ≡ most name.now }
{
    match name {
        Name::Media(_) => MOST_MEDIA,
        Name::Stream(_) => MOST_STREAMS,
    }
}

/// Whether one more of its sort may be known.
pub fn has_room(known: &[Name], given: Option<Name>) -> bool
    ensures { result ≡ has_room known.now given }
{
    match given {
        Some(name) => count(known, &name) < most(&name),
        None => true,
    }
}
