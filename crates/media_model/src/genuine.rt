// Whether a run is genuine.
ghost use Rattle.std.specs.Prelude.{◌≡◌, ◌↔◌, ◌∷◌, ◌++◌, [], List, IfOk, OnOk, IsTrue};
ghost use Rattle.std.specs.Option.{option_copied};
ghost use Rattle.media_model.specs.declared.entry.Entry.{Entry as Happening};
ghost use Rattle.media_model.specs.Genuine.{is_genuine_after, is_genuine, IsGenuine};
ghost use Rattle.media_model.specs.Seals.{HasSeals, latest_of, HasLatest};

use crate::entry::{Entry, Side};
use crate::transcript::Transcript;
use rtp_wire::Kind;
use std::alloc::{AllocError, Global};
use std::collections::HashSet;

// A datagram that a side sealed.
#[derive(Clone, Copy, PartialEq, Eq, Hash)]
struct Seal<'a> {
    side: Side,
    kind: Kind,
    ssrc: u32,
    index: u64,
    bytes: &'a [u8],
}

impl Transcript {
    /// Whether each datagram that was opened had been sealed by the other side, under the same
    /// kind, SSRC and index, and is the one that came last to the side that opened it.
    pub fn genuine(&self, alloc: Global) -> Result<bool, AllocError>
        ensures value { IfOk result (λ b. b ≡ is_genuine self.now) }
        ensures meaning { IfOk result (λ b. IsTrue b ↔ IsGenuine self.now) }
    {
        is_genuine(alloc, self.entries())
    }
}

// The datagrams that came last to the two sides.
#[derive(Clone, Copy)]
struct Latest<'a> {
    a: Option<&'a [u8]>,
    b: Option<&'a [u8]>,
}

impl<'a> Latest<'a> {
    fn of(&self, side: Side) -> Option<&'a [u8]>
        ensures { option_copied result ≡ latest_of side self.now }
    {
        match side {
            Side::A => self.a,
            Side::B => self.b,
        }
    }

    // What came last after one entry more.
    fn after(self, entry: &'a Entry) -> Latest<'a>
        ensures { (before : List Happening) → HasLatest self.entry before
            → HasLatest result (before ++ entry.now ∷ []) }
    {
        match entry {
            Entry::Got(got) => match got.side {
                Side::A => Latest {
                    a: Some(got.bytes.as_slice()),
                    b: self.b,
                },
                Side::B => Latest {
                    a: self.a,
                    b: Some(got.bytes.as_slice()),
                },
            },
            _ => self,
        }
    }
}

// Adds the seal that an entry is.
fn add_seal<'a>(sealed: &mut HashSet<Seal<'a>>, entry: &'a Entry) -> Result<(), AllocError>
    ensures { OnOk result ((before : List Happening) → HasSeals sealed.old before
        → HasSeals sealed.new (before ++ entry.now ∷ [])) }
{
    if let Entry::Sealed(seal) = entry {
        sealed.insert(Seal {
            side: seal.side,
            kind: seal.kind,
            ssrc: u32::from(seal.ssrc),
            index: u64::from(seal.index),
            bytes: seal.bytes.as_slice(),
        })?;
    }
    Ok(())
}

// Whether an entry opens, if it opens anything, what the other side sealed and what came last.
fn is_sealed(sealed: &HashSet<Seal<'_>>, latest: &Latest<'_>, entry: &Entry) -> bool
    ensures { (before : List Happening) → HasSeals sealed.now before → HasLatest latest.now before
        → result ≡ is_genuine_after before entry.now }
{
    let Entry::Opened(opened) = entry else {
        return true;
    };
    let Some(bytes) = latest.of(opened.side) else {
        return false;
    };
    sealed.contains(&Seal {
        side: opened.side.peer(),
        kind: opened.kind,
        ssrc: u32::from(opened.ssrc),
        index: u64::from(opened.index),
        bytes,
    })
}

fn is_genuine(alloc: Global, entries: &[Entry]) -> Result<bool, AllocError>
    ensures { IfOk result (λ b. b ≡ is_genuine entries.now) }
{
    let mut sealed: HashSet<Seal<'_>> = HashSet::new(alloc);
    let mut latest = Latest { a: None, b: None };
    for entry in entries {
        if !is_sealed(&sealed, &latest, entry) {
            return Ok(false);
        }
        add_seal(&mut sealed, entry)?;
        latest = latest.after(entry);
    }
    Ok(true)
}
