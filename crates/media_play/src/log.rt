ghost use Rattle.std.specs.Prelude.{◌≡◌, ◌∷◌, ◌++◌, [], OnOk, OnErr, slice_get, length, false};
ghost use Rattle.std.specs.Option.{option_copied};
ghost use Rattle.media_model.specs.declared.entry.Entry.TheVariants as happening;
ghost use Rattle.media_model.specs.Entries.{datagrams};
ghost use Rattle.media_play.specs.Log.{is_seal, places, sealed_at};

use media_model::{Entry, Sealed, Side, Transcript};
use std::alloc::{AllocError, Global};
use std::marker::Model;

/// The entries so far, and where each side's sealed datagrams stand among them. Contracts see the
/// list of the entries.
#[derive(Drop)]
pub struct Log {
    transcript: Transcript,
    sealed_by_a: Vec<usize>,
    sealed_by_b: Vec<usize>,
}

impl Model for Log {
    ghost use Rattle.std.specs.Prelude.{List};
    ghost use Rattle.media_model.specs.declared.entry.Entry.{Entry};

    ghost Value = { List Entry };

    ghost use Rattle.std.specs.Prelude.{◌≡◌};
    ghost use Rattle.media_model.specs.declared.entry.Side.TheVariants.{A, B};
    ghost use Rattle.media_play.specs.Log.{places};

    ghost view = { λ l. l.transcript };

    ghost invariant = { λ l. (l.sealed_by_a.items ≡ places A l.transcript)
        × (l.sealed_by_b.items ≡ places B l.transcript) };
}

impl Log {
    pub fn new(alloc: Global) -> Self
        ensures { result ≡ [] }
    {
        Log {
            transcript: Transcript::new(alloc),
            sealed_by_a: Vec::new(alloc),
            sealed_by_b: Vec::new(alloc),
        }
    }

    pub fn len(&self) -> usize
        ensures { result ≡ length self.now }
    {
        self.transcript.entries().len()
    }

    pub fn entries(&self) -> &[Entry]
        ensures { result.now ≡ self.now }
    {
        self.transcript.entries()
    }

    /// Adds an entry that is no seal. Without memory nothing is added.
    pub fn push(&mut self, entry: Entry) -> Result<(), AllocError>
        requires { is_seal entry ≡ false }
        ensures ok { OnOk result (self.new ≡ self.old ++ entry ∷ []) }
        ensures err { OnErr result (self.new ≡ self.old) }
    {
        self.transcript.push(entry)
    }

    /// Adds a seal. Without memory nothing is added.
    pub fn push_sealed(&mut self, sealed: Sealed) -> Result<(), AllocError>
        ensures ok { OnOk result (self.new ≡ self.old ++ happening.Sealed sealed ∷ []) }
        ensures err { OnErr result (self.new ≡ self.old) }
    {
        let place = self.transcript.entries().len();
        match sealed.side {
            Side::A => push_both(
                &mut self.transcript,
                &mut self.sealed_by_a,
                Entry::Sealed(sealed),
                place,
            ),
            Side::B => push_both(
                &mut self.transcript,
                &mut self.sealed_by_b,
                Entry::Sealed(sealed),
                place,
            ),
        }
    }

    // The places of the entries by which a side sealed.
    fn places(&self, side: Side) -> &[usize]
        ensures { result.now ≡ places side self.now }
    {
        match side {
            Side::A => self.sealed_by_a.as_slice(),
            Side::B => self.sealed_by_b.as_slice(),
        }
    }

    fn place(&self, side: Side, k: usize) -> Option<usize>
        ensures { result ≡ slice_get (places side self.now) k }
    {
        self.places(side).get(k).copied()
    }

    /// The datagram that a side sealed as its `k`-th, counted from 0.
    pub fn datagram(&self, side: Side, k: usize) -> Option<&Sealed>
        ensures { option_copied result ≡ slice_get (datagrams side self.now) k }
    {
        match self.place(side, k) {
            Some(place) => sealed_at(self.transcript.entries(), place),
            None => None,
        }
    }

    pub fn into_transcript(self) -> Transcript
        ensures { result ≡ self }
    {
        self.transcript
    }
}

fn push_both(
    transcript: &mut Transcript,
    places: &mut Vec<usize>,
    entry: Entry,
    place: usize,
) -> Result<(), AllocError>
    ensures entry { OnOk result (transcript.new ≡ transcript.old ++ entry ∷ []) }
    ensures place { OnOk result (places.new.items ≡ places.old.items ++ place ∷ []) }
    ensures err { OnErr result ((transcript.new ≡ transcript.old)
        × (places.new.items ≡ places.old.items)) }
{
    places.push(place)?;
    match transcript.push(entry) {
        Ok(()) => Ok(()),
        Err(error) => {
            places.pop();
            Err(error)
        }
    }
}

// The seal that stands at a place.
fn sealed_at(entries: &[Entry], place: usize) -> Option<&Sealed>
    ensures { option_copied result ≡ sealed_at entries.now place }
{
    match entries.get(place)? {
        Entry::Sealed(sealed) => Some(sealed),
        _ => None,
    }
}
