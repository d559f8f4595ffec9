ghost use Rattle.std.specs.Prelude.{◌≡◌, ◌==◌, ◌||◌, not, ◌<◌, ◌∷◌, ◌++◌, ℕ, [], None, Some, length, take, slice_get, filter, IfSome, OnOk, OnErr, is_some};
ghost use Rattle.std.specs.Map.{values_of};
ghost use Rattle.std.specs.Map.Iter.{ShowsInOrder, deref_pair};
ghost use Rattle.stream_core.specs.Tables.{place_of, with_new, without_key, without_value, renamed};
ghost use Rattle.stream_core.specs.Known.{is_kept};
ghost use Rattle.stream_core.specs.Removing.{is_of_other, receives_for, sends_for, sent_without, kept_without};

use crate::stream_rx::StreamRx;
use crate::stream_tx::StreamTx;
use indexmap::IndexMap;
use indexmap::map::Iter;
use mapping_core::{MappedStreams, RepairsChange};
use repair_core::GapWindow;
use rtp_base::{Mid, Ssrc};
use std::alloc::{AllocError, Global};
use std::marker::Model;

/// Streams, each under its SSRC, in order of declaration. Contracts see the list of SSRCs and
/// streams.
#[derive(Drop)]
pub struct SsrcTable<T> {
    streams: IndexMap<Ssrc, T>,
}

impl<T> Model for SsrcTable<T> {
    ghost use Rattle.std.specs.Prelude.{ℕ, List};

    ghost Value = { List (ℕ × T) };

    ghost view = { λ t. t.streams.entries };
}

impl<T: Drop> SsrcTable<T> {
    ghost use Rattle.std.specs.Borrow.{sem};
    ghost use Rattle.stream_core.specs.Lending.{LendsPlace};

    /// No streams.
    pub fn new(alloc: Global) -> Self
        ensures { result ≡ [] }
    {
        SsrcTable {
            streams: IndexMap::new(alloc),
        }
    }

    /// How many streams there are.
    pub fn len(&self) -> usize
        ensures { result ≡ length self.now }
    {
        self.streams.len()
    }

    /// Whether there are no streams.
    pub fn is_empty(&self) -> bool
        ensures { result ≡ (length self.now == 0) }
    {
        self.streams.is_empty()
    }

    /// The SSRCs, each with its stream, one after another.
    pub fn iter(&self) -> Iter<'_, Ssrc, T>
        ensures rest { result ≡ self.now }
        ensures runs { ShowsInOrder (deref_pair {K = ℕ} {X = T}) }
    {
        self.streams.iter()
    }

    /// Where the stream of an SSRC stands: one look-up in a hash table, none where it is the first.
    #[tactic(auto, using(crate::proofs::Fronts::some_first))]
    pub fn place(&self, ssrc: Ssrc) -> Option<usize>
        ensures place { result ≡ place_of ssrc self.now }
        ensures within { IfSome result (λ i. i < length self.now) }
    {
        match self.streams.get_index(0) {
            Some(first) if ssrc == *first.0 => Some(0),
            _ => self.streams.get_index_of(&ssrc),
        }
    }

    /// Puts a stream behind the others, under an SSRC that none has. Without memory nothing
    /// changes.
    pub fn add(&mut self, ssrc: Ssrc, stream: T) -> Result<(), AllocError>
        requires { place_of ssrc self.old ≡ None }
        ensures ok { OnOk result (self.new ≡ self.old ++ (ssrc, stream) ∷ []) }
        ensures err { OnErr result (self.new ≡ self.old) }
    {
        self.streams.entry(ssrc)?.or_insert(stream);
        Ok(())
    }

    /// Puts a stream behind the others; where its SSRC has one already, that one stays. Without
    /// memory nothing changes.
    pub fn add_new(&mut self, ssrc: Ssrc, stream: T) -> Result<(), AllocError>
        ensures ok { OnOk result (self.new ≡ with_new ssrc stream self.old) }
        ensures err { OnErr result (self.new ≡ self.old) }
    {
        if self.place(ssrc).is_some() {
            return Ok(());
        }
        self.add(ssrc, stream)
    }

    /// Has the stream at a place stand there under another SSRC, which none has. Without memory
    /// nothing changes. The time grows with the number of streams.
    pub fn rename(&mut self, place: usize, ssrc: Ssrc) -> Result<(), AllocError>
        requires place { place < length self.old }
        requires new { place_of ssrc self.old ≡ None }
        ensures ok { OnOk result (self.new ≡ renamed ssrc self.old place) }
        ensures len { OnOk result (length self.new ≡ length self.old) }
        ensures err { OnErr result (self.new ≡ self.old) }
    {
        self.streams.reserve(1)?;
        if let Some((_, stream)) = self.streams.shift_remove_index(place) {
            let last = self.streams.len();
            self.streams.entry(ssrc)?.or_insert(stream);
            self.streams.move_index(last, place);
        }
        Ok(())
    }

    /// Takes out the stream of an SSRC, and tells whether there was one. The time grows with the
    /// number of streams declared after it.
    pub fn remove(&mut self, ssrc: Ssrc) -> bool
        ensures removed { self.new ≡ without_key ssrc self.old }
        ensures found { result ≡ is_some (place_of ssrc self.old) }
    {
        let found = self.place(ssrc).is_some();
        self.streams.shift_remove(&ssrc);
        found
    }

    /// Takes out all but so many from the front.
    pub fn truncate(&mut self, len: usize)
        ensures { self.new ≡ take len self.old }
    {
        self.streams.truncate(len);
    }

    /// The stream at a place.
    pub fn at(&self, place: usize) -> &T
        requires { place < length self.now }
        ensures { slice_get (values_of self.now) place ≡ Some result.now }
    {
        &self.streams[place]
    }

    /// The stream at a place, to be changed there.
    pub fn at_mut(&mut self, place: usize) -> &mut T
        requires { place < length self.old }
        ensures* writes_back { sem 𝓛 (LendsPlace T.row self.entry place result) }
        ensures value { slice_get (values_of self.old) place ≡ Some result.now }
    {
        &mut self.streams[place]
    }
}

fn receives_for(streams: &MappedStreams, ssrc: Ssrc, mid: Mid) -> bool
    ensures { result ≡ receives_for mid ssrc streams.now }
{
    streams
        .iter()
        .any(|stream| stream.ssrc == ssrc && stream.mid == mid)
}

impl SsrcTable<Ssrc> {
    /// Takes out the entries of streams of a media section. The time grows with the product of the
    /// numbers of entries and of streams.
    pub fn remove_received(&mut self, streams: &MappedStreams, mid: Mid)
        ensures { self.new ≡ filter (λ e. not (receives_for mid e.1 streams.now)) self.old }
    {
        self.streams.retain(
            |_key: &Ssrc, value: &mut Ssrc| -> bool
                ensures { (result ≡ not (receives_for mid value.old streams.entry.now)) × (value.new ≡ value.old) }
            { !receives_for(streams, *value, mid) },
        );
    }

    /// Takes out all entries of an SSRC. The time grows with the number of entries.
    pub fn remove_all(&mut self, ssrc: Ssrc)
        ensures { self.new ≡ without_value ssrc self.old }
    {
        self.streams.retain(
            |_key: &Ssrc, value: &mut Ssrc| -> bool
                ensures { (result ≡ not (value.old == ssrc)) × (value.new ≡ value.old) }
            { *value != ssrc },
        );
    }

    /// Has repairs of a stream come under one SSRC alone: takes out its others. The time grows with
    /// the number of entries.
    pub fn keep_only(&mut self, change: &RepairsChange)
        ensures { self.new ≡ filter (is_kept change.now) self.old }
    {
        let rtx = change.rtx;
        let main = change.main;
        self.streams.retain(
            |key: &Ssrc, value: &mut Ssrc| -> bool
                ensures { (result ≡ (key.now == rtx || not (value.old == main))) × (value.new ≡ value.old) }
            { *key == rtx || *value != main },
        );
    }
}

impl SsrcTable<StreamTx> {
    /// Whether a stream of a media section stands under an SSRC. The time grows with the number of
    /// streams.
    fn sends_for(&self, ssrc: Ssrc, mid: Mid) -> bool
        ensures { result ≡ sends_for mid ssrc self.now }
    {
        self.streams
            .iter()
            .any(|(key, stream)| *key == ssrc && stream.mid() == mid)
    }

    /// Takes out the streams of a media section. The time grows with the number of streams.
    pub fn remove_section(&mut self, mid: Mid)
        ensures { self.new ≡ sent_without mid self.old }
    {
        self.streams.retain(
            |_key: &Ssrc, stream: &mut StreamTx| -> bool
                ensures { (result ≡ is_of_other mid stream.old.mid) × (stream.new ≡ stream.old) }
            { stream.mid() != mid },
        );
    }
}

impl<W: GapWindow> SsrcTable<StreamRx<W>> {
    /// Takes out the streams of a media section. The time grows with the number of streams.
    pub fn remove_section(&mut self, mid: Mid)
        ensures { self.new ≡ filter (λ e. is_of_other mid e.1.state.mid) self.old }
    {
        self.streams.retain(
            |_key: &Ssrc, stream: &mut StreamRx<W>| -> bool
                ensures { (result ≡ is_of_other mid stream.old.state.mid) × (stream.new ≡ stream.old) }
            { stream.mid() != mid },
        );
    }
}

impl<T: Drop> SsrcTable<T> {
    /// Takes out what stands under the SSRCs of streams of a media section. The time grows with the
    /// product of the numbers of entries and of streams.
    pub fn remove_sent(&mut self, streams: &SsrcTable<StreamTx>, mid: Mid)
        ensures { self.new ≡ kept_without mid streams.now self.old }
    {
        self.streams.retain(
            |key: &Ssrc, value: &mut T| -> bool
                ensures { (result ≡ not (sends_for mid key.now streams.entry.now)) × (value.new ≡ value.old) }
            { !streams.sends_for(*key, mid) },
        );
    }
}
