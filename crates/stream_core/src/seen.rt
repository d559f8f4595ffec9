ghost use Rattle.std.specs.Prelude.{◌≡◌, ◌==◌, ◌<◌, ℕ, List, [], None, Some, OnOk, OnErr, length};
ghost use Rattle.std.specs.Map.Iter.{ShowsInOrder, deref_pair};
ghost use Rattle.rtp_base.specs.declared.window.SeqNoWindow.{SeqNoWindow as Window};
ghost use Rattle.rtp_base.specs.Window.{greatest};
ghost use Rattle.std.specs.Option.{ForSome};
ghost use Rattle.stream_core.specs.Seen.{Saw, SeenStandsFor, seen_of, is_unseen, saw};
ghost use Rattle.stream_core.specs.Tables.{place_of};

use crate::ssrc_table::SsrcTable;
use indexmap::map::Iter;
use rtp_base::{NUMBER_LIMIT, SeqNo, SeqNoWindow, Ssrc};
use std::alloc::{AllocError, Global};
use std::marker::Model;

/// The numbers under which datagrams opened, for each SSRC: the greatest, and which of the last 128
/// came. Contracts see the list of SSRCs and windows, in the order in which the SSRCs came first;
/// it stands for the lists of the numbers.
#[derive(Drop)]
pub struct Seen {
    windows: SsrcTable<SeqNoWindow>,
}

impl Model for Seen {
    ghost use Rattle.std.specs.Prelude.{ℕ, List};
    ghost use Rattle.rtp_base.specs.declared.window.SeqNoWindow.{SeqNoWindow};

    ghost Value = { List (ℕ × SeqNoWindow) };

    ghost view = { λ s. s.windows };
}

/// The greatest number of a window. It has 48 bits.
fn greatest_of(window: &SeqNoWindow) -> Option<SeqNo>
    ensures value { (l : List ℕ) → Saw window.now l → result ≡ Some (greatest l) }
    ensures small { ForSome result (λ n. n < NUMBER_LIMIT) }
{
    let greatest = window.max_seq();
    if u64::from(greatest) < NUMBER_LIMIT {
        Some(greatest)
    } else {
        None
    }
}

impl Seen {
    /// No numbers.
    pub fn new(alloc: Global) -> Self
        ensures { result ≡ [] }
    {
        Seen {
            windows: SsrcTable::new(alloc),
        }
    }

    /// How many SSRCs there are.
    pub fn len(&self) -> usize
        ensures { result ≡ length self.now }
    {
        self.windows.len()
    }

    /// Whether there is no SSRC.
    pub fn is_empty(&self) -> bool
        ensures { result ≡ (length self.now == 0) }
    {
        self.windows.is_empty()
    }

    /// The SSRCs, each with the window of its numbers, in the order in which they came first.
    pub fn iter(&self) -> Iter<'_, Ssrc, SeqNoWindow>
        ensures rest { result ≡ self.now }
        ensures runs { ShowsInOrder (deref_pair {K = ℕ} {X = Window}) }
    {
        self.windows.iter()
    }

    /// The greatest number of an SSRC: one look-up in a hash table.
    pub fn get(&self, ssrc: Ssrc) -> Option<SeqNo>
        ensures value { (seen : List (ℕ × List ℕ)) → SeenStandsFor self.now seen → result ≡ seen_of ssrc seen }
        ensures small { ForSome result (λ n. n < NUMBER_LIMIT) }
    {
        match self.windows.place(ssrc) {
            Some(place) => greatest_of(self.windows.at(place)),
            None => None,
        }
    }

    /// Whether no datagram opened under an SSRC and this number, and it is above the greatest of
    /// the SSRC less 128: one look-up in a hash table.
    pub fn accepts(&self, ssrc: Ssrc, number: SeqNo) -> bool
        ensures { (seen : List (ℕ × List ℕ)) → SeenStandsFor self.now seen → result ≡ is_unseen ssrc number seen }
    {
        match self.windows.place(ssrc) {
            Some(place) => self.windows.at(place).accepts(number),
            None => true,
        }
    }

    /// One more number of an SSRC. Without memory nothing changes.
    pub fn put(&mut self, ssrc: Ssrc, number: SeqNo) -> Result<(), AllocError>
        requires { number < NUMBER_LIMIT }
        ensures ok { OnOk result ((seen : List (ℕ × List ℕ)) → SeenStandsFor self.old seen → SeenStandsFor self.new (saw ssrc number seen)) }
        ensures err { OnErr result (self.new ≡ self.old) }
        ensures cause { OnErr result (place_of ssrc self.old ≡ None) }
    {
        match self.windows.place(ssrc) {
            Some(place) => {
                self.windows.at_mut(place).update(number);
                Ok(())
            }
            None => self.windows.add(ssrc, SeqNoWindow::new(number)),
        }
    }
}
