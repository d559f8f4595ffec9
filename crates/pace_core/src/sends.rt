//! When each queue was sent on last.
ghost use Rattle.std.specs.Prelude.{◌≡◌, [], ◌∷◌, ◌++◌, OnOk, OnErr, IsOk, IsSome, None};
ghost use Rattle.std.specs.Bool.{OnTrue, OnFalse};
ghost use Rattle.pace_core.specs.Sends.{same_queue, last_of, with_send};

use media_units::Instant;
use rtp_base::MidRid;
use std::alloc::{AllocError, Global};
use std::marker::Model;

/// Queues with the moment at which each was sent on last. Contracts see the list of the pairs.
#[derive(Debug, Drop)]
pub struct Sends {
    all: Vec<(MidRid, Instant)>,
}

impl Model for Sends {
    ghost use Rattle.std.specs.Prelude.{ℕ, List};
    ghost use Rattle.rtp_base.specs.declared.ids.MidRid.{MidRid};

    ghost Value = { List (MidRid × ℕ) };

    ghost view = { λ s. s.all.items };
}

/// Whether both are one queue.
pub fn same_queue(one: &MidRid, other: &MidRid) -> bool
    ensures { result ≡ same_queue one.now other.now }
{
    one == other
}

// Whether the queue stands in the list, where its moment is changed then.
#[tactic(auto, using(crate::proofs::SendLaws::with_send_at))]
fn updated(all: &mut [(MidRid, Instant)], key: &MidRid, now: Instant) -> bool
    ensures found { OnTrue result (all.new ≡ with_send all.old key.now now) }
    ensures absent { OnFalse result (all.new ≡ all.old) }
    ensures end { OnFalse result (with_send all.old key.now now ≡ all.old ++ (key.now, now) ∷ []) }
    ensures unknown { OnFalse result (last_of all.old key.now ≡ None) }
{
    for i in 0..all.len() {
        if same_queue(&all[i].0, key) {
            all[i].1 = now;
            return true;
        }
    }
    false
}

impl Sends {
    /// Nothing was sent.
    pub fn new(alloc: Global) -> Self
        ensures { result ≡ [] }
    {
        Sends {
            all: Vec::new(alloc),
        }
    }

    /// When a queue was sent on last. It looks through all of them.
    pub fn last(&self, key: &MidRid) -> Option<Instant>
        ensures { result ≡ last_of self.now key.now }
    {
        for entry in self.all.as_slice() {
            if same_queue(&entry.0, key) {
                return Some(entry.1);
            }
        }
        None
    }

    /// A queue was sent on. Without memory for one that was not seen before nothing changes.
    pub fn record(&mut self, key: &MidRid, now: Instant) -> Result<(), AllocError>
        ensures ok { OnOk result (self.new ≡ with_send self.old key.now now) }
        ensures err { OnErr result (self.new ≡ self.old) }
        ensures known { IsSome (last_of self.old key.now) → IsOk result }
    {
        if updated(self.all.as_mut_slice(), key, now) {
            return Ok(());
        }
        // The check has to meet the types that an entry may hold.
        let _none: (Option<MidRid>, Option<Instant>) = (None, None);
        self.all.push((*key, now))?;
        Ok(())
    }
}
