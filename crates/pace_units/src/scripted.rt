//! Estimates and clusters of probes that come at moments which were set before.
ghost use Rattle.std.specs.Prelude.{◌≡◌, ◌≤◌, length, true, false};
ghost use Rattle.pace_units.specs.Script.{
  Script,
  count_until,
  due_at,
  new_script,
  next_probe,
  after_giving,
  next_estimate,
  after_polling,
  last_due,
  pending_count,
  next_moment,
};

use crate::estimator::{Estimator, SendRecord};
use crate::probe::ProbeClusterConfig;
use crate::queue::earlier_of;
use media_base::Listed;
use media_units::{Bitrate, DataSize, Instant};
use rtp_base::TwccClusterId;
use std::marker::Model;

/// An estimator whose estimates and clusters are given to it, each with the moment from which on it
/// is due. Contracts see its script and how far it came.
#[derive(Debug, Drop)]
pub struct ScriptedEstimate {
    estimates: Listed<(Instant, Bitrate)>,
    probes: Listed<(Instant, ProbeClusterConfig)>,
    due: usize,
    polled: usize,
    due_probes: usize,
    given: usize,
}

impl Model for ScriptedEstimate {
    ghost use Rattle.pace_units.specs.Script.{Script, IsScript};

    ghost Value = { Script };

    ghost view = { λ s. record { estimates = s.estimates; probes = s.probes; due = s.due; polled = s.polled; due_probes = s.due_probes; given = s.given } };

    ghost invariant = { λ s. IsScript (record { estimates = s.estimates; probes = s.probes; due = s.due; polled = s.polled; due_probes = s.due_probes; given = s.given }) };
}

// How many, from the first on, are not after a moment.
fn count_until<T>(all: &[(Instant, T)], now: Instant) -> usize
    ensures count { result ≡ count_until all.now now }
    ensures bound { result ≤ length all.now }
{
    for (i, entry) in all.iter().enumerate() {
        if now < entry.0 {
            return i;
        }
    }
    all.len()
}

// How many are due at a moment, after so many were. It looks at those alone that become due.
fn due_at<T>(all: &[(Instant, T)], due: usize, now: Instant) -> usize
    requires { due ≤ length all.now }
    ensures count { result ≡ due_at all.now due now }
    ensures bound { result ≤ length all.now }
{
    due + count_until(&all[due..], now)
}

impl ScriptedEstimate {
    /// An estimator that gives these estimates and clusters in order. What stands behind one of a
    /// later moment is not due before that one.
    pub fn new(
        estimates: Listed<(Instant, Bitrate)>,
        probes: Listed<(Instant, ProbeClusterConfig)>,
    ) -> Self
        ensures { result ≡ new_script estimates probes }
    {
        ScriptedEstimate {
            estimates,
            probes,
            due: 0,
            polled: 0,
            due_probes: 0,
            given: 0,
        }
    }
}

impl Estimator for ScriptedEstimate {
    ghost use Rattle.std.proofs.Common.{rules};
    ghost use Rattle.std.proofs.lemmas.Bool.Decides.{nat_tests};
    ghost use Rattle.std.proofs.lemmas.Grind.{common_steps};

    ghost State = { Script };

    ghost state = { λ s. s };

    ghost probe_at = { next_probe };

    ghost after_timeout = { after_giving };

    ghost may_start = { λ _ _. true };

    ghost after_start = { λ s _. s };

    ghost after_end = { λ s _ _. s };

    ghost estimate_in = { next_estimate };

    ghost after_poll = { after_polling };

    ghost last_in = { last_due };

    ghost after_update = { λ s _ _. s };

    ghost after_sent = { λ s _ _ _. s };

    ghost overuses = { λ _. false };

    ghost minimum_in = { λ _. 0 };

    ghost wake_in = { next_moment };

    ghost pending_in = { pending_count };

    ghost after_bitrate = { λ s _ _. s };

    ghost after_reset = { λ s _. s };

    ghost lowers = { Prim.search (rules, common_steps, nat_tests) };

    fn handle_timeout(&mut self, now: Instant, can_probe: bool) -> Option<ProbeClusterConfig> {
        self.due = due_at(self.estimates.as_slice(), self.due, now);
        self.due_probes = due_at(self.probes.as_slice(), self.due_probes, now);
        if !can_probe || self.due_probes <= self.given {
            return None;
        }
        let (_, config) = self.probes.as_slice()[self.given];
        self.given += 1;
        Some(config)
    }

    fn start_probe(&mut self, _config: ProbeClusterConfig) -> bool {
        true
    }

    fn end_probe(&mut self, _now: Instant, _cluster: TwccClusterId) {}

    fn poll_estimate(&mut self) -> Option<Bitrate> {
        if self.due <= self.polled {
            return None;
        }
        let (_, estimate) = self.estimates.as_slice()[self.polled];
        self.polled += 1;
        Some(estimate)
    }

    fn last_estimate(&self) -> Option<Bitrate> {
        if self.due == 0 {
            return None;
        }
        let (_, estimate) = self.estimates.as_slice()[self.due - 1];
        Some(estimate)
    }

    fn update(&mut self, _records: &[SendRecord], _now: Instant) {}

    fn on_media_sent(&mut self, _now: Instant, _size: DataSize, _padding: bool) {}

    fn is_overusing(&self) -> bool {
        false
    }

    fn minimum_bitrate(&self) -> Bitrate {
        Bitrate::bps(0)
    }

    fn poll_timeout(&self) -> Option<Instant> {
        let estimate = match self.estimates.as_slice().get(self.due) {
            Some(entry) => Some(entry.0),
            None => None,
        };
        let probe = match self.probes.as_slice().get(self.due_probes) {
            Some(entry) => Some(entry.0),
            None => None,
        };
        earlier_of(estimate, probe)
    }

    fn pending(&self) -> u64 {
        (self.due - self.polled) as u64
    }

    fn set_bitrate(&mut self, _minimum: Bitrate, _desired: Bitrate) {}

    fn reset(&mut self, _init_bitrate: Bitrate) {}
}
