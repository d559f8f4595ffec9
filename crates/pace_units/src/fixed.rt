//! One estimate that never changes.
ghost use Rattle.std.specs.Prelude.{◌≡◌, ◌∷◌, [], true, false};
ghost use Rattle.pace_units.specs.Script.{
  Script,
  new_script,
  next_probe,
  after_giving,
  next_estimate,
  after_polling,
  last_due,
  pending_count,
  next_moment,
};

use crate::estimator::{Estimator, SendRecord};
use crate::probe::ProbeClusterConfig;
use media_units::{Bitrate, DataSize, Instant, already_happened};
use rtp_base::TwccClusterId;
use std::marker::Model;

/// An estimator of one estimate, which is due from the first timeout on, and of no cluster. It
/// takes no memory. Contracts see the script of that estimate, and how far it came.
#[derive(Debug, Drop)]
pub struct FixedEstimate {
    rate: Bitrate,
    is_due: bool,
    is_polled: bool,
}

impl Model for FixedEstimate {
    ghost use Rattle.std.specs.Prelude.{[], ◌∷◌, if◌then◌else◌, ◌≡◌, ◌||◌, not, true};
    ghost use Rattle.pace_units.specs.Script.{Script};

    ghost Value = { Script };

    ghost view = { λ f. record { estimates = (0, f.rate) ∷ []; probes = []; due = if f.is_due then 1 else 0; polled = if f.is_polled then 1 else 0; due_probes = 0; given = 0 } };

    ghost invariant = { λ f. (f.is_due || not f.is_polled) ≡ true };
}

impl FixedEstimate {
    /// An estimator of this estimate.
    pub fn new(rate: Bitrate) -> Self
        ensures { result ≡ new_script ((0, rate) ∷ []) [] }
    {
        FixedEstimate {
            rate,
            is_due: false,
            is_polled: false,
        }
    }
}

impl Estimator for FixedEstimate {
    ghost use Rattle.std.proofs.Common.{rules};
    ghost use Rattle.std.proofs.lemmas.Bool.Decides.{nat_tests};
    ghost use Rattle.std.proofs.lemmas.Grind.{common_steps};

    ghost State = { Script };

    ghost state = { λ s. s };

    ghost probe_at = { next_probe };

    ghost after_timeout = { after_giving };

    ghost may_start = { λ _ _. true };

    ghost after_start = { λ s _. s };

    ghost after_end = { λ s _ _. s };

    ghost estimate_in = { next_estimate };

    ghost after_poll = { after_polling };

    ghost last_in = { last_due };

    ghost after_update = { λ s _ _. s };

    ghost after_sent = { λ s _ _ _. s };

    ghost overuses = { λ _. false };

    ghost minimum_in = { λ _. 0 };

    ghost wake_in = { next_moment };

    ghost pending_in = { pending_count };

    ghost after_bitrate = { λ s _ _. s };

    ghost after_reset = { λ s _. s };

    ghost lowers = { Prim.search (rules, common_steps, nat_tests) };

    fn handle_timeout(&mut self, _now: Instant, _can_probe: bool) -> Option<ProbeClusterConfig> {
        self.is_due = true;
        None
    }

    fn start_probe(&mut self, _config: ProbeClusterConfig) -> bool {
        true
    }

    fn end_probe(&mut self, _now: Instant, _cluster: TwccClusterId) {}

    fn poll_estimate(&mut self) -> Option<Bitrate> {
        if !self.is_due || self.is_polled {
            return None;
        }
        self.is_polled = true;
        Some(self.rate)
    }

    fn last_estimate(&self) -> Option<Bitrate> {
        if self.is_due { Some(self.rate) } else { None }
    }

    fn update(&mut self, _records: &[SendRecord], _now: Instant) {}

    fn on_media_sent(&mut self, _now: Instant, _size: DataSize, _padding: bool) {}

    fn is_overusing(&self) -> bool {
        false
    }

    fn minimum_bitrate(&self) -> Bitrate {
        Bitrate::bps(0)
    }

    fn poll_timeout(&self) -> Option<Instant> {
        if self.is_due {
            None
        } else {
            Some(already_happened())
        }
    }

    fn pending(&self) -> u64 {
        if self.is_due && !self.is_polled { 1 } else { 0 }
    }

    fn set_bitrate(&mut self, _minimum: Bitrate, _desired: Bitrate) {}

    fn reset(&mut self, _init_bitrate: Bitrate) {}
}
