//! The clusters of a pacer, in the order in which they were started: the first of them runs.
ghost use Rattle.pace_units.specs.Cluster.{new_cluster};
ghost use Rattle.pace_core.specs.Past.{asked_first, asked_by, clusters_sent, ended_by, clusters_told, told_of};
ghost use Rattle.std.specs.Prelude.{◌≡◌, ◌∷◌, ◌++◌, [], None, OnOk, OnErr, slice_get, option_copied};

use media_units::{DataSize, Instant};
use pace_units::{ProbeClusterConfig, ProbeClusterState};
use rtp_base::TwccClusterId;
use std::alloc::{AllocError, Global};
use std::marker::Model;

/// Clusters that run or wait, and the last that ended, until it is told.
#[derive(Debug, Drop)]
pub struct Clusters {
    all: Vec<ProbeClusterState>,
    ended: Option<TwccClusterId>,
}

impl Model for Clusters {
    ghost use Rattle.pace_core.specs.Probes.{Probes};

    ghost Value = { Probes };

    ghost view = { λ c. record { running = c.all.items; ended = c.ended } };
}

impl Clusters {
    /// No clusters.
    pub fn new(alloc: Global) -> Self
        ensures { result ≡ record { running = []; ended = None } }
    {
        Clusters {
            all: Vec::new(alloc),
            ended: None,
        }
    }

    /// Adds a cluster at the end. Without memory nothing is added.
    pub fn start(&mut self, config: ProbeClusterConfig) -> Result<(), AllocError>
        ensures ok { OnOk result (self.new ≡ record self.old { running = self.old.running ++ new_cluster config ∷ [] }) }
        ensures err { OnErr result (self.new ≡ self.old) }
    {
        // The check has to meet the type that a cluster may hold.
        let _none: Option<Instant> = None;
        self.all.push(ProbeClusterState::new(config))?;
        Ok(())
    }

    /// The cluster that runs.
    pub fn active(&self) -> Option<&ProbeClusterState>
        ensures { option_copied result ≡ slice_get self.now.running 0 }
    {
        self.all.as_slice().first()
    }

    /// Drops all clusters.
    pub fn clear(&mut self)
        ensures { self.new ≡ record self.old { running = [] } }
    {
        self.all.clear();
    }

    /// The size of padding that the first cluster asks for now, if any.
    #[tactic(auto, using(crate::proofs::ClusterLaws::asked_first_set, crate::proofs::ClusterLaws::asked_by_first))]
    pub fn ask(&mut self, now: Instant) -> Option<DataSize>
        ensures size { result ≡ asked_by (slice_get self.old.running 0) now }
        ensures after { self.new ≡ record self.old { running = asked_first self.old.running now } }
    {
        if self.all.is_empty() {
            return None;
        }
        let first = &mut self.all[0];
        if !first.should_send_now(now) {
            return None;
        }
        first.next_packet(now)
    }

    /// A packet was sent: it counts for the first cluster.
    #[tactic(auto, using(crate::proofs::ClusterLaws::clusters_sent_first, crate::proofs::ClusterLaws::ended_by_first))]
    pub fn record(&mut self, now: Instant, size: DataSize)
        ensures running { self.new.running ≡ clusters_sent self.old.running now size }
        ensures ended { self.new.ended ≡ ended_by self.old.ended self.old.running now size }
    {
        if self.all.is_empty() {
            return;
        }
        let first = &mut self.all[0];
        first.record_packet(now, size);
        let ends = first.is_complete(now);
        let id = first.config().cluster();
        if ends {
            let _first = self.all.remove(0);
            self.ended = Some(id);
        }
    }

    /// The cluster that ended, once.
    #[tactic(auto, using(crate::proofs::ClusterLaws::clusters_told_first, crate::proofs::ClusterLaws::told_of_first))]
    pub fn take_ended(&mut self, now: Instant) -> Option<TwccClusterId>
        ensures told { result ≡ told_of self.old.ended self.old.running }
        ensures after { self.new ≡ record { running = clusters_told self.old.ended self.old.running; ended = None } }
    {
        match self.ended.take() {
            Some(id) => Some(id),
            None => {
                if self.all.is_empty() {
                    return None;
                }
                let ends = self.all[0].is_complete(now);
                let id = self.all[0].config().cluster();
                if ends {
                    let _first = self.all.remove(0);
                    Some(id)
                } else {
                    None
                }
            }
        }
    }
}
