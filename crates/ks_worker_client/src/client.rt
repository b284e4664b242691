//! A worker's client.
use crate::turn_gate::TurnGate;
use ks_cluster::Work;
use ks_edge::Gate;
use ks_growing::Pass;
use ks_shared::SharedState;

/// A worker's way to the cluster: its pass through the lock, and its gate, which is asked before each call whether the worker is cut
/// off.
///
/// Each call asks the gate and then makes one call of `Shared`. After `Cut` nothing was done; after `OutOfMemory` nothing was added.
#[derive(Drop)]
pub struct ClusterClient<W: Work, G: Gate> {
    pub pass: Pass<SharedState<W>>,
    pub gate: TurnGate<G>,
}
