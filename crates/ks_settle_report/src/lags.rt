//! Partitions whose records aren't all taken.
ghost use Rattle.std.specs.Prelude.{◌≡◌, ◌++◌, ◌∷◌, [], IfOk, OnOk, true};
ghost use Rattle.std.specs.List.{filter};
ghost use Rattle.ks_topo.specs.Topologies.{plan_in};
ghost use Rattle.ks_plan.specs.Infos.{drain_numbers};
ghost use Rattle.ks_history.specs.Machine.{has_topic, part_of};
ghost use Rattle.ks_history.specs.State.{has_task, IsPart};
ghost use Rattle.ks_cluster.specs.View.{setup_of, state_of};
ghost use Rattle.ks_settle_report.specs.Report.{IsOf, lag_at, is_behind, task_lags, lags_of};

use ks_cluster::{Cluster, Work};
use ks_record::{PartId, TaskId};
use ks_topo::Topology;
use std::alloc::{AllocError, Global};

/// A partition that a task reads and whose committed offset isn't its end.
#[derive(Clone, Copy, PartialEq, Eq)]
pub struct Lag {
    /// The partition, by the number of its topic.
    pub part: PartId,
    /// The committed offset of the task that reads it.
    pub committed: u64,
    /// The partition's end: one past its last offset.
    pub end: u64,
}

// Whether the topic is one of these numbers.
fn has_number(numbers: &[u16], topic: u16) -> bool
    ensures { result ≡ has_topic topic numbers.now }
{
    let mut rest = numbers;
    while let [first, more @ ..] = rest {
        if topic == *first {
            return true;
        }
        rest = more;
    }
    false
}

// The committed offset and the end of a task's input.
fn lag_of<W: Work>(
    alloc: Global,
    cluster: &Cluster<W>,
    task: TaskId,
    topic: u16,
) -> Result<Lag, AllocError>
    requires task { has_task task (setup_of W.plan cluster.now).tasks ≡ true }
    requires input { has_topic topic ((setup_of W.plan cluster.now).plan.inputs task.sub) ≡ true }
    requires part { IsPart (setup_of W.plan cluster.now) (part_of topic task) }
    ensures { IfOk result (λ l. l ≡ lag_at (state_of W.plan cluster.now) topic task) }
{
    let part = PartId {
        topic,
        part: task.part,
    };
    let ends = cluster.ends(alloc, &[part])?;
    Ok(Lag {
        part,
        committed: cluster.offset(task, topic),
        end: ends[0],
    })
}

// With the lag at the end, where it is one.
fn push_behind(lags: &mut Vec<Lag>, lag: Lag) -> Result<(), AllocError>
    ensures { OnOk result (lags.new.items ≡ lags.old.items ++ filter is_behind (lag ∷ [])) }
{
    if lag.committed != lag.end {
        lags.push(lag)?;
    }
    Ok(())
}

// With that of a task, where it reads the topic and is behind.
fn push_lag<W: Work>(
    alloc: Global,
    cluster: &Cluster<W>,
    topology: &Topology,
    topic: u16,
    task: TaskId,
    lags: &mut Vec<Lag>,
) -> Result<(), AllocError>
    requires of { IsOf topology.now (setup_of W.plan cluster.now) }
    requires task { has_task task (setup_of W.plan cluster.now).tasks ≡ true }
    ensures { OnOk result (lags.new.items ≡ lags.old.items
        ++ task_lags (setup_of W.plan cluster.now) (state_of W.plan cluster.now) topic
        (task ∷ [])) }
{
    if !has_number(topology.inputs(task.sub), topic) {
        return Ok(());
    }
    let lag = lag_of(alloc, cluster, task, topic)?;
    push_behind(lags, lag)
}

// With those of all tasks that read the topic.
fn push_lags<W: Work>(
    alloc: Global,
    cluster: &Cluster<W>,
    topology: &Topology,
    topic: u16,
    lags: &mut Vec<Lag>,
) -> Result<(), AllocError>
    requires { IsOf topology.now (setup_of W.plan cluster.now) }
    ensures { OnOk result (lags.new.items ≡ lags.old.items
        ++ task_lags (setup_of W.plan cluster.now)
        (state_of W.plan cluster.now) topic (setup_of W.plan cluster.now).tasks) }
{
    let mut rest = topology.tasks();
    while let [first, more @ ..] = rest {
        push_lag(alloc, cluster, topology, topic, *first, lags)?;
        rest = more;
    }
    Ok(())
}

/// The partitions that tasks read and whose committed offset isn't the end, by the order in which topics are drained, then by
/// partition. `Err` only where memory ran out.
pub fn lags_in<W: Work>(
    alloc: Global,
    cluster: &Cluster<W>,
    topology: &Topology,
) -> Result<Vec<Lag>, AllocError>
    requires { IsOf topology.now (setup_of W.plan cluster.now) }
    ensures { IfOk result (λ v. v.items ≡ lags_of (setup_of W.plan cluster.now)
        (state_of W.plan cluster.now) (drain_numbers (plan_in topology.now))) }
{
    let mut lags = Vec::new(alloc);
    let mut rest = topology.drain_order();
    while let [first, more @ ..] = rest {
        push_lags(alloc, cluster, topology, *first, &mut lags)?;
        rest = more;
    }
    Ok(lags)
}
