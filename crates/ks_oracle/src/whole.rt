//! The whole.
ghost use Rattle.std.specs.Prelude.{◌≡◌, IfOk};
ghost use Rattle.ks_topo.specs.Topologies.{draft_of};
ghost use Rattle.ks_query.specs.Printed.{job_tables};

use crate::answers::find_answers;
use crate::printing::tables_named;
use crate::record::JobRecord;
use ks_query::Table;
use ks_topo::Topology;
use std::alloc::{AllocError, Global};

/// The tables that a job prints: the query of its topology, evaluated once over all its records, in their order.
pub fn evaluate(
    alloc: Global,
    topology: &Topology,
    records: &[JobRecord],
) -> Result<Vec<Table>, AllocError>
    ensures { IfOk result (λ v. v.items ≡ job_tables (draft_of topology.now) records.now) }
{
    let nodes = topology.nodes();
    let found = find_answers(alloc, nodes, records)?;
    tables_named(alloc, nodes, &found, topology.print())
}
