//! What stands in a worker's undecided transaction (KIP-98, KIP-447). Each law is the contract of a function that does nothing.
ghost use Rattle.ks_law_commit.specs.Building.{BuildingBegins, BuildingStays, AddBuilds, AppendBuilds, OffsetsBuild, ActiveBuilds};

/// Where nothing is undecided and no marker waits, nothing stands in the transaction.
pub fn building_begins()
    ensures { BuildingBegins }
{}

/// Entries of others leave it as it is while the epoch stands.
pub fn building_stays()
    ensures { BuildingStays }
{}

/// An accepted `add` puts its partition into it.
pub fn add_builds()
    ensures { AddBuilds }
{}

/// An accepted `append` puts its task and its records into it, behind those of this task in this partition.
pub fn append_builds()
    ensures { AppendBuilds }
{}

/// Accepted offsets take the place of those of their task.
pub fn offsets_build()
    ensures { OffsetsBuild }
{}

/// A worker's active task stays one while the worker builds, and nothing is committed for any task.
pub fn active_builds()
    ensures { ActiveBuilds }
{}
