//! What the requests of a commit can be refused with (KIP-98: fencing; KIP-447: generations). Each law is the contract of a function
//! that does nothing.
ghost use Rattle.ks_law_sharing.specs.Refusals.{AddRefused, AppendRefused, OffsetsRefused, DecideRefused, MarkersWaitedBefore};

/// `add` is refused by fencing, or since markers of the last transaction wait.
pub fn add_refused()
    ensures { AddRefused }
{}

/// With the partition added and the next number, `append` is refused by fencing alone.
pub fn append_refused()
    ensures { AppendRefused }
{}

/// For a task that is the worker's while its generation stands, `send_offsets` is refused by fencing, or since markers wait.
pub fn offsets_refused()
    ensures { OffsetsRefused }
{}

/// With a transaction undecided, `decide` is refused by fencing alone.
pub fn decide_refused()
    ensures { DecideRefused }
{}

/// Markers that wait now, in an epoch that is no newer, waited before the entries of others.
pub fn markers_waited_before()
    ensures { MarkersWaitedBefore }
{}
