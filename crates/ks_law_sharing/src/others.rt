//! What entries of others leave of a producer, its transaction and the partitions. Each law is the contract of a function that does
//! nothing.
ghost use Rattle.ks_law_sharing.specs.Others.{SameTouched, TouchedBefore, EpochRises, EndsRise, OffsetsStay, CountStays, IdleStays, OpenStays, FaithfulStays, OnePending};

/// Where a longer journal has touched a worker's transaction last at the same place, no entry between touched it.
pub fn same_touched()
    ensures { SameTouched }
{}

/// Nor did one where that place is in the shorter journal: so a worker that compares it with the place that it remembers knows that
/// nobody else used its number.
pub fn touched_before()
    ensures { TouchedBefore }
{}

/// Epochs never fall.
pub fn epoch_rises()
    ensures { EpochRises }
{}

/// Partitions only grow.
pub fn ends_rise()
    ensures { EndsRise }
{}

/// Offsets that may be sent for a task may be sent in every longer journal.
pub fn offsets_stay()
    ensures { OffsetsStay }
{}

/// Others put no record of a producer's epoch: the number that its next record must have stays.
pub fn count_stays()
    ensures { CountStays }
{}

/// A producer that has nothing undecided has nothing undecided after entries of others, whatever they expire or mark.
pub fn idle_stays()
    ensures { IdleStays }
{}

/// The records of an undecided transaction stay where they are while the epoch stands.
pub fn open_stays()
    ensures { OpenStays }
{}

/// A transaction that may be committed faithfully may be so after entries of others.
pub fn faithful_stays()
    ensures { FaithfulStays }
{}

/// In every history offsets of a task are pending at one producer at most.
pub fn one_pending()
    ensures { OnePending }
{}
