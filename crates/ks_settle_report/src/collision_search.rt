//! The search for the first hash collision of a changelog, in one pass. Laws alone: each public function has an empty body, and its
//! contract is the law.
ghost use Rattle.ks_settle_report.specs.Search.{OnePassFindsTheFirst};

/// One pass over the decided records of a partition, in which each record is compared with the one row that is kept at its key and its
/// row's hash, finds the first pair that collides, by the greater and then by the lesser offset.
pub fn one_pass_finds_the_first()
    ensures { OnePassFindsTheFirst }
{}
