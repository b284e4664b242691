//! Every decided record of a topology has a key and a value of its kind. Laws alone: each public function has an empty body, and its
//! contract is the law.
#![tactic(auto)]

ghost use Rattle.ks_law_kinds.specs.Fitting.{DecidedAreOfKind, PlansFit};
ghost use Rattle.ks_law_kinds.specs.Hashes.{HashesFit, MurmurFits};
ghost use Rattle.ks_law_kinds.specs.OfKind.{KindsAreRead};

/// In every journal of a topology of at most 64 partitions a topic that is legal and faithful, and whose produced records are such as a job may produce, each decided
/// record has a key and a value of its topic's kind and a time in range, and so has each pair of the stores that the changelogs tell.
pub fn decided_are_of_kind()
    ensures { DecidedAreOfKind }
{}

/// The plan of a draft whose projections and foreign keys have names, texts and constants that can be spelled has such ones.
pub fn plans_fit()
    ensures { PlansFit }
{}

/// A record of its topic's kind spells a message: no task lets it go unread.
pub fn kinds_are_read()
    ensures { KindsAreRead }
{}

/// Rules that hash a row's bytes by MurmurHash3 have hashes of 128 bits, as the law on decided records wants of them.
pub fn murmur_fits()
    ensures { MurmurFits }
{}

/// Rules that hash a row's bytes by a hash of 128 bits, as every `Hash128` is, have hashes of 128 bits.
#[tactic(auto, using(crate::proofs::Hashes::hashes_fit))]
pub fn hashes_fit()
    ensures { HashesFit }
{}
