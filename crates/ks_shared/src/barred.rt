//! Why a worker's own request isn't done.
use ks_record::Refused;

/// Why a request by which a worker changes its own transaction isn't done.
#[derive(Drop)]
pub enum Barred {
    /// The cluster refused it; the journal has the refusal.
    Refused(Refused),
    /// Somebody else used the worker's number: the last accepted entry of that number is `at`, another
    /// than the caller knows of. Nothing is done.
    Touched { at: u64 },
}
