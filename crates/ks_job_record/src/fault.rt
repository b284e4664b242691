//! Why an input is no job.
ghost use Rattle.std.specs.Prelude.{◌≡◌, IfOk};
ghost use Rattle.ks_job_record.specs.declared.fault.JobKind.TheVariants.{TooMany, BadShape, BadNumber, UnknownTopic};
ghost use Rattle.ks_job_record.specs.declared.fault.LineError.TheVariants.{Memory};

use ks_record::Blob;
use std::alloc::{AllocError, AllocFailed, Global};

/// What is wrong with a line.
#[derive(Drop, Clone)]
pub enum JobKind {
    TooMany { what: Blob, limit: u64 },
    NotJson,
    BadShape { member: Blob },
    BadNumber { member: Blob },
    UnknownTopic { topic: Blob },
    LineTooLong,
    NoTopology,
}

/// A fault of the line, or want of memory.
#[derive(Drop)]
pub enum LineError {
    Memory,
    Fault(JobKind),
}

impl From<AllocError> for LineError {
    ghost from_gives = { λ _ e. e ≡ Memory };

    fn from(_e: AllocError) -> LineError {
        LineError::Memory
    }
}

impl<T: Drop> From<AllocFailed<T>> for LineError {
    ghost from_gives = { λ _ e. e ≡ Memory };

    fn from(_e: AllocFailed<T>) -> LineError {
        LineError::Memory
    }
}

/// The bytes of a text.
pub fn blob_of(alloc: Global, text: &str) -> Result<Blob, AllocError>
    ensures { IfOk result (λ b. b ≡ text.now) }
{
    Blob::from_slice(alloc, text.as_bytes())
}

/// The fault 21, which names a member.
pub fn bad_shape(alloc: Global, member: &str) -> Result<JobKind, AllocError>
    ensures { IfOk result (λ k. k ≡ BadShape member.now) }
{
    Ok(JobKind::BadShape {
        member: blob_of(alloc, member)?,
    })
}

/// The fault 22, which names a member.
pub fn bad_number(alloc: Global, member: &str) -> Result<JobKind, AllocError>
    ensures { IfOk result (λ k. k ≡ BadNumber member.now) }
{
    Ok(JobKind::BadNumber {
        member: blob_of(alloc, member)?,
    })
}

/// The fault 23, which names a topic.
pub fn unknown_topic(alloc: Global, topic: &str) -> Result<JobKind, AllocError>
    ensures { IfOk result (λ k. k ≡ UnknownTopic topic.now) }
{
    Ok(JobKind::UnknownTopic {
        topic: blob_of(alloc, topic)?,
    })
}

/// The fault 14, which says of what there are too many.
pub fn too_many(alloc: Global, what: &str, limit: u64) -> Result<JobKind, AllocError>
    ensures { IfOk result (λ k. k ≡ TooMany what.now limit) }
{
    Ok(JobKind::TooMany {
        what: blob_of(alloc, what)?,
        limit,
    })
}
