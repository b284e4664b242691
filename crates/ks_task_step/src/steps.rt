//! The steps of tasks, for those who take them.
use crate::processing::process;
use ks_hash::Hash128;
use ks_record::PlacedRecords;
use ks_task_processing::Processing;
use ks_task_values::Step;
use std::alloc::{AllocError, Global};
use std::marker::PhantomData;

/// The steps of tasks whose rows are hashed by H.
#[derive(Drop)]
pub struct StepsBy<H> {
    hash: PhantomData<H>,
}

impl<H: Hash128> Hash128 for StepsBy<H> {
    ghost hash_of = { H.hash_of };

    ghost bounded = { H.bounded };

    fn hash(bytes: &[u8]) -> u128 {
        H::hash(bytes)
    }
}

impl<H: Hash128> Processing for StepsBy<H> {
    fn process(alloc: Global, out: &mut PlacedRecords, step: &Step<'_>) -> Result<u64, AllocError> {
        process::<H>(alloc, out, step)
    }
}
