//! How a run ends, as a number.

/// The tables were written: they are the query's.
pub const SETTLED: u8 = 0;

/// The words say nothing.
pub const BAD_WORDS: u8 = 1;

/// The source holds no job.
pub const BAD_JOB: u8 = 2;

/// Records were late: the tables were written without them.
pub const LATE: u8 = 3;

/// Two rows of a key have one hash.
pub const COLLISION: u8 = 5;

/// The source failed.
pub const READ_FAULT: u8 = 6;

/// The sink failed.
pub const WRITE_FAULT: u8 = 7;

/// The job has no such store as was asked for.
pub const BAD_ASK: u8 = 9;

/// There was no memory.
pub const NO_MEMORY: u8 = 8;
