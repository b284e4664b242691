//! Windows of a windowed count, in milliseconds.

/// Windows of a size, one at each multiple of the advance, that take items until the grace period is over. All in milliseconds.
#[derive(Clone, Copy, PartialEq, Eq)]
pub struct Window {
    pub size: u64,
    pub advance: u64,
    pub grace: u64,
}
