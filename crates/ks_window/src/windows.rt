//! The windows of a timestamp.
ghost use Rattle.std.specs.Prelude.{◌≡◌, ◌≤◌, ◌*◌, IfOk};
ghost use Rattle.ks_query.specs.Windows.{windows};
ghost use Rattle.ks_window.specs.Starts.{first_index};

use std::alloc::{AllocError, Global};

/// The start of the first window that holds the time `t`: the least multiple of the advance whose window ends after it. All in
/// milliseconds. Takes no memory.
pub fn first_start(t: u64, size: u64, advance: u64) -> u64
    requires some { 1 ≤ advance }
    requires most { advance ≤ size }
    ensures { result ≡ first_index t size advance * advance }
{
    t.saturating_sub(size - advance) / advance * advance
}

/// The starts of all windows that hold the time `t`, rising. All in milliseconds.
pub fn starts(alloc: Global, t: u64, size: u64, advance: u64) -> Result<Vec<u64>, AllocError>
    requires some { 1 ≤ advance }
    requires most { advance ≤ size }
    ensures { IfOk result (λ v. v.items ≡ windows
        (record { size = size; advance = advance; grace = 0 }) t) }
{
    let first = t.saturating_sub(size - advance) / advance;
    let mut found = Vec::new(alloc);
    let last = t / advance;
    for index in first..last {
        found.push(index * advance)?;
    }
    found.push(last * advance)?;
    Ok(found)
}
