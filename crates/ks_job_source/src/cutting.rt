//! Bytes, cut at their first line end.
ghost use Rattle.std.specs.Prelude.{◌≡◌, ◌++◌, ◌<◌, ◌≤◌, ℕ, true, false, None, IfSome, length, option_map, slice_index};
ghost use Rattle.ks_job.specs.Cut.{cut_line};
ghost use Rattle.ks_job.specs.Reader.{is_line_end};
ghost use Rattle.ks_job_source.specs.Cutting.{HasNoEnd};
ghost use Rattle.ks_job_source.specs.Cutting.{IsLine};

use memchr::memchr;

// Where the first line ends: at its LF, or at the end.
fn line_end(bytes: &[u8]) -> usize
    ensures within { result ≤ length bytes.now }
    ensures before { (k : ℕ) → k < result → is_line_end (slice_index bytes.now k) ≡ false }
    ensures at { result < length bytes.now → is_line_end (slice_index bytes.now result) ≡ true }
{
    memchr(b'\n', bytes).unwrap_or(bytes.len())
}

/// The bytes before the first line end, and those after it. Takes no memory.
pub fn cut_line(bytes: &[u8]) -> Option<(&[u8], &[u8])>
    ensures cut { option_map (λ p. (p.0.now, p.1.now)) result ≡ cut_line bytes.now }
    ensures shorter { IfSome result (λ p. length p.1.now < length bytes.now) }
{
    let end = line_end(bytes);
    if end < bytes.len() {
        Some((&bytes[..end], &bytes[end + 1..]))
    } else {
        None
    }
}

/// The bytes up to the first line end, with it, and those after it. Takes no memory.
pub(crate) fn split_line(bytes: &[u8]) -> Option<(&[u8], &[u8])>
    ensures both { IfSome result (λ p. bytes.now ≡ p.0.now ++ p.1.now) }
    ensures line { IfSome result (λ p. IsLine p.0.now) }
    ensures shorter { IfSome result (λ p. length p.1.now < length bytes.now) }
    ensures none { result ≡ None → HasNoEnd bytes.now }
{
    let end = line_end(bytes);
    if end < bytes.len() {
        Some((&bytes[..end + 1], &bytes[end + 1..]))
    } else {
        None
    }
}
