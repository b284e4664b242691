//! A text in memory as a source that never fails.
ghost use Rattle.std.specs.Prelude.{◌≡◌, ◌≤◌, ◌++◌, Some, drop, length, take};
ghost use Rattle.std.specs.Io.{ReadsAtMost};
ghost use Rattle.std.specs.Io.KnownBytes.{ReadConsumes};
ghost use Rattle.ks_edge.specs.Causes.{HasCause};

use ks_edge::{Failed, Source};
use ks_record::Blob;
use std::marker::Model;

/// Gives the bytes of a text.
#[derive(Drop)]
pub(crate) struct TextSource {
    text: Blob,
    // how many bytes were given
    position: usize,
}

impl Model for TextSource {
    ghost use Rattle.std.specs.Prelude.{ℕ, List, ◌≤◌, drop, length};

    ghost Value = { List ℕ };

    ghost view = { λ s. drop s.position s.text };

    ghost invariant = { λ s. s.position ≤ length s.text };
}

impl TextSource {
    /// A source that gives this text from its first byte on.
    pub fn new(text: Blob) -> TextSource
        ensures { result ≡ text }
    {
        TextSource { text, position: 0 }
    }
}

impl Source for TextSource {
    ghost left = { λ s. Some s };

    ghost faults = { λ s. 0 };

    fn take(&mut self, buf: &mut [u8]) -> Result<usize, Failed>
        ensures bound { ReadsAtMost result buf.new }
        ensures bytes { ReadConsumes (Some self.old) (Some self.new) result buf.new }
        ensures cause { HasCause 0 0 result }
    {
        let count = copy_front(&self.text.as_slice()[self.position..], buf);
        self.position += count;
        Ok(count)
    }
}

// Copies a front of the bytes into the buffer, as many as it has room for.
fn copy_front(bytes: &[u8], buf: &mut [u8]) -> usize
    ensures within { result ≤ length bytes.now }
    ensures count { result ≡ length (take (length buf.old) bytes.now) }
    ensures copied { buf.new ≡ take (length buf.old) bytes.now ++ drop result buf.old }
{
    let count = buf.len().min(bytes.len());
    buf[..count].copy_from_slice(&bytes[..count]);
    count
}
