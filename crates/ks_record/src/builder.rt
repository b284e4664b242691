//! Bytes that are put together, of which few stand in the value itself.
ghost use Rattle.std.specs.Prelude.{◌≡◌, ◌++◌, ◌∷◌, [], IfOk, OnOk, OnErr};

use crate::lists::Blob;
use arrayvec::ArrayVec;
use std::alloc::{AllocError, Global};
use std::marker::Model;

/// Bytes that grow at their end, of which a payload is made; contracts see them as a list. Up to 32 take no block of memory.
#[derive(Drop)]
pub struct BlobBuilder {
    alloc: Global,
    // all bytes, while there are at most 32
    short: ArrayVec<u8, 32>,
    // all bytes, once there were more
    long: Option<Vec<u8>>,
}

impl Model for BlobBuilder {
    ghost use Rattle.std.specs.Prelude.{ℕ, List};
    ghost use Rattle.ks_record.specs.Payloads.{built_of};

    ghost Value = { List ℕ };

    ghost view = { λ b. built_of b.short.items b.long };
}

// The bytes one behind the other, with room for some more.
fn joined(alloc: Global, front: &[u8], more: &[u8]) -> Result<Vec<u8>, AllocError>
    ensures { IfOk result (λ bytes. bytes.items ≡ front.now ++ more.now) }
{
    let mut bytes = Vec::with_capacity(alloc, more.len().saturating_add(64))?;
    bytes.extend_from_slice(front)?;
    bytes.extend_from_slice(more)?;
    Ok(bytes)
}

impl BlobBuilder {
    /// No bytes yet; takes no memory.
    pub fn new(alloc: Global) -> BlobBuilder
        ensures { result ≡ [] }
    {
        BlobBuilder {
            alloc,
            short: ArrayVec::new(),
            long: None,
        }
    }

    /// One more byte; after want of memory the bytes are as before.
    pub fn push(&mut self, byte: u8) -> Result<(), AllocError>
        ensures ok { OnOk result (self.new ≡ self.old ++ byte ∷ []) }
        ensures err { OnErr result (self.new ≡ self.old) }
    {
        if self.long.is_some() {
            return self.extend_from_slice(&[byte]);
        }
        match self.short.try_push(byte) {
            Ok(()) => Ok(()),
            Err(_) => self.extend_from_slice(&[byte]),
        }
    }

    /// More bytes; after want of memory the bytes are as before.
    pub fn extend_from_slice(&mut self, bytes: &[u8]) -> Result<(), AllocError>
        ensures ok { OnOk result (self.new ≡ self.old ++ bytes.now) }
        ensures err { OnErr result (self.new ≡ self.old) }
    {
        if let Some(long) = &mut self.long {
            long.extend_from_slice(bytes)?;
            return Ok(());
        }
        if self.short.try_extend_from_slice(bytes).is_ok() {
            return Ok(());
        }
        self.long = Some(joined(self.alloc, self.short.as_slice(), bytes)?);
        Ok(())
    }

    /// The payload of all bytes, with no more room than they take.
    pub fn into_blob(self) -> Result<Blob, AllocError>
        ensures { IfOk result (λ b. b ≡ self) }
    {
        match self.long {
            Some(long) => {
                let mut long = long;
                long.shrink_to_fit();
                Blob::of(long)
            }
            None => Ok(Blob::of_short(self.short)),
        }
    }
}
