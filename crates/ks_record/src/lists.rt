//! Lists that contracts see as lists, whatever keeps them.
ghost use Rattle.std.specs.Prelude.{◌≡◌, ◌≤◌, ◌++◌, ◌∷◌, [], IfOk, OnOk, OnErr, length};

use arrayvec::ArrayVec;
use bytes::Bytes;
use std::alloc::{AllocError, Global};
use std::marker::Model;

/// A list, which contracts see as such.
#[derive(Drop)]
pub struct Seq<T> {
    items: Vec<T>,
}

impl<T> Model for Seq<T> {
    ghost use Rattle.std.specs.Prelude.{List};

    ghost Value = { List T };

    ghost view = { λ s. s.items.items };
}

impl<T> Seq<T> {
    /// The empty list; takes no memory.
    pub fn new(alloc: Global) -> Seq<T>
        ensures { result ≡ [] }
    {
        Seq {
            items: Vec::new(alloc),
        }
    }

    /// The list of a vector; takes no memory.
    pub fn of(items: Vec<T>) -> Seq<T>
        ensures { result ≡ items.items }
    {
        Seq { items }
    }

    /// The vector of the list; takes no memory.
    pub fn into_vec(self) -> Vec<T>
        ensures { result.items ≡ self }
    {
        self.items
    }

    /// Its items, in order.
    pub fn as_slice(&self) -> &[T]
        ensures { result.now ≡ self.now }
    {
        self.items.as_slice()
    }

    /// How many items it has.
    pub fn len(&self) -> usize
        ensures { result ≡ length self.now }
    {
        self.items.len()
    }
}

impl<T: Drop> Seq<T> {
    /// One more at the end; after want of memory the list is as before.
    pub fn push(&mut self, item: T) -> Result<(), AllocError>
        ensures ok { OnOk result (self.new ≡ self.old ++ item ∷ []) }
        ensures err { OnErr result (self.new ≡ self.old) }
    {
        self.items.push(item)?;
        Ok(())
    }

    /// More at the end; after want of memory the list is as before.
    pub fn append(&mut self, more: Vec<T>) -> Result<(), AllocError>
        ensures ok { OnOk result (self.new ≡ self.old ++ more.items) }
        ensures err { OnErr result (self.new ≡ self.old) }
    {
        let mut more = more;
        self.items.append(&mut more)?;
        Ok(())
    }
}

// Bytes that stand in the value itself, or in a block that copies share. As many stand in the value as a shared block's handle
// takes room for.
#[derive(Drop, Debug)]
enum Payload {
    Short(ArrayVec<u8, 32>),
    Shared(Bytes),
}

/// Bytes, which contracts see as a list. Up to 32 stand in the value itself; more are shared by its copies, of which the last
/// lets them go.
#[derive(Drop, Debug)]
pub struct Blob {
    payload: Payload,
}

impl Model for Blob {
    ghost use Rattle.std.specs.Prelude.{ℕ, List};
    ghost use Rattle.ks_record.specs.Payloads.{bytes_of};

    ghost Value = { List ℕ };

    ghost view = { λ b. bytes_of b.payload };
}

impl Clone for Blob {
    ghost is_clone = { λ b copy. copy ≡ b };

    fn clone(&self) -> Result<Blob, AllocError> {
        match &self.payload {
            Payload::Short(bytes) => Ok(Blob {
                payload: Payload::Short(short(bytes.as_slice())),
            }),
            Payload::Shared(bytes) => Ok(Blob {
                payload: Payload::Shared(bytes.clone()?),
            }),
        }
    }
}

// A copy of few bytes.
fn short(bytes: &[u8]) -> ArrayVec<u8, 32>
    requires { length bytes.now ≤ 32 }
    ensures { result.items ≡ bytes.now }
{
    let mut kept = ArrayVec::new();
    match kept.try_extend_from_slice(bytes) {
        Ok(()) => kept,
        Err(_) => unreachable!(),
    }
}

impl Blob {
    /// The bytes of a vector, of which more than 32 aren't copied.
    pub fn of(bytes: Vec<u8>) -> Result<Blob, AllocError>
        ensures { IfOk result (λ b. b ≡ bytes.items) }
    {
        if bytes.len() <= 32 {
            return Ok(Blob {
                payload: Payload::Short(short(bytes.as_slice())),
            });
        }
        match Bytes::from_vec(bytes) {
            Ok(bytes) => Ok(Blob {
                payload: Payload::Shared(bytes),
            }),
            Err(_) => Err(AllocError),
        }
    }

    /// Few bytes.
    pub(crate) fn of_short(bytes: ArrayVec<u8, 32>) -> Blob
        ensures { result ≡ bytes.items }
    {
        Blob {
            payload: Payload::Short(bytes),
        }
    }

    /// A copy of these bytes.
    pub fn from_slice(alloc: Global, bytes: &[u8]) -> Result<Blob, AllocError>
        ensures { IfOk result (λ b. b ≡ bytes.now) }
    {
        if bytes.len() <= 32 {
            return Ok(Blob {
                payload: Payload::Short(short(bytes)),
            });
        }
        Ok(Blob {
            payload: Payload::Shared(Bytes::copy_from_slice(alloc, bytes)?),
        })
    }

    /// Its bytes.
    pub fn as_slice(&self) -> &[u8]
        ensures { result.now ≡ self.now }
    {
        match &self.payload {
            Payload::Short(bytes) => bytes.as_slice(),
            Payload::Shared(bytes) => bytes.as_slice(),
        }
    }
}
