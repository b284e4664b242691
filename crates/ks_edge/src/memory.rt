//! A source and a sink in memory, which tell their bytes and fail at the calls that they are told.
ghost use Rattle.std.specs.Prelude.{◌≡◌, ◌<◌, ◌≤◌, ◌++◌, Some, None, IfSome, false, [], drop, take, length, is_err, is_ok, IfOk, OnOk, if◌then◌else◌};
ghost use Rattle.std.specs.Io.{ReadsAtMost, WritesAtMost};
ghost use Rattle.std.specs.Io.KnownBytes.{ReadConsumes, WriteAppends};
ghost use Rattle.ks_edge.specs.Causes.{HasCause};
ghost use Rattle.ks_edge.specs.Memory.{is_listed, next_size, given, filled, after_take, within, after_put, after_failed_put};

use crate::sink::Sink;
use crate::source::{Failed, Source};
use std::alloc::Global;
use std::marker::Model;

/// Gives its bytes in pieces of the listed sizes, and then of the buffer's size.
#[derive(Drop)]
pub struct MemSource {
    bytes: Vec<u8>,
    sizes: Vec<usize>,
    failing: Vec<u64>,
    // how many bytes were given
    position: usize,
    // how many listed sizes were used up
    used: usize,
    calls: u64,
    faults: u64,
}

impl Model for MemSource {
    ghost use Rattle.std.specs.Prelude.{◌≤◌, drop, length};
    ghost use Rattle.ks_edge.specs.Memory.{Feed};

    ghost Value = { Feed };

    ghost view = { λ s. record {
      left = drop s.position s.bytes.items;
      sizes = drop s.used s.sizes.items;
      failing = s.failing.items;
      calls = s.calls;
      faults = s.faults;
    } };

    ghost invariant = { λ s. (s.position ≤ length s.bytes.items) × (s.used ≤ length s.sizes.items) };
}

impl MemSource {
    /// A source of these bytes, which fails at the calls whose numbers, from 0, are listed in `failing`.
    pub fn new(bytes: Vec<u8>, cuts: Vec<usize>, failing: Vec<u64>) -> Self
        ensures { result ≡ record {
          left = bytes.items;
          sizes = cuts.items;
          failing = failing.items;
          calls = 0;
          faults = 0;
        } }
    {
        MemSource {
            bytes,
            sizes: cuts,
            failing,
            position: 0,
            used: 0,
            calls: 0,
            faults: 0,
        }
    }
}

impl Source for MemSource {
    ghost left = { λ s. Some s.left };

    ghost faults = { λ s. s.faults };

    fn take(&mut self, buf: &mut [u8]) -> Result<usize, Failed>
        ensures bound { ReadsAtMost result buf.new }
        ensures bytes { ReadConsumes (Some self.old.left) (Some self.new.left) result buf.new }
        ensures cause { HasCause self.old.faults self.new.faults result }
        ensures fails { is_err result ≡ is_listed self.old.failing self.old.calls }
        ensures count { IfOk result (λ count. count ≡ length (given self.old (length buf.old))) }
        ensures buffer { buf.new ≡ filled self.old buf.old }
        ensures after { self.new ≡ after_take self.old (length buf.old) }
    {
        let call = self.calls;
        self.calls = call.saturating_add(1);
        if is_one_of(&self.failing, call) {
            self.faults = self.faults.saturating_add(1);
            return Err(Failed);
        }
        let size = piece_size(&self.sizes[self.used..], buf.len());
        let count = copy_front(&self.bytes[self.position..], size, buf);
        self.used = one_past(&self.sizes, self.used);
        self.position += count;
        Ok(count)
    }
}

fn is_one_of(failing: &[u64], call: u64) -> bool
    ensures { result ≡ is_listed failing.now call }
{
    failing.contains(&call)
}

// The place after the next size; where no size is left, the end.
fn one_past(sizes: &[usize], used: usize) -> usize
    requires { used ≤ length sizes.now }
    ensures within { result ≤ length sizes.now }
    ensures rest { drop result sizes.now ≡ drop 1 (drop used sizes.now) }
{
    if used < sizes.len() { used + 1 } else { used }
}

// How many bytes the next piece may have, in a buffer with this room.
fn piece_size(sizes: &[usize], room: usize) -> usize
    ensures { result ≡ next_size sizes.now room }
{
    match sizes {
        [] => room,
        [size, ..] => (*size).max(1).min(room),
    }
}

// Copies a front of the bytes into the buffer, at most `size` of them.
fn copy_front(bytes: &[u8], size: usize, buf: &mut [u8]) -> usize
    requires { size ≤ length buf.old }
    ensures within { result ≤ length bytes.now }
    ensures count { result ≡ length (take size bytes.now) }
    ensures copied { buf.new ≡ take size bytes.now ++ drop result buf.old }
{
    let count = size.min(bytes.len());
    buf[..count].copy_from_slice(&bytes[..count]);
    count
}

/// Holds all that it takes.
#[derive(Drop)]
pub struct MemSink {
    bytes: Vec<u8>,
    // the most bytes of a piece that it takes, where there is a limit
    width: Option<u32>,
    failing: Vec<u64>,
    calls: u64,
    faults: u64,
}

impl Model for MemSink {
    ghost use Rattle.std.specs.Prelude.{◌≤◌, IfSome};
    ghost use Rattle.ks_edge.specs.Memory.{Tray};

    ghost Value = { Tray };

    ghost view = { λ s. record {
      held = s.bytes.items;
      width = s.width;
      failing = s.failing.items;
      calls = s.calls;
      faults = s.faults;
    } };

    ghost invariant = { λ s. IfSome s.width (λ w. 1 ≤ w) };
}

impl MemSink {
    /// An empty sink, which fails at the calls whose numbers, from 0, are listed in `failing`, and takes each other piece whole.
    pub fn new(alloc: Global, failing: Vec<u64>) -> Self
        ensures { result ≡ record {
          held = [];
          width = None;
          failing = failing.items;
          calls = 0;
          faults = 0;
        } }
    {
        MemSink {
            bytes: Vec::new(alloc),
            width: None,
            failing,
            calls: 0,
            faults: 0,
        }
    }

    /// An empty sink that takes at most `width` bytes a call, and fails at the calls whose numbers, from 0, are listed in `failing`.
    pub fn narrow(alloc: Global, width: u32, failing: Vec<u64>) -> Self
        requires { 1 ≤ width }
        ensures { result ≡ record {
          held = [];
          width = Some width;
          failing = failing.items;
          calls = 0;
          faults = 0;
        } }
    {
        MemSink {
            bytes: Vec::new(alloc),
            width: Some(width),
            failing,
            calls: 0,
            faults: 0,
        }
    }

    /// The bytes so far.
    pub fn held(&self) -> &[u8]
        ensures { result.now ≡ self.now.held }
    {
        self.bytes.as_slice()
    }
}

// How many bytes a sink of this width takes of a piece.
fn front_length(width: Option<u32>, piece: &[u8]) -> usize
    requires { IfSome width (λ w. 1 ≤ w) }
    ensures within { result ≤ length piece.now }
    ensures some { 0 < length piece.now → 0 < result }
    ensures front { take result piece.now ≡ within width piece.now }
    ensures count { result ≡ length (within width piece.now) }
{
    match width {
        None => piece.len(),
        Some(width) => piece.len().min(width as usize),
    }
}

impl Sink for MemSink {
    ghost held = { λ s. Some s.held };

    ghost faults = { λ s. s.faults };

    /// # Errors
    ///
    /// `Failed` at the listed calls, and where there is no memory for the piece.
    fn put(&mut self, piece: &[u8]) -> Result<usize, Failed>
        ensures bound { WritesAtMost result piece.now }
        ensures bytes { WriteAppends (Some self.old.held) (Some self.new.held) result piece.now }
        ensures progress { 0 < length piece.now → IfOk result (λ count. 0 < count) }
        ensures cause { HasCause self.old.faults self.new.faults result }
        ensures unlisted { OnOk result (is_listed self.old.failing self.old.calls ≡ false) }
        ensures count { IfOk result (λ count. count ≡ length (within self.old.width piece.now)) }
        ensures after { self.new ≡ (if is_ok result then after_put self.old piece.now else
            after_failed_put self.old) }
    {
        let call = self.calls;
        self.calls = call.saturating_add(1);
        let count = front_length(self.width, piece);
        if is_one_of(&self.failing, call)
            || self.bytes.extend_from_slice(&piece[..count]).is_err()
        {
            self.faults = self.faults.saturating_add(1);
            return Err(Failed);
        }
        Ok(count)
    }
}
