//! All producers: each call is a producer's part of a request.
ghost use Rattle.std.specs.Prelude.{◌≡◌, ◌≤◌, ◌<◌, ◌+◌, ◌-◌, ◌^◌, IfOk, OnErr, length, replicate, set, drop};
ghost use Rattle.ks_history.specs.State.{new_producer};
ghost use Rattle.ks_history.specs.Step.{is_undecided, markers_waiting, closed, renewed};
ghost use Rattle.ks_txn.specs.Outcomes.{producer_at, done_by, changed_by, start_fault, has_fault, decide_fault, started, added, first_marker};

use crate::txn::Txn;
use ks_history::Producer;
use ks_record::{Marker, PartId, Refused};
use std::alloc::{AllocError, Global};
use std::marker::Model;

/// Producers 0 to 16, each with its epoch, its undecided transaction, how the last one of its epoch was decided, and its markers
/// that wait (KIP-98: the transaction coordinator). It is seen as the list of the definitions' producers; the tasks and offsets of
/// their transactions aren't kept here. In all calls `w` is at most 16.
#[derive(Drop)]
pub struct Txns {
    producers: Vec<Txn>,
}

impl Model for Txns {
    ghost use Rattle.std.specs.Prelude.{◌≡◌, List, length};
    ghost use Rattle.ks_history.specs.declared.transaction.Producer.{Producer};

    ghost Value = { List Producer };

    ghost view = { λ t. t.producers.items };

    ghost invariant = { λ t. length t.producers.items ≡ 17 };
}

impl Txns {
    /// 17 producers of epoch 0, none with a transaction. Want of memory is the one error.
    pub fn new(alloc: Global) -> Result<Txns, AllocError>
        ensures { IfOk result (λ t. t ≡ replicate 17 new_producer) }
    {
        let mut producers = Vec::new(alloc);
        for _ in 0..17usize {
            producers.push(Txn::new(alloc))?;
        }
        Ok(Txns { producers })
    }

    /// The epoch of a producer.
    pub fn epoch(&self, w: u8) -> u64
        requires { w ≤ 16 }
        ensures { result ≡ (producer_at self.now w).epoch }
    {
        self.producers[w as usize].epoch()
    }

    /// Whether a producer has an undecided transaction.
    pub fn undecided(&self, w: u8) -> bool
        requires { w ≤ 16 }
        ensures { result ≡ is_undecided (producer_at self.now w) }
    {
        self.producers[w as usize].is_undecided()
    }

    /// How many markers of a producer wait.
    pub fn waiting(&self, w: u8) -> u32
        requires { w ≤ 16 }
        ensures { result ≡ length (producer_at self.now w).waiting }
    {
        self.producers[w as usize].waiting()
    }

    /// Why a producer may not begin a transaction: MarkersWaiting, with how many, where nothing is undecided and markers wait; else
    /// none.
    pub fn markers_refusal(&self, w: u8) -> Option<Refused>
        requires { w ≤ 16 }
        ensures { result ≡ markers_waiting (producer_at self.now w) }
    {
        self.producers[w as usize].markers_refusal()
    }

    /// All producers with their transactions and their waiting markers, copied; the tasks and offsets of the transactions are left
    /// out. Want of memory for the copies is the one error. Kafka: `Admin.describeProducers` (KIP-664).
    pub fn describe(&self, alloc: Global) -> Result<Vec<Producer>, AllocError>
        ensures { IfOk result (λ made. made.items ≡ self.now) }
    {
        let mut made = Vec::new(alloc);
        for p in self.producers.as_slice() {
            made.push(p.describe(alloc)?)?;
        }
        Ok(made)
    }

    /// Begins a new epoch of a producer, below 2^64, and answers it: an undecided transaction is aborted, and its markers wait. In
    /// the new epoch no transaction was decided.
    pub fn init(&mut self, w: u8) -> u64
        requires worker { w ≤ 16 }
        requires below { (producer_at self.old w).epoch < 2 ^ 64 - 1 }
        ensures epoch { result ≡ (producer_at self.old w).epoch + 1 }
        ensures producers { self.new ≡ set self.old w (renewed (producer_at self.old w)) }
    {
        let p = &mut self.producers[w as usize];
        p.renew();
        p.epoch()
    }

    /// Takes a partition into the producer's transaction, which begins where there is none. Refused: Fenced where the epoch isn't
    /// the producer's, then MarkersWaiting where nothing is undecided and markers wait. Want of memory is the outer error, which
    /// comes also where the transaction would have 2^32 partitions. After a refusal or want of memory all is as before.
    pub fn add(
        &mut self,
        alloc: Global,
        w: u8,
        epoch: u64,
        part: PartId,
    ) -> Result<Result<(), Refused>, AllocError>
        requires { w ≤ 16 }
        ensures ok { IfOk result (λ r. r ≡ done_by (start_fault (producer_at self.old w) epoch)) }
        ensures producers { IfOk result (λ r. self.new
            ≡ changed_by (start_fault (producer_at self.old w) epoch) self.old w
            (added (producer_at self.old w) part)) }
        ensures err { OnErr result (self.new ≡ self.old) }
    {
        let p = &mut self.producers[w as usize];
        if let Some(refused) = p.start_refusal(epoch) {
            return Ok(Err(refused));
        }
        p.add(alloc, part)?;
        Ok(Ok(()))
    }

    /// Begins a transaction of the producer where there is none, for offsets that are sent. Refused as `add`, and then all is as
    /// before.
    pub fn start(&mut self, w: u8, epoch: u64) -> Result<(), Refused>
        requires { w ≤ 16 }
        ensures answer { result ≡ done_by (start_fault (producer_at self.old w) epoch) }
        ensures producers { self.new ≡ changed_by (start_fault (producer_at self.old w) epoch)
            self.old w (started (producer_at self.old w)) }
    {
        let p = &mut self.producers[w as usize];
        if let Some(refused) = p.start_refusal(epoch) {
            return Err(refused);
        }
        p.start();
        Ok(())
    }

    /// Whether the producer may append to a partition. Refused: Fenced where the epoch isn't the producer's, then NoTransaction
    /// where no undecided transaction has this partition.
    pub fn has(&self, w: u8, epoch: u64, part: PartId) -> Result<(), Refused>
        requires { w ≤ 16 }
        ensures { result ≡ done_by (has_fault (producer_at self.now w) epoch part) }
    {
        match self.producers[w as usize].has_refusal(epoch, part) {
            Some(refused) => Err(refused),
            None => Ok(()),
        }
    }

    /// Decides the producer's transaction: from then on a marker waits for each of its partitions, in their order. Refused: Fenced
    /// where the epoch isn't the producer's; then, where none is undecided, AlreadyDecided with how the last one of this epoch was
    /// decided, or NoTransaction where none was. After a refusal all is as before.
    pub fn decide(&mut self, w: u8, epoch: u64, commit: bool) -> Result<(), Refused>
        requires { w ≤ 16 }
        ensures answer { result ≡ done_by (decide_fault (producer_at self.old w) epoch) }
        ensures producers { self.new ≡ changed_by (decide_fault (producer_at self.old w) epoch)
            self.old w (closed (producer_at self.old w) commit) }
    {
        let p = &mut self.producers[w as usize];
        if let Some(refused) = p.decide_refusal(epoch) {
            return Err(refused);
        }
        p.close(commit);
        Ok(())
    }

    /// The producer's first marker that waits; none exactly where none waits.
    pub fn next_marker(&self, w: u8) -> Option<Marker>
        requires { w ≤ 16 }
        ensures { result ≡ first_marker (producer_at self.now w).waiting }
    {
        self.producers[w as usize].next_marker()
    }

    /// The producer's first marker, which waits, is written, and waits no more.
    pub fn marked(&mut self, w: u8)
        requires worker { w ≤ 16 }
        requires waits { 0 < length (producer_at self.old w).waiting }
        ensures { self.new ≡ set self.old w (record (producer_at self.old w)
            { waiting = drop 1 (producer_at self.old w).waiting }) }
    {
        let p = &mut self.producers[w as usize];
        p.marked();
    }

    /// Fences a producer that is expired: its epoch, below 2^64, rises, and what was undecided is aborted, as by `init`.
    pub fn fence(&mut self, w: u8)
        requires worker { w ≤ 16 }
        requires below { (producer_at self.old w).epoch < 2 ^ 64 - 1 }
        ensures { self.new ≡ set self.old w (renewed (producer_at self.old w)) }
    {
        let p = &mut self.producers[w as usize];
        p.renew();
    }
}
