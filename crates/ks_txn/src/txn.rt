//! One producer and its transaction.
ghost use Rattle.std.specs.Prelude.{◌≡◌, ◌<◌, ◌-◌, ◌^◌, IfOk, OnOk, OnErr, None, length, drop};
ghost use Rattle.ks_history.specs.State.{insert_part, has_part, new_producer};
ghost use Rattle.ks_history.specs.Step.{tx_of, is_undecided, markers_waiting, closed, renewed, markers_for};
ghost use Rattle.ks_txn.specs.Outcomes.{start_fault, has_fault, decide_fault, started, added, first_marker};

use ks_history::{Producer, Transaction};
use ks_record::{Marker, PartId, Refused, Seq};
use std::alloc::{AllocError, Global};
use std::marker::Model;

/// A transaction has fewer partitions than this.
const LIMIT: usize = 4_294_967_296;

/// How far the transaction of a producer is.
#[derive(Clone, Copy)]
pub enum Stage {
    /// It is undecided.
    Open,
    /// It is decided, in this epoch: whether it commits, and for how many of its partitions the marker is written.
    Decided {
        epoch: u64,
        commit: bool,
        written: usize,
    },
}

/// A producer. It is seen as the producer of the definitions, without the tasks and offsets of its transaction.
#[derive(Drop)]
pub struct Txn {
    epoch: u64,
    /// How the last transaction of this epoch was decided.
    last: Option<bool>,
    /// The partitions of the transaction, rising.
    parts: Vec<PartId>,
    stage: Stage,
}

impl Model for Txn {
    ghost use Rattle.ks_history.specs.declared.transaction.Producer.{Producer};
    ghost use Rattle.ks_txn.specs.Stages.{seen, IsKept};

    ghost Value = { Producer };

    ghost view = { λ t. seen t.epoch t.last t.parts.items t.stage };

    ghost invariant = { λ t. IsKept t.parts.items t.stage };
}

/// Whether a partition is among these.
fn has_one_part(parts: &[PartId], part: PartId) -> bool
    ensures { result ≡ has_part part parts.now }
{
    for other in parts {
        if part.is(*other) {
            return true;
        }
    }
    false
}

/// Rising partitions with one more.
fn with_one_part(alloc: Global, parts: &[PartId], part: PartId) -> Result<Vec<PartId>, AllocError>
    ensures { IfOk result (λ made. made.items ≡ insert_part part parts.now) }
{
    let mut made = Vec::new(alloc);
    for (i, other) in parts.iter().enumerate() {
        if part.is(*other) {
            made.extend_from_slice(&parts[i..])?;
            return Ok(made);
        }
        if part.is_before(*other) {
            made.push(part)?;
            made.extend_from_slice(&parts[i..])?;
            return Ok(made);
        }
        made.push(*other)?;
    }
    made.push(part)?;
    Ok(made)
}

/// Partitions again: a copy with its own memory.
fn copy_parts(alloc: Global, parts: &[PartId]) -> Result<Vec<PartId>, AllocError>
    ensures { IfOk result (λ made. made.items ≡ parts.now) }
{
    let mut made = Vec::new(alloc);
    made.extend_from_slice(parts)?;
    Ok(made)
}

/// A marker for each of these partitions.
fn markers(
    alloc: Global,
    epoch: u64,
    commit: bool,
    parts: &[PartId],
) -> Result<Vec<Marker>, AllocError>
    ensures { IfOk result (λ made. made.items ≡ markers_for epoch commit parts.now) }
{
    let mut made = Vec::new(alloc);
    for part in parts {
        made.push(Marker {
            part: *part,
            epoch,
            commit,
        })?;
    }
    Ok(made)
}

impl Txn {
    /// A producer of epoch 0 without a transaction.
    pub fn new(alloc: Global) -> Txn
        ensures { result ≡ new_producer }
    {
        Txn {
            epoch: 0,
            last: None,
            parts: Vec::new(alloc),
            stage: Stage::Decided {
                epoch: 0,
                commit: false,
                written: 0,
            },
        }
    }

    /// The producer's epoch; 0 before its first.
    pub fn epoch(&self) -> u64
        ensures { result ≡ self.now.epoch }
    {
        self.epoch
    }

    /// Whether a transaction is open and neither committed nor aborted.
    pub fn is_undecided(&self) -> bool
        ensures { result ≡ is_undecided self.now }
    {
        match self.stage {
            Stage::Open => true,
            Stage::Decided { .. } => false,
        }
    }

    /// How many of its markers wait.
    pub fn waiting(&self) -> u32
        ensures { result ≡ length self.now.waiting }
    {
        match self.stage {
            Stage::Open => 0,
            Stage::Decided { written, .. } => (self.parts.len() - written) as u32,
        }
    }

    /// The first of its markers that wait.
    pub fn next_marker(&self) -> Option<Marker>
        ensures { result ≡ first_marker self.now.waiting }
    {
        match self.stage {
            Stage::Open => None,
            Stage::Decided {
                epoch,
                commit,
                written,
            } => {
                if written == self.parts.len() {
                    return None;
                }
                Some(Marker {
                    part: self.parts[written],
                    epoch,
                    commit,
                })
            }
        }
    }

    /// Its transaction, if one is undecided.
    fn transaction(&self, alloc: Global) -> Result<Option<Transaction>, AllocError>
        ensures { IfOk result (λ tx. tx ≡ self.now.undecided) }
    {
        match self.stage {
            Stage::Open => Ok(Some(Transaction {
                parts: Seq::of(copy_parts(alloc, self.parts.as_slice())?),
                tasks: Seq::new(alloc),
                pending: Seq::new(alloc),
            })),
            Stage::Decided { .. } => Ok(None),
        }
    }

    /// Its markers that wait.
    fn waiting_markers(&self, alloc: Global) -> Result<Vec<Marker>, AllocError>
        ensures { IfOk result (λ made. made.items ≡ self.now.waiting) }
    {
        match self.stage {
            Stage::Open => Ok(Vec::new(alloc)),
            Stage::Decided {
                epoch,
                commit,
                written,
            } => markers(alloc, epoch, commit, &self.parts[written..]),
        }
    }

    /// This producer as the definitions have it.
    pub fn describe(&self, alloc: Global) -> Result<Producer, AllocError>
        ensures { IfOk result (λ p. p ≡ self.now) }
    {
        Ok(Producer {
            epoch: self.epoch,
            undecided: self.transaction(alloc)?,
            last: self.last,
            waiting: Seq::of(self.waiting_markers(alloc)?),
        })
    }

    /// The partitions of its transaction, a new one where there is none.
    fn parts(&self) -> &[PartId]
        ensures { result.now ≡ (tx_of self.now).parts }
    {
        match self.stage {
            Stage::Open => self.parts.as_slice(),
            Stage::Decided { .. } => &[],
        }
    }

    /// Why it may not begin a transaction.
    pub fn markers_refusal(&self) -> Option<Refused>
        ensures { result ≡ markers_waiting self.now }
    {
        match self.stage {
            Stage::Open => None,
            Stage::Decided { .. } => {
                let left = self.waiting();
                if left == 0 {
                    return None;
                }
                Some(Refused::MarkersWaiting { left })
            }
        }
    }

    /// Why it may not begin or go on with a transaction.
    pub fn start_refusal(&self, epoch: u64) -> Option<Refused>
        ensures { result ≡ start_fault self.now epoch }
    {
        if epoch != self.epoch {
            return Some(Refused::Fenced { held: self.epoch });
        }
        self.markers_refusal()
    }

    /// Why it may not append to a partition.
    pub fn has_refusal(&self, epoch: u64, part: PartId) -> Option<Refused>
        ensures { result ≡ has_fault self.now epoch part }
    {
        if epoch != self.epoch {
            return Some(Refused::Fenced { held: self.epoch });
        }
        if has_one_part(self.parts(), part) {
            None
        } else {
            Some(Refused::NoTransaction)
        }
    }

    /// Why it may not decide.
    pub fn decide_refusal(&self, epoch: u64) -> Option<Refused>
        ensures { result ≡ decide_fault self.now epoch }
    {
        if epoch != self.epoch {
            return Some(Refused::Fenced { held: self.epoch });
        }
        match self.stage {
            Stage::Open => None,
            Stage::Decided { .. } => match self.last {
                None => Some(Refused::NoTransaction),
                Some(commit) => Some(Refused::AlreadyDecided { commit }),
            },
        }
    }

    /// Begins a transaction where there is none.
    pub fn start(&mut self)
        requires { markers_waiting self.old ≡ None }
        ensures { self.new ≡ started self.old }
    {
        match self.stage {
            Stage::Open => {}
            Stage::Decided { .. } => {
                self.parts.clear();
                self.stage = Stage::Open;
            }
        }
    }

    /// Takes a partition into the transaction, which begins where there is none.
    pub fn add(&mut self, alloc: Global, part: PartId) -> Result<(), AllocError>
        requires { markers_waiting self.old ≡ None }
        ensures ok { OnOk result (self.new ≡ added self.old part) }
        ensures err { OnErr result (self.new ≡ self.old) }
    {
        let parts = with_one_part(alloc, self.parts(), part)?;
        if parts.len() >= LIMIT {
            return Err(AllocError);
        }
        self.parts = parts;
        self.stage = Stage::Open;
        Ok(())
    }

    /// Decides the transaction, if one is undecided.
    pub fn close(&mut self, commit: bool)
        ensures { self.new ≡ closed self.old commit }
    {
        match self.stage {
            Stage::Open => {
                self.stage = Stage::Decided {
                    epoch: self.epoch,
                    commit,
                    written: 0,
                };
                self.last = Some(commit);
            }
            Stage::Decided { .. } => {}
        }
    }

    /// Begins a new epoch; what was undecided is aborted.
    pub fn renew(&mut self)
        requires { self.old.epoch < 2 ^ 64 - 1 }
        ensures { self.new ≡ renewed self.old }
    {
        self.close(false);
        self.epoch += 1;
        self.last = None;
    }

    /// The first marker that waits is written.
    pub fn marked(&mut self)
        requires { 0 < length self.old.waiting }
        ensures { self.new ≡ record self.old { waiting = drop 1 self.old.waiting } }
    {
        match self.stage {
            Stage::Open => {}
            Stage::Decided {
                epoch,
                commit,
                written,
            } => {
                self.stage = Stage::Decided {
                    epoch,
                    commit,
                    written: written + 1,
                };
            }
        }
    }
}
