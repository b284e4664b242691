//! What is said and kept.
ghost use Rattle.std.specs.Prelude.{◌≡◌, ◌≤◌, IfSome};
ghost use Rattle.ks_wire.specs.Values.{SubscriptionValue, IsPart};

use ks_record::Key;
use ks_row::Row;
use std::marker::Model;

/// What the left side of a foreign-key join sends to a foreign key.
#[derive(Drop)]
pub struct Subscription {
    hash: Option<u128>,
    instruction: u8,
    left: Key,
    part: Option<u8>,
}

impl Model for Subscription {
    ghost use Rattle.std.specs.Prelude.{◌≤◌};
    ghost use Rattle.ks_wire.specs.Values.{SubscriptionValue, IsPart};

    ghost Value = { SubscriptionValue };

    ghost view = { λ s. record { hash = s.hash; instruction = s.instruction; left = s.left; part = s.part } };

    ghost invariant = { λ s. (s.instruction ≤ 3) × IsPart s.part };
}

impl Subscription {
    /// `hash` is that of the left row, where there is one; `instruction` is 0 to 3; `left` is the key of the left row; `part` is the
    /// partition of the left row's task, at most 63, where it can't be found from the key and a count.
    pub fn new(hash: Option<u128>, instruction: u8, left: Key, part: Option<u8>) -> Subscription
        requires instruction { instruction ≤ 3 }
        requires part { IsPart part }
        ensures { result ≡ record
            { hash = hash; instruction = instruction; left = left; part = part } }
    {
        Subscription {
            hash,
            instruction,
            left,
            part,
        }
    }

    /// The hash of the left row; none where there is no such row.
    pub fn hash(&self) -> Option<u128>
        ensures { result ≡ self.now.hash }
    {
        self.hash
    }

    /// 0 to 3.
    pub fn instruction(&self) -> u8
        ensures value { result ≡ self.now.instruction }
        ensures most { self.now.instruction ≤ 3 }
    {
        self.instruction
    }

    /// The key of the left row.
    pub fn left(&self) -> &Key
        ensures { result.now ≡ self.now.left }
    {
        &self.left
    }

    /// The partition that it names; none where the left key tells it.
    pub fn part(&self) -> Option<u8>
        ensures value { result ≡ self.now.part }
        ensures most { IsPart self.now.part }
    {
        self.part
    }

    /// The key of the left row, moved out.
    pub fn into_left(self) -> Key
        ensures { result ≡ self.left }
    {
        self.left
    }
}

/// What the right side of a foreign-key join answers to a left key.
#[derive(Drop)]
pub struct Response {
    /// That of the subscription.
    pub hash: Option<u128>,
    /// The right row; none where there is none.
    pub right: Option<Row>,
}

/// What a subscription store keeps of a left row that asked for answers.
#[derive(Clone, Copy, PartialEq, Eq)]
pub struct Subscriber {
    /// The hash of the left row.
    pub hash: u128,
    /// The partition that the subscription named.
    pub part: Option<u8>,
}

/// What a change of a table adds to or takes from an aggregate.
#[derive(Clone, Copy, PartialEq, Eq)]
pub struct Delta {
    pub add: bool,
    /// The field's number; 0 for a count.
    pub amount: i64,
}

/// A count or a sum as it is kept.
#[derive(Clone, Copy, PartialEq, Eq)]
pub struct Agg {
    /// How many items or rows it is over.
    pub members: i64,
    /// What their numbers add up to; 0 for a windowed count.
    pub total: i64,
}
