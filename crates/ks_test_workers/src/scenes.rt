//! What workers do one after another, and what is then told of them.
use ks_assign::Placing;
use ks_edge::Act;

/// One of two workers.
#[derive(Clone, Copy, PartialEq, Eq, Debug)]
pub enum Who {
    First,
    Second,
}

/// A worker takes a turn that ends with this act; or does the act alone, outside of a turn; or lends its tasks and replicas, which are asked
/// for the order o1 at this position or a later one.
#[derive(Clone, Copy)]
pub enum Does {
    Turn(Act),
    Act(Act),
    Lend(u64),
}

/// What a worker does, and what is told of it afterwards, or what is answered; where that is no text, nothing is looked at.
pub type Move<'a> = (Who, Does, &'a str);

/// What two workers do one after another.
#[derive(Clone, Copy)]
pub struct Scene<'a> {
    pub moves: &'a [Move<'a>],
    /// What the workers, and the group, want of an assignment; with one thread they are of two instances, else of one.
    pub placing: Placing,
    /// The turn and the step at which the first worker is cut off.
    pub cut: Option<(u64, u32)>,
    /// The lines of the journal that tell of offsets that were decided on, of members, places, positions and the shelf; where that is no text,
    /// nothing is looked at.
    pub lines: &'a str,
    /// How many lists of records the drain appends afterwards.
    pub appends: usize,
}
