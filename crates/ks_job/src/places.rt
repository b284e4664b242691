//! Places, copied and compared.
ghost use Rattle.std.specs.Prelude.{◌≡◌, IfOk, true};
ghost use Rattle.ks_job.specs.Lines.{spot};

use crate::place::Place;
use ks_record::{Name, Seq};
use std::alloc::{AllocError, Global};

/// A copy of these names. `Err` only where memory ran out.
pub fn copy_topics(alloc: Global, topics: &Seq<Name>) -> Result<Seq<Name>, AllocError>
    ensures { IfOk result (λ s. s ≡ topics.now) }
{
    let mut copies = Vec::new(alloc);
    let mut rest = topics.as_slice();
    while let [first, more @ ..] = rest {
        copies.push(first.clone()?)?;
        rest = more;
    }
    Ok(Seq::of(copies))
}

/// A copy of the place. `Err` only where memory ran out.
pub fn copy_place(alloc: Global, place: &Place) -> Result<Place, AllocError>
    ensures { IfOk result (λ p. spot p ≡ spot place.now) }
{
    let topics = match &place.topics {
        Some(topics) => Some(copy_topics(alloc, topics)?),
        None => None,
    };
    Ok(Place {
        line: place.line,
        start: place.start,
        topics,
        records: place.records,
    })
}

fn are_same_names(a: &[Name], b: &[Name]) -> bool
    ensures { result ≡ true → a.now ≡ b.now }
{
    a == b
}

fn is_same_topics(a: &Option<Seq<Name>>, b: &Option<Seq<Name>>) -> bool
    ensures { result ≡ true → a.now ≡ b.now }
{
    match (a, b) {
        (Some(a), Some(b)) => are_same_names(a.as_slice(), b.as_slice()),
        (None, None) => true,
        _ => false,
    }
}

/// Whether two places are one.
pub fn is_same_place(a: &Place, b: &Place) -> bool
    ensures { result ≡ true → spot a.now ≡ spot b.now }
{
    a.line == b.line
        && a.start == b.start
        && a.records == b.records
        && is_same_topics(&a.topics, &b.topics)
}
