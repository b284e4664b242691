//! How positions move. Each law is the contract of a function that does nothing.
ghost use Rattle.ks_law_commit.specs.Moves.{FeedingMoves, FedTwice, ReadingMoves};

/// Feeding all that a fetch gives moves the position in that changelog, or nothing stable is left there.
pub fn feeding_moves()
    ensures { FeedingMoves }
{}

/// One feeding after another, with entries of others between.
pub fn fed_twice()
    ensures { FedTwice }
{}

/// Taking all that a fetch gives moves the position in that input, and nothing else but what was made.
pub fn reading_moves()
    ensures { ReadingMoves }
{}
