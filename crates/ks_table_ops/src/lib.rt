//! What a table's filter, map and key join make of the present rows of their inputs (Kafka Streams developer guide, "KTable
//! filter and mapValues" and "Joining": KTable-KTable equi-join).
#![tactic(auto)]

ghost use Rattle.std.specs.Prelude.{◌≡◌, Some, None, IfOk, option_copied, option_and_then, cond, is_some};
ghost use Rattle.ks_expr.specs.Terms.{test_of, set_of};
ghost use Rattle.ks_expr.specs.Eval.{holds as is_met, project as projected, joined, asks};

use ks_expr::{JoinKind, Pred, Proj, holds, project};
use ks_row::{Change, Row};
use std::alloc::{AllocError, Global};

/// The row itself where it meets the predicate; none where there is no row or it doesn't.
pub fn filter_row(test: &Pred, row: Option<&Row>) -> Result<Option<Row>, AllocError>
    ensures { IfOk result (λ r. r ≡ option_and_then
        (λ v. cond (is_met (test_of test.now) v) (Some v) None) (option_copied row.entry)) }
{
    let Some(row) = row else {
        return Ok(None);
    };
    if holds(test, row) {
        Ok(Some(row.clone()?))
    } else {
        Ok(None)
    }
}

/// The projected row; none where there is no row, or no field is left.
pub fn map_row(alloc: Global, set: &Proj, row: Option<&Row>) -> Result<Option<Row>, AllocError>
    ensures { IfOk result (λ r. r ≡ option_and_then (λ v. projected (set_of set.now) (Some v) None)
        (option_copied row.entry)) }
{
    let Some(row) = row else {
        return Ok(None);
    };
    project(alloc, set, Some(row), None)
}

/// Whether a join of this kind has a row, by which of its sides have one.
fn is_asked(kind: JoinKind, left: bool, right: bool) -> bool
    ensures { result ≡ asks kind left right }
{
    match kind {
        JoinKind::Inner => left && right,
        JoinKind::Left => left,
        JoinKind::Outer => left || right,
    }
}

/// The row of a join from the present rows of its sides; none where the kind asks for a side that has none, or where no
/// projected field is there.
pub fn join_rows(
    alloc: Global,
    kind: JoinKind,
    set: &Proj,
    left: Option<&Row>,
    right: Option<&Row>,
) -> Result<Option<Row>, AllocError>
    ensures { IfOk result (λ r. r ≡ joined kind (set_of set.now) (option_copied left.entry)
        (option_copied right.entry)) }
{
    if is_asked(kind, left.is_some(), right.is_some()) {
        project(alloc, set, left, right)
    } else {
        Ok(None)
    }
}

/// The row of a key join after a step in which its sides changed so: that of the rows which they have after the step. A side that
/// did not change has the same row before and after.
pub fn joined_after(
    alloc: Global,
    kind: JoinKind,
    set: &Proj,
    left: &Change,
    right: &Change,
) -> Result<Option<Row>, AllocError>
    ensures { IfOk result (λ r. r ≡ joined kind (set_of set.now) left.now.new right.now.new) }
{
    join_rows(alloc, kind, set, left.new.as_ref(), right.new.as_ref())
}
