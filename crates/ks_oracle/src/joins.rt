//! Joins of two tables.
ghost use Rattle.std.specs.Prelude.{◌≡◌, ◌++◌, Some, fold, map, OnOk, IfOk, option_copied};
ghost use Rattle.ks_expr.specs.Terms.{set_of};
ghost use Rattle.ks_expr.specs.Eval.{joined as joined_row};
ghost use Rattle.ks_expr.specs.Keys.{fk_of as foreign_key};
ghost use Rattle.ks_def_runs.specs.Bytes.{by_bytes};
ghost use Rattle.ks_def_runs.specs.FinMap as fin;
ghost use Rattle.ks_def_runs.specs.Table.{write};
ghost use Rattle.ks_query.specs.Query.{map_values, key_join, foreign_join, right_row};

use crate::Rows;
use ks_expr::{Fk, JoinKind, Proj, fk_of};
use ks_record::Key;
use ks_row::Row;
use ks_table_ops::join_rows;
use std::alloc::{AllocError, Global};

// The joined row at each key of these entries.
fn join_keys(
    alloc: Global,
    kind: JoinKind,
    set: &Proj,
    left: &Rows,
    right: &Rows,
    joined: &mut Rows,
    entries: &[(Key, Row)],
) -> Result<(), AllocError>
    ensures { OnOk result (joined.new ≡ fold (λ t k. write by_bytes t k
        (joined_row kind (set_of set.now) (fin.get left.now k) (fin.get right.now k))) joined.old
        (map (λ e. e.0) entries.now)) }
{
    let mut rest = entries;
    while let [(key, _), more @ ..] = rest {
        let row = join_rows(alloc, kind, set, left.get(key), right.get(key))?;
        joined.set(key.clone()?, row)?;
        rest = more;
    }
    Ok(())
}

/// The join of two tables, row by row of one key.
pub fn joined_rows(
    alloc: Global,
    kind: JoinKind,
    set: &Proj,
    left: &Rows,
    right: &Rows,
) -> Result<Rows, AllocError>
    ensures { IfOk result (λ t. t ≡ key_join kind (set_of set.now) left.now right.now) }
{
    let mut joined = Rows::new(alloc);
    join_keys(
        alloc,
        kind,
        set,
        left,
        right,
        &mut joined,
        &left.list(alloc)?,
    )?;
    join_keys(
        alloc,
        kind,
        set,
        left,
        right,
        &mut joined,
        &right.list(alloc)?,
    )?;
    Ok(joined)
}

// The right row at the foreign key of a left key and its row.
fn right_at<'a>(
    alloc: Global,
    fk: &Fk,
    key: &Key,
    row: &Row,
    right: &'a Rows,
) -> Result<Option<&'a Row>, AllocError>
    ensures { IfOk result (λ o. option_copied o ≡ right_row right.now
        (foreign_key fk.now key.now row.now)) }
{
    match fk_of(alloc, fk, key, row)? {
        Some(foreign) => Ok(right.get(&foreign)),
        None => Ok(None),
    }
}

/// The join of two tables on a foreign key: `fk` gives the key of the right row, of a left key and its row.
pub fn foreign_rows(
    alloc: Global,
    fk: &Fk,
    kind: JoinKind,
    set: &Proj,
    left: &Rows,
    right: &Rows,
) -> Result<Rows, AllocError>
    ensures { IfOk result (λ t. t ≡ foreign_join fk.now kind (set_of set.now) left.now right.now) }
{
    let list = left.list(alloc)?;
    let mut joined = Rows::new(alloc);
    let mut rest = list.as_slice();
    while let [(key, row), more @ ..] = rest {
        let found = right_at(alloc, fk, key, row, right)?;
        joined.set(key.clone()?, join_rows(alloc, kind, set, Some(row), found)?)?;
        rest = more;
    }
    Ok(joined)
}
