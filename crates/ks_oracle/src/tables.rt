//! The rows of source tables, and of filters and maps of tables.
ghost use Rattle.std.specs.Prelude.{◌≡◌, [], ◌∷◌, Some, None, cond, fold, OnOk, IfOk};
ghost use Rattle.ks_expr.specs.Terms.{test_of, set_of};
ghost use Rattle.ks_expr.specs.Eval.{holds, project};
ghost use Rattle.ks_def_runs.specs.Bytes.{by_bytes};
ghost use Rattle.ks_def_runs.specs.FinMap as fin;
ghost use Rattle.ks_def_runs.specs.Table.{write, latest};
ghost use Rattle.ks_query.specs.Query.{of_topic, table_changes, map_values};

use crate::Rows;
use crate::record::JobRecord;
use ks_expr::{Pred, Proj};
use ks_table_ops::{filter_row, map_row};
use std::alloc::{AllocError, Global};

// What a record does to its topic's table; nothing where it has no key.
fn change_row(rows: &mut Rows, input: &JobRecord) -> Result<(), AllocError>
    ensures { OnOk result (rows.new ≡ fold (λ m r. write by_bytes m r.0 r.1) rows.old
        (table_changes (input.now ∷ []))) }
{
    let Some(key) = input.key() else {
        return Ok(());
    };
    let row = match input.row() {
        Some(row) => Some(row.clone()?),
        None => None,
    };
    rows.set(key.clone()?, row)
}

/// The table of a source: the last row of each key.
#[tactic(auto, using(crate::proofs::Lists::change_made))]
pub fn latest_rows(alloc: Global, topic: u16, records: &[JobRecord]) -> Result<Rows, AllocError>
    ensures { IfOk result (λ t. t ≡ latest by_bytes (table_changes (of_topic topic records.now))) }
{
    let mut rows = Rows::new(alloc);
    let mut rest = records;
    while let [record, more @ ..] = rest {
        if record.topic() == topic {
            change_row(&mut rows, record)?;
        }
        rest = more;
    }
    Ok(rows)
}

/// The rows that meet the predicate.
pub fn filtered_rows(alloc: Global, test: &Pred, rows: &Rows) -> Result<Rows, AllocError>
    ensures { IfOk result (λ t. t ≡ map_values
        (λ v. cond (holds (test_of test.now) v) (Some v) None) rows.now) }
{
    let list = rows.list(alloc)?;
    let mut kept = Rows::new(alloc);
    let mut rest = list.as_slice();
    while let [(key, row), more @ ..] = rest {
        kept.set(key.clone()?, filter_row(test, Some(row))?)?;
        rest = more;
    }
    Ok(kept)
}

/// The projected rows, of those that have one.
pub fn mapped_rows(alloc: Global, set: &Proj, rows: &Rows) -> Result<Rows, AllocError>
    ensures { IfOk result (λ t. t ≡ map_values (λ v. project (set_of set.now) (Some v) None)
        rows.now) }
{
    let list = rows.list(alloc)?;
    let mut made = Rows::new(alloc);
    let mut rest = list.as_slice();
    while let [(key, row), more @ ..] = rest {
        made.set(key.clone()?, map_row(alloc, set, Some(row))?)?;
        rest = more;
    }
    Ok(made)
}
