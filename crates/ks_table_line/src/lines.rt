//! The line of a row, read back.
ghost use Rattle.std.specs.Prelude.{◌≡◌, ◌++◌, ◌∷◌, [], ℕ, List, true, false, Some, IfOk};
ghost use Rattle.ks_query.specs.declared.table.TableRow.{TableRow as RowView};
ghost use Rattle.ks_query.specs.Printed.{row_line};
ghost use Rattle.ks_table_line.specs.Fitting.{HasStart, FitsTableRow, IsRowLine};

use crate::heads::is_without_end;
use crate::values::read_table_row;
use ks_query::{TableRow, print_rows};
use serde_json::Value;
use std::alloc::{AllocError, Global};
use std::slice;

// The row that a line tells, whatever its spelling.
fn parse(alloc: Global, windowed: bool, line: &[u8]) -> Result<Option<TableRow>, AllocError>
    ensures { (r : RowView) → FitsTableRow windowed r → line.now ++ 10 ∷ [] ≡ row_line r
        → IfOk result (λ o. o ≡ Some r) }
{
    match Value::from_slice(alloc, line) {
        Ok(value) => read_table_row(alloc, windowed, &value),
        Err(error) => {
            if error.is_memory() {
                Err(AllocError)
            } else {
                Ok(None)
            }
        }
    }
}

// Whether a row has a start, where its table wants one alone.
fn has_start(windowed: bool, start: Option<u64>) -> bool
    ensures yes { result ≡ true → HasStart windowed start }
    ensures no { HasStart windowed start → result ≡ true }
{
    match start {
        Some(_) => windowed,
        None => !windowed,
    }
}

// Whether a line is that of this row.
fn is_line_of(
    alloc: Global,
    windowed: bool,
    line: &[u8],
    row: &TableRow,
) -> Result<bool, AllocError>
    ensures yes { IfOk result (λ b. b ≡ true → IsRowLine windowed line.now) }
    ensures no { IfOk result (λ b. HasStart windowed row.now.start
        → line.now ++ 10 ∷ [] ≡ row_line row.now → b ≡ true) }
{
    let text = print_rows(alloc, slice::from_ref(row))?;
    // What a row and a key are: the types keep it.
    let _key = row.key.as_str();
    let _row = row.row.as_bytes();
    if !has_start(windowed, row.start) {
        return Ok(false);
    }
    Ok(is_without_end(line, text.as_bytes()))
}

/// Whether a line without its end is that of a row, of a windowed table where that is so. Want of memory is the one error.
pub fn is_row_line(alloc: Global, windowed: bool, line: &[u8]) -> Result<bool, AllocError>
    ensures yes { IfOk result (λ b. b ≡ true → IsRowLine windowed line.now) }
    ensures no { IfOk result (λ b. b ≡ false → IsRowLine windowed line.now → ⊥) }
{
    match parse(alloc, windowed, line)? {
        Some(row) => is_line_of(alloc, windowed, line, &row),
        None => Ok(false),
    }
}
