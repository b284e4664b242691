//! The lines of tables.
ghost use Rattle.std.specs.Prelude.{◌≡◌, ◌++◌, IfOk, string_bytes};
ghost use Rattle.std.specs.List.{flat_map};
ghost use Rattle.serde_json.specs.Data.{no_members};
ghost use Rattle.serde_json.specs.View.{view, members_view};
ghost use Rattle.ks_query.specs.Printed.{field_data, put_all, row_data, row_line, head_line, table_text, tables_text};

use crate::table::{Table, TableRow};
use ks_record::Blob;
use ks_row::{Field, Row};
use serde_json::{Map, Value};
use std::alloc::{AllocError, Global};

fn field_value(alloc: Global, field: &Field) -> Result<Value, AllocError>
    ensures { IfOk result (λ v. view v ≡ field_data field.now) }
{
    match field {
        Field::Int(number) => Ok(Value::from(*number)),
        Field::Text(text) => Ok(Value::String(String::from_str(alloc, text.as_str())?)),
    }
}

fn row_map(alloc: Global, row: &Row) -> Result<Map<String, Value>, AllocError>
    ensures { IfOk result (λ m. members_view m.entries ≡ put_all row.now no_members) }
{
    let mut map = Map::new(alloc);
    let members = row.members(alloc)?;
    for (name, field) in &members {
        let name = String::from_str(alloc, name.as_str())?;
        map.insert(name, field_value(alloc, field)?)?;
    }
    Ok(map)
}

fn row_value(alloc: Global, row: &TableRow) -> Result<Value, AllocError>
    ensures { IfOk result (λ v. view v ≡ row_data row.now) }
{
    let key = Value::String(String::from_str(alloc, row.key.as_str())?);
    let fields = Value::Object(row_map(alloc, &row.row)?);
    let mut list = Vec::new(alloc);
    list.push(key)?;
    if let Some(start) = row.start {
        list.push(Value::from(start))?;
    }
    list.push(fields)?;
    Ok(Value::Array(list))
}

#[tactic(auto, unfolding(crate::specs::Printed::row_line))]
fn print_row(alloc: Global, row: &TableRow) -> Result<String, AllocError>
    ensures { IfOk result (λ s. string_bytes s ≡ row_line row.now) }
{
    let mut line = row_value(alloc, row)?.to_string(alloc)?;
    line.push_str("\n")?;
    Ok(line)
}

/// The line before the rows of a table: `table NAME ROWS`. Want of memory is the one error.
#[tactic(auto, unfolding(crate::specs::Printed::head_line))]
pub fn print_head(alloc: Global, name: &str, count: usize) -> Result<String, AllocError>
    ensures { IfOk result (λ s. string_bytes s ≡ head_line name.now count) }
{
    let mut head = String::from_str(alloc, "table ")?;
    head.push_str(name)?;
    head.push_str(" ")?;
    head.push_str(&count.to_string(alloc)?)?;
    head.push_str("\n")?;
    Ok(head)
}

/// The lines of some rows, one after another, as `printed` has them. Want of memory is the one error.
pub fn print_rows(alloc: Global, rows: &[TableRow]) -> Result<String, AllocError>
    ensures { IfOk result (λ s. string_bytes s ≡ flat_map row_line rows.now) }
{
    let mut text = String::new(alloc);
    for row in rows {
        text.push_str(&print_row(alloc, row)?)?;
    }
    Ok(text)
}

#[tactic(auto, unfolding(crate::specs::Printed::table_text))]
fn print_table(alloc: Global, table: &Table) -> Result<String, AllocError>
    ensures { IfOk result (λ s. string_bytes s ≡ table_text table.now) }
{
    let mut text = print_head(alloc, table.name.as_str(), table.rows.len())?;
    text.push_str(&print_rows(alloc, table.rows.as_slice())?)?;
    Ok(text)
}

/// The text of the tables, one after another: for each a line `table NAME ROWS`, then a line for each row in compact JSON,
/// `["key",{..}]` or `["key",START,{..}]` with the start of its window.
pub fn printed(alloc: Global, tables: &[Table]) -> Result<Blob, AllocError>
    ensures { IfOk result (λ b. b ≡ tables_text tables.now) }
{
    let mut text = String::new(alloc);
    for table in tables {
        text.push_str(&print_table(alloc, table)?)?;
    }
    Blob::of(text.into_bytes())
}
