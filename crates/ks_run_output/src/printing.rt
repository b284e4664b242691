//! The lines that a run writes.
ghost use Rattle.std.specs.Prelude.{◌≡◌, ◌++◌, [], IfOk, OnOk, decimal, string_bytes};
ghost use Rattle.std.specs.List.{flat_map};
ghost use Rattle.std.specs.Thread.{IsSync};
ghost use Rattle.ks_query.specs.Printed.{row_line, table_text, tables_text};
ghost use Rattle.ks_job_record.specs.Texts.{name_text as text_of_name};
ghost use Rattle.ks_run_output.specs.Texts.{settled_text, late_text, collision_text, bad_words_text, read_fault_text};

use ks_job_record::name_text;
use ks_query::{Table, TableRow, print_head, print_rows};
use std::alloc::{AllocError, Global};
use std::thread::{Threads, join};

// Fewer rows than this are printed by one thread.
const MANY: usize = 4096;

// The first half of some rows, and the second.
fn cut_rows(rows: Vec<TableRow>) -> Result<(Vec<TableRow>, Vec<TableRow>), AllocError>
    ensures { IfOk result (λ p. p.0.items ++ p.1.items ≡ rows.items) }
{
    let mut front = rows;
    let back = front.split_off(front.len() / 2)?;
    Ok((front, back))
}

// The lines of some rows, which are let go, by as many threads as so many halvings make: each half beside the other.
#[tactic(auto, using(crate::proofs::Halves::both_printed))]
fn print_wide<R: Threads + Sync>(
    rt: &R,
    alloc: Global,
    rows: Vec<TableRow>,
    halvings: u32,
) -> Result<String, AllocError>
    ensures { IfOk result (λ s. string_bytes s ≡ flat_map row_line rows.items) }
{
    if halvings == 0 {
        return print_rows(alloc, &rows);
    }
    let fewer = halvings - 1;
    let (front, back) = cut_rows(rows)?;
    let (first, second) = join(
        rt,
        move || -> Result<String, AllocError>
            requires { IsSync R.row }
            ensures { IfOk result (λ s. string_bytes s ≡ flat_map row_line front.items) }
        { print_wide(rt, alloc, front, fewer) },
        move || -> Result<String, AllocError>
            requires { IsSync R.row }
            ensures { IfOk result (λ s. string_bytes s ≡ flat_map row_line back.items) }
        { print_wide(rt, alloc, back, fewer) },
    );
    let mut text = first?;
    text.push_str(&second?)?;
    Ok(text)
}

#[tactic(auto, unfolding(ks_query::specs::Printed::table_text))]
fn print_table<R: Threads + Sync>(rt: &R, alloc: Global, table: Table) -> Result<String, AllocError>
    ensures { IfOk result (λ s. string_bytes s ≡ table_text table) }
{
    let Table { name, rows } = table;
    let rows = rows.into_vec();
    let head = print_head(alloc, name.as_str(), rows.len());
    drop(name);
    let Ok(mut text) = head else {
        drop(rows);
        return Err(AllocError);
    };
    let halvings = if rows.len() < MANY { 0 } else { 2 };
    let Ok(lines) = print_wide(rt, alloc, rows, halvings) else {
        drop(text);
        return Err(AllocError);
    };
    let pushed = text.push_str(&lines);
    drop(lines);
    let Ok(()) = pushed else {
        drop(text);
        return Err(AllocError);
    };
    Ok(text)
}

// The text of tables, one after another.
fn print_tables<R: Threads + Sync>(
    rt: &R,
    alloc: Global,
    tables: Vec<Table>,
) -> Result<String, AllocError>
    ensures { IfOk result (λ s. string_bytes s ≡ tables_text tables.items) }
{
    let mut text = String::new(alloc);
    let mut rest = tables.into_iter();
    while let Some(table) = rest.next() {
        text.push_str(&print_table(rt, alloc, table)?)?;
    }
    Ok(text)
}

/// The tables of a job, which are let go; where a table has many rows, several threads print them. Want of memory is the one
/// error.
#[tactic(auto, unfolding(crate::specs::Texts::settled_text))]
pub fn print_settled<R: Threads + Sync>(
    rt: &R,
    alloc: Global,
    tables: Vec<Table>,
) -> Result<Vec<u8>, AllocError>
    ensures { IfOk result (λ v. v.items ≡ settled_text tables.items) }
{
    let mut text = String::from_str(alloc, "settled\n")?;
    text.push_str(&print_tables(rt, alloc, tables)?)?;
    Ok(text.into_bytes())
}

/// How many pairs of a record and a window were late, and then the tables, which are let go. Want of memory is the one error.
#[tactic(auto, unfolding(crate::specs::Texts::late_text))]
pub fn print_late<R: Threads + Sync>(
    rt: &R,
    alloc: Global,
    late: u64,
    tables: Vec<Table>,
) -> Result<Vec<u8>, AllocError>
    ensures { IfOk result (λ v. v.items ≡ late_text late tables.items) }
{
    let mut text = String::from_str(alloc, "late ")?;
    text.push_str(&late.to_string(alloc)?)?;
    text.push_str("\n")?;
    text.push_str(&print_tables(rt, alloc, tables)?)?;
    Ok(text.into_bytes())
}

// A number behind a text.
fn push_number(alloc: Global, text: &mut String, number: u64) -> Result<(), AllocError>
    ensures { OnOk result (string_bytes text.new ≡ string_bytes text.old ++ decimal number) }
{
    let digits = number.to_string(alloc)?;
    let pushed = text.push_str(&digits);
    drop(digits);
    pushed
}

// A key as a JSON text behind a text.
fn push_key(alloc: Global, text: &mut String, key: &[u8]) -> Result<(), AllocError>
    ensures { OnOk result (string_bytes text.new
        ≡ string_bytes text.old ++ text_of_name key.now) }
{
    let name = name_text(alloc, key)?;
    let pushed = text.push_str(&name);
    drop(name);
    pushed
}

// The line of a collision into an empty text.
#[tactic(auto, unfolding(crate::specs::Texts::collision_text))]
fn write_collision(
    alloc: Global,
    text: &mut String,
    node: &str,
    key: &[u8],
    first: u64,
    second: u64,
) -> Result<(), AllocError>
    requires { string_bytes text.old ≡ [] }
    ensures { OnOk result (string_bytes text.new
        ≡ collision_text node.now key.now first second) }
{
    text.push_str("collision ")?;
    text.push_str(node)?;
    text.push_str(" ")?;
    push_key(alloc, text, key)?;
    text.push_str(" ")?;
    push_number(alloc, text, first)?;
    text.push_str(" ")?;
    push_number(alloc, text, second)?;
    text.push_str("\n")
}

/// That two rows of a left key of a join on a foreign key have one hash: the join's name, the key, and the offsets of the two records in
/// the left table's changelog. Want of memory is the one error.
pub fn print_collision(
    alloc: Global,
    node: &str,
    key: &[u8],
    first: u64,
    second: u64,
) -> Result<Vec<u8>, AllocError>
    ensures { IfOk result (λ v. v.items ≡ collision_text node.now key.now first second) }
{
    let mut text = String::new(alloc);
    let Ok(()) = write_collision(alloc, &mut text, node, key, first, second) else {
        drop(text);
        return Err(AllocError);
    };
    Ok(text.into_bytes())
}

/// The line for words that are none of the program's.
#[tactic(auto, unfolding(crate::specs::Texts::bad_words_text))]
pub fn print_bad_words(alloc: Global) -> Result<Vec<u8>, AllocError>
    ensures { IfOk result (λ v. v.items ≡ bad_words_text) }
{
    Vec::from_slice(alloc, b"bad words\n")
}

/// The line for an input that couldn't be read to its end.
#[tactic(auto, unfolding(crate::specs::Texts::read_fault_text))]
pub fn print_read_fault(alloc: Global) -> Result<Vec<u8>, AllocError>
    ensures { IfOk result (λ v. v.items ≡ read_fault_text) }
{
    Vec::from_slice(alloc, b"read fault\n")
}
