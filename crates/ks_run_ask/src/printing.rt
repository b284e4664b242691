//! The lines of a run's answers.
ghost use Rattle.std.specs.Prelude.{◌≡◌, ◌++◌, IfOk, OnOk, string_bytes};
ghost use Rattle.std.specs.List.{flat_map};
ghost use Rattle.serde_json.specs.Data.{no_members};
ghost use Rattle.serde_json.specs.View.{view, members_view};
ghost use Rattle.serde_json.specs.Written.{compact_text};
ghost use Rattle.ks_query.specs.Printed.{field_data, put_all};
ghost use Rattle.ks_run_ask.specs.Texts.{value_data, answer_line, bad_ask_text, fault_name};

use ks_iq::{Answer, IqFault};
use ks_row::{Field, Row};
use serde_json::{Map, Value};
use std::alloc::{AllocError, Global};

fn field_value(alloc: Global, field: &Field) -> Result<Value, AllocError>
    ensures { IfOk result (λ v. view v ≡ field_data field.now) }
{
    match field {
        Field::Int(number) => Ok(Value::from(*number)),
        Field::Text(text) => Ok(Value::String(String::from_str(alloc, text.as_str())?)),
    }
}

fn row_map(alloc: Global, row: &Row) -> Result<Map<String, Value>, AllocError>
    ensures { IfOk result (λ m. members_view m.entries ≡ put_all row.now no_members) }
{
    let mut map = Map::new(alloc);
    let members = row.members(alloc)?;
    for (name, field) in &members {
        let name = String::from_str(alloc, name.as_str())?;
        map.insert(name, field_value(alloc, field)?)?;
    }
    Ok(map)
}

// A row's object, or null.
fn shown(alloc: Global, value: &Option<Row>) -> Result<Value, AllocError>
    ensures { IfOk result (λ v. view v ≡ value_data value.now) }
{
    match value {
        Some(row) => Ok(Value::Object(row_map(alloc, row)?)),
        None => Ok(Value::Null),
    }
}

fn value_text(alloc: Global, value: &Option<Row>) -> Result<String, AllocError>
    ensures { IfOk result (λ s. string_bytes s ≡ compact_text (value_data value.now)) }
{
    let text = shown(alloc, value)?.to_string(alloc)?;
    Ok(text)
}

#[tactic(auto, unfolding(crate::specs::Texts::answer_line))]
fn print_answer(alloc: Global, answer: &Answer) -> Result<String, AllocError>
    ensures { IfOk result (λ s. string_bytes s ≡ answer_line answer.now) }
{
    let mut line = String::from_str(alloc, "answer ")?;
    line.push_str(&value_text(alloc, &answer.value)?)?;
    line.push_str(" ")?;
    line.push_str(&answer.position.to_string(alloc)?)?;
    line.push_str("\n")?;
    Ok(line)
}

/// Appends a line for each answer: `answer VALUE POSITION`, with a row's object or `null`. Want of memory is the one error.
pub fn push_answers(alloc: Global, text: &mut Vec<u8>, answers: &[Answer]) -> Result<(), AllocError>
    ensures { OnOk result (text.new.items ≡ text.old.items ++ flat_map answer_line answers.now) }
{
    for answer in answers {
        let line = print_answer(alloc, answer)?;
        text.extend_from_slice(line.as_bytes())?;
    }
    Ok(())
}

// What a fault is called.
fn name_of(fault: &IqFault) -> &'static str
    ensures { result.now ≡ fault_name fault.now }
{
    match fault {
        IqFault::UnknownStore => "UnknownStore",
        IqFault::WrongStart => "WrongStart",
        IqFault::WrongTask { .. } => "WrongTask",
        IqFault::NotClean => "NotClean",
        IqFault::Behind { .. } => "Behind",
    }
}

/// The line for a question that can't be asked. Want of memory is the one error.
#[tactic(auto, unfolding(crate::specs::Texts::bad_ask_text))]
pub fn print_bad_ask(alloc: Global, fault: &IqFault) -> Result<Vec<u8>, AllocError>
    ensures { IfOk result (λ v. v.items ≡ bad_ask_text fault.now) }
{
    let mut text = String::from_str(alloc, "bad ask ")?;
    text.push_str(&fault.code().to_string(alloc)?)?;
    text.push_str(" ")?;
    text.push_str(name_of(fault))?;
    text.push_str("\n")?;
    Ok(text.into_bytes())
}
