//! The load job: a job of any size, made from its number of orders.
ghost use Rattle.std.specs.Prelude.{◌≡◌, ◌≤◌, ◌<◌, ◌++◌, List, IfOk, OnOk, string_bytes};
ghost use Rattle.std.specs.List.{flat_map};
ghost use Rattle.ks_words.specs.Load.{order_front, order_value, order_line, deletion_line, customer_line, record_line, records_of, in_section, section_records, records_with, topology_text, load_text};

use ks_record::Blob;
use std::alloc::{AllocError, Global};
use std::fmt::Write;

const TOPOLOGY: &str =
    "{\"app\":\"load\",\"topics\":{\"customers\":4,\"orders\":8},\"nodes\":[{\"name\":\"o\",\"op\":\"table\",\"topic\":\"orders\"},{\"name\":\"c\",\"op\":\"table\",\"topic\":\"customers\"},{\"name\":\"e\",\"op\":\"fk_join\",\"left\":\"o\",\"right\":\"c\",\"fk\":\"cust\",\"kind\":\"inner\",\"set\":{\"amt\":{\"left\":\"amt\"},\"region\":{\"right\":\"region\"}}},{\"name\":\"totals\",\"op\":\"sum\",\"from\":\"e\",\"by\":\"region\",\"field\":\"amt\"},{\"name\":\"orders_per_region\",\"op\":\"count\",\"from\":\"e\",\"by\":\"region\"}],\"print\":[\"totals\",\"orders_per_region\"]}\n";

/// A record of the load job.
#[derive(Clone, Copy, PartialEq, Eq)]
pub enum LoadRecord {
    /// An order, its customer and its amount.
    Order(u32, u32, u32),
    /// An order that goes.
    Deletion(u32),
    /// A customer and its region.
    Customer(u32, u32),
}

/// The parts of the load job, in their order.
#[derive(Clone, Copy, PartialEq, Eq)]
pub enum Section {
    /// Each order.
    Orders,
    /// Each customer.
    Customers,
    /// Every fifth order, with a greater amount.
    Raises,
    /// Every seventh order goes.
    Deletions,
    /// Every third customer, in its next region.
    Moves,
}

// The record of the number i in a section, if it has one.
fn record_in(section: Section, customers: u32, i: u32) -> Option<LoadRecord>
    requires customers { 0 < customers }
    requires few { i < 150000 }
    ensures { result ≡ in_section section customers i }
{
    match section {
        Section::Orders => Some(LoadRecord::Order(i, (31 * i + 7) % customers, i % 100)),
        Section::Customers => Some(LoadRecord::Customer(i, i % 4)),
        Section::Raises if i % 5 == 0 => Some(LoadRecord::Order(
            i,
            (31 * i + 7) % customers,
            i % 100 + 1,
        )),
        Section::Deletions if i % 7 == 0 => Some(LoadRecord::Deletion(i)),
        Section::Moves if i % 3 == 0 => Some(LoadRecord::Customer(i, (i + 1) % 4)),
        _ => None,
    }
}

// The front of an order's line.
#[tactic(auto, unfolding(crate::specs::Load::order_front))]
fn push_front(text: &mut String, order: u32) -> Result<(), AllocError>
    ensures { OnOk result (string_bytes text.new ≡ string_bytes text.old ++ order_front order) }
{
    text.push_str("{\"topic\":\"orders\",\"key\":\"o")?;
    write!(text, "{order}")?;
    text.push_str("\",\"value\":")
}

#[tactic(auto, unfolding(crate::specs::Load::order_value))]
fn push_value(text: &mut String, customer: u32, amount: u32) -> Result<(), AllocError>
    ensures { OnOk result (string_bytes text.new ≡ string_bytes text.old
        ++ order_value customer amount) }
{
    write!(text, "{{\"cust\":\"c{customer}\",\"amt\":{amount}}}}}\n")
}

fn push_order(text: &mut String, order: u32, customer: u32, amount: u32) -> Result<(), AllocError>
    ensures { OnOk result (string_bytes text.new ≡ string_bytes text.old
        ++ order_line order customer amount) }
{
    push_front(text, order)?;
    push_value(text, customer, amount)
}

fn push_deletion(text: &mut String, order: u32) -> Result<(), AllocError>
    ensures { OnOk result (string_bytes text.new ≡ string_bytes text.old ++ deletion_line order) }
{
    push_front(text, order)?;
    text.push_str("null}\n")
}

#[tactic(auto, unfolding(crate::specs::Load::customer_line))]
fn push_customer(text: &mut String, customer: u32, region: u32) -> Result<(), AllocError>
    ensures { OnOk result (string_bytes text.new ≡ string_bytes text.old
        ++ customer_line customer region) }
{
    write!(
        text,
        "{{\"topic\":\"customers\",\"key\":\"c{customer}\",\"value\":{{\"region\":\"r{region}\"}}}}\n"
    )
}

fn push_record(text: &mut String, load: LoadRecord) -> Result<(), AllocError>
    ensures { OnOk result (string_bytes text.new ≡ string_bytes text.old ++ record_line load) }
{
    match load {
        LoadRecord::Order(order, customer, amount) => push_order(text, order, customer, amount),
        LoadRecord::Deletion(order) => push_deletion(text, order),
        LoadRecord::Customer(customer, region) => push_customer(text, customer, region),
    }
}

// The line of a record, if there is one.
fn push_any(text: &mut String, load: Option<LoadRecord>) -> Result<(), AllocError>
    ensures { OnOk result (string_bytes text.new ≡ string_bytes text.old
        ++ flat_map record_line (records_of load)) }
{
    match load {
        Some(load) => push_record(text, load),
        None => Ok(()),
    }
}

// The lines of a section that goes over so many numbers.
fn push_section(
    text: &mut String,
    section: Section,
    customers: u32,
    count: u32,
) -> Result<(), AllocError>
    requires customers { 0 < customers }
    requires few { count ≤ 150000 }
    ensures { OnOk result (string_bytes text.new ≡ string_bytes text.old
        ++ flat_map record_line (section_records section customers 0 count)) }
{
    for i in 0..count {
        push_any(text, record_in(section, customers, i))?;
    }
    Ok(())
}

// The lines of all sections.
#[tactic(auto, using(crate::proofs::Sections::all_sections))]
fn push_records(text: &mut String, customers: u32, orders: u32) -> Result<(), AllocError>
    requires customers { 0 < customers }
    requires few_customers { customers ≤ 150000 }
    requires few { orders ≤ 150000 }
    ensures { OnOk result (string_bytes text.new ≡ string_bytes text.old
        ++ flat_map record_line (records_with customers orders)) }
{
    push_section(text, Section::Orders, customers, orders)?;
    push_section(text, Section::Customers, customers, customers)?;
    push_section(text, Section::Raises, customers, orders)?;
    push_section(text, Section::Deletions, customers, orders)?;
    push_section(text, Section::Moves, customers, customers)
}

/// The load job of so many orders, 1 to 150,000: its topology line, and then a line for each of its records. Want of memory is the one
/// error.
pub fn load_job(alloc: Global, orders: u32) -> Result<Blob, AllocError>
    requires some { 0 < orders }
    requires few { orders ≤ 150000 }
    ensures { IfOk result (λ b. b ≡ load_text orders) }
{
    let mut text = String::from_str(alloc, TOPOLOGY)?;
    push_records(&mut text, orders / 10 + 1, orders)?;
    Blob::of(text.into_bytes())
}
