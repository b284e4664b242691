//! How a job that is refused is told.
ghost use Rattle.std.specs.Prelude.{◌≡◌, ◌++◌, IfOk};
ghost use Rattle.ks_job_record.specs.Texts.{name_text as text_of_name};
ghost use Rattle.ks_job_source.specs.Texts.{topology_text, stop_line, stop_fault, bad_job_text};

use crate::stop::JobStop;
use ks_job_record::{JobKind, fault_text, name_text};
use ks_topo::TopoFault;
use std::alloc::{AllocError, Global};

// A fault with the name that it tells.
fn print_named(alloc: Global, fault: &str, name: &[u8]) -> Result<Vec<u8>, AllocError>
    ensures { IfOk result (λ v. v.items ≡ fault.now ++ text_of_name name.now) }
{
    let mut text = Vec::from_slice(alloc, fault.as_bytes())?;
    text.extend_from_slice(name_text(alloc, name)?.as_bytes())?;
    Ok(text)
}

fn print_topology_fault(alloc: Global, fault: &TopoFault) -> Result<Vec<u8>, AllocError>
    ensures { IfOk result (λ v. v.items ≡ topology_text fault.now) }
{
    match fault {
        TopoFault::UnknownInput { name } => print_named(alloc, "10 UnknownInput ", name.as_slice()),
        TopoFault::WrongKind { name } => print_named(alloc, "11 WrongKind ", name.as_slice()),
        TopoFault::DuplicateName { name } => print_named(
            alloc,
            "12 DuplicateName ",
            name.as_slice(),
        ),
        TopoFault::NotCopartitioned { left, right } => {
            let mut text = print_named(alloc, "13 NotCopartitioned ", left.as_slice())?;
            text.extend_from_slice(&print_named(alloc, " ", right.as_slice())?)?;
            Ok(text)
        }
        TopoFault::TooMany { what, limit } => {
            let kind = JobKind::TooMany {
                what: what.clone()?,
                limit: *limit,
            };
            let text = fault_text(alloc, &kind);
            drop(kind);
            text
        }
        TopoFault::BadWindow { name } => print_named(alloc, "15 BadWindow ", name.as_slice()),
        TopoFault::SinkOnly { name } => print_named(alloc, "16 SinkOnly ", name.as_slice()),
    }
}

fn line_of(stop: &JobStop) -> u64
    ensures { result ≡ stop_line stop.now }
{
    match stop {
        JobStop::BadLine { line, .. } => *line,
        JobStop::BadTopology { line, .. } => *line,
    }
}

fn print_fault(alloc: Global, stop: &JobStop) -> Result<Vec<u8>, AllocError>
    ensures { IfOk result (λ v. v.items ≡ stop_fault stop.now) }
{
    match stop {
        JobStop::BadLine { kind, .. } => fault_text(alloc, kind),
        JobStop::BadTopology { fault, .. } => print_topology_fault(alloc, fault),
    }
}

/// The line that tells where and why a job stops.
#[tactic(auto, unfolding(crate::specs::Texts::bad_job_text))]
pub fn print_bad_job(alloc: Global, stop: &JobStop) -> Result<Vec<u8>, AllocError>
    ensures { IfOk result (λ v. v.items ≡ bad_job_text stop.now) }
{
    let mut text = Vec::from_slice(alloc, b"bad job line ")?;
    text.extend_from_slice(line_of(stop).to_string(alloc)?.as_bytes())?;
    text.extend_from_slice(b": ")?;
    text.extend_from_slice(&print_fault(alloc, stop)?)?;
    text.extend_from_slice(b"\n")?;
    Ok(text)
}
