//! Groups and places as text: a line for a group, a line for an assignment.
use crate::drawing::Setting;
use ks_assign::Client;
use ks_record::TaskId;
use std::io;

// `I:W,W,`
fn print_client(rt: &HostRuntime, client: &Client) -> io::Result<()> {
    print!(rt; " {}:", client.instance)?;
    for w in client.workers.as_slice() {
        print!(rt; "{w},")?;
    }
    Ok(())
}

/// The tasks, the clients, what is held and what is wanted.
pub fn print_setting(rt: &HostRuntime, s: &Setting) -> io::Result<()> {
    print!(rt; "group")?;
    for t in &s.tasks {
        print!(rt; " {}_{}", t.sub, t.part)?;
    }
    print!(rt; " |")?;
    for c in &s.clients {
        print_client(rt, c)?;
    }
    print!(rt; " |")?;
    for h in &s.held {
        print!(rt; " {}:{}_{}:{}", h.instance, h.task.sub, h.task.part, h.lag)?;
    }
    println!(rt;
        " | {} {} {}",
        s.wants.standbys, s.wants.lag, s.wants.warmups
    )
}

/// `S_P@W` for each place, and a bar.
pub fn print_places(rt: &HostRuntime, places: &[(TaskId, u8)]) -> io::Result<()> {
    for p in places {
        print!(rt; " {}_{}@{}", p.0.sub, p.0.part, p.1)?;
    }
    print!(rt; " |")
}
