//! The last entry by which a worker's own transaction was changed.
ghost use Rattle.std.specs.Prelude.{◌≡◌};
ghost use Rattle.ks_history.specs.Touched.{is_of, is_refused, touches, touched};

use ks_history::{Entry, Reply, Request};

fn is_own(request: &Request, w: u8) -> bool
    ensures { result ≡ is_of w request.now }
{
    match request {
        Request::Init { w: v } => *v == w,
        Request::Add { w: v, .. } => *v == w,
        Request::Append { w: v, .. } => *v == w,
        Request::SendOffsets { w: v, .. } => *v == w,
        Request::Decide { w: v, .. } => *v == w,
        _ => false,
    }
}

fn is_refusal(reply: &Reply) -> bool
    ensures { result ≡ is_refused reply.now }
{
    match reply {
        Reply::Refused(_) => true,
        _ => false,
    }
}

fn touches_entry(entry: &Entry, w: u8) -> bool
    ensures { result ≡ touches w entry.now }
{
    is_own(&entry.request, w) && !is_refusal(&entry.reply)
}

// The number of entries up to and with the last accepted one of a worker's own, and 0 where there is
// none. It looks at the last entries first.
pub(crate) fn touched_in(entries: &[Entry], w: u8) -> u64
    ensures { result ≡ touched w entries.now }
{
    let mut count = entries.len();
    while count > 0 {
        let before = count - 1;
        if touches_entry(&entries[before], w) {
            return count as u64;
        }
        count = before;
    }
    0
}
