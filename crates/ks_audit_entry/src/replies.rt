//! Replies compared.
ghost use Rattle.std.specs.Prelude.{◌≡◌, true, ◌↔◌};
ghost use Rattle.ks_history.specs.declared.journal.Reply.TheVariants.{Done, Number, Truth, Mark as Marked, Refused as Refuse};
ghost use Rattle.ks_cluster.specs.Replies.{done_or, number_or, truth_or};

use ks_history::Reply;
use ks_record::{PartId, Refused};

fn is_refused(reply: &Reply, refused: Refused) -> bool
    ensures { (result ≡ true) ↔ (reply.now ≡ Refuse refused) }
{
    match reply {
        Reply::Refused(given) => *given == refused,
        _ => false,
    }
}

/// Whether a reply is `Done`.
pub(crate) fn is_done(reply: &Reply) -> bool
    ensures { (result ≡ true) ↔ (reply.now ≡ Done) }
{
    match reply {
        Reply::Done => true,
        _ => false,
    }
}

/// Whether a reply is this number.
pub(crate) fn is_number(reply: &Reply, number: u64) -> bool
    ensures { (result ≡ true) ↔ (reply.now ≡ Number number) }
{
    match reply {
        Reply::Number(given) => *given == number,
        _ => false,
    }
}

/// Whether a reply is this truth value.
pub(crate) fn is_truth(reply: &Reply, truth: bool) -> bool
    ensures { (result ≡ true) ↔ (reply.now ≡ Truth truth) }
{
    match reply {
        Reply::Truth(given) => *given == truth,
        _ => false,
    }
}

/// Whether a reply is this marker, or none.
pub(crate) fn is_mark(reply: &Reply, mark: Option<(PartId, bool)>) -> bool
    ensures { (result ≡ true) ↔ (reply.now ≡ Marked mark) }
{
    match reply {
        Reply::Mark(given) => *given == mark,
        _ => false,
    }
}

/// Whether a reply is what came of a request that answers nothing.
pub(crate) fn is_done_or(reply: &Reply, answer: Result<(), Refused>) -> bool
    ensures { (result ≡ true) ↔ (reply.now ≡ done_or answer) }
{
    match answer {
        Ok(()) => is_done(reply),
        Err(refused) => is_refused(reply, refused),
    }
}

/// Whether a reply is what came of a request that answers a number.
pub(crate) fn is_number_or(reply: &Reply, answer: Result<u64, Refused>) -> bool
    ensures { (result ≡ true) ↔ (reply.now ≡ number_or answer) }
{
    match answer {
        Ok(number) => is_number(reply, number),
        Err(refused) => is_refused(reply, refused),
    }
}

/// Whether a reply is what came of a request that answers a truth value.
pub(crate) fn is_truth_or(reply: &Reply, answer: Result<bool, Refused>) -> bool
    ensures { (result ≡ true) ↔ (reply.now ≡ truth_or answer) }
{
    match answer {
        Ok(truth) => is_truth(reply, truth),
        Err(refused) => is_refused(reply, refused),
    }
}
