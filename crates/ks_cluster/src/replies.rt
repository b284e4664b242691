//! Outcomes as the replies that the journal keeps.
ghost use Rattle.std.specs.Prelude.{◌≡◌};
ghost use Rattle.ks_cluster.specs.Replies.{done_or, number_or, truth_or};

use ks_history::Reply;
use ks_record::Refused;

/// The reply to a request that answers nothing, or its refusal.
pub fn done(outcome: &Result<(), Refused>) -> Reply
    ensures { result ≡ done_or outcome.now }
{
    match outcome {
        Ok(()) => Reply::Done,
        Err(refused) => Reply::Refused(*refused),
    }
}

/// The reply to a request that answers a number, or its refusal.
pub fn numbered(outcome: &Result<u64, Refused>) -> Reply
    ensures { result ≡ number_or outcome.now }
{
    match outcome {
        Ok(number) => Reply::Number(*number),
        Err(refused) => Reply::Refused(*refused),
    }
}

/// The reply to a request that answers yes or no, or its refusal.
pub fn told(outcome: &Result<bool, Refused>) -> Reply
    ensures { result ≡ truth_or outcome.now }
{
    match outcome {
        Ok(truth) => Reply::Truth(*truth),
        Err(refused) => Reply::Refused(*refused),
    }
}
