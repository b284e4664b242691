//! What tasks say to one another and keep, as bytes: subscriptions, responses, deltas, aggregates, and the keys of stores.
#![tactic(auto)]

mod codec;
mod reading;
mod values;
mod writing;

pub use codec::{
    read_agg, read_delta, read_response, read_subscriber, read_subscription, read_subscription_key,
    read_time, read_window_key, reading_undoes_writing,
};
pub use values::{Agg, Delta, Response, Subscriber, Subscription};
pub use writing::{
    write_agg, write_delta, write_response, write_subscriber, write_subscription,
    write_subscription_key, write_time, write_window_key,
};
