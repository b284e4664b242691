//! What tasks say to one another and keep, as bytes.
use crate::rows::expect_text;
use ks_record::Blob;
use ks_wire::{
    read_agg, read_delta, read_response, read_subscriber, read_subscription, read_subscription_key,
    read_time, read_window_key, write_agg, write_delta, write_response, write_subscriber,
    write_subscription, write_subscription_key, write_time, write_window_key,
};
use std::alloc::{AllocError, Global};
use std::process::Abort;

/// What bytes are read as.
#[derive(Clone, Copy)]
enum Kind {
    Subscription,
    Response,
    Delta,
    Aggregate,
    Subscriber,
    Time,
    SubscriptionKey,
    WindowKey,
}

fn subscription(alloc: Global, bytes: &[u8]) -> Result<Option<Blob>, AllocError> {
    match read_subscription(alloc, bytes)? {
        Some(found) => {
            let written = write_subscription(alloc, &found);
            drop(found);
            Ok(Some(written?))
        }
        None => Ok(None),
    }
}

fn response(alloc: Global, bytes: &[u8]) -> Result<Option<Blob>, AllocError> {
    match read_response(alloc, bytes)? {
        Some(found) => {
            let written = write_response(alloc, &found);
            drop(found);
            Ok(Some(written?))
        }
        None => Ok(None),
    }
}

fn delta(alloc: Global, bytes: &[u8]) -> Result<Option<Blob>, AllocError> {
    match read_delta(bytes) {
        Some(found) => Ok(Some(write_delta(alloc, &found)?)),
        None => Ok(None),
    }
}

fn aggregate(alloc: Global, bytes: &[u8]) -> Result<Option<Blob>, AllocError> {
    match read_agg(bytes) {
        Some(found) => Ok(Some(write_agg(alloc, &found)?)),
        None => Ok(None),
    }
}

fn subscriber(alloc: Global, bytes: &[u8]) -> Result<Option<Blob>, AllocError> {
    match read_subscriber(bytes) {
        Some(found) => Ok(Some(write_subscriber(alloc, found)?)),
        None => Ok(None),
    }
}

fn time(alloc: Global, bytes: &[u8]) -> Result<Option<Blob>, AllocError> {
    match read_time(bytes) {
        Some(found) => Ok(Some(write_time(alloc, found)?)),
        None => Ok(None),
    }
}

fn subscription_key(alloc: Global, bytes: &[u8]) -> Result<Option<Blob>, AllocError> {
    match read_subscription_key(alloc, bytes)? {
        Some(found) => {
            let written = write_subscription_key(alloc, &found.0, &found.1);
            drop(found);
            Ok(Some(written?))
        }
        None => Ok(None),
    }
}

fn window_key(alloc: Global, bytes: &[u8]) -> Result<Option<Blob>, AllocError> {
    match read_window_key(alloc, bytes)? {
        Some(found) => {
            let written = write_window_key(alloc, &found.0, found.1);
            drop(found);
            Ok(Some(written?))
        }
        None => Ok(None),
    }
}

// The bytes of what these bytes are read as; none where they are no such thing.
fn again(alloc: Global, kind: Kind, bytes: &[u8]) -> Result<Option<Blob>, AllocError> {
    match kind {
        Kind::Subscription => subscription(alloc, bytes),
        Kind::Response => response(alloc, bytes),
        Kind::Delta => delta(alloc, bytes),
        Kind::Aggregate => aggregate(alloc, bytes),
        Kind::Subscriber => subscriber(alloc, bytes),
        Kind::Time => time(alloc, bytes),
        Kind::SubscriptionKey => subscription_key(alloc, bytes),
        Kind::WindowKey => window_key(alloc, bytes),
    }
}

// The bytes that were read and written again; `none` where they were no such thing.
fn expect_again<R: Abort>(rt: &R, again: Result<Option<Blob>, AllocError>, expected: &[u8]) {
    match &again {
        Ok(Some(found)) => expect_text(rt, found.as_slice(), expected),
        Ok(None) => expect_text(rt, b"none", expected),
        Err(_) => rt.abort(),
    }
}

/// Bytes that are of their kind.
const VALUES: &[(Kind, &[u8])] = &[
    (Kind::Subscription, b"\x80\x01o1"),
    (Kind::Subscription, b"\x80\x03o1"),
    (
        Kind::Subscription,
        b"\x00\x00\x00\x00\x00\x00\x00\x00\x00\x00\x00\x00\x00\x00\x00\x00\x00\x00o1",
    ),
    (
        Kind::Subscription,
        b"\x00\x02\x01\x02\x03\x04\x05\x06\x07\x08\x09\x0a\x0b\x0c\x0d\x0e\x0f\x10o1",
    ),
    (Kind::Subscription, b"\x81\x01abc/21\x00\x00\x00\x03"),
    (Kind::Subscription, b"\x81\x01a\x00\x00\x00\x3f"),
    (
        Kind::Subscription,
        b"\x01\x02\x01\x02\x03\x04\x05\x06\x07\x08\x09\x0a\x0b\x0c\x0d\x0e\x0f\x10o1\x00\x00\x00\x00",
    ),
    (Kind::Response, b"\x80"),
    (
        Kind::Response,
        b"\x80\x01\x01n\x00\x00\x00\x00\x00\x00\x00\x00\x01",
    ),
    (
        Kind::Response,
        b"\x00\x01\x02\x03\x04\x05\x06\x07\x08\x09\x0a\x0b\x0c\x0d\x0e\x0f\x10",
    ),
    (
        Kind::Response,
        b"\x00\x01\x02\x03\x04\x05\x06\x07\x08\x09\x0a\x0b\x0c\x0d\x0e\x0f\x10\x01\x01n\x00\x00\x00\x00\x00\x00\x00\x00\x01",
    ),
    (Kind::Delta, b"\x01\x00\x00\x00\x00\x00\x00\x00\x00"),
    (Kind::Delta, b"\x00\xff\xff\xff\xff\xff\xff\xff\xfe"),
    (
        Kind::Aggregate,
        b"\x00\x00\x00\x00\x00\x00\x00\x01\xff\xff\xff\xff\xff\xff\xff\xff",
    ),
    (
        Kind::Subscriber,
        b"\x01\x02\x03\x04\x05\x06\x07\x08\x09\x0a\x0b\x0c\x0d\x0e\x0f\x10",
    ),
    (
        Kind::Subscriber,
        b"\x01\x02\x03\x04\x05\x06\x07\x08\x09\x0a\x0b\x0c\x0d\x0e\x0f\x10\x00\x00\x00\x3f",
    ),
    (Kind::Time, b"\x00\x00\x00\x00\x00\x00\x01\x02"),
    (Kind::SubscriptionKey, b"\x00\x00\x00\x02c2o1"),
    (
        Kind::WindowKey,
        b"\x00\x00\x00\x02c2\x00\x00\x00\x00\x00\x00\x00\x05",
    ),
];

/// Bytes that are not.
const NO_VALUES: &[(Kind, &[u8])] = &[
    (Kind::Subscription, b""),
    (Kind::Subscription, b"\x01"),
    (Kind::Subscription, b"\x80\x04o1"),
    (Kind::Subscription, b"\x80\x00"),
    (Kind::Subscription, b"\x01\x00o1"),
    (Kind::Subscription, b"\x81\x00o1"),
    (Kind::Subscription, b"\x81\x01\x00\x00\x00\x03"),
    (Kind::Subscription, b"\x81\x01o1\x00\x00\x03"),
    (Kind::Subscription, b"\x81\x01o1\x00\x00\x00\x40"),
    (Kind::Subscription, b"\x81\x01o1\x01\x00\x00\x00"),
    (Kind::Subscription, b"\x82\x01o1\x00\x00\x00\x03"),
    (Kind::Subscription, b"\x02\x01o1"),
    (Kind::Response, b""),
    (Kind::Response, b"\x01"),
    (Kind::Response, b"\x81"),
    (Kind::Response, b"\x00\x00"),
    (Kind::Response, b"\x80\x01"),
    (Kind::Delta, b""),
    (Kind::Delta, b"\x01"),
    (Kind::Delta, b"\x02\x00\x00\x00\x00\x00\x00\x00\x00"),
    (Kind::Delta, b"\x01\x00\x00\x00\x00\x00\x00\x00\x00\x00"),
    (Kind::Aggregate, b""),
    (
        Kind::Aggregate,
        b"\x00\x00\x00\x00\x00\x00\x00\x01\xff\xff\xff\xff\xff\xff\xff",
    ),
    (Kind::Subscriber, b""),
    (
        Kind::Subscriber,
        b"\x01\x02\x03\x04\x05\x06\x07\x08\x09\x0a\x0b\x0c\x0d\x0e\x0f",
    ),
    (
        Kind::Subscriber,
        b"\x01\x02\x03\x04\x05\x06\x07\x08\x09\x0a\x0b\x0c\x0d\x0e\x0f\x10\x00\x00",
    ),
    (
        Kind::Subscriber,
        b"\x01\x02\x03\x04\x05\x06\x07\x08\x09\x0a\x0b\x0c\x0d\x0e\x0f\x10\x00\x00\x00\x40",
    ),
    (
        Kind::Subscriber,
        b"\x01\x02\x03\x04\x05\x06\x07\x08\x09\x0a\x0b\x0c\x0d\x0e\x0f\x10\x00\x00\x00\x03\x00",
    ),
    (Kind::Time, b""),
    (Kind::Time, b"\x01\x00\x00\x00\x00\x00\x00\x00\x00"),
    (Kind::SubscriptionKey, b""),
    (Kind::SubscriptionKey, b"\x00\x00\x00\x02c2"),
    (Kind::WindowKey, b""),
    (Kind::WindowKey, b"T"),
];

#[test]
fn bytes_and_values(rt: HostRuntime) {
    let alloc = rt.alloc();
    for (kind, bytes) in VALUES {
        expect_again(&rt, again(alloc, *kind, bytes), bytes);
    }
    for (kind, bytes) in NO_VALUES {
        expect_again(&rt, again(alloc, *kind, bytes), b"none");
    }
}
