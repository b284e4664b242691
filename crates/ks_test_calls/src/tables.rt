//! Calls of processors and stores with their answers: of the left side of foreign-key joins, of the right side, of windows that come late,
//! of stores.
use crate::calls::{Asked, Call, Changed, Form};
use ks_expr::JoinKind;

/// `{"n":1}`, `{"n":2}`, `{"r":"eu"}` and `{"r":"us"}`.
const ONE: &[u8] = b"\x01\x01n\x00\x00\x00\x00\x00\x00\x00\x00\x01";

const TWO: &[u8] = b"\x01\x01n\x00\x00\x00\x00\x00\x00\x00\x00\x02";

const EU: &[u8] = b"\x01\x01r\x01\x00\x00\x00\x02eu";

const US: &[u8] = b"\x01\x01r\x01\x00\x00\x00\x02us";

// MurmurHash3 of the bytes of these rows.
const ONE_HASH: u128 = 0x37f2_254e_3ce3_e5e6_c777_bc37_5a8c_46ec;

const EU_HASH: u128 = 0x8a26_9340_b861_162c_1166_9c20_b60f_acb3;

const US_HASH: u128 = 0xe77c_a63a_ec1f_2367_fa54_3d7e_1906_14fc;

/// The left side of a foreign-key join, and a join whose left row changes.
pub const LEFT: &[(Call, &[u8])] = &[
    (
        Call::JoinAfter {
            left: Changed {
                key: "o1",
                old: ONE,
                new: TWO,
            },
            right: Changed {
                key: "o1",
                old: EU,
                new: EU,
            },
        },
        TWO,
    ),
    (
        Call::Subscriptions {
            fk: Form::Field,
            part: None,
            left: Changed {
                key: "o1",
                old: b"",
                new: EU,
            },
        },
        b"eu \x00\x02\x8a\x26\x93\x40\xb8\x61\x16\x2c\x11\x66\x9c\x20\xb6\x0f\xac\xb3o1 ",
    ),
    (
        Call::Subscriptions {
            fk: Form::Field,
            part: None,
            left: Changed {
                key: "o1",
                old: US,
                new: US,
            },
        },
        b"us \x00\x02\xe7\x7c\xa6\x3a\xec\x1f\x23\x67\xfa\x54\x3d\x7e\x19\x06\x14\xfco1 ",
    ),
    (
        Call::Subscriptions {
            fk: Form::Field,
            part: None,
            left: Changed {
                key: "o1",
                old: US,
                new: EU,
            },
        },
        b"us \x00\x00\x8a\x26\x93\x40\xb8\x61\x16\x2c\x11\x66\x9c\x20\xb6\x0f\xac\xb3o1 eu \x00\x02\x8a\x26\x93\x40\xb8\x61\x16\x2c\x11\x66\x9c\x20\xb6\x0f\xac\xb3o1 ",
    ),
    (
        Call::Subscriptions {
            fk: Form::Field,
            part: None,
            left: Changed {
                key: "o1",
                old: US,
                new: b"",
            },
        },
        b"us \x80\x01o1 ",
    ),
    (
        Call::Subscriptions {
            fk: Form::Field,
            part: None,
            left: Changed {
                key: "o1",
                old: US,
                new: ONE,
            },
        },
        b"us \x00\x00\x37\xf2\x25\x4e\x3c\xe3\xe5\xe6\xc7\x77\xbc\x37\x5a\x8c\x46\xeco1 direct",
    ),
    (
        Call::Respond {
            kind: JoinKind::Left,
            left: EU,
            hash: Some(EU_HASH),
            right: b"",
        },
        b"",
    ),
    (
        Call::Respond {
            kind: JoinKind::Left,
            left: EU,
            hash: Some(US_HASH),
            right: b"",
        },
        b"stale",
    ),
    (
        Call::Respond {
            kind: JoinKind::Inner,
            left: ONE,
            hash: Some(ONE_HASH),
            right: US,
        },
        ONE,
    ),
    (
        Call::Respond {
            kind: JoinKind::Inner,
            left: ONE,
            hash: Some(ONE_HASH),
            right: b"",
        },
        b"",
    ),
    (
        Call::Respond {
            kind: JoinKind::Left,
            left: b"",
            hash: None,
            right: b"",
        },
        b"",
    ),
];

/// The left side by each form of a foreign key, and with a partition that is named. Where the key gives it, the old row and the new one have
/// one, so nothing is deleted. MurmurHash3 of `{"r":"eu"}` stands in them.
pub const FORMS: &[(Call, &[u8])] = &[
    (
        Call::Subscriptions {
            fk: Form::Whole,
            part: None,
            left: Changed {
                key: "c1",
                old: US,
                new: EU,
            },
        },
        b"c1 \x00\x02\x8a\x26\x93\x40\xb8\x61\x16\x2c\x11\x66\x9c\x20\xb6\x0f\xac\xb3c1 ",
    ),
    (
        Call::Subscriptions {
            fk: Form::Before,
            part: None,
            left: Changed {
                key: "c1/o1",
                old: b"",
                new: EU,
            },
        },
        b"c1 \x00\x02\x8a\x26\x93\x40\xb8\x61\x16\x2c\x11\x66\x9c\x20\xb6\x0f\xac\xb3c1/o1 ",
    ),
    (
        Call::Subscriptions {
            fk: Form::Before,
            part: None,
            left: Changed {
                key: "c1/o1/2",
                old: US,
                new: b"",
            },
        },
        b"c1 \x80\x01c1/o1/2 ",
    ),
    (
        Call::Subscriptions {
            fk: Form::Before,
            part: Some(3),
            left: Changed {
                key: "/o1",
                old: b"",
                new: EU,
            },
        },
        b"direct",
    ),
    (
        Call::Subscriptions {
            fk: Form::Before,
            part: Some(3),
            left: Changed {
                key: "o1",
                old: EU,
                new: b"",
            },
        },
        b"direct",
    ),
    (
        Call::Subscriptions {
            fk: Form::Field,
            part: Some(3),
            left: Changed {
                key: "o1",
                old: US,
                new: EU,
            },
        },
        b"us \x01\x00\x8a\x26\x93\x40\xb8\x61\x16\x2c\x11\x66\x9c\x20\xb6\x0f\xac\xb3o1\x00\x00\x00\x03 eu \x01\x02\x8a\x26\x93\x40\xb8\x61\x16\x2c\x11\x66\x9c\x20\xb6\x0f\xac\xb3o1\x00\x00\x00\x03 ",
    ),
    (
        Call::Subscriptions {
            fk: Form::Field,
            part: Some(63),
            left: Changed {
                key: "o1",
                old: US,
                new: b"",
            },
        },
        b"us \x81\x01o1\x00\x00\x00\x3f ",
    ),
];

/// The right side: its store, and its answers.
pub const RIGHT: &[(Call, &[u8])] = &[
    (
        Call::OnSubscription {
            asked: Asked {
                hash: Some(7),
                instruction: 3,
                left: "o1",
                part: None,
            },
            right: b"",
        },
        b"no answer",
    ),
    (
        Call::Get {
            key: b"\x00\x00\x00\x02c1o1",
        },
        b"\x00\x00\x00\x00\x00\x00\x00\x00\x00\x00\x00\x00\x00\x00\x00\x07",
    ),
    (
        Call::OnSubscription {
            asked: Asked {
                hash: Some(7),
                instruction: 3,
                left: "o1",
                part: None,
            },
            right: EU,
        },
        b"\x00\x00\x00\x00\x00\x00\x00\x00\x00\x00\x00\x00\x00\x00\x00\x00\x07\x01\x01r\x01\x00\x00\x00\x02eu",
    ),
    (
        Call::OnSubscription {
            asked: Asked {
                hash: Some(8),
                instruction: 2,
                left: "a",
                part: None,
            },
            right: b"",
        },
        b"\x00\x00\x00\x00\x00\x00\x00\x00\x00\x00\x00\x00\x00\x00\x00\x00\x08",
    ),
    (
        Call::OnRight {
            right: Changed {
                key: "c1",
                old: EU,
                new: US,
            },
        },
        b"a \x00\x00\x00\x00\x00\x00\x00\x00\x00\x00\x00\x00\x00\x00\x00\x00\x08\x01\x01r\x01\x00\x00\x00\x02us o1 \x00\x00\x00\x00\x00\x00\x00\x00\x00\x00\x00\x00\x00\x00\x00\x00\x07\x01\x01r\x01\x00\x00\x00\x02us ",
    ),
    (
        Call::OnSubscription {
            asked: Asked {
                hash: Some(9),
                instruction: 0,
                left: "o1",
                part: None,
            },
            right: EU,
        },
        b"no answer",
    ),
    (Call::Length, b"1"),
    (
        Call::OnSubscription {
            asked: Asked {
                hash: None,
                instruction: 1,
                left: "a",
                part: None,
            },
            right: ONE,
        },
        b"\x80",
    ),
    (Call::Length, b"0"),
    (
        Call::OnRight {
            right: Changed {
                key: "c1",
                old: US,
                new: b"",
            },
        },
        b"",
    ),
];

/// The right side with partitions that are named: the store keeps them, and each answer goes to its own.
pub const NAMED: &[(Call, &[u8])] = &[
    (
        Call::OnSubscription {
            asked: Asked {
                hash: Some(7),
                instruction: 2,
                left: "abc/21",
                part: Some(3),
            },
            right: EU,
        },
        b"\x00\x00\x00\x00\x00\x00\x00\x00\x00\x00\x00\x00\x00\x00\x00\x00\x07\x01\x01r\x01\x00\x00\x00\x02euto 3",
    ),
    (
        Call::Get {
            key: b"\x00\x00\x00\x02c1abc/21",
        },
        b"\x00\x00\x00\x00\x00\x00\x00\x00\x00\x00\x00\x00\x00\x00\x00\x07\x00\x00\x00\x03",
    ),
    (
        Call::OnSubscription {
            asked: Asked {
                hash: Some(8),
                instruction: 3,
                left: "21/abc",
                part: Some(0),
            },
            right: b"",
        },
        b"no answer",
    ),
    (
        Call::OnSubscription {
            asked: Asked {
                hash: Some(9),
                instruction: 2,
                left: "o1",
                part: None,
            },
            right: b"",
        },
        b"\x00\x00\x00\x00\x00\x00\x00\x00\x00\x00\x00\x00\x00\x00\x00\x00\x09",
    ),
    (
        Call::OnRight {
            right: Changed {
                key: "c1",
                old: EU,
                new: US,
            },
        },
        b"21/abc \x00\x00\x00\x00\x00\x00\x00\x00\x00\x00\x00\x00\x00\x00\x00\x00\x08\x01\x01r\x01\x00\x00\x00\x02usto 0 abc/21 \x00\x00\x00\x00\x00\x00\x00\x00\x00\x00\x00\x00\x00\x00\x00\x00\x07\x01\x01r\x01\x00\x00\x00\x02usto 3 o1 \x00\x00\x00\x00\x00\x00\x00\x00\x00\x00\x00\x00\x00\x00\x00\x00\x09\x01\x01r\x01\x00\x00\x00\x02us ",
    ),
    (
        Call::OnSubscription {
            asked: Asked {
                hash: None,
                instruction: 1,
                left: "abc/21",
                part: Some(3),
            },
            right: EU,
        },
        b"\x80to 3",
    ),
    (
        Call::OnSubscription {
            asked: Asked {
                hash: Some(8),
                instruction: 0,
                left: "21/abc",
                part: Some(0),
            },
            right: EU,
        },
        b"no answer",
    ),
    (Call::Length, b"1"),
];

/// Counts in windows, of which one is late.
pub const COUNTED: &[(Call, &[u8])] = &[
    (Call::Count { t: 100 }, b"0 late, records 2"),
    (Call::Count { t: 95 }, b"0 late, records 1"),
    (Call::Count { t: 84 }, b"1 late, records 0"),
    (Call::Count { t: 100 }, b"0 late, records 1"),
    (Call::Length, b"3"),
    (Call::Get { key: b"T" }, b"\x00\x00\x00\x00\x00\x00\x00\x64"),
    (
        Call::Get {
            key: b"\x00\x00\x00\x01k\x00\x00\x00\x00\x00\x00\x00\x64",
        },
        b"\x00\x00\x00\x00\x00\x00\x00\x02\x00\x00\x00\x00\x00\x00\x00\x00",
    ),
];

/// A store, restored record by record: a record without a key is none, one without a value deletes.
pub const STORED: &[(Call, &[u8])] = &[
    (
        Call::Restore {
            key: Some(b"b"),
            value: Some(b"1"),
        },
        b"",
    ),
    (
        Call::Restore {
            key: Some(b"ab"),
            value: Some(b"2"),
        },
        b"",
    ),
    (
        Call::Restore {
            key: Some(b"a"),
            value: Some(b"3"),
        },
        b"",
    ),
    (
        Call::Restore {
            key: Some(b"abc"),
            value: Some(b"4"),
        },
        b"",
    ),
    (
        Call::Restore {
            key: Some(b"b"),
            value: Some(b"5"),
        },
        b"",
    ),
    (
        Call::Restore {
            key: Some(b""),
            value: Some(b"6"),
        },
        b"",
    ),
    (
        Call::Restore {
            key: Some(b"ac"),
            value: Some(b"7"),
        },
        b"",
    ),
    (
        Call::Restore {
            key: Some(b"missing"),
            value: None,
        },
        b"",
    ),
    (
        Call::Restore {
            key: None,
            value: Some(b"8"),
        },
        b"",
    ),
    (Call::Length, b"6"),
    (Call::Get { key: b"b" }, b"5"),
    (Call::Get { key: b"" }, b"6"),
    (Call::Get { key: b"abcd" }, b"nothing"),
    (Call::Prefix { front: b"" }, b"=6 a=3 ab=2 abc=4 ac=7 b=5 "),
    (Call::Prefix { front: b"ab" }, b"ab=2 abc=4 "),
    (Call::Prefix { front: b"abcd" }, b""),
    (
        Call::Restore {
            key: Some(b"ab"),
            value: None,
        },
        b"",
    ),
    (Call::Get { key: b"ab" }, b"nothing"),
    (Call::Prefix { front: b"a" }, b"a=3 abc=4 ac=7 "),
    (
        Call::List {
            key: b"ab",
            value: b"9",
            front: b"a",
        },
        b"done 9 4 done nothing ",
    ),
    (Call::Length, b"5"),
];
