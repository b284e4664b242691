//! Worked runs: what a job's bytes, the words and the devices' faults give.
use crate::runs::{Devices, Run, expect, idle_gates};
use crate::workers::{COLLISION, COLLISION_SHOWN, ORDER, SHOWN, run_with};
use ks_hash::Constant;
use ks_words::Settings;

const RUN: &[&str] = &["run"];

/// Rows that change and go.
pub const TABLE_JOB: &str =
    r#"{"app":"a","topics":{"t":1},"nodes":[{"name":"x","op":"table","topic":"t"}],"print":["x"]}
{"topic":"t","key":"b","value":{"n":1}}
{"topic":"t","key":"a","value":{"n":2}}
{"topic":"t","key":"b","value":{"n":3}}
{"topic":"t","key":"a","value":null}
"#;

/// Totals of joined orders, in several partitions.
pub const TOTALS: &str =
    r#"{"app":"s","topics":{"customers":2,"orders":4},"nodes":[{"name":"o","op":"table","topic":"orders"},{"name":"c","op":"table","topic":"customers"},{"name":"e","op":"fk_join","left":"o","right":"c","fk":"cust","kind":"inner","set":{"amt":{"left":"amt"},"region":{"right":"region"}}},{"name":"totals","op":"sum","from":"e","by":"region","field":"amt"}],"print":["e","totals"]}
{"topic":"customers","key":"c1","value":{"region":"eu"}}
{"topic":"customers","key":"c2","value":{"region":"us"}}
{"topic":"customers","key":"c3","value":{"region":"eu"}}
{"topic":"orders","key":"o1","value":{"cust":"c1","amt":10}}
{"topic":"orders","key":"o2","value":{"cust":"c2","amt":20}}
{"topic":"orders","key":"o3","value":{"cust":"c3","amt":30}}
{"topic":"orders","key":"o4","value":{"cust":"c9","amt":40}}
{"topic":"orders","key":"o5","value":{"cust":"c1","amt":50}}
{"topic":"orders","key":"o6","value":{"cust":"c2","amt":60}}
{"topic":"customers","key":"c3","value":{"region":"us"}}
{"topic":"orders","key":"o5","value":null}
{"topic":"orders","key":"o2","value":{"cust":"c1","amt":25}}
"#;

pub const TOTALS_SHOWN: &str = r#"settled
table e 4
["o1",{"amt":10,"region":"eu"}]
["o2",{"amt":25,"region":"eu"}]
["o3",{"amt":30,"region":"us"}]
["o6",{"amt":60,"region":"us"}]
table totals 2
["eu",{"sum":35}]
["us",{"sum":90}]
"#;

/// Jobs with what they print.
const SETTLED: &[(&str, &str)] = &[
    (
        TABLE_JOB,
        r#"settled
table x 1
["b",{"n":3}]
"#,
    ),
    (TABLE, "settled\ntable x 0\n"),
    (
        r#"{"app":"a","topics":{"t":1},"nodes":[{"name":"x","op":"table","topic":"t"},{"name":"g","op":"count","from":"x","by":"r"}],"print":["g"]}
{"topic":"t","key":"k1","value":{"r":"p"}}
{"topic":"t","key":"k2","value":{"r":"q"}}
{"topic":"t","key":"k1","value":null}
"#,
        r#"settled
table g 1
["q",{"count":1}]
"#,
    ),
    // A row on each side of a join on a foreign key.
    (ORDER, SHOWN),
    // An order moves to another customer.
    (
        r#"{"app":"s","topics":{"customers":1,"orders":1},"nodes":[{"name":"o","op":"table","topic":"orders"},{"name":"c","op":"table","topic":"customers"},{"name":"e","op":"fk_join","left":"o","right":"c","fk":"cust","kind":"inner","set":{"amt":{"left":"amt"},"region":{"right":"region"}}}],"print":["e"]}
{"topic":"customers","key":"c1","value":{"region":"eu"}}
{"topic":"customers","key":"c2","value":{"region":"us"}}
{"topic":"orders","key":"o1","value":{"cust":"c1","amt":5}}
{"topic":"orders","key":"o1","value":{"cust":"c2","amt":5}}
"#,
        r#"settled
table e 1
["o1",{"amt":5,"region":"us"}]
"#,
    ),
    // Its customer is deleted.
    (
        r#"{"app":"s","topics":{"customers":1,"orders":1},"nodes":[{"name":"o","op":"table","topic":"orders"},{"name":"c","op":"table","topic":"customers"},{"name":"e","op":"fk_join","left":"o","right":"c","fk":"cust","kind":"inner","set":{"amt":{"left":"amt"},"region":{"right":"region"}}}],"print":["e"]}
{"topic":"customers","key":"c1","value":{"region":"eu"}}
{"topic":"orders","key":"o1","value":{"cust":"c1","amt":5}}
{"topic":"customers","key":"c1","value":null}
"#,
        r#"settled
table e 0
"#,
    ),
    (
        r#"{"app":"s","topics":{"customers":1,"orders":1},"nodes":[{"name":"o","op":"table","topic":"orders"},{"name":"c","op":"table","topic":"customers"},{"name":"e","op":"fk_join","left":"o","right":"c","fk":"cust","kind":"left","set":{"amt":{"left":"amt"},"region":{"right":"region"}}}],"print":["e"]}
{"topic":"customers","key":"c1","value":{"region":"eu"}}
{"topic":"orders","key":"o1","value":{"cust":"c1","amt":5}}
{"topic":"customers","key":"c1","value":null}
"#,
        r#"settled
table e 1
["o1",{"amt":5}]
"#,
    ),
    // An order is deleted, and comes back with another customer.
    (
        r#"{"app":"s","topics":{"customers":1,"orders":1},"nodes":[{"name":"o","op":"table","topic":"orders"},{"name":"c","op":"table","topic":"customers"},{"name":"e","op":"fk_join","left":"o","right":"c","fk":"cust","kind":"inner","set":{"amt":{"left":"amt"},"region":{"right":"region"}}}],"print":["e"]}
{"topic":"customers","key":"c1","value":{"region":"eu"}}
{"topic":"orders","key":"o1","value":{"cust":"c1","amt":5}}
{"topic":"orders","key":"o1","value":null}
{"topic":"orders","key":"o1","value":{"cust":"c2","amt":5}}
"#,
        r#"settled
table e 0
"#,
    ),
    // An order moves to another customer and back.
    (
        r#"{"app":"s","topics":{"customers":1,"orders":1},"nodes":[{"name":"o","op":"table","topic":"orders"},{"name":"c","op":"table","topic":"customers"},{"name":"e","op":"fk_join","left":"o","right":"c","fk":"cust","kind":"inner","set":{"amt":{"left":"amt"},"region":{"right":"region"}}}],"print":["e"]}
{"topic":"customers","key":"c1","value":{"region":"eu"}}
{"topic":"orders","key":"o1","value":{"cust":"c1","amt":5}}
{"topic":"orders","key":"o1","value":{"cust":"c2","amt":5}}
{"topic":"customers","key":"c1","value":{"region":"us"}}
{"topic":"orders","key":"o1","value":{"cust":"c1","amt":5}}
"#,
        r#"settled
table e 1
["o1",{"amt":5,"region":"us"}]
"#,
    ),
    // A sum that wraps.
    (
        r#"{"app":"a","topics":{"t":1},"nodes":[{"name":"s","op":"stream","topic":"t"},{"name":"z","op":"sum","from":"s","field":"n"}],"print":["z"]}
{"topic":"t","key":"k","value":{"n":9223372036854775807}}
{"topic":"t","key":"k","value":{"n":1}}
"#,
        r#"settled
table z 1
["k",{"sum":-9223372036854775808}]
"#,
    ),
    // Hopping windows.
    (
        r#"{"app":"a","topics":{"t":1},"nodes":[{"name":"s","op":"stream","topic":"t"},{"name":"w","op":"windowed_count","from":"s","size":10,"advance":5}],"print":["w"]}
{"topic":"t","key":"k","value":{"n":1},"ts":3}
{"topic":"t","key":"k","value":{"n":1},"ts":12}
"#,
        r#"settled
table w 3
["k",0,{"count":1}]
["k",5,{"count":1}]
["k",10,{"count":1}]
"#,
    ),
    (TOTALS, TOTALS_SHOWN),
    // A table joined with itself.
    (
        r#"{"app":"a","topics":{"staff":1},"nodes":[{"name":"s","op":"table","topic":"staff"},{"name":"m","op":"fk_join","left":"s","right":"s","fk":"boss","kind":"left","set":{"boss":{"right":"name"},"name":{"left":"name"}}}],"print":["m"]}
{"topic":"staff","key":"a","value":{"name":"Ann","boss":"a"}}
{"topic":"staff","key":"b","value":{"name":"Bob","boss":"a"}}
{"topic":"staff","key":"c","value":{"name":"Cy"}}
"#,
        r#"settled
table m 3
["a",{"boss":"Ann","name":"Ann"}]
["b",{"boss":"Ann","name":"Bob"}]
["c",{"name":"Cy"}]
"#,
    ),
    // An outer join of keys, and a filter.
    (
        r#"{"app":"a","topics":{"x":1,"y":1},"nodes":[{"name":"x","op":"table","topic":"x"},{"name":"y","op":"table","topic":"y"},{"name":"j","op":"join","left":"x","right":"y","kind":"outer","set":{"a":{"left":"a"},"b":{"right":"b"}}},{"name":"f","op":"filter","from":"x","where":{"lt":[{"field":"a"},{"int":3}]}}],"print":["j","f"]}
{"topic":"x","key":"k1","value":{"a":1}}
{"topic":"y","key":"k2","value":{"b":2}}
{"topic":"x","key":"k3","value":{"a":3}}
{"topic":"y","key":"k3","value":{"b":4}}
"#,
        r#"settled
table j 3
["k1",{"a":1}]
["k2",{"b":2}]
["k3",{"a":3,"b":4}]
table f 1
["k1",{"a":1}]
"#,
    ),
    // Records without keys, by a selected key.
    (
        r#"{"app":"a","topics":{"t":1},"nodes":[{"name":"s","op":"stream","topic":"t"},{"name":"k","op":"select_key","from":"s","key":"u"},{"name":"n","op":"count","from":"k"}],"print":["n"]}
{"topic":"t","value":{"u":"p"}}
{"topic":"t","value":{"u":"q"}}
{"topic":"t","value":{"u":"p"}}
{"topic":"t","value":null}
"#,
        r#"settled
table n 2
["p",{"count":2}]
["q",{"count":1}]
"#,
    ),
    // A repartitioned count that is joined back to its own table.
    (
        r#"{"app":"a","topics":{"x":2},"nodes":[{"name":"x","op":"table","topic":"x"},{"name":"g","op":"count","from":"x","by":"r"},{"name":"j","op":"join","left":"x","right":"g","kind":"left","set":{"r":{"left":"r"},"n":{"right":"count"}}}],"print":["g","j"]}
{"topic":"x","key":"p","value":{"r":"q"}}
{"topic":"x","key":"q","value":{"r":"q"}}
{"topic":"x","key":"s","value":{"r":"p"}}
{"topic":"x","key":"q","value":null}
"#,
        r#"settled
table g 2
["p",{"count":1}]
["q",{"count":1}]
table j 2
["p",{"n":1,"r":"q"}]
["s",{"r":"p"}]
"#,
    ),
];

/// Jobs some of whose records are late, with what they print.
const LATE: &[(&str, &str)] = &[
    // A record at the start of the stream's time, without grace.
    (
        r#"{"app":"a","topics":{"t":1},"nodes":[{"name":"s","op":"stream","topic":"t"},{"name":"w","op":"windowed_count","from":"s","size":10,"grace":0}],"print":["w"]}
{"topic":"t","key":"k","value":{"n":1},"ts":100}
{"topic":"t","key":"k","value":{"n":1},"ts":5}
"#,
        r#"late 1
table w 1
["k",100,{"count":1}]
"#,
    ),
    // A window ends at the stream's time less the grace.
    (
        r#"{"app":"a","topics":{"t":1},"nodes":[{"name":"s","op":"stream","topic":"t"},{"name":"w","op":"windowed_count","from":"s","size":10,"grace":5}],"print":["w"]}
{"topic":"t","key":"k","value":{"n":1},"ts":100}
{"topic":"t","key":"k","value":{"n":1},"ts":95}
{"topic":"t","key":"k","value":{"n":1},"ts":84}
"#,
        r#"late 1
table w 2
["k",90,{"count":1}]
["k",100,{"count":1}]
"#,
    ),
];

/// Jobs with their fault.
const FAULTY: &[(&str, &str)] = &[
    (
        r#"{"app":"a","topics":{"x":3,"y":4},"nodes":[{"name":"x","op":"table","topic":"x"},{"name":"y","op":"table","topic":"y"},{"name":"j","op":"join","left":"x","right":"y","kind":"inner","set":{"a":{"left":"a"}}}],"print":["j"]}
"#,
        "bad job line 1: 13 NotCopartitioned \"x\" \"y\"\n",
    ),
    (
        r#"{"app":"a","topics":{"t":1},"nodes":[{"name":"x","op":"table","topic":"t"}],"print":["x"]}
{"topic":"t","key":"a"#,
        "bad job line 2: 20 NotJson\n",
    ),
    (
        r#"{"app":"a","topics":{"t":1},"nodes":[{"name":"x","op":"table","topic":"t"}],"print":["x"]}
{"topic":"t","key":"a","value":{"n":9223372036854775808}}
"#,
        "bad job line 2: 22 BadNumber \"n\"\n",
    ),
    (
        r#"{"app":"a","topics":{"t":1},"nodes":[{"name":"x","op":"table","topic":"t"}],"print":["x"]}
{"topic":"u","key":"a","value":{"n":1}}
"#,
        "bad job line 2: 23 UnknownTopic \"u\"\n",
    ),
    ("", "bad job line 1: 25 NoTopology\n"),
    (
        r#"{"app":"a","topics":{"t":65},"nodes":[{"name":"x","op":"table","topic":"t"}],"print":["x"]}
"#,
        "bad job line 1: 14 TooMany partitions 64\n",
    ),
    (
        r#"{"app":"a","topics":{"t":1},"nodes":[{"name":"x","op":"table","topic":"t"},{"name":"x","op":"table","topic":"t"}],"print":["x"]}
"#,
        "bad job line 1: 12 DuplicateName \"x\"\n",
    ),
    (
        r#"{"app":"a","topics":{"t":1},"nodes":[{"name":"s","op":"stream","topic":"t"},{"name":"w","op":"windowed_count","from":"s","size":10,"advance":11}],"print":["w"]}
"#,
        "bad job line 1: 15 BadWindow \"w\"\n",
    ),
    (
        r#"{"app":"a","topics":{"t":1},"nodes":[{"name":"s","op":"stream","topic":"t"},{"name":"w","op":"windowed_count","from":"s","size":10},{"name":"v","op":"filter","from":"w","where":{"has":{"field":"a"}}}],"print":["w"]}
"#,
        "bad job line 1: 16 SinkOnly \"v\"\n",
    ),
    // A blank line counts.
    (
        r#"{"app":"a","topics":{"t":1},"nodes":[{"name":"x","op":"table","topic":"t"}],"print":["x"]}

[1]
"#,
        "bad job line 3: 21 BadShape \"line\"\n",
    ),
    (
        r#"{"app":"a","topics":{"t":1},"nodes":[{"name":"x","op":"table","topic":"t"}],"print":["x"]}
{"topic":"t","key":"","value":null}
"#,
        "bad job line 2: 21 BadShape \"key\"\n",
    ),
    // A row without fields; one of a truth value.
    (
        r#"{"app":"a","topics":{"t":1},"nodes":[{"name":"x","op":"table","topic":"t"}],"print":["x"]}
{"topic":"t","value":{"n":null}}
"#,
        "bad job line 2: 21 BadShape \"value\"\n",
    ),
    (
        r#"{"app":"a","topics":{"t":1},"nodes":[{"name":"x","op":"table","topic":"t"}],"print":["x"]}
{"topic":"t","value":{"n":true}}
"#,
        "bad job line 2: 21 BadShape \"n\"\n",
    ),
    (
        r#"{"app":"a","topics":{"t":1},"nodes":[{"name":"x","op":"table","topic":"t"}],"print":["x"]}
{"topic":"t","value":{"n":1.5}}
"#,
        "bad job line 2: 22 BadNumber \"n\"\n",
    ),
    (
        r#"{"app":"a","topics":{"t":1},"nodes":[{"name":"x","op":"table","topic":"t"}],"print":["x"]}
{"topic":"t","value":null,"ts":-1}
"#,
        "bad job line 2: 22 BadNumber \"ts\"\n",
    ),
    // A predicate of depth 17.
    (
        r#"{"app":"a","topics":{"t":1},"nodes":[{"name":"x","op":"table","topic":"t"},{"name":"f","op":"filter","from":"x","where":{"not":{"not":{"not":{"not":{"not":{"not":{"not":{"not":{"not":{"not":{"not":{"not":{"not":{"not":{"not":{"has":{"field":"a"}}}}}}}}}}}}}}}}}}],"print":["f"]}
"#,
        "bad job line 1: 14 TooMany depth 16\n",
    ),
];

const TABLE: &str =
    r#"{"app":"a","topics":{"t":1},"nodes":[{"name":"x","op":"table","topic":"t"}],"print":["x"]}
"#;

/// Words that are none, a line that is too long, and devices that fail.
const OTHERS: &[Run] = &[
    Run {
        words: &["run", "--threads", "5"],
        input: TABLE,
        spaces: 0,
        devices: Devices::Whole,
        ends: (1, "bad words\n"),
    },
    Run {
        words: RUN,
        input: TABLE,
        spaces: 65_537,
        devices: Devices::Whole,
        ends: (2, "bad job line 2: 24 LineTooLong\n"),
    },
    // The source fails behind the first line.
    Run {
        words: RUN,
        input: TABLE,
        spaces: 1,
        devices: Devices::Source(&[TABLE.len()], &[1]),
        ends: (6, "read fault\n"),
    },
    Run {
        words: RUN,
        input: TABLE,
        spaces: 0,
        devices: Devices::Sink(0, &[0]),
        ends: (7, ""),
    },
    // A sink that takes five bytes at a time, and fails at the fourth call; one that takes a byte.
    Run {
        words: RUN,
        input: TABLE_JOB,
        spaces: 0,
        devices: Devices::Sink(5, &[3]),
        ends: (7, "settled\ntable x"),
    },
    Run {
        words: RUN,
        input: TABLE_JOB,
        spaces: 0,
        devices: Devices::Sink(1, &[]),
        ends: (0, "settled\ntable x 1\n[\"b\",{\"n\":3}]\n"),
    },
    // The source isn't asked again once a faulty line is whole, nor after its end.
    Run {
        words: RUN,
        input: "{\n\n",
        spaces: 0,
        devices: Devices::Source(&[2], &[1]),
        ends: (2, "bad job line 1: 20 NotJson\n"),
    },
    Run {
        words: RUN,
        input: TABLE,
        spaces: 0,
        devices: Devices::Source(&[], &[2, 3]),
        ends: (0, "settled\ntable x 0\n"),
    },
];

#[test]
fn jobs_with_their_tables_or_fault(rt: HostRuntime) {
    for (jobs, status) in [(SETTLED, 0), (FAULTY, 2), (LATE, 3)] {
        for (input, output) in jobs {
            let run = Run {
                words: RUN,
                input,
                spaces: 0,
                devices: Devices::Whole,
                ends: (status, output),
            };
            expect(&rt, rt.alloc(), &run);
        }
    }
}

/// Also where no worker takes part.
#[test]
fn rows_of_one_hash(rt: HostRuntime) {
    let alloc = rt.alloc();
    let (gates, settings) = (idle_gates(&rt, alloc, 16), Settings::usual());
    let ends = (5, COLLISION_SHOWN);
    drop(run_with::<Constant, HostRuntime>(&rt, alloc, &settings, COLLISION, gates, ends));
}

#[test]
fn words_and_devices(rt: HostRuntime) {
    for run in OTHERS {
        expect(&rt, rt.alloc(), run);
    }
}
