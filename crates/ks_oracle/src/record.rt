//! Records of a job.
ghost use Rattle.std.specs.Prelude.{◌≡◌, option_copied};

use ks_record::Key;
use ks_row::Row;
use std::marker::Model;

/// A record of a job: its topic by number, a key if it has one, a row or none, and its time in milliseconds.
#[derive(Drop)]
pub struct JobRecord {
    topic: u16,
    key: Option<Key>,
    row: Option<Row>,
    time: u64,
}

impl Model for JobRecord {
    ghost use Rattle.ks_query.specs.Streams.{Input};

    ghost Value = { Input };

    ghost view = { λ r. record { topic = r.topic; key = r.key; value = r.row; time = r.time } };
}

impl JobRecord {
    /// A record of this topic; none of its parts is judged.
    pub fn new(topic: u16, key: Option<Key>, row: Option<Row>, time: u64) -> JobRecord
        ensures { result ≡ record { topic = topic; key = key; value = row; time = time } }
    {
        JobRecord {
            topic,
            key,
            row,
            time,
        }
    }

    /// The number of its topic.
    pub fn topic(&self) -> u16
        ensures { result ≡ self.now.topic }
    {
        self.topic
    }

    /// Its key, where it has one.
    pub fn key(&self) -> Option<&Key>
        ensures { option_copied result ≡ self.now.key }
    {
        self.key.as_ref()
    }

    /// Its row; none where it deletes.
    pub fn row(&self) -> Option<&Row>
        ensures { option_copied result ≡ self.now.value }
    {
        self.row.as_ref()
    }

    /// Its time, in milliseconds.
    pub fn time(&self) -> u64
        ensures { result ≡ self.now.time }
    {
        self.time
    }
}
