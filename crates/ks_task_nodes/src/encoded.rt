//! Rows as they are encoded.
ghost use Rattle.std.specs.Prelude.{◌≡◌, Some, IfOk};
ghost use Rattle.ks_row.specs.Spelling.{spelling, FitsRow};
ghost use Rattle.ks_row.specs.Reading.{row_from};

use ks_row::{Row, spells_row};
use std::alloc::{AllocError, Global};
use std::marker::Model;

/// Borrowed bytes that spell a row; contracts see the row.
#[derive(Drop)]
pub struct EncodedRow<'a> {
    bytes: &'a [u8],
}

impl<'a> Model for EncodedRow<'a> {
    ghost use Rattle.std.specs.Prelude.{◌≡◌, List};
    ghost use Rattle.ks_row.specs.Rows.{Member};
    ghost use Rattle.ks_row.specs.Spelling.{spelling, FitsRow};
    ghost use Rattle.ks_row.specs.Judged.{row_in};

    ghost Value = { List Member };

    ghost view = { λ s. row_in s.bytes.now };

    ghost invariant = { λ s. FitsRow (row_in s.bytes.now) × (s.bytes.now ≡ spelling (row_in s.bytes.now)) };
}

impl<'a> EncodedRow<'a> {
    /// The row that the bytes spell, all of them; none where they spell no row. Takes no memory.
    pub fn of(bytes: &'a [u8]) -> Option<EncodedRow<'a>>
        ensures { result ≡ row_from bytes.now }
    {
        if spells_row(bytes) {
            Some(EncodedRow { bytes })
        } else {
            None
        }
    }

    /// A row, where its bytes stand. Takes no memory.
    pub fn of_row(row: &'a Row) -> EncodedRow<'a>
        ensures { result ≡ row.now }
    {
        EncodedRow {
            bytes: row.as_bytes(),
        }
    }

    /// The row itself, read from its bytes; it is always there. Want of memory is the one error.
    pub fn row(&self, alloc: Global) -> Result<Option<Row>, AllocError>
        ensures { IfOk result (λ o. o ≡ Some self.now) }
    {
        Ok(Some(Row::of_spelling(alloc, self.bytes)?))
    }

    /// The bytes that spell the row.
    pub fn bytes(&self) -> &[u8]
        ensures bytes { result.now ≡ spelling self.now }
        ensures fits { FitsRow self.now }
    {
        self.bytes
    }
}
