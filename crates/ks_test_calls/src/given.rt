//! What the calls share, and parts of what they are given. Want of memory ends the test.
use crate::calls::{Changed, Form};
use ks_expr::{Expr, Fk, Proj};
use ks_record::{Blob, Key, Name, Seq};
use ks_row::{Change, Row, decode};
use std::alloc::Global;
use std::process::Abort;

/// The projection of the left field n, the right key c1, and the key k of what is counted.
#[derive(Drop)]
pub struct Given {
    pub set: Proj,
    pub right: Key,
    pub counted: Key,
}

/// The key of this text; the test ends where it is none.
pub fn key<R: Abort>(rt: &R, alloc: Global, text: &str) -> Key {
    match Key::of_text(alloc, text) {
        Ok(Some(key)) => key,
        _ => rt.abort(),
    }
}

fn name<R: Abort>(rt: &R, alloc: Global, text: &str) -> Name {
    match Name::of_text(alloc, text) {
        Ok(Some(name)) => name,
        _ => rt.abort(),
    }
}

/// A copy of these bytes.
pub fn blob<R: Abort>(rt: &R, alloc: Global, bytes: &[u8]) -> Blob {
    Blob::from_slice(alloc, bytes).expect(rt, "memory")
}

/// The row of these bytes; none where they are none.
pub fn row<R: Abort>(rt: &R, alloc: Global, bytes: &[u8]) -> Option<Row> {
    decode(alloc, bytes).expect(rt, "memory")
}

fn projection<R: Abort>(rt: &R, alloc: Global) -> Proj {
    let field = (name(rt, alloc, "n"), Expr::Left(name(rt, alloc, "n")));
    match vec![in alloc; field] {
        Ok(fields) => Proj {
            fields: Seq::of(fields),
        },
        Err(_) => rt.abort(),
    }
}

/// What all calls share.
pub fn new_given<R: Abort>(rt: &R, alloc: Global) -> Given {
    Given {
        set: projection(rt, alloc),
        right: key(rt, alloc, "c1"),
        counted: key(rt, alloc, "k"),
    }
}

/// The foreign key of this form.
pub fn foreign_key<R: Abort>(rt: &R, alloc: Global, form: Form) -> Fk {
    match form {
        Form::Field => Fk::Field(name(rt, alloc, "r")),
        Form::Whole => Fk::Whole,
        Form::Before => Fk::Before(name(rt, alloc, "/")),
    }
}

/// The change of a key.
pub fn change<R: Abort>(rt: &R, alloc: Global, changed: Changed) -> Change {
    Change {
        key: key(rt, alloc, changed.key),
        old: row(rt, alloc, changed.old),
        new: row(rt, alloc, changed.new),
    }
}
