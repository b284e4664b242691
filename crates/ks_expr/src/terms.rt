//! What nodes of a topology compute: expressions, predicates and projections.
use ks_record::{Name, Seq, Text};

/// Which keys a join has a row for: those that both sides have, those of the left side, or those of at least one side.
#[derive(Clone, Copy, PartialEq, Eq)]
pub enum JoinKind {
    Inner,
    Left,
    Outer,
}

/// A value that is computed from one row, or from the two rows of a join.
#[derive(Drop)]
pub enum Expr {
    /// A field of the one row.
    Field(Name),
    /// A field of a join's left row.
    Left(Name),
    /// A field of a join's right row.
    Right(Name),
    Int(i64),
    Text(Text),
    /// The sum of two numbers, in the arithmetic of 64 bits that wraps round.
    Add(Box<Expr>, Box<Expr>),
    Sub(Box<Expr>, Box<Expr>),
    Mul(Box<Expr>, Box<Expr>),
}

/// A condition on a row.
#[derive(Drop)]
pub enum Pred {
    /// The value is there.
    Has(Expr),
    /// Both values are there, of one kind and equal.
    Eq(Expr, Expr),
    /// Both values are there and of one kind, and the first is less; texts by their bytes.
    Lt(Expr, Expr),
    Not(Box<Pred>),
    And(Box<Pred>, Box<Pred>),
    Or(Box<Pred>, Box<Pred>),
}

/// What gives the foreign key of a left row of a join.
#[derive(Drop)]
pub enum Fk {
    /// The key that this field of the row gives.
    Field(Name),
    /// The row's own key.
    Whole,
    /// The front part of the row's own key, before the first place of this text.
    Before(Name),
}

/// The fields of a new row, each with its expression, in any order.
#[derive(Drop)]
pub struct Proj {
    pub fields: Seq<(Name, Expr)>,
}
