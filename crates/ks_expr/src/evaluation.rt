//! The values of expressions and predicates.
ghost use Rattle.std.specs.Prelude.{◌≡◌, Some, None, IfSome, option_copied, option_map};
ghost use Rattle.ks_row.specs.Fields.{field_seen};
ghost use Rattle.ks_row.specs.Spelling.{FitsField};
ghost use Rattle.ks_expr.specs.Terms.{term_of, test_of};
ghost use Rattle.ks_expr.specs.Eval.{eval as value_of, holds as is_met, both_there, same_field, field_below};
ghost use Rattle.ks_expr.specs.Values.{found};

use crate::terms::{Expr, Pred};
use crate::value::{Value, side_value};
use ks_row::{FieldRef, Row};

fn look<'a>(expr: &'a Expr, left: Option<&'a Row>, right: Option<&'a Row>) -> Option<Value<'a>>
    ensures value { found result ≡ value_of (term_of expr.now) (option_copied left.entry)
        (option_copied right.entry) }
    ensures fits { IfSome (found result) FitsField }
{
    match expr {
        Expr::Field(name) => side_value(name, left),
        Expr::Left(name) => side_value(name, left),
        Expr::Right(name) => side_value(name, right),
        Expr::Int(number) => Some(Value::Int(*number)),
        Expr::Text(text) => Some(Value::Text(text.as_str().as_bytes())),
        Expr::Add(a, b) => look(a, left, right)?.plus(look(b, left, right)?),
        Expr::Sub(a, b) => look(a, left, right)?.minus(look(b, left, right)?),
        Expr::Mul(a, b) => look(a, left, right)?.times(look(b, left, right)?),
    }
}

/// The value of an expression over the rows of two sides, where it stands; a field without a side is one of the left row.
/// None where a field or its side is absent, and where an operand of `add`, `sub` or `mul` is absent or a text. Takes no memory.
pub fn eval<'a>(
    expr: &'a Expr,
    left: Option<&'a Row>,
    right: Option<&'a Row>,
) -> Option<FieldRef<'a>>
    ensures value { option_map field_seen result
        ≡ value_of (term_of expr.now) (option_copied left.entry) (option_copied right.entry) }
    ensures fits { IfSome (option_map field_seen result) FitsField }
{
    let value = look(expr, left, right)?;
    Some(value.to_field())
}

/// Whether a row meets a predicate; needs no memory.
pub fn holds<'a>(pred: &'a Pred, row: &'a Row) -> bool
    ensures { result ≡ is_met (test_of pred.now) row.now }
{
    match pred {
        Pred::Has(expr) => look(expr, Some(row), None).is_some(),
        Pred::Eq(a, b) => match (look(a, Some(row), None), look(b, Some(row), None)) {
            (Some(a), Some(b)) => a.is(b),
            _ => false,
        },
        Pred::Lt(a, b) => match (look(a, Some(row), None), look(b, Some(row), None)) {
            (Some(a), Some(b)) => a.is_below(b),
            _ => false,
        },
        Pred::Not(inner) => !holds(inner, row),
        Pred::And(a, b) => holds(a, row) && holds(b, row),
        Pred::Or(a, b) => holds(a, row) || holds(b, row),
    }
}
