//! Values while they are computed: numbers, and texts that stand in a row or in an expression.
ghost use Rattle.std.specs.Prelude.{◌≡◌, Some, IfSome, option_copied};
ghost use Rattle.std.specs.Int.{w64, int_wrapping_add, int_wrapping_sub, int_wrapping_mul};
ghost use Rattle.ks_row.specs.Fields.{field_seen as seen_in};
ghost use Rattle.ks_row.specs.Spelling.{FitsField};
ghost use Rattle.ks_expr.specs.Values.{field_seen, found, number_in};
ghost use Rattle.ks_expr.specs.Eval.{of_numbers, same_field, field_below, side_field};

use ks_record::{Name, equal_bytes};
use ks_row::{FieldRef, Row, is_below};

/// A field without its own memory.
#[derive(Clone, Copy)]
pub enum Value<'a> {
    Int(i64),
    Text(&'a [u8]),
}

impl<'a> Value<'a> {
    fn of(field: FieldRef<'a>) -> Value<'a>
        ensures { field_seen result ≡ seen_in field.entry }
    {
        match field {
            FieldRef::Int(number) => Value::Int(number),
            FieldRef::Text(text) => Value::Text(text),
        }
    }

    /// The field, where it stands.
    pub fn to_field(self) -> FieldRef<'a>
        ensures { seen_in result ≡ field_seen self.entry }
    {
        match self {
            Value::Int(number) => FieldRef::Int(number),
            Value::Text(text) => FieldRef::Text(text),
        }
    }

    fn number(self) -> Option<i64>
        ensures { result ≡ number_in (field_seen self.entry) }
    {
        match self {
            Value::Int(number) => Some(number),
            Value::Text(_) => None,
        }
    }

    /// The sum, wrapping round; none where one is a text.
    pub fn plus(self, other: Value<'a>) -> Option<Value<'a>>
        ensures value { found result ≡ of_numbers (int_wrapping_add w64)
            (Some (field_seen self.entry))
            (Some (field_seen other.entry)) }
        ensures fits { IfSome (found result) FitsField }
    {
        Some(Value::Int(self.number()?.wrapping_add(other.number()?)))
    }

    /// The difference, wrapping round; none where one is a text.
    pub fn minus(self, other: Value<'a>) -> Option<Value<'a>>
        ensures value { found result ≡ of_numbers (int_wrapping_sub w64)
            (Some (field_seen self.entry))
            (Some (field_seen other.entry)) }
        ensures fits { IfSome (found result) FitsField }
    {
        Some(Value::Int(self.number()?.wrapping_sub(other.number()?)))
    }

    /// The product, wrapping round; none where one is a text.
    pub fn times(self, other: Value<'a>) -> Option<Value<'a>>
        ensures value { found result ≡ of_numbers (int_wrapping_mul w64)
            (Some (field_seen self.entry))
            (Some (field_seen other.entry)) }
        ensures fits { IfSome (found result) FitsField }
    {
        Some(Value::Int(self.number()?.wrapping_mul(other.number()?)))
    }

    /// Of one kind and equal.
    pub fn is(self, other: Value<'a>) -> bool
        ensures { result ≡ same_field (field_seen self.entry) (field_seen other.entry) }
    {
        match (self, other) {
            (Value::Int(a), Value::Int(b)) => a == b,
            (Value::Text(a), Value::Text(b)) => equal_bytes(a, b),
            _ => false,
        }
    }

    /// Whether both are of one kind and this one is less: a smaller number, or a text that stands before by bytes. Takes no memory.
    pub fn is_below(self, other: Value<'a>) -> bool
        ensures { result ≡ field_below (field_seen self.entry) (field_seen other.entry) }
    {
        match (self, other) {
            (Value::Int(a), Value::Int(b)) => a < b,
            (Value::Text(a), Value::Text(b)) => is_below(a, b),
            _ => false,
        }
    }
}

/// A side's field; none where the side or the field is absent.
pub fn side_value<'a>(name: &Name, side: Option<&'a Row>) -> Option<Value<'a>>
    ensures value { found result ≡ side_field name.now (option_copied side.entry) }
    ensures fits { IfSome (found result) FitsField }
{
    let field = side?.get(name.as_str().as_bytes())?;
    Some(Value::of(field))
}
