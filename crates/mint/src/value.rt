//! Values.

ghost use Rattle.std.specs.Prelude.{◌≡◌, IfOk, option_map};
ghost use Rattle.mint.specs.Values.{arm, present, seen, is_nothing, num_in, row_in, group_in, items_in, arm_in, opt_in, all_seen};

pub use crate::row::Row;
use kit_base::{Listed, NoMemory};
use std::alloc::Global;

/// A list of values.
pub type Values = Listed<Value>;

/// A value.
#[derive(Drop)]
pub enum Value {
    /// No data.
    Void,
    /// A number, a boolean (0 or 1), or the number of an enumerator.
    Num(i128),
    /// The numbers of an array, the octets of opaque data, or the characters of a string.
    Row(Row),
    /// The fields of a struct, in order.
    Group(Values),
    /// The elements of an array.
    Items(Values),
    /// The discriminant of a union, and the value of its arm.
    Arm(i128, Box<Value>),
    /// An optional value: the value, or `None` where it is absent.
    Opt(Option<Box<Value>>),
}

impl Value {
    /// A union's value: a discriminant, and the value of its arm.
    pub fn arm(alloc: Global, n: i128, inner: Value) -> Result<Value, NoMemory>
        ensures { IfOk result (λ v. seen v ≡ arm n (seen inner)) }
    {
        Ok(Value::Arm(n, Box::new(alloc, inner)?))
    }

    /// An optional value that is present.
    pub fn present(alloc: Global, inner: Value) -> Result<Value, NoMemory>
        ensures { IfOk result (λ v. seen v ≡ present (seen inner)) }
    {
        Ok(Value::Opt(Some(Box::new(alloc, inner)?)))
    }

    /// Whether it is `Void`.
    pub fn is_void(&self) -> bool
        ensures { result ≡ is_nothing (seen self.now) }
    {
        matches!(self, Value::Void)
    }

    /// The number that it is.
    pub fn as_num(&self) -> Option<i128>
        ensures { result ≡ num_in (seen self.now) }
    {
        match self {
            Value::Num(n) => Some(*n),
            _ => None,
        }
    }

    /// The row that it is.
    pub fn as_row(&self) -> Option<&Row>
        ensures { option_map (λ r. (r.now.kind, r.now.numbers)) result ≡ row_in (seen self.now) }
    {
        match self {
            Value::Row(row) => Some(row),
            _ => None,
        }
    }

    /// The values of the fields.
    pub fn as_group(&self) -> Option<&Values>
        ensures { option_map (λ vs. all_seen vs.now) result ≡ group_in (seen self.now) }
    {
        match self {
            Value::Group(values) => Some(values),
            _ => None,
        }
    }

    /// The values of the elements.
    pub fn as_items(&self) -> Option<&Values>
        ensures { option_map (λ vs. all_seen vs.now) result ≡ items_in (seen self.now) }
    {
        match self {
            Value::Items(values) => Some(values),
            _ => None,
        }
    }

    /// The discriminant of a union, and the value of its arm.
    pub fn as_arm(&self) -> Option<(i128, &Value)>
        ensures { option_map (λ a. (a.0, seen a.1.now)) result ≡ arm_in (seen self.now) }
    {
        match self {
            Value::Arm(n, value) => Some((*n, value)),
            _ => None,
        }
    }

    /// The optional value that it is: `Some(None)` where it is one that is absent.
    pub fn as_opt(&self) -> Option<Option<&Value>>
        ensures { option_map (option_map (λ v. seen v.now)) result ≡ opt_in (seen self.now) }
    {
        match self {
            Value::Opt(None) => Some(None),
            Value::Opt(Some(value)) => Some(Some(value)),
            _ => None,
        }
    }
}
