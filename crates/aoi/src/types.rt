//! Types, as a file declares them.

use crate::FullName;
use kit_base::{Listed, Name};
use kit_shared::Shared;
use mint::kind::{Count, Kind};

/// The items of an enum, each with its number.
pub type Items = Listed<(Name, i32)>;

/// Counts of elements, in order.
pub type Counts = Listed<Count>;

/// Fields, in order.
pub type Fields = Listed<Field>;

/// The arms of a union, each with the number of the tag that it is for.
pub type UnionArms = Listed<(i128, Ty)>;

/// Types, each with its name.
pub type Types = Listed<(FullName, Ty)>;

/// A type, as an interface file declares it.
#[cycle(ty)]
#[derive(Debug, Drop)]
pub enum Ty {
    /// Nothing: a result, an arm or a default without a value.
    Void,
    /// A number of a kind, or a truth value.
    Num(Kind),
    /// An enumeration: the name of each item, and its number.
    Enum(Items),
    /// A string, none of whose octets is 0, and how many it may have.
    Text(Count),
    /// An array or a sequence: the type of its elements, and how many there are.
    Array(Box<Ty>, Count),
    /// Arrays within one another: the type of the innermost elements, how many elements the outermost array has,
    /// and how many each one within it has, from the outside in. Their counts are a list, so that a walk over a
    /// type is not as deep as its arrays, and the arms of one declaration have one list. With none within the
    /// outermost it is as `Array`.
    Arrays(Box<Ty>, Count, Shared<Counts>),
    /// A struct: its fields, each with its name.
    Struct(Fields),
    /// A discriminated union: the type of its discriminant, the arms, each with the number that chooses it,
    /// and the default, which every other number chooses.
    Union(Box<Ty>, UnionArms, Option<Box<Ty>>),
    /// A value or none, as a pointer that may be null.
    Optional(Box<Ty>),
    /// A type of the unit by its number, counted from 0.
    Named(u32),
}

/// A field of a struct or of an exception, or a parameter.
#[cycle(ty)]
#[derive(Debug, Drop)]
pub struct Field {
    /// Its name.
    pub name: Name,
    /// Its type.
    pub ty: Ty,
}
