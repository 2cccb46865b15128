//! The syntax tree of an ONC file: a type for each production of the grammar.

use kit_base::{Listed, Name};

/// A number or a name.
#[derive(Debug, Drop)]
pub enum Value {
    /// Whether a minus comes before it, and the number.
    Number(bool, i128),
    /// The name of a constant.
    Name(Name),
}

/// A word for a kind of number.
#[derive(Clone, Copy, Debug, PartialEq, Eq, Drop)]
pub enum IntWord {
    /// `int`: 32 bits.
    Int,
    /// `long`: 32 bits.
    Long,
    /// `short`: 16 bits.
    Short,
    /// `char`: 8 bits.
    Char,
    /// `hyper`: 64 bits.
    Hyper,
}

/// A word that may come before a type's name.
#[derive(Clone, Copy, Debug, PartialEq, Eq, Drop)]
pub enum Prefix {
    /// `struct`.
    Struct,
    /// `union`.
    Union,
    /// `enum`.
    Enum,
}

/// A type.
#[derive(Debug, Drop)]
pub enum TypeName {
    /// A word for a kind of number, and whether `unsigned` is before it.
    Int(bool, IntWord),
    /// `unsigned` alone: an `unsigned int`.
    Unsigned,
    /// `bool`.
    Bool,
    /// The name of a type, and the word before it, if there is one.
    Named(Option<Prefix>, Name),
}

/// A declaration of a name.
#[derive(Debug, Drop)]
pub enum Decl {
    /// A value of a type: `type name`.
    Plain(TypeName, Name),
    /// An array of fixed length: `type name[length]`.
    Array(TypeName, Name, Value),
    /// An array of variable length, with its bound, if it has one: `type name<bound>`.
    List(TypeName, Name, Option<Value>),
    /// An optional value: `type *name`.
    Pointer(TypeName, Name),
    /// Opaque data of fixed length: `opaque name[length]`.
    OpaqueArray(Name, Value),
    /// Opaque data of variable length, with its bound, if it has one: `opaque name<bound>`.
    OpaqueList(Name, Option<Value>),
    /// A string, with its bound, if it has one: `string name<bound>`.
    Text(Name, Option<Value>),
}

/// An item of an enum.
#[derive(Debug, Drop)]
pub struct Item {
    /// The name of the enumerator.
    pub name: Name,
    /// Its number, where one is given.
    pub value: Option<Value>,
}

/// The items of an enum.
pub type Items = Listed<Item>;

/// A declaration with its end.
#[derive(Debug, Drop)]
pub struct Member {
    /// The declaration.
    pub decl: Decl,
}

/// What is in a case.
#[derive(Debug, Drop)]
pub enum Arm {
    /// No data: `void`.
    Void,
    /// One declaration.
    Decl(Decl),
}

/// A label of a case.
#[derive(Debug, Drop)]
pub struct Label {
    /// The number that chooses the arm.
    pub value: Value,
}

/// A case of a union.
#[derive(Debug, Drop)]
pub struct Case {
    /// The labels of the arm, at least one.
    pub labels: Listed<Label>,
    /// What a union with one of these labels contains.
    pub arm: Arm,
}

/// The type of a parameter or a result.
#[derive(Debug, Drop)]
pub enum ProcType {
    /// No data: `void`.
    Void,
    /// A string without a bound: `string`.
    Text,
    /// A type by its name.
    Plain(TypeName),
}

/// A procedure.
#[derive(Debug, Drop)]
pub struct Procedure {
    /// The type of the result.
    pub result: ProcType,
    /// The name of the procedure.
    pub name: Name,
    /// The types of the parameters, in order.
    pub parameters: Listed<ProcType>,
    /// The number of the procedure.
    pub number: Value,
}

/// A version of a program.
#[derive(Debug, Drop)]
pub struct Version {
    /// The name of the version.
    pub name: Name,
    /// Its procedures, at least one.
    pub procedures: Listed<Procedure>,
    /// The number of the version.
    pub number: Value,
}

/// A union.
#[derive(Debug, Drop)]
pub struct Union {
    /// The name of the union.
    pub name: Name,
    /// The type of the discriminant.
    pub tag: TypeName,
    /// The name of the discriminant.
    pub tag_name: Name,
    /// Its cases, at least one.
    pub cases: Listed<Case>,
    /// The default arm, if there is one.
    pub default: Option<Arm>,
}

/// A definition.
#[derive(Debug, Drop)]
pub enum Def {
    /// Another name for a type: `typedef` (RFC 4506 section 4.18).
    Typedef(Decl),
    /// A constant: `const` (RFC 4506 section 4.17).
    Const(Name, Value),
    /// A program, its versions and its number (RFC 5531 section 12).
    Program(Name, Listed<Version>, Value),
    /// An enumeration (RFC 4506 section 4.3).
    Enum(Name, Items),
    /// A struct (RFC 4506 section 4.14).
    Struct(Name, Listed<Member>),
    /// A discriminated union (RFC 4506 section 4.15).
    Union(Union),
}

/// The definitions of a file.
pub type Tree = Listed<Def>;
