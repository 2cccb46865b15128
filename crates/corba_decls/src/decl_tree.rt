//! The syntax trees of declarations.

use crate::{Declarator, Enum, Exception, Int, Struct, TypeName};
use idl_exprs::{Expr, Identifier, ScopedName};
use kit_base::Listed;

/// The type of a union's discriminator (`<switch_type_spec>`).
#[derive(Debug, Drop)]
pub enum Tag {
    /// An integer type.
    Int(Int),
    /// `char`
    Char,
    /// `boolean`
    Boolean,
    /// The name of such a type, or of an enumeration.
    Named(ScopedName),
}

/// A label of a case (`<case_label>`).
#[derive(Drop)]
pub enum Label {
    /// `case`, with the value of the discriminator.
    Case(Expr),
    /// `default`: all values that no label has.
    Default,
}

/// A case of a union (`<case>`).
#[derive(Drop)]
pub struct Case {
    /// Its labels, one at least.
    pub labels: Listed<Label>,
    /// The type of its element, or that of the elements of an array.
    pub of: TypeName,
    /// The declarator of its element.
    pub declarator: Declarator,
}

/// A discriminated union (`<union_type>`).
#[derive(Drop)]
pub struct Union {
    /// Its name.
    pub name: Identifier,
    /// The type of its discriminator.
    pub tag: Tag,
    /// Its cases, one at least.
    pub cases: Listed<Case>,
}

/// What a typedef gives names to (the `<type_spec>` of a `<type_declarator>`).
#[derive(Drop)]
pub enum Aliased {
    /// A type that is not declared here.
    Type(TypeName),
    /// A struct, which is declared here.
    Struct(Struct),
    /// A union, which is declared here.
    Union(Union),
    /// An enumeration, which is declared here.
    Enum(Enum),
}

/// A typedef (`<type_declarator>`).
#[derive(Drop)]
pub struct Typedef {
    /// The type, or that of the elements of those that are arrays.
    pub of: Aliased,
    /// The declarators, one at least.
    pub declarators: Listed<Declarator>,
}

/// The type of a constant (`<const_type>`).
#[derive(Debug, Drop)]
pub enum ConstantType {
    /// An integer type.
    Int(Int),
    /// `char`
    Char,
    /// `boolean`
    Boolean,
    /// `octet`
    Octet,
    /// `string`, without a bound.
    Text,
    /// The name of such a type, or of an enumeration.
    Named(ScopedName),
}

/// A constant (`<const_dcl>`).
#[derive(Drop)]
pub struct Constant {
    /// Its type.
    pub of: ConstantType,
    /// Its name.
    pub name: Identifier,
    /// Its value.
    pub value: Expr,
}

/// A declaration of a type, a constant or an exception (`<type_dcl>`, `<const_dcl>`, `<except_dcl>`),
/// without the `;` that ends it.
#[derive(Drop)]
pub enum Declaration {
    /// A typedef.
    Typedef(Typedef),
    /// A struct.
    Struct(Struct),
    /// A union.
    Union(Union),
    /// An enumeration.
    Enum(Enum),
    /// A constant.
    Constant(Constant),
    /// An exception.
    Exception(Exception),
}
