//! The syntax trees of attributes and operations.

use corba_decls::TypeName;
use idl_exprs::{Identifier, ScopedName};
use kit_base::Listed;

/// A name that refers to an interface or to an exception (`<scoped_name>`).
#[derive(Debug, Drop)]
pub struct Reference {
    /// The name.
    pub name: ScopedName,
}

/// Attributes of one type (`<attr_dcl>`).
#[derive(Drop)]
pub struct Attribute {
    /// Whether they can only be read (`readonly`).
    pub readonly: bool,
    /// Their type.
    pub of: TypeName,
    /// Their names, one at least.
    pub names: Listed<Identifier>,
}

/// Where the value of a parameter goes (`<param_attribute>`).
#[derive(Clone, Copy, Debug, PartialEq, Eq, Drop)]
pub enum Direction {
    /// `in`: from the client to the server.
    In,
    /// `out`: from the server to the client.
    Out,
    /// `inout`: in both directions.
    InOut,
}

/// A parameter of an operation (`<param_dcl>`).
#[derive(Drop)]
pub struct Parameter {
    /// Where its value goes.
    pub direction: Direction,
    /// Its type.
    pub of: TypeName,
    /// Its name.
    pub name: Identifier,
}

/// An operation (`<op_dcl>`).
#[derive(Drop)]
pub struct Operation {
    /// Whether no reply is sent (`oneway`).
    pub oneway: bool,
    /// The type of its result; none where it is `void`.
    pub result: Option<TypeName>,
    /// Its name.
    pub name: Identifier,
    /// Its parameters, in order.
    pub parameters: Listed<Parameter>,
    /// The exceptions that it raises; none where `raises` is missing.
    pub raises: Listed<Reference>,
}
