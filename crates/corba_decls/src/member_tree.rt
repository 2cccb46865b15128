//! The syntax trees of declarators, and of what is made of members.

use crate::TypeName;
use idl_exprs::{Expr, Identifier};
use kit_base::Listed;

/// A dimension of an array (`<fixed_array_size>`).
#[derive(Drop)]
pub struct Dimension {
    /// How many elements there are.
    pub length: Expr,
}

/// A declarator (`<declarator>`).
#[derive(Drop)]
pub struct Declarator {
    /// The name that is declared.
    pub name: Identifier,
    /// The dimensions of an array, the outermost first; none where it is not an array.
    pub dimensions: Listed<Dimension>,
}

/// Members of one type (`<member>`).
#[derive(Drop)]
pub struct Member {
    /// Their type, or that of the elements of those that are arrays.
    pub of: TypeName,
    /// Their declarators, one at least.
    pub declarators: Listed<Declarator>,
}

/// A struct (`<struct_type>`).
#[derive(Drop)]
pub struct Struct {
    /// Its name.
    pub name: Identifier,
    /// Its members, one at least.
    pub members: Listed<Member>,
}

/// An exception (`<except_dcl>`).
#[derive(Drop)]
pub struct Exception {
    /// Its name.
    pub name: Identifier,
    /// Its members; there may be none.
    pub members: Listed<Member>,
}

/// An enumeration (`<enum_type>`).
#[derive(Drop)]
pub struct Enum {
    /// Its name.
    pub name: Identifier,
    /// Its enumerators, one at least.
    pub items: Listed<Identifier>,
}
