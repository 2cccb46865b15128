//! The syntax tree of an interface.

use crate::{Attribute, Operation, Reference};
use corba_decls::Declaration;
use idl_exprs::Identifier;
use kit_base::Listed;

/// What an interface declares (`<export>`).
#[derive(Drop)]
pub enum Export {
    /// A type, a constant or an exception.
    Declaration(Declaration),
    /// Attributes of one type.
    Attribute(Attribute),
    /// An operation.
    Operation(Operation),
}

/// An interface (`<interface_dcl>`).
#[derive(Drop)]
pub struct Interface {
    /// Its name.
    pub name: Identifier,
    /// The interfaces that it inherits from (`<inheritance_spec>`), in order.
    pub bases: Listed<Reference>,
    /// What it declares, in order.
    pub exports: Listed<Export>,
}
