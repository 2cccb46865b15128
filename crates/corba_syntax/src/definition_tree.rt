//! The syntax tree of a file.

use crate::Interface;
use corba_decls::Declaration;
use idl_exprs::Identifier;
use kit_base::Listed;

/// A definition (`<definition>`).
#[cycle(definition)]
#[derive(Drop)]
pub enum Definition {
    /// A module.
    Module(Module),
    /// An interface.
    Interface(Interface),
    /// A type, a constant or an exception.
    Declaration(Declaration),
}

/// A module (`<module>`).
#[cycle(definition)]
#[derive(Drop)]
pub struct Module {
    /// Its name.
    pub name: Identifier,
    /// What is defined in it, in order.
    pub definitions: Listed<Definition>,
}

/// The definitions of a file (`<specification>`), in order.
pub type Tree = Listed<Definition>;
