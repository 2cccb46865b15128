//! The syntax tree of a MIG definition file.

use idl_exprs::Expr;
use kit_base::{Listed, Name, Octets};

/// What a type is made of.
#[derive(Drop)]
pub enum TypeForm {
    /// `name`: the type of this name.
    Named(Name),
    /// `(name, size)`: the type of this name, with its size in bits.
    Sized(Name, Expr),
    /// `array[n] of name`: n elements.
    Array(Expr, Name),
    /// `array[*:n] of name`: as many elements as a message has, n at most.
    VariableArray(Expr, Name),
    /// `struct[n] of name`: n elements in a row, which C passes as a struct.
    Struct(Expr, Name),
}

/// Where a parameter goes.
#[derive(Clone, Copy, Debug, PartialEq, Eq, Drop)]
pub enum Direction {
    /// `requestport`: the port to which requests are sent.
    RequestPort,
    /// `in`: from the client to the server.
    In,
    /// `out`: from the server to the client.
    Out,
    /// `inout`: in both directions.
    InOut,
}

/// A parameter of a routine.
#[derive(Debug, Drop)]
pub struct Parameter {
    /// Where it goes; none where no word says it.
    pub direction: Option<Direction>,
    /// Its name.
    pub name: Name,
    /// The name of its type.
    pub of: Name,
}

/// A routine.
#[derive(Debug, Drop)]
pub struct Routine {
    /// Whether no reply is sent (`simpleroutine`).
    pub simple: bool,
    /// Its name.
    pub name: Name,
    /// Its parameters, one at least, in order.
    pub parameters: Listed<Parameter>,
}

/// The side whose functions a prefix is for.
#[derive(Clone, Copy, Debug, PartialEq, Eq, Drop)]
pub enum Side {
    /// `userprefix`: the client's functions.
    User,
    /// `serverprefix`: the server's functions.
    Server,
}

/// The side that includes an imported file.
#[derive(Clone, Copy, Debug, PartialEq, Eq, Drop)]
pub enum Importer {
    /// `import`: the client's and the server's.
    Both,
    /// `uimport`: the client's alone.
    User,
    /// `simport`: the server's alone.
    Server,
}

/// A statement.
#[derive(Drop)]
pub enum Statement {
    /// A type by its name (`type`).
    Type(Name, TypeForm),
    /// A routine (`routine`, `simpleroutine`).
    Routine(Routine),
    /// What comes before the names of generated functions (`userprefix`, `serverprefix`).
    Prefix(Side, Name),
    /// A file that the generated code includes (`import`, `uimport`, `simport`), by its name.
    Import(Importer, Octets),
    /// A message id that no routine takes (`skip`).
    Skip,
}

/// A file.
#[derive(Drop)]
pub struct Subsystem {
    /// The subsystem's name.
    pub name: Name,
    /// Its base: the message id of its first routine.
    pub base: Expr,
    /// Its statements, in order.
    pub statements: Listed<Statement>,
}

/// The tree of a file.
pub type Tree = Subsystem;
