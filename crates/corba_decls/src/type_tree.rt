//! The syntax tree of a type.

ghost use Rattle.std.specs.Prelude.{◌≡◌, List, [], ◌∷◌, Option, IfOk};

use idl_exprs::{Expr, ScopedName};
use kit_base::NoMemory;
use std::alloc::Global;
use std::marker::Model;

/// The size of an integer type (`<signed_int>`).
#[derive(Clone, Copy, Debug, PartialEq, Eq, Drop)]
pub enum IntSize {
    /// `short`, of 16 bits.
    Short,
    /// `long`, of 32 bits.
    Long,
    /// `long long`, of 64 bits.
    LongLong,
}

/// An integer type (`<integer_type>`).
#[derive(Clone, Copy, Debug, PartialEq, Eq, Drop)]
pub struct Int {
    /// Whether it has no sign.
    pub unsigned: bool,
    /// Its size.
    pub size: IntSize,
}

/// A type of one word. The last six are read and stand for nothing here.
#[derive(Clone, Copy, Debug, PartialEq, Eq, Drop)]
pub enum Simple {
    /// `char`
    Char,
    /// `boolean`
    Boolean,
    /// `octet`
    Octet,
    /// `float`
    Float,
    /// `double`
    Double,
    /// `wchar`
    Wchar,
    /// `wstring`
    Wstring,
    /// `any`
    Any,
    /// `Object`
    Object,
}

/// A type that is not a sequence.
#[derive(Drop)]
pub enum Base {
    /// A type of one word.
    Simple(Simple),
    /// `long double`, which is read and stands for nothing here.
    LongDouble,
    /// An integer type.
    Int(Int),
    /// The name of a type.
    Name(ScopedName),
    /// A string (`<string_type>`), with its greatest length where it has one.
    Text(Option<Expr>),
}

/// A type (`<type_spec>` without the bodies of structs, unions and enums).
#[cycle(type_name)]
#[derive(Drop)]
pub struct TypeName {
    /// Its outermost part.
    pub node: TypeNode,
}

/// What a type is made of.
#[cycle(type_name)]
#[derive(Drop)]
pub enum TypeNode {
    /// No sequence.
    Base(Base),
    /// A sequence (`<sequence_type>`) of elements, with its greatest length where it has one.
    Sequence(Box<TypeName>, Option<Expr>),
}

impl Model for TypeName {
    ghost use Rattle.std.specs.Prelude.{List, Option, length};
    ghost use Rattle.idl_exprs.specs.Trees.{Tree};
    ghost use Rattle.corba_decls.specs.declared.type_tree.Base.{Base};

    ghost Value = { List (Option Tree) × Base };

    ghost use Rattle.std.specs.Coded.{codes};
    ghost use Rattle.idl_exprs.specs.Stored.{coded_tree};
    ghost use Rattle.corba_decls.specs.contracts.type_tree.Base as b;

    ghost coded = { Prim.hlevel (codes, coded_tree, b.the_row.coded) };

    ghost use Rattle.corba_decls.specs.Levels.{level};

    ghost view = { λ t. level t.node };

    ghost size = { λ t. length t.0 };

    ghost use Rattle.corba_decls.specs.TypesFall.{deep_le-length};

    ghost size_decreases = { λ t h. deep_le-length t.node };
}

impl TypeName {
    /// A type that is not a sequence.
    pub fn of_base(base: Base) -> TypeName
        ensures { result ≡ ([], base) }
    {
        TypeName {
            node: TypeNode::Base(base),
        }
    }

    /// A sequence of elements.
    pub fn of_elements(
        alloc: Global,
        element: TypeName,
        bound: Option<Expr>,
    ) -> Result<TypeName, NoMemory>
        ensures { IfOk result (λ t. t ≡ (bound ∷ element.0, element.1)) }
    {
        let element = Box::new(alloc, element)?;
        Ok(TypeName {
            node: TypeNode::Sequence(element, bound),
        })
    }
}
