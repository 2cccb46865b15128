//! Types that names stand for.

ghost use Rattle.std.specs.Prelude.{◌≡◌};
ghost use Rattle.aoi.specs.Shapes.{seen};
ghost use Rattle.idl_names.specs.Uses.{shape_of_use, tag_of_use};

use aoi::Ty;
use mint::kind::Kind;

/// What a type is as the tag of a union (its discriminant).
#[derive(Clone, Copy, Debug, PartialEq, Eq)]
pub enum Tag {
    /// A number of this kind.
    Number(Kind),
    /// A number of the enum that is this type of the unit.
    Enum(u32),
    /// None: no such type is a tag.
    Other,
}

/// A type that a name stands for.
#[derive(Clone, Copy, Debug, PartialEq, Eq)]
pub enum Use {
    /// A number of this kind.
    Number(Kind),
    /// A type of the unit by its number, and what it is as a tag.
    Declared(u32, Tag),
}

/// The type that a name stands for.
pub fn ty_of_use(used: Use) -> Ty
    ensures { seen result ≡ shape_of_use used }
{
    match used {
        Use::Number(kind) => Ty::Num(kind),
        Use::Declared(k, _) => Ty::Named(k),
    }
}

/// What a type is as the tag of a union.
pub fn tag_of_use(used: Use) -> Tag
    ensures { result ≡ tag_of_use used }
{
    match used {
        Use::Number(kind) => Tag::Number(kind),
        Use::Declared(_, tag) => tag,
    }
}
