//! What declarations make of their types.

ghost use Rattle.std.specs.Prelude.{◌≡◌, false, IfOk, OnOk};
ghost use Rattle.aoi.specs.Shapes.{seen};
ghost use Rattle.idl_names.specs.Answers.{Gives};
ghost use Rattle.front_onc.specs.Declarations.{form, name_of, shape, tag_of};

use crate::meaning::Scope;
use crate::values::{at_most, exactly, type_use};
use crate::{Form, NameErr, NameFault, Tag};
use aoi::Ty;
use idl_names::{array_of, optional_of, refuse, tag_of_use, ty_of_use};
use kit_base::{Name, NoMemory};
use mint::kind::{Count, Kind};
use onc_syntax::Decl;
use std::alloc::Global;

/// The name that a declaration declares.
pub(crate) fn name_of(decl: &Decl) -> &Name
    ensures { result.now ≡ name_of decl.now }
{
    match decl {
        Decl::Plain(_, name)
        | Decl::Array(_, name, _)
        | Decl::List(_, name, _)
        | Decl::Pointer(_, name)
        | Decl::OpaqueArray(name, _)
        | Decl::OpaqueList(name, _)
        | Decl::Text(name, _) => name,
    }
}

/// What a declaration makes of its type, where its name may be taken.
pub(crate) fn form(scope: &Scope, number: u32, taken: bool, decl: &Decl) -> Result<Form, NameErr>
    ensures value { Gives (λ x. x) result (form scope.now number taken decl.now) }
    ensures exact { result ≡ form scope.now number taken decl.now }
    ensures free { OnOk result (taken ≡ false) }
{
    match decl {
        Decl::Plain(t, _) => {
            let used = type_use(scope, number, t)?;
            refuse(NameFault::Twice, number, taken)?;
            Ok(Form::Plain(used))
        }
        Decl::Array(t, _, n) => {
            let used = type_use(scope, number, t)?;
            refuse(NameFault::Twice, number, taken)?;
            Ok(Form::Array(used, exactly(scope, number, n)?))
        }
        Decl::List(t, _, n) => {
            let used = type_use(scope, number, t)?;
            refuse(NameFault::Twice, number, taken)?;
            Ok(Form::Array(used, at_most(scope, number, n)?))
        }
        Decl::Pointer(t, _) => {
            let used = type_use(scope, number, t)?;
            refuse(NameFault::Twice, number, taken)?;
            Ok(Form::Optional(used))
        }
        Decl::OpaqueArray(_, n) => {
            refuse(NameFault::Twice, number, taken)?;
            Ok(Form::Opaque(exactly(scope, number, n)?))
        }
        Decl::OpaqueList(_, n) => {
            refuse(NameFault::Twice, number, taken)?;
            Ok(Form::Opaque(at_most(scope, number, n)?))
        }
        Decl::Text(_, n) => {
            refuse(NameFault::Twice, number, taken)?;
            Ok(Form::Text(at_most(scope, number, n)?))
        }
    }
}

/// The type of a declaration.
pub(crate) fn ty(alloc: Global, form: Form) -> Result<Ty, NoMemory>
    ensures { IfOk result (λ t. seen t ≡ shape form) }
{
    match form {
        Form::Plain(used) => Ok(ty_of_use(used)),
        Form::Array(used, count) => array_of(alloc, ty_of_use(used), count),
        Form::Optional(used) => optional_of(alloc, ty_of_use(used)),
        Form::Opaque(count) => array_of(alloc, Ty::Num(Kind::Octet), count),
        Form::Text(count) => Ok(Ty::Text(count)),
    }
}

/// What the type of a declaration is as the tag of a union.
pub(crate) fn tag_of(form: Form) -> Tag
    ensures { result ≡ tag_of form }
{
    match form {
        Form::Plain(used) => tag_of_use(used),
        _ => Tag::Other,
    }
}
