//! Types by their names, and what `type` statements make.

ghost use Rattle.std.specs.Prelude.{◌≡◌, ◌++◌};
ghost use Rattle.idl_names.specs.Answers.{Gives};
ghost use Rattle.idl_names.specs.Names.{meaning_of};
ghost use Rattle.front_mig.specs.Types.{known, found, type_of, size_of, kind_in, size_in, data_in, numbers_in, sized, plainly, row, form};

use crate::known::known;
use crate::meaning::Scope;
use crate::numbers::{length_of, value};
use crate::{Form, Meaning, NameErr, NameFault};
use idl_exprs::Expr;
use idl_names::{Tag, Use, fault, refuse, tag_of_use};
use mig_syntax::TypeForm;
use mint::kind::{Count, Kind};

/// What is found, or Unknown.
fn found(decl: u32, meaning: Option<Meaning>) -> Result<Meaning, NameErr>
    ensures { result ≡ found decl meaning }
{
    match meaning {
        Some(meaning) => Ok(meaning),
        None => Err(fault(NameFault::Unknown, decl)),
    }
}

/// What a name stands for, if it is declared or known.
fn meaning(scope: &Scope, name: &[u8]) -> Option<Meaning>
    ensures { result ≡ meaning_of name.now (scope.now ++ known) }
{
    match scope.meaning(name) {
        Some(meaning) => Some(meaning),
        None => known(name),
    }
}

/// The type of a name.
pub(crate) fn type_of(scope: &Scope, decl: u32, name: &[u8]) -> Result<Meaning, NameErr>
    ensures value { Gives (λ x. x) result (type_of scope.now decl name.now) }
    ensures exact { result ≡ type_of scope.now decl name.now }
{
    found(decl, meaning(scope, name))
}

/// The size of a number in bits.
fn size_of(kind: Kind) -> u32
    ensures { result ≡ size_of kind }
{
    match kind {
        Kind::Octet | Kind::I8 | Kind::U8 | Kind::Char => 8,
        Kind::I16 | Kind::U16 => 16,
        Kind::I32 | Kind::U32 | Kind::I64 | Kind::U64 | Kind::Bool => 32,
    }
}

/// The kind of a number, which a row is not.
fn kind_in(decl: u32, tag: Tag) -> Result<Kind, NameErr>
    ensures { result ≡ kind_in decl tag }
{
    match tag {
        Tag::Number(kind) => Ok(kind),
        Tag::Enum(_) | Tag::Other => Err(fault(NameFault::OutOfScope, decl)),
    }
}

/// The size in bits of a port or a number.
fn size_in(decl: u32, meaning: Meaning) -> Result<u32, NameErr>
    ensures { result ≡ size_in decl meaning }
{
    match meaning {
        Meaning::Port => Ok(32),
        Meaning::Data(used) => Ok(size_of(kind_in(decl, tag_of_use(used))?)),
    }
}

/// What is in message bodies, as ports are not.
pub(crate) fn data_in(decl: u32, meaning: Meaning) -> Result<Use, NameErr>
    ensures value { Gives (λ x. x) result (data_in decl meaning) }
    ensures exact { result ≡ data_in decl meaning }
{
    match meaning {
        Meaning::Port => Err(fault(NameFault::OutOfScope, decl)),
        Meaning::Data(used) => Ok(used),
    }
}

/// Numbers, as an array's elements are.
fn numbers_in(decl: u32, meaning: Meaning) -> Result<Use, NameErr>
    ensures { result ≡ numbers_in decl meaning }
{
    let used = data_in(decl, meaning)?;
    kind_in(decl, tag_of_use(used))?;
    Ok(used)
}

/// A type with its own size.
fn sized(scope: &Scope, decl: u32, name: &[u8], size: &Expr) -> Result<Meaning, NameErr>
    ensures { result ≡ sized scope.now decl name.now size.now }
{
    let meaning = type_of(scope, decl, name)?;
    let bits = size_in(decl, meaning)?;
    let n = value(decl, size)?;
    refuse(NameFault::Range, decl, n != i128::from(bits))?;
    Ok(meaning)
}

/// What is made of a type without a row.
fn plainly(meaning: Meaning) -> Form
    ensures { result ≡ plainly meaning }
{
    match meaning {
        Meaning::Port => Form::Port,
        Meaning::Data(used) => Form::Data(used),
    }
}

/// How many elements of which type.
fn row(scope: &Scope, decl: u32, length: &Expr, name: &[u8]) -> Result<(u32, Use), NameErr>
    ensures { result ≡ row scope.now decl length.now name.now }
{
    let n = length_of(decl, length)?;
    let meaning = type_of(scope, decl, name)?;
    let used = numbers_in(decl, meaning)?;
    Ok((n, used))
}

/// What a `type` statement makes.
pub(crate) fn form(scope: &Scope, decl: u32, t: &TypeForm) -> Result<Form, NameErr>
    ensures value { Gives (λ x. x) result (form scope.now decl t.now) }
    ensures exact { result ≡ form scope.now decl t.now }
{
    match t {
        TypeForm::Named(name) => Ok(plainly(type_of(scope, decl, name.as_slice())?)),
        TypeForm::Sized(name, size) => Ok(plainly(sized(scope, decl, name.as_slice(), size)?)),
        TypeForm::Array(length, name) | TypeForm::Struct(length, name) => {
            let (n, used) = row(scope, decl, length, name.as_slice())?;
            Ok(Form::Row(used, Count::Exactly(n)))
        }
        TypeForm::VariableArray(length, name) => {
            let (n, used) = row(scope, decl, length, name.as_slice())?;
            Ok(Form::Row(used, Count::AtMost(n)))
        }
    }
}
