//! Values, and types by their names.

ghost use Rattle.std.specs.Prelude.{◌≡◌};
ghost use Rattle.idl_names.specs.Answers.{Gives};
ghost use Rattle.front_onc.specs.Names.{value, signed, constant, kind_of, use_of, type_use};
ghost use Rattle.front_onc.specs.Declarations.{exactly, at_most};
ghost use Rattle.front_onc.specs.Programs.{number_of};

use crate::meaning::Scope;
use crate::{Meaning, NameErr, NameFault, Use};
use idl_names::{fault, natural};
use mint::kind::{Count, Kind};
use onc_syntax::{IntWord, TypeName, Value};

/// The number of a value.
pub(crate) fn value(scope: &Scope, decl: u32, v: &Value) -> Result<i128, NameErr>
    ensures value { Gives (λ x. x) result (value scope.now decl v.now) }
    ensures exact { result ≡ value scope.now decl v.now }
{
    match v {
        Value::Number(minus, n) => signed(decl, *minus, *n),
        Value::Name(name) => constant(decl, scope.meaning(name.as_slice())),
    }
}

/// A number after its minus, if it has one.
fn signed(decl: u32, minus: bool, n: i128) -> Result<i128, NameErr>
    ensures value { Gives (λ x. x) result (signed decl minus n) }
    ensures exact { result ≡ signed decl minus n }
{
    if !minus {
        return Ok(n);
    }
    match n.checked_neg() {
        Some(m) => Ok(m),
        None => Err(fault(NameFault::Range, decl)),
    }
}

/// The number that a name stands for.
fn constant(decl: u32, meaning: Option<Meaning>) -> Result<i128, NameErr>
    ensures value { Gives (λ x. x) result (constant decl meaning) }
    ensures exact { result ≡ constant decl meaning }
{
    let fault = match meaning {
        Some(Meaning::Constant(n)) => return Ok(n),
        Some(_) => NameFault::NotConst,
        None => NameFault::Unknown,
    };
    Err(NameErr { fault, decl })
}

/// The number of a program, a version or a procedure.
pub(crate) fn number_of(scope: &Scope, decl: u32, v: &Value) -> Result<u32, NameErr>
    ensures value { Gives (λ x. x) result (number_of scope.now decl v.now) }
    ensures exact { result ≡ number_of scope.now decl v.now }
{
    let n = value(scope, decl, v)?;
    natural(0, decl, n)
}

/// A length, from 1.
pub(crate) fn exactly(scope: &Scope, decl: u32, v: &Value) -> Result<Count, NameErr>
    ensures value { Gives (λ x. x) result (exactly scope.now decl v.now) }
    ensures exact { result ≡ exactly scope.now decl v.now }
{
    let n = value(scope, decl, v)?;
    Ok(Count::Exactly(natural(1, decl, n)?))
}

/// A bound, from 0, or none.
pub(crate) fn at_most(scope: &Scope, decl: u32, v: &Option<Value>) -> Result<Count, NameErr>
    ensures value { Gives (λ x. x) result (at_most scope.now decl v.now) }
    ensures exact { result ≡ at_most scope.now decl v.now }
{
    let Some(v) = v else {
        return Ok(Count::Any);
    };
    let n = value(scope, decl, v)?;
    Ok(Count::AtMost(natural(0, decl, n)?))
}

/// The kind that a word names.
fn kind_of(unsigned: bool, word: IntWord) -> Kind
    ensures { result ≡ kind_of unsigned word }
{
    match (unsigned, word) {
        (true, IntWord::Int | IntWord::Long) => Kind::U32,
        (true, IntWord::Short) => Kind::U16,
        (true, IntWord::Char) => Kind::U8,
        (true, IntWord::Hyper) => Kind::U64,
        (false, IntWord::Int | IntWord::Long) => Kind::I32,
        (false, IntWord::Short) => Kind::I16,
        (false, IntWord::Char) => Kind::I8,
        (false, IntWord::Hyper) => Kind::I64,
    }
}

/// The type that a name stands for.
fn use_of(decl: u32, meaning: Option<Meaning>) -> Result<Use, NameErr>
    ensures value { Gives (λ x. x) result (use_of decl meaning) }
    ensures exact { result ≡ use_of decl meaning }
{
    let fault = match meaning {
        Some(Meaning::Type(u)) => return Ok(u),
        Some(Meaning::LeftOut) => NameFault::OutOfScope,
        Some(Meaning::Constant(_) | Meaning::Program) => NameFault::NotType,
        None => NameFault::Unknown,
    };
    Err(NameErr { fault, decl })
}

/// A type by its words or its name.
pub(crate) fn type_use(scope: &Scope, decl: u32, t: &TypeName) -> Result<Use, NameErr>
    ensures value { Gives (λ x. x) result (type_use scope.now decl t.now) }
    ensures exact { result ≡ type_use scope.now decl t.now }
{
    match t {
        TypeName::Int(unsigned, word) => Ok(Use::Number(kind_of(*unsigned, *word))),
        TypeName::Unsigned => Ok(Use::Number(Kind::U32)),
        TypeName::Bool => Ok(Use::Number(Kind::Bool)),
        TypeName::Named(_, name) => use_of(decl, scope.meaning(name.as_slice())),
    }
}
