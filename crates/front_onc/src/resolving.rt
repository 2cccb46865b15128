//! The unit of a file.

ghost use Rattle.std.specs.Prelude.{◌≡◌, ◌⊎◌, IfOk, IfErr, List, Ok, Err};
ghost use Rattle.idl_lex.specs.declared.kinds.Token.{Token};
ghost use Rattle.onc_syntax.specs.Derivation.{Derives};
ghost use Rattle.onc_syntax.specs.declared.tree.Def.{Def as DefTree};
ghost use Rattle.aoi.specs.Plain.{plain};
ghost use Rattle.aoi.specs.Sound.{IsSound};
ghost use Rattle.aoi.specs.declared.faults.NameFault.TheVariants.{NoMemory as OutOfMemory};
ghost use Rattle.idl_names.specs.Answers.{Gives};
ghost use Rattle.front_onc.specs.Held.{state};
ghost use Rattle.front_onc.specs.Names.{known};
ghost use Rattle.front_onc.specs.Resolved.{const_on, defined, defined_on, resolved, IsWhole};

use crate::enums::enum_;
use crate::meaning::Scope;
use crate::programs::program;
use crate::state::Resolver;
use crate::structs::{struct_, typedef};
use crate::unions::union_;
use crate::values::value;
use crate::{Meaning, NameErr, NameFault, Use};
use aoi::Unit;
use idl_names::fault;
use kit_base::NoMemory;
use mint::kind::Kind;
use onc_syntax::{Def, Tree, Value};
use std::alloc::Global;

/// The names that are known before any declaration.
fn known(alloc: Global) -> Result<Scope, NoMemory>
    ensures { IfOk result (λ s. s ≡ known) }
{
    let mut scope = Scope::new(alloc);
    scope.declare(alloc, b"TRUE", Meaning::Constant(1))?;
    scope.declare(alloc, b"FALSE", Meaning::Constant(0))?;
    scope.declare(alloc, b"u_char", Meaning::Type(Use::Number(Kind::U8)))?;
    scope.declare(alloc, b"u_short", Meaning::Type(Use::Number(Kind::U16)))?;
    scope.declare(alloc, b"u_int", Meaning::Type(Use::Number(Kind::U32)))?;
    scope.declare(alloc, b"u_long", Meaning::Type(Use::Number(Kind::U32)))?;
    scope.declare(alloc, b"float", Meaning::LeftOut)?;
    scope.declare(alloc, b"double", Meaning::LeftOut)?;
    scope.declare(alloc, b"quadruple", Meaning::LeftOut)?;
    Ok(scope)
}

/// A constant.
fn constant(alloc: Global, r: &mut Resolver, d: u32, name: &[u8], v: &Value) -> Result<(), NameErr>
    ensures { Gives (λ _. state r.new) result (const_on d (state r.old) name.now v.now) }
{
    if r.scope().has(name) {
        return Err(fault(NameFault::Twice, d));
    }
    let n = value(r.scope(), d, v)?;
    r.declare(alloc, name, Meaning::Constant(n))
}

/// A definition, by its number.
fn define(alloc: Global, r: &mut Resolver, d: u32, def: &Def) -> Result<(), NameErr>
    ensures { Gives (λ _. state r.new) result (defined d (state r.old) def.now) }
{
    match def {
        Def::Typedef(decl) => typedef(alloc, r, d, decl),
        Def::Const(name, v) => constant(alloc, r, d, name.as_slice(), v),
        Def::Program(name, versions, v) => {
            program(alloc, r, d, name.as_slice(), versions.as_slice(), v)
        }
        Def::Enum(name, items) => enum_(alloc, r, d, name.as_slice(), items.as_slice()),
        Def::Struct(name, members) => struct_(alloc, r, d, name.as_slice(), members.as_slice()),
        Def::Union(u) => union_(alloc, r, d, u),
    }
}

/// Declares what the definitions declare.
fn define_all(alloc: Global, r: &mut Resolver, list: &[Def]) -> Result<(), NameErr>
    ensures { Gives (λ _. state r.new) result (defined_on (state r.old) list.now) }
{
    for def in list {
        let d = r.next()?;
        define(alloc, r, d, def)?;
    }
    Ok(())
}

/// The unit of a file, or the first fault of its text. Enums, structs and unions are not empty.
#[tactic(auto, using(crate::proofs::Whole::unit_sound))]
pub fn resolve(alloc: Global, tree: &Tree) -> Result<Unit, NameErr>
    requires { IsWhole tree.now }
    ensures value { IfOk result (λ unit. resolved tree.now ≡ Ok (plain unit)) }
    ensures sound { IfOk result (λ unit. IsSound unit) }
    ensures stop { IfErr result (λ e. (e.fault ≡ OutOfMemory) ⊎ (resolved tree.now ≡ Err e)) }
{
    let mut r = Resolver::over(alloc, known(alloc)?);
    define_all(alloc, &mut r, tree.as_slice())?;
    Ok(r.into_unit())
}

/// The trees that the grammar gives are whole.
pub fn files_are_whole()
    ensures { (tree : List DefTree) (tokens : List Token) → Derives tree tokens → IsWhole tree }
{}
