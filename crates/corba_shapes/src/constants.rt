//! Constants.

ghost use Rattle.std.specs.Prelude.{◌≡◌};
ghost use Rattle.idl_names.specs.Answers.{Gives};
ghost use Rattle.corba_shapes.specs.Held.{state};
ghost use Rattle.corba_shapes.specs.Constants.{constant_core, is_no_constant, has_length, is_text};
ghost use Rattle.corba_shapes.specs.Constants.{fits, constant_on};

use crate::forms::{Core, core_tag, core_text, kind_of, named_core, number_core};
use crate::state::Shapes;
use aoi::{NameErr, NameFault};
use corba_decls::{Constant as Tree, ConstantType};
use corba_scopes::{Constant, Scopes};
use idl_names::{Tag, is_of, refuse};
use indexmap::IndexSet;
use mint::kind::{Count, Kind};
use std::alloc::Global;

/// The type of a constant.
fn constant_core(scopes: &Scopes, d: u32, of: &ConstantType) -> Result<Core, NameErr>
    ensures { Gives (λ x. x) result (constant_core scopes.now d of.now) }
{
    match of {
        ConstantType::Int(i) => Ok(number_core(kind_of(i))),
        ConstantType::Char => Ok(number_core(Kind::Char)),
        ConstantType::Boolean => Ok(number_core(Kind::Bool)),
        ConstantType::Octet => Ok(number_core(Kind::Octet)),
        ConstantType::Text => Ok(Core::Text(Count::Any)),
        ConstantType::Named(name) => named_core(scopes, d, name),
    }
}

/// Whether a type is not a number, an enum or a string.
fn is_no_constant(core: Core) -> bool
    ensures { result ≡ is_no_constant core }
{
    match (core_tag(core), core_text(core)) {
        (Tag::Other, None) => true,
        _ => false,
    }
}

/// Whether so many characters are a string of this length.
fn has_length(count: Count, n: usize) -> bool
    ensures { result ≡ has_length count n }
{
    match count {
        Count::Exactly(m) => n == m as usize,
        Count::AtMost(m) => n <= m as usize,
        Count::Any => true,
    }
}

/// Whether so many characters are a string of this length, if there is one.
fn is_text(count: Option<Count>, n: usize) -> bool
    ensures { result ≡ is_text count n }
{
    match count {
        None => false,
        Some(count) => has_length(count, n),
    }
}

/// Whether a value is one of a type.
fn fits(labels: &IndexSet<(u32, i128)>, core: Core, value: Constant) -> bool
    ensures { result ≡ fits labels.now.keys core value }
{
    match value {
        Constant::Number(n) => is_of(labels, core_tag(core), &n),
        Constant::Text(n) => is_text(core_text(core), n),
    }
}

/// Declares a constant, after its value is judged.
pub(crate) fn constant(alloc: Global, r: &mut Shapes, d: u32, c: &Tree) -> Result<(), NameErr>
    ensures { Gives (λ _. state r.new) result (constant_on d (state r.old) c.now) }
{
    let core = constant_core(&r.scopes, d, &c.of)?;
    refuse(NameFault::NotType, d, is_no_constant(core))?;
    let name = c.name.name.as_slice();
    r.scopes.refuse_clash(alloc, d, name)?;
    let value = r.scopes.constant(d, &c.value)?;
    refuse(NameFault::Range, d, !fits(&r.labels, core, value))?;
    r.scopes.declare_new(alloc, d, name, value.meaning())
}
