//! The unit of a file.

ghost use Rattle.std.specs.Prelude.{◌≡◌, ◌<◌, ◌≤◌, ◌⊎◌, ◌++◌, ◌∷◌, [], map, length, false, IsTrue, IfOk, IfErr, OnOk, List, Ok, Err};
ghost use Rattle.idl_lex.specs.declared.kinds.Token.{Token};
ghost use Rattle.corba_syntax.specs.Derivation.{Derives};
ghost use Rattle.corba_syntax.specs.declared.definition_tree.Definition.{Definition as DefinitionTree};
ghost use Rattle.aoi.specs.Plain.{plain, plain_operation, plain_interface};
ghost use Rattle.aoi.specs.Sound.{IsSound};
ghost use Rattle.aoi.specs.declared.faults.NameFault.TheVariants.{NoMemory as OutOfMemory};
ghost use Rattle.idl_names.specs.Answers.{Gives};
ghost use Rattle.kit_base.specs.Limits.{most_interfaces, most_operations};
ghost use Rattle.aoi.specs.Units.{is_twice};
ghost use Rattle.front_corba.specs.Held.{plain_offer, plain_offering, held};
ghost use Rattle.front_corba.specs.Resolved.{begun_on, is_module, walk, module_walk, definitions_on, operations_of, interface, interfaces, are_fit, unit_of, resolved, IsWhole};

use crate::NameErr;
use crate::copies::share_operation;
use crate::interfaces::interface;
use crate::state::{Offer, Offering, Resolver};
use aoi::{Interface, Operations, Unit, UnitErr};
use corba_scopes::{Meaning, Scopes};
use corba_shapes::declare;
use corba_syntax::{Definition, Module, Tree};
use kit_base::NoMemory;
use std::alloc::Global;

/// Whether a name is that of a module.
fn is_module(given: Option<Meaning>) -> bool
    ensures { result ≡ is_module given }
{
    matches!(given, Some(Meaning::Module))
}

/// Begins a module, or goes on with it.
fn begin(alloc: Global, scopes: &mut Scopes, d: u32, name: &[u8]) -> Result<(), NameErr>
    ensures { Gives (λ _. scopes.new) result (begun_on d scopes.old name.now) }
{
    if is_module(scopes.found_here(name)) {
        return Ok(());
    }
    scopes.declare_new(alloc, d, name, Meaning::Module)
}

/// Declares a module, and what is defined in it.
#[cycle(definitions)]
fn module(alloc: Global, r: &mut Resolver, m: &Module) -> Result<(), NameErr>
    ensures { Gives (λ _. held r.new) result (module_walk m.now (held r.old)) }
{
    let d = r.shapes.count;
    let name = m.name.name.as_slice();
    begin(alloc, &mut r.shapes.scopes, d, name)?;
    r.shapes.scopes.enter(alloc, name)?;
    define_all(alloc, r, m.definitions.as_slice())?;
    r.shapes.scopes.leave();
    Ok(())
}

/// Declares what a definition declares.
#[cycle(definitions)]
fn define(alloc: Global, r: &mut Resolver, def: &Definition) -> Result<(), NameErr>
    ensures { Gives (λ _. held r.new) result (walk def.now (held r.old)) }
{
    let d = r.shapes.count;
    match def {
        Definition::Module(m) => module(alloc, r, m),
        Definition::Interface(i) => interface(alloc, r, d, i),
        Definition::Declaration(x) => declare(alloc, &mut r.shapes, d, x),
    }
}

/// Declares what definitions declare, in order; each is one more declaration.
#[cycle(definitions)]
fn define_all(alloc: Global, r: &mut Resolver, list: &[Definition]) -> Result<(), NameErr>
    ensures { Gives (λ _. held r.new) result (definitions_on list.now (held r.old)) }
{
    for def in list {
        let _ = r.shapes.next()?;
        define(alloc, r, def)?;
    }
    Ok(())
}

/// The operations, without the interfaces in which they are declared.
fn operations(alloc: Global, ops: &[Offer]) -> Result<Operations, NoMemory>
    ensures { IfOk result (λ out. map plain_operation out ≡ operations_of (map plain_offer ops.now)) }
{
    let mut out = Operations::new(alloc);
    for offer in ops {
        out.push(share_operation(&offer.operation)?)?;
    }
    Ok(out)
}

/// An interface by its place.
fn interface_of(alloc: Global, place: usize, i: &Offering) -> Result<Interface, NoMemory>
    requires place { place < most_interfaces }
    requires few { length i.now.ops ≤ most_operations }
    ensures { IfOk result (λ x. plain_interface x ≡ interface place (plain_offering i.now)) }
{
    let place = place as u32;
    let ops = operations(alloc, i.ops.as_slice())?;
    Ok(Interface {
        name: i.name.share()?,
        program: 0x2000_0000 + place,
        version: 1,
        base: 1000 * (place + 1),
        slots: ops.len() as u32,
        ops,
    })
}

/// Puts an interface of another name, program and version than the others into the unit.
fn add_interface(unit: &mut Unit, i: Interface) -> Result<(), NoMemory>
    requires room { length unit.old.interfaces < most_interfaces }
    requires few { length i.ops ≤ most_operations }
    requires other { is_twice i unit.old.interfaces ≡ false }
    ensures ok { OnOk result (unit.new ≡ record unit.old { interfaces = unit.old.interfaces ++ i ∷ [] }) }
{
    match unit.add_interface(i) {
        Ok(()) => Ok(()),
        Err(UnitErr::Twice) => unreachable!(),
        Err(UnitErr::Many) => unreachable!(),
        Err(UnitErr::NoMemory) => Err(NoMemory),
    }
}

/// Puts interfaces into a unit that has none.
fn add_interfaces(alloc: Global, unit: &mut Unit, list: &[Offering]) -> Result<(), NoMemory>
    requires none { unit.old.interfaces ≡ [] }
    requires fit { IsTrue (are_fit (map plain_offering list.now)) }
    ensures ok { OnOk result (plain unit.new
        ≡ record (plain unit.old) { interfaces = interfaces 0 (map plain_offering list.now) }) }
{
    for (place, i) in list.iter().enumerate() {
        add_interface(unit, interface_of(alloc, place, i)?)?;
    }
    Ok(())
}

/// The unit of what is declared.
fn unit_of(alloc: Global, r: Resolver) -> Result<Unit, NameErr>
    requires { IsTrue (are_fit (map plain_offering r.interfaces)) }
    ensures ok { IfOk result (λ unit. plain unit ≡ unit_of (held r)) }
    ensures err { IfErr result (λ e. e.fault ≡ OutOfMemory) }
{
    let Resolver { shapes, interfaces } = r;
    let mut unit = shapes.types.into_unit();
    add_interfaces(alloc, &mut unit, interfaces.as_slice())?;
    Ok(unit)
}

/// The unit of a file, or the first fault of its text.
///
/// No struct and no enum of the tree is empty, and each definition is in at most 31 modules: the trees that
/// `parse` gives are so, by the contract of [`files_are_whole`].
#[tactic(auto, using(crate::proofs::Whole::unit_sound))]
pub fn resolve(alloc: Global, tree: &Tree) -> Result<Unit, NameErr>
    requires { IsWhole tree.now }
    ensures value { IfOk result (λ unit. resolved tree.now ≡ Ok (plain unit)) }
    ensures sound { IfOk result (λ unit. IsSound unit) }
    ensures stop { IfErr result (λ e. (e.fault ≡ OutOfMemory) ⊎ (resolved tree.now ≡ Err e)) }
{
    let mut r = Resolver::new(alloc);
    define_all(alloc, &mut r, tree.as_slice())?;
    unit_of(alloc, r)
}

/// The trees that the grammar gives meet the condition of [`resolve`]. The function does nothing; its
/// contract is the law.
pub fn files_are_whole()
    ensures { (tree : List DefinitionTree) (tokens : List Token) → Derives tree tokens → IsWhole tree }
{}
