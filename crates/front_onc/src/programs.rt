//! Versions and programs.

ghost use Rattle.std.specs.Prelude.{◌≡◌, ◌<◌, ◌≤◌, ◌+◌, ◌++◌, [], map, length, false, codes, IfOk, OnOk};
ghost use Rattle.kit_base.specs.Limits.{most_interfaces, most_operations};
ghost use Rattle.aoi.specs.Plain.{plain_interface, plain_operation};
ghost use Rattle.idl_names.specs.Answers.{Gives, given};
ghost use Rattle.idl_names.specs.Names.{has};
ghost use Rattle.front_onc.specs.Held.{state};
ghost use Rattle.front_onc.specs.Programs.{interface, number_of, version_offered, version_on, versions_on, program_on};

use crate::procedures::operations;
use crate::state::Resolver;
use crate::values::number_of;
use crate::{Meaning, NameErr, NameFault};
use aoi::{Interface, Operations};
use idl_names::{Names, fault, refuse, want};
use kit_base::limits::MOST_INTERFACES;
use kit_base::{Name, NoMemory};
use kit_shared::Shared;
use onc_syntax::{Value, Version};
use std::alloc::Global;

/// A program's name, a dot, and a version's name.
fn interface_name(alloc: Global, program: &[u8], version: &[u8]) -> Result<Name, NoMemory>
    ensures { IfOk result (λ name. name ≡ program.now ++ codes "." ++ version.now) }
{
    let mut name = Name::from_slice(alloc, program)?;
    name.append(b".")?;
    name.append(version)?;
    Ok(name)
}

/// The interface of a version.
fn interface(
    alloc: Global,
    place: usize,
    program: &[u8],
    number: u32,
    name: &[u8],
    version: u32,
    ops: Operations,
) -> Result<Interface, NoMemory>
    requires place { place < most_interfaces }
    requires few { length ops ≤ most_operations }
    ensures value { IfOk result (λ i. plain_interface i
        ≡ interface place program.now number name.now version (map plain_operation ops)) }
    ensures ops { IfOk result (λ i. i.ops ≡ ops) }
{
    Ok(Interface {
        name: Shared::new(alloc, interface_name(alloc, program, name)?)?,
        program: number,
        version,
        base: 1000 * (place as u32 + 1),
        slots: ops.len() as u32,
        ops,
    })
}

/// Offers the interface of a version, unless the program's number is wrong.
fn offer(
    alloc: Global,
    r: &mut Resolver,
    d: u32,
    program: &[u8],
    number: Option<u32>,
    name: &[u8],
    version: u32,
    ops: Operations,
) -> Result<(), NameErr>
    requires place { r.old.versions < most_interfaces }
    requires few { length ops ≤ most_operations }
    ensures value { Gives (λ _. state r.new) result
        (version_offered d program.now number name.now version (map plain_operation ops) (state r.old)) }
    ensures scope { r.new.scope ≡ r.old.scope }
{
    let Some(number) = number else {
        r.pass_version();
        return Ok(());
    };
    let i = interface(alloc, r.versions(), program, number, name, version, ops)?;
    r.offer(d, i)
}

/// A version of a program.
fn version(
    alloc: Global,
    r: &mut Resolver,
    d: u32,
    program: &[u8],
    number: Option<u32>,
    names: &Names,
    v: &Version,
) -> Result<(), NameErr>
    ensures value { Gives (λ _. state r.new) result
        (version_on d program.now number names.now (state r.old) v.now) }
    ensures free { OnOk result (has v.now.name names.now ≡ false) }
    ensures scope { OnOk result (r.new.scope ≡ r.old.scope) }
{
    let name = v.name.as_slice();
    if names.has(name) {
        return Err(fault(NameFault::Twice, d));
    }
    if r.versions() >= MOST_INTERFACES {
        return Err(fault(NameFault::Limit, d));
    }
    let ops = operations(alloc, r, v.procedures.as_slice())?;
    let n = number_of(r.scope(), d, &v.number)?;
    offer(alloc, r, d, program, number, name, n, ops)
}

/// The versions of a program.
fn versions(
    alloc: Global,
    r: &mut Resolver,
    program: &[u8],
    number: Option<u32>,
    list: &[Version],
) -> Result<(), NameErr>
    ensures value { Gives (λ _. state r.new) result
        (versions_on program.now number [] (state r.old) list.now) }
    ensures scope { OnOk result (r.new.scope ≡ r.old.scope) }
{
    let mut names = Names::new(alloc);
    for v in list {
        let d = r.next()?;
        version(alloc, r, d, program, number, &names, v)?;
        names.push(alloc, v.name.as_slice())?;
    }
    Ok(())
}

/// A number, if there is no fault.
fn given(number: &Result<u32, NameErr>) -> Option<u32>
    ensures { result ≡ given number.now }
{
    match number {
        Ok(n) => Some(*n),
        Err(_) => None,
    }
}

/// A program.
pub(crate) fn program(
    alloc: Global,
    r: &mut Resolver,
    d: u32,
    name: &[u8],
    list: &[Version],
    v: &Value,
) -> Result<(), NameErr>
    ensures { Gives (λ _. state r.new) result (program_on d (state r.old) name.now list.now v.now) }
{
    if r.scope().has(name) {
        return Err(fault(NameFault::Twice, d));
    }
    let number = number_of(r.scope(), d, v);
    versions(alloc, r, name, given(&number), list)?;
    number?;
    r.declare(alloc, name, Meaning::Program)
}
