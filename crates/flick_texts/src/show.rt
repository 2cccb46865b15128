//! The text of a unit.

ghost use Rattle.std.specs.Prelude.{◌≡◌, map, IfOk, OnOk};
ghost use Rattle.aoi.specs.Plain.{plain, plain_interface, plain_operation};
ghost use Rattle.aoi.specs.Shapes.{seen};
ghost use Rattle.stub_print.specs.Putting.{IsPut};
ghost use Rattle.flick_texts.specs.Show.{interface_line, interface_lines, operation_lines, show_text, type_line, type_lines};
ghost use Rattle.flick_texts.specs.TypeText.{names_of, trees_of};

use crate::operations::put_operation;
use crate::types::put_type;
use crate::words::{put, put_name, put_numbered};
use aoi::{FullName, Interface, Operation, Ty, Unit};
use kit_base::{NoMemory, Octets};
use std::alloc::Global;

/// The text of a unit: a line for each type, for each interface, and for each of its operations. Its length and the
/// time are linear in the unit as its file writes it, since a named type is written by its name.
pub fn show_text(alloc: Global, unit: &Unit) -> Result<Octets, NoMemory>
    ensures value { IfOk result (λ t. t ≡ show_text (plain unit.now)) }
{
    let mut out = Octets::new(alloc);
    let types = unit.types().as_slice();
    put_types(&mut out, types)?;
    put_interfaces(&mut out, unit.interfaces().as_slice(), types)?;
    Ok(out)
}

/// Puts the lines of types.
fn put_types(out: &mut Octets, types: &[(FullName, Ty)]) -> Result<(), NoMemory>
    ensures { OnOk result (IsPut out.old
        (type_lines (names_of (trees_of types.now)) (trees_of types.now)) out.new) }
{
    for (name, ty) in types {
        put_type_line(out, name, ty, types)?;
    }
    Ok(())
}

/// Puts the line of a type.
fn put_type_line(
    out: &mut Octets,
    name: &FullName,
    ty: &Ty,
    types: &[(FullName, Ty)],
) -> Result<(), NoMemory>
    ensures { OnOk result (IsPut out.old
        (type_line (names_of (trees_of types.now)) (name.now, seen ty.now)) out.new) }
{
    put(out, b"type ")?;
    put_name(out, name)?;
    put(out, b" = ")?;
    put_type(out, ty, types)?;
    put(out, b"\n")
}

/// Puts the lines of interfaces, each with those of its operations.
fn put_interfaces(
    out: &mut Octets,
    interfaces: &[Interface],
    types: &[(FullName, Ty)],
) -> Result<(), NoMemory>
    ensures { OnOk result (IsPut out.old
        (interface_lines (names_of (trees_of types.now)) (map plain_interface interfaces.now)) out.new) }
{
    for interface in interfaces {
        put_interface_line(out, interface)?;
        put_operations(out, interface.ops.as_slice(), types)?;
    }
    Ok(())
}

/// Puts the line of an interface.
fn put_interface_line(out: &mut Octets, interface: &Interface) -> Result<(), NoMemory>
    ensures { OnOk result (IsPut out.old (interface_line (plain_interface interface.now)) out.new) }
{
    put(out, b"interface ")?;
    put(out, interface.name.as_slice())?;
    put_numbered(out, b" program ", u64::from(interface.program))?;
    put_numbered(out, b" version ", u64::from(interface.version))?;
    put_numbered(out, b" base ", u64::from(interface.base))?;
    put(out, b"\n")
}

/// Puts the lines of operations.
fn put_operations(
    out: &mut Octets,
    operations: &[Operation],
    types: &[(FullName, Ty)],
) -> Result<(), NoMemory>
    ensures { OnOk result (IsPut out.old
        (operation_lines (names_of (trees_of types.now)) (map plain_operation operations.now)) out.new) }
{
    for operation in operations {
        put_operation(out, operation, types)?;
    }
    Ok(())
}
