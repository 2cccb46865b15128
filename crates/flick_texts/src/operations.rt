//! The lines of operations.

ghost use Rattle.std.specs.Prelude.{◌++◌, codes, map, OnOk};
ghost use Rattle.aoi.specs.Plain.{plain_operation, plain_raise};
ghost use Rattle.stub_print.specs.Putting.{IsPut};
ghost use Rattle.flick_texts.specs.Show.{oneway_text, operation_head, operation_line, operation_types, raises_text};
ghost use Rattle.flick_texts.specs.TypeText.{names_of, trees_of};

use crate::types::{put_parameters, put_type};
use crate::words::{put, put_name, put_numbered};
use aoi::{FullName, Operation, Raise, Ty};
use kit_base::{NoMemory, Octets};

/// Puts the line of an operation.
pub(crate) fn put_operation(
    out: &mut Octets,
    op: &Operation,
    types: &[(FullName, Ty)],
) -> Result<(), NoMemory>
    ensures { OnOk result (IsPut out.old
        (operation_line (names_of (trees_of types.now)) (plain_operation op.now)) out.new) }
{
    put_head(out, op)?;
    put_types(out, op, types)?;
    put_raises(out, op.raises.as_slice())?;
    put_end(out, op.oneway)
}

/// Puts the name and the numbers of an operation.
fn put_head(out: &mut Octets, op: &Operation) -> Result<(), NoMemory>
    ensures { OnOk result (IsPut out.old (operation_head (plain_operation op.now)) out.new) }
{
    put(out, b"op ")?;
    put(out, op.name.as_slice())?;
    put_numbered(out, b" proc ", u64::from(op.proc_no))?;
    put_numbered(out, b" slot ", u64::from(op.slot))
}

/// Puts the types of what goes into an operation, and of what comes out.
fn put_types(out: &mut Octets, op: &Operation, types: &[(FullName, Ty)]) -> Result<(), NoMemory>
    ensures { OnOk result (IsPut out.old
        (operation_types (names_of (trees_of types.now)) (plain_operation op.now)) out.new) }
{
    put(out, b" (")?;
    put_parameters(out, b"", op.ins.as_slice(), types)?;
    put(out, b") -> (")?;
    put_type(out, op.result.get(), types)?;
    put_parameters(out, b", ", op.outs.as_slice(), types)?;
    put(out, b")")
}

/// Puts the names of the exceptions that an operation raises.
fn put_raises(out: &mut Octets, raises: &[Raise]) -> Result<(), NoMemory>
    ensures { OnOk result (IsPut out.old
        (raises_text (codes " raises ") (map plain_raise raises.now)) out.new) }
{
    let mut mark: &[u8] = b" raises ";
    for raise in raises {
        put(out, mark)?;
        put_name(out, raise.name.get())?;
        mark = b", ";
    }
    Ok(())
}

/// Ends the line of an operation.
fn put_end(out: &mut Octets, oneway: bool) -> Result<(), NoMemory>
    ensures { OnOk result (IsPut out.old (λ rest. oneway_text oneway (codes "\n" ++ rest)) out.new) }
{
    if oneway {
        put(out, b" oneway")?;
    }
    put(out, b"\n")
}
