//! What finds the exceptions of operations by their names.

ghost use Rattle.std.specs.Prelude.{◌≡◌, [], ◌∷◌, None, Some, map, IfOk, OnOk, if◌then◌else◌};
ghost use Rattle.aoi.specs.Plain.{PlainOperation, plain, plain_raise, plain_operation, plain_interface};
ghost use Rattle.pres.specs.Offers.{gets_null};
ghost use Rattle.pres.specs.Raises.{FindEach, FindMore, FindsRaises, names_in, sources, sources_of};

use crate::messages::gets_null;
use crate::raise_table::RaiseTable;
use aoi::{FullNames, Interface, Operation, Raise, Unit};
use kit_base::NoMemory;
use std::alloc::Global;
use wire_def::Back;

/// The exceptions of operations by their names: one table for each operation.
pub(crate) type RaiseTables = Vec<RaiseTable>;

/// The names of exceptions.
fn names_of(alloc: Global, raises: &[Raise]) -> Result<FullNames, NoMemory>
    ensures { IfOk result (λ names. names ≡ names_in (map plain_raise raises.now)) }
{
    let mut names = FullNames::new(alloc);
    for raise in raises {
        names.push(raise.name.share()?)?;
    }
    Ok(names)
}

/// The table of exceptions.
fn raise_table(alloc: Global, raises: &[Raise]) -> Result<RaiseTable, NoMemory>
    ensures { IfOk result (λ table. FindsRaises (map plain_raise raises.now) table) }
{
    let names = names_of(alloc, raises)?;
    let table = RaiseTable::new(alloc, names)?;
    Ok(table)
}

/// Adds the tables of operations.
fn put_operations(
    alloc: Global,
    tables: &mut RaiseTables,
    ops: &[Operation],
) -> Result<(), NoMemory>
    ensures { OnOk result (FindMore (map (λ (op : PlainOperation). Some op) (map plain_operation ops.now))
        tables.old.items tables.new.items) }
{
    for op in ops {
        tables.push(raise_table(alloc, op.raises.as_slice())?)?;
    }
    Ok(())
}

/// Adds an empty table for the procedure that an interface gets, if it gets one.
fn put_gotten(
    alloc: Global,
    tables: &mut RaiseTables,
    back: Back,
    interface: &Interface,
) -> Result<(), NoMemory>
    ensures { OnOk result (FindMore (if gets_null back (plain_interface interface.now) then None ∷ [] else [])
        tables.old.items tables.new.items) }
{
    if gets_null(back, interface) {
        let names = FullNames::new(alloc);
        let table = RaiseTable::new(alloc, names)?;
        tables.push(table)?;
    }
    Ok(())
}

/// Adds the tables of an interface.
fn put_interface(
    alloc: Global,
    tables: &mut RaiseTables,
    back: Back,
    interface: &Interface,
) -> Result<(), NoMemory>
    ensures { OnOk result (FindMore (sources_of back (plain_interface interface.now))
        tables.old.items tables.new.items) }
{
    put_operations(alloc, tables, interface.ops.as_slice())?;
    put_gotten(alloc, tables, back, interface)?;
    Ok(())
}

/// Adds the tables of interfaces.
fn put_interfaces(
    alloc: Global,
    tables: &mut RaiseTables,
    back: Back,
    interfaces: &[Interface],
) -> Result<(), NoMemory>
    ensures { OnOk result (FindMore (sources back (map plain_interface interfaces.now))
        tables.old.items tables.new.items) }
{
    for interface in interfaces {
        put_interface(alloc, tables, back, interface)?;
    }
    Ok(())
}

/// What finds the exceptions of the operations that a back end has messages for.
pub(crate) fn raise_tables(alloc: Global, unit: &Unit, back: Back) -> Result<RaiseTables, NoMemory>
    ensures { IfOk result (λ tables. FindEach (sources back (plain unit.now).interfaces) tables.items) }
{
    let mut tables = RaiseTables::new(alloc);
    put_interfaces(alloc, &mut tables, back, unit.interfaces().as_slice())?;
    Ok(tables)
}
