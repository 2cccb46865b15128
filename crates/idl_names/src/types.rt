//! Types made of their parts, and put into a unit.

ghost use Rattle.std.specs.Prelude.{◌≡◌, [], ◌∷◌, ◌++◌, length, IfOk, IfErr, OnOk, OnErr};
ghost use Rattle.std.specs.Option.{option_map};
ghost use Rattle.aoi.specs.Shapes.{seen, array, arrayed, optional, structure, members, enumeration, choice, arms_seen};
ghost use Rattle.aoi.specs.declared.faults.NameFault.TheVariants.{NoMemory as OutOfMemory};

use crate::want;
use aoi::{Counts, Fields, FullName, Items, NameErr, Ty, UnionArms, Unit};
use kit_base::{Name, NoMemory};
use kit_shared::Shared;
use mint::kind::Count;
use std::alloc::Global;

/// Elements of one type, in a row.
pub fn array_of(alloc: Global, item: Ty, count: Count) -> Result<Ty, NoMemory>
    ensures { IfOk result (λ t. seen t ≡ array (seen item) count) }
{
    Ok(Ty::Array(Box::new(alloc, item)?, count))
}

/// Arrays of arrays: elements of one type, in rows of rows, the counts from the outside in. The type is one more owner
/// of the counts within the outermost.
pub fn arrays_of(
    alloc: Global,
    item: Ty,
    count: Count,
    within: &Shared<Counts>,
) -> Result<Ty, NoMemory>
    ensures { IfOk result (λ t. seen t ≡ array (arrayed (seen item) within.now) count) }
{
    Ok(Ty::Arrays(Box::new(alloc, item)?, count, within.share()?))
}

/// A value of a type, or none.
pub fn optional_of(alloc: Global, item: Ty) -> Result<Ty, NoMemory>
    ensures { IfOk result (λ t. seen t ≡ optional (seen item)) }
{
    Ok(Ty::Optional(Box::new(alloc, item)?))
}

/// A struct of these fields.
pub fn struct_of(fields: Fields) -> Ty
    ensures { seen result ≡ structure (members fields) }
{
    Ty::Struct(fields)
}

/// An item of an enum: its name and its number.
pub fn item_of(alloc: Global, name: &[u8], n: i32) -> Result<(Name, i32), NoMemory>
    ensures { IfOk result (λ i. i ≡ (name.now, n)) }
{
    Ok((Name::from_slice(alloc, name)?, n))
}

/// An enum of these items.
pub fn enum_of(items: Items) -> Ty
    ensures { seen result ≡ enumeration items }
{
    Ty::Enum(items)
}

/// A type in a box.
pub fn boxed(alloc: Global, ty: Ty) -> Result<Box<Ty>, NoMemory>
    ensures { IfOk result (λ b. b.value ≡ ty) }
{
    Ok(Box::new(alloc, ty)?)
}

/// A union of these arms, with what stands for every other number, if anything does.
pub fn union_of(
    alloc: Global,
    tag: Ty,
    arms: UnionArms,
    other: Option<Box<Ty>>,
) -> Result<Ty, NoMemory>
    ensures { IfOk result
        (λ t. seen t ≡ choice (seen tag) (arms_seen arms (option_map (λ b. seen b.value) other))) }
{
    Ok(Ty::Union(boxed(alloc, tag)?, arms, other))
}

/// Appends a type to a unit under a name, and gives its number.
pub fn add_type(alloc: Global, unit: &mut Unit, name: &[u8], ty: Ty) -> Result<u32, NameErr>
    ensures number { IfOk result (λ k. k ≡ length unit.old.types) }
    ensures ok { OnOk result
        (unit.new ≡ record unit.old { types = unit.old.types ++ (name.now, ty) ∷ [] }) }
    ensures same { OnErr result (unit.new ≡ unit.old) }
    ensures err { IfErr result (λ e. e.fault ≡ OutOfMemory) }
{
    if unit.types().len() > u32::MAX as usize {
        return Err(want());
    }
    let full = FullName::of(Name::from_slice(alloc, name)?);
    Ok(unit.add_type(full, ty)?)
}
