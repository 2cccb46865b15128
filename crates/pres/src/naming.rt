//! Copies of the names of a unit.

ghost use Rattle.std.specs.Prelude.{◌≡◌, map, IfOk, IsTrue};
ghost use Rattle.aoi.specs.Shapes.{members};
ghost use Rattle.aoi.specs.Sound.{are_distinct, names_of};
ghost use Rattle.pres.specs.Faces.{item, labels_of, sign_of};
ghost use Rattle.pres.specs.Named.{IsTagShape};

use crate::{FieldTable, ItemTable, Shape};
use aoi::{Field, Items, RaiseFields};
use kit_base::{Name, NoMemory, Words};
use kit_shared::Shared;
use mint::node::{Labels, Tag};
use std::alloc::Global;

/// A copy of a name.
pub(crate) fn copy_name(alloc: Global, name: &Name) -> Result<Name, NoMemory>
    ensures { IfOk result (λ n. n ≡ name.now) }
{
    let mut copy = Name::new(alloc);
    copy.append(name.as_slice())?;
    Ok(copy)
}

/// The words of fields.
fn field_words(alloc: Global, fields: &[Field]) -> Result<Words, NoMemory>
    ensures { IfOk result (λ ws. ws ≡ names_of (members fields.now)) }
{
    let mut names = Words::new(alloc);
    for field in fields {
        names.push(copy_name(alloc, &field.name)?)?;
    }
    Ok(names)
}

/// The names of fields.
pub(crate) fn field_names(alloc: Global, fields: &[Field]) -> Result<FieldTable, NoMemory>
    ensures { IfOk result (λ ws. ws ≡ names_of (members fields.now)) }
{
    let words = field_words(alloc, fields)?;
    FieldTable::new(alloc, words)
}

/// The names of an exception's members, which are copied where one is not of ASCII alone.
pub(crate) fn member_names(
    alloc: Global,
    fields: &Shared<RaiseFields>,
) -> Result<FieldTable, NoMemory>
    ensures { IfOk result (λ ws. ws ≡ names_of (members fields.now)) }
{
    if fields.get().are_ascii() {
        return FieldTable::shared(fields);
    }
    field_names(alloc, fields.get().as_slice())
}

/// A copy of the items of an enum.
fn copy_items(alloc: Global, items: &[(Name, i32)]) -> Result<Items, NoMemory>
    ensures { IfOk result (λ is. is ≡ items.now) }
{
    let mut copies = Items::new(alloc);
    for (name, n) in items {
        copies.push((copy_name(alloc, name)?, *n))?;
    }
    Ok(copies)
}

/// A table of the items of an enum.
pub(crate) fn item_table(alloc: Global, items: &[(Name, i32)]) -> Result<ItemTable, NoMemory>
    ensures { IfOk result (λ t. t ≡ items.now) }
{
    let names = copy_items(alloc, items)?;
    ItemTable::new(alloc, names)
}

/// The tag that is an enum.
pub(crate) fn enum_tag(labels: Labels, items: ItemTable) -> (Tag, Shape)
    requires labels { labels ≡ labels_of items }
    requires distinct { IsTrue (are_distinct (map (λ i. i.0) items)) }
    ensures named { IsTagShape result.0 result.1 }
    ensures sign { sign_of result.0 result.1 ≡ item items }
{
    (Tag::Enum(labels), Shape::LabelNames(items))
}
