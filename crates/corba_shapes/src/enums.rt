//! Enumerations.

ghost use Rattle.std.specs.Prelude.{◌≡◌, [], map, IfOk};
ghost use Rattle.idl_names.specs.Answers.{Gives};
ghost use Rattle.idl_names.specs.Names.{has};
ghost use Rattle.corba_scopes.specs.Names.{lower, lower_of, refused_by, clash};
ghost use Rattle.corba_shapes.specs.Held.{state};
ghost use Rattle.corba_shapes.specs.Enums.{item_clash, items_on, enum_on};

use crate::state::Shapes;
use aoi::{Items, NameErr, NameFault};
use corba_decls::Enum;
use corba_scopes::{Meaning, Scopes, lower_of, refuse_fault};
use idl_exprs::Identifier;
use idl_names::{Tag, add_label, enum_of, item_of, want};
use indexmap::IndexSet;
use kit_base::NoMemory;
use std::alloc::Global;

/// Whether an item has the name.
fn has_item(name: &[u8], items: &[Identifier]) -> bool
    ensures { result ≡ has name.now (map (λ i. i.name) items.now) }
{
    for item in items {
        if name == item.name.as_slice() {
            return true;
        }
    }
    false
}

/// Whether an item has the name, in lower case.
fn has_lower(alloc: Global, small: &[u8], items: &[Identifier]) -> Result<bool, NoMemory>
    ensures { IfOk result (λ b. b ≡ has small.now (map (λ i. lower i.name) items.now)) }
{
    for item in items {
        let other = item.name.as_slice().to_ascii_lowercase(alloc)?;
        if small == other.as_slice() {
            return Ok(true);
        }
    }
    Ok(false)
}

/// Why an enum may not have its name among its items.
fn item_clash(
    alloc: Global,
    name: &[u8],
    items: &[Identifier],
) -> Result<Option<NameFault>, NoMemory>
    ensures { IfOk result (λ f. f ≡ item_clash name.now items.now) }
{
    if has_item(name, items) {
        return Ok(Some(NameFault::Twice));
    }
    let small = name.to_ascii_lowercase(alloc)?;
    if has_lower(alloc, small.as_slice(), items)? {
        return Ok(Some(NameFault::CaseClash));
    }
    Ok(None)
}

/// Refuses the name of an enum that clashes in its scope or with an item.
fn refuse_name(
    alloc: Global,
    scopes: &Scopes,
    d: u32,
    name: &[u8],
    items: &[Identifier],
) -> Result<(), NameErr>
    ensures { Gives (λ x. x) result
        (refused_by d (lower_of (clash scopes.now name.now) (item_clash name.now items.now))) }
{
    let f = scopes.clash(alloc, name)?;
    let g = item_clash(alloc, name, items)?;
    refuse_fault(d, lower_of(f, g))
}

/// Declares the items of an enum, and gives them with their numbers.
fn items(
    alloc: Global,
    scopes: &mut Scopes,
    labels: &mut IndexSet<(u32, i128)>,
    d: u32,
    k: u32,
    place: usize,
    list: &[Identifier],
) -> Result<Items, NameErr>
    ensures { Gives (λ items. record { names = scopes.new; labels = labels.new.keys; items = items }) result
        (items_on d k place
        (record { names = scopes.old; labels = labels.old.keys; items = [] }) list.now) }
{
    let mut items = Items::new(alloc);
    for item in list {
        let name = item.name.as_slice();
        let Ok(n) = i32::try_from(items.len()) else {
            return Err(want());
        };
        scopes.declare_new(alloc, d, name, Meaning::Number(i128::from(n)))?;
        add_label(labels, d, k, place, i128::from(n))?;
        items.push(item_of(alloc, name, n)?)?;
    }
    Ok(items)
}

/// Declares an enum and its items.
pub(crate) fn enum_(alloc: Global, r: &mut Shapes, d: u32, e: &Enum) -> Result<(), NameErr>
    ensures { Gives (λ _. state r.new) result (enum_on d (state r.old) e.now) }
{
    let name = e.name.name.as_slice();
    refuse_name(alloc, &r.scopes, d, name, e.items.as_slice())?;
    let k = r.next_type()?;
    let place = r.labels.len();
    let items = items(
        alloc,
        &mut r.scopes,
        &mut r.labels,
        d,
        k,
        place,
        e.items.as_slice(),
    )?;
    r.declare_type(alloc, d, name, enum_of(items), Tag::Enum(k), None)
}
